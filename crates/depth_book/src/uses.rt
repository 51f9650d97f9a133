//! Orders used up.
ghost use Rattle.std.specs.Prelude.{◌≡◌};
ghost use Rattle.ranked.specs.Items.{items, room};
ghost use Rattle.leg_orders.specs.Scans.{used_from};

use leg_orders::order::LegOrder;
use ranked::list::Ranked;

// Takes `quantity` contracts from the orders that stand from `start` on, the first of them first.
pub(crate) fn use_up(orders: &mut Ranked<'_, LegOrder>, start: usize, quantity: u32)
    ensures room { room orders.new ≡ room orders.old }
    ensures list { items orders.new ≡ used_from start quantity (items orders.old) }
{
    let mut left = quantity;
    while let Some(order) = orders.get(start) {
        if left < order.contracts {
            let _ = orders.replace(start, order.with_fewer(left));
            return;
        }
        left -= order.contracts;
        let _ = orders.remove(start);
    }
}
