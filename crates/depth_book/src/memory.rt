//! Memory that a caller lends to a depth book.
ghost use Rattle.std.specs.Prelude.{◌≤◌};
ghost use Rattle.ranked.specs.Items.{room};

use leg_orders::order::LegOrder;
use ranked::list::Ranked;

mod lending;

#[derive(Drop)]
pub struct OrderMemory<'a> {
    pub(crate) orders: Ranked<'a, LegOrder>,
    ghost some: { 1 ≤ room orders },
    ghost most: { room orders ≤ 512 },
}
