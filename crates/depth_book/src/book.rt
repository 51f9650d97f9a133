//! The depth book.
ghost use Rattle.std.specs.Prelude.{◌≡◌, ◌≤◌, true, length, nat_le};
ghost use Rattle.ranked.specs.Items.{items, room};
ghost use Rattle.leg_orders.specs.Books.{SoundBook, fine_orders, numbers_kept};

use leg_orders::order::LegOrder;
use quotes::top::AwayPrices;
use ranked::list::Ranked;
use terms::strategy::MAX_LEGS;

pub mod calls;
mod moves;
pub mod shown;
pub mod takes;

#[derive(Drop)]
pub struct DepthBook<'a> {
    orders: Ranked<'a, LegOrder>,
    away: [AwayPrices; MAX_LEGS],
    added: u32,
    ghost some: { 1 ≤ room orders },
    ghost most: { room orders ≤ 512 },
    ghost fine: { fine_orders (items orders) ≡ true },
    ghost numbers: { numbers_kept added (items orders) ≡ true },
    ghost few: { nat_le added 1000000 ≡ true },
    // Said once more than by the array, for the law that a leg past the sixth shows nothing is stated of the plain list.
    ghost long: { length away ≡ 6 },
    ghost sound: { SoundBook (items orders) away },
}
