//! Reading the levels of one side off its ranked orders.
ghost use Rattle.std.specs.Prelude.{◌≡◌, ◌≤◌, ◌&&◌, ◌==◌};
ghost use Rattle.std.specs.Iterator.{YieldsFirst, item_count};
ghost use Rattle.quotes.specs.Shown.{contracts};
ghost use Rattle.leg_orders.specs.Levels.{is_of, level_from, plus};
ghost use Rattle.leg_orders.specs.Adds.{crowded};
ghost use Rattle.depth_book.specs.Levels.{unread_levels};

use super::side_levels::SideLevels;
use leg_orders::order::LegOrder;
use quotes::level::{Level, MAX_CONTRACTS};

// The most prices on one side of a leg.
pub(crate) const MAX_PRICES: usize = 16;

// The level with one order more at its price.
fn with_order(level: Level, order: &LegOrder) -> Level
    requires { contracts (plus level (level_from order.now)) ≤ 10000000 }
    ensures { result ≡ plus level (level_from order.now) }
{
    let more = order.level();
    Level {
        price: level.price,
        customer: level.customer + more.customer,
        other: level.other + more.other,
    }
}

impl SideLevels<'_> {
    // Whether the order stands on this side of the leg at this price.
    fn is_at(&self, order: &LegOrder, price: u32) -> bool
        ensures { result ≡ (is_of self.now.at.leg self.now.at.side order.now && order.now.price == price) }
    {
        order.is_of(self.at) && order.price == price
    }
}

impl Iterator for SideLevels<'_> {
    type Item = Level;

    ghost next_gives = { YieldsFirst unread_levels };

    ghost remaining = { item_count unread_levels };

    // The orders at one price are neighbours: the level is the sum of those in front at the first one's price.
    fn next(&mut self) -> Option<Level> {
        let (first, mut rest) = self.rest.split_first()?;
        if !first.is_of(self.at) {
            return None;
        }
        let mut level = first.level();
        while let Some((order, behind)) = rest.split_first() {
            if !self.is_at(order, level.price) {
                break;
            }
            level = with_order(level, order);
            rest = behind;
        }
        self.rest = rest;
        Some(level)
    }
}

// Whether `quantity` contracts more at `price` would make a 17th price or too large a level.
pub(crate) fn is_crowded(levels: SideLevels<'_>, price: u32, quantity: u32) -> bool
    requires { quantity ≤ 10000000 }
    ensures { result ≡ crowded price quantity (unread_levels levels.entry) }
{
    // One reading both looks for the price and counts the others.
    let mut prices: usize = 0;
    for level in levels {
        if level.price == price {
            return level.customer + level.other + quantity > MAX_CONTRACTS;
        }
        prices += 1;
    }
    prices >= MAX_PRICES
}
