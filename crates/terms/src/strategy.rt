//! Strategies.
ghost use Rattle.std.specs.Prelude.{◌≡◌, ◌≤◌, true, take};
ghost use Rattle.terms.specs.Strategies.{sound_legs};

use super::leg::Leg;

pub mod methods;

// The most legs of a strategy, and so of a market.
pub const MAX_LEGS: usize = 6;

// Two to six legs whose ratios have no common factor. The places past the last leg hold anything.
// Memory is fixed, and a strategy is copied as a number is, as no list of the library's is: so it keeps an array and a count.
#[derive(Clone, Copy)]
pub struct Strategy {
    legs: [Leg; MAX_LEGS],
    count: usize,
    ghost few: { count ≤ 6 },
    ghost sound: { sound_legs (take count legs) ≡ true },
}
