//! Derived prices: what a strategy is worth on the quotes of its legs.
#![tactic(auto)]

pub mod collar;
mod priced_leg;
pub mod prices;
mod tally;
pub mod used;
