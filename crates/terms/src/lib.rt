//! The words of the trade: sides, legs, strategies, and the refusals of the whole product.
#![tactic(auto)]

pub mod leg;
mod ratios;
pub mod refusal;
pub mod side;
pub mod strategy;
