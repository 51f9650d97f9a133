//! The leg market, the quote sheet, and trials over a market.
#![tactic(auto)]

pub mod leg_market;
pub mod reader;
pub mod sheet;
mod sheet_legs;
pub mod trial;
mod trial_levels;
mod trial_totals;
