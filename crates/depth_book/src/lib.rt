//! The depth book: a leg market of depth 16 over leg orders.
#![tactic(auto)]

mod away_table;
pub mod book;
pub mod memory;
mod scan;
mod side_levels;
mod uses;
