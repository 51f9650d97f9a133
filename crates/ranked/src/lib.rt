//! A list in rank order over memory that its caller lends.
#![tactic(auto)]

pub mod list;
pub mod rank;
