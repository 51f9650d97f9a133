//! Leg orders: their rank, the levels they make, and what adding, withdrawing and taking leave of them.
#![tactic(auto)]

pub mod order;
