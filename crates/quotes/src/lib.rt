//! What a leg market shows, the rules it keeps, and what taking from it leaves.
#![tactic(auto)]

pub mod level;
pub mod taken;
pub mod top;
