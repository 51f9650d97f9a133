//! What was taken in a trial, and where something is left.
use super::level::Level;
use terms::side::BySide;

// The contracts taken on each side of one leg.
pub type Taken = BySide<u32>;

// The best level of which something is left: its place among all levels, and what is left of it.
#[derive(Clone, Copy)]
pub struct Found {
    pub place: usize,
    pub level: Level,
}
