//! The ranked list.
ghost use Rattle.std.specs.Prelude.{◌≡◌, ◌≤◌, true, length, take};
ghost use Rattle.ranked.specs.Order.{in_order};

use super::rank::Rank;

pub mod calls;

// The memory is lent and fixed, so the list is a buffer with a length.
#[derive(Drop)]
pub struct Ranked<'a, T: Rank> {
    slots: &'a mut [T],
    len: usize,
    ghost within: { len ≤ length slots.now },
    ghost ranked: { in_order T.before (take len slots.now) ≡ true },
}
