//! Lending.
ghost use Rattle.depth_book.specs.Memories.{MemoryLent};

use super::OrderMemory;
use leg_orders::order::LegOrder;
use ranked::list::Ranked;
use terms::refusal::Refusal;

// The most leg orders that stand in one book.
const MAX_ORDERS: usize = 512;

impl<'a> OrderMemory<'a> {
    pub fn lend(slots: &'a mut [LegOrder]) -> Result<OrderMemory<'a>, Refusal>
        ensures { MemoryLent slots.old result }
    {
        if slots.len() < 1 {
            return Err(Refusal::LentMemory);
        }
        if slots.len() > MAX_ORDERS {
            return Err(Refusal::LentMemory);
        }
        Ok(OrderMemory {
            orders: Ranked::new(slots),
        })
    }
}
