//! The levels of one side of a leg, as they are read off the orders.
ghost use Rattle.leg_orders.specs.Scans.{Scannable};

use leg_orders::order::LegOrder;
use terms::side::LegSide;

// The orders from the best of the side on that are still to be read.
#[derive(Drop)]
pub(crate) struct SideLevels<'a> {
    pub rest: &'a [LegOrder],
    pub at: LegSide,
    ghost scan: { Scannable at.leg at.side rest.now },
}
