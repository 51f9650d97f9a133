//! What is left of the levels below a trial.
ghost use Rattle.std.specs.Prelude.{◌≡◌};
ghost use Rattle.std.specs.List.{slice_get};
ghost use Rattle.quotes.specs.Trials.{less_taken, Finds};

use super::leg_market::MarketView;
use quotes::level::Level;
use quotes::taken::Found;
use terms::side::LegSide;

// The best level of which something is left once `total` contracts are taken.
pub(crate) fn first_left<M: MarketView>(below: &M, at: LegSide, total: u32) -> Option<Found>
    ensures { Finds (M.shown below.now at.leg at.side).own total result }
{
    let mut more = total;
    // a market is asked place by place, so there is nothing to go over but places
    for place in 0..M::max_levels() {
        let level = below.level(at, place)?;
        if let Some(left) = level.left(more) {
            return Some(Found { place, level: left });
        }
        more -= level.customer + level.other;
    }
    None
}

// The level at a place, counted among those of which something is left.
pub(crate) fn level_left<M: MarketView>(
    below: &M,
    at: LegSide,
    total: u32,
    place: usize,
) -> Option<Level>
    ensures { result ≡ slice_get (less_taken (M.shown below.now at.leg at.side).own total) place }
{
    if place >= M::max_levels() {
        return None;
    }
    let found = first_left(below, at, total)?;
    if place == 0 {
        return Some(found.level);
    }
    below.level(at, found.place + place)
}
