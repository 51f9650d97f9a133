//! What was taken in a trial on each of the six legs, on the plain records.
ghost use Rattle.std.specs.Prelude.{◌≡◌, ◌+◌, ◌<◌, ◌≤◌, [], ◌∷◌, length};
ghost use Rattle.quotes.specs.Shown.{contracts};
ghost use Rattle.quotes.specs.Takes.{take_answer};
ghost use Rattle.quotes.specs.Trials.{taken_at, taken_more};

use quotes::level::Level;
use quotes::taken::Taken;
use terms::refusal::Refusal;
use terms::side::LegSide;

pub(crate) fn total_at(totals: &[Taken], at: LegSide) -> u32
    ensures { result ≡ taken_at totals.now at.leg at.side }
{
    totals.get(at.leg).map_or(0, |taken| taken.on(at.side))
}

// A take from `best`, the best level that the trial shows.
pub(crate) fn add_take(
    totals: &mut [Taken],
    at: LegSide,
    best: Level,
    quantity: u32,
) -> Result<(), Refusal>
    requires leg_in_bounds { at.leg < length totals.old }
    requires room { taken_at totals.old at.leg at.side + contracts best ≤ 160000000 }
    ensures answer { result ≡ take_answer (best ∷ []) quantity }
    ensures after { totals.new ≡ taken_more totals.old at.leg at.side (best ∷ []) quantity }
{
    best.take(quantity)?;
    let old = totals[at.leg];
    totals[at.leg] = old.with(at.side, old.on(at.side) + quantity);
    Ok(())
}
