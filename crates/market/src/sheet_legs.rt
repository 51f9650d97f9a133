//! Changes to the legs of a quote sheet, on the plain records.
ghost use Rattle.std.specs.Prelude.{◌≡◌};
ghost use Rattle.terms.specs.Refusals.{answered};
ghost use Rattle.quotes.specs.Takes.{take_answer};
ghost use Rattle.quotes.specs.Sheets.{shown_of, own_refusal, own_put, away_refusal, away_put, take_put};

use quotes::level::Level;
use quotes::top::{LegTop, check_level, level_given, set_away};
use terms::refusal::Refusal;
use terms::side::LegSide;
use terms::strategy::MAX_LEGS;

pub(crate) fn put_own(
    legs: &mut [LegTop; MAX_LEGS],
    at: LegSide,
    level: Level,
) -> Result<(), Refusal>
    ensures answer { result ≡ answered (own_refusal (shown_of legs.old) at.leg at.side level) tt }
    ensures after { legs.new ≡ own_put legs.old at.leg at.side level }
{
    let top = *legs.get(at.leg).ok_or(Refusal::QuoteRange)?;
    check_level(at.side, level, top.own(at.side.opposite()))?;
    legs[at.leg] = top.with_own(at.side, level_given(level));
    Ok(())
}

pub(crate) fn put_away(
    legs: &mut [LegTop; MAX_LEGS],
    at: LegSide,
    price: u32,
) -> Result<(), Refusal>
    ensures answer { result ≡ answered (away_refusal at.leg price) tt }
    ensures after { legs.new ≡ away_put legs.old at.leg at.side price }
{
    let top = *legs.get(at.leg).ok_or(Refusal::QuoteRange)?;
    let away = set_away(top.away, at, price)?;
    legs[at.leg] = LegTop { away, ..top };
    Ok(())
}

pub(crate) fn take_best(
    legs: &mut [LegTop; MAX_LEGS],
    at: LegSide,
    quantity: u32,
) -> Result<(), Refusal>
    ensures answer { result ≡ take_answer (shown_of legs.old at.leg at.side).own quantity }
    ensures after { legs.new ≡ take_put legs.old at.leg at.side quantity }
{
    let top = *legs.get(at.leg).ok_or(Refusal::CannotTake)?;
    let level = top.own(at.side).ok_or(Refusal::CannotTake)?;
    let left = level.take(quantity)?;
    legs[at.leg] = top.with_own(at.side, left);
    Ok(())
}
