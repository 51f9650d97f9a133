//! The top of a leg: its best own level and its away price on each side.
ghost use Rattle.std.specs.Prelude.{◌≡◌};
ghost use Rattle.quotes.specs.Tops.{own_of, away_of, with_own, with_away, no_top, list_of};
ghost use Rattle.terms.specs.Refusals.{answered};
ghost use Rattle.terms.specs.Sides.{with_on};
ghost use Rattle.quotes.specs.Sheets.{away_given, away_refusal, level_given, level_refusal, would_reach};

use super::level::{Level, MAX_PRICE};
use terms::refusal::Refusal;
use terms::side::{BySide, LegSide, Side};
use terms::strategy::MAX_LEGS;

// The away prices of a leg.
pub type AwayPrices = BySide<Option<u32>>;

// Of a market of depth 1 this is all that it shows of the leg.
#[derive(Clone, Copy)]
pub struct LegTop {
    pub own: BySide<Option<Level>>,
    pub away: AwayPrices,
}

impl LegTop {
    pub fn empty() -> LegTop
        ensures { result ≡ no_top }
    {
        LegTop {
            own: BySide::default(),
            away: BySide::default(),
        }
    }

    // What stands on one side, or the top with something else there: each is one call on the pair that it names.
    pub fn own(&self, side: Side) -> Option<Level>
        ensures { result ≡ own_of self.now side }
    {
        self.own.on(side)
    }

    pub fn away(&self, side: Side) -> Option<u32>
        ensures { result ≡ away_of self.now side }
    {
        self.away.on(side)
    }

    pub fn with_own(self, side: Side, level: Option<Level>) -> LegTop
        ensures { result ≡ with_own self side level }
    {
        LegTop {
            own: self.own.with(side, level),
            ..self
        }
    }

    pub fn with_away(self, side: Side, price: Option<u32>) -> LegTop
        ensures { result ≡ with_away self side price }
    {
        LegTop {
            away: self.away.with(side, price),
            ..self
        }
    }
}

// Whether an own level at `price` on `side` would reach `facing`, the best own level of the other side.
pub fn would_reach(side: Side, price: u32, facing: Option<Level>) -> bool
    ensures { result ≡ would_reach side price (list_of facing) }
{
    facing.is_some_and(|best| match side {
        Side::Buy => best.price <= price,
        Side::Sell => price <= best.price,
    })
}

// Whether an own level may be set on `side`; one without contracts clears the side.
pub fn check_level(side: Side, level: Level, facing: Option<Level>) -> Result<(), Refusal>
    ensures { result ≡ answered (level_refusal side level (list_of facing)) tt }
{
    if level.is_empty() {
        return Ok(());
    }
    if !level.is_sound() {
        return Err(Refusal::QuoteRange);
    }
    if would_reach(side, level.price, facing) {
        return Err(Refusal::QuoteCrosses);
    }
    Ok(())
}

// The away prices of a leg once one of them is set; 0 clears it.
pub fn set_away(prices: AwayPrices, at: LegSide, price: u32) -> Result<AwayPrices, Refusal>
    ensures { result ≡ answered (away_refusal at.leg price) (with_on prices at.side (away_given price)) }
{
    if at.leg >= MAX_LEGS || price > MAX_PRICE {
        return Err(Refusal::QuoteRange);
    }
    Ok(prices.with(at.side, away_given(price)))
}

// An own level as it is given: one without contracts is none, as the rule of the call has it. The library's own conversion to
// an option takes every level.
pub fn level_given(level: Level) -> Option<Level>
    ensures { result ≡ level_given level }
{
    if level.is_empty() { None } else { Some(level) }
}

// An away price as it is given: 0 is none, as the rule of the call has it. The library's own conversion to an option takes
// 0 too.
pub fn away_given(price: u32) -> Option<u32>
    ensures { result ≡ away_given price }
{
    if price == 0 { None } else { Some(price) }
}
