//! The derived prices of a strategy on any market.
ghost use Rattle.std.specs.Prelude.{◌≡◌};
ghost use Rattle.terms.specs.Made.{legs_of};
ghost use Rattle.derived.specs.Derived.{derived_of, dbb_of, dbo_of, collars_of, orders_may_meet, leg_units, LeastUnits};

use super::priced_leg::PricedLeg;
use super::tally::Tally;
use market::leg_market::MarketView;
use terms::side::Side;
use terms::strategy::Strategy;

// All derived prices for one state of the quotes, by the trade's names for them.
#[derive(Clone, Copy)]
pub struct Derived {
    pub dbb: i64,
    pub dbo: i64,
    // bottom and top
    pub collars: (i64, i64),
    pub may_meet: bool,
    pub buyer_units: u32,
    pub seller_units: u32,
}

// Absent where a leg has no used prices. A strategy and a market come from different owners and are only looked at, so a record
// of the two would be made for each call and taken apart in it.
pub fn derived_prices<M: MarketView>(strategy: &Strategy, market: &M) -> Option<Derived>
    ensures value { result ≡ derived_of (M.shown market.now) (legs_of strategy.now) }
    ensures least { LeastUnits (M.shown market.now) (legs_of strategy.now) result }
{
    let mut tally = Tally::new();
    for leg in strategy.legs() {
        let priced = PricedLeg::read(*leg, market, tally.legs())?;
        tally = tally.with(&priced);
    }
    Some(tally.derived(strategy.smallest_ratio()))
}

// The derived best bid. This, `dbo`, `collars` and `may_meet` are one call each; one function for all four would ask each
// caller for a closure.
pub fn dbb<M: MarketView>(strategy: &Strategy, market: &M) -> Option<i64>
    ensures { result ≡ dbb_of (derived_of (M.shown market.now) (legs_of strategy.now)) }
{
    derived_prices(strategy, market).map(|derived| derived.dbb)
}

// The derived best offer.
pub fn dbo<M: MarketView>(strategy: &Strategy, market: &M) -> Option<i64>
    ensures { result ≡ dbo_of (derived_of (M.shown market.now) (legs_of strategy.now)) }
{
    derived_prices(strategy, market).map(|derived| derived.dbo)
}

// Bottom and top.
pub fn collars<M: MarketView>(strategy: &Strategy, market: &M) -> Option<(i64, i64)>
    ensures { result ≡ collars_of (derived_of (M.shown market.now) (legs_of strategy.now)) }
{
    derived_prices(strategy, market).map(|derived| derived.collars)
}

pub fn may_meet<M: MarketView>(strategy: &Strategy, market: &M) -> bool
    ensures { result ≡ orders_may_meet (derived_of (M.shown market.now) (legs_of strategy.now)) }
{
    derived_prices(strategy, market).is_some_and(|derived| derived.may_meet)
}

// The units that the own levels behind DBO hold for a buyer, those behind DBB for a seller.
pub fn leg_units<M: MarketView>(strategy: &Strategy, market: &M, trader: Side) -> u32
    ensures { result ≡ leg_units trader (derived_of (M.shown market.now) (legs_of strategy.now)) }
{
    derived_prices(strategy, market).map_or(0, |derived| match trader {
        Side::Buy => derived.buyer_units,
        Side::Sell => derived.seller_units,
    })
}
