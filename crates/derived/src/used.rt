//! Used prices of a leg.
ghost use Rattle.std.specs.Prelude.{◌≡◌, ◌≤◌};
ghost use Rattle.quotes.specs.Tops.{top_of, own_of, away_of};
ghost use Rattle.derived.specs.Used.{SoundTop, Within, bound, better_of, quoted, quoted_price, from_opposite, used_price, own_behind, held, used_is_own, best_price, crossed};

use super::collar::{collar_value, deviation};
use market::leg_market::MarketView;
use quotes::level::Level;
use quotes::top::LegTop;
use terms::side::{BySide, LegSide, Side};

// The worst price that an own quote of this side can have beside the away price and still count.
fn bound(side: Side, away: u32) -> u32
    requires { away ≤ 1000000 }
    ensures { result ≡ bound side away }
{
    match side {
        Side::Buy => away.saturating_sub(deviation(away)),
        Side::Sell => away + deviation(away),
    }
}

fn better_of(side: Side, a: u32, b: u32) -> u32
    ensures { result ≡ better_of side a b }
{
    match side {
        Side::Buy => a.max(b),
        Side::Sell => a.min(b),
    }
}

// The higher bid or the lower offer, own or away.
fn best_price(side: Side, own: Option<Level>, away: Option<u32>) -> Option<u32>
    ensures { result ≡ best_price side own away }
{
    own.map(|level| away.map_or(level.price, |price| better_of(side, level.price, price)))
        .or(away)
}

// The price of one side by what is quoted there: own, else away.
fn quoted(side: Side, own: Option<Level>, away: Option<u32>) -> Option<u32>
    requires { Within away }
    ensures { result ≡ quoted side own away }
{
    if own.is_none() {
        return away;
    }
    best_price(side, own, away.map(|price| bound(side, price)))
}

// A price for a side with nothing quoted, a collar value from the price of the opposite side.
fn from_opposite(side: Side, price: u32) -> u32
    requires { price ≤ 1000000 }
    ensures { result ≡ from_opposite side price }
{
    let collar = collar_value(price);
    match side {
        Side::Buy => { if collar < price { price - collar } else { 1 } }
        Side::Sell => price + collar,
    }
}

// The top of a leg as a market shows it.
#[derive(Clone, Copy)]
pub(crate) struct ShownTop {
    top: LegTop,
    ghost sound: { SoundTop top },
}

impl ShownTop {
    pub(crate) fn read<M: MarketView>(market: &M, leg: usize) -> ShownTop
        ensures { result.top ≡ top_of (M.shown market.now leg) }
    {
        ShownTop {
            top: LegTop {
                own: BySide {
                    bid: market.level(LegSide::bid(leg), 0),
                    offer: market.level(LegSide::offer(leg), 0),
                },
                away: BySide {
                    bid: market.away(LegSide::bid(leg)),
                    offer: market.away(LegSide::offer(leg)),
                },
            },
        }
    }

    #[tactic(auto, using(crate::proofs::Bounds::away_of_within))]
    #[inline(always)]
    fn quoted_price(&self, side: Side) -> Option<u32>
        ensures value { result ≡ quoted_price self.now.top side }
        ensures within { Within result }
    {
        // A match on the side, and inlined: `own(side)` has the whole top written to memory, to pick from it.
        let LegTop { own, away } = self.top;
        match side {
            Side::Buy => quoted(side, own.bid, away.bid),
            Side::Sell => quoted(side, own.offer, away.offer),
        }
    }

    #[inline(always)]
    pub(crate) fn used_price(&self, side: Side) -> Option<u32>
        ensures { result ≡ used_price self.now.top side }
    {
        self.quoted_price(side).or_else(|| {
            self.quoted_price(side.opposite())
                .map(|facing| from_opposite(side, facing))
        })
    }

    // The own level whose price is the used price.
    pub(crate) fn own_behind(&self, side: Side, price: u32) -> Option<Level>
        ensures value { result ≡ own_behind (own_of self.now.top side) price }
        ensures most { held result ≤ 10000000 }
    {
        self.top.own(side).filter(|own| own.price == price)
    }

    // The higher bid or the lower offer of the leg, own or away.
    fn best_price(&self, side: Side) -> Option<u32>
        ensures { result ≡ best_price side (own_of self.now.top side) (away_of self.now.top side) }
    {
        best_price(side, self.top.own(side), self.top.away(side))
    }

    // Whether the higher bid, own or away, reaches the lower offer.
    pub(crate) fn is_crossed(&self) -> bool
        ensures { result ≡ crossed self.now.top }
    {
        let offer = self.best_price(Side::Sell);
        self.best_price(Side::Buy)
            .zip(offer)
            .is_some_and(|(bid, offer)| offer <= bid)
    }
}

// The used bid of a leg for the buy side, its used offer for the sell side.
pub fn used_price<M: MarketView>(market: &M, at: LegSide) -> Option<u32>
    ensures { result ≡ used_price (top_of (M.shown market.now at.leg)) at.side }
{
    ShownTop::read(market, at.leg).used_price(at.side)
}

// Whether the used price is that of the best own level.
pub fn is_own<M: MarketView>(market: &M, at: LegSide) -> bool
    ensures { result ≡ used_is_own (top_of (M.shown market.now at.leg)) at.side }
{
    let top = ShownTop::read(market, at.leg);
    top.used_price(at.side)
        .is_some_and(|price| top.own_behind(at.side, price).is_some())
}
