//! A leg of a strategy with its used prices.
ghost use Rattle.std.specs.Prelude.{◌≡◌, ◌*◌, ◌≤◌};
ghost use Rattle.derived.specs.Used.{held, crossed};
ghost use Rattle.derived.specs.Derived.{SeenLeg, facing, price_for, on_side, level_for, has_customers, units_of_leg};
ghost use Rattle.derived.specs.Tallies.{GoodLeg, leg_priced, PricedAt};

use super::used::ShownTop;
use market::leg_market::MarketView;
use quotes::level::Level;
use std::marker::Model;
use terms::leg::Leg;
use terms::side::{BySide, Side};

// A leg as the market shows it, where it has a used bid and a used offer.
#[derive(Drop)]
pub(crate) struct PricedLeg {
    leg: Leg,
    top: ShownTop,
    used: BySide<u32>,
}

impl Model for PricedLeg {
    ghost Value = { SeenLeg };

    ghost view = { λ priced. record { leg = priced.leg; top = priced.top.top } };

    ghost invariant = { λ priced. PricedAt priced.leg priced.top.top priced.used.bid priced.used.offer };
}

impl PricedLeg {
    pub(crate) fn read<M: MarketView>(leg: Leg, market: &M, place: usize) -> Option<PricedLeg>
        requires { GoodLeg leg }
        ensures { result ≡ leg_priced (M.shown market.now) place leg }
    {
        let top = ShownTop::read(market, place);
        let bid = top.used_price(Side::Buy)?;
        let offer = top.used_price(Side::Sell)?;
        Some(PricedLeg {
            leg,
            top,
            used: BySide { bid, offer },
        })
    }

    // The side of the leg's quotes with which a trader of units trades.
    fn facing(&self, trader: Side) -> Side
        ensures { result ≡ facing trader self.now.leg.side }
    {
        match trader {
            Side::Buy => self.leg.side.opposite(),
            Side::Sell => self.leg.side,
        }
    }

    fn price(&self, trader: Side) -> u32
        ensures value { result ≡ price_for trader self.now }
        ensures most { result ≤ 1000190 }
    {
        self.used.on(self.facing(trader))
    }

    // The own level behind the used price.
    fn level(&self, trader: Side) -> Option<Level>
        ensures value { result ≡ level_for trader self.now }
        ensures most { held result ≤ 10000000 }
    {
        self.top.own_behind(self.facing(trader), self.price(trader))
    }

    // What a trader of one unit pays or gets in this leg, and 0 where the leg is not on `side`.
    pub(crate) fn worth(&self, side: Side, trader: Side) -> u32
        ensures value { result ≡ on_side side self.now (self.now.leg.ratio * price_for trader self.now) }
        ensures most { result ≤ 100019000 }
    {
        if self.leg.side == side {
            self.leg.ratio * self.price(trader)
        } else {
            0
        }
    }

    pub(crate) fn has_customers(&self, trader: Side) -> bool
        ensures { result ≡ has_customers (level_for trader self.now) }
    {
        self.level(trader).is_some_and(|own| own.customer >= 1)
    }

    pub(crate) fn units(&self, trader: Side) -> u32
        ensures { result ≡ units_of_leg trader self.now }
    {
        let ratio = self.leg.ratio;
        self.level(trader)
            .map_or(0, |own| (own.customer + own.other) / ratio)
    }

    pub(crate) fn is_crossed(&self) -> bool
        ensures { result ≡ crossed self.now.top }
    {
        self.top.is_crossed()
    }
}
