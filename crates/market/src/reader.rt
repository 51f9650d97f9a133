//! A borrowed market, to be read only.
ghost use Rattle.std.specs.Prelude.{◌≡◌};

use super::leg_market::MarketView;
use quotes::level::Level;
use terms::side::LegSide;

#[derive(Drop)]
pub struct MarketReader<'a, M> {
    market: &'a M,
}

impl<'a, M: MarketView> MarketReader<'a, M> {
    pub fn new(market: &'a M) -> MarketReader<'a, M>
        ensures { result.market.now ≡ market.now }
    {
        MarketReader { market }
    }
}

impl<M: MarketView> MarketView for MarketReader<'_, M> {
    const DEPTH: usize = M::DEPTH;

    ghost depth = { M.MarketView.depth };

    ghost shown = { λ reader. M.MarketView.shown reader.market.now };

    ghost deep = { M.MarketView.deep };

    ghost sound = { λ reader. M.MarketView.sound reader.market.now };

    fn max_levels() -> usize {
        M::max_levels()
    }

    fn level(&self, at: LegSide, place: usize) -> Option<Level> {
        self.market.level(at, place)
    }

    fn away(&self, at: LegSide) -> Option<u32> {
        self.market.away(at)
    }
}
