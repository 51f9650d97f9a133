//! What a depth book shows.
ghost use Rattle.std.specs.Prelude.{◌≡◌, ◌≤◌, length};
ghost use Rattle.ranked.specs.Order.{place_for};
ghost use Rattle.leg_orders.specs.Ranks.{leg_before, ahead_of};
ghost use Rattle.leg_orders.specs.Levels.{own};
ghost use Rattle.leg_orders.proofs.Books.{book-sound, book-depth};
ghost use Rattle.depth_book.specs.Books.{standing, shows};
ghost use Rattle.depth_book.specs.Levels.{unread_levels};

use super::super::scan::MAX_PRICES;
use super::super::side_levels::SideLevels;
use super::DepthBook;
use leg_orders::order::LegOrder;
use market::leg_market::MarketView;
use quotes::level::Level;
use terms::side::LegSide;

impl DepthBook<'_> {
    // The place where the orders of one side of a leg begin.
    pub(crate) fn start_of(&self, at: LegSide) -> usize
        ensures place { result ≡ place_for leg_before (ahead_of at.leg at.side) (standing self.now) }
        ensures within { result ≤ length (standing self.now) }
    {
        self.orders.place_of(&LegOrder::ahead_of(at))
    }

    // The own levels of one side of a leg, best first.
    pub(crate) fn levels(&self, at: LegSide) -> SideLevels<'_>
        ensures { unread_levels result ≡ own at.leg at.side (standing self.now) }
    {
        let start = self.start_of(at);
        SideLevels {
            rest: &self.orders.as_slice()[start..],
            at,
        }
    }
}

impl MarketView for DepthBook<'_> {
    const DEPTH: usize = MAX_PRICES;

    ghost depth = { 16 };

    ghost shown = { shows };

    ghost deep = { book-depth };

    ghost sound = { λ book. book-sound _ book.away book.long book.fine book.sound };

    fn max_levels() -> usize
        ensures { result ≡ 16 }
    {
        Self::DEPTH
    }

    fn level(&self, at: LegSide, place: usize) -> Option<Level> {
        self.levels(at).nth(place)
    }

    fn away(&self, at: LegSide) -> Option<u32> {
        self.away.get(at.leg)?.on(at.side)
    }
}
