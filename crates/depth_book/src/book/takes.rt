//! Takes from a depth book.
ghost use Rattle.std.specs.Prelude.{◌≡◌, ℕ};
ghost use Rattle.terms.specs.declared.side.Side.{Side};
ghost use Rattle.quotes.specs.Takes.{taken, take_answer};
ghost use Rattle.ranked.specs.Items.{room};
ghost use Rattle.leg_orders.specs.Uses.{orders_left};
ghost use Rattle.depth_book.specs.Books.{standing, shows};

use super::DepthBook;
use market::leg_market::{LegMarket, MarketView};
use terms::refusal::Refusal;
use terms::side::LegSide;

impl LegMarket for DepthBook<'_> {
    // The orders of the best level go in rank.
    fn take(&mut self, at: LegSide, quantity: u32) -> Result<(), Refusal>
        ensures answer { result ≡ take_answer (shows self.old at.leg at.side).own quantity }
        ensures quotes { (l : ℕ) (s : Side) → shows self.new l s ≡ taken (shows self.old) at.leg at.side quantity l s }
        ensures orders { standing self.new ≡ orders_left at.leg at.side quantity (standing self.old) }
        ensures added { self.new.added ≡ self.old.added }
        ensures room { room self.new.orders ≡ room self.old.orders }
    {
        let best = self.level(at, 0).ok_or(Refusal::CannotTake)?;
        best.take(quantity)?;
        self.use_best(at, quantity);
        Ok(())
    }
}
