//! What the calls of a depth book are made of.
ghost use Rattle.std.specs.Prelude.{◌≡◌, ℕ, ◌+◌, true, None, Some, MatchResult};
ghost use Rattle.terms.specs.declared.side.Side.{Side};
ghost use Rattle.quotes.specs.Takes.{may_take, taken};
ghost use Rattle.ranked.specs.Items.{room};
ghost use Rattle.ranked.specs.Order.{in_rank, FoundAt};
ghost use Rattle.leg_orders.specs.Ranks.{leg_before};
ghost use Rattle.leg_orders.specs.Uses.{used_up};
ghost use Rattle.leg_orders.specs.Adds.{entered};
ghost use Rattle.leg_orders.specs.Leaves.{order_numbered, without, left_if};
ghost use Rattle.depth_book.specs.Books.{standing, shows, why_not_added, NumberPlace};

use super::super::scan::is_crowded;
use super::super::uses::use_up;
use super::DepthBook;
use leg_orders::order::LegOrder;
use market::leg_market::MarketView;
use quotes::top::would_reach;
use terms::refusal::Refusal;
use terms::side::LegSide;
use terms::strategy::MAX_LEGS;

// The most orders that are ever added to one book.
const MAX_ADDED: u32 = 1_000_000;

impl DepthBook<'_> {
    // Whether the order may be added.
    pub(crate) fn may_add(&self, order: LegOrder) -> Result<(), Refusal>
        ensures { MatchResult result (λ _. None ≡ why_not_added self.now order) (λ refusal. Some refusal ≡ why_not_added self.now order) }
    {
        if order.at.leg >= MAX_LEGS {
            return Err(Refusal::QuoteRange);
        }
        if !order.level().is_sound() {
            return Err(Refusal::QuoteRange);
        }
        let facing = self.level(order.at.facing(), 0);
        if would_reach(order.at.side, order.price, facing) {
            return Err(Refusal::QuoteCrosses);
        }
        if self.orders.len() >= self.orders.room() {
            return Err(Refusal::BookRoom);
        }
        if self.added >= MAX_ADDED {
            return Err(Refusal::BookRoom);
        }
        let levels = self.levels(order.at);
        if is_crowded(levels, order.price, order.contracts) {
            return Err(Refusal::BookRoom);
        }
        Ok(())
    }

    // Takes in an order that nothing stands against.
    pub(crate) fn put_in(&mut self, order: LegOrder)
        requires next { order.number ≡ self.old.added + 1 }
        requires fits { None ≡ why_not_added self.old order }
        ensures orders { standing self.new ≡ in_rank leg_before order (standing self.old) }
        ensures added { self.new.added ≡ order.number }
        ensures quotes { (l : ℕ) (s : Side) → shows self.new l s ≡ entered (shows self.old) order l s }
        ensures room { room self.new.orders ≡ room self.old.orders }
    {
        let _ = self.orders.insert(order);
        self.added = order.number;
    }

    pub(crate) fn place_numbered(&self, number: u32) -> Option<usize>
        ensures { NumberPlace number (standing self.now) result }
    {
        self.orders.find(number)
    }

    // Takes out the order of this number, which stands at `place`.
    pub(crate) fn take_out(&mut self, number: u32, place: usize)
        requires { FoundAt (λ order. order.number) (standing self.old) number place }
        ensures orders { standing self.new ≡ without number (standing self.old) }
        ensures added { self.new.added ≡ self.old.added }
        ensures quotes { (l : ℕ) (s : Side) → shows self.new l s ≡ left_if (order_numbered number (standing self.old)) (shows self.old) l s }
        ensures room { room self.new.orders ≡ room self.old.orders }
    {
        let _ = self.orders.remove(place);
    }

    // Uses up orders of the best level, which holds as many contracts.
    pub(crate) fn use_best(&mut self, at: LegSide, quantity: u32)
        requires { may_take (shows self.old at.leg at.side).own quantity ≡ true }
        ensures orders { standing self.new ≡ used_up at.leg at.side quantity (standing self.old) }
        ensures added { self.new.added ≡ self.old.added }
        ensures quotes { (l : ℕ) (s : Side) → shows self.new l s ≡ taken (shows self.old) at.leg at.side quantity l s }
        ensures room { room self.new.orders ≡ room self.old.orders }
    {
        let start = self.start_of(at);
        use_up(&mut self.orders, start, quantity);
    }
}
