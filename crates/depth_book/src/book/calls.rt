//! The calls of a depth book.
ghost use Rattle.std.specs.Prelude.{◌≡◌, ℕ, true, []};
ghost use Rattle.terms.specs.declared.side.Side.{Side};
ghost use Rattle.terms.specs.Refusals.{answered};
ghost use Rattle.quotes.specs.Shown.{nothing};
ghost use Rattle.quotes.specs.Sheets.{away_refusal, away_set};
ghost use Rattle.ranked.specs.Items.{room};
ghost use Rattle.ranked.specs.Order.{in_order};
ghost use Rattle.leg_orders.specs.Ranks.{leg_before};
ghost use Rattle.leg_orders.specs.Books.{fine_orders, numbers_kept};
ghost use Rattle.leg_orders.specs.Leaves.{order_numbered, withdraw_refusal, without, left_if};
ghost use Rattle.leg_orders.specs.Sums.{customers_at, others_at, customers_ordered, others_ordered};
ghost use Rattle.depth_book.specs.Memories.{Lent};
ghost use Rattle.depth_book.specs.Books.{standing, shows, next_order, add_answer, orders_added, last_added, quotes_added};

use super::super::away_table::put_away;
use super::super::memory::OrderMemory;
use super::DepthBook;
use leg_orders::order::LegOrder;
use terms::refusal::Refusal;
use terms::side::{BySide, LegSide};
use terms::strategy::MAX_LEGS;

impl<'a> DepthBook<'a> {
    // An empty book over the memory.
    pub fn new(memory: OrderMemory<'a>) -> DepthBook<'a>
        ensures orders { standing result ≡ [] }
        ensures quotes { (l : ℕ) (s : Side) → shows result l s ≡ nothing }
        ensures room { room result.orders ≡ room memory.entry.orders }
        ensures added { result.added ≡ 0 }
    {
        let mut orders = memory.orders;
        orders.clear();
        DepthBook {
            orders,
            away: [BySide::default(); MAX_LEGS],
            added: 0,
        }
    }

    // The same in one step, from memory for 1 to 512 orders.
    pub fn lend(slots: &'a mut [LegOrder]) -> Result<DepthBook<'a>, Refusal>
        ensures { Lent slots.old result }
    {
        OrderMemory::lend(slots).map(|memory| DepthBook::new(memory))
    }
}

impl DepthBook<'_> {
    // The standing orders, in rank.
    pub fn orders(&self) -> &[LegOrder]
        ensures value { result.now ≡ standing self.now }
        ensures rank { in_order leg_before result.now ≡ true }
        ensures sound { fine_orders result.now ≡ true }
        ensures numbers { numbers_kept self.now.added result.now ≡ true }
    {
        self.orders.as_slice()
    }

    // A law and no work: at each price the levels show what the orders there add up to.
    pub fn levels_add_up(&self)
        ensures customers { (l : ℕ) (s : Side) (price : ℕ) → customers_at price (shows self.now l s).own ≡ customers_ordered l s price (standing self.now) }
        ensures others { (l : ℕ) (s : Side) (price : ℕ) → others_at price (shows self.now l s).own ≡ others_ordered l s price (standing self.now) }
    {}

    // How many orders were ever added.
    pub fn added(&self) -> u32
        ensures { result ≡ self.now.added }
    {
        self.added
    }

    // Adds a leg order and answers its number.
    pub fn add(
        &mut self,
        at: LegSide,
        price: u32,
        contracts: u32,
        customer: bool,
    ) -> Result<u32, Refusal>
        ensures answer { result ≡ add_answer self.old (next_order self.old at.leg at.side price contracts customer) }
        ensures orders { standing self.new ≡ orders_added self.old (next_order self.old at.leg at.side price contracts customer) }
        ensures added { self.new.added ≡ last_added self.old (next_order self.old at.leg at.side price contracts customer) }
        ensures quotes { (l : ℕ) (s : Side) → shows self.new l s ≡ quotes_added self.old (next_order self.old at.leg at.side price contracts customer) l s }
        ensures room { room self.new.orders ≡ room self.old.orders }
    {
        let order = LegOrder {
            number: self.added + 1,
            at,
            price,
            contracts,
            customer,
        };
        self.may_add(order)?;
        self.put_in(order);
        Ok(order.number)
    }

    // Takes the order of this number out.
    pub fn withdraw(&mut self, number: u32) -> Result<(), Refusal>
        ensures answer { result ≡ answered (withdraw_refusal number (standing self.old)) tt }
        ensures orders { standing self.new ≡ without number (standing self.old) }
        ensures added { self.new.added ≡ self.old.added }
        ensures quotes { (l : ℕ) (s : Side) → shows self.new l s ≡ left_if (order_numbered number (standing self.old)) (shows self.old) l s }
        ensures room { room self.new.orders ≡ room self.old.orders }
    {
        let place = self.place_numbered(number).ok_or(Refusal::NoLegOrder)?;
        self.take_out(number, place);
        Ok(())
    }

    // Sets the away price of one side; 0 clears it.
    pub fn set_away(&mut self, at: LegSide, price: u32) -> Result<(), Refusal>
        ensures answer { result ≡ answered (away_refusal at.leg price) tt }
        ensures orders { standing self.new ≡ standing self.old }
        ensures added { self.new.added ≡ self.old.added }
        ensures quotes { (l : ℕ) (s : Side) → shows self.new l s ≡ away_set (shows self.old) at.leg at.side price l s }
        ensures room { room self.new.orders ≡ room self.old.orders }
    {
        put_away(&mut self.away, at, price)
    }
}
