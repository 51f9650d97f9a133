//! A leg order and its rank.
ghost use Rattle.std.specs.Prelude.{◌≡◌};
ghost use Rattle.leg_orders.specs.Ranks.{leg_before, ahead_of, blank_order};
ghost use Rattle.leg_orders.specs.Levels.{is_of, level_from};
ghost use Rattle.leg_orders.specs.Uses.{fewer};
ghost use Rattle.leg_orders.specs.RanksLemmas;

use quotes::level::{Level, MAX_PRICE};
use ranked::rank::Rank;
use terms::side::{LegSide, Side};

// Fields lie in the order in which they stand here: the widest first, for memory is lent by the order.
#[derive(Clone, Copy, PartialEq, Eq, Debug)]
pub struct LegOrder {
    pub at: LegSide,
    pub number: u32,
    pub price: u32,
    pub contracts: u32,
    pub customer: bool,
}

impl LegOrder {
    // What memory is filled with before it is lent.
    pub fn blank() -> LegOrder
        ensures { result ≡ blank_order }
    {
        LegOrder {
            number: 0,
            at: LegSide::bid(0),
            price: 0,
            contracts: 0,
            customer: false,
        }
    }

    // Ahead of each order that may stand on this side of the leg, and behind all that rank before it.
    pub fn ahead_of(at: LegSide) -> LegOrder
        ensures { result ≡ ahead_of at.leg at.side }
    {
        let price = match at.side {
            Side::Buy => MAX_PRICE + 1,
            Side::Sell => 0,
        };
        LegOrder {
            number: 0,
            at,
            price,
            contracts: 0,
            customer: true,
        }
    }

    pub fn is_of(&self, at: LegSide) -> bool
        ensures { result ≡ is_of at.leg at.side self.now }
    {
        self.at == at
    }

    // The level that the order makes alone.
    pub fn level(&self) -> Level
        ensures { result ≡ level_from self.now }
    {
        let (customer, other) = if self.customer {
            (self.contracts, 0)
        } else {
            (0, self.contracts)
        };
        Level {
            price: self.price,
            customer,
            other,
        }
    }

    pub fn with_fewer(self, quantity: u32) -> LegOrder
        ensures { result ≡ fewer self quantity }
    {
        LegOrder {
            contracts: self.contracts.saturating_sub(quantity),
            ..self
        }
    }
}

impl Rank for LegOrder {
    ghost before = { leg_before };

    ghost numbered = { λ order. order.number };

    ghost oneway = { RanksLemmas.oneway };

    ghost chain = { RanksLemmas.chain };

    // Bids rank ahead of offers, higher bids and lower offers first, customers ahead of others: which price is better hangs on
    // the side, so no order that is derived from the fields will do. The first difference decides, and nothing behind it is
    // looked at: this is asked at each step of every search, where a chain of `cmp` took twice the time.
    fn precedes(&self, other: &LegOrder) -> bool {
        if self.at.leg != other.at.leg {
            return self.at.leg < other.at.leg;
        }
        if self.at.side != other.at.side {
            return self.at.side == Side::Buy;
        }
        if self.price != other.price {
            return match self.at.side {
                Side::Buy => other.price < self.price,
                Side::Sell => self.price < other.price,
            };
        }
        if self.customer != other.customer {
            return self.customer;
        }
        self.number < other.number
    }

    fn number(&self) -> u32 {
        self.number
    }
}
