//! Sides, and what there is of each.
ghost use Rattle.std.specs.Prelude.{◌≡◌, Some};
ghost use Rattle.terms.specs.Sides.{opposite, side_text, leg_side_text, facing_side, bid_of, offer_of, of_side, with_on};

use std::fmt;

// The side of a leg, an order or a quote. A bid is a quote to buy, an offer a quote to sell.
#[derive(Clone, Copy, PartialEq, Eq, Debug)]
pub enum Side {
    Buy,
    Sell,
}

// One side of one leg.
#[derive(Clone, Copy, PartialEq, Eq, Debug)]
pub struct LegSide {
    pub leg: usize,
    pub side: Side,
}

// Something for bids and the same for offers.
#[derive(Clone, Copy, PartialEq, Eq, Default, Debug)]
pub struct BySide<T> {
    pub bid: T,
    pub offer: T,
}

impl Side {
    pub fn opposite(self) -> Side
        ensures { result ≡ opposite self }
    {
        match self {
            Side::Buy => Side::Sell,
            Side::Sell => Side::Buy,
        }
    }
}

impl fmt::Display for Side {
    ghost output = { λ side. Some (side_text side) };

    fn fmt<W: fmt::Write>(&self, f: &mut fmt::Formatter<W>) -> fmt::Result {
        f.write_str(match self {
            Side::Buy => "buy",
            Side::Sell => "sell",
        })
    }
}

impl LegSide {
    // A leg's bids, and below its offers: two names that callers read, for one literal each.
    pub fn bid(leg: usize) -> LegSide
        ensures { result ≡ bid_of leg }
    {
        LegSide {
            leg,
            side: Side::Buy,
        }
    }

    pub fn offer(leg: usize) -> LegSide
        ensures { result ≡ offer_of leg }
    {
        LegSide {
            leg,
            side: Side::Sell,
        }
    }

    // The other side of the same leg.
    pub fn facing(self) -> LegSide
        ensures { result ≡ facing_side self }
    {
        LegSide {
            side: self.side.opposite(),
            ..self
        }
    }
}

impl fmt::Display for LegSide {
    ghost output = { λ at. Some (leg_side_text at) };

    fn fmt<W: fmt::Write>(&self, f: &mut fmt::Formatter<W>) -> fmt::Result {
        let leg = self.leg;
        match self.side {
            Side::Buy => write!(f, "leg {leg} bid"),
            Side::Sell => write!(f, "leg {leg} offer"),
        }
    }
}

impl<T: Copy> BySide<T> {
    pub fn on(&self, side: Side) -> T
        ensures { result ≡ of_side self.now side }
    {
        match side {
            Side::Buy => self.bid,
            Side::Sell => self.offer,
        }
    }

    pub fn with(self, side: Side, value: T) -> BySide<T>
        ensures { result ≡ with_on self side value }
    {
        match side {
            Side::Buy => BySide { bid: value, ..self },
            Side::Sell => BySide {
                offer: value,
                ..self
            },
        }
    }
}
