//! The sums and least values behind the derived prices, leg by leg.
ghost use Rattle.std.specs.Prelude.{◌≡◌, ℕ, ◌+◌, ◌<◌, ◌≤◌, List, [], ◌∷◌, ◌++◌};
ghost use Rattle.derived.specs.Derived.{SeenLeg};

use super::priced_leg::PricedLeg;
use super::prices::Derived;
use quotes::level::MAX_CONTRACTS;
use std::marker::Model;
use terms::side::Side;

// What stands behind one derived price: the sums over bought and over sold legs, whether every
// level behind it has customers, and the least units that the levels hold.
#[derive(Clone, Copy)]
pub(crate) struct Backing {
    bought: u32,
    sold: u32,
    customers: bool,
    units: u32,
}

impl Backing {
    ghost use Rattle.derived.specs.Tallies.{SmallBacking, backing, net_of, collar_for};

    fn none() -> Backing
        ensures sums { (trader : Side) → result ≡ backing trader [] }
        ensures small { SmallBacking result 0 }
    {
        Backing {
            bought: 0,
            sold: 0,
            customers: true,
            units: MAX_CONTRACTS,
        }
    }

    // A trader's backing with the next leg.
    #[tactic(auto, using(crate::proofs::Folds::backing_more))]
    fn with(self, trader: Side, leg: &PricedLeg) -> Backing
        requires bought { self.bought ≤ 500095000 }
        requires sold { self.sold ≤ 500095000 }
        ensures sums { (legs : List SeenLeg) → self ≡ backing trader legs → result ≡ backing trader (legs ++ leg.now ∷ []) }
        ensures small { (n : ℕ) → SmallBacking self n → SmallBacking result (n + 1) }
    {
        Backing {
            bought: self.bought + leg.worth(Side::Buy, trader),
            sold: self.sold + leg.worth(Side::Sell, trader),
            customers: self.customers && leg.has_customers(trader),
            units: self.units.min(leg.units(trader)),
        }
    }

    fn net(self) -> i64
        ensures { result ≡ net_of self }
    {
        i64::from(self.bought) - i64::from(self.sold)
    }

    // The net price, moved by the smallest ratio towards the other trader's where every level behind it has customers.
    fn collar(self, trader: Side, smallest: u32) -> i64
        ensures { result ≡ collar_for trader self smallest }
    {
        let net = self.net();
        if !self.customers {
            return net;
        }
        match trader {
            Side::Buy => net - i64::from(smallest),
            Side::Sell => net + i64::from(smallest),
        }
    }
}

// The backings for a buyer, at DBO, and for a seller, at DBB, over the legs so far, how many legs these are, and whether
// none of them is crossed. A buyer and a seller of units are no bid and offer, so the two are no `BySide`; and the legs are
// counted because the sums are small for so many.
#[derive(Drop)]
pub(crate) struct Tally {
    legs: usize,
    buyer: Backing,
    seller: Backing,
    apart: bool,
}

impl Model for Tally {
    ghost use Rattle.derived.specs.Tallies.{Tallied, SmallTally};

    ghost Value = { Tallied };

    ghost view = { λ t. record { legs = t.legs; buyer = t.buyer; seller = t.seller; apart = t.apart } };

    ghost invariant = { λ t. SmallTally t.legs t.buyer t.seller };
}

impl Tally {
    ghost use Rattle.derived.specs.Tallies.{tally, derived_from};

    pub(crate) fn new() -> Tally
        ensures { result ≡ tally [] }
    {
        Tally {
            legs: 0,
            buyer: Backing::none(),
            seller: Backing::none(),
            apart: true,
        }
    }

    // How many legs so far, which is also the place of the next.
    pub(crate) fn legs(&self) -> usize
        ensures { result ≡ self.now.legs }
    {
        self.legs
    }

    // The tally with the next leg. A call for each leg would copy the tally and the leg to memory and back.
    #[inline(always)]
    pub(crate) fn with(self, leg: &PricedLeg) -> Tally
        requires { self.legs < 6 }
        ensures { (legs : List SeenLeg) → self ≡ tally legs → result ≡ tally (legs ++ leg.now ∷ []) }
    {
        Tally {
            legs: self.legs + 1,
            buyer: self.buyer.with(Side::Buy, leg),
            seller: self.seller.with(Side::Sell, leg),
            apart: self.apart && !leg.is_crossed(),
        }
    }

    pub(crate) fn derived(&self, smallest: u32) -> Derived
        ensures { result ≡ derived_from self.now smallest }
    {
        Derived {
            dbb: self.seller.net(),
            dbo: self.buyer.net(),
            collars: (
                self.seller.collar(Side::Sell, smallest),
                self.buyer.collar(Side::Buy, smallest),
            ),
            may_meet: self.apart,
            buyer_units: self.buyer.units,
            seller_units: self.seller.units,
        }
    }
}
