//! Levels of a leg's own bids or offers.
ghost use Rattle.std.specs.Prelude.{◌≡◌, ◌==◌};
ghost use Rattle.quotes.specs.Shown.{contracts, sound_level};
ghost use Rattle.quotes.specs.Takes.{level_left, level_taken};

use terms::refusal::Refusal;

// The highest price of a leg, in cents.
pub const MAX_PRICE: u32 = 1_000_000;

// The most contracts that one level holds.
pub const MAX_CONTRACTS: u32 = 10_000_000;

// The contracts that stand at one price, those of customers and the others.
#[derive(Clone, Copy, PartialEq, Eq, Debug)]
pub struct Level {
    pub price: u32,
    pub customer: u32,
    pub other: u32,
}

impl Level {
    pub fn is_sound(self) -> bool
        ensures { result ≡ sound_level self }
    {
        if self.customer > MAX_CONTRACTS || self.other > MAX_CONTRACTS {
            return false;
        }
        let contracts = self.customer + self.other;
        self.price >= 1 && self.price <= MAX_PRICE && contracts >= 1 && contracts <= MAX_CONTRACTS
    }

    pub fn is_empty(self) -> bool
        ensures { result ≡ (contracts self == 0) }
    {
        self.customer == 0 && self.other == 0
    }

    // What is left once `quantity` contracts are taken, customers' contracts going first; none where nothing is left.
    pub fn left(self, quantity: u32) -> Option<Level>
        ensures { result ≡ level_left self quantity }
    {
        if quantity < self.customer {
            return Some(Level {
                customer: self.customer - quantity,
                ..self
            });
        }
        let other = self
            .other
            .checked_sub(quantity - self.customer)
            .filter(|other| *other > 0)?;
        Some(Level {
            customer: 0,
            other,
            ..self
        })
    }

    // What taking `quantity` contracts leaves of the level, customers' contracts going first.
    pub fn take(self, quantity: u32) -> Result<Option<Level>, Refusal>
        ensures { result ≡ level_taken self quantity }
    {
        let from_others = quantity.saturating_sub(self.customer);
        if quantity == 0 || from_others > self.other {
            return Err(Refusal::CannotTake);
        }
        Ok(self.left(quantity))
    }
}
