//! The quote sheet: six legs with at most one own level on each side, set by calls.
ghost use Rattle.std.specs.Prelude.{◌≡◌, ℕ, true, length};
ghost use Rattle.terms.specs.declared.side.Side.{Side};
ghost use Rattle.terms.specs.Refusals.{answered};
ghost use Rattle.quotes.specs.Shown.{nothing};
ghost use Rattle.quotes.specs.Sheets.{shown_of, sound_tops, own_refusal, own_set, away_refusal, away_set};
ghost use Rattle.quotes.proofs.Sheets.{sheet-sound, sheet-depth};

use super::leg_market::{LegMarket, MarketView};
use super::sheet_legs::{put_away, put_own, take_best};
use quotes::level::Level;
use quotes::top::LegTop;
use terms::refusal::Refusal;
use terms::side::LegSide;
use terms::strategy::MAX_LEGS;

#[derive(Drop)]
pub struct QuoteSheet {
    legs: [LegTop; MAX_LEGS],
    // Said once more than by the array, for the law that a leg past the sixth shows nothing is stated of the plain list.
    ghost long: { length legs ≡ 6 },
    ghost sound: { sound_tops legs ≡ true },
}

impl QuoteSheet {
    pub fn new() -> QuoteSheet
        ensures { (l : ℕ) (s : Side) → shown_of result.legs l s ≡ nothing }
    {
        let none = LegTop::empty();
        QuoteSheet {
            legs: [none; MAX_LEGS],
        }
    }

    // Sets the own level of one side; a level without contracts clears it.
    pub fn set_own(&mut self, at: LegSide, level: Level) -> Result<(), Refusal>
        ensures answer { result ≡ answered (own_refusal (shown_of self.old.legs) at.leg at.side level) tt }
        ensures quotes { (l : ℕ) (s : Side) → shown_of self.new.legs l s ≡ own_set (shown_of self.old.legs) at.leg at.side level l s }
    {
        put_own(&mut self.legs, at, level)
    }

    // Sets the away price of one side; 0 clears it.
    pub fn set_away(&mut self, at: LegSide, price: u32) -> Result<(), Refusal>
        ensures answer { result ≡ answered (away_refusal at.leg price) tt }
        ensures quotes { (l : ℕ) (s : Side) → shown_of self.new.legs l s ≡ away_set (shown_of self.old.legs) at.leg at.side price l s }
    {
        put_away(&mut self.legs, at, price)
    }
}

impl MarketView for QuoteSheet {
    const DEPTH: usize = 1;

    ghost depth = { 1 };

    ghost shown = { λ sheet. shown_of sheet.legs };

    ghost deep = { sheet-depth };

    ghost sound = { λ sheet. sheet-sound sheet.legs sheet.long sheet.sound };

    fn max_levels() -> usize {
        Self::DEPTH
    }

    fn level(&self, at: LegSide, place: usize) -> Option<Level> {
        if place > 0 {
            return None;
        }
        self.legs.get(at.leg)?.own(at.side)
    }

    fn away(&self, at: LegSide) -> Option<u32> {
        self.legs.get(at.leg)?.away(at.side)
    }
}

impl LegMarket for QuoteSheet {
    fn take(&mut self, at: LegSide, quantity: u32) -> Result<(), Refusal> {
        take_best(&mut self.legs, at, quantity)
    }
}
