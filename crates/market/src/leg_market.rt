//! What a leg market is.
ghost use Rattle.std.specs.Prelude.{◌≡◌, ℕ, ◌≤◌};
ghost use Rattle.std.specs.List.{slice_get};
ghost use Rattle.terms.specs.declared.side.Side.{Side};
ghost use Rattle.quotes.specs.Shown.{Shown, Sound};
ghost use Rattle.quotes.specs.Takes.{taken, take_answer};

use quotes::level::Level;
use terms::refusal::Refusal;
use terms::side::LegSide;

// What a market shows. Reading changes nothing.
pub trait MarketView {
    // The most levels on one side of a leg, 1 to 16.
    const DEPTH: usize;

    ghost depth: { ℕ };

    // The quotes of each leg.
    ghost shown: { Self → Shown };

    ghost deep: { (1 ≤ depth) × (depth ≤ 16) };

    ghost sound: { (market : Self) → Sound depth (shown market) };

    // The constant, for clauses to speak of. A ghost member of the constant's own name was tried: in an impl with a lifetime the
    // check refuses it.
    fn max_levels() -> usize
        ensures { result ≡ depth };

    // The own level at a place counted from 0, the best first.
    fn level(&self, at: LegSide, place: usize) -> Option<Level>
        ensures { result ≡ slice_get (shown self.now at.leg at.side).own place };

    fn away(&self, at: LegSide) -> Option<u32>
        ensures { result ≡ (shown self.now at.leg at.side).away };
}

pub trait LegMarket: MarketView {
    // Takes from the best own level.
    fn take(&mut self, at: LegSide, quantity: u32) -> Result<(), Refusal>
        ensures answer { result ≡ take_answer (Self.MarketView.shown self.old at.leg at.side).own quantity }
        ensures quotes { (l : ℕ) (s : Side) → Self.MarketView.shown self.new l s ≡ taken (Self.MarketView.shown self.old) at.leg at.side quantity l s };
}
