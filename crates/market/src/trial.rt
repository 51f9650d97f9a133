//! The trial market: takes that leave the market below as it is.
ghost use Rattle.std.specs.Prelude.{◌≡◌, ℕ, ◌-◌, replicate};
ghost use Rattle.terms.specs.declared.side.Side.{Side};
ghost use Rattle.quotes.specs.Shown.{held};
ghost use Rattle.quotes.specs.Takes.{taken, take_answer};
ghost use Rattle.quotes.specs.Trials.{none_taken, taken_at, taken_more, tried};
ghost use Rattle.quotes.proofs.Trials.{tried-sound};

use super::leg_market::{LegMarket, MarketView};
use super::trial_levels::{first_left, level_left};
use super::trial_totals::{add_take, total_at};
use quotes::level::Level;
use quotes::taken::Taken;
use terms::refusal::Refusal;
use terms::side::{BySide, LegSide};
use terms::strategy::MAX_LEGS;

// One total for each leg and side: the contracts taken in this trial.
#[derive(Drop)]
pub struct Trial<M> {
    below: M,
    totals: [Taken; MAX_LEGS],
}

impl<M: MarketView> Trial<M> {
    pub fn new(below: M) -> Trial<M>
        ensures quotes { (l : ℕ) (s : Side) → tried (M.shown result.below) result.totals l s ≡ M.shown below l s }
        ensures below { result.below ≡ below }
        ensures totals { result.totals ≡ replicate 6 none_taken }
    {
        Trial {
            below,
            totals: [BySide::default(); MAX_LEGS],
        }
    }

    // Goes on with what was taken in an earlier trial, even where less stands now.
    pub fn resume(below: M, totals: [Taken; MAX_LEGS]) -> Trial<M>
        ensures quotes { (l : ℕ) (s : Side) → tried (M.shown result.below) result.totals l s ≡ tried (M.shown below) totals l s }
        ensures below { result.below ≡ below }
        ensures totals { result.totals ≡ totals }
    {
        Trial { below, totals }
    }

    // The market below: what the trial shows is what stands there, less what was taken.
    pub fn below(&self) -> &M
        ensures below { result.now ≡ self.now.below }
        ensures held { (l : ℕ) (s : Side) → held (tried (M.shown self.now.below) self.now.totals l s).own ≡ held (M.shown self.now.below l s).own - taken_at self.now.totals l s }
    {
        &self.below
    }

    pub fn totals(&self) -> [Taken; MAX_LEGS]
        ensures { result ≡ self.now.totals }
    {
        self.totals
    }

    // Gives the market below back.
    pub fn end(self) -> M
        ensures { result ≡ self.below }
    {
        self.below
    }
}

impl<M: MarketView + Drop> Trial<M> {
    // Goes on over quotes that have moved; what was taken stays taken.
    pub fn moved(self, below: M) -> Trial<M>
        ensures quotes { (l : ℕ) (s : Side) → tried (M.shown result.below) result.totals l s ≡ tried (M.shown below) self.totals l s }
        ensures below { result.below ≡ below }
        ensures totals { result.totals ≡ self.totals }
    {
        Trial::resume(below, self.totals)
    }
}

impl<M: MarketView> MarketView for Trial<M> {
    const DEPTH: usize = M::DEPTH;

    ghost depth = { M.MarketView.depth };

    ghost shown = { λ trial. tried (M.MarketView.shown trial.below) trial.totals };

    ghost deep = { M.MarketView.deep };

    ghost sound = { λ trial. tried-sound M.MarketView.depth (M.MarketView.shown trial.below) trial.totals (M.MarketView.sound trial.below) };

    fn max_levels() -> usize {
        M::max_levels()
    }

    fn level(&self, at: LegSide, place: usize) -> Option<Level> {
        level_left(&self.below, at, total_at(&self.totals, at), place)
    }

    fn away(&self, at: LegSide) -> Option<u32> {
        self.below.away(at)
    }
}

impl<M: MarketView> LegMarket for Trial<M> {
    fn take(&mut self, at: LegSide, quantity: u32) -> Result<(), Refusal>
        ensures answer { result ≡ take_answer (tried (M.shown self.old.below) self.old.totals at.leg at.side).own quantity }
        ensures quotes { (l : ℕ) (s : Side) → tried (M.shown self.new.below) self.new.totals l s ≡ taken (tried (M.shown self.old.below) self.old.totals) at.leg at.side quantity l s }
        ensures below { self.new.below ≡ self.old.below }
        ensures totals { self.new.totals ≡ taken_more self.old.totals at.leg at.side (tried (M.shown self.old.below) self.old.totals at.leg at.side).own quantity }
    {
        let total = total_at(&self.totals, at);
        let found = first_left(&self.below, at, total).ok_or(Refusal::CannotTake)?;
        add_take(&mut self.totals, at, found.level, quantity)
    }
}
