//! Making a strategy and reading it.
ghost use Rattle.std.specs.Prelude.{◌≡◌, true, is_ok};
ghost use Rattle.terms.specs.Strategies.{strategy_answer, sound_legs, smallest_ratio, every_eco_complex_only, SmallestOf, MadeExactlyOf};
ghost use Rattle.terms.specs.Made.{legs_of, answer_legs};

use super::super::leg::{Leg, OptionKind};
use super::super::ratios::{MAX_RATIO, all_of_kind, all_on_side, check};
use super::super::refusal::Refusal;
use super::super::side::Side;
use super::{MAX_LEGS, Strategy};

impl Strategy {
    pub fn make(legs: &[Leg]) -> Result<Strategy, Refusal>
        ensures answer { answer_legs result ≡ strategy_answer legs.now }
        ensures words { MadeExactlyOf legs.now (is_ok result) }
    {
        check(legs)?;
        let unused = Leg {
            kind: OptionKind::Call,
            side: Side::Buy,
            ratio: 1,
        };
        let mut places = [unused; MAX_LEGS];
        places[..legs.len()].copy_from_slice(legs);
        Ok(Strategy {
            legs: places,
            count: legs.len(),
        })
    }

    pub fn legs(&self) -> &[Leg]
        ensures value { result.now ≡ legs_of self.now }
        ensures sound { sound_legs result.now ≡ true }
    {
        &self.legs[..self.count]
    }

    pub fn smallest_ratio(&self) -> u32
        ensures value { result ≡ smallest_ratio (legs_of self.now) }
        ensures least { SmallestOf (legs_of self.now) result }
    {
        self.legs()
            .iter()
            .fold(MAX_RATIO, |smallest, leg| smallest.min(leg.ratio))
    }

    // Whether every order in this strategy counts as Complex Only.
    pub fn counts_complex_only(&self) -> bool
        ensures { result ≡ every_eco_complex_only (legs_of self.now) }
    {
        let legs = self.legs();
        if legs.len() == MAX_LEGS {
            return true;
        }
        if !all_on_side(legs, Side::Buy) && !all_on_side(legs, Side::Sell) {
            return false;
        }
        legs.len() >= 3 || all_of_kind(legs, OptionKind::Call) || all_of_kind(legs, OptionKind::Put)
    }
}
