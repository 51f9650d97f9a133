//! What is asked of the legs of a strategy.
ghost use Rattle.std.specs.Prelude.{◌≡◌, ◌≤◌};
ghost use Rattle.terms.specs.Refusals.{answered};
ghost use Rattle.terms.specs.Strategies.{ratios_in_range, divides_all, common_factor, all_on_side, all_of_kind, legs_refusal};

use super::leg::{Leg, OptionKind};
use super::refusal::Refusal;
use super::side::Side;
use super::strategy::MAX_LEGS;

// The most contracts of a leg that one unit may hold.
pub(crate) const MAX_RATIO: u32 = 100;

pub(crate) fn ratios_in_range(legs: &[Leg]) -> bool
    ensures { result ≡ ratios_in_range legs.now }
{
    legs.iter()
        .all(|leg| leg.ratio >= 1 && leg.ratio <= MAX_RATIO)
}

fn divides_all(legs: &[Leg], divisor: u32) -> bool
    requires { 1 ≤ divisor }
    ensures { result ≡ divides_all divisor legs.now }
{
    legs.iter().all(|leg| leg.ratio % divisor == 0)
}

// A number above 1 that divides a ratio is no larger than the largest ratio allowed. `any` over the divisors was tried: the
// search does not tie it to the definition.
pub(crate) fn has_common_factor(legs: &[Leg]) -> bool
    ensures { result ≡ common_factor 100 legs.now }
{
    for divisor in 2..MAX_RATIO + 1 {
        if divides_all(legs, divisor) {
            return true;
        }
    }
    false
}

// This and the next are one call each; they differ in the field, which no type parameter names.
pub(crate) fn all_on_side(legs: &[Leg], side: Side) -> bool
    ensures { result ≡ all_on_side side legs.now }
{
    legs.iter().all(|leg| leg.side == side)
}

pub(crate) fn all_of_kind(legs: &[Leg], kind: OptionKind) -> bool
    ensures { result ≡ all_of_kind kind legs.now }
{
    legs.iter().all(|leg| leg.kind == kind)
}

// Whether a strategy can be made of these legs, else the first row of the refusals that fits them.
pub(crate) fn check(legs: &[Leg]) -> Result<(), Refusal>
    ensures { result ≡ answered (legs_refusal legs.now) tt }
{
    if legs.len() < 2 || legs.len() > MAX_LEGS {
        return Err(Refusal::LegCount);
    }
    if !ratios_in_range(legs) || has_common_factor(legs) {
        return Err(Refusal::Ratios);
    }
    Ok(())
}
