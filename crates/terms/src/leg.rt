//! Legs.
ghost use Rattle.std.specs.Prelude.{Some};
ghost use Rattle.terms.specs.Kinds.{kind_text};

use super::side::Side;
use std::fmt;

#[derive(Clone, Copy, PartialEq, Eq, Debug)]
pub enum OptionKind {
    Call,
    Put,
}

// One option series of a strategy: a unit of the strategy buys or sells `ratio` contracts of it.
#[derive(Clone, Copy, PartialEq, Eq, Debug)]
pub struct Leg {
    pub kind: OptionKind,
    pub side: Side,
    pub ratio: u32,
}

impl fmt::Display for OptionKind {
    ghost output = { λ kind. Some (kind_text kind) };

    fn fmt<W: fmt::Write>(&self, f: &mut fmt::Formatter<W>) -> fmt::Result {
        f.write_str(match self {
            OptionKind::Call => "call",
            OptionKind::Put => "put",
        })
    }
}
