//! Refusals.
ghost use Rattle.std.specs.Prelude.{◌≡◌, Some};
ghost use Rattle.terms.specs.Refusals.{refusal_number, refusal_text};

use std::error::Error;
use std::fmt;

// Why a call is refused, with the number of its row in the table of docs/RULES.md.
#[derive(Clone, Copy, PartialEq, Eq, Debug)]
pub enum Refusal {
    LegCount = 1,
    Ratios = 2,
    LentMemory = 3,
    SessionState = 4,
    LimitOrSize = 5,
    NotStanding = 6,
    TapeRoom = 7,
    OrderRoom = 8,
    CannotOpen = 9,
    WrongSlip = 10,
    QuoteRange = 11,
    QuoteCrosses = 12,
    BookRoom = 13,
    NoLegOrder = 14,
    CannotTake = 15,
}

impl Refusal {
    pub fn number(self) -> u8
        ensures { result ≡ refusal_number self }
    {
        self as u8
    }
}

impl fmt::Display for Refusal {
    ghost output = { λ refusal. Some (refusal_text refusal) };

    fn fmt<W: fmt::Write>(&self, f: &mut fmt::Formatter<W>) -> fmt::Result {
        let number = self.number();
        write!(f, "refused with {number}")
    }
}

impl Error for Refusal {}
