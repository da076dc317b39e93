//! Refusals that a business names itself.

ghost use Rattle.std.specs.Prelude.{◌≡◌};
ghost use Rattle.activities.specs.OwnRefusals.{IsOwnNumber, own, own_number};

use std::fmt::{self, Display, Formatter, Write};

// A refusal has a number and no word, since contracts compare faults as values, and a borrowed text isn't one.
/// A refusal of a business of one's own: a number from 75 to 99. What it means is for the business to say; its word is
/// told by `Handler::refusal_word`.
#[derive(Clone, Copy, Debug, PartialEq, Eq)]
pub struct OwnRefusal {
    number: u8, // no model: a value that has one can't be copied yet where it lies deep in an enum, as in a fault
}

impl OwnRefusal {
    /// The refusal of this number, 75 to 99.
    pub fn new(number: u8) -> OwnRefusal
        requires { IsOwnNumber number }
        ensures { result ≡ own number }
    {
        OwnRefusal { number }
    }

    /// The refusal's number.
    pub fn number(self) -> u8
        ensures { result ≡ own_number self }
    {
        self.number
    }
}

impl Display for OwnRefusal {
    fn fmt<W: Write>(&self, f: &mut Formatter<W>) -> fmt::Result {
        // Without its word, which the handler has: contracts compare faults as values, and a borrowed text isn't one.
        write!(f, "{}: a refusal of the business's own", self.number)
    }
}
