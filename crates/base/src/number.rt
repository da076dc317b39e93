//! The numbers of letters.

ghost use Rattle.std.specs.Prelude.{◌≡◌, ◌≤◌, ◌<◌, ◌^◌, MatchOption};
ghost use Rattle.base.specs.Number.{IsNumber};

use crate::limits::MAX_NUMBER;
use std::marker::Model;

// A type, so that each letter that can be made can be sent, and no addition wraps. A settle that is still to be written
// has any `u64`, and is refused outside of this range.
/// A number from 1 to 2^40: of a letter among those of its pair, or a quantity or amount that a message asks for.
#[derive(Clone, Copy, Debug, PartialEq, Eq, PartialOrd, Ord)]
pub struct Number {
    value: u64,
}

impl Model for Number {
    ghost use Rattle.std.specs.Prelude.{ℕ};
    ghost use Rattle.base.specs.Number.{IsNumber};

    ghost Value = { ℕ };

    ghost view = { λ n. n.value };

    ghost invariant = { λ n. IsNumber n.value };

    ghost inverse = { λ n. record { value = n } };
}

impl Number {
    /// The number 1.
    pub const FIRST: Number = Number { value: 1 };

    /// The number of this value, or `None` where the value is 0 or above 2^40.
    pub fn new(value: u64) -> Option<Number>
        ensures { MatchOption result (¬ IsNumber value) (λ n. (n ≡ value) × IsNumber value) }
    {
        // 0 is no number of a letter: as a mark it says that none was handled, sent or settled.
        if 1 <= value && value <= MAX_NUMBER {
            Some(Number { value })
        } else {
            None
        }
    }

    /// Its value.
    pub fn get(self) -> u64
        ensures value { result ≡ self }
        ensures number { IsNumber self }
    {
        self.value
    }
}

// The first number is 1: letters are counted from it.
const _: () = prove!(Number::FIRST.value == 1);
