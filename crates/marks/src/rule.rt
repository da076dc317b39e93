// What a seat knows, and the rule that the words keep.
ghost use Rattle.std.specs.Prelude.{ℕ, List};

use atomic_table::{Join, Play, Split, TableRule};
use std::collections::LinkedList;

/// How many seats and places there are.
#[derive(Drop)]
pub struct Size {
    pub seats: u64,
    pub places: u64,
}

/// A number, and the place at which it was raised or read.
pub struct Entry {
    pub place: u64,
    pub number: u64,
}

/// What a seat knows: its parts of the right to close, and all that it raised and read, in order. No value of it is made.
pub struct View {
    pub parts: u64,
    pub raised: LinkedList<Entry>,
    pub read: LinkedList<Entry>,
}

/// Each mark is 0 or was raised by some seat, and none is below what a seat raised or read there.
pub struct Rises;

impl TableRule<(), View, Size> for Rises {
    ghost use Rattle.marks.specs.Rule.{IsKept, unused};

    ghost holds = { λ size s. IsKept size.seats size.places s };

    ghost first = { λ size. unused size.seats };
}

/// A raise, of which the seat knows.
pub struct Raise;

impl Play<(), View> for Raise {
    ghost use Rattle.marks.specs.Rule.{Raises};

    ghost then = { Raises };
}

/// A read: no less than all that the seat raised or read there before.
pub struct Read;

impl Play<(), View> for Read {
    ghost use Rattle.marks.specs.Rule.{Reads};

    ghost then = { Reads };
}

/// A read by a seat that has every part of the right to close.
pub struct Settle;

impl Play<(), View> for Settle {
    ghost use Rattle.marks.specs.Rule.{Settles};

    ghost then = { Settles };
}

/// A seat gives one of its parts to a new seat.
pub struct Deal;

impl Split<View> for Deal {
    ghost use Rattle.marks.specs.Rule.{with_part_less, unused};

    ghost left = { with_part_less };

    ghost right = { λ v. unused 1 };
}

/// A seat takes in what another knows, with its parts.
pub struct Gather;

impl Join<View> for Gather {
    ghost use Rattle.marks.specs.Rule.{joint, unused};

    ghost both = { joint };

    ghost spent = { unused 0 };
}
