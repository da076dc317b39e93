//! How far ahead letters are held, as a type.

ghost use Rattle.inbox.specs.Classes.{IsOfRank};

use crate::{Rank, rank_of};
use envelope::Letter;

/// A type that stands for a number: how far above the last handled letter of a pair others are held.
pub trait Window {
    ghost use Rattle.std.specs.Prelude.{ℕ};

    /// The number.
    ghost ahead: { ℕ };

    /// Where a letter stands, as [`rank_of`] tells it for this number.
    fn rank_of(handled: u64, letter: &Letter) -> Rank
        ensures { IsOfRank ahead handled letter.now result };
}

// A type of its own: with a const parameter on a struct that holds a store, each generic caller would have to show that
// the struct is smaller than 2^63.
/// The number `AHEAD`.
#[derive(Clone, Copy, Debug)]
pub struct Ahead<const AHEAD: u64> {}

impl<const AHEAD: u64> Window for Ahead<AHEAD> {
    ghost ahead = { AHEAD };

    fn rank_of(handled: u64, letter: &Letter) -> Rank {
        rank_of::<AHEAD>(handled, letter)
    }
}
