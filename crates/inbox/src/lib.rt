//! What a letter that arrives is to its receiver, by numbers alone.
//!
//! Letters of a pair are numbered 1, 2, .. by their sender. Of a pair of which `handled` letters were processed, the
//! next has the number `handled` + 1; one that isn't above `handled` is redelivered; one that is above the next came
//! early, and is near enough to be held where it isn't more than `AHEAD` above `handled`.
//!
//! ```rust
//! pub fn a_letter_comes_again(letter: &Letter) -> bool {
//!     let handled = letter.number.get();
//!     classify::<64>(letter.pair.to.kind(), handled, letter) == Class::Mine(Rank::Repeated)
//! }
//! ```
#![tactic(auto)]

mod class;
mod window;

pub use class::{Class, Rank, classify, rank_of};
pub use window::{Ahead, Window};
