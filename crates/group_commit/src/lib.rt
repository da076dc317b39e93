//! Several letters and settles in one transaction of the store, with one sync of its disk.
//!
//! [`take_group`] processes the first so many of those that have come as if they came one after another, and reports of each
//! what the endpoint reports of one that comes alone. All is written at once: after an error nothing is changed, but where
//! the store failed, its tables, once reopened, may also have a first part of them processed. A group ends before the
//! first that can't be processed so: a second one of the same entity, a letter that isn't the next of its pair, a settle
//! by which no mark rises, and whatever is refused. That one is the first of the next group, or goes to the endpoint
//! alone.
//!
//! ```rust
//! pub fn two_letters_are_taken_in_together(
//!     alloc: Global,
//!     endpoint: &mut Alone,
//!     first: Letter,
//!     second: Letter,
//! ) -> Result<Vec<Grouped>, EndFault> {
//!     let group = [Envelope::Letter(first), Envelope::Letter(second)];
//!     take_group(alloc, endpoint, &group)
//! }
//! ```
//!
//! Over empty tables, with an order's first letters to two stocks, the answer is `Handled(1)` and `Handled(2)`; with its
//! first two letters to one stock it's `Handled(1)`. How many are processed isn't promised: out of memory it may be
//! fewer than could be.
#![tactic(auto)]

mod group;
mod grouped;
mod planning;

pub use group::take_group;
pub use grouped::Grouped;
