//! One service that many threads use in turn.
//!
//! Commands come from sixteen seats, letters and settles through the Hand, and the Scout reads what is to be sent: each
//! is a token that one thread has at a time. Each answer is what one thread would get at its place of one journal, which
//! begins with all that the token has seen and has exactly what it did itself; and `close` gives one history of all.
//! Calls that add a row raise a mark to the length of the journal, which the Scout reads without the lock.
//!
//! ```rust
//! pub fn the_scout_reads_the_outbox<R: Wait>(
//!     rt: &R,
//!     alloc: Global,
//!     endpoint: Alone,
//! ) -> Option<usize> {
//!     let Ok(opened) = Shared::open(rt, alloc, endpoint) else {
//!         return None;
//!     };
//!     let shared = opened.0;
//!     let mut scout = opened.3;
//!     let letters = shared.unsettled(rt, alloc, &mut scout, &None, 10).ok()?;
//!     Some(letters.len())
//! }
//! ```
//!
//! Over empty tables the answer is 0. A call but `mark` waits until the service is free; that it ever is, or who comes
//! first, isn't promised. Tokens go back in the order in which `open` gave them.
//!
//! What is done because a journal says so, as a frame that is written, can be true only of a journal that some token has
//! seen. A [`Witness`] is a record of that: it may lie beside the frame, as under another lock. What the Hand sees once it
//! has learned the witness bears it out, and so does what `close` gives:
//!
//! ```rust
//! pub fn the_hand_bears_the_scout_out<R: Wait>(
//!     rt: &R,
//!     alloc: Global,
//!     endpoint: Alone,
//! ) -> Option<u64> {
//!     let Ok(opened) = Shared::open(rt, alloc, endpoint) else {
//!         return None;
//!     };
//!     let shared = opened.0;
//!     let mut hand = opened.2;
//!     let mut scout = opened.3;
//!     let _letters = shared.unsettled(rt, alloc, &mut scout, &None, 10).ok()?;
//!     let witness = scout.witness(&shared);
//!     hand.learn(&shared, witness);
//!     shared.look(rt, &mut hand).ok()
//! }
//! ```
//!
//! Over empty tables the answer is 0: the journal's length, which begins with the one that the Scout has seen.
#![tactic(auto)]

mod boxed;
mod calls;
mod laws;
mod lore;
mod mark;
mod shared;
mod tokens;
mod witness;

pub use laws::{
    closes_to_one_history, commits_are_one_threads, drains_are_one_threads,
    failed_calls_are_the_last, failed_commits_are_found_once, failures_are_counted,
    failures_are_for_good, groups_are_one_threads, handled_is_the_lists, ingests_are_one_threads,
    journals_are_one_threads, lengths_are_one_threads, settles_are_one_threads, tokens_stay_good,
    unsettled_are_above_marks, views_are_one_threads, witnesses_are_borne_out,
};
pub use shared::Shared;
pub use tokens::{Hand, Scout, Seat, Witness};
