//! What a service sends: letters with the next numbers of their pairs, whose rows are in the store until they are
//! settled.
//!
//! The letters of a pair are numbered 1, 2, .. in the order in which they were sent, and no number is above 2^40. A row
//! is there for each letter above the pair's settled mark. What is made here are changes for one transaction of the
//! store: a caller writes them together with what made the entity send.
//!
//! ```rust
//! pub fn a_mark_is_one_change(alloc: Global, pair: &Pair) -> Result<usize, AllocError> {
//!     let changes: Vec<Change<u64, u64>> = settle(alloc, pair, Number::FIRST)?;
//!     Ok(changes.len())
//! }
//! ```
#![tactic(auto)]

mod fault;
mod outbox;
mod settling;

pub use fault::OutboxFault;
pub use outbox::number_outs;
pub use settling::settle;
