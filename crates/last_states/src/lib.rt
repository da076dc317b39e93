//! The last states of entities, kept beside a table of rows, so that a row need not be read again.
//!
//! What is known of an entity is the state that was remembered last. Anything may be unknown at any time, since memory
//! may be refused, and at most 1,024 entities are known: where one more comes, the one goes that was remembered or
//! touched least recently. Whoever sets a row and remembers it, or forgets it, keeps what is known true of the rows.
//!
//! ```rust
//! pub fn what_was_remembered_is_known(alloc: Global, order: &Entity) -> Result<bool, AllocError> {
//!     let mut states = LastStates::new(alloc)?;
//!     states.remember(alloc, order, 7_u64);
//!     let known = states.peek(order).copied();
//!     let was_known = states.forget(order);
//!     Ok(known == Some(7) && was_known && states.peek(order).is_none())
//! }
//! ```
#![tactic(auto)]

mod states;

pub use states::{LastStates, MOST_STATES};
