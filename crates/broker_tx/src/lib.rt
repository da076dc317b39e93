//! The open transactions of a session (STOMP 1.2, section "BEGIN").
//!
//! A transaction has a name and keeps what is done in it, its actions, until its end: a COMMIT carries them out, an
//! ABORT drops them. A session has at most 16 of them at a time, each of at most 256 actions. Each call says exactly
//! what it changes or why it is refused: a fault in the order of its tests, or want of memory, and then nothing has
//! changed.
//!
//! ```rust
//! pub fn a_transaction_keeps_its_actions(alloc: Global) -> Result<usize, TransactionFault> {
//!     let mut transactions = Transactions::new(alloc);
//!     let name = Text::new(String::from_str(alloc, "t")?);
//!     transactions.begin(alloc, &name)?;
//!     transactions.add(&name, Action::Ack(1))?;
//!     let kept = transactions.actions(&name);
//!     Ok(kept.map_or(0, |actions| actions.len()))
//! }
//! ```
//!
//! The answer is one. Left to the caller: to carry the actions out before a COMMIT ends their transaction.
#![tactic(auto)]

mod fault;
mod transactions;

pub use fault::TransactionFault;
pub use transactions::Transactions;
