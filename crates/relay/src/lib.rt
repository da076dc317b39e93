//! Sending what a service's outbox has, once on each connection.
//!
//! A relay remembers of each pair the last number that it sent on its connection. [`Relay::fill`] sends the rows of the
//! outbox that are above these numbers, in order, and as many as it is told, whichever service's outbox it is;
//! [`Relay::forget`] makes all rows due again, as a new connection needs it.
//!
//! [`Relay::resume`] sends the same with fewer reads, for a relay that serves one service alone. It has a cursor: the
//! place up to which all rows were sent, and how long the journal was then. That is right of a service as long as its
//! journal only grows; of another service, or of a store that was restored from a backup, `resume` may pass over rows.
//!
//! A row leaves the outbox when its receiver's settle arrives: a RECEIPT says that the broker has the letter, closes its
//! tag, and settles nothing.
//!
//! ```rust
//! pub fn nothing_goes_out_before_the_broker_answers(alloc: Global) -> Result<usize, RelayFault> {
//!     let mut purchasing: Endpoint<Orders, PlainKeep<Orders>> = Endpoint::new(PlainKeep::new(alloc));
//!     let mut client = ClientSession::new(alloc);
//!     let mut relay = Relay::new(alloc);
//!     relay.fill(&mut client, &mut purchasing, 64)
//! }
//! ```
//!
//! It answers 0: the session isn't connected.
#![tactic(auto)]

mod fault;
mod laws;
mod marks;
mod news;
mod pages;
mod relay;

pub use fault::RelayFault;
pub use laws::{a_reopening_is_known, each_deed_is_known};
pub use relay::Relay;
