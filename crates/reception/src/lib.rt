//! What a service does with one frame that came to it, and with the letters that it holds.
//!
//! A frame is taken in two halves. [`prepare`] needs no endpoint: it makes all replies that an answer may need at once,
//! and finds room for them; `finish` of what it prepared writes what the endpoint's answer says. So an allocation that
//! fails leaves the frame waiting and the service as it was, and nothing is written that the store didn't answer for.
//! Between the halves the endpoint is called, wherever it is: [`take_frame`] does all three over one that is at hand.
//! [`drain`] takes the next letter that is held and may be handled now.
//!
//! ```rust
//! pub fn a_connected_client_subscribes(alloc: Global) -> Result<bool, ReceptionFault> {
//!     let mut purchasing: Endpoint<Orders, PlainKeep<Orders>> = Endpoint::new(PlainKeep::new(alloc));
//!     let mut client = ClientSession::new(alloc);
//!     client.connect()?;
//!     let asked = client.out().len();
//!     client.taken(asked);
//!     let connected = Frame::new(alloc, Command::Connected);
//!     if let Err(untaken) = take_frame(alloc, &mut purchasing, &mut client, connected) {
//!         return Err(untaken.fault);
//!     }
//!     Ok(
//!         client
//!             .out()
//!             .starts_with(b"SUBSCRIBE\nid:0\ndestination:/queue/purchasing\n"),
//!     )
//! }
//! ```
//!
//! The answer is true.
#![tactic(auto)]

mod answering;
mod draining;
mod fault;
mod finishing;
mod frames;
mod prepared;
mod preparing;
mod replies;
mod taken;
mod texts;

pub use answering::{answer_letter, answer_settle};
pub use draining::{drain, drain_unconnected};
pub use fault::{ReceptionFault, Untaken};
pub use frames::take_frame;
pub use prepared::{Prepared, PreparedLetter, PreparedSettle};
pub use preparing::prepare;
pub use taken::{Drained, Taken};
