//! The server's side of a STOMP 1.2 session: what a client frame asks, or why it is refused at once, and the frames
//! that answer it.
//!
//! A [`ServerSession`] is given each frame that a client sent, and answers one of two things:
//!
//! - the [`Request`] that the frame means, made of the frame's own parts. Nothing is copied and no memory is taken, so
//!   that no frame is lost for want of it; a body goes from the decoder into a queue without a copy;
//! - the first fault in the order of the tests (a server's command 33, not connected 21, connected already 22, a
//!   missing header 24, too large 35, the version 23), and the frame as it came. Then nothing has changed.
//!
//! Which of them, and whether the session is connected then, is told by the frame and by whether it was connected
//! before, and by nothing else. What a request holds fits what a server has to write of it: the laws say so, and that
//! each reply is a frame.
//!
//! ```rust
//! pub fn a_frame_before_connect_is_refused(alloc: Global) -> Option<u8> {
//!     let mut session = ServerSession::new();
//!     let frame = Frame::new(alloc, Command::Disconnect);
//!     let refused = session.accept(frame).err()?;
//!     Some(refused.fault.number())
//! }
//! ```
//!
//! A server's loop over them:
//!
//! ```text
//! let mut session = ServerSession::new();
//! while let Some(frame) = decoder.next()? {
//!     match session.accept(frame) {
//!         Ok(Request::Connect(_)) => write_connected(&mut out)?,
//!         Ok(request) => perform(request)?,
//!         Err(refused) => {
//!             let receipt = receipt_told(&refused.frame);
//!             write_error(alloc, refused.fault.number(), refused.fault.name(), receipt, &mut out)?;
//!         }
//!     }
//! }
//! ```
//!
//! Left to the caller: destinations, subscriptions, transactions and acknowledge modes, of which a session knows
//! nothing, and the end of a session after DISCONNECT or an ERROR.
#![tactic(auto)]

mod fault;
mod laws;
mod outgoing;
mod parts;
mod plain;
mod reading;
mod refusing;
mod replies;
mod request;
mod session;

pub use fault::SessionFault;
pub use laws::{
    accepted_requests_fit, accepting_wants_no_memory, confirmations_are_frames, errors_are_frames,
    messages_are_frames, receipts_told_are_short, requests_ask_for_the_receipt_told,
};
pub use outgoing::Outgoing;
pub use parts::{Headers, Octets, Text};
pub use replies::{
    Delivery, receipt_told, write_connected, write_error, write_message, write_receipt,
};
pub use request::{
    Acknowledge, Connect, Demarcate, Disconnect, Request, Send, Subscribe, Unsubscribe,
};
pub use session::{Refused, ServerSession};
