//! The client's side of a session: what its calls write, and what a server's frames tell.
//!
//! Each call that writes appends one canonical frame to [`ClientSession::out`], or answers a fault and leaves the
//! session as it was. So what was written over any calls is the canonical text of the calls' frames, one after the
//! other, and a server's decoder reads exactly these, however their text is cut on its way:
//! [`what_a_client_wrote_is_read`]. A server's frame tells one [`ClientEvent`]; one that no server may send then closes
//! the session. Accepting allocates nothing.
//!
//! ```text
//! connect               CONNECT accept-version:1.2 host:outbox
//! accept CONNECTED      connected
//! send_with_receipt a   SEND .. receipt:1
//! accept RECEIPT 1      receipt 1: a
//! accept RECEIPT 1      42: nothing is open under 1, and the session is closed
//! ```
//!
//! ```rust
//! pub fn a_client_asks_to_connect(alloc: Global) -> Result<bool, ClientFault> {
//!     let mut client: ClientSession<u64> = ClientSession::new(alloc);
//!     client.connect()?;
//!     Ok(client.out() == b"CONNECT\naccept-version:1.2\nhost:outbox\n\n\0".as_slice())
//! }
//! ```
#![tactic(auto)]

mod event;
mod fault;
mod frames;
mod laws;
mod session;

pub use event::ClientEvent;
pub use fault::ClientFault;
pub use frames::{
    answer_frame, connect_frame, connect_frame_to, in_transaction, subscribe_frame,
    subscribe_frame_with, transaction_frame,
};
pub use laws::{
    a_new_session_wrote_nothing, what_a_client_wrote_is_read, what_a_client_wrote_is_taken,
};
pub use session::{ClientSession, Stage};
