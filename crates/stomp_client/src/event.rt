//! What a server's frame tells.

use base::limits::MAX_BODY;
use stomp_frame::Frame;

/// What a server's frame tells.
#[derive(Debug, Drop)]
pub enum ClientEvent<T: Drop> {
    /// The session is connected.
    Connected,
    /// A MESSAGE for a subscription. It has a `destination`, a `message-id`, a `subscription` and an `ack`.
    Message(Frame<MAX_BODY>),
    /// The server has processed the frame with this receipt number: the number and its tag.
    Receipt(u64, T),
    /// The server refused a frame and ends the session: the `message` of its ERROR, empty where it has none.
    Error(String),
}
