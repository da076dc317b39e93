//! One client's side of a connection, whatever carries its octets: a broker in memory, or a socket.
//!
//! A [`Channel`] has the client's session with the octets that it wrote, the decoder of what came, and the frame that
//! was taken from it and couldn't be answered yet. It knows nothing of what lies at the other end: octets go out by
//! [`Channel::out`] and [`Channel::taken`], come in by [`Channel::feed`], and whole frames are given by
//! [`Channel::next`], each once, in the order in which they came.
//!
//! ```rust
//! pub fn a_frame_that_was_put_back_is_the_next(alloc: Global) -> Result<bool, FrameFault> {
//!     let mut channel = Channel::new(alloc);
//!     channel.feed(b"RECEIPT\nreceipt-id:1\n\n\0RECEIPT\nreceipt-id:2\n\n\0")?;
//!     let Some(first) = channel.next()? else {
//!         return Ok(false);
//!     };
//!     channel.put_back(first);
//!     let Some(again) = channel.next()? else {
//!         return Ok(false);
//!     };
//!     Ok(again.get("receipt-id") == Some("1"))
//! }
//! ```
//!
//! The answer is true: what memory was wanting for isn't lost.
#![tactic(auto)]

mod channel;

pub use channel::Channel;
