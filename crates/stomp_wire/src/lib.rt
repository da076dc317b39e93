//! Links: ends of connections that take octets out and bring octets in, in memory or over any reader and writer.
//!
//! What is taken from a wire is a beginning of what was put on it, in each direction, over any calls, and a failure of
//! a stream is counted. A [`Link`] puts octets out and takes octets that came in. Code that speaks over a connection is
//! written once, over this trait: over a [`MemoryWire`] in a test or a schedule, and over a [`StreamLink`] of sockets
//! in a program.
//!
//! ```rust
//! pub fn what_was_put_is_taken(alloc: Global) -> Result<Vec<u8>, LinkFault> {
//!     let mut wire = MemoryWire::new(alloc);
//!     let _gone = pump_out(&mut wire.near, b"hello");
//!     wire.carry(Way::Up, 2)?;
//!     let mut taken = Vec::new(alloc);
//!     wire.far.take(&mut taken, 9)?;
//!     Ok(taken)
//! }
//! ```
//!
//! The answer is the octets of `he`: no more was carried.
#![tactic(auto)]

mod fault;
mod laws;
mod link;
mod memory;
mod pump;
mod stream;
mod wire;

pub use fault::LinkFault;
pub use laws::what_is_taken_begins_what_was_put;
pub use link::Link;
pub use memory::MemoryLink;
pub use pump::{Gone, pump_out, pump_rest};
pub use stream::StreamLink;
pub use wire::{MemoryWire, Way};
