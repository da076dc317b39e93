//! The broker of a schedule with all that it ever accepted, and a client's connection with it.
//!
//! Octets wait where they were written: on the way up with the client, on the way down with the broker. A carry feeds
//! the first of them to the other side, and only then takes them away where they waited; so where memory is refused
//! they went over whole, or they are all still there. A connection that is cut loses what is on its way, and no more:
//! the broker deals what was out to it to others.
//!
//! [`Mail`] keeps each SEND that was ever accepted, over brokers that were stopped, and sends any of them again, in a
//! session of its own. Each contract names the calls of the broker, of the client and of the decoder, with the state
//! between them.
//!
//! ```rust
//! pub fn octets_wait_where_they_were_written(alloc: Global) -> Result<bool, OpenFault> {
//!     let mut mail = Mail::new(alloc);
//!     let mut connection = Connection::open(alloc, &mut mail)?;
//!     let gone = connection.carry_up(&mut mail, 8)?;
//!     let left = b"accept-version:1.2\nhost:outbox\n\n\0".as_slice();
//!     Ok(gone == 8 && connection.channel.out() == left)
//! }
//! ```
//!
//! It answers true: `CONNECT` and its LF went over.
#![tactic(auto)]

mod accepted;
mod connection;
mod fault;
mod mail;
mod repeat_fault;
mod repeating;
mod texts;

pub use connection::Connection;
pub use fault::OpenFault;
pub use mail::Mail;
pub use repeat_fault::RepeatFault;
