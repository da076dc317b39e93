//! Serves a broker of STOMP 1.2 on sockets: one thread, no blocking call but the wait for readiness.
//!
//! The part that handles the octets of one connection is over any stream that reads and writes. Each octet that is read
//! is fed once and in order to the session of its connection, and what is written is a beginning of that session's
//! octets, of which no more is taken away: [`read_in`], [`write_out`] and [`Rest`]. What is around them, the loop over
//! ready sockets, is safe; no contract says what a socket does.
//!
//! ```text
//! let mut broker: Broker<MAX_QUEUED> = Broker::new(alloc);
//! serve(rt, alloc, &mut broker, &mut listener, &stop)?;
//! ```
//!
//! It ends when another thread calls [`Stop::ask`]. [`serve_watched`] does the same with [`ServeOptions`] and somebody
//! who is told what happens, a [`Watch`].
//!
//! ```rust
//! pub fn a_server_is_asked_to_end() -> bool {
//!     let stop = Stop::new();
//!     stop.ask();
//!     stop.is_asked()
//! }
//! ```
//!
//! - A turn has 4,096 frames, which the sockets that are ready share, but 32 each at least. Of a connection 1,024
//!   octets are read at its first turn. Where they had more frames than its share, fewer are read at its next, as many
//!   as its share had taken and 512 at least; where it had sent as many octets as were read, and they had half of its
//!   share of frames at most, twice as many, up to 65,536. So one that sends many small frames holds up the others no
//!   longer than one that sends few. Once a turn has brought 4,096 frames, what it brought is answered, and the sockets
//!   that are left of it come next. The answers of a turn are written together.
//! - A connection with more than 25,740,400 octets left that its client doesn't read is dropped, and so is one whose
//!   read or write fails: its subscriptions end, and what was out to them goes to others. Nothing ever waits for it.
//!   These are 8 MiB besides 16 of the longest messages, as many as are out to a subscription at once, so that a client
//!   that reads slowly gets them.
//! - After an ERROR or a DISCONNECT (STOMP 1.2, sections "ERROR", "DISCONNECT"), or where the client has shut its side,
//!   what is left is written and this side is shut; what the client still sends is read and thrown away, up to
//!   67,108,864 octets and 5 seconds. So no reset of the connection takes an ERROR away before it is read.
//! - Where the system gives no new connection, mostly since no descriptor is left, connections wait until it does.
//! - With a limit of memory ([`ServeOptions`]) it is counted what messages in queues, open transactions and what is left
//!   to be written hold together. From the limit on, until less than seven eighths of it are held, a connection that
//!   sends isn't read, so that its socket's buffers hold its client back, unless it has deliveries to answer: it sends
//!   once it has sent a message, or an answer that a transaction keeps. Who has sent nothing is read, so that clients can
//!   connect and subscribe, and who has deliveries is, since answers give memory back. A connection that is held back
//!   isn't silent, and is read again once there is room or a delivery is out to it, or its client shuts its side: its end
//!   is found by reading alone. Where open transactions alone keep seven eighths, one connection of theirs at a time is
//!   read too, as only it can end them.
//! - So the limit is passed by the read that meets it, and by one read of each connection that sends its first message
//!   then: 65,536 octets, or the frame that they complete. On top come what a client sends that leaves deliveries
//!   unanswered meanwhile, the transactions of that one connection, and what is in the socket of one whose client has
//!   shut its side. Frames of which not all is there yet, one a connection at most, aren't counted, nor is what memory
//!   is lost between blocks.
//! - If an allocation fails for a frame, or for a deal after it, its connection stays. It isn't read from until its frames
//!   have gone on, and they are tried at each turn, after the writing of what was dealt, which gives memory back.
//!   Meanwhile it's found that its socket has failed, but not that its client has shut its side. Octets for which there is
//!   no memory are kept in one of 8 buffers that were taken at the start; a connection for which none is free is dropped.
//! - If an allocation fails for a deal, 196,608 octets are let go that were taken at the start, and are taken again once
//!   octets were written.
//! - If an allocation fails for a new connection, it is closed, and so is one whose session is over, and whose client
//!   doesn't read, where there is none for what is left.
#![tactic(auto)]

mod buffers;
mod connection;
mod connections;
mod fault;
mod laws;
mod places;
mod refusals;
mod rest;
mod room;
mod serving;
mod stop;
mod turn;
mod watching;
mod work;

pub use fault::{ReadFault, ServeFault, TurnFault};
pub use laws::what_is_read_is_handled_once_and_in_order;
pub use rest::Rest;
pub use serving::{ServeOptions, serve, serve_watched};
pub use stop::Stop;
pub use turn::{Brought, ReadTurn, Written, discard, feed_in, read_in, write_out};
pub use watching::{Ending, Figures, News, Watch};
