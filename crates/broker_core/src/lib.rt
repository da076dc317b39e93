//! A message broker of STOMP 1.2 without sockets: octets go in and come out, and nothing waits.
//!
//! A [`Broker`] has sessions, of which each is fed what its client sends and has octets to be sent to it, and one
//! *book* of messages and subscriptions. A frame is handled as a whole, one after the other as they were fed:
//!
//! - it is read and decided by its session: a request, or a refusal at once;
//! - the request is done: exactly what its frame means for the book, or its refusal. It is answered by CONNECTED, by
//!   the RECEIPT that is asked for, or by an ERROR, which tells the fault's number and name and ends the session;
//! - messages are dealt until none can be: the lowest number that is ready first, to the oldest subscription to its
//!   queue that may take it.
//!
//! Each is a function or a relation of values that the contracts name, with the order of the tests and all that stays
//! the same. If an allocation fails, a frame has either been handled or it waits, as it was decided, and is the first
//! to be handled at the next call: none is lost, and none is handled twice. The laws say that what was handled is what
//! was fed.
//!
//! ```rust
//! pub fn a_broker_answers_connect(alloc: Global) -> Result<bool, BrokerFault> {
//!     let mut broker: Broker<MAX_QUEUED> = Broker::new(alloc);
//!     let session = broker.open()?;
//!     broker.feed(session, b"CONNECT\naccept-version:1.2\nho")?;
//!     let frames = broker.feed(session, b"st:h\n\n\0")?;
//!     let connected = b"CONNECTED\nversion:1.2\nheart-beat:0,0\n\n\0".as_slice();
//!     Ok(frames == 1 && broker.out(session) == connected)
//! }
//! ```
//!
//! The answer is true: however a frame is cut, it is one. A server's loop over it:
//!
//! ```text
//! while let Some(session) = broker.take_fresh() {
//!     let sent = connection(session).send(broker.out(session))?;
//!     broker.taken(session, sent);
//!     if broker.is_closed(session) && broker.out(session).is_empty() {
//!         broker.drop_session(session);
//!         broker.dispatch()?;
//!     }
//! }
//! ```
//!
//! For a limit on memory it tells what its messages are counted as together ([`Broker::octets`]), what a session's open
//! transactions keep ([`Broker::kept`]), and whether a session has something to answer ([`Broker::has_unanswered`]),
//! without a look at each message. For who runs it, it tells how many messages are ready ([`Broker::ready`]) or out
//! ([`Broker::unanswered`]), and how many deliveries were made that are to be answered ([`Broker::handed_out`]).
//!
//! | Number | Refusal of a frame |
//! |---|---|
//! | 20 | BadFrame: the octets are no frame |
//! | 21 to 24, 33, 35 | of its session: not connected, connected already, the version, a missing header, a server's command, too large |
//! | 25 | BadDestination: of SEND and SUBSCRIBE |
//! | 26, 27, 28 | SubscriptionExists, NoSubscription, BadAckMode |
//! | 29, 30 | TransactionExists, NoTransaction |
//! | 31 | NoSuchAck: of ACK and NACK, at the frame also in a transaction |
//! | 32 | QueueFull: of SEND, in a transaction at its COMMIT |
//! | 36 | TooMany: 64 subscriptions, 16 transactions, 256 actions |
//!
//! Left to the caller: sockets, heart-beats (none are offered), and when a session has ended for want of its client.
#![tactic(auto)]

mod asked;
mod broker;
mod detail;
mod fault;
mod incoming;
mod laws;
mod perform;
mod session;
mod session_id;
mod sessions;
mod words;
mod written;

pub use broker::Broker;
pub use detail::Detail;
pub use fault::{BrokerFault, FrameRefusal};
pub use laws::{
    frames_are_handled_once_and_in_order, handled_frames_were_fed, taken_frames_are_spelled,
};
pub use session_id::SessionId;
