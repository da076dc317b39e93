//! A broker's queues: messages that are ready or out to subscriptions, and what goes out next.
//!
//! [`Queues`] keeps a book of `broker_book`. Each call is one of its steps, or it is refused and has changed nothing.
//! What goes out is handed to a [`Sink`] of the caller's: always the first message that can go out, to the oldest
//! subscription that may take it. A subscription has at most 16 unanswered deliveries, and a message that comes back is
//! in its old place.
//!
//! What a SEND brought and the names of subscriptions are shared, so that no body is copied. Answers and the end of
//! subscriptions allocate nothing: what they put back has its room from the SEND and the SUBSCRIBE. If an allocation
//! fails, a call has changed nothing, but that a dispatch may have delivered some messages before.
//!
//! What a call costs is in no contract. As the code stands, a message is found by its number and a key, a destination
//! by its name and a session's subscriptions by its number; an answer goes through the deliveries to the session's
//! subscriptions, and a deal looks at the destinations where something may be due. So none looks through all messages,
//! subscriptions or sessions.
//!
//! ```rust
//! pub fn a_message_is_accepted(alloc: Global) -> Result<usize, QueueFault> {
//!     let mut queues: Queues<MAX_QUEUED> = Queues::new(alloc);
//!     let sent = Sent {
//!         destination: Text::new(String::from_str(alloc, "/queue/a")?),
//!         headers: Headers::new(Vec::new(alloc)),
//!         body: Octets::new(Vec::new(alloc)),
//!     };
//!     queues.put(&Shared::new(alloc, sent)?)?;
//!     Ok(queues.take_accepted().len())
//! }
//! ```
//!
//! With a subscription in mode `client`:
//!
//! ```text
//! put, put      1 and 2 are ready
//! dispatch      1 goes out as delivery 1, and 2 as delivery 2
//! nack 1        1 is ready again, before what is put later
//! dispatch      1 goes out as delivery 3
//! ack 3         both are gone
//! ack 2         31: no delivery of this number is unanswered
//! ```
#![tactic(auto)]

mod active;
mod deals;
mod deliveries;
mod destinations;
mod parts;
mod queues;
mod sink;
mod subscriptions;
mod transactions;

pub use queues::Queues;
pub use sink::Sink;
