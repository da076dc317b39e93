//! What the queues of a broker are kept in, so that a step costs about the same however many messages, subscribers and
//! sessions there are.
//!
//! - [`Messages`] and [`Subscribers`] lie in slabs. A message is found by its number and a subscriber by its age; the
//!   key that each was given makes that one look. A key is only a hint: with any other key the answer is the same,
//!   after a search through all.
//! - [`Destinations`] lie in a slab too. An ordered map tells the key of a name, and a name that comes again and again
//!   is looked up once: the key of the last call is a hint, at which is looked first. [`Sessions`] are an ordered map of
//!   those that have subscribers: a look-up takes time that grows with the logarithm of their number.
//! - The numbers of a queue's messages and the ages of its subscribers stand in double-ended queues: what is looked for
//!   there is mostly near the front, and is found in the same time however many are behind.
//!
//! Contracts see lists: messages in order of their numbers, subscribers by age, queues by name and places by session.
//! What is taken out, counted or marked allocates nothing; what is put in may be refused memory, and then nothing has
//! changed.
//!
//! ```rust
//! pub fn an_idle_destination_is_closed(alloc: Global) -> Result<bool, QueueFault> {
//!     let name = Text::new(String::from_str(alloc, "/queue/a")?);
//!     let mut destinations = Destinations::new(alloc);
//!     destinations.open(&name)?;
//!     destinations.close(&name);
//!     Ok(destinations.get(&name).is_none())
//! }
//! ```
#![tactic(auto)]

mod destinations;
mod keyed;
mod messages;
mod numbers;
mod places;
mod queue;
mod sessions;
mod standing;
mod subscribers;

pub use destinations::Destinations;
pub use messages::{Messages, Stored};
pub use places::{Entry, KeyedPlace};
pub use queue::StoredQueue;
pub use sessions::Sessions;
pub use standing::{Holder, Standing};
pub use subscribers::{StoredSubscriber, Subscribers};
