//! What a broker's queues are about: messages and their fates, subscriptions, and each step that changes them.
//!
//! A queue's state is a *book*: the messages that are ready or out, in order of their numbers; the subscriptions, the
//! oldest first; the last numbers that were given to a message and to a delivery; and the SENDs accepted since they
//! were last taken. Each step is a function or a relation of books, and says nothing of how a broker keeps them.
//! `broker_queues` keeps one.
//!
//! Here stand the values that a book holds, the faults of its steps, and what follows of the steps alone.
//!
//! ```rust
//! pub fn answers_reach_back_in_mode_client() -> bool {
//!     Mode::Client.reaches(2, 1) && !Mode::Individual.reaches(2, 1)
//! }
//! ```
#![tactic(auto)]

mod fault;
mod laws;
mod parts;
mod shared;
mod sizes;

pub use fault::QueueFault;
pub use laws::{
    books_are_orderly, deliveries_are_known, each_is_accepted_once, each_is_as_put,
    nothing_is_lost, steps_are_runs,
};
pub use parts::{Accepted, Action, Mode, Sent, Subscription};
pub use shared::Shared;
pub use sizes::{ACTION_OVERHEAD, MESSAGE_OVERHEAD};
