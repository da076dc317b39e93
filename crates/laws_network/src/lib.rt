//! Two services that give each other letters and settles over a network that loses, repeats and reorders them.
//!
//! Whatever list of deliveries is carried out, and whatever the stores answer: each side has handled, pair by pair, a
//! beginning of what the other's journal sends, once each and in its order; what a side marks as settled the other has
//! handled; and a pair of which each unsettled letter was taken, in some order, and no next one waits, was handled to
//! its end. It holds of any two handlers and stores, by the contracts of [`Endpoint`](endpoint::Endpoint) alone; where
//! a store failed, of each content that a stop may leave.
//!
//! ```rust
//! pub fn what_comes_early_waits<H, K, G, L>(
//!     alloc: Global,
//!     left: &mut Endpoint<H, K>,
//!     right: &mut Endpoint<G, L>,
//!     pair: &Pair,
//! ) -> Result<Vec<Outcome>, AllocError>
//! where
//!     H: Handler,
//!     K: Keep<State = H::State, Command = H::Command> + Drop,
//!     G: Handler,
//!     L: Keep<State = G::State, Command = G::Command> + Drop,
//! {
//!     let mut deliveries = Vec::new(alloc);
//!     deliveries.push(Delivery::Left(Event::Send(4)))?;
//!     deliveries.push(Delivery::Right(Event::Take(3)))?; // the second letter of the pair
//!     deliveries.push(Delivery::Right(Event::Take(2)))?; // the first
//!     deliveries.push(Delivery::Right(Event::Take(2)))?;
//!     deliveries.push(Delivery::Right(Event::Drain(pair.copy(alloc)?)))?;
//!     let mut network = Network::new(alloc);
//!     exchange(alloc, left, right, &mut network, &deliveries)
//! }
//! ```
//!
//! Where an order was placed and cancelled at the left, and the pair is its own with its stock at the right, a request
//! and a cancel go there. The cancel comes first and is held, the request is handled, is known when it comes again, and
//! then the cancel is handled: all that the pair sent.
#![tactic(auto)]

mod both;
mod event;
mod laws;
mod network;
mod side;

pub use both::{deliver, exchange};
pub use event::{Delivery, Event, Outcome};
pub use laws::{all_was_handled, nothing_was_exchanged};
pub use network::{Network, Post};
pub use side::act;
