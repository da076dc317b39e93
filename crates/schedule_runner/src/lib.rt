//! Three services and the mail between them, and the schedules that they run.
//!
//! A [`World`] is purchasing, warehouse and billing, each over its own store and with its own connections, and a
//! broker. Whatever list of events is run, and whatever the stores answer: after each step the tables of each service
//! match its journal; each outcome did what it says of the service that it names, of the mail and of nothing else; and
//! each journal begins with what it was, and the commands behind that are, in order, those that were answered
//! committed, each at its row. A command that was refused since the store failed may stand, and once at most. Where a
//! store failed it holds of each content that a stop may leave, in every combination; and where memory was refused to
//! the outcomes, of the steps that were made.
//!
//! Between steps, [`World::tables`] reads what two services' tables have of a pair, [`World::journal`] a service's
//! journal, and [`World::agreement`] whether the partners of all orders agree.
//!
//! ```rust
//! pub fn an_open_connection_stays_open(
//!     world: &mut World<PlainKeep<Orders>, PlainKeep<Stocks>, PlainKeep<Accounts>>,
//!     connection: ConnectionName,
//! ) -> bool {
//!     let open = schedule_text::Event::Open(connection);
//!     let _opened = world.step(&open);
//!     matches!(world.step(&open), schedule_text::Outcome::Already)
//! }
//! ```
//!
//! The answer is true.
#![tactic(auto)]

mod acting;
mod looking;
mod shows;
mod world;

pub use acting::ServiceEvent;
pub use looking::PairTables;
pub use world::World;
