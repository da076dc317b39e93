//! The business of the three services: what seats can ask of orders, stocks and accounts, the lines that stocks and
//! accounts have, and what each of the three does with what it processes.
//!
//! Orders, stocks and accounts stay sound whatever they process: `orders_stay_sound`, `stocks_stay_sound` and
//! `accounts_stay_sound`. The code of the three is in the crates `purchasing`, `warehouse` and `billing`.
//!
//! ```rust
//! pub fn order_of_one(
//!     alloc: Global,
//!     stock: Key,
//!     quantity: u64,
//!     account: Key,
//!     amount: u64,
//! ) -> Result<OrderCommand, AllocError> {
//!     let lines = Items::of_one(alloc, stock, quantity)?;
//!     Ok(OrderCommand::Place {
//!         lines,
//!         account,
//!         amount,
//!     })
//! }
//! ```
//!
//! What a seat asks of an order: so much of one stock, and so much of an account's limit.
#![tactic(auto)]

mod commands;
mod holder;
mod items;
mod laws;
mod line;
mod line_phase;
mod line_tree;
mod order_lines;
mod status;

pub use commands::{AccountCommand, OrderCommand, StockCommand};
pub use holder::{Holder, take_line_message};
pub use items::{Item, Items};
pub use laws::{accounts_stay_sound, orders_stay_sound, stocks_stay_sound};
pub use line::Line;
pub use line_phase::LinePhase;
pub use order_lines::Lines;
pub use status::Status;
