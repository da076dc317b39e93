//! Letters that came too early: held until their turn comes.
//!
//! A store keeps the held letters of each pair, and how many letters of it were handled. The next to be handled has the
//! number after that; where it is held, its turn has come.
//!
//! ```rust
//! pub fn nothing_is_held_at_first(alloc: Global, pair: &Pair) -> Result<bool, KeepFault> {
//!     let mut keep: PlainKeep<Orders> = PlainKeep::new(alloc);
//!     let next = next_held(alloc, &mut keep, pair, 0)?;
//!     Ok(next.is_none())
//! }
//! ```
#![tactic(auto)]

mod changes;
mod reading;

pub use changes::{hold, take_in};
pub use reading::next_held;
