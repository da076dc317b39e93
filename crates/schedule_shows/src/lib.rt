//! The lines that show what services have: rows, marks of pairs, journals, and frames that are to be sent.
//!
//! Each call makes whole lines of values, as their definitions have them, and nothing else; an `Err` is want of memory.
//!
//! ```rust
//! pub fn a_row_is_shown(alloc: Global, bolt: &Entity) -> Result<bool, AllocError> {
//!     let row = Some(Stock::new(alloc));
//!     let line = show_row::<Stocks>(alloc, bolt, &row)?;
//!     let told = b"stock/bolt on_hand 0 held 0 shipped 0 received 0\n".as_slice();
//!     Ok(line.as_slice() == told)
//! }
//! ```
//!
//! Where the entity is `stock/bolt` the answer is true.
#![tactic(auto)]

mod frames;
mod journals;
mod marks;
mod services;
mod states;
mod words;

pub use frames::show_frames;
pub use journals::show_journal;
pub use marks::show_marks;
pub use services::{Shown, show_row};
pub use words::{push_entity, spelled};
