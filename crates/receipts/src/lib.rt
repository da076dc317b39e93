//! Receipts: the numbers under which a connection asks to be told that a frame was processed, each with a tag that
//! tells what was sent.
//!
//! Numbers are given in order, 1, 2, .., and each once. A number that is closed gives back the tag that was opened
//! under it, and is closed for good: so each tag is given back at most once, however often its receipt comes. Closing
//! takes no memory.
//!
//! ```text
//! open a, open b      1, 2
//! close 2, close 2    b, nothing
//! open c              3
//! ```
//!
//! ```rust
//! pub fn a_receipt_is_closed_once(alloc: Global) -> Result<bool, ReceiptFault> {
//!     let mut receipts = Receipts::new(alloc);
//!     let number = receipts.open('a')?;
//!     let tag = receipts.close(number);
//!     let again = receipts.close(number);
//!     Ok(tag == Some('a') && again.is_none())
//! }
//! ```
#![tactic(auto)]

mod fault;
mod laws;
mod receipts;

pub use fault::ReceiptFault;
pub use laws::{a_number_is_closed_once, what_is_given_was_opened};
pub use receipts::Receipts;
