//! Text of lines: decimal numerals, and octets with escapes, as programs print and read them.
//!
//! `read_number` reads a number that is written in decimal without leading zeros, and no other text; `read_digits`
//! allows leading zeros. A sign, a space and a number from 2^64 on are refused by both. `push_octets` prints octets
//! that no line can hold with escapes, and `unescape` reads them as they were:
//!
//! ```rust
//! pub fn a_line_is_read_again(alloc: Global) -> Result<bool, AllocError> {
//!     let mut line = String::new(alloc);
//!     push_octets(&mut line, b"7\n")?;
//!     let octets = unescape(alloc, &line)?;
//!     let is_same = octets.is_some_and(|octets| octets.as_slice() == b"7\n".as_slice());
//!     Ok(is_same && line.as_str() == "7\\n" && read_number("07").is_none())
//! }
//! ```
//!
//! The answer is true.
#![tactic(auto)]

mod laws;
mod numerals;
mod octets;

pub use laws::{a_number_has_one_numeral, printed_octets_are_read_back};
pub use numerals::{read_digits, read_number};
pub use octets::{push_octets, unescape};
