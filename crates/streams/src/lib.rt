//! Octets that are written to their end, to a writer that blocks.
//!
//! All of them are taken, once each and in order; or the writer failed, and took a beginning of them: std's `write_all`
//! does the same and says little of what was taken then.
//!
//! ```rust
//! pub fn three_parts_are_one_text(alloc: Global) -> io::Result<Vec<u8>> {
//!     let mut out = Vec::new(alloc);
//!     write_three(&mut out, b"7", b" ", b"8")?;
//!     Ok(out)
//! }
//! ```
#![tactic(auto)]

mod writing;

pub use writing::{write_octets, write_three};
