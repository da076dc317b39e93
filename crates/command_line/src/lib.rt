//! What a program tells where the words of its command line ask for no run: help and the version, a fault of usage, or
//! that a word isn't UTF-8. `clap` reads the words; its texts and the status that follows are the same in each program.
//!
//! ```rust
//! pub fn words_that_are_no_text_are_told(alloc: Global) -> io::Result<u8> {
//!     let mut err = Vec::new(alloc);
//!     tell_bad_words(&mut err, "hi NAME")
//! }
//! ```
//!
//! The answer is the status, 2.
#![tactic(auto)]

mod told;

pub use told::{tell_bad_words, tell_words};
