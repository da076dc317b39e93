//! What programs share that answer lines: the loop over a script's lines, the words of a line, and octets as text.
//!
//! A script is read line by line. A comment, which begins with `#`, and an empty line are printed as they are. Each
//! other line has one answer: what its call gives, or the text of its fault. So the answer to a line of the input
//! stands at the same line of the output. Where a growth is refused the program ends there with status 3.
//!
//! A program has a type that implements `Script`, and its `main` hands one to `run`. Octets that no line can hold are
//! written with the escapes of `text`, and what is printed of octets is read back as they were:
//!
//! ```rust
//! pub fn printed_octets_are_read(alloc: Global) -> Result<bool, LineFault> {
//!     let octets = read_octets(alloc, "two\\swords\\x00")?;
//!     let mut text = String::new(alloc);
//!     push_octets(&mut text, &octets)?;
//!     Ok(text.as_str() == "two words\\x00")
//! }
//! ```
//!
//! `LineFault` is why a line isn't read, whatever the program. A program's own fault holds it beside those of the calls
//! that its lines name.
#![tactic(auto)]

mod fault;
mod octets;
mod script;
mod words;

pub use fault::LineFault;
pub use octets::{read_octets, read_text};
pub use script::{Fault, Script, answer_line, or_done, run};
pub use words::{first_word, natural, number, pair, seat, size};
