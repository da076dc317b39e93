//! Schedules: texts of events, one a line, how they are read, and the lines that tell what became of them.
//!
//! A schedule is read exactly: its events in order, or the number of its first line that is none. What no event can be
//! isn't kept: a line of any length costs no more than an event.
//!
//! ```rust
//! pub fn a_schedule_is_read(alloc: Global) -> Result<usize, ScheduleFault> {
//!     let events = read_schedule(alloc, b"cancel 0 o1\n# a comment\nshow thing\n")?;
//!     Ok(events.len())
//! }
//! ```
//!
//! The answer is the fault `BadEvent(3)`: the third line is no event, and the comment is counted.
#![tactic(auto)]

mod arguments;
mod bounded;
mod commands;
mod event;
mod fault;
mod laws;
mod outcome;
mod parsing;
mod reading;
mod verb;
mod words;

pub use bounded::{Ordinal, Rounds, SeatNumber};
pub use event::{ConnectionName, ConnectionNumber, Event, FailureLeaves, SeatCommand, ServiceName};
pub use fault::ScheduleFault;
pub use laws::{
    a_printed_word_is_read_again, an_event_has_few_words, written_lines_are_read_again,
};
pub use outcome::{Outcome, Pieces};
pub use reading::{read_entity, read_schedule};
