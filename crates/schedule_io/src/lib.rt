//! Input and output of the program that runs schedules, but for the run.
//!
//! The words of its command line ask for stores, for help or for the version: [`ask`]. A schedule is read from a reader,
//! all of it before anything is opened: [`read_events`]. What has purchasing's, warehouse's and billing's tables
//! implements [`Stores`], and [`PlainStores`] does so in memory. Outcomes are written line for line, and a fault is told
//! by one line: [`write_outcome`] and [`tell_fault`]. A writer that failed has taken a beginning of that.
//!
//! ```rust
//! pub fn a_bad_event_is_told(alloc: Global) -> io::Result<bool> {
//!     let mut err = Vec::new(alloc);
//!     let status = tell_fault(&mut err, RunFault::BadEvent(2))?;
//!     Ok(status == 1 && err.as_slice() == b"line 2: bad event\n".as_slice())
//! }
//! ```
//!
//! The answer is true.
#![tactic(auto)]

mod choice;
mod fault;
mod reading;
mod stores;
mod telling;
mod words;
mod writing;

pub use choice::StoreChoice;
pub use fault::{RunFault, StoresFault};
pub use reading::{read_all, read_events};
pub use stores::{PlainStores, Stores};
pub use telling::tell_fault;
pub use words::{ask, tell_bad_words};
pub use writing::write_outcome;
