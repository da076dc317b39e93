//! The functions of the programs: schedules of events, run and told.
//!
//! A schedule is run by three services, with a broker between them, over any three stores that open: `Stores` is what
//! opens them, and `PlainStores` does so with tables in memory. What is printed are the outcomes of its events, line for
//! line. Where a line is no event or a store can't be opened nothing is run, and where a writer fails it holds a
//! beginning of what was to be printed.
//!
//! ```rust
//! pub fn a_schedule_is_run(alloc: Global) -> Result<bool, RunFault> {
//!     let mut out = Vec::new(alloc);
//!     run_text(alloc, PlainStores, b"cancel 0 o1\n", &mut out)?;
//!     Ok(out.as_slice() == b"refused 61 71\n".as_slice())
//! }
//! ```
//!
//! The answer is true.
#![tactic(auto)]

mod laws;
mod running;
mod schedule;

pub use laws::{a_run_goes_on, a_run_in_memory_ends_well};
pub use running::{open_world, run_events};
pub use schedule::{run_input, run_over, run_text};
