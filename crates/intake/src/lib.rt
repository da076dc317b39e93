//! The intake of a service: two readers put what arrives, and one worker takes it.
//!
//! What is taken of a reader are the first arrivals that it put, each once and in order: `close` says how many, once both
//! readers have ended. An arrival is told with the number of its reader, 0 or 1. There is room for 64: one that finds
//! none comes back, and nothing has changed then.
//!
//! One thread at a time uses a reader, and one the worker; a reader is used with the worker that it was opened with: the
//! caller owes that. Whether what was put is ever taken isn't promised, and what is left at the end is dropped.
//!
//! ```rust
//! pub fn what_a_reader_puts_is_taken<R: Wait>(rt: &R, alloc: Global) -> Option<(u64, Taken)> {
//!     let Ok((mut zero, one, mut worker)) = Intake::open::<u64>(alloc) else {
//!         return None;
//!     };
//!     let _first = zero.put(rt, 7);
//!     let _second = zero.put(rt, 8);
//!     let slip = worker.take(rt)?;
//!     Some((slip.arrival, worker.close(zero, one)))
//! }
//! ```
//!
//! The answer is 7, and that one arrival of reader 0 was taken, and none of reader 1.
#![tactic(auto)]

mod intake;
mod rule;
mod slip;
mod taken;

pub use intake::{Intake, IntakeReader, IntakeWorker};
pub use slip::Slip;
pub use taken::Taken;
