//! Lines of a log with their time, as programs write them on standard error: UTC, in milliseconds, as RFC 3339 has it.
//!
//! ```text
//! 2026-12-01T07:13:27.538Z [WARN  service_program::gate] connection 0 ended: 1 Cut: the connection has ended
//! ```
//!
//! [`TimedConsole`] is where `log` puts its records: it writes each, whatever its level, and promises nothing else, since a
//! failed write can't be reported. A line of up to 1,024 octets is one write, so that lines of threads don't mix. Where the
//! system has no time, a line has none. [`Stamp`] is a time as the lines have it.
//!
//! ```rust
//! pub fn a_time_is_written(alloc: Global) -> Result<String, AllocError> {
//!     match timed_log::Stamp::of_millis(951_782_400_007) {
//!         Some(stamp) => format!(in alloc; "{stamp}"),
//!         None => Ok(String::new(alloc)),
//!     }
//! }
//! ```
//!
//! The answer is `2000-02-29T00:00:00.007Z`.
#![tactic(auto)]

mod console;
mod stamp;

pub use console::TimedConsole;
pub use stamp::Stamp;
