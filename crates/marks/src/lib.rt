//! Watermarks: numbers that many threads raise and read, and that no thread waits for.
//!
//! Marks have places, each of which begins at 0, and seats, one for each that raises and reads.
//! - What a seat reads is no less than all that it raised or read at that place before: a mark never falls.
//! - Once no seat is used any more, `close` takes them all. Then each mark is the greatest number that any seat raised
//!   there, or 0 where none did, it is no less than all that any seat read there, and whatever a seat read was 0 or
//!   was raised at that place by a seat.
//! - No call waits for another thread, and none but `open` takes memory. So a thread that is stopped in the midst of a
//!   call, or that never calls again, keeps no other from raising and reading.
//!
//! Nothing is said of how soon a seat sees what another has raised. A seat is used with the marks that it was opened
//! with: the caller owes that.
//!
//! ```text
//! open 1 place, 2 seats           the seats a and b
//! a raises 5, b raises 3
//! b reads                         3 or more
//! close with a and b              the mark is 5
//! ```
//!
//! ```rust
//! pub fn a_mark_is_the_greatest_number_raised(alloc: Global) -> Result<bool, AllocError> {
//!     let (marks, mut seats) = Marks::open(alloc, 1, 2)?;
//!     marks.raise(&mut seats[0], 0, 5);
//!     marks.raise(&mut seats[1], 0, 3);
//!     let read = marks.read(&mut seats[1], 0);
//!     let closed = marks.close(seats);
//!     Ok(read >= 3 && closed.mark(0) == 5)
//! }
//! ```
#![tactic(auto)]

mod closed;
pub mod limits;
mod marks;
mod rule;

pub use closed::Closed;
pub use marks::{MarkSeat, Marks};
