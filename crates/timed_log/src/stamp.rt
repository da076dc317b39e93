//! Times as text.

ghost use Rattle.std.specs.Prelude.{◌≡◌, ◌*ℤ◌, ◌≤ℤ◌, pos, IsSome, IfSome, ◌↔◌};
ghost use Rattle.jiff.specs.Words.{IsTimestampNanos};
ghost use Rattle.timed_log.specs.Times.{instant};

use jiff::Timestamp;
use std::fmt;
use std::fmt::{Display, Formatter};
use std::time::Clock;

/// A time of a log's line.
#[derive(Clone, Copy, Debug, Drop, PartialEq, Eq)]
pub struct Stamp {
    time: Timestamp,
}

impl Stamp {
    /// The time so many milliseconds after 1970-01-01T00:00:00Z; none after the year 9999.
    pub fn of_millis(millis: i64) -> Option<Stamp>
        ensures variant { IsSome result ↔ IsTimestampNanos (millis *ℤ pos 1_000_000) }
        ensures value { IfSome result (λ stamp. instant stamp ≡ millis *ℤ pos 1_000_000) }
    {
        match Timestamp::from_millisecond(millis) {
            Ok(time) => Some(Stamp { time }),
            Err(_) => None,
        }
    }

    /// The time now, if the system has one.
    pub fn now<R: Clock>(rt: &R) -> Option<Stamp>
        ensures { IfSome result (λ stamp. pos 0 ≤ℤ instant stamp) }
    {
        match Timestamp::now(rt) {
            Ok(time) => Some(Stamp { time }),
            Err(_) => None,
        }
    }
}

impl Display for Stamp {
    // Three digits of a second always, so that the lines of a log have their words one below another.
    fn fmt<W: fmt::Write>(&self, f: &mut Formatter<W>) -> fmt::Result {
        write!(f, "{:.3}", self.time)
    }
}
