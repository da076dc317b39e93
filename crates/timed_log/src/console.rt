//! Where records go.

ghost use Rattle.std.specs.Prelude.{Some, true, []};

use crate::stamp::Stamp;
use log::kv::Source;
use log::span::Spans;
use log::{Line, Log, Metadata, Record};
use std::fmt;
use std::fmt::{Display, Formatter};
use std::time::Clock;

/// Writes each record to the standard error of `R`, after its time.
#[derive(Clone, Copy, Debug, Drop)]
pub struct TimedConsole<R>(pub R);

/// A line after its time.
#[derive(Drop)]
struct Timed<T> {
    stamp: Stamp,
    line: T,
}

impl<T: Display> Display for Timed<T> {
    fn fmt<W: fmt::Write>(&self, f: &mut Formatter<W>) -> fmt::Result {
        write!(f, "{} {}", self.stamp, self.line)
    }
}

impl<R: Eprint + Clock> Log for TimedConsole<R> {
    ghost enables = { λ _ _ _. Some true };

    ghost target_of = { λ _. Some [] };

    fn enabled(&self, _metadata: &Metadata<'_>) -> bool {
        true
    }

    fn log<D: Display, K: Source, S: Spans>(&self, record: &Record<'_, D, K, S>) {
        let line = Line::new(record);
        // Nobody is left to be told where standard error fails.
        let _ = match Stamp::now(&self.0) {
            Some(stamp) => self.0.eprintln(Timed { stamp, line }),
            None => self.0.eprintln(line),
        };
    }

    // Nothing is buffered.
    fn flush(&self) {}

    fn target(&self) -> &str {
        ""
    }
}
