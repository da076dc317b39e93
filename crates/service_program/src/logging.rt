//! The log of a program.

ghost use Rattle.std.specs.Prelude.{◌≡◌};
ghost use Rattle.log.specs.Handle.{max_level};

use log::{LevelFilter, Logged};
use timed_log::TimedConsole;

/// The runtime of a service's threads, with a log on standard error.
pub type WithLog<'a, R> = Logged<&'a R, TimedConsole<HostRuntime>>;

/// The runtime with a log of what is at this level and above it: a line each on standard error, after its time.
pub fn with_log<'a, R>(rt: &'a R, host: &HostRuntime, level: LevelFilter) -> WithLog<'a, R>
    ensures { max_level result ≡ level }
{
    Logged::new(rt, level, TimedConsole(*host))
}
