//! Whole schedules: read, run and told.

ghost use Rattle.std.specs.Prelude.{OnErr, IfOk};
ghost use Rattle.schedule_io.specs.Ends.{IsRunFrom, IsEndOf, IsUntold};
ghost use Rattle.schedule_io.specs.Usage.{IsStatusOf};
ghost use Rattle.programs.specs.Runs.{HasRun, RunsText};

use crate::running::run_events;
use schedule_io::{RunFault, Stores, read_all, tell_fault};
use schedule_runner::World;
use schedule_text::read_schedule;
use std::alloc::Global;
use std::io;
use std::io::{Read, Write};

/// Reads a schedule from its text and runs it over these stores: nothing is opened or run before the whole of it is
/// read, and each outcome is written before the next event is made. The world that is returned is what the last event
/// has left.
///
/// # Errors
/// `BadEvent` with the number of the first faulty line, `Memory` where the events couldn't be held, and `Unopened` where
/// a store can't be opened: nothing was run. `Device` where `out` failed: it took a beginning of what is told of the
/// first events, and no event was made after it failed.
pub fn run_text<S: Stores, W: Write>(
    alloc: Global,
    stores: S,
    text: &[u8],
    out: &mut W,
) -> Result<World<S::Orders, S::Stocks, S::Accounts>, RunFault>
    ensures { RunsText S.Orders.seen S.Stocks.seen S.Accounts.seen S.found S.fails text.now (W.contents out.old)
        (W.contents out.new) result }
{
    // Before the stores: a faulty line leaves no file opened, made or changed.
    let events = read_schedule(alloc, text)?;
    let keeps = stores.open(alloc)?;
    let (world, ran) = run_events(alloc, keeps, events, out);
    match ran {
        Ok(()) => Ok(world),
        Err(fault) => Err(fault),
    }
}

/// Reads a schedule from `input` and runs it.
fn read_and_run<S: Stores, R: Read, W: Write>(
    alloc: Global,
    stores: S,
    input: &mut R,
    out: &mut W,
) -> Result<(), RunFault>
    ensures { IsRunFrom (HasRun S.Orders.seen S.Stocks.seen S.Accounts.seen S.found) S.fails (R.remaining input.old)
        (W.contents out.old) (W.contents out.new) result }
{
    // All of it before a line is looked at: if the reader fails amid a schedule, nothing was run.
    let text = read_all(alloc, input)?;
    match run_text(alloc, stores, text.as_slice(), out) {
        Ok(_world) => Ok(()),
        Err(fault) => Err(fault),
    }
}

/// Reads a schedule from `input`, runs it over these stores, and writes the outcome of each line to `out`. A fault is
/// told on `err`.
///
/// The status is 0 where all lines were run, else 1.
///
/// # Errors
/// Where `err` failed while a fault was told.
pub fn run_input<S: Stores, R: Read, W: Write, E: Write>(
    alloc: Global,
    stores: S,
    input: &mut R,
    out: &mut W,
    err: &mut E,
) -> io::Result<u8>
    ensures ended { IfOk result (λ status.
        IsEndOf (HasRun S.Orders.seen S.Stocks.seen S.Accounts.seen S.found) S.fails (R.remaining input.old)
        (record { out = W.contents out.old; err = E.contents err.old })
        (record { out = W.contents out.new; err = E.contents err.new }) status) }
    ensures untold { OnErr result (IsUntold (HasRun S.Orders.seen S.Stocks.seen S.Accounts.seen S.found) S.fails
        (R.remaining input.old) (record { out = W.contents out.old; err = E.contents err.old })
        (record { out = W.contents out.new; err = E.contents err.new })) }
{
    match read_and_run(alloc, stores, input, out) {
        Ok(()) => Ok(0),
        Err(fault) => tell_fault(err, fault),
    }
}

/// Reads a schedule from `input`, runs it over these stores, and writes the outcome of each line to `out`. A fault is
/// told on `err`. The answer is the status: 0 where all lines were run, else 1.
pub fn run_over<S: Stores, R: Read, W: Write, E: Write>(
    alloc: Global,
    stores: S,
    input: &mut R,
    out: &mut W,
    err: &mut E,
) -> u8
    ensures { IsStatusOf (HasRun S.Orders.seen S.Stocks.seen S.Accounts.seen S.found) S.fails (R.remaining input.old)
        (record { out = W.contents out.old; err = E.contents err.old })
        (record { out = W.contents out.new; err = E.contents err.new }) result }
{
    // If standard error fails too, the status is all that is left to report by.
    run_input(alloc, stores, input, out, err).unwrap_or(1)
}
