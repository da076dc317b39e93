//! Whole runs over the files of a folder.

ghost use Rattle.std.specs.Prelude.{⊤};
ghost use Rattle.sqlite.specs.WalFiles.{image_at};
ghost use Rattle.schedule_io.specs.Ends.{IsRunFrom};
ghost use Rattle.programs.specs.Runs.{HasRun};
ghost use Rattle.schedule_io.specs.Usage.{IsStatusOf, IsStatusOfEvents};
ghost use Rattle.schedule_program.specs.Files.{AreFoundIn};

use crate::files::run_files;
use billing::Accounts;
use keep::Keep;
use keep_files::FileKeep;
use purchasing::Orders;
use schedule_io::{RunFault, read_events, tell_fault};
use schedule_program::FileStores;
use schedule_text::Event;
use sqlite::{FileFrom, FileStore, Start};
use std::alloc::Global;
use std::io::{Read, Write};
use warehouse::Stocks;

/// Reads a schedule from `input` and runs it over files.
fn read_and_run<O: Start, S: Start, A: Start, R: Read, W: Write>(
    alloc: Global,
    stores: FileStores<O, S, A>,
    input: &mut R,
    out: &mut W,
) -> Result<(), RunFault>
    ensures { IsRunFrom (HasRun ⟦<FileKeep<Orders, FileStore<FileFrom<O>>> as Keep>⟧.seen
        ⟦<FileKeep<Stocks, FileStore<FileFrom<S>>> as Keep>⟧.seen
        ⟦<FileKeep<Accounts, FileStore<FileFrom<A>>> as Keep>⟧.seen
        (AreFoundIn (image_at O.Start) (image_at S.Start) (image_at A.Start))) (λ _. ⊤) (R.remaining input.old)
        (W.contents out.old) (W.contents out.new) result }
{
    // Before a file is opened: a faulty schedule must not make files, nor change any.
    let events = read_events(alloc, input)?;
    run_files(alloc, stores, events, out)
}

/// Reads a schedule from `input`, runs it over files, and writes the outcome of each line to `out`. A fault is told on
/// `err`. The answer is the status: 0 where all lines were run, else 1. It's what `programs::run_over` does, for files.
pub fn run_over_files<O: Start, S: Start, A: Start, R: Read, W: Write, E: Write>(
    alloc: Global,
    stores: FileStores<O, S, A>,
    input: &mut R,
    out: &mut W,
    err: &mut E,
) -> u8
    ensures { IsStatusOf (HasRun ⟦<FileKeep<Orders, FileStore<FileFrom<O>>> as Keep>⟧.seen
        ⟦<FileKeep<Stocks, FileStore<FileFrom<S>>> as Keep>⟧.seen
        ⟦<FileKeep<Accounts, FileStore<FileFrom<A>>> as Keep>⟧.seen
        (AreFoundIn (image_at O.Start) (image_at S.Start) (image_at A.Start))) (λ _. ⊤) (R.remaining input.old)
        (record { out = W.contents out.old; err = E.contents err.old })
        (record { out = W.contents out.new; err = E.contents err.new }) result }
{
    match read_and_run(alloc, stores, input, out) {
        Ok(()) => 0,
        // If standard error fails too, the status is all that is left to report by.
        Err(fault) => tell_fault(err, fault).unwrap_or(1),
    }
}

/// Runs the events of a schedule over files, and writes the outcome of each to `out`. A fault is printed on `err`. The answer
/// is the status: 0 where all were run, else 1. It's [`run_over_files`] for a schedule that was read before.
pub fn run_events_over_files<O: Start, S: Start, A: Start, W: Write, E: Write>(
    alloc: Global,
    stores: FileStores<O, S, A>,
    events: Vec<Event>,
    out: &mut W,
    err: &mut E,
) -> u8
    ensures { IsStatusOfEvents (HasRun ⟦<FileKeep<Orders, FileStore<FileFrom<O>>> as Keep>⟧.seen
        ⟦<FileKeep<Stocks, FileStore<FileFrom<S>>> as Keep>⟧.seen
        ⟦<FileKeep<Accounts, FileStore<FileFrom<A>>> as Keep>⟧.seen
        (AreFoundIn (image_at O.Start) (image_at S.Start) (image_at A.Start))) (λ _. ⊤) events.items
        (record { out = W.contents out.old; err = E.contents err.old })
        (record { out = W.contents out.new; err = E.contents err.new }) result }
{
    if let Err(fault) = run_files(alloc, stores, events, out) {
        return tell_fault(err, fault).unwrap_or(1);
    }
    0
}
