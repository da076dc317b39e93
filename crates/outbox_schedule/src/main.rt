//! Runs a schedule, read from standard input, and prints the outcome of each line.
#![tactic(auto)]

use programs::run_over;
use schedule_io::Stores;
use schedule_program::{FileStores, Runs, run_program};
use schedule_stores::{run_events_over_files, run_over_files};
use schedule_text::Event;
use sqlite::Start;
use std::alloc::Global;
use std::io;
use std::io::{Read, Write};
use std::process::ExitCode;

/// Three services and a broker make the events.
struct Services;

// A program proves again how each library type that it owns is dropped, so this one names types and owns none.
impl Runs for Services {
    fn run_over<S: Stores, R: Read, W: Write, E: Write>(
        alloc: Global,
        stores: S,
        input: &mut R,
        out: &mut W,
        err: &mut E,
    ) -> u8 {
        run_over(alloc, stores, input, out, err)
    }

    fn run_over_files<O: Start, S: Start, A: Start, R: Read, W: Write, E: Write>(
        alloc: Global,
        stores: FileStores<O, S, A>,
        input: &mut R,
        out: &mut W,
        err: &mut E,
    ) -> u8 {
        run_over_files(alloc, stores, input, out, err)
    }

    fn run_events_over_files<O: Start, S: Start, A: Start, W: Write, E: Write>(
        alloc: Global,
        stores: FileStores<O, S, A>,
        events: Vec<Event>,
        out: &mut W,
        err: &mut E,
    ) -> u8 {
        run_events_over_files(alloc, stores, events, out, err)
    }
}

fn main(rt: HostRuntime) -> io::Result<ExitCode> {
    run_program::<Services>(rt)
}
