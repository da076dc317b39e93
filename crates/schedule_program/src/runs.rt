//! What runs schedules, for a program that is given it.

use crate::files::FileStores;
use schedule_io::Stores;
use schedule_text::Event;
use sqlite::Start;
use std::alloc::Global;
use std::io::{Read, Write};

/// Runs schedules. Each runs the schedule that it reads from `input`, or the events of one that was read, over these stores,
/// and writes the outcome of each line to `out`. A fault is printed on `err`. The answer is the status: 0 where all lines were
/// run, else 1.
pub trait Runs {
    /// Over any stores.
    fn run_over<S: Stores, R: Read, W: Write, E: Write>(
        alloc: Global,
        stores: S,
        input: &mut R,
        out: &mut W,
        err: &mut E,
    ) -> u8;

    /// Over the files of a folder.
    fn run_over_files<O: Start, S: Start, A: Start, R: Read, W: Write, E: Write>(
        alloc: Global,
        stores: FileStores<O, S, A>,
        input: &mut R,
        out: &mut W,
        err: &mut E,
    ) -> u8;

    /// Over these files too, the events of a schedule that was read before.
    fn run_events_over_files<O: Start, S: Start, A: Start, W: Write, E: Write>(
        alloc: Global,
        stores: FileStores<O, S, A>,
        events: Vec<Event>,
        out: &mut W,
        err: &mut E,
    ) -> u8;
}
