//! The program that runs schedules: its command line, its streams and its stores.

use crate::files::FileStores;
use crate::memory::SqliteStores;
use crate::migration::read_and_migrate;
use crate::runs::Runs;
use keep_sqlite::TerminalProgress;
use schedule_io::{PlainStores, RunFault, StoreChoice, ask, tell_bad_words, tell_fault};
use sqlite::Unknown;
use std::io::{BufReader, BufWriter, ErrorKind};
use std::process::ExitCode;
use std::{env, io};

// Each kind of stores has a function of its own: together they are too much for the check of one.

/// Runs the schedule over tables in ordered maps. The answer is the status.
fn run_in_maps<X: Runs>(rt: HostRuntime) -> io::Result<u8> {
    let mut input = BufReader::new(rt.alloc(), rt.reader())?;
    let mut out = BufWriter::new(rt.alloc(), io::writer(&rt))?;
    let mut err = rt.stderr();
    Ok(X::run_over(rt.alloc(), PlainStores, &mut input, &mut out, &mut err))
}

/// The same over tables of SQL in memory.
fn run_in_sql<X: Runs>(rt: HostRuntime) -> io::Result<u8> {
    let mut input = BufReader::new(rt.alloc(), rt.reader())?;
    let mut out = BufWriter::new(rt.alloc(), io::writer(&rt))?;
    let mut err = rt.stderr();
    Ok(X::run_over(rt.alloc(), SqliteStores, &mut input, &mut out, &mut err))
}

/// The same over the files of a folder. What they hold before isn't known here.
fn run_in_files<X: Runs>(rt: HostRuntime, folder: &str) -> io::Result<u8> {
    let mut input = BufReader::new(rt.alloc(), rt.reader())?;
    let mut out = BufWriter::new(rt.alloc(), io::writer(&rt))?;
    let mut err = rt.stderr();
    // `Unknown` represents what a file holds: nobody knows that before it is opened.
    match FileStores::new(rt, folder, (Unknown, Unknown, Unknown)) {
        Ok(stores) => Ok(X::run_over_files(rt.alloc(), stores, &mut input, &mut out, &mut err)),
        Err(_) => tell_fault(&mut err, RunFault::Memory),
    }
}

/// The same once those of the files that are of version 1 were taken over, which is printed on standard output.
fn run_in_migrated<X: Runs>(rt: HostRuntime, folder: &str) -> io::Result<u8> {
    let mut input = BufReader::new(rt.alloc(), rt.reader())?;
    let mut out = BufWriter::new(rt.alloc(), io::writer(&rt))?;
    let mut err = rt.stderr();
    // These lines don't wait in the buffer of `out`: each reports a file at once, and the next may take minutes.
    let mut told = rt.stdout();
    let mut progress = TerminalProgress::new(&rt);
    let events = match read_and_migrate(&rt, folder, &mut input, &mut told, &mut progress) {
        Ok(events) => events,
        Err(fault) => return tell_fault(&mut err, fault),
    };
    match FileStores::new(rt, folder, (Unknown, Unknown, Unknown)) {
        Ok(stores) => Ok(X::run_events_over_files(rt.alloc(), stores, events, &mut out, &mut err)),
        Err(_) => tell_fault(&mut err, RunFault::Memory),
    }
}

/// Runs the program over the words of its command line and the standard streams. The answer is the status. Words that
/// aren't UTF-8 are `InvalidData`, which nothing else here is.
fn run<X: Runs>(rt: HostRuntime) -> io::Result<u8> {
    let words: Vec<String> = env::args(&rt)?.collect(rt.alloc())?;
    match ask(
        rt.alloc(),
        words.as_slice(),
        &mut rt.stdout(),
        &mut rt.stderr(),
    ) {
        Ok(StoreChoice::Plain) => run_in_maps::<X>(rt),
        Ok(StoreChoice::Sqlite) => run_in_sql::<X>(rt),
        Ok(
            StoreChoice::Files {
                folder,
                migrate: true,
            },
        ) => run_in_migrated::<X>(rt, folder),
        Ok(
            StoreChoice::Files {
                folder,
                migrate: false,
            },
        ) => run_in_files::<X>(rt, folder),
        Err(status) => Ok(status),
    }
}

/// The program whose schedules are run by `X`: its words are those of the command line, and its streams the standard
/// ones.
///
/// # Errors
/// Where standard error failed while a fault was told, or the words couldn't be read.
pub fn run_program<X: Runs>(rt: HostRuntime) -> io::Result<ExitCode> {
    let status = match run::<X>(rt) {
        // The words and the streams' buffers allocate before a run begins: reported as in a run, by `fault 81`.
        Err(error) if error.kind() == ErrorKind::OutOfMemory => {
            tell_fault(&mut rt.stderr(), RunFault::Memory)?
        }
        Err(error) if error.kind() == ErrorKind::InvalidData => tell_bad_words(&mut rt.stderr())?,
        answer => answer?,
    };
    Ok(ExitCode::from(status))
}
