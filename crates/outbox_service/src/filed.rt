//! Services over the tables of a file.

use activities::Handler;
use keep::Keep;
use keep_files::{FileKeep, Reopenable};
use keep_sqlite::Filed;
use log::{Log, warn};
use service_program::{Broker, Business, RunFault, run_service};
use sqlite::{FileFrom, FileStore, Start};
use sqlite_disk::Disk;
use std::sync::Wait;
use std::thread::Threads;
use std::time::Clock;

/// Warns if a file has no rows: its letters are numbered from 1 on, which partners that know others take for duplicates.
fn tell_new<K: Keep, R: Log>(rt: &R, path: &str, keep: &K) {
    // Usable first: only of a usable store may the length be asked.
    if keep.usable() && keep.length() == 0 {
        warn!(rt; "{path} has no rows: if this isn't a new service, it's the wrong file");
    }
}

// Each step makes one type more concrete: a call over types that are all known takes a minute of the check. So what is
// done with the tables is done in the first, which knows least of them.

/// Runs a service over the tables of the file at a path, which is open, on whatever disk.
fn run_kept<H, B, S, R>(
    rt: &R,
    host: &HostRuntime,
    path: &str,
    keep: FileKeep<H, S>,
    broker: Broker<'_>,
) -> Result<(), RunFault>
where
    H: Handler
        + Filed<State = <H as Handler>::State, Command = <H as Handler>::Command>
        + Send
        + Sync,
    <H as Handler>::State: Send,
    <H as Handler>::Command: Send,
    B: Business<H>,
    S: Reopenable + Drop + Send,
    S::Files: Send,
    R: Threads + Wait + Clock + Log + Sync,
{
    tell_new(rt, path, &keep);
    run_service::<H, B, FileKeep<H, S>, R>(rt, host, keep, broker)
}

/// Runs it on a disk.
fn run_on_disk<H, B, D, R>(
    rt: &R,
    host: &HostRuntime,
    path: &str,
    keep: FileKeep<H, FileStore<D>>,
    broker: Broker<'_>,
) -> Result<(), RunFault>
where
    H: Handler
        + Filed<State = <H as Handler>::State, Command = <H as Handler>::Command>
        + Send
        + Sync,
    <H as Handler>::State: Send,
    <H as Handler>::Command: Send,
    B: Business<H>,
    D: Disk + Drop + Send,
    R: Threads + Wait + Clock + Log + Sync,
{
    run_kept::<H, B, FileStore<D>, R>(rt, host, path, keep, broker)
}

/// Runs it on a disk of the operating system.
fn run_from<H, B, D, R>(
    rt: &R,
    host: &HostRuntime,
    path: &str,
    keep: FileKeep<H, FileStore<FileFrom<D>>>,
    broker: Broker<'_>,
) -> Result<(), RunFault>
where
    H: Handler
        + Filed<State = <H as Handler>::State, Command = <H as Handler>::Command>
        + Send
        + Sync,
    <H as Handler>::State: Send,
    <H as Handler>::Command: Send,
    B: Business<H>,
    D: Start + Send,
    R: Threads + Wait + Clock + Log + Sync,
{
    run_on_disk::<H, B, FileFrom<D>, R>(rt, host, path, keep, broker)
}

/// Opens a file, or returns why it can't be opened.
fn open_file<H: Filed, D: Start>(
    host: &HostRuntime,
    path: &str,
    start: D,
) -> Result<FileKeep<H, FileStore<FileFrom<D>>>, RunFault> {
    match FileKeep::open(host, path, start) {
        Ok(keep) => Ok(keep),
        Err(fault) => Err(RunFault::of_file(fault)),
    }
}

/// Runs a service over the tables of a file. What it holds when it's opened nobody can know; `start` stands for it.
///
/// # Errors
/// Where the file can't be opened, or is of another service; else those of `run_service`.
pub fn run_filed<H, B, D, R>(
    rt: &R,
    host: &HostRuntime,
    path: &str,
    start: D,
    broker: Broker<'_>,
) -> Result<(), RunFault>
where
    H: Handler
        + Filed<State = <H as Handler>::State, Command = <H as Handler>::Command>
        + Send
        + Sync,
    <H as Handler>::State: Send,
    <H as Handler>::Command: Send,
    B: Business<H>,
    D: Start + Send,
    R: Threads + Wait + Clock + Log + Sync,
{
    match open_file::<H, D>(host, path, start) {
        Ok(keep) => run_from::<H, B, D, R>(rt, host, path, keep, broker),
        Err(fault) => Err(fault),
    }
}
