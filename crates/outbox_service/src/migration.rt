//! A file of version 1, taken over.

use billing::Accounts;
use keep::KeepFault;
use keep_sqlite::{Filed, Migrated, SqliteKeep, TerminalProgress};
use purchasing::Orders;
use service_program::RunFault;
use sqlite::{FileFrom, FileStore, Unknown};
use streams::write_octets;
use warehouse::Stocks;

/// Takes a file over where it's of version 1. What it holds nobody can know.
fn migrate_file<H: Filed>(host: &HostRuntime, path: &str) -> Result<Migrated, KeepFault> {
    let mut progress = TerminalProgress::new(host);
    SqliteKeep::<H, FileStore<FileFrom<Unknown>>>::migrate(host, path, Unknown, &mut progress)
}

/// Tells by a line on standard output that a file was taken over, where it was.
fn tell(host: &HostRuntime, done: Result<Migrated, KeepFault>, line: &str) -> Result<(), RunFault> {
    match done {
        Ok(migrated) if migrated.from == 1 => match write_octets(
            &mut host.stdout(),
            line.as_bytes(),
        ) {
            Ok(()) => Ok(()),
            // The file is of version 2 by now, though no line says so: the next start just opens it.
            Err(_) => Err(RunFault::Device),
        },
        // A file of version 2 stays as it is, and no line is printed: `--migrate` may stay in a script.
        Ok(_) => Ok(()),
        Err(fault) => Err(RunFault::of_file(fault)),
    }
}

/// Takes the file of one service over, and prints this line where it did.
fn take_over_of<H: Filed>(host: &HostRuntime, path: &str, line: &str) -> Result<(), RunFault> {
    tell(host, migrate_file::<H>(host, path), line)
}

/// Takes the file of a service over where it's of version 1, and tells so on standard output, as `migrated billing 1 2`.
///
/// # Errors
/// Where it can't be taken over: it's as it was. `Device` where standard output failed.
pub fn take_over(host: &HostRuntime, service: &str, path: &str) -> Result<(), RunFault> {
    match service {
        "warehouse" => take_over_of::<Stocks>(host, path, "migrated warehouse 1 2\n"),
        "billing" => take_over_of::<Accounts>(host, path, "migrated billing 1 2\n"),
        _ => take_over_of::<Orders>(host, path, "migrated purchasing 1 2\n"),
    }
}
