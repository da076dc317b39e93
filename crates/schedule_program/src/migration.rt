//! Files of version 1 in a folder, taken over.

ghost use Rattle.std.specs.Prelude.{◌≡◌, IfOk, OnOk, IfErr};
ghost use Rattle.std.specs.Io.KnownBytes.{Appends};
ghost use Rattle.keep_sqlite.specs.Migration.{IsVersions};
ghost use Rattle.schedule_io.specs.declared.fault.RunFault.TheVariants.{Device};
ghost use Rattle.schedule_program.specs.Migration.{IsReadAndTakenOver, IsTakenOverWith, line_of};
ghost use Rattle.streams.specs.Written.{AppendsPart};

use billing::Accounts;
use keep::KeepFault;
use keep_sqlite::{Filed, Migrated, Progress, SqliteKeep};
use purchasing::Orders;
use schedule_io::{RunFault, StoresFault, read_events};
use schedule_text::Event;
use sqlite::{FileFrom, FileStore, Unknown};
use std::io::{Read, Write};
use streams::write_octets;
use warehouse::Stocks;

/// Takes the file of this name in a folder over.
fn migrate_file<H: Filed, P: Progress>(
    rt: &HostRuntime,
    folder: &str,
    name: &str,
    progress: &mut P,
) -> Result<Migrated, KeepFault>
    ensures { IfOk result (λ m. IsVersions m) }
{
    // To join a path allocates, and fails for nothing else.
    let Ok(path) = format!(in rt.alloc(); "{folder}/{name}") else {
        return Err(KeepFault::Memory);
    };
    SqliteKeep::<H, FileStore<FileFrom<Unknown>>>::migrate(rt, path.as_str(), Unknown, progress)
}

/// Tells by this line that a file was of version 1, where it was.
fn tell_migrated<W: Write>(out: &mut W, line: &str, migrated: Migrated) -> Result<(), RunFault>
    ensures ok { OnOk result (Appends (W.contents out.old) (W.contents out.new) (line_of line.now migrated)) }
    ensures err { IfErr result (λ fault. (fault ≡ Device)
        × AppendsPart (W.contents out.old) (W.contents out.new) (line_of line.now migrated)) }
{
    if migrated.from != 1 {
        return Ok(());
    }
    // The file is migrated by now. If this line can't be written, a second run won't print it either.
    match write_octets(out, line.as_bytes()) {
        Ok(()) => Ok(()),
        Err(_) => Err(RunFault::Device),
    }
}

/// Takes over those of the files `purchasing.db`, `warehouse.db` and `billing.db` of a folder that are of version 1, each in
/// a transaction of its own, and tells each on `out` by a line, as `migrated purchasing 1 2`. Files of version 2 stay as
/// they are; where there is no file, one without tables is made. `progress` is told of each row.
///
/// # Errors
/// `Unopened` where a file can't be taken over: it's as it was, and those behind it too. `Device` where `out` failed.
pub fn migrate_files<W: Write, P: Progress>(
    rt: &HostRuntime,
    folder: &str,
    out: &mut W,
    progress: &mut P,
) -> Result<(), RunFault>
    ensures { IsTakenOverWith (W.contents out.old) (W.contents out.new) result }
{
    // A transaction for each file, as they are three databases. After a fault the folder may have both versions, and a
    // second run migrates the rest.
    match migrate_file::<Orders, P>(rt, folder, "purchasing.db", progress) {
        Ok(migrated) => tell_migrated(out, "migrated purchasing 1 2\n", migrated)?,
        Err(fault) => return Err(RunFault::Unopened(StoresFault::Purchasing(fault))),
    }
    match migrate_file::<Stocks, P>(rt, folder, "warehouse.db", progress) {
        Ok(migrated) => tell_migrated(out, "migrated warehouse 1 2\n", migrated)?,
        Err(fault) => return Err(RunFault::Unopened(StoresFault::Warehouse(fault))),
    }
    match migrate_file::<Accounts, P>(rt, folder, "billing.db", progress) {
        Ok(migrated) => tell_migrated(out, "migrated billing 1 2\n", migrated),
        Err(fault) => Err(RunFault::Unopened(StoresFault::Billing(fault))),
    }
}

/// Reads a schedule from `input`, and then takes over the files of a folder, as [`migrate_files`] does. No file is touched
/// before the whole schedule is read, so one with a faulty line leaves all three as they are.
///
/// # Errors
/// As [`read_events`] reports: nothing was written to `out`. As [`migrate_files`] reports, once the schedule was read.
pub fn read_and_migrate<R: Read, W: Write, P: Progress>(
    rt: &HostRuntime,
    folder: &str,
    input: &mut R,
    out: &mut W,
    progress: &mut P,
) -> Result<Vec<Event>, RunFault>
    ensures { IsReadAndTakenOver (R.remaining input.old) (W.contents out.old) (W.contents out.new) result }
{
    let events = match read_events(rt.alloc(), input) {
        Ok(events) => events,
        Err(fault) => return Err(fault),
    };
    match migrate_files(rt, folder, out, progress) {
        Ok(()) => Ok(events),
        Err(fault) => Err(fault),
    }
}
