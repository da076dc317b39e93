//! Files of version 1, taken over.

ghost use Rattle.std.specs.Prelude.{◌≡◌, ◌≤◌, ◌⊎◌, false, Ok, Some, IfOk, IfSome, OnErr, OnOk, IsTrue};
ghost use Rattle.std.specs.List.{AllByRecursion};
ghost use Rattle.sqlite.specs.Held.{state};
ghost use Rattle.sqlite.specs.State.{HasCleanDisk};
ghost use Rattle.sqlite_trees.specs.Tree.{Trees};
ghost use Rattle.sqlite_trees.specs.View.{doubt};
ghost use Rattle.sql_rows.specs.Schema.{no_tables};
ghost use Rattle.sql_rows.specs.Tables.{IsRising, Stays};
ghost use Rattle.keep_sqlite.specs.Migration.{as_it_is, AreRenewed, IsFirstFile, IsMigrated, IsRefused, IsVersions};

use crate::filed::Filed;
use crate::kept::SqliteKeep;
use crate::opening::{examine, opening_fault, tells_version};
use crate::progress::Progress;
use keep::KeepFault;
use sql_rows::{Service, has_first_tables, has_no_tables, read_first_about, with_sorted_rows};
use sqlite::{Alter, Connection, Error, FileFrom, FileStore, Row, Start};
use std::alloc::Global;

/// Which version a file had, and which it has.
#[derive(Debug, Clone, Copy, PartialEq, Eq, Drop)]
pub struct Migrated {
    pub from: u64,
    pub to: u64,
}

/// Whether the tables are those of a service in version 1.
fn is_first<S: Alter>(
    alloc: Global,
    conn: &mut Connection<S>,
    service: Service,
) -> Result<bool, Error>
    requires open { HasCleanDisk (state S.Store conn.old) → IsTrue (state S.Store conn.old).is_open }
    requires settled { HasCleanDisk (state S.Store conn.old)
        → (state S.Store conn.old).now ≡ (state S.Store conn.old).committed }
    requires rising { HasCleanDisk (state S.Store conn.old)
        → AllByRecursion (λ t. IsRising ((state S.Store conn.old).now.trees t.tree))
        (state S.Store conn.old).now.schema.tables }
    requires autocommit { conn.old.in_transaction ≡ false }
    ensures first { HasCleanDisk (state S.Store conn.new)
        → IfOk result (λ is. IsTrue is → IsFirstFile service (state S.Store conn.new)) }
    ensures autocommit { conn.new.in_transaction ≡ false }
    ensures open { HasCleanDisk (state S.Store conn.new) → OnOk result (IsTrue (state S.Store conn.new).is_open) }
    ensures stays { HasCleanDisk (state S.Store conn.new) → Stays (state S.Store conn.old) (state S.Store conn.new) }
    ensures crash { HasCleanDisk (state S.Store conn.new) → (db : Trees) → (state S.Store conn.new).may_leave db
        → (state S.Store conn.old).may_leave db }
    ensures clean { doubt (state S.Store conn.old).is_clean ≤ doubt (state S.Store conn.new).is_clean }
{
    // The tables first: a query of an `about` that isn't there would fail, and say nothing of the version.
    if !has_first_tables(alloc, &*conn, service)? {
        return Ok(false);
    }
    let rows = read_first_about(conn, service)?;
    let [row] = rows.as_slice() else {
        return Ok(false);
    };
    tells_version(row, 1, service)
}

/// Writes the rows of version 1 as those of today, in one transaction.
fn renew_all<H: Filed, S: Alter, P: Progress>(
    alloc: Global,
    conn: &mut Connection<S>,
    progress: &mut P,
) -> Result<(), Error>
    requires autocommit { conn.old.in_transaction ≡ false }
    requires first { HasCleanDisk (state S.Store conn.old)
        → IsFirstFile H.filing.is_service.service (state S.Store conn.old) }
    ensures autocommit { conn.new.in_transaction ≡ false }
    ensures ok { HasCleanDisk (state S.Store conn.new) → OnOk result
        (AreRenewed H.first H.filing (state S.Store conn.old).committed.trees (state S.Store conn.new).committed.trees
        × ((state S.Store conn.new).now ≡ (state S.Store conn.new).committed)) }
    ensures err { HasCleanDisk (state S.Store conn.new) → IsTrue (state S.Store conn.new).is_open
        → OnErr result ((state S.Store conn.new).committed ≡ (state S.Store conn.old).committed) }
    ensures crash { (db : Trees) → HasCleanDisk (state S.Store conn.new) → (state S.Store conn.new).may_leave db
        → (state S.Store conn.old).may_leave db
        ⊎ AreRenewed H.first H.filing (state S.Store conn.old).committed.trees db }
    ensures clean { doubt (state S.Store conn.old).is_clean ≤ doubt (state S.Store conn.new).is_clean }
{
    // Called for what its contract says: the rows are as the schema demands.
    let _ = conn.schema();
    // One transaction: whenever it's stopped, the file is of one version or of the other.
    let mut tx = conn.transaction();
    match H::renew(alloc, &mut tx, progress) {
        Ok(()) => tx.commit(),
        Err(error) => {
            tx.rollback();
            Err(error)
        }
    }
}

/// Takes the tables in a connection over, as `migrate_connection`; none, where the tables are others.
#[tactic(auto, using(crate::proofs::Renewals::is_of_today, crate::proofs::Renewals::is_without_tables))]
fn migrate_tables<H: Filed, S: Alter, P: Progress>(
    alloc: Global,
    conn: &mut Connection<S>,
    progress: &mut P,
) -> Result<Option<Migrated>, Error>
    requires open { HasCleanDisk (state S.Store conn.old) → IsTrue (state S.Store conn.old).is_open }
    requires settled { HasCleanDisk (state S.Store conn.old)
        → (state S.Store conn.old).now ≡ (state S.Store conn.old).committed }
    requires rising { HasCleanDisk (state S.Store conn.old)
        → AllByRecursion (λ t. IsRising ((state S.Store conn.old).now.trees t.tree))
        (state S.Store conn.old).now.schema.tables }
    requires autocommit { conn.old.in_transaction ≡ false }
    ensures autocommit { conn.new.in_transaction ≡ false }
    ensures migrated { HasCleanDisk (state S.Store conn.new) → IfOk result (λ found. IfSome found (λ m.
        IsMigrated H.first H.filing m (state S.Store conn.old) (state S.Store conn.new))) }
    ensures versions { IfOk result (λ found. IfSome found (λ m. IsVersions m)) }
    ensures empty { (state S.Store conn.old).now.schema ≡ no_tables → result ≡ Ok (Some as_it_is) }
    ensures refused { HasCleanDisk (state S.Store conn.new) → IsTrue (state S.Store conn.new).is_open
        → IsRefused result (state S.Store conn.old) (state S.Store conn.new) }
    ensures crash { (db : Trees) → HasCleanDisk (state S.Store conn.new) → (state S.Store conn.new).may_leave db
        → (state S.Store conn.old).may_leave db
        ⊎ AreRenewed H.first H.filing (state S.Store conn.old).committed.trees db }
    ensures clean { doubt (state S.Store conn.old).is_clean ≤ doubt (state S.Store conn.new).is_clean }
{
    let today = Migrated { from: 2, to: 2 };
    // Left empty: whoever opens the file makes today's tables in it.
    if has_no_tables(&*conn) {
        return Ok(Some(today));
    }
    // Before `examine`, to which a file of version 1 is a wrong one.
    if is_first(alloc, conn, H::service())? {
        renew_all::<H, S, P>(alloc, conn, progress)?;
        return Ok(Some(Migrated { from: 1, to: 2 }));
    }
    match examine::<H, S>(alloc, conn)? {
        // Examined, though nothing is written: what an opening would refuse isn't reported as up to date.
        Some(_count) => Ok(Some(today)),
        None => Ok(None),
    }
}

impl<H: Filed, S: Alter> SqliteKeep<H, S> {
    /// Takes a file of version 1 over, in one transaction: its tables are then those of version 2, and hold the same. One of
    /// version 2, and one without tables, stays as it is. `progress` is called for each row. A connection whose rows are known
    /// to be in order is what [`with_sorted_rows`] gives.
    ///
    /// # Errors
    /// `WrongFile` where the tables are others, as those of another service. `Failed` where a row isn't one that version 1 wrote,
    /// where a transaction is open, and where the store failed. `Memory` if an allocation fails. What was committed stays.
    pub fn migrate_connection<P: Progress>(
        alloc: Global,
        conn: &mut Connection<S>,
        progress: &mut P,
    ) -> Result<Migrated, KeepFault>
        requires open { HasCleanDisk (state S.Store conn.old) → IsTrue (state S.Store conn.old).is_open }
        requires settled { HasCleanDisk (state S.Store conn.old)
            → (state S.Store conn.old).now ≡ (state S.Store conn.old).committed }
        requires rising { HasCleanDisk (state S.Store conn.old)
            → AllByRecursion (λ t. IsRising ((state S.Store conn.old).now.trees t.tree))
            (state S.Store conn.old).now.schema.tables }
        requires autocommit { conn.old.in_transaction ≡ false }
        ensures autocommit { conn.new.in_transaction ≡ false }
        ensures migrated { HasCleanDisk (state S.Store conn.new) → IfOk result (λ m.
            IsMigrated H.first H.filing m (state S.Store conn.old) (state S.Store conn.new)) }
        ensures versions { IfOk result (λ m. IsVersions m) }
        ensures empty { (state S.Store conn.old).now.schema ≡ no_tables → result ≡ Ok as_it_is }
        ensures refused { HasCleanDisk (state S.Store conn.new) → IsTrue (state S.Store conn.new).is_open
            → OnErr result ((state S.Store conn.new).committed ≡ (state S.Store conn.old).committed) }
        ensures crash { (db : Trees) → HasCleanDisk (state S.Store conn.new) → (state S.Store conn.new).may_leave db
            → (state S.Store conn.old).may_leave db
            ⊎ AreRenewed H.first H.filing (state S.Store conn.old).committed.trees db }
        ensures clean { doubt (state S.Store conn.old).is_clean ≤ doubt (state S.Store conn.new).is_clean }
    {
        let done = migrate_tables::<H, S, P>(alloc, conn, progress);
        match done {
            Ok(Some(migrated)) => Ok(migrated),
            Ok(None) => Err(KeepFault::WrongFile),
            Err(error) => Err(opening_fault(&error)),
        }
    }
}

impl<H: Filed, S: Alter + Drop> SqliteKeep<H, S> {
    /// Takes over what a connection holds, where it was opened. The store is a parameter, since the arms of a `match` over
    /// files cost a proof of how all their parts are dropped.
    fn migrate_opened<L: Drop, P: Progress>(
        alloc: Global,
        progress: &mut P,
        opened: Result<Connection<S>, (Error, L)>,
    ) -> Result<Migrated, KeepFault>
        ensures { IfOk result (λ m. IsVersions m) }
    {
        let opened = match opened {
            Ok(conn) => conn,
            Err((error, _left)) => return Err(opening_fault(&error)),
        };
        match with_sorted_rows(alloc, opened) {
            Ok(mut conn) => SqliteKeep::<H, S>::migrate_connection(alloc, &mut conn, progress),
            Err((error, _store)) => Err(opening_fault(&error)),
        }
    }
}

impl<H: Filed, D: Start> SqliteKeep<H, FileStore<FileFrom<D>>> {
    /// Takes the file at a path over, with its log beside it, as [`migrate_connection`](SqliteKeep::migrate_connection)
    /// does. `start` stands for what the two hold. Where there is no file, one without tables is made.
    ///
    /// # Errors
    /// As there, and `WrongFile` too where the file is no database, `Failed` where it can't be opened.
    pub fn migrate<P: Progress>(
        rt: &HostRuntime,
        path: &str,
        start: D,
        progress: &mut P,
    ) -> Result<Migrated, KeepFault>
        ensures { IfOk result (λ m. IsVersions m) }
    {
        SqliteKeep::<H, FileStore<FileFrom<D>>>::migrate_opened(
            rt.alloc(),
            progress,
            Connection::open_from(rt, path, false, start),
        )
    }
}
