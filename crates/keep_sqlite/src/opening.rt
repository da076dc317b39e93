//! Tables that are found in a connection.

ghost use Rattle.std.specs.Prelude.{◌≡◌, ◌≤◌, false, min, OnOk, IfOk, IfSome, IsTrue, filter, length, pos};
ghost use Rattle.std.specs.List.{AllByRecursion};
ghost use Rattle.sqlite.specs.Held.{state};
ghost use Rattle.sqlite.specs.State.{HasCleanDisk};
ghost use Rattle.sqlite_trees.specs.Tree.{Trees};
ghost use Rattle.sqlite_trees.specs.View.{doubt};
ghost use Rattle.sqlite_value.specs.Order.{column};
ghost use Rattle.sqlite.specs.declared.types.Value.TheVariants.{Int, Text};
ghost use Rattle.sql_rows.specs.Schema.{IsService, schema_of, about_tree, name_of};
ghost use Rattle.sql_rows.specs.Tables.{IsRising, Stays, is_within};
ghost use Rattle.keep_sqlite.specs.Found.{opening_fault, TellsOf, TellsOfService};
ghost use Rattle.keep_sqlite.specs.Ready.{AreNumbered, IsReady};

use crate::filed::Filed;
use crate::journal::bound_count;
use crate::reads::mark_in;
use keep::KeepFault;
use sql_rows::{Service, count_rows, count_rows_within, has_tables, read_about};
use sqlite::{Alter, Connection, Error, ErrorCode, Row};
use std::alloc::Global;

/// The fault that an error at an opening is told as: a file that is no database is a wrong one.
pub fn opening_fault(error: &Error) -> KeepFault
    ensures { result ≡ opening_fault error.now }
{
    match error {
        Error::SqliteFailure(ErrorCode::OutOfMemory) => KeepFault::Memory,
        // The kit says this of a file with a dangling reference too.
        Error::SqliteFailure(ErrorCode::NotADatabase) => KeepFault::WrongFile,
        // So also where a row is one that no call here writes: by its tables the file is ours, so it is damaged and not
        // another's.
        _ => KeepFault::Failed,
    }
}

/// Whether a row tells this version of this service.
pub fn tells_version(row: &Row, version: u64, service: Service) -> Result<bool, Error>
    ensures { IfOk result (λ tells. IsTrue tells
        → (column row.now 0 ≡ Int (pos version)) × (column row.now 1 ≡ Text (name_of service))) }
{
    let told: u64 = row.get(0)?;
    let name: String = row.get(1)?;
    Ok(told == version && name.as_str() == service.name())
}

/// Whether the table `about` tells version 2 of this service.
fn is_of<S: Alter>(conn: &mut Connection<S>, service: Service) -> Result<bool, Error>
    requires schema { HasCleanDisk (state S.Store conn.old)
        → (state S.Store conn.old).now.schema ≡ schema_of service }
    requires settled { HasCleanDisk (state S.Store conn.old)
        → (state S.Store conn.old).now ≡ (state S.Store conn.old).committed }
    requires autocommit { conn.old.in_transaction ≡ false }
    ensures tells { HasCleanDisk (state S.Store conn.new) → IfOk result (λ is. IsTrue is
        → TellsOf service ((state S.Store conn.old).now.trees (about_tree service))) }
    ensures autocommit { conn.new.in_transaction ≡ false }
    ensures open { HasCleanDisk (state S.Store conn.new) → OnOk result (IsTrue (state S.Store conn.new).is_open) }
    ensures stays { HasCleanDisk (state S.Store conn.new) → Stays (state S.Store conn.old) (state S.Store conn.new) }
    ensures crash { HasCleanDisk (state S.Store conn.new) → (db : Trees) → (state S.Store conn.new).may_leave db
        → (state S.Store conn.old).may_leave db }
    ensures clean { doubt (state S.Store conn.old).is_clean ≤ doubt (state S.Store conn.new).is_clean }
{
    let rows = read_about(conn, service)?;
    // One row is what was written when the tables were made.
    let [row] = rows.as_slice() else {
        return Ok(false);
    };
    tells_version(row, 2, service)
}

/// How many rows the journal has; of 2^63 - 1 and more no less than that.
fn count_all<S: Alter>(conn: &mut Connection<S>) -> Result<u64, Error>
    requires schema { HasCleanDisk (state S.Store conn.old) → IsService (state S.Store conn.old).now.schema }
    requires settled { HasCleanDisk (state S.Store conn.old)
        → (state S.Store conn.old).now ≡ (state S.Store conn.old).committed }
    requires autocommit { conn.old.in_transaction ≡ false }
    ensures count { HasCleanDisk (state S.Store conn.new) → IfOk result (λ n.
        n ≡ min (length ((state S.Store conn.old).now.trees 0)) 9223372036854775807) }
    ensures autocommit { conn.new.in_transaction ≡ false }
    ensures open { HasCleanDisk (state S.Store conn.new) → OnOk result (IsTrue (state S.Store conn.new).is_open) }
    ensures stays { HasCleanDisk (state S.Store conn.new) → Stays (state S.Store conn.old) (state S.Store conn.new) }
    ensures crash { HasCleanDisk (state S.Store conn.new) → (db : Trees) → (state S.Store conn.new).may_leave db
        → (state S.Store conn.old).may_leave db }
    ensures clean { doubt (state S.Store conn.old).is_clean ≤ doubt (state S.Store conn.new).is_clean }
{
    let rows = count_rows(conn)?;
    mark_in(rows.as_slice(), 0)
}

/// How many rows the journal has at the positions from 1 to this; of 2^63 - 1 and more no less than that.
fn count_upto<S: Alter>(conn: &mut Connection<S>, last: i64) -> Result<u64, Error>
    requires schema { HasCleanDisk (state S.Store conn.old) → IsService (state S.Store conn.old).now.schema }
    requires settled { HasCleanDisk (state S.Store conn.old)
        → (state S.Store conn.old).now ≡ (state S.Store conn.old).committed }
    requires autocommit { conn.old.in_transaction ≡ false }
    ensures count { HasCleanDisk (state S.Store conn.new) → IfOk result (λ n.
        n ≡ min (length (filter (is_within (pos 1) last) ((state S.Store conn.old).now.trees 0))) 9223372036854775807) }
    ensures autocommit { conn.new.in_transaction ≡ false }
    ensures open { HasCleanDisk (state S.Store conn.new) → OnOk result (IsTrue (state S.Store conn.new).is_open) }
    ensures stays { HasCleanDisk (state S.Store conn.new) → Stays (state S.Store conn.old) (state S.Store conn.new) }
    ensures crash { HasCleanDisk (state S.Store conn.new) → (db : Trees) → (state S.Store conn.new).may_leave db
        → (state S.Store conn.old).may_leave db }
    ensures clean { doubt (state S.Store conn.old).is_clean ≤ doubt (state S.Store conn.new).is_clean }
{
    let rows = count_rows_within(conn, 1, last)?;
    mark_in(rows.as_slice(), 0)
}

/// How many rows the journal has. Where their positions aren't 1, 2, .. it is refused.
fn count_journal<S: Alter>(conn: &mut Connection<S>) -> Result<u64, Error>
    requires schema { HasCleanDisk (state S.Store conn.old) → IsService (state S.Store conn.old).now.schema }
    requires settled { HasCleanDisk (state S.Store conn.old)
        → (state S.Store conn.old).now ≡ (state S.Store conn.old).committed }
    requires rising { HasCleanDisk (state S.Store conn.old) → IsRising ((state S.Store conn.old).now.trees 0) }
    requires autocommit { conn.old.in_transaction ≡ false }
    ensures counted { HasCleanDisk (state S.Store conn.new) → IfOk result (λ n.
        (n ≡ length ((state S.Store conn.old).now.trees 0)) × AreNumbered 1 ((state S.Store conn.old).now.trees 0)) }
    ensures autocommit { conn.new.in_transaction ≡ false }
    ensures open { HasCleanDisk (state S.Store conn.new) → OnOk result (IsTrue (state S.Store conn.new).is_open) }
    ensures stays { HasCleanDisk (state S.Store conn.new) → Stays (state S.Store conn.old) (state S.Store conn.new) }
    ensures crash { HasCleanDisk (state S.Store conn.new) → (db : Trees) → (state S.Store conn.new).may_leave db
        → (state S.Store conn.old).may_leave db }
    ensures clean { doubt (state S.Store conn.old).is_clean ≤ doubt (state S.Store conn.new).is_clean }
{
    // Tested, since two sources have to agree: SQLite numbers a new row by the last position, and an endpoint answers
    // with the count plus one.
    let count = count_all(conn)?;
    let last = bound_count(count)?;
    // A count as great as this tells no more than that there are so many.
    if last == i64::MAX {
        return Err(Error::InvalidQuery);
    }
    // As many rows as positions from 1 to the count: none is missing, and none is elsewhere.
    if count_upto(conn, last)? != count {
        return Err(Error::InvalidQuery);
    }
    Ok(count)
}

/// The number of rows of the journal, where the tables are those of the service, in version 2; none, where they are
/// others.
pub fn examine<H: Filed, S: Alter>(
    alloc: Global,
    conn: &mut Connection<S>,
) -> Result<Option<u64>, Error>
    requires settled { HasCleanDisk (state S.Store conn.old)
        → (state S.Store conn.old).now ≡ (state S.Store conn.old).committed }
    requires rising { HasCleanDisk (state S.Store conn.old)
        → AllByRecursion (λ t. IsRising ((state S.Store conn.old).now.trees t.tree))
        (state S.Store conn.old).now.schema.tables }
    requires autocommit { conn.old.in_transaction ≡ false }
    ensures ready { HasCleanDisk (state S.Store conn.new)
        → IfOk result (λ found. IfSome found (λ n. IsReady H.filing.schema n (state S.Store conn.new))) }
    ensures tells { HasCleanDisk (state S.Store conn.new) → IfOk result (λ found. IfSome found (λ _.
        TellsOfService H.filing (state S.Store conn.new).now.trees)) }
    ensures autocommit { conn.new.in_transaction ≡ false }
    ensures stays { HasCleanDisk (state S.Store conn.new) → Stays (state S.Store conn.old) (state S.Store conn.new) }
    ensures crash { HasCleanDisk (state S.Store conn.new) → (db : Trees) → (state S.Store conn.new).may_leave db
        → (state S.Store conn.old).may_leave db }
    ensures clean { doubt (state S.Store conn.old).is_clean ≤ doubt (state S.Store conn.new).is_clean }
{
    let service = H::service();
    // The schema first: without the table `about` the query below would fail, and a wrong file would be reported as a
    // broken one.
    if !has_tables(alloc, &*conn, service)? {
        return Ok(None);
    }
    // The tables alone don't say the version: those of a warehouse and of billing are the same in both.
    if !is_of(conn, service)? {
        return Ok(None);
    }
    // By two counts: an opening reads every row anyway, 100 to 130 us of CPU time per order.
    let count = count_journal(conn)?;
    Ok(Some(count))
}
