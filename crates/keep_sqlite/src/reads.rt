//! What is read of a file. A `_count`, how many rows the journal has, stands for the contracts alone: nothing reads it.

ghost use Rattle.std.specs.Prelude.{◌≡◌, ◌≤◌, ◌⊎◌, false, IsOkAnd, OnOk, IfOk, IfErr, IsTrue, Err};
ghost use Rattle.sqlite_value.specs.Order.{column};
ghost use Rattle.sqlite_trees.specs.Tree.{Trees};
ghost use Rattle.sqlite_trees.specs.View.{doubt};
ghost use Rattle.sqlite.specs.Held.{state};
ghost use Rattle.sqlite.specs.State.{HasCleanDisk};
ghost use Rattle.sql_rows.specs.Tables.{Stays};
ghost use Rattle.keep_sqlite.specs.Tables.{tables_of, message_in};
ghost use Rattle.keep.specs.declared.fault.KeepFault.TheVariants.{Failed, Memory};
ghost use Rattle.keep_sqlite.specs.Look.{look_end, IsShut};
ghost use Rattle.keep_sqlite.specs.Ready.{IsReady, IsFirstMark, IsFirstMessage};

use crate::filed::Filed;
use crate::writes::bound_number;
use base::{Number, Pair};
use envelope::Message;
use keep::KeepFault;
use sql_bodies::read_message;
use sql_rows::{read_handled, read_held, read_marks};
use sqlite::{Alter, Connection, Error, ErrorCode, Row, Statement};
use std::alloc::Global;

// Where an answer of `read_marks` has the number of the last letter that was sent, and of the last that was settled.
const SENT: usize = 0;

const SETTLED: usize = 1;

/// What a look at the connection tells that ended so.
fn told_by(done: Result<Statement, Error>) -> Result<(), KeepFault>
    ensures told { result ≡ look_end done }
    ensures named { IfErr result (λ fault. (fault ≡ Memory) ⊎ (fault ≡ Failed)) }
{
    match done {
        Err(Error::SqliteFailure(ErrorCode::OutOfMemory)) => Err(KeepFault::Memory),
        Err(
            Error::SqliteFailure(
                ErrorCode::Closed
                | ErrorCode::SystemIoFailure
                | ErrorCode::DatabaseCorrupt
                | ErrorCode::DiskFull,
            ),
        ) => Err(KeepFault::Failed),
        // Refused for its text: so the connection has read it, and is open.
        _ => Ok(()),
    }
}

/// Looks whether the connection is still open. The text is no statement: where the connection is open it's refused at
/// its first word, which allocates nothing.
///
/// # Errors
/// `Failed` where the connection was shut, or the disk failed. `Memory` if an allocation fails, which says neither.
pub fn look<S: Alter>(conn: &mut Connection<S>) -> Result<(), KeepFault>
    requires autocommit { conn.old.in_transaction ≡ false }
    requires settled { HasCleanDisk (state S.Store conn.old) → IsTrue (state S.Store conn.old).is_open
        → (state S.Store conn.old).now ≡ (state S.Store conn.old).committed }
    ensures autocommit { conn.new.in_transaction ≡ false }
    ensures is_open { HasCleanDisk (state S.Store conn.new) → OnOk result (IsTrue (state S.Store conn.new).is_open) }
    ensures shut { HasCleanDisk (state S.Store conn.new) → result ≡ Err Failed
        → IsShut (state S.Store conn.old) (state S.Store conn.new) }
    ensures named { IfErr result (λ fault. (fault ≡ Memory) ⊎ (fault ≡ Failed)) }
    ensures stays { HasCleanDisk (state S.Store conn.new) → Stays (state S.Store conn.old) (state S.Store conn.new) }
    ensures crash { HasCleanDisk (state S.Store conn.new) → (db : Trees) → (state S.Store conn.new).may_leave db
        → (state S.Store conn.old).may_leave db }
    ensures clean { doubt (state S.Store conn.old).is_clean ≤ doubt (state S.Store conn.new).is_clean }
{
    // A query would allocate, and a reopening whose query found no memory would be reported as a failure.
    told_by(conn.prepare("look"))
}

/// The mark in a column of an answer's first row, or 0.
pub fn mark_in(rows: &[Row], at: usize) -> Result<u64, Error>
    ensures { IfOk result (IsFirstMark at rows.now) }
{
    match rows.first() {
        // No row is a mark of 0: a pair has none before its first letter.
        None => Ok(0),
        Some(row) => row.get(at),
    }
}

/// The mark in a column of an answer's first row, or 0, where there is an answer. It takes the answer as it comes, so that
/// no caller owes its contract at a `?`.
fn mark_of(answer: Result<Vec<Row>, Error>, at: usize) -> Result<u64, Error>
    ensures { IfOk result (λ n. IsOkAnd answer (λ rows. IsFirstMark at rows.items n)) }
{
    match answer {
        Ok(rows) => mark_in(rows.as_slice(), at),
        Err(error) => Err(error),
    }
}

/// The handled mark of a pair.
pub fn find_handled<H: Filed, S: Alter>(
    conn: &mut Connection<S>,
    pair: &Pair,
    _count: u64,
) -> Result<u64, Error>
    requires autocommit { conn.old.in_transaction ≡ false }
    requires ready { HasCleanDisk (state S.Store conn.old)
        → IsReady H.filing.schema _count (state S.Store conn.old) }
    ensures mark { HasCleanDisk (state S.Store conn.new)
        → IfOk result (λ n. n ≡ (tables_of H.filing (state S.Store conn.old).now.trees).handled pair.now) }
    ensures autocommit { conn.new.in_transaction ≡ false }
    ensures open { HasCleanDisk (state S.Store conn.new) → OnOk result (IsTrue (state S.Store conn.new).is_open) }
    ensures stays { HasCleanDisk (state S.Store conn.new) → Stays (state S.Store conn.old) (state S.Store conn.new) }
    ensures crash { HasCleanDisk (state S.Store conn.new) → (db : Trees) → (state S.Store conn.new).may_leave db
        → (state S.Store conn.old).may_leave db }
    ensures clean { doubt (state S.Store conn.old).is_clean ≤ doubt (state S.Store conn.new).is_clean }
{
    // Called for what its contract says: the rows are as the schema demands.
    let _ = conn.schema();
    let rows = read_handled(conn, pair.from.text(), pair.to.text());
    mark_of(rows, 0)
}

/// The number of the last letter that a pair sent.
pub fn find_sent<H: Filed, S: Alter>(
    conn: &mut Connection<S>,
    pair: &Pair,
    _count: u64,
) -> Result<u64, Error>
    requires autocommit { conn.old.in_transaction ≡ false }
    requires ready { HasCleanDisk (state S.Store conn.old)
        → IsReady H.filing.schema _count (state S.Store conn.old) }
    ensures mark { HasCleanDisk (state S.Store conn.new)
        → IfOk result (λ n. n ≡ (tables_of H.filing (state S.Store conn.old).now.trees).sent pair.now) }
    ensures autocommit { conn.new.in_transaction ≡ false }
    ensures open { HasCleanDisk (state S.Store conn.new) → OnOk result (IsTrue (state S.Store conn.new).is_open) }
    ensures stays { HasCleanDisk (state S.Store conn.new) → Stays (state S.Store conn.old) (state S.Store conn.new) }
    ensures crash { HasCleanDisk (state S.Store conn.new) → (db : Trees) → (state S.Store conn.new).may_leave db
        → (state S.Store conn.old).may_leave db }
    ensures clean { doubt (state S.Store conn.old).is_clean ≤ doubt (state S.Store conn.new).is_clean }
{
    // Called for what its contract says: the rows are as the schema demands.
    let _ = conn.schema();
    let rows = read_marks(conn, pair.from.text(), pair.to.text());
    mark_of(rows, SENT)
}

/// The settled mark of a pair.
pub fn find_settled<H: Filed, S: Alter>(
    conn: &mut Connection<S>,
    pair: &Pair,
    _count: u64,
) -> Result<u64, Error>
    requires autocommit { conn.old.in_transaction ≡ false }
    requires ready { HasCleanDisk (state S.Store conn.old)
        → IsReady H.filing.schema _count (state S.Store conn.old) }
    ensures mark { HasCleanDisk (state S.Store conn.new)
        → IfOk result (λ n. n ≡ (tables_of H.filing (state S.Store conn.old).now.trees).settled pair.now) }
    ensures autocommit { conn.new.in_transaction ≡ false }
    ensures open { HasCleanDisk (state S.Store conn.new) → OnOk result (IsTrue (state S.Store conn.new).is_open) }
    ensures stays { HasCleanDisk (state S.Store conn.new) → Stays (state S.Store conn.old) (state S.Store conn.new) }
    ensures crash { HasCleanDisk (state S.Store conn.new) → (db : Trees) → (state S.Store conn.new).may_leave db
        → (state S.Store conn.old).may_leave db }
    ensures clean { doubt (state S.Store conn.old).is_clean ≤ doubt (state S.Store conn.new).is_clean }
{
    // Called for what its contract says: the rows are as the schema demands.
    let _ = conn.schema();
    let rows = read_marks(conn, pair.from.text(), pair.to.text());
    mark_of(rows, SETTLED)
}

/// The message whose body a value is.
pub fn message_at(alloc: Global, row: &Row, at: usize) -> Result<Message, Error>
    ensures { IfOk result (λ message. message ≡ message_in (column row.now at)) }
{
    let body: String = row.get(at)?;
    match read_message(alloc, body.as_str())? {
        Some(message) => Ok(message),
        // Reported and not skipped: a letter that is left out of an answer would be lost silently.
        None => Err(Error::InvalidQuery),
    }
}

/// The message whose body an answer's first value is, if there is one.
fn message_in(alloc: Global, rows: &[Row]) -> Result<Option<Message>, Error>
    ensures { IfOk result (IsFirstMessage rows.now) }
{
    match rows.first() {
        None => Ok(None),
        Some(row) => Ok(Some(message_at(alloc, row, 0)?)),
    }
}

/// The held message of a pair and number.
pub fn find_held<H: Filed, S: Alter>(
    alloc: Global,
    conn: &mut Connection<S>,
    pair: &Pair,
    number: Number,
    _count: u64,
) -> Result<Option<Message>, Error>
    requires autocommit { conn.old.in_transaction ≡ false }
    requires ready { HasCleanDisk (state S.Store conn.old)
        → IsReady H.filing.schema _count (state S.Store conn.old) }
    ensures message { HasCleanDisk (state S.Store conn.new)
        → IfOk result (λ m. m ≡ (tables_of H.filing (state S.Store conn.old).now.trees).held pair.now number) }
    ensures autocommit { conn.new.in_transaction ≡ false }
    ensures open { HasCleanDisk (state S.Store conn.new) → OnOk result (IsTrue (state S.Store conn.new).is_open) }
    ensures stays { HasCleanDisk (state S.Store conn.new) → Stays (state S.Store conn.old) (state S.Store conn.new) }
    ensures crash { HasCleanDisk (state S.Store conn.new) → (db : Trees) → (state S.Store conn.new).may_leave db
        → (state S.Store conn.old).may_leave db }
    ensures clean { doubt (state S.Store conn.old).is_clean ≤ doubt (state S.Store conn.new).is_clean }
{
    // Called for what its contract says: the rows are as the schema demands.
    let _ = conn.schema();
    let rows = read_held(conn, pair.from.text(), pair.to.text(), bound_number(number))?;
    message_in(alloc, rows.as_slice())
}
