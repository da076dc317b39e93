//! What the entities processed, in order.

ghost use Rattle.std.specs.Prelude.{◌≡◌, ◌≤◌, false, OnOk, IfOk, IsTrue, Some, filter, length, [], ◌∷◌};
ghost use Rattle.sqlite.specs.Held.{state};
ghost use Rattle.sqlite.specs.State.{HasCleanDisk, IsUnchanged, Survives, KeepsCommit};
ghost use Rattle.sqlite.specs.declared.types.Value.TheVariants.{Null, Int, Text};
ghost use Rattle.sqlite_sql.specs.Aggregate.{count};
ghost use Rattle.sqlite_sql.specs.Query.{as_count};
ghost use Rattle.sqlite_trees.specs.Tree.{Trees};
ghost use Rattle.sqlite_trees.specs.View.{doubt};
ghost use Rattle.sqlite_value.specs.Order.{column};
ghost use Rattle.sql_rows.specs.Schema.{IsService};
ghost use Rattle.sql_rows.specs.Tables.{IsRising, Adds, Edits, Stays, AreInOrder, is_from, is_within, by_position};
ghost use Rattle.sql_rows.specs.Tables.{by_position_down, shown_entry};

use crate::statements::{int, read, read_inside, text, write};
use sqlite::{Alter, Connection, Error, Row, Transaction};

/// Adds a command that a seat gave to an entity.
pub fn add_command<S: Alter>(
    tx: &mut Transaction<'_, S>,
    entity: &str,
    seat: i64,
    body: &str,
) -> Result<usize, Error>
    requires schema { HasCleanDisk (state S.Store tx.old.conn.now)
        → IsService (state S.Store tx.old.conn.now).now.schema }
    requires rising { HasCleanDisk (state S.Store tx.old.conn.now)
        → IsRising ((state S.Store tx.old.conn.now).now.trees 0) }
    requires inside { HasCleanDisk (state S.Store tx.old.conn.now)
        → IsTrue (state S.Store tx.old.conn.now).in_transaction }
    ensures same_reference { tx.new.conn.ghost_name ≡ tx.old.conn.ghost_name }
    ensures ok { HasCleanDisk (state S.Store tx.new.conn.now) → OnOk result (Edits 0
        (Adds (Null ∷ Text entity.now ∷ Int seat ∷ Null ∷ Null ∷ Text body.now ∷ []))
        (state S.Store tx.old.conn.now) (state S.Store tx.new.conn.now)) }
    ensures kept { HasCleanDisk (state S.Store tx.new.conn.now)
        → KeepsCommit (state S.Store tx.old.conn.now) (state S.Store tx.new.conn.now) }
    ensures survives { Survives (state S.Store tx.old.conn.now) (state S.Store tx.new.conn.now) (λ _. ⊥) }
{
    // No position is bound: SQLite gives the row the one after the last, so that no caller's has to be trusted.
    write(
        tx,
        "INSERT INTO journal (entity, seat, body) VALUES (?1, ?2, ?3)",
        &[text(entity), int(seat), text(body)],
    )
}

/// Adds a message that an entity processed, with its sender and its number.
pub fn add_message<S: Alter>(
    tx: &mut Transaction<'_, S>,
    entity: &str,
    sender: &str,
    number: i64,
    body: &str,
) -> Result<usize, Error>
    requires schema { HasCleanDisk (state S.Store tx.old.conn.now)
        → IsService (state S.Store tx.old.conn.now).now.schema }
    requires rising { HasCleanDisk (state S.Store tx.old.conn.now)
        → IsRising ((state S.Store tx.old.conn.now).now.trees 0) }
    requires inside { HasCleanDisk (state S.Store tx.old.conn.now)
        → IsTrue (state S.Store tx.old.conn.now).in_transaction }
    ensures same_reference { tx.new.conn.ghost_name ≡ tx.old.conn.ghost_name }
    ensures ok { HasCleanDisk (state S.Store tx.new.conn.now) → OnOk result (Edits 0
        (Adds (Null ∷ Text entity.now ∷ Null ∷ Text sender.now ∷ Int number ∷ Text body.now ∷ []))
        (state S.Store tx.old.conn.now) (state S.Store tx.new.conn.now)) }
    ensures kept { HasCleanDisk (state S.Store tx.new.conn.now)
        → KeepsCommit (state S.Store tx.old.conn.now) (state S.Store tx.new.conn.now) }
    ensures survives { Survives (state S.Store tx.old.conn.now) (state S.Store tx.new.conn.now) (λ _. ⊥) }
{
    // Without a seat: a row has a seat, or a sender and a number.
    write(
        tx,
        "INSERT INTO journal (entity, sender, number, body) VALUES (?1, ?2, ?3, ?4)",
        &[text(entity), text(sender), int(number), text(body)],
    )
}

/// The first rows from a position on.
pub fn read_journal<S: Alter>(
    conn: &mut Connection<S>,
    from: i64,
    limit: i64,
) -> Result<Vec<Row>, Error>
    requires schema { HasCleanDisk (state S.Store conn.old) → IsService (state S.Store conn.old).now.schema }
    requires settled { HasCleanDisk (state S.Store conn.old)
        → (state S.Store conn.old).now ≡ (state S.Store conn.old).committed }
    requires autocommit { conn.old.in_transaction ≡ false }
    ensures rows { HasCleanDisk (state S.Store conn.new) → IfOk result (λ rows.
        AreInOrder by_position (as_count (Int limit)) shown_entry
        (filter (is_from from) ((state S.Store conn.old).now.trees 0)) rows.items) }
    ensures autocommit { conn.new.in_transaction ≡ false }
    ensures open { HasCleanDisk (state S.Store conn.new) → OnOk result (IsTrue (state S.Store conn.new).is_open) }
    ensures stays { HasCleanDisk (state S.Store conn.new) → Stays (state S.Store conn.old) (state S.Store conn.new) }
    ensures clean { doubt (state S.Store conn.old).is_clean ≤ doubt (state S.Store conn.new).is_clean }
    ensures crash { HasCleanDisk (state S.Store conn.new) → (db : Trees)
        → (state S.Store conn.new).may_leave db → (state S.Store conn.old).may_leave db }
{
    read(
        conn,
        "SELECT pos, entity, seat, sender, number, body FROM journal WHERE pos >= ?1 ORDER BY pos \
         LIMIT ?2",
        &[int(from), int(limit)],
    )
}

/// The last position; no row, where the journal is empty.
pub fn read_last_position<S: Alter>(conn: &mut Connection<S>) -> Result<Vec<Row>, Error>
    requires schema { HasCleanDisk (state S.Store conn.old) → IsService (state S.Store conn.old).now.schema }
    requires settled { HasCleanDisk (state S.Store conn.old)
        → (state S.Store conn.old).now ≡ (state S.Store conn.old).committed }
    requires autocommit { conn.old.in_transaction ≡ false }
    ensures rows { HasCleanDisk (state S.Store conn.new) → IfOk result (λ rows.
        AreInOrder by_position_down (Some 1) (λ x. column x 0 ∷ [])
        ((state S.Store conn.old).now.trees 0) rows.items) }
    ensures autocommit { conn.new.in_transaction ≡ false }
    ensures open { HasCleanDisk (state S.Store conn.new) → OnOk result (IsTrue (state S.Store conn.new).is_open) }
    ensures stays { HasCleanDisk (state S.Store conn.new) → Stays (state S.Store conn.old) (state S.Store conn.new) }
    ensures clean { doubt (state S.Store conn.old).is_clean ≤ doubt (state S.Store conn.new).is_clean }
    ensures crash { HasCleanDisk (state S.Store conn.new) → (db : Trees)
        → (state S.Store conn.new).may_leave db → (state S.Store conn.old).may_leave db }
{
    read(
        conn,
        "SELECT pos FROM journal ORDER BY pos DESC LIMIT 1",
        &[],
    )
}

/// How many rows there are, in one row.
pub fn count_rows<S: Alter>(conn: &mut Connection<S>) -> Result<Vec<Row>, Error>
    requires schema { HasCleanDisk (state S.Store conn.old) → IsService (state S.Store conn.old).now.schema }
    requires settled { HasCleanDisk (state S.Store conn.old)
        → (state S.Store conn.old).now ≡ (state S.Store conn.old).committed }
    requires autocommit { conn.old.in_transaction ≡ false }
    ensures rows { HasCleanDisk (state S.Store conn.new) → IfOk result (λ rows.
        rows.items ≡ (count (length ((state S.Store conn.old).now.trees 0)) ∷ []) ∷ []) }
    ensures autocommit { conn.new.in_transaction ≡ false }
    ensures open { HasCleanDisk (state S.Store conn.new) → OnOk result (IsTrue (state S.Store conn.new).is_open) }
    ensures stays { HasCleanDisk (state S.Store conn.new) → Stays (state S.Store conn.old) (state S.Store conn.new) }
    ensures clean { doubt (state S.Store conn.old).is_clean ≤ doubt (state S.Store conn.new).is_clean }
    ensures crash { HasCleanDisk (state S.Store conn.new) → (db : Trees)
        → (state S.Store conn.new).may_leave db → (state S.Store conn.old).may_leave db }
{
    // It goes through all rows, so only an opening asks for it.
    read(conn, "SELECT count(*) FROM journal", &[])
}

/// How many rows there are as the transaction sees them, in one row.
pub fn count_rows_inside<S: Alter>(tx: &mut Transaction<'_, S>) -> Result<Vec<Row>, Error>
    requires schema { HasCleanDisk (state S.Store tx.old.conn.now)
        → IsService (state S.Store tx.old.conn.now).now.schema }
    ensures same_reference { tx.new.conn.ghost_name ≡ tx.old.conn.ghost_name }
    ensures rows { HasCleanDisk (state S.Store tx.new.conn.now) → IfOk result (λ rows. rows.items
        ≡ (count (length ((state S.Store tx.old.conn.now).now.trees 0)) ∷ []) ∷ []) }
    ensures ok { HasCleanDisk (state S.Store tx.new.conn.now)
        → OnOk result (IsUnchanged (state S.Store tx.old.conn.now) (state S.Store tx.new.conn.now)) }
    ensures kept { HasCleanDisk (state S.Store tx.new.conn.now)
        → KeepsCommit (state S.Store tx.old.conn.now) (state S.Store tx.new.conn.now) }
    ensures survives { Survives (state S.Store tx.old.conn.now) (state S.Store tx.new.conn.now) (λ _. ⊥) }
{
    // For a migration, whose rows are read and counted before they are committed.
    read_inside(tx, "SELECT count(*) FROM journal", &[])
}

/// How many rows have a position between these two, in one row.
pub fn count_rows_within<S: Alter>(
    conn: &mut Connection<S>,
    first: i64,
    last: i64,
) -> Result<Vec<Row>, Error>
    requires schema { HasCleanDisk (state S.Store conn.old) → IsService (state S.Store conn.old).now.schema }
    requires settled { HasCleanDisk (state S.Store conn.old)
        → (state S.Store conn.old).now ≡ (state S.Store conn.old).committed }
    requires autocommit { conn.old.in_transaction ≡ false }
    ensures rows { HasCleanDisk (state S.Store conn.new) → IfOk result (λ rows. rows.items
        ≡ (count (length (filter (is_within first last) ((state S.Store conn.old).now.trees 0))) ∷ []) ∷ []) }
    ensures autocommit { conn.new.in_transaction ≡ false }
    ensures open { HasCleanDisk (state S.Store conn.new) → OnOk result (IsTrue (state S.Store conn.new).is_open) }
    ensures stays { HasCleanDisk (state S.Store conn.new) → Stays (state S.Store conn.old) (state S.Store conn.new) }
    ensures clean { doubt (state S.Store conn.old).is_clean ≤ doubt (state S.Store conn.new).is_clean }
    ensures crash { HasCleanDisk (state S.Store conn.new) → (db : Trees)
        → (state S.Store conn.new).may_leave db → (state S.Store conn.old).may_leave db }
{
    // An opening compares this with the number of all rows: if they are equal, no position is missing.
    read(
        conn,
        "SELECT count(*) FROM journal WHERE pos >= ?1 AND pos <= ?2",
        &[int(first), int(last)],
    )
}

/// How many rows have a position between these two as the transaction sees them, in one row.
pub fn count_rows_within_inside<S: Alter>(
    tx: &mut Transaction<'_, S>,
    first: i64,
    last: i64,
) -> Result<Vec<Row>, Error>
    requires schema { HasCleanDisk (state S.Store tx.old.conn.now)
        → IsService (state S.Store tx.old.conn.now).now.schema }
    ensures same_reference { tx.new.conn.ghost_name ≡ tx.old.conn.ghost_name }
    ensures rows { HasCleanDisk (state S.Store tx.new.conn.now) → IfOk result (λ rows. rows.items
        ≡ (count (length (filter (is_within first last) ((state S.Store tx.old.conn.now).now.trees 0))) ∷ []) ∷ []) }
    ensures ok { HasCleanDisk (state S.Store tx.new.conn.now)
        → OnOk result (IsUnchanged (state S.Store tx.old.conn.now) (state S.Store tx.new.conn.now)) }
    ensures kept { HasCleanDisk (state S.Store tx.new.conn.now)
        → KeepsCommit (state S.Store tx.old.conn.now) (state S.Store tx.new.conn.now) }
    ensures survives { Survives (state S.Store tx.old.conn.now) (state S.Store tx.new.conn.now) (λ _. ⊥) }
{
    read_inside(
        tx,
        "SELECT count(*) FROM journal WHERE pos >= ?1 AND pos <= ?2",
        &[int(first), int(last)],
    )
}
