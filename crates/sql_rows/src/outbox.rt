//! The letters that were sent and aren't settled.

ghost use Rattle.std.specs.Prelude.{◌≡◌, ◌≤◌, false, OnOk, IfOk, IsTrue, filter};
ghost use Rattle.sqlite.specs.Held.{state};
ghost use Rattle.sqlite.specs.State.{HasCleanDisk, Survives, KeepsCommit};
ghost use Rattle.sqlite.specs.declared.types.Value.TheVariants.{Int};
ghost use Rattle.sqlite_sql.specs.Query.{as_count};
ghost use Rattle.sqlite_trees.specs.Tree.{Trees};
ghost use Rattle.sqlite_trees.specs.View.{doubt};
ghost use Rattle.sql_rows.specs.Schema.{IsService};
ghost use Rattle.sql_rows.specs.Tables.{IsRising, IsCut, Puts, Edits, Stays, AreInOrder, place_key, letter_cells};
ghost use Rattle.sql_rows.specs.Tables.{is_upto, is_after, by_place, shown_letter};

use crate::statements::{int, read, text, write};
use sqlite::{Alter, Connection, Error, Row, Transaction};

/// Puts a letter into the outbox.
pub fn put_outbox<S: Alter>(
    tx: &mut Transaction<'_, S>,
    sender: &str,
    receiver: &str,
    number: i64,
    body: &str,
) -> Result<usize, Error>
    requires schema { HasCleanDisk (state S.Store tx.old.conn.now)
        → IsService (state S.Store tx.old.conn.now).now.schema }
    requires rising { HasCleanDisk (state S.Store tx.old.conn.now)
        → IsRising ((state S.Store tx.old.conn.now).now.trees 1) }
    requires inside { HasCleanDisk (state S.Store tx.old.conn.now)
        → IsTrue (state S.Store tx.old.conn.now).in_transaction }
    ensures same_reference { tx.new.conn.ghost_name ≡ tx.old.conn.ghost_name }
    ensures ok { HasCleanDisk (state S.Store tx.new.conn.now) → OnOk result (Edits 1
        (Puts (place_key sender.now receiver.now number) (letter_cells sender.now receiver.now number body.now))
        (state S.Store tx.old.conn.now) (state S.Store tx.new.conn.now)) }
    ensures kept { HasCleanDisk (state S.Store tx.new.conn.now)
        → KeepsCommit (state S.Store tx.old.conn.now) (state S.Store tx.new.conn.now) }
    ensures survives { Survives (state S.Store tx.old.conn.now) (state S.Store tx.new.conn.now) (λ _. ⊥) }
{
    // REPLACE, for what a change says: the row is set, whatever was there.
    write(
        tx,
        "INSERT OR REPLACE INTO outbox (sender, receiver, number, body) VALUES (?1, ?2, ?3, ?4)",
        &[text(sender), text(receiver), int(number), text(body)],
    )
}

/// Takes away the letters of a pair up to a number.
pub fn settle_outbox<S: Alter>(
    tx: &mut Transaction<'_, S>,
    sender: &str,
    receiver: &str,
    number: i64,
) -> Result<usize, Error>
    requires schema { HasCleanDisk (state S.Store tx.old.conn.now)
        → IsService (state S.Store tx.old.conn.now).now.schema }
    requires rising { HasCleanDisk (state S.Store tx.old.conn.now)
        → IsRising ((state S.Store tx.old.conn.now).now.trees 1) }
    requires inside { HasCleanDisk (state S.Store tx.old.conn.now)
        → IsTrue (state S.Store tx.old.conn.now).in_transaction }
    ensures same_reference { tx.new.conn.ghost_name ≡ tx.old.conn.ghost_name }
    ensures ok { HasCleanDisk (state S.Store tx.new.conn.now) → OnOk result (Edits 1
        (IsCut (is_upto sender.now receiver.now number))
        (state S.Store tx.old.conn.now) (state S.Store tx.new.conn.now)) }
    ensures kept { HasCleanDisk (state S.Store tx.new.conn.now)
        → KeepsCommit (state S.Store tx.old.conn.now) (state S.Store tx.new.conn.now) }
    ensures survives { Survives (state S.Store tx.old.conn.now) (state S.Store tx.new.conn.now) (λ _. ⊥) }
{
    // All letters up to the number: a settle covers those before it.
    write(
        tx,
        "DELETE FROM outbox WHERE sender = ?1 AND receiver = ?2 AND number <= ?3",
        &[text(sender), text(receiver), int(number)],
    )
}

/// The first letters of the outbox.
pub fn read_letters<S: Alter>(conn: &mut Connection<S>, limit: i64) -> Result<Vec<Row>, Error>
    requires schema { HasCleanDisk (state S.Store conn.old) → IsService (state S.Store conn.old).now.schema }
    requires settled { HasCleanDisk (state S.Store conn.old)
        → (state S.Store conn.old).now ≡ (state S.Store conn.old).committed }
    requires autocommit { conn.old.in_transaction ≡ false }
    ensures rows { HasCleanDisk (state S.Store conn.new) → IfOk result (λ rows.
        AreInOrder by_place (as_count (Int limit)) shown_letter
        ((state S.Store conn.old).now.trees 1) rows.items) }
    ensures autocommit { conn.new.in_transaction ≡ false }
    ensures open { HasCleanDisk (state S.Store conn.new) → OnOk result (IsTrue (state S.Store conn.new).is_open) }
    ensures stays { HasCleanDisk (state S.Store conn.new) → Stays (state S.Store conn.old) (state S.Store conn.new) }
    ensures clean { doubt (state S.Store conn.old).is_clean ≤ doubt (state S.Store conn.new).is_clean }
    ensures crash { HasCleanDisk (state S.Store conn.new) → (db : Trees)
        → (state S.Store conn.new).may_leave db → (state S.Store conn.old).may_leave db }
{
    // A text of its own for the beginning: no place is before all others.
    read(
        conn,
        "SELECT sender, receiver, number, body FROM outbox \
         ORDER BY sender, receiver, number LIMIT ?1",
        &[int(limit)],
    )
}

/// The first letters of the outbox after a place.
pub fn read_letters_after<S: Alter>(
    conn: &mut Connection<S>,
    sender: &str,
    receiver: &str,
    number: i64,
    limit: i64,
) -> Result<Vec<Row>, Error>
    requires schema { HasCleanDisk (state S.Store conn.old) → IsService (state S.Store conn.old).now.schema }
    requires settled { HasCleanDisk (state S.Store conn.old)
        → (state S.Store conn.old).now ≡ (state S.Store conn.old).committed }
    requires autocommit { conn.old.in_transaction ≡ false }
    ensures rows { HasCleanDisk (state S.Store conn.new) → IfOk result (λ rows.
        AreInOrder by_place (as_count (Int limit)) shown_letter
        (filter (is_after sender.now receiver.now number) ((state S.Store conn.old).now.trees 1)) rows.items) }
    ensures autocommit { conn.new.in_transaction ≡ false }
    ensures open { HasCleanDisk (state S.Store conn.new) → OnOk result (IsTrue (state S.Store conn.new).is_open) }
    ensures stays { HasCleanDisk (state S.Store conn.new) → Stays (state S.Store conn.old) (state S.Store conn.new) }
    ensures clean { doubt (state S.Store conn.old).is_clean ≤ doubt (state S.Store conn.new).is_clean }
    ensures crash { HasCleanDisk (state S.Store conn.new) → (db : Trees)
        → (state S.Store conn.new).may_leave db → (state S.Store conn.old).may_leave db }
{
    // The first test leaves the pair's own sender and those after it, so that the others may compare receivers and
    // numbers.
    read(
        conn,
        "SELECT sender, receiver, number, body FROM outbox WHERE sender >= ?1 \
         AND (sender > ?1 OR receiver > ?2 OR receiver = ?2 AND number > ?3) \
         ORDER BY sender, receiver, number LIMIT ?4",
        &[text(sender), text(receiver), int(number), int(limit)],
    )
}
