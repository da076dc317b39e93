//! The last numbers sent and settled of each pair.

ghost use Rattle.std.specs.Prelude.{◌≡◌, ◌≤◌, false, OnOk, IfOk, IsTrue, None, filter, [], ◌∷◌};
ghost use Rattle.sqlite.specs.Held.{state};
ghost use Rattle.sqlite.specs.State.{HasCleanDisk, IsUnchanged, Survives, KeepsCommit};
ghost use Rattle.sqlite_trees.specs.Tree.{Trees};
ghost use Rattle.sqlite_trees.specs.View.{doubt};
ghost use Rattle.sqlite_value.specs.Order.{column};
ghost use Rattle.sql_rows.specs.Schema.{IsService};
ghost use Rattle.sql_rows.specs.Tables.{has_key, IsRising, Puts, Edits, Stays, AreInOrder, pair_key, marks_cells};
ghost use Rattle.sql_rows.specs.Tables.{by_pair};

use crate::statements::{int, read, read_inside, text, write};
use sqlite::{Alter, Connection, Error, Row, Transaction};

/// Sets the last numbers sent and settled of a pair; refused, where more would be settled than sent.
pub fn put_out_marks<S: Alter>(
    tx: &mut Transaction<'_, S>,
    sender: &str,
    receiver: &str,
    sent: i64,
    settled: i64,
) -> Result<usize, Error>
    requires schema { HasCleanDisk (state S.Store tx.old.conn.now)
        → IsService (state S.Store tx.old.conn.now).now.schema }
    requires rising { HasCleanDisk (state S.Store tx.old.conn.now)
        → IsRising ((state S.Store tx.old.conn.now).now.trees 3) }
    requires inside { HasCleanDisk (state S.Store tx.old.conn.now)
        → IsTrue (state S.Store tx.old.conn.now).in_transaction }
    ensures same_reference { tx.new.conn.ghost_name ≡ tx.old.conn.ghost_name }
    ensures ok { HasCleanDisk (state S.Store tx.new.conn.now) → OnOk result (Edits 3
        (Puts (pair_key sender.now receiver.now) (marks_cells sender.now receiver.now sent settled))
        (state S.Store tx.old.conn.now) (state S.Store tx.new.conn.now)) }
    ensures kept { HasCleanDisk (state S.Store tx.new.conn.now)
        → KeepsCommit (state S.Store tx.old.conn.now) (state S.Store tx.new.conn.now) }
    ensures survives { Survives (state S.Store tx.old.conn.now) (state S.Store tx.new.conn.now) (λ _. ⊥) }
{
    // A check sees one row: with both marks in it, the table's own refuses a settled one above the sent one.
    write(
        tx,
        "INSERT OR REPLACE INTO out_marks (sender, receiver, sent, settled) \
         VALUES (?1, ?2, ?3, ?4)",
        &[text(sender), text(receiver), int(sent), int(settled)],
    )
}

/// The last numbers sent and settled of a pair; no row, where it has none.
pub fn read_marks<S: Alter>(
    conn: &mut Connection<S>,
    sender: &str,
    receiver: &str,
) -> Result<Vec<Row>, Error>
    requires schema { HasCleanDisk (state S.Store conn.old) → IsService (state S.Store conn.old).now.schema }
    requires settled { HasCleanDisk (state S.Store conn.old)
        → (state S.Store conn.old).now ≡ (state S.Store conn.old).committed }
    requires autocommit { conn.old.in_transaction ≡ false }
    ensures rows { HasCleanDisk (state S.Store conn.new) → IfOk result (λ rows.
        AreInOrder by_pair None (λ x. column x 3 ∷ column x 4 ∷ [])
        (filter (has_key (pair_key sender.now receiver.now)) ((state S.Store conn.old).now.trees 3)) rows.items) }
    ensures autocommit { conn.new.in_transaction ≡ false }
    ensures open { HasCleanDisk (state S.Store conn.new) → OnOk result (IsTrue (state S.Store conn.new).is_open) }
    ensures stays { HasCleanDisk (state S.Store conn.new) → Stays (state S.Store conn.old) (state S.Store conn.new) }
    ensures clean { doubt (state S.Store conn.old).is_clean ≤ doubt (state S.Store conn.new).is_clean }
    ensures crash { HasCleanDisk (state S.Store conn.new) → (db : Trees)
        → (state S.Store conn.new).may_leave db → (state S.Store conn.old).may_leave db }
{
    read(
        conn,
        "SELECT sent, settled FROM out_marks WHERE sender = ?1 AND receiver = ?2 \
         ORDER BY sender, receiver",
        &[text(sender), text(receiver)],
    )
}

/// The last numbers sent and settled of a pair, as the transaction sees them; no row, where it has none.
pub fn find_marks<S: Alter>(
    tx: &mut Transaction<'_, S>,
    sender: &str,
    receiver: &str,
) -> Result<Vec<Row>, Error>
    requires schema { HasCleanDisk (state S.Store tx.old.conn.now)
        → IsService (state S.Store tx.old.conn.now).now.schema }
    ensures same_reference { tx.new.conn.ghost_name ≡ tx.old.conn.ghost_name }
    ensures rows { HasCleanDisk (state S.Store tx.new.conn.now) → IfOk result (λ rows.
        AreInOrder by_pair None (λ x. column x 3 ∷ column x 4 ∷ [])
        (filter (has_key (pair_key sender.now receiver.now)) ((state S.Store tx.old.conn.now).now.trees 3)) rows.items) }
    ensures ok { HasCleanDisk (state S.Store tx.new.conn.now)
        → OnOk result (IsUnchanged (state S.Store tx.old.conn.now) (state S.Store tx.new.conn.now)) }
    ensures kept { HasCleanDisk (state S.Store tx.new.conn.now)
        → KeepsCommit (state S.Store tx.old.conn.now) (state S.Store tx.new.conn.now) }
    ensures survives { Survives (state S.Store tx.old.conn.now) (state S.Store tx.new.conn.now) (λ _. ⊥) }
{
    // One row has both marks, and is written whole: whoever raises one reads the other here first.
    read_inside(
        tx,
        "SELECT sent, settled FROM out_marks WHERE sender = ?1 AND receiver = ?2 \
         ORDER BY sender, receiver",
        &[text(sender), text(receiver)],
    )
}
