//! The letters that came too early.

ghost use Rattle.std.specs.Prelude.{◌≡◌, ◌≤◌, false, OnOk, IfOk, IsTrue, None, Some, filter, [], ◌∷◌};
ghost use Rattle.sqlite.specs.Held.{state};
ghost use Rattle.sqlite.specs.State.{HasCleanDisk, Survives, KeepsCommit};
ghost use Rattle.sqlite_trees.specs.Tree.{Trees};
ghost use Rattle.sqlite_trees.specs.View.{doubt};
ghost use Rattle.sqlite_value.specs.Order.{column};
ghost use Rattle.sql_rows.specs.Schema.{IsService};
ghost use Rattle.sql_rows.specs.Tables.{has_key, IsRising, IsCut, Puts, Edits, Stays, AreInOrder, place_key};
ghost use Rattle.sql_rows.specs.Tables.{letter_cells, by_pair, by_place, next_held};

use crate::statements::{int, read, text, write};
use sqlite::{Alter, Connection, Error, Row, Transaction};

/// Holds a letter that came too early.
pub fn put_held<S: Alter>(
    tx: &mut Transaction<'_, S>,
    sender: &str,
    receiver: &str,
    number: i64,
    body: &str,
) -> Result<usize, Error>
    requires schema { HasCleanDisk (state S.Store tx.old.conn.now)
        → IsService (state S.Store tx.old.conn.now).now.schema }
    requires rising { HasCleanDisk (state S.Store tx.old.conn.now)
        → IsRising ((state S.Store tx.old.conn.now).now.trees 7) }
    requires inside { HasCleanDisk (state S.Store tx.old.conn.now)
        → IsTrue (state S.Store tx.old.conn.now).in_transaction }
    ensures same_reference { tx.new.conn.ghost_name ≡ tx.old.conn.ghost_name }
    ensures ok { HasCleanDisk (state S.Store tx.new.conn.now) → OnOk result (Edits 7
        (Puts (place_key sender.now receiver.now number) (letter_cells sender.now receiver.now number body.now))
        (state S.Store tx.old.conn.now) (state S.Store tx.new.conn.now)) }
    ensures kept { HasCleanDisk (state S.Store tx.new.conn.now)
        → KeepsCommit (state S.Store tx.old.conn.now) (state S.Store tx.new.conn.now) }
    ensures survives { Survives (state S.Store tx.old.conn.now) (state S.Store tx.new.conn.now) (λ _. ⊥) }
{
    // REPLACE, for what a change says. An endpoint asks before: of two letters with one number the first stays.
    write(
        tx,
        "INSERT OR REPLACE INTO held (sender, receiver, number, body) VALUES (?1, ?2, ?3, ?4)",
        &[text(sender), text(receiver), int(number), text(body)],
    )
}

/// Takes a held letter away.
pub fn take_held<S: Alter>(
    tx: &mut Transaction<'_, S>,
    sender: &str,
    receiver: &str,
    number: i64,
) -> Result<usize, Error>
    requires schema { HasCleanDisk (state S.Store tx.old.conn.now)
        → IsService (state S.Store tx.old.conn.now).now.schema }
    requires rising { HasCleanDisk (state S.Store tx.old.conn.now)
        → IsRising ((state S.Store tx.old.conn.now).now.trees 7) }
    requires inside { HasCleanDisk (state S.Store tx.old.conn.now)
        → IsTrue (state S.Store tx.old.conn.now).in_transaction }
    ensures same_reference { tx.new.conn.ghost_name ≡ tx.old.conn.ghost_name }
    ensures ok { HasCleanDisk (state S.Store tx.new.conn.now) → OnOk result (Edits 7
        (IsCut (has_key (place_key sender.now receiver.now number)))
        (state S.Store tx.old.conn.now) (state S.Store tx.new.conn.now)) }
    ensures kept { HasCleanDisk (state S.Store tx.new.conn.now)
        → KeepsCommit (state S.Store tx.old.conn.now) (state S.Store tx.new.conn.now) }
    ensures survives { Survives (state S.Store tx.old.conn.now) (state S.Store tx.new.conn.now) (λ _. ⊥) }
{
    write(
        tx,
        "DELETE FROM held WHERE sender = ?1 AND receiver = ?2 AND number = ?3",
        &[text(sender), text(receiver), int(number)],
    )
}

/// The body of a held letter; no row, where it isn't held.
pub fn read_held<S: Alter>(
    conn: &mut Connection<S>,
    sender: &str,
    receiver: &str,
    number: i64,
) -> Result<Vec<Row>, Error>
    requires schema { HasCleanDisk (state S.Store conn.old) → IsService (state S.Store conn.old).now.schema }
    requires settled { HasCleanDisk (state S.Store conn.old)
        → (state S.Store conn.old).now ≡ (state S.Store conn.old).committed }
    requires autocommit { conn.old.in_transaction ≡ false }
    ensures rows { HasCleanDisk (state S.Store conn.new) → IfOk result (λ rows.
        AreInOrder by_place None (λ x. column x 4 ∷ [])
        (filter (has_key (place_key sender.now receiver.now number)) ((state S.Store conn.old).now.trees 7)) rows.items) }
    ensures autocommit { conn.new.in_transaction ≡ false }
    ensures open { HasCleanDisk (state S.Store conn.new) → OnOk result (IsTrue (state S.Store conn.new).is_open) }
    ensures stays { HasCleanDisk (state S.Store conn.new) → Stays (state S.Store conn.old) (state S.Store conn.new) }
    ensures clean { doubt (state S.Store conn.old).is_clean ≤ doubt (state S.Store conn.new).is_clean }
    ensures crash { HasCleanDisk (state S.Store conn.new) → (db : Trees)
        → (state S.Store conn.new).may_leave db → (state S.Store conn.old).may_leave db }
{
    read(
        conn,
        "SELECT body FROM held WHERE sender = ?1 AND receiver = ?2 AND number = ?3 \
         ORDER BY sender, receiver, number",
        &[text(sender), text(receiver), int(number)],
    )
}

/// The first pair that holds its next letter; no row, where none does.
pub fn read_drainable<S: Alter>(conn: &mut Connection<S>) -> Result<Vec<Row>, Error>
    requires schema { HasCleanDisk (state S.Store conn.old) → IsService (state S.Store conn.old).now.schema }
    requires settled { HasCleanDisk (state S.Store conn.old)
        → (state S.Store conn.old).now ≡ (state S.Store conn.old).committed }
    requires autocommit { conn.old.in_transaction ≡ false }
    ensures rows { HasCleanDisk (state S.Store conn.new) → IfOk result (λ rows.
        AreInOrder (λ a b. by_pair a.0 b.0) (Some 1) (λ x. column x.0 1 ∷ column x.0 2 ∷ [])
        (next_held ((state S.Store conn.old).now.trees 7) ((state S.Store conn.old).now.trees 5)) rows.items) }
    ensures autocommit { conn.new.in_transaction ≡ false }
    ensures open { HasCleanDisk (state S.Store conn.new) → OnOk result (IsTrue (state S.Store conn.new).is_open) }
    ensures stays { HasCleanDisk (state S.Store conn.new) → Stays (state S.Store conn.old) (state S.Store conn.new) }
    ensures clean { doubt (state S.Store conn.old).is_clean ≤ doubt (state S.Store conn.new).is_clean }
    ensures crash { HasCleanDisk (state S.Store conn.new) → (db : Trees)
        → (state S.Store conn.new).may_leave db → (state S.Store conn.old).may_leave db }
{
    // LEFT JOIN, as a pair of which nothing was handled yet has no row of marks.
    read(
        conn,
        "SELECT held.sender, held.receiver FROM held \
         LEFT JOIN in_marks ON held.sender = in_marks.sender AND held.receiver = in_marks.receiver \
         WHERE held.number = coalesce(in_marks.handled, 0) + 1 ORDER BY held.sender, held.receiver \
         LIMIT 1",
        &[],
    )
}
