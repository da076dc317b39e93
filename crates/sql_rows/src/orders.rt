//! The orders of purchasing: a head, and one to eight lines.

ghost use Rattle.std.specs.Prelude.{◌≡◌, ◌≤◌, false, OnOk, IfOk, IsTrue, None, filter, [], ◌∷◌};
ghost use Rattle.sqlite.specs.Held.{state};
ghost use Rattle.sqlite.specs.State.{HasCleanDisk, Survives, KeepsCommit};
ghost use Rattle.sqlite.specs.declared.types.Value.TheVariants.{Int, Text};
ghost use Rattle.sqlite_trees.specs.Tree.{Trees};
ghost use Rattle.sqlite_trees.specs.View.{doubt};
ghost use Rattle.sqlite_value.specs.Order.{column};
ghost use Rattle.sql_rows.specs.Schema.{purchasing};
ghost use Rattle.sql_rows.specs.Tables.{has_key, IsRising, IsCut, Puts, Adds, Edits, Stays, AreInOrder, text_key};
ghost use Rattle.sql_rows.specs.Tables.{by_text, by_pair};

use crate::statements::{int, read, text, write};
use sqlite::{Alter, Connection, Error, Row, Transaction};

/// Sets the head of an order.
pub fn put_order_head<S: Alter>(
    tx: &mut Transaction<'_, S>,
    key: &str,
    account: &str,
    amount: i64,
    status: &str,
    account_phase: &str,
) -> Result<usize, Error>
    requires schema { HasCleanDisk (state S.Store tx.old.conn.now)
        → (state S.Store tx.old.conn.now).now.schema ≡ purchasing }
    requires rising { HasCleanDisk (state S.Store tx.old.conn.now)
        → IsRising ((state S.Store tx.old.conn.now).now.trees 9) }
    requires inside { HasCleanDisk (state S.Store tx.old.conn.now)
        → IsTrue (state S.Store tx.old.conn.now).in_transaction }
    ensures same_reference { tx.new.conn.ghost_name ≡ tx.old.conn.ghost_name }
    ensures ok { HasCleanDisk (state S.Store tx.new.conn.now) → OnOk result (Edits 9
        (Puts (text_key key.now)
        (Text key.now ∷ Text account.now ∷ Int amount ∷ Text status.now ∷ Text account_phase.now ∷ []))
        (state S.Store tx.old.conn.now) (state S.Store tx.new.conn.now)) }
    ensures kept { HasCleanDisk (state S.Store tx.new.conn.now)
        → KeepsCommit (state S.Store tx.old.conn.now) (state S.Store tx.new.conn.now) }
    ensures survives { Survives (state S.Store tx.old.conn.now) (state S.Store tx.new.conn.now) (λ _. ⊥) }
{
    // Before the lines of the order, which refer to this row.
    write(
        tx,
        "INSERT OR REPLACE INTO order_heads (key, account, amount, status, account_phase) \
         VALUES (?1, ?2, ?3, ?4, ?5)",
        &[
            text(key),
            text(account),
            int(amount),
            text(status),
            text(account_phase),
        ],
    )
}

/// Takes the head of an order away; refused, while it has lines.
pub fn take_order_head<S: Alter>(tx: &mut Transaction<'_, S>, key: &str) -> Result<usize, Error>
    requires schema { HasCleanDisk (state S.Store tx.old.conn.now)
        → (state S.Store tx.old.conn.now).now.schema ≡ purchasing }
    requires rising { HasCleanDisk (state S.Store tx.old.conn.now)
        → IsRising ((state S.Store tx.old.conn.now).now.trees 9) }
    requires inside { HasCleanDisk (state S.Store tx.old.conn.now)
        → IsTrue (state S.Store tx.old.conn.now).in_transaction }
    ensures same_reference { tx.new.conn.ghost_name ≡ tx.old.conn.ghost_name }
    ensures ok { HasCleanDisk (state S.Store tx.new.conn.now) → OnOk result (Edits 9
        (IsCut (has_key (text_key key.now)))
        (state S.Store tx.old.conn.now) (state S.Store tx.new.conn.now)) }
    ensures kept { HasCleanDisk (state S.Store tx.new.conn.now)
        → KeepsCommit (state S.Store tx.old.conn.now) (state S.Store tx.new.conn.now) }
    ensures survives { Survives (state S.Store tx.old.conn.now) (state S.Store tx.new.conn.now) (λ _. ⊥) }
{
    write(tx, "DELETE FROM order_heads WHERE key = ?1", &[text(key)])
}

/// Adds a line of an order; refused, where the order has that line or that stock.
pub fn add_order_line<S: Alter>(
    tx: &mut Transaction<'_, S>,
    order: &str,
    line: i64,
    stock: &str,
    n: i64,
    phase: &str,
) -> Result<usize, Error>
    requires schema { HasCleanDisk (state S.Store tx.old.conn.now)
        → (state S.Store tx.old.conn.now).now.schema ≡ purchasing }
    requires rising { HasCleanDisk (state S.Store tx.old.conn.now)
        → IsRising ((state S.Store tx.old.conn.now).now.trees 11) }
    requires inside { HasCleanDisk (state S.Store tx.old.conn.now)
        → IsTrue (state S.Store tx.old.conn.now).in_transaction }
    ensures same_reference { tx.new.conn.ghost_name ≡ tx.old.conn.ghost_name }
    ensures ok { HasCleanDisk (state S.Store tx.new.conn.now) → OnOk result (Edits 11
        (Adds (Text order.now ∷ Int line ∷ Text stock.now ∷ Int n ∷ Text phase.now ∷ []))
        (state S.Store tx.old.conn.now) (state S.Store tx.new.conn.now)) }
    ensures kept { HasCleanDisk (state S.Store tx.new.conn.now)
        → KeepsCommit (state S.Store tx.old.conn.now) (state S.Store tx.new.conn.now) }
    ensures survives { Survives (state S.Store tx.old.conn.now) (state S.Store tx.new.conn.now) (λ _. ⊥) }
{
    // A row's `line` is its place in the order: lines are read back as they were placed, and not sorted by stock.
    write(
        tx,
        "INSERT INTO order_lines (order_key, line, stock, n, phase) VALUES (?1, ?2, ?3, ?4, ?5)",
        &[text(order), int(line), text(stock), int(n), text(phase)],
    )
}

/// Takes the lines of an order away.
pub fn take_order_lines<S: Alter>(tx: &mut Transaction<'_, S>, order: &str) -> Result<usize, Error>
    requires schema { HasCleanDisk (state S.Store tx.old.conn.now)
        → (state S.Store tx.old.conn.now).now.schema ≡ purchasing }
    requires rising { HasCleanDisk (state S.Store tx.old.conn.now)
        → IsRising ((state S.Store tx.old.conn.now).now.trees 11) }
    requires inside { HasCleanDisk (state S.Store tx.old.conn.now)
        → IsTrue (state S.Store tx.old.conn.now).in_transaction }
    ensures same_reference { tx.new.conn.ghost_name ≡ tx.old.conn.ghost_name }
    ensures ok { HasCleanDisk (state S.Store tx.new.conn.now) → OnOk result (Edits 11
        (IsCut (has_key (text_key order.now)))
        (state S.Store tx.old.conn.now) (state S.Store tx.new.conn.now)) }
    ensures kept { HasCleanDisk (state S.Store tx.new.conn.now)
        → KeepsCommit (state S.Store tx.old.conn.now) (state S.Store tx.new.conn.now) }
    ensures survives { Survives (state S.Store tx.old.conn.now) (state S.Store tx.new.conn.now) (λ _. ⊥) }
{
    // All of them: an order has at most eight lines and is always written whole.
    write(
        tx,
        "DELETE FROM order_lines WHERE order_key = ?1",
        &[text(order)],
    )
}

/// The head of an order; no row, where there is none.
pub fn read_order_head<S: Alter>(conn: &mut Connection<S>, key: &str) -> Result<Vec<Row>, Error>
    requires schema { HasCleanDisk (state S.Store conn.old) → (state S.Store conn.old).now.schema ≡ purchasing }
    requires settled { HasCleanDisk (state S.Store conn.old)
        → (state S.Store conn.old).now ≡ (state S.Store conn.old).committed }
    requires autocommit { conn.old.in_transaction ≡ false }
    ensures rows { HasCleanDisk (state S.Store conn.new) → IfOk result (λ rows.
        AreInOrder by_text None (λ x. column x 2 ∷ column x 3 ∷ column x 4 ∷ column x 5 ∷ [])
        (filter (has_key (text_key key.now)) ((state S.Store conn.old).now.trees 9)) rows.items) }
    ensures autocommit { conn.new.in_transaction ≡ false }
    ensures open { HasCleanDisk (state S.Store conn.new) → OnOk result (IsTrue (state S.Store conn.new).is_open) }
    ensures stays { HasCleanDisk (state S.Store conn.new) → Stays (state S.Store conn.old) (state S.Store conn.new) }
    ensures clean { doubt (state S.Store conn.old).is_clean ≤ doubt (state S.Store conn.new).is_clean }
    ensures crash { HasCleanDisk (state S.Store conn.new) → (db : Trees)
        → (state S.Store conn.new).may_leave db → (state S.Store conn.old).may_leave db }
{
    read(
        conn,
        "SELECT account, amount, status, account_phase FROM order_heads WHERE key = ?1 \
         ORDER BY key",
        &[text(key)],
    )
}

/// The lines of an order.
pub fn read_order_lines<S: Alter>(conn: &mut Connection<S>, order: &str) -> Result<Vec<Row>, Error>
    requires schema { HasCleanDisk (state S.Store conn.old) → (state S.Store conn.old).now.schema ≡ purchasing }
    requires settled { HasCleanDisk (state S.Store conn.old)
        → (state S.Store conn.old).now ≡ (state S.Store conn.old).committed }
    requires autocommit { conn.old.in_transaction ≡ false }
    ensures rows { HasCleanDisk (state S.Store conn.new) → IfOk result (λ rows.
        AreInOrder by_pair None (λ x. column x 2 ∷ column x 3 ∷ column x 4 ∷ column x 5 ∷ [])
        (filter (has_key (text_key order.now)) ((state S.Store conn.old).now.trees 11)) rows.items) }
    ensures autocommit { conn.new.in_transaction ≡ false }
    ensures open { HasCleanDisk (state S.Store conn.new) → OnOk result (IsTrue (state S.Store conn.new).is_open) }
    ensures stays { HasCleanDisk (state S.Store conn.new) → Stays (state S.Store conn.old) (state S.Store conn.new) }
    ensures clean { doubt (state S.Store conn.old).is_clean ≤ doubt (state S.Store conn.new).is_clean }
    ensures crash { HasCleanDisk (state S.Store conn.new) → (db : Trees)
        → (state S.Store conn.new).may_leave db → (state S.Store conn.old).may_leave db }
{
    read(
        conn,
        "SELECT line, stock, n, phase FROM order_lines WHERE order_key = ?1 \
         ORDER BY order_key, line",
        &[text(order)],
    )
}
