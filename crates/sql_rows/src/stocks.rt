//! The stocks of a warehouse, and the lines of orders at each.

ghost use Rattle.std.specs.Prelude.{◌≡◌, ◌≤◌, false, OnOk, IfOk, IsTrue, None, filter, [], ◌∷◌};
ghost use Rattle.sqlite.specs.Held.{state};
ghost use Rattle.sqlite.specs.State.{HasCleanDisk, Survives, KeepsCommit};
ghost use Rattle.sqlite.specs.declared.types.Value.TheVariants.{Int, Text};
ghost use Rattle.sqlite_trees.specs.Tree.{Trees};
ghost use Rattle.sqlite_trees.specs.View.{doubt};
ghost use Rattle.sqlite_value.specs.Order.{column};
ghost use Rattle.sql_rows.specs.Schema.{warehouse};
ghost use Rattle.sql_rows.specs.Tables.{has_key, IsRising, IsCut, Puts, Adds, Edits, Stays, AreInOrder, pair_key};
ghost use Rattle.sql_rows.specs.Tables.{text_key};
ghost use Rattle.sql_rows.specs.Tables.{by_text, by_pair};

use crate::statements::{int, read, text, write};
use sqlite::{Alter, Connection, Error, Row, Transaction};

/// Sets the numbers of a stock.
pub fn put_stock<S: Alter>(
    tx: &mut Transaction<'_, S>,
    key: &str,
    on_hand: i64,
    held: i64,
    shipped: i64,
    received: i64,
) -> Result<usize, Error>
    requires schema { HasCleanDisk (state S.Store tx.old.conn.now)
        → (state S.Store tx.old.conn.now).now.schema ≡ warehouse }
    requires rising { HasCleanDisk (state S.Store tx.old.conn.now)
        → IsRising ((state S.Store tx.old.conn.now).now.trees 9) }
    requires inside { HasCleanDisk (state S.Store tx.old.conn.now)
        → IsTrue (state S.Store tx.old.conn.now).in_transaction }
    ensures same_reference { tx.new.conn.ghost_name ≡ tx.old.conn.ghost_name }
    ensures ok { HasCleanDisk (state S.Store tx.new.conn.now) → OnOk result (Edits 9
        (Puts (text_key key.now)
        (Text key.now ∷ Int on_hand ∷ Int held ∷ Int shipped ∷ Int received ∷ []))
        (state S.Store tx.old.conn.now) (state S.Store tx.new.conn.now)) }
    ensures kept { HasCleanDisk (state S.Store tx.new.conn.now)
        → KeepsCommit (state S.Store tx.old.conn.now) (state S.Store tx.new.conn.now) }
    ensures survives { Survives (state S.Store tx.old.conn.now) (state S.Store tx.new.conn.now) (λ _. ⊥) }
{
    write(
        tx,
        "INSERT OR REPLACE INTO stocks (key, on_hand, held, shipped, received) \
         VALUES (?1, ?2, ?3, ?4, ?5)",
        &[
            text(key),
            int(on_hand),
            int(held),
            int(shipped),
            int(received),
        ],
    )
}

/// Takes a stock away; refused, while it has lines.
pub fn take_stock<S: Alter>(tx: &mut Transaction<'_, S>, key: &str) -> Result<usize, Error>
    requires schema { HasCleanDisk (state S.Store tx.old.conn.now)
        → (state S.Store tx.old.conn.now).now.schema ≡ warehouse }
    requires rising { HasCleanDisk (state S.Store tx.old.conn.now)
        → IsRising ((state S.Store tx.old.conn.now).now.trees 9) }
    requires inside { HasCleanDisk (state S.Store tx.old.conn.now)
        → IsTrue (state S.Store tx.old.conn.now).in_transaction }
    ensures same_reference { tx.new.conn.ghost_name ≡ tx.old.conn.ghost_name }
    ensures ok { HasCleanDisk (state S.Store tx.new.conn.now) → OnOk result (Edits 9
        (IsCut (has_key (text_key key.now)))
        (state S.Store tx.old.conn.now) (state S.Store tx.new.conn.now)) }
    ensures kept { HasCleanDisk (state S.Store tx.new.conn.now)
        → KeepsCommit (state S.Store tx.old.conn.now) (state S.Store tx.new.conn.now) }
    ensures survives { Survives (state S.Store tx.old.conn.now) (state S.Store tx.new.conn.now) (λ _. ⊥) }
{
    // The lines refer to this row: the caller takes them first.
    write(tx, "DELETE FROM stocks WHERE key = ?1", &[text(key)])
}

/// Adds the line of an order; refused, where the stock has one of it.
pub fn add_stock_line<S: Alter>(
    tx: &mut Transaction<'_, S>,
    stock: &str,
    order: &str,
    n: i64,
    phase: &str,
) -> Result<usize, Error>
    requires schema { HasCleanDisk (state S.Store tx.old.conn.now)
        → (state S.Store tx.old.conn.now).now.schema ≡ warehouse }
    requires rising { HasCleanDisk (state S.Store tx.old.conn.now)
        → IsRising ((state S.Store tx.old.conn.now).now.trees 11) }
    requires inside { HasCleanDisk (state S.Store tx.old.conn.now)
        → IsTrue (state S.Store tx.old.conn.now).in_transaction }
    ensures same_reference { tx.new.conn.ghost_name ≡ tx.old.conn.ghost_name }
    ensures ok { HasCleanDisk (state S.Store tx.new.conn.now) → OnOk result (Edits 11
        (Adds (Text stock.now ∷ Text order.now ∷ Int n ∷ Text phase.now ∷ []))
        (state S.Store tx.old.conn.now) (state S.Store tx.new.conn.now)) }
    ensures kept { HasCleanDisk (state S.Store tx.new.conn.now)
        → KeepsCommit (state S.Store tx.old.conn.now) (state S.Store tx.new.conn.now) }
    ensures survives { Survives (state S.Store tx.old.conn.now) (state S.Store tx.new.conn.now) (λ _. ⊥) }
{
    // No REPLACE: all lines were taken before, so one that is there is a fault.
    write(
        tx,
        "INSERT INTO stock_lines (stock, order_key, n, phase) VALUES (?1, ?2, ?3, ?4)",
        &[text(stock), text(order), int(n), text(phase)],
    )
}

/// Sets the line of an order.
pub fn put_stock_line<S: Alter>(
    tx: &mut Transaction<'_, S>,
    stock: &str,
    order: &str,
    n: i64,
    phase: &str,
) -> Result<usize, Error>
    requires schema { HasCleanDisk (state S.Store tx.old.conn.now)
        → (state S.Store tx.old.conn.now).now.schema ≡ warehouse }
    requires rising { HasCleanDisk (state S.Store tx.old.conn.now)
        → IsRising ((state S.Store tx.old.conn.now).now.trees 11) }
    requires inside { HasCleanDisk (state S.Store tx.old.conn.now)
        → IsTrue (state S.Store tx.old.conn.now).in_transaction }
    ensures same_reference { tx.new.conn.ghost_name ≡ tx.old.conn.ghost_name }
    ensures ok { HasCleanDisk (state S.Store tx.new.conn.now) → OnOk result (Edits 11
        (Puts (pair_key stock.now order.now) (Text stock.now ∷ Text order.now ∷ Int n ∷ Text phase.now ∷ []))
        (state S.Store tx.old.conn.now) (state S.Store tx.new.conn.now)) }
    ensures kept { HasCleanDisk (state S.Store tx.new.conn.now)
        → KeepsCommit (state S.Store tx.old.conn.now) (state S.Store tx.new.conn.now) }
    ensures survives { Survives (state S.Store tx.old.conn.now) (state S.Store tx.new.conn.now) (λ _. ⊥) }
{
    // A step writes this line alone, however many the stock has.
    write(
        tx,
        "INSERT OR REPLACE INTO stock_lines (stock, order_key, n, phase) VALUES (?1, ?2, ?3, ?4)",
        &[text(stock), text(order), int(n), text(phase)],
    )
}

/// Takes the line of an order away.
pub fn take_stock_line<S: Alter>(
    tx: &mut Transaction<'_, S>,
    stock: &str,
    order: &str,
) -> Result<usize, Error>
    requires schema { HasCleanDisk (state S.Store tx.old.conn.now)
        → (state S.Store tx.old.conn.now).now.schema ≡ warehouse }
    requires rising { HasCleanDisk (state S.Store tx.old.conn.now)
        → IsRising ((state S.Store tx.old.conn.now).now.trees 11) }
    requires inside { HasCleanDisk (state S.Store tx.old.conn.now)
        → IsTrue (state S.Store tx.old.conn.now).in_transaction }
    ensures same_reference { tx.new.conn.ghost_name ≡ tx.old.conn.ghost_name }
    ensures ok { HasCleanDisk (state S.Store tx.new.conn.now) → OnOk result (Edits 11
        (IsCut (has_key (pair_key stock.now order.now)))
        (state S.Store tx.old.conn.now) (state S.Store tx.new.conn.now)) }
    ensures kept { HasCleanDisk (state S.Store tx.new.conn.now)
        → KeepsCommit (state S.Store tx.old.conn.now) (state S.Store tx.new.conn.now) }
    ensures survives { Survives (state S.Store tx.old.conn.now) (state S.Store tx.new.conn.now) (λ _. ⊥) }
{
    write(
        tx,
        "DELETE FROM stock_lines WHERE stock = ?1 AND order_key = ?2",
        &[text(stock), text(order)],
    )
}

/// Takes the lines of a stock away.
pub fn take_stock_lines<S: Alter>(tx: &mut Transaction<'_, S>, stock: &str) -> Result<usize, Error>
    requires schema { HasCleanDisk (state S.Store tx.old.conn.now)
        → (state S.Store tx.old.conn.now).now.schema ≡ warehouse }
    requires rising { HasCleanDisk (state S.Store tx.old.conn.now)
        → IsRising ((state S.Store tx.old.conn.now).now.trees 11) }
    requires inside { HasCleanDisk (state S.Store tx.old.conn.now)
        → IsTrue (state S.Store tx.old.conn.now).in_transaction }
    ensures same_reference { tx.new.conn.ghost_name ≡ tx.old.conn.ghost_name }
    ensures ok { HasCleanDisk (state S.Store tx.new.conn.now) → OnOk result (Edits 11
        (IsCut (has_key (text_key stock.now)))
        (state S.Store tx.old.conn.now) (state S.Store tx.new.conn.now)) }
    ensures kept { HasCleanDisk (state S.Store tx.new.conn.now)
        → KeepsCommit (state S.Store tx.old.conn.now) (state S.Store tx.new.conn.now) }
    ensures survives { Survives (state S.Store tx.old.conn.now) (state S.Store tx.new.conn.now) (λ _. ⊥) }
{
    write(
        tx,
        "DELETE FROM stock_lines WHERE stock = ?1",
        &[text(stock)],
    )
}

/// The numbers of a stock; no row, where there is none.
pub fn read_stock<S: Alter>(conn: &mut Connection<S>, key: &str) -> Result<Vec<Row>, Error>
    requires schema { HasCleanDisk (state S.Store conn.old) → (state S.Store conn.old).now.schema ≡ warehouse }
    requires settled { HasCleanDisk (state S.Store conn.old)
        → (state S.Store conn.old).now ≡ (state S.Store conn.old).committed }
    requires autocommit { conn.old.in_transaction ≡ false }
    ensures rows { HasCleanDisk (state S.Store conn.new) → IfOk result (λ rows.
        AreInOrder by_text None (λ x. column x 2 ∷ column x 3 ∷ column x 4 ∷ column x 5 ∷ [])
        (filter (has_key (text_key key.now)) ((state S.Store conn.old).now.trees 9)) rows.items) }
    ensures autocommit { conn.new.in_transaction ≡ false }
    ensures open { HasCleanDisk (state S.Store conn.new) → OnOk result (IsTrue (state S.Store conn.new).is_open) }
    ensures stays { HasCleanDisk (state S.Store conn.new) → Stays (state S.Store conn.old) (state S.Store conn.new) }
    ensures clean { doubt (state S.Store conn.old).is_clean ≤ doubt (state S.Store conn.new).is_clean }
    ensures crash { HasCleanDisk (state S.Store conn.new) → (db : Trees)
        → (state S.Store conn.new).may_leave db → (state S.Store conn.old).may_leave db }
{
    read(
        conn,
        "SELECT on_hand, held, shipped, received FROM stocks WHERE key = ?1 ORDER BY key",
        &[text(key)],
    )
}

/// The lines of a stock.
pub fn read_stock_lines<S: Alter>(conn: &mut Connection<S>, stock: &str) -> Result<Vec<Row>, Error>
    requires schema { HasCleanDisk (state S.Store conn.old) → (state S.Store conn.old).now.schema ≡ warehouse }
    requires settled { HasCleanDisk (state S.Store conn.old)
        → (state S.Store conn.old).now ≡ (state S.Store conn.old).committed }
    requires autocommit { conn.old.in_transaction ≡ false }
    ensures rows { HasCleanDisk (state S.Store conn.new) → IfOk result (λ rows.
        AreInOrder by_pair None (λ x. column x 2 ∷ column x 3 ∷ column x 4 ∷ [])
        (filter (has_key (text_key stock.now)) ((state S.Store conn.old).now.trees 11)) rows.items) }
    ensures autocommit { conn.new.in_transaction ≡ false }
    ensures open { HasCleanDisk (state S.Store conn.new) → OnOk result (IsTrue (state S.Store conn.new).is_open) }
    ensures stays { HasCleanDisk (state S.Store conn.new) → Stays (state S.Store conn.old) (state S.Store conn.new) }
    ensures clean { doubt (state S.Store conn.old).is_clean ≤ doubt (state S.Store conn.new).is_clean }
    ensures crash { HasCleanDisk (state S.Store conn.new) → (db : Trees)
        → (state S.Store conn.new).may_leave db → (state S.Store conn.old).may_leave db }
{
    read(
        conn,
        "SELECT order_key, n, phase FROM stock_lines WHERE stock = ?1 ORDER BY stock, order_key",
        &[text(stock)],
    )
}
