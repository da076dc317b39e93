//! The accounts of billing, and the lines of orders at each.

ghost use Rattle.std.specs.Prelude.{◌≡◌, ◌≤◌, false, OnOk, IfOk, IsTrue, None, filter, [], ◌∷◌};
ghost use Rattle.sqlite.specs.Held.{state};
ghost use Rattle.sqlite.specs.State.{HasCleanDisk, Survives, KeepsCommit};
ghost use Rattle.sqlite.specs.declared.types.Value.TheVariants.{Int, Text};
ghost use Rattle.sqlite_trees.specs.Tree.{Trees};
ghost use Rattle.sqlite_trees.specs.View.{doubt};
ghost use Rattle.sqlite_value.specs.Order.{column};
ghost use Rattle.sql_rows.specs.Schema.{billing};
ghost use Rattle.sql_rows.specs.Tables.{has_key, IsRising, IsCut, Puts, Adds, Edits, Stays, AreInOrder, pair_key};
ghost use Rattle.sql_rows.specs.Tables.{text_key};
ghost use Rattle.sql_rows.specs.Tables.{by_text, by_pair};

use crate::statements::{int, read, text, write};
use sqlite::{Alter, Connection, Error, Row, Transaction};

/// Sets the numbers of an account.
pub fn put_account<S: Alter>(
    tx: &mut Transaction<'_, S>,
    key: &str,
    limit_now: i64,
    billed: i64,
    held: i64,
) -> Result<usize, Error>
    requires schema { HasCleanDisk (state S.Store tx.old.conn.now)
        → (state S.Store tx.old.conn.now).now.schema ≡ billing }
    requires rising { HasCleanDisk (state S.Store tx.old.conn.now)
        → IsRising ((state S.Store tx.old.conn.now).now.trees 9) }
    requires inside { HasCleanDisk (state S.Store tx.old.conn.now)
        → IsTrue (state S.Store tx.old.conn.now).in_transaction }
    ensures same_reference { tx.new.conn.ghost_name ≡ tx.old.conn.ghost_name }
    ensures ok { HasCleanDisk (state S.Store tx.new.conn.now) → OnOk result (Edits 9
        (Puts (text_key key.now)
        (Text key.now ∷ Int limit_now ∷ Int billed ∷ Int held ∷ []))
        (state S.Store tx.old.conn.now) (state S.Store tx.new.conn.now)) }
    ensures kept { HasCleanDisk (state S.Store tx.new.conn.now)
        → KeepsCommit (state S.Store tx.old.conn.now) (state S.Store tx.new.conn.now) }
    ensures survives { Survives (state S.Store tx.old.conn.now) (state S.Store tx.new.conn.now) (λ _. ⊥) }
{
    // REPLACE: the caller needn't know whether there is a row. It deletes and inserts; a trial that wrote in place
    // was faster, and isn't proved.
    write(
        tx,
        "INSERT OR REPLACE INTO accounts (key, limit_now, billed, held) VALUES (?1, ?2, ?3, ?4)",
        &[text(key), int(limit_now), int(billed), int(held)],
    )
}

/// Takes an account away; refused, while it has lines.
pub fn take_account<S: Alter>(tx: &mut Transaction<'_, S>, key: &str) -> Result<usize, Error>
    requires schema { HasCleanDisk (state S.Store tx.old.conn.now)
        → (state S.Store tx.old.conn.now).now.schema ≡ billing }
    requires rising { HasCleanDisk (state S.Store tx.old.conn.now)
        → IsRising ((state S.Store tx.old.conn.now).now.trees 9) }
    requires inside { HasCleanDisk (state S.Store tx.old.conn.now)
        → IsTrue (state S.Store tx.old.conn.now).in_transaction }
    ensures same_reference { tx.new.conn.ghost_name ≡ tx.old.conn.ghost_name }
    ensures ok { HasCleanDisk (state S.Store tx.new.conn.now) → OnOk result (Edits 9
        (IsCut (has_key (text_key key.now)))
        (state S.Store tx.old.conn.now) (state S.Store tx.new.conn.now)) }
    ensures kept { HasCleanDisk (state S.Store tx.new.conn.now)
        → KeepsCommit (state S.Store tx.old.conn.now) (state S.Store tx.new.conn.now) }
    ensures survives { Survives (state S.Store tx.old.conn.now) (state S.Store tx.new.conn.now) (λ _. ⊥) }
{
    // The lines refer to this row: the caller takes them first.
    write(tx, "DELETE FROM accounts WHERE key = ?1", &[text(key)])
}

/// Adds the line of an order; refused, where the account has one of it.
pub fn add_account_line<S: Alter>(
    tx: &mut Transaction<'_, S>,
    account: &str,
    order: &str,
    n: i64,
    phase: &str,
) -> Result<usize, Error>
    requires schema { HasCleanDisk (state S.Store tx.old.conn.now)
        → (state S.Store tx.old.conn.now).now.schema ≡ billing }
    requires rising { HasCleanDisk (state S.Store tx.old.conn.now)
        → IsRising ((state S.Store tx.old.conn.now).now.trees 11) }
    requires inside { HasCleanDisk (state S.Store tx.old.conn.now)
        → IsTrue (state S.Store tx.old.conn.now).in_transaction }
    ensures same_reference { tx.new.conn.ghost_name ≡ tx.old.conn.ghost_name }
    ensures ok { HasCleanDisk (state S.Store tx.new.conn.now) → OnOk result (Edits 11
        (Adds (Text account.now ∷ Text order.now ∷ Int n ∷ Text phase.now ∷ []))
        (state S.Store tx.old.conn.now) (state S.Store tx.new.conn.now)) }
    ensures kept { HasCleanDisk (state S.Store tx.new.conn.now)
        → KeepsCommit (state S.Store tx.old.conn.now) (state S.Store tx.new.conn.now) }
    ensures survives { Survives (state S.Store tx.old.conn.now) (state S.Store tx.new.conn.now) (λ _. ⊥) }
{
    // No REPLACE: all lines were taken before, so one that is there is a fault.
    write(
        tx,
        "INSERT INTO account_lines (account, order_key, n, phase) VALUES (?1, ?2, ?3, ?4)",
        &[text(account), text(order), int(n), text(phase)],
    )
}

/// Sets the line of an order.
pub fn put_account_line<S: Alter>(
    tx: &mut Transaction<'_, S>,
    account: &str,
    order: &str,
    n: i64,
    phase: &str,
) -> Result<usize, Error>
    requires schema { HasCleanDisk (state S.Store tx.old.conn.now)
        → (state S.Store tx.old.conn.now).now.schema ≡ billing }
    requires rising { HasCleanDisk (state S.Store tx.old.conn.now)
        → IsRising ((state S.Store tx.old.conn.now).now.trees 11) }
    requires inside { HasCleanDisk (state S.Store tx.old.conn.now)
        → IsTrue (state S.Store tx.old.conn.now).in_transaction }
    ensures same_reference { tx.new.conn.ghost_name ≡ tx.old.conn.ghost_name }
    ensures ok { HasCleanDisk (state S.Store tx.new.conn.now) → OnOk result (Edits 11
        (Puts (pair_key account.now order.now) (Text account.now ∷ Text order.now ∷ Int n ∷ Text phase.now ∷ []))
        (state S.Store tx.old.conn.now) (state S.Store tx.new.conn.now)) }
    ensures kept { HasCleanDisk (state S.Store tx.new.conn.now)
        → KeepsCommit (state S.Store tx.old.conn.now) (state S.Store tx.new.conn.now) }
    ensures survives { Survives (state S.Store tx.old.conn.now) (state S.Store tx.new.conn.now) (λ _. ⊥) }
{
    // A step writes this line alone, however many the account has.
    write(
        tx,
        "INSERT OR REPLACE INTO account_lines (account, order_key, n, phase) \
         VALUES (?1, ?2, ?3, ?4)",
        &[text(account), text(order), int(n), text(phase)],
    )
}

/// Takes the line of an order away.
pub fn take_account_line<S: Alter>(
    tx: &mut Transaction<'_, S>,
    account: &str,
    order: &str,
) -> Result<usize, Error>
    requires schema { HasCleanDisk (state S.Store tx.old.conn.now)
        → (state S.Store tx.old.conn.now).now.schema ≡ billing }
    requires rising { HasCleanDisk (state S.Store tx.old.conn.now)
        → IsRising ((state S.Store tx.old.conn.now).now.trees 11) }
    requires inside { HasCleanDisk (state S.Store tx.old.conn.now)
        → IsTrue (state S.Store tx.old.conn.now).in_transaction }
    ensures same_reference { tx.new.conn.ghost_name ≡ tx.old.conn.ghost_name }
    ensures ok { HasCleanDisk (state S.Store tx.new.conn.now) → OnOk result (Edits 11
        (IsCut (has_key (pair_key account.now order.now)))
        (state S.Store tx.old.conn.now) (state S.Store tx.new.conn.now)) }
    ensures kept { HasCleanDisk (state S.Store tx.new.conn.now)
        → KeepsCommit (state S.Store tx.old.conn.now) (state S.Store tx.new.conn.now) }
    ensures survives { Survives (state S.Store tx.old.conn.now) (state S.Store tx.new.conn.now) (λ _. ⊥) }
{
    write(
        tx,
        "DELETE FROM account_lines WHERE account = ?1 AND order_key = ?2",
        &[text(account), text(order)],
    )
}

/// Takes the lines of an account away.
pub fn take_account_lines<S: Alter>(
    tx: &mut Transaction<'_, S>,
    account: &str,
) -> Result<usize, Error>
    requires schema { HasCleanDisk (state S.Store tx.old.conn.now)
        → (state S.Store tx.old.conn.now).now.schema ≡ billing }
    requires rising { HasCleanDisk (state S.Store tx.old.conn.now)
        → IsRising ((state S.Store tx.old.conn.now).now.trees 11) }
    requires inside { HasCleanDisk (state S.Store tx.old.conn.now)
        → IsTrue (state S.Store tx.old.conn.now).in_transaction }
    ensures same_reference { tx.new.conn.ghost_name ≡ tx.old.conn.ghost_name }
    ensures ok { HasCleanDisk (state S.Store tx.new.conn.now) → OnOk result (Edits 11
        (IsCut (has_key (text_key account.now)))
        (state S.Store tx.old.conn.now) (state S.Store tx.new.conn.now)) }
    ensures kept { HasCleanDisk (state S.Store tx.new.conn.now)
        → KeepsCommit (state S.Store tx.old.conn.now) (state S.Store tx.new.conn.now) }
    ensures survives { Survives (state S.Store tx.old.conn.now) (state S.Store tx.new.conn.now) (λ _. ⊥) }
{
    write(
        tx,
        "DELETE FROM account_lines WHERE account = ?1",
        &[text(account)],
    )
}

/// The numbers of an account; no row, where there is none.
pub fn read_account<S: Alter>(conn: &mut Connection<S>, key: &str) -> Result<Vec<Row>, Error>
    requires schema { HasCleanDisk (state S.Store conn.old) → (state S.Store conn.old).now.schema ≡ billing }
    requires settled { HasCleanDisk (state S.Store conn.old)
        → (state S.Store conn.old).now ≡ (state S.Store conn.old).committed }
    requires autocommit { conn.old.in_transaction ≡ false }
    ensures rows { HasCleanDisk (state S.Store conn.new) → IfOk result (λ rows.
        AreInOrder by_text None (λ x. column x 2 ∷ column x 3 ∷ column x 4 ∷ [])
        (filter (has_key (text_key key.now)) ((state S.Store conn.old).now.trees 9)) rows.items) }
    ensures autocommit { conn.new.in_transaction ≡ false }
    ensures open { HasCleanDisk (state S.Store conn.new) → OnOk result (IsTrue (state S.Store conn.new).is_open) }
    ensures stays { HasCleanDisk (state S.Store conn.new) → Stays (state S.Store conn.old) (state S.Store conn.new) }
    ensures clean { doubt (state S.Store conn.old).is_clean ≤ doubt (state S.Store conn.new).is_clean }
    ensures crash { HasCleanDisk (state S.Store conn.new) → (db : Trees)
        → (state S.Store conn.new).may_leave db → (state S.Store conn.old).may_leave db }
{
    // ORDER BY even for one row: SQL promises no order without it, and the contract lists rows in one.
    read(
        conn,
        "SELECT limit_now, billed, held FROM accounts WHERE key = ?1 ORDER BY key",
        &[text(key)],
    )
}

/// The lines of an account.
pub fn read_account_lines<S: Alter>(
    conn: &mut Connection<S>,
    account: &str,
) -> Result<Vec<Row>, Error>
    requires schema { HasCleanDisk (state S.Store conn.old) → (state S.Store conn.old).now.schema ≡ billing }
    requires settled { HasCleanDisk (state S.Store conn.old)
        → (state S.Store conn.old).now ≡ (state S.Store conn.old).committed }
    requires autocommit { conn.old.in_transaction ≡ false }
    ensures rows { HasCleanDisk (state S.Store conn.new) → IfOk result (λ rows.
        AreInOrder by_pair None (λ x. column x 2 ∷ column x 3 ∷ column x 4 ∷ [])
        (filter (has_key (text_key account.now)) ((state S.Store conn.old).now.trees 11)) rows.items) }
    ensures autocommit { conn.new.in_transaction ≡ false }
    ensures open { HasCleanDisk (state S.Store conn.new) → OnOk result (IsTrue (state S.Store conn.new).is_open) }
    ensures stays { HasCleanDisk (state S.Store conn.new) → Stays (state S.Store conn.old) (state S.Store conn.new) }
    ensures clean { doubt (state S.Store conn.old).is_clean ≤ doubt (state S.Store conn.new).is_clean }
    ensures crash { HasCleanDisk (state S.Store conn.new) → (db : Trees)
        → (state S.Store conn.new).may_leave db → (state S.Store conn.old).may_leave db }
{
    // In order of the orders' keys, as a state has its lines.
    read(
        conn,
        "SELECT order_key, n, phase FROM account_lines WHERE account = ?1 \
         ORDER BY account, order_key",
        &[text(account)],
    )
}
