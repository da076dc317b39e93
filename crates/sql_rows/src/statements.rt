//! One statement of a text that is plain: it reads no time, and shows no rows of a write.

ghost use Rattle.std.specs.Prelude.{◌≡◌, ◌≤◌, false, OnOk, IfOk, IsTrue};
ghost use Rattle.sqlite_trees.specs.Tree.{Trees};
ghost use Rattle.sqlite_trees.specs.View.{doubt};
ghost use Rattle.sqlite.specs.Given.{IsPlain};
ghost use Rattle.sqlite.specs.Held.{state};
ghost use Rattle.sqlite.specs.Listing.{understood};
ghost use Rattle.sqlite.specs.State.{ExecutesInside, HasCleanDisk, IsUnchanged, KeepsCommit, Shown, Survives};
ghost use Rattle.sqlite.specs.Values.{bound};
ghost use Rattle.sqlite_value.specs.declared.value.Value.TheVariants.{Int, Text};
ghost use Rattle.sqlite_value.specs.Value.{owned};
ghost use Rattle.sql_rows.specs.Tables.{Stays};

use sqlite::types::ValueRef;
use sqlite::{Alter, Connection, Error, Row, Transaction};

/// The text as it is bound.
pub fn text(text: &str) -> ValueRef<'_>
    ensures { owned result ≡ Text text.now }
{
    // Bound and never spliced: whatever a key holds, the statement stays what its proof is about.
    ValueRef::Text(text.as_bytes())
}

/// The number as it is bound.
pub fn int<'a>(number: i64) -> ValueRef<'a>
    ensures { owned result ≡ Int number }
{
    ValueRef::Int(number)
}

/// Makes a write in a transaction.
pub fn write<S: Alter>(
    tx: &mut Transaction<'_, S>,
    sql: &str,
    params: &[ValueRef<'_>],
) -> Result<usize, Error>
    requires inside { HasCleanDisk (state S.Store tx.old.conn.now)
        → IsTrue (state S.Store tx.old.conn.now).in_transaction }
    ensures same_reference { tx.new.conn.ghost_name ≡ tx.old.conn.ghost_name }
    ensures runs { HasCleanDisk (state S.Store tx.new.conn.now)
        → ExecutesInside 0 sql.now (bound params.now) (state S.Store tx.old.conn.now) (state S.Store tx.new.conn.now) result }
    ensures kept { HasCleanDisk (state S.Store tx.new.conn.now)
        → KeepsCommit (state S.Store tx.old.conn.now) (state S.Store tx.new.conn.now) }
    ensures survives { Survives (state S.Store tx.old.conn.now) (state S.Store tx.new.conn.now) (λ _. ⊥) }
{
    // Only passed on, here and below: callers need these clauses, for a text of their own.
    tx.execute(sql, params)
}

/// Gives the rows that a query shows.
pub fn read<S: Alter>(
    conn: &mut Connection<S>,
    sql: &str,
    params: &[ValueRef<'_>],
) -> Result<Vec<Row>, Error>
    requires plain { HasCleanDisk (state S.Store conn.old)
        → IsPlain (understood (state S.Store conn.old).now.schema sql.now) }
    requires settled { HasCleanDisk (state S.Store conn.old)
        → (state S.Store conn.old).now ≡ (state S.Store conn.old).committed }
    requires autocommit { conn.old.in_transaction ≡ false }
    ensures shown { HasCleanDisk (state S.Store conn.new)
        → IfOk result (λ rows. Shown sql.now (bound params.now) (state S.Store conn.old) (state S.Store conn.new) rows.items) }
    ensures autocommit { conn.new.in_transaction ≡ false }
    ensures open { HasCleanDisk (state S.Store conn.new) → OnOk result (IsTrue (state S.Store conn.new).is_open) }
    ensures stays { HasCleanDisk (state S.Store conn.new) → Stays (state S.Store conn.old) (state S.Store conn.new) }
    ensures clean { doubt (state S.Store conn.old).is_clean ≤ doubt (state S.Store conn.new).is_clean }
    ensures crash { HasCleanDisk (state S.Store conn.new)
        → (db : Trees) → (state S.Store conn.new).may_leave db → (state S.Store conn.old).may_leave db }
{
    conn.query_all(sql, params)
}

/// Gives the rows that a query shows in a transaction.
pub fn read_inside<S: Alter>(
    tx: &mut Transaction<'_, S>,
    sql: &str,
    params: &[ValueRef<'_>],
) -> Result<Vec<Row>, Error>
    requires plain { HasCleanDisk (state S.Store tx.old.conn.now)
        → IsPlain (understood (state S.Store tx.old.conn.now).now.schema sql.now) }
    ensures same_reference { tx.new.conn.ghost_name ≡ tx.old.conn.ghost_name }
    ensures shown { HasCleanDisk (state S.Store tx.new.conn.now) → IfOk result (λ rows.
        Shown sql.now (bound params.now) (state S.Store tx.old.conn.now) (state S.Store tx.new.conn.now) rows.items) }
    ensures ok { HasCleanDisk (state S.Store tx.new.conn.now)
        → OnOk result (IsUnchanged (state S.Store tx.old.conn.now) (state S.Store tx.new.conn.now)) }
    ensures kept { HasCleanDisk (state S.Store tx.new.conn.now)
        → KeepsCommit (state S.Store tx.old.conn.now) (state S.Store tx.new.conn.now) }
    ensures survives { Survives (state S.Store tx.old.conn.now) (state S.Store tx.new.conn.now) (λ _. ⊥) }
{
    tx.query_all(sql, params)
}
