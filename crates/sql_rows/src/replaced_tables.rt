//! The tables of version 2 in place of those of version 1. Only purchasing's differ.

ghost use Rattle.std.specs.Prelude.{◌≡◌, OnOk, IsTrue, true, [], ◌∷◌, ◌++◌, pos};
ghost use Rattle.sqlite.specs.Held.{state};
ghost use Rattle.sqlite.specs.State.{HasCleanDisk, KeepsCommit, Survives};
ghost use Rattle.sqlite.specs.declared.types.Value.TheVariants.{Int, Null, Text};
ghost use Rattle.sql_rows.specs.FirstVersion.{IsReplaced, IsTold, Rebuilds, first_purchasing, orders};
ghost use Rattle.sql_rows.specs.Schema.{IsUnderWay, about, about_tree, common_tables, name_of, order_heads};
ghost use Rattle.sql_rows.specs.Schema.{order_lines, schema_of, schema_with};
ghost use Rattle.sql_rows.specs.Tables.{Adds, Edits, IsCut, IsRising};

use crate::service::Service;
use crate::statements::{text, write};
use sqlite::{Alter, Error, Transaction};

/// Drops the table that tells whose tables they are.
fn drop_about<S: Alter>(tx: &mut Transaction<'_, S>) -> Result<usize, Error>
    requires schema { HasCleanDisk (state S.Store tx.old.conn.now)
        → (state S.Store tx.old.conn.now).now.schema ≡ first_purchasing }
    requires inside { HasCleanDisk (state S.Store tx.old.conn.now)
        → IsTrue (state S.Store tx.old.conn.now).in_transaction }
    ensures same_reference { tx.new.conn.ghost_name ≡ tx.old.conn.ghost_name }
    ensures ok { HasCleanDisk (state S.Store tx.new.conn.now)
        → OnOk result (Rebuilds (common_tables ++ orders ∷ []) []
        (state S.Store tx.old.conn.now) (state S.Store tx.new.conn.now)) }
    ensures on { IsUnderWay (state S.Store tx.old.conn.now) (state S.Store tx.new.conn.now) }
{
    write(tx, "DROP TABLE about", &[])
}

/// Drops the orders.
fn drop_orders<S: Alter>(tx: &mut Transaction<'_, S>) -> Result<usize, Error>
    requires schema { HasCleanDisk (state S.Store tx.old.conn.now)
        → (state S.Store tx.old.conn.now).now.schema ≡ schema_with (common_tables ++ orders ∷ []) }
    requires inside { HasCleanDisk (state S.Store tx.old.conn.now)
        → IsTrue (state S.Store tx.old.conn.now).in_transaction }
    ensures same_reference { tx.new.conn.ghost_name ≡ tx.old.conn.ghost_name }
    ensures ok { HasCleanDisk (state S.Store tx.new.conn.now)
        → OnOk result (Rebuilds common_tables []
        (state S.Store tx.old.conn.now) (state S.Store tx.new.conn.now)) }
    ensures on { IsUnderWay (state S.Store tx.old.conn.now) (state S.Store tx.new.conn.now) }
{
    write(tx, "DROP TABLE orders", &[])
}

/// Makes the table of the heads of orders, after tables that have rows.
fn rebuild_order_heads<S: Alter>(tx: &mut Transaction<'_, S>) -> Result<usize, Error>
    requires schema { HasCleanDisk (state S.Store tx.old.conn.now)
        → (state S.Store tx.old.conn.now).now.schema ≡ schema_with common_tables }
    requires inside { HasCleanDisk (state S.Store tx.old.conn.now)
        → IsTrue (state S.Store tx.old.conn.now).in_transaction }
    ensures same_reference { tx.new.conn.ghost_name ≡ tx.old.conn.ghost_name }
    ensures ok { HasCleanDisk (state S.Store tx.new.conn.now)
        → OnOk result (Rebuilds common_tables (order_heads ∷ [])
        (state S.Store tx.old.conn.now) (state S.Store tx.new.conn.now)) }
    ensures on { IsUnderWay (state S.Store tx.old.conn.now) (state S.Store tx.new.conn.now) }
{
    // The text is that of `create_order_heads`, whose contract is for tables without rows.
    write(
        tx,
        "CREATE TABLE order_heads (key TEXT NOT NULL, account TEXT NOT NULL, \
         amount INTEGER NOT NULL, status TEXT NOT NULL, account_phase TEXT NOT NULL, \
         PRIMARY KEY (key)) STRICT",
        &[],
    )
}

/// Makes the table of the lines of orders, after that of their heads.
fn rebuild_order_lines<S: Alter>(tx: &mut Transaction<'_, S>) -> Result<usize, Error>
    requires schema { HasCleanDisk (state S.Store tx.old.conn.now)
        → (state S.Store tx.old.conn.now).now.schema ≡ schema_with (common_tables ++ order_heads ∷ []) }
    requires inside { HasCleanDisk (state S.Store tx.old.conn.now)
        → IsTrue (state S.Store tx.old.conn.now).in_transaction }
    ensures same_reference { tx.new.conn.ghost_name ≡ tx.old.conn.ghost_name }
    ensures ok { HasCleanDisk (state S.Store tx.new.conn.now)
        → OnOk result (Rebuilds (common_tables ++ order_heads ∷ []) (order_lines ∷ [])
        (state S.Store tx.old.conn.now) (state S.Store tx.new.conn.now)) }
    ensures on { IsUnderWay (state S.Store tx.old.conn.now) (state S.Store tx.new.conn.now) }
{
    write(
        tx,
        "CREATE TABLE order_lines (order_key TEXT NOT NULL REFERENCES order_heads (key), \
         line INTEGER NOT NULL CHECK (line >= 1 AND line <= 8), stock TEXT NOT NULL, \
         n INTEGER NOT NULL, phase TEXT NOT NULL, PRIMARY KEY (order_key, line), \
         UNIQUE (order_key, stock)) STRICT",
        &[],
    )
}

/// Makes the table that says whose tables they are, after those of orders.
fn rebuild_about<S: Alter>(tx: &mut Transaction<'_, S>) -> Result<usize, Error>
    requires schema { HasCleanDisk (state S.Store tx.old.conn.now)
        → (state S.Store tx.old.conn.now).now.schema ≡ schema_with (common_tables ++ order_heads ∷ order_lines ∷ []) }
    requires inside { HasCleanDisk (state S.Store tx.old.conn.now)
        → IsTrue (state S.Store tx.old.conn.now).in_transaction }
    ensures same_reference { tx.new.conn.ghost_name ≡ tx.old.conn.ghost_name }
    ensures ok { HasCleanDisk (state S.Store tx.new.conn.now)
        → OnOk result (Rebuilds (common_tables ++ order_heads ∷ order_lines ∷ []) (about 14 ∷ [])
        (state S.Store tx.old.conn.now) (state S.Store tx.new.conn.now)) }
    ensures on { IsUnderWay (state S.Store tx.old.conn.now) (state S.Store tx.new.conn.now) }
{
    write(
        tx,
        "CREATE TABLE about (one INTEGER PRIMARY KEY CHECK (one = 1), version INTEGER NOT NULL, \
         service TEXT NOT NULL) STRICT",
        &[],
    )
}

/// Tells whose tables they are, in version 2.
fn tell_version<S: Alter>(tx: &mut Transaction<'_, S>, service: Service) -> Result<usize, Error>
    requires schema { HasCleanDisk (state S.Store tx.old.conn.now)
        → (state S.Store tx.old.conn.now).now.schema ≡ schema_of service }
    requires rising { HasCleanDisk (state S.Store tx.old.conn.now)
        → IsRising ((state S.Store tx.old.conn.now).now.trees (about_tree service)) }
    requires inside { HasCleanDisk (state S.Store tx.old.conn.now)
        → IsTrue (state S.Store tx.old.conn.now).in_transaction }
    ensures same_reference { tx.new.conn.ghost_name ≡ tx.old.conn.ghost_name }
    ensures ok { HasCleanDisk (state S.Store tx.new.conn.now)
        → OnOk result (Edits (about_tree service)
        (Adds (Null ∷ Int (pos 2) ∷ Text (name_of service) ∷ []))
        (state S.Store tx.old.conn.now) (state S.Store tx.new.conn.now)) }
    ensures on { IsUnderWay (state S.Store tx.old.conn.now) (state S.Store tx.new.conn.now) }
{
    write(
        tx,
        "INSERT INTO about (version, service) VALUES (2, ?1)",
        &[text(service.name())],
    )
}

/// Forgets whose tables they are.
fn forget_version<S: Alter>(tx: &mut Transaction<'_, S>, _service: Service) -> Result<usize, Error>
    requires schema { HasCleanDisk (state S.Store tx.old.conn.now)
        → (state S.Store tx.old.conn.now).now.schema ≡ schema_of _service }
    requires rising { HasCleanDisk (state S.Store tx.old.conn.now)
        → IsRising ((state S.Store tx.old.conn.now).now.trees (about_tree _service)) }
    requires inside { HasCleanDisk (state S.Store tx.old.conn.now)
        → IsTrue (state S.Store tx.old.conn.now).in_transaction }
    ensures same_reference { tx.new.conn.ghost_name ≡ tx.old.conn.ghost_name }
    ensures ok { HasCleanDisk (state S.Store tx.new.conn.now)
        → OnOk result (Edits (about_tree _service) (IsCut (λ _. true))
        (state S.Store tx.old.conn.now) (state S.Store tx.new.conn.now)) }
    ensures on { IsUnderWay (state S.Store tx.old.conn.now) (state S.Store tx.new.conn.now) }
{
    write(tx, "DELETE FROM about", &[])
}

/// Drops both tables that version 1 had of its own.
#[tactic(auto, using(crate::proofs::Creates::then_goes_on, crate::proofs::FirstVersionTables::then_drops))]
fn drop_first<S: Alter>(tx: &mut Transaction<'_, S>) -> Result<usize, Error>
    requires schema { HasCleanDisk (state S.Store tx.old.conn.now)
        → (state S.Store tx.old.conn.now).now.schema ≡ first_purchasing }
    requires inside { HasCleanDisk (state S.Store tx.old.conn.now)
        → IsTrue (state S.Store tx.old.conn.now).in_transaction }
    ensures same_reference { tx.new.conn.ghost_name ≡ tx.old.conn.ghost_name }
    ensures ok { HasCleanDisk (state S.Store tx.new.conn.now)
        → OnOk result (Rebuilds common_tables []
        (state S.Store tx.old.conn.now) (state S.Store tx.new.conn.now)) }
    ensures on { IsUnderWay (state S.Store tx.old.conn.now) (state S.Store tx.new.conn.now) }
{
    // `about` is made again too: schemas are compared table by table, and it has to be the last.
    drop_about(tx)?;
    drop_orders(tx)
}

/// Makes the three tables that version 2 has in place of the two of version 1.
#[tactic(auto, using(crate::proofs::FirstVersionTables::making))]
fn rebuild<S: Alter>(tx: &mut Transaction<'_, S>) -> Result<usize, Error>
    requires schema { HasCleanDisk (state S.Store tx.old.conn.now)
        → (state S.Store tx.old.conn.now).now.schema ≡ schema_with common_tables }
    requires inside { HasCleanDisk (state S.Store tx.old.conn.now)
        → IsTrue (state S.Store tx.old.conn.now).in_transaction }
    ensures same_reference { tx.new.conn.ghost_name ≡ tx.old.conn.ghost_name }
    ensures ok { HasCleanDisk (state S.Store tx.new.conn.now)
        → OnOk result (Rebuilds common_tables (order_heads ∷ order_lines ∷ about 14 ∷ [])
        (state S.Store tx.old.conn.now) (state S.Store tx.new.conn.now)) }
    ensures on { IsUnderWay (state S.Store tx.old.conn.now) (state S.Store tx.new.conn.now) }
{
    // In the order in which a new file gets them: a schema is compared with a new one, table by table.
    rebuild_order_heads(tx)?;
    rebuild_order_lines(tx)?;
    rebuild_about(tx)
}

/// Puts the tables of purchasing in place of those of version 1, with no order; what the others have is as it was. The
/// orders of version 1 are gone after it: they have to be read before.
#[tactic(auto, using(crate::proofs::FirstVersionTables::replacing))]
pub fn replace_tables<S: Alter>(tx: &mut Transaction<'_, S>) -> Result<usize, Error>
    requires schema { HasCleanDisk (state S.Store tx.old.conn.now)
        → (state S.Store tx.old.conn.now).now.schema ≡ first_purchasing }
    requires inside { HasCleanDisk (state S.Store tx.old.conn.now)
        → IsTrue (state S.Store tx.old.conn.now).in_transaction }
    ensures same_reference { tx.new.conn.ghost_name ≡ tx.old.conn.ghost_name }
    ensures ok { HasCleanDisk (state S.Store tx.new.conn.now)
        → OnOk result (IsReplaced (state S.Store tx.old.conn.now) (state S.Store tx.new.conn.now)) }
    ensures kept { HasCleanDisk (state S.Store tx.new.conn.now)
        → KeepsCommit (state S.Store tx.old.conn.now) (state S.Store tx.new.conn.now) }
    ensures survives { Survives (state S.Store tx.old.conn.now) (state S.Store tx.new.conn.now) (λ _. ⊥) }
{
    drop_first(tx)?;
    rebuild(tx)?;
    tell_version(tx, Service::Purchasing)
}

/// Tells, in place of what the table `about` told, that they are the tables of this service in version 2.
#[tactic(auto, using(crate::proofs::Creates::then_goes_on))]
pub fn set_version<S: Alter>(tx: &mut Transaction<'_, S>, service: Service) -> Result<usize, Error>
    requires schema { HasCleanDisk (state S.Store tx.old.conn.now)
        → (state S.Store tx.old.conn.now).now.schema ≡ schema_of service }
    requires rising { HasCleanDisk (state S.Store tx.old.conn.now)
        → IsRising ((state S.Store tx.old.conn.now).now.trees (about_tree service)) }
    requires inside { HasCleanDisk (state S.Store tx.old.conn.now)
        → IsTrue (state S.Store tx.old.conn.now).in_transaction }
    ensures same_reference { tx.new.conn.ghost_name ≡ tx.old.conn.ghost_name }
    ensures ok { HasCleanDisk (state S.Store tx.new.conn.now)
        → OnOk result (Edits (about_tree service) (IsTold service)
        (state S.Store tx.old.conn.now) (state S.Store tx.new.conn.now)) }
    ensures kept { HasCleanDisk (state S.Store tx.new.conn.now)
        → KeepsCommit (state S.Store tx.old.conn.now) (state S.Store tx.new.conn.now) }
    ensures survives { Survives (state S.Store tx.old.conn.now) (state S.Store tx.new.conn.now) (λ _. ⊥) }
{
    // Deleted and inserted, as `about` takes no second row.
    forget_version(tx, service)?;
    tell_version(tx, service)
}
