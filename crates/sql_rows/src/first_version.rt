//! The tables of version 1: whether a connection has them, and what they hold.

ghost use Rattle.std.specs.Prelude.{◌≡◌, ◌≤◌, false, OnOk, IfOk, IsTrue, None, [], ◌∷◌, ◌++◌};
ghost use Rattle.sqlite.specs.Held.{state};
ghost use Rattle.sqlite.specs.State.{HasCleanDisk, IsUnchanged, KeepsCommit, Survives};
ghost use Rattle.sqlite_trees.specs.Tree.{Trees};
ghost use Rattle.sqlite_trees.specs.View.{doubt};
ghost use Rattle.sqlite_value.specs.Order.{column};
ghost use Rattle.sql_rows.specs.FirstVersion.{first_about_tree, first_purchasing, first_schema_of, orders};
ghost use Rattle.sql_rows.specs.Schema.{AreMade, IsUnderWay, Makes, about, common_tables, no_tables};
ghost use Rattle.sql_rows.specs.Tables.{AreInOrder, Stays, by_position, by_text};

use crate::common_tables::create_common;
use crate::same::same_schema;
use crate::schemas::has_tables;
use crate::service::Service;
use crate::statements::{read, read_inside, write};
use sqlite::{Alter, Connection, Error, Row, Transaction};
use std::alloc::Global;

/// Makes the table of orders that version 1 had.
fn create_first_orders<S: Alter>(tx: &mut Transaction<'_, S>) -> Result<usize, Error>
    requires made { HasCleanDisk (state S.Store tx.old.conn.now)
        → AreMade common_tables (state S.Store tx.old.conn.now).now }
    requires inside { HasCleanDisk (state S.Store tx.old.conn.now)
        → IsTrue (state S.Store tx.old.conn.now).in_transaction }
    ensures same_reference { tx.new.conn.ghost_name ≡ tx.old.conn.ghost_name }
    ensures ok { HasCleanDisk (state S.Store tx.new.conn.now)
        → OnOk result (Makes (common_tables ++ orders ∷ [])
        (state S.Store tx.old.conn.now) (state S.Store tx.new.conn.now)) }
    ensures on { IsUnderWay (state S.Store tx.old.conn.now) (state S.Store tx.new.conn.now) }
{
    // Version 1 had one stock for each order, so its orders are one table.
    write(
        tx,
        "CREATE TABLE orders (key TEXT NOT NULL, stock TEXT NOT NULL, n INTEGER NOT NULL, \
         account TEXT NOT NULL, amount INTEGER NOT NULL, status TEXT NOT NULL, \
         stock_phase TEXT NOT NULL, account_phase TEXT NOT NULL, PRIMARY KEY (key)) STRICT",
        &[],
    )
}

/// Makes the table that says whose tables they are, after that of orders.
fn create_first_about<S: Alter>(tx: &mut Transaction<'_, S>) -> Result<usize, Error>
    requires made { HasCleanDisk (state S.Store tx.old.conn.now)
        → AreMade (common_tables ++ orders ∷ []) (state S.Store tx.old.conn.now).now }
    requires inside { HasCleanDisk (state S.Store tx.old.conn.now)
        → IsTrue (state S.Store tx.old.conn.now).in_transaction }
    ensures same_reference { tx.new.conn.ghost_name ≡ tx.old.conn.ghost_name }
    ensures ok { HasCleanDisk (state S.Store tx.new.conn.now)
        → OnOk result (Makes (common_tables ++ orders ∷ about 11 ∷ [])
        (state S.Store tx.old.conn.now) (state S.Store tx.new.conn.now)) }
    ensures on { IsUnderWay (state S.Store tx.old.conn.now) (state S.Store tx.new.conn.now) }
{
    write(
        tx,
        "CREATE TABLE about (one INTEGER PRIMARY KEY CHECK (one = 1), version INTEGER NOT NULL, \
         service TEXT NOT NULL) STRICT",
        &[],
    )
}

/// Makes the tables that purchasing had in version 1.
#[tactic(auto, using(crate::proofs::Creates::then_makes, crate::proofs::Creates::then_goes_on))]
fn create_first<S: Alter>(tx: &mut Transaction<'_, S>) -> Result<usize, Error>
    requires made { HasCleanDisk (state S.Store tx.old.conn.now) → AreMade [] (state S.Store tx.old.conn.now).now }
    requires inside { HasCleanDisk (state S.Store tx.old.conn.now)
        → IsTrue (state S.Store tx.old.conn.now).in_transaction }
    ensures same_reference { tx.new.conn.ghost_name ≡ tx.old.conn.ghost_name }
    ensures ok { HasCleanDisk (state S.Store tx.new.conn.now)
        → OnOk result (Makes (common_tables ++ orders ∷ about 11 ∷ [])
        (state S.Store tx.old.conn.now) (state S.Store tx.new.conn.now)) }
    ensures on { IsUnderWay (state S.Store tx.old.conn.now) (state S.Store tx.new.conn.now) }
{
    // The common tables are those of today: only `orders` was another.
    create_common(tx)?;
    create_first_orders(tx)?;
    create_first_about(tx)
}

/// Makes the tables that purchasing had in version 1, and commits them.
fn make_first_tables<S: Alter>(conn: &mut Connection<S>) -> Result<(), Error>
    requires none { HasCleanDisk (state S.Store conn.old) → (state S.Store conn.old).now.schema ≡ no_tables }
    requires autocommit { conn.old.in_transaction ≡ false }
    ensures ok { HasCleanDisk (state S.Store conn.new)
        → OnOk result ((state S.Store conn.new).now.schema ≡ first_purchasing) }
{
    let mut tx = conn.transaction();
    create_first(&mut tx)?;
    tx.commit()
}

/// Whether the tables are those of purchasing in version 1.
fn has_first_purchasing<S: Alter>(alloc: Global, conn: &Connection<S>) -> Result<bool, Error>
    ensures { IfOk result (λ has. IsTrue has → (state S.Store conn.now).now.schema ≡ first_purchasing) }
{
    // The tables are made in memory and compared: so no second text says what they have to be.
    let mut made = Connection::open_in_memory(alloc)?;
    make_first_tables(&mut made)?;
    Ok(same_schema(conn.schema(), made.schema()))
}

/// Whether the tables are those of this service in version 1, each with the name, columns, keys and rules that it was
/// made with. Those of a warehouse and of billing are as they were.
pub fn has_first_tables<S: Alter>(
    alloc: Global,
    conn: &Connection<S>,
    service: Service,
) -> Result<bool, Error>
    ensures { IfOk result (λ has. IsTrue has → (state S.Store conn.now).now.schema ≡ first_schema_of service) }
{
    match service {
        Service::Purchasing => has_first_purchasing(alloc, conn),
        Service::Warehouse => has_tables(alloc, conn, Service::Warehouse),
        Service::Billing => has_tables(alloc, conn, Service::Billing),
    }
}

/// The version of the tables and the name of their service, of a file of version 1.
pub fn read_first_about<S: Alter>(
    conn: &mut Connection<S>,
    service: Service,
) -> Result<Vec<Row>, Error>
    requires schema { HasCleanDisk (state S.Store conn.old)
        → (state S.Store conn.old).now.schema ≡ first_schema_of service }
    requires settled { HasCleanDisk (state S.Store conn.old)
        → (state S.Store conn.old).now ≡ (state S.Store conn.old).committed }
    requires autocommit { conn.old.in_transaction ≡ false }
    ensures rows { HasCleanDisk (state S.Store conn.new) → IfOk result (λ rows.
        AreInOrder by_position None (λ x. column x 2 ∷ column x 3 ∷ [])
        ((state S.Store conn.old).now.trees (first_about_tree service)) rows.items) }
    ensures autocommit { conn.new.in_transaction ≡ false }
    ensures open { HasCleanDisk (state S.Store conn.new) → OnOk result (IsTrue (state S.Store conn.new).is_open) }
    ensures stays { HasCleanDisk (state S.Store conn.new) → Stays (state S.Store conn.old) (state S.Store conn.new) }
    ensures clean { doubt (state S.Store conn.old).is_clean ≤ doubt (state S.Store conn.new).is_clean }
    ensures crash { HasCleanDisk (state S.Store conn.new) → (db : Trees)
        → (state S.Store conn.new).may_leave db → (state S.Store conn.old).may_leave db }
{
    read(conn, "SELECT version, service FROM about ORDER BY one", &[])
}

/// All orders of version 1, as the transaction sees them.
pub fn read_first_orders_inside<S: Alter>(tx: &mut Transaction<'_, S>) -> Result<Vec<Row>, Error>
    requires schema { HasCleanDisk (state S.Store tx.old.conn.now)
        → (state S.Store tx.old.conn.now).now.schema ≡ first_purchasing }
    ensures same_reference { tx.new.conn.ghost_name ≡ tx.old.conn.ghost_name }
    ensures rows { HasCleanDisk (state S.Store tx.new.conn.now) → IfOk result (λ rows.
        AreInOrder by_text None (λ x. column x 1 ∷ column x 2 ∷ column x 3 ∷ column x 4 ∷ column x 5
        ∷ column x 6 ∷ column x 7 ∷ column x 8 ∷ []) ((state S.Store tx.old.conn.now).now.trees 9) rows.items) }
    ensures ok { HasCleanDisk (state S.Store tx.new.conn.now)
        → OnOk result (IsUnchanged (state S.Store tx.old.conn.now) (state S.Store tx.new.conn.now)) }
    ensures kept { HasCleanDisk (state S.Store tx.new.conn.now)
        → KeepsCommit (state S.Store tx.old.conn.now) (state S.Store tx.new.conn.now) }
    ensures survives { Survives (state S.Store tx.old.conn.now) (state S.Store tx.new.conn.now) (λ _. ⊥) }
{
    // Inside the transaction that replaces the table: what is read is what is dropped.
    read_inside(
        tx,
        "SELECT key, stock, n, account, amount, status, stock_phase, account_phase FROM orders \
         ORDER BY key",
        &[],
    )
}
