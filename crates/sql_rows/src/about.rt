//! Whose tables they are, and in which version; with the tables of a service, as they are made.

ghost use Rattle.std.specs.Prelude.{◌≡◌, ◌≤◌, false, OnOk, IfOk, IsTrue, None, ◌∷◌, ◌++◌, []};
ghost use Rattle.sqlite.specs.Held.{state};
ghost use Rattle.sqlite.specs.State.{HasCleanDisk, KeepsCommit, Survives};
ghost use Rattle.sqlite_trees.specs.Tree.{Trees};
ghost use Rattle.sqlite_trees.specs.View.{doubt};
ghost use Rattle.sqlite_value.specs.Order.{column};
ghost use Rattle.sql_rows.specs.Schema.{AreMade, Founds, IsUnderWay, Makes, about_tree, common_tables, no_tables};
ghost use Rattle.sql_rows.specs.Schema.{own_tables, schema_of, tables_of};
ghost use Rattle.sql_rows.specs.Tables.{AreInOrder, Stays, by_position};

use crate::common_tables::create_common;
use crate::own_tables::create_own;
use crate::service::Service;
use crate::statements::{read, text, write};
use sqlite::{Alter, Connection, Error, Row, Transaction};

/// Makes the table that says whose tables they are.
fn create_about<S: Alter>(tx: &mut Transaction<'_, S>, _service: Service) -> Result<usize, Error>
    requires made { HasCleanDisk (state S.Store tx.old.conn.now)
        → AreMade (common_tables ++ own_tables _service) (state S.Store tx.old.conn.now).now }
    requires inside { HasCleanDisk (state S.Store tx.old.conn.now)
        → IsTrue (state S.Store tx.old.conn.now).in_transaction }
    ensures same_reference { tx.new.conn.ghost_name ≡ tx.old.conn.ghost_name }
    ensures ok { HasCleanDisk (state S.Store tx.new.conn.now)
        → OnOk result (Makes (tables_of _service) (state S.Store tx.old.conn.now) (state S.Store tx.new.conn.now)) }
    ensures on { IsUnderWay (state S.Store tx.old.conn.now) (state S.Store tx.new.conn.now) }
{
    // The key's check lets in a single row: a file is of one service.
    write(
        tx,
        "CREATE TABLE about (one INTEGER PRIMARY KEY CHECK (one = 1), version INTEGER NOT NULL, \
         service TEXT NOT NULL) STRICT",
        &[],
    )
}

/// Tells whose tables they are, in version 2.
fn add_about<S: Alter>(tx: &mut Transaction<'_, S>, service: Service) -> Result<usize, Error>
    requires made { HasCleanDisk (state S.Store tx.old.conn.now)
        → AreMade (tables_of service) (state S.Store tx.old.conn.now).now }
    requires inside { HasCleanDisk (state S.Store tx.old.conn.now)
        → IsTrue (state S.Store tx.old.conn.now).in_transaction }
    ensures same_reference { tx.new.conn.ghost_name ≡ tx.old.conn.ghost_name }
    ensures ok { HasCleanDisk (state S.Store tx.new.conn.now)
        → OnOk result (Founds service (state S.Store tx.old.conn.now) (state S.Store tx.new.conn.now)) }
    ensures on { IsUnderWay (state S.Store tx.old.conn.now) (state S.Store tx.new.conn.now) }
{
    // `one` isn't bound: SQLite numbers the only row by 1, which the check asks for.
    write(
        tx,
        "INSERT INTO about (version, service) VALUES (2, ?1)",
        &[text(service.name())],
    )
}

/// Makes all tables of a service but the last.
#[tactic(auto, using(crate::proofs::Creates::then_makes, crate::proofs::Creates::then_goes_on))]
fn create_rows<S: Alter>(tx: &mut Transaction<'_, S>, service: Service) -> Result<usize, Error>
    requires made { HasCleanDisk (state S.Store tx.old.conn.now) → AreMade [] (state S.Store tx.old.conn.now).now }
    requires inside { HasCleanDisk (state S.Store tx.old.conn.now)
        → IsTrue (state S.Store tx.old.conn.now).in_transaction }
    ensures same_reference { tx.new.conn.ghost_name ≡ tx.old.conn.ghost_name }
    ensures ok { HasCleanDisk (state S.Store tx.new.conn.now)
        → OnOk result (Makes (common_tables ++ own_tables service)
        (state S.Store tx.old.conn.now) (state S.Store tx.new.conn.now)) }
    ensures on { IsUnderWay (state S.Store tx.old.conn.now) (state S.Store tx.new.conn.now) }
{
    create_common(tx)?;
    create_own(tx, service)
}

/// Makes the tables of a service where there are none, with no rows but the one that tells whose they are.
#[tactic(auto, using(crate::proofs::Creates::then_makes, crate::proofs::Creates::then_goes_on, crate::proofs::AboutRows::then_founds))]
pub fn create_tables<S: Alter>(
    tx: &mut Transaction<'_, S>,
    service: Service,
) -> Result<usize, Error>
    requires none { HasCleanDisk (state S.Store tx.old.conn.now)
        → (state S.Store tx.old.conn.now).now.schema ≡ no_tables }
    requires inside { HasCleanDisk (state S.Store tx.old.conn.now)
        → IsTrue (state S.Store tx.old.conn.now).in_transaction }
    ensures same_reference { tx.new.conn.ghost_name ≡ tx.old.conn.ghost_name }
    ensures ok { HasCleanDisk (state S.Store tx.new.conn.now)
        → OnOk result (Founds service (state S.Store tx.old.conn.now) (state S.Store tx.new.conn.now)) }
    ensures kept { HasCleanDisk (state S.Store tx.new.conn.now)
        → KeepsCommit (state S.Store tx.old.conn.now) (state S.Store tx.new.conn.now) }
    ensures survives { Survives (state S.Store tx.old.conn.now) (state S.Store tx.new.conn.now) (λ _. ⊥) }
{
    // The common tables come first and `about` last, so that one function serves all three services.
    create_rows(tx, service)?;
    create_about(tx, service)?;
    add_about(tx, service)
}

/// The version of the tables and the name of their service.
pub fn read_about<S: Alter>(conn: &mut Connection<S>, service: Service) -> Result<Vec<Row>, Error>
    requires schema { HasCleanDisk (state S.Store conn.old)
        → (state S.Store conn.old).now.schema ≡ schema_of service }
    requires settled { HasCleanDisk (state S.Store conn.old)
        → (state S.Store conn.old).now ≡ (state S.Store conn.old).committed }
    requires autocommit { conn.old.in_transaction ≡ false }
    ensures rows { HasCleanDisk (state S.Store conn.new) → IfOk result (λ rows.
        AreInOrder by_position None (λ x. column x 2 ∷ column x 3 ∷ [])
        ((state S.Store conn.old).now.trees (about_tree service)) rows.items) }
    ensures autocommit { conn.new.in_transaction ≡ false }
    ensures open { HasCleanDisk (state S.Store conn.new) → OnOk result (IsTrue (state S.Store conn.new).is_open) }
    ensures stays { HasCleanDisk (state S.Store conn.new) → Stays (state S.Store conn.old) (state S.Store conn.new) }
    ensures clean { doubt (state S.Store conn.old).is_clean ≤ doubt (state S.Store conn.new).is_clean }
    ensures crash { HasCleanDisk (state S.Store conn.new) → (db : Trees)
        → (state S.Store conn.new).may_leave db → (state S.Store conn.old).may_leave db }
{
    read(conn, "SELECT version, service FROM about ORDER BY one", &[])
}
