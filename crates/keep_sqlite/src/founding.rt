//! How a service's tables are made.

ghost use Rattle.std.specs.Prelude.{◌≡◌, ◌≤◌, ◌⊎◌, false, OnOk, OnErr, IfOk, IsTrue};
ghost use Rattle.sqlite_trees.specs.Tree.{Trees};
ghost use Rattle.sqlite_trees.specs.View.{doubt};
ghost use Rattle.sqlite.specs.Held.{state};
ghost use Rattle.sqlite.specs.State.{HasCleanDisk};
ghost use Rattle.keep.specs.Tables.{empty};
ghost use Rattle.sql_rows.specs.Schema.{no_tables};
ghost use Rattle.keep_sqlite.specs.Tables.{tables_of};
ghost use Rattle.keep_sqlite.specs.Ready.{IsReady};

use crate::filed::Filed;
use sql_rows::{create_tables, has_no_tables};
use sqlite::{Alter, Connection, Error};

/// Makes the tables of a service where there are none, in one transaction.
pub fn found<H: Filed, S: Alter>(conn: &mut Connection<S>) -> Result<(), Error>
    requires autocommit { conn.old.in_transaction ≡ false }
    requires none { HasCleanDisk (state S.Store conn.old) → (state S.Store conn.old).now.schema ≡ no_tables }
    ensures autocommit { conn.new.in_transaction ≡ false }
    ensures ready { HasCleanDisk (state S.Store conn.new)
        → OnOk result (IsReady H.filing.schema 0 (state S.Store conn.new)
        × (tables_of H.filing (state S.Store conn.new).now.trees ≡ empty)) }
    ensures err { HasCleanDisk (state S.Store conn.new) → IsTrue (state S.Store conn.new).is_open
        → OnErr result ((state S.Store conn.new).committed ≡ (state S.Store conn.old).committed) }
    ensures crash { (db : Trees) → HasCleanDisk (state S.Store conn.new) → (state S.Store conn.new).may_leave db
        → (state S.Store conn.old).may_leave db ⊎ (tables_of H.filing db ≡ empty) }
    ensures clean { doubt (state S.Store conn.old).is_clean ≤ doubt (state S.Store conn.new).is_clean }
{
    let mut tx = conn.transaction();
    match create_tables(&mut tx, H::service()) {
        Ok(_) => tx.commit(),
        Err(error) => {
            // Tables of which some are missing would be refused as a wrong file at the next opening.
            tx.rollback();
            Err(error)
        }
    }
}

/// The connection with the tables of the service: those that it has, or, where it has none, new ones.
pub fn with_tables<H: Filed, S: Alter + Drop>(
    mut conn: Connection<S>,
) -> Result<Connection<S>, Error>
    requires { conn.in_transaction ≡ false }
    ensures autocommit { IfOk result (λ c. c.in_transaction ≡ false) }
    ensures made { IfOk result (λ c. HasCleanDisk (state S.Store c) → (c ≡ conn)
        ⊎ (((state S.Store conn).now.schema ≡ no_tables)
        × (tables_of H.filing (state S.Store c).committed.trees ≡ empty))) }
    ensures clean { IfOk result (λ c. doubt (state S.Store conn).is_clean ≤ doubt (state S.Store c).is_clean) }
{
    // A crash amid the making leaves no tables, as it's one transaction: then they are made now.
    if !has_no_tables(&conn) {
        return Ok(conn);
    }
    found::<H, S>(&mut conn)?;
    Ok(conn)
}
