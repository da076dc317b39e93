//! Whose tables a connection has.

ghost use Rattle.std.specs.Prelude.{◌≡◌, ◌↔◌, false, IfOk, IsTrue, OnOk};
ghost use Rattle.sqlite.specs.Held.{state};
ghost use Rattle.sqlite.specs.State.{HasCleanDisk};
ghost use Rattle.sql_rows.specs.Schema.{no_tables, schema_of};

use crate::about::create_tables;
use crate::same::same_schema;
use crate::service::Service;
use sqlite::{Alter, Connection, Error};
use std::alloc::Global;

/// Whether there are no tables yet.
pub fn has_no_tables<S: Alter>(conn: &Connection<S>) -> bool
    ensures { IsTrue result ↔ ((state S.Store conn.now).now.schema ≡ no_tables) }
{
    let schema = conn.schema();
    // A file with an index or a view alone is another's too.
    schema.tables.is_empty() && schema.indexes.is_empty() && schema.views.is_empty()
}

/// Makes the tables of a service, and commits them.
fn make_tables<S: Alter>(conn: &mut Connection<S>, service: Service) -> Result<(), Error>
    requires none { HasCleanDisk (state S.Store conn.old) → (state S.Store conn.old).now.schema ≡ no_tables }
    requires autocommit { conn.old.in_transaction ≡ false }
    ensures ok { HasCleanDisk (state S.Store conn.new)
        → OnOk result ((state S.Store conn.new).now.schema ≡ schema_of service) }
{
    let mut tx = conn.transaction();
    create_tables(&mut tx, service)?;
    tx.commit()
}

/// Whether the tables are those of this service, each with the name, columns, keys and rules that it is made with.
pub fn has_tables<S: Alter>(
    alloc: Global,
    conn: &Connection<S>,
    service: Service,
) -> Result<bool, Error>
    ensures { IfOk result (λ has. IsTrue has → (state S.Store conn.now).now.schema ≡ schema_of service) }
{
    // The tables are made in memory and compared: so no second text says what they have to be.
    let mut made = Connection::open_in_memory(alloc)?;
    make_tables(&mut made, service)?;
    Ok(same_schema(conn.schema(), made.schema()))
}
