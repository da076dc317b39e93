//! A connection whose rows are known to be in order.

ghost use Rattle.std.specs.Prelude.{◌≡◌, ◌≤◌, false, IfOk};
ghost use Rattle.std.specs.List.{AllByRecursion};
ghost use Rattle.sqlite.specs.Held.{state};
ghost use Rattle.sqlite.specs.State.{HasCleanDisk, IsLive, Opens};
ghost use Rattle.sqlite_trees.specs.View.{doubt};
ghost use Rattle.sql_rows.specs.Tables.{IsRising};

use sqlite::{Alter, Connection, Error, ErrorCode};
use sqlite_trees::store::Store;
use std::alloc::Global;

/// The connection over the same store, with what was committed, whose rows are known to be in order: the rowids of each
/// table rise. An open finds them so and doesn't tell; here each row is tested once more.
pub fn with_sorted_rows<S: Alter + Drop>(
    alloc: Global,
    conn: Connection<S>,
) -> Result<Connection<S>, (Error, S)>
    ensures opens { IfOk result (λ c. HasCleanDisk (state S.Store c)
        → Opens (state S.Store c) × IsLive (state S.Store c)) }
    ensures rising { IfOk result (λ c. HasCleanDisk (state S.Store c)
        → AllByRecursion (λ t. IsRising ((state S.Store c).now.trees t.tree)) (state S.Store c).now.schema.tables) }
    ensures same { IfOk result (λ c. HasCleanDisk (state S.Store c)
        → (state S.Store c).now.trees ≡ (state S.Store conn).committed.trees) }
    ensures autocommit { IfOk result (λ c. c.in_transaction ≡ false) }
    ensures clean { IfOk result (λ c. doubt (state S.Store conn).is_clean ≤ doubt (state S.Store c).is_clean) }
{
    // Taken apart and made again: that rowids rise is stated of a store, and not of a connection.
    let store = conn.into_store();
    // Nothing can be made over a broken store: the caller gets it back.
    if store.is_broken() {
        return Err((Error::SqliteFailure(ErrorCode::Closed), store));
    }
    Connection::over(alloc, store)
}
