//! The journal's bodies, which a transaction reads and writes anew.

ghost use Rattle.std.specs.Prelude.{◌≡◌, OnOk, IfOk, IsTrue, filter};
ghost use Rattle.sqlite.specs.Effect.{IsDatabase};
ghost use Rattle.sqlite.specs.Held.{state};
ghost use Rattle.sqlite.specs.State.{HasCleanDisk, IsUnchanged, KeepsCommit, Survives};
ghost use Rattle.sqlite.specs.declared.types.Value.TheVariants.{Int};
ghost use Rattle.sqlite_sql.specs.Query.{as_count};
ghost use Rattle.sql_rows.specs.FirstVersion.{Rebodies};
ghost use Rattle.sql_rows.specs.Schema.{IsService};
ghost use Rattle.sql_rows.specs.Tables.{AreInOrder, Edits, IsRising, by_position, is_from, shown_entry};

use crate::statements::{int, read_inside, text, write};
use sqlite::{Alter, Error, Row, Transaction};

/// The first rows from a position on, as the transaction sees them.
pub fn read_journal_inside<S: Alter>(
    tx: &mut Transaction<'_, S>,
    from: i64,
    limit: i64,
) -> Result<Vec<Row>, Error>
    requires schema { HasCleanDisk (state S.Store tx.old.conn.now)
        → IsService (state S.Store tx.old.conn.now).now.schema }
    ensures same_reference { tx.new.conn.ghost_name ≡ tx.old.conn.ghost_name }
    ensures rows { HasCleanDisk (state S.Store tx.new.conn.now) → IfOk result (λ rows.
        AreInOrder by_position (as_count (Int limit)) shown_entry
        (filter (is_from from) ((state S.Store tx.old.conn.now).now.trees 0)) rows.items) }
    ensures ok { HasCleanDisk (state S.Store tx.new.conn.now)
        → OnOk result (IsUnchanged (state S.Store tx.old.conn.now) (state S.Store tx.new.conn.now)) }
    ensures kept { HasCleanDisk (state S.Store tx.new.conn.now)
        → KeepsCommit (state S.Store tx.old.conn.now) (state S.Store tx.new.conn.now) }
    ensures survives { Survives (state S.Store tx.old.conn.now) (state S.Store tx.new.conn.now) (λ _. ⊥) }
{
    read_inside(
        tx,
        "SELECT pos, entity, seat, sender, number, body FROM journal WHERE pos >= ?1 ORDER BY pos \
         LIMIT ?2",
        &[int(from), int(limit)],
    )
}

/// Gives the row at a position another body; nothing happens where there is no row. That each row has what its columns
/// take, as those of a sound database do, is why none of its other values is converted.
pub fn set_body<S: Alter>(
    tx: &mut Transaction<'_, S>,
    position: i64,
    body: &str,
) -> Result<usize, Error>
    requires schema { HasCleanDisk (state S.Store tx.old.conn.now)
        → IsService (state S.Store tx.old.conn.now).now.schema }
    requires rising { HasCleanDisk (state S.Store tx.old.conn.now)
        → IsRising ((state S.Store tx.old.conn.now).now.trees 0) }
    requires inside { HasCleanDisk (state S.Store tx.old.conn.now)
        → IsTrue (state S.Store tx.old.conn.now).in_transaction }
    requires sound { HasCleanDisk (state S.Store tx.old.conn.now) → IsDatabase (state S.Store tx.old.conn.now).now }
    ensures same_reference { tx.new.conn.ghost_name ≡ tx.old.conn.ghost_name }
    ensures ok { HasCleanDisk (state S.Store tx.new.conn.now) → OnOk result (Edits 0
        (Rebodies position body.now)
        (state S.Store tx.old.conn.now) (state S.Store tx.new.conn.now)) }
    ensures kept { HasCleanDisk (state S.Store tx.new.conn.now)
        → KeepsCommit (state S.Store tx.old.conn.now) (state S.Store tx.new.conn.now) }
    ensures survives { Survives (state S.Store tx.old.conn.now) (state S.Store tx.new.conn.now) (λ _. ⊥) }
{
    // Row by row: the kit's SQL has no functions for JSON, so no statement could rewrite all bodies.
    write(
        tx,
        "UPDATE journal SET body = ?2 WHERE pos = ?1",
        &[int(position), text(body)],
    )
}
