//! The journal, read by position.

ghost use Rattle.std.specs.Prelude.{◌≡◌, ◌≤◌, ◌<◌, ◌-◌, ◌^◌, false, map, take, drop, pos};
ghost use Rattle.std.specs.Prelude.{OnOk, IfOk, IsTrue, string_bytes};
ghost use Rattle.std.specs.Option.{option_map};
ghost use Rattle.sqlite_value.specs.Order.{column};
ghost use Rattle.sqlite_trees.specs.Tree.{Trees};
ghost use Rattle.sqlite_trees.specs.View.{doubt};
ghost use Rattle.sqlite.specs.Held.{state};
ghost use Rattle.sqlite.specs.State.{HasCleanDisk};
ghost use Rattle.sql_bodies.specs.Columns.{input_from};
ghost use Rattle.sql_rows.specs.Tables.{Stays};
ghost use Rattle.keep_sqlite.specs.Tables.{tables_of, input_of, shown_row};
ghost use Rattle.keep_sqlite.specs.Ready.{IsReady};

use crate::filed::Filed;
use activities::{Input, JournalRow};
use sql_bodies::{CommandBody, read_entity, read_input};
use sql_rows::read_journal;
use sqlite::{Alter, Connection, Error, Row};
use std::alloc::{AllocError, Global};

/// The input of these values, where they are one's.
fn input_from<C: CommandBody>(
    alloc: Global,
    seat: Option<u64>,
    sender: &Option<String>,
    number: Option<u64>,
    body: &str,
) -> Result<Option<Input<C>>, AllocError>
    ensures { IfOk result (λ found. found
        ≡ input_from C.read seat (option_map (λ s. string_bytes s) sender.now) number body.now) }
{
    match sender {
        Some(text) => read_input(alloc, seat, Some(text.as_str()), number, body),
        None => read_input(alloc, seat, None, number, body),
    }
}

/// The input in the columns of a row, from its seat on.
fn input_at<C: CommandBody>(alloc: Global, row: &Row) -> Result<Input<C>, Error>
    ensures { IfOk result (λ input. input ≡ input_of C.read (column row.now 2) (column row.now 3) (column row.now 4)
        (column row.now 5)) }
{
    let seat: Option<u64> = row.get(2)?;
    let sender: Option<String> = row.get(3)?;
    let number: Option<u64> = row.get(4)?;
    let body: String = row.get(5)?;
    match input_from::<C>(alloc, seat, &sender, number, body.as_str())? {
        Some(input) => Ok(input),
        None => Err(Error::InvalidQuery),
    }
}

/// The row of the journal that these columns tell.
fn row_at<H: Filed>(alloc: Global, row: &Row) -> Result<JournalRow<H::Command>, Error>
    ensures { IfOk result (λ entry. entry ≡ shown_row H.filing row.now) }
{
    // Column 0, the position, isn't read: an opening has tested that rows are at 1, 2, .., and they come in order.
    let text: String = row.get(1)?;
    let Some(entity) = read_entity(alloc, text.as_str())? else {
        return Err(Error::InvalidQuery);
    };
    let input = input_at::<H::Command>(alloc, row)?;
    Ok(JournalRow { entity, input })
}

/// The rows of the journal that an answer tells.
fn rows_at<H: Filed>(alloc: Global, rows: &[Row]) -> Result<Vec<JournalRow<H::Command>>, Error>
    ensures { IfOk result (λ entries. entries.items ≡ map (shown_row H.filing) rows.now) }
{
    let mut entries = Vec::new(alloc);
    for row in rows {
        let entry = row_at::<H>(alloc, row)?;
        entries.push(entry)?;
    }
    Ok(entries)
}

/// A position or a limit as SQL binds it.
pub fn bound_count(count: u64) -> Result<i64, Error>
    ensures value { IfOk result (λ bound. bound ≡ pos count) }
    ensures small { OnOk result (count < 2 ^ 63) }
{
    match i64::try_from(count) {
        Ok(bound) => Ok(bound),
        // SQL has no greater number. A wrapped one would be negative, and a negative LIMIT is none.
        Err(_) => Err(Error::InvalidQuery),
    }
}

/// The first rows of the journal from a position on.
pub fn find_rows<H: Filed, S: Alter>(
    alloc: Global,
    conn: &mut Connection<S>,
    from: u64,
    limit: usize,
    count: u64,
) -> Result<Vec<JournalRow<H::Command>>, Error>
    requires autocommit { conn.old.in_transaction ≡ false }
    requires ready { HasCleanDisk (state S.Store conn.old) → IsReady H.filing.schema count (state S.Store conn.old) }
    ensures rows { HasCleanDisk (state S.Store conn.new)
        → IfOk result (λ rows. rows.items
        ≡ take limit (drop (from - 1) (tables_of H.filing (state S.Store conn.old).now.trees).journal)) }
    ensures autocommit { conn.new.in_transaction ≡ false }
    ensures open { HasCleanDisk (state S.Store conn.new) → OnOk result (IsTrue (state S.Store conn.new).is_open) }
    ensures stays { HasCleanDisk (state S.Store conn.new) → Stays (state S.Store conn.old) (state S.Store conn.new) }
    ensures crash { HasCleanDisk (state S.Store conn.new) → (db : Trees) → (state S.Store conn.new).may_leave db
        → (state S.Store conn.old).may_leave db }
    ensures clean { doubt (state S.Store conn.old).is_clean ≤ doubt (state S.Store conn.new).is_clean }
{
    // Behind the last row there is none, and there are no more than that.
    let first = bound_count(from.min(count.saturating_add(1)))?;
    let most = bound_count(count.min(limit as u64))?;
    let rows = read_journal(conn, first, most)?;
    rows_at::<H>(alloc, rows.as_slice())
}
