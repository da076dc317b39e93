//! What is read in order: the letters of the outbox, and the first pair that can be drained.

ghost use Rattle.std.specs.Prelude.{◌≡◌, ◌≤◌, ◌^◌, pos, false, filter, OnOk, IfOk, IsTrue, MatchOption, FitsSigned};
ghost use Rattle.std.specs.Int.{w64};
ghost use Rattle.std.specs.List.{AllZip};
ghost use Rattle.sqlite.specs.declared.types.Value.TheVariants.{Int, Text};
ghost use Rattle.sqlite_sql.specs.Query.{as_count};
ghost use Rattle.sqlite_value.specs.Order.{column};
ghost use Rattle.sqlite_trees.specs.Tree.{Trees};
ghost use Rattle.sqlite_trees.specs.View.{doubt};
ghost use Rattle.sqlite.specs.Held.{state};
ghost use Rattle.sqlite.specs.State.{HasCleanDisk};
ghost use Rattle.base.specs.Entity.{text_of};
ghost use Rattle.keep.specs.Listing.{AreFirst, IsDrainable, next_held};
ghost use Rattle.sql_rows.specs.Schema.{IsService};
ghost use Rattle.sql_rows.specs.Tables.{Stays, AreInOrder, by_place, shown_letter};
ghost use Rattle.keep_sqlite.specs.Tables.{tables_of};
ghost use Rattle.keep_sqlite.specs.Ready.{IsReady};
ghost use Rattle.keep_sqlite.specs.Listing.{IsPairAt, IsFirstPair, IsLetterAt, is_behind};

use crate::filed::Filed;
use crate::reads::message_at;
use crate::writes::bound_number;
use base::{Entity, Number, Pair};
use envelope::Letter;
use keep::LetterPlace;
use sql_bodies::read_entity;
use sql_rows::{read_drainable, read_letters, read_letters_after};
use sqlite::{Alter, Connection, Error, Row};
use std::alloc::Global;

/// The entity whose text a value is.
fn entity_at(alloc: Global, row: &Row, at: usize) -> Result<Entity, Error>
    ensures { IfOk result (λ entity. column row.now at ≡ Text (text_of entity)) }
{
    let text: String = row.get(at)?;
    match read_entity(alloc, text.as_str())? {
        Some(entity) => Ok(entity),
        // No call here writes such a text: the file was changed by others, which counts as a failure of the store.
        None => Err(Error::InvalidQuery),
    }
}

/// The pair whose texts the first two values of a row are.
fn pair_at(alloc: Global, row: &Row) -> Result<Pair, Error>
    ensures { IfOk result (IsPairAt row.now) }
{
    Ok(Pair {
        from: entity_at(alloc, row, 0)?,
        to: entity_at(alloc, row, 1)?,
    })
}

/// The number that a value is.
fn number_at(row: &Row, at: usize) -> Result<Number, Error>
    ensures { IfOk result (λ number. column row.now at ≡ Int (pos number)) }
{
    match Number::new(row.get(at)?) {
        Some(number) => Ok(number),
        // The tables have no check of it: 0, or more than 2^40, was written by others.
        None => Err(Error::InvalidQuery),
    }
}

/// The letter that a row tells.
fn letter_at(alloc: Global, row: &Row) -> Result<Letter, Error>
    ensures { IfOk result (IsLetterAt row.now) }
{
    Ok(Letter {
        pair: pair_at(alloc, row)?,
        number: number_at(row, 2)?,
        message: message_at(alloc, row, 3)?,
    })
}

/// The letters that an answer tells.
fn letters_at(alloc: Global, rows: &[Row]) -> Result<Vec<Letter>, Error>
    ensures { IfOk result (λ letters. AllZip IsLetterAt rows.now letters.items) }
{
    let mut letters = Vec::new(alloc);
    for row in rows {
        let letter = letter_at(alloc, row)?;
        letters.push(letter)?;
    }
    Ok(letters)
}

/// A limit as SQL binds it: none at all, where the limit is above all its numbers.
fn bound_limit(limit: usize) -> i64
    ensures limit { MatchOption (as_count (Int result)) (2 ^ 63 ≤ limit) (λ most. most ≡ limit) }
    ensures fits { FitsSigned w64 result }
{
    // SQLite reads a negative LIMIT as none.
    i64::try_from(limit).unwrap_or(-1)
}

/// The rows of the first letters after a place, or of the first of all.
fn read_after<S: Alter>(
    conn: &mut Connection<S>,
    after: &Option<LetterPlace>,
    limit: i64,
) -> Result<Vec<Row>, Error>
    requires schema { HasCleanDisk (state S.Store conn.old) → IsService (state S.Store conn.old).now.schema }
    requires settled { HasCleanDisk (state S.Store conn.old)
        → (state S.Store conn.old).now ≡ (state S.Store conn.old).committed }
    requires autocommit { conn.old.in_transaction ≡ false }
    ensures rows { HasCleanDisk (state S.Store conn.new) → IfOk result (λ rows.
        AreInOrder by_place (as_count (Int limit)) shown_letter
        (filter (is_behind after.now) ((state S.Store conn.old).now.trees 1)) rows.items) }
    ensures autocommit { conn.new.in_transaction ≡ false }
    ensures open { HasCleanDisk (state S.Store conn.new) → OnOk result (IsTrue (state S.Store conn.new).is_open) }
    ensures stays { HasCleanDisk (state S.Store conn.new) → Stays (state S.Store conn.old) (state S.Store conn.new) }
    ensures crash { HasCleanDisk (state S.Store conn.new) → (db : Trees) → (state S.Store conn.new).may_leave db
        → (state S.Store conn.old).may_leave db }
    ensures clean { doubt (state S.Store conn.old).is_clean ≤ doubt (state S.Store conn.new).is_clean }
{
    match after {
        None => read_letters(conn, limit),
        Some(place) => {
            let number = bound_number(place.number);
            read_letters_after(
                conn,
                place.pair.from.text(),
                place.pair.to.text(),
                number,
                limit,
            )
        }
    }
}

/// The first letters of the outbox after a place, or the first of all.
pub fn find_letters<H: Filed, S: Alter>(
    alloc: Global,
    conn: &mut Connection<S>,
    after: &Option<LetterPlace>,
    limit: usize,
    _count: u64,
) -> Result<Vec<Letter>, Error>
    requires autocommit { conn.old.in_transaction ≡ false }
    requires ready { HasCleanDisk (state S.Store conn.old)
        → IsReady H.filing.schema _count (state S.Store conn.old) }
    ensures letters { HasCleanDisk (state S.Store conn.new) → IfOk result (λ letters.
        AreFirst (tables_of H.filing (state S.Store conn.old).now.trees).unsettled after.now limit letters.items) }
    ensures autocommit { conn.new.in_transaction ≡ false }
    ensures open { HasCleanDisk (state S.Store conn.new) → OnOk result (IsTrue (state S.Store conn.new).is_open) }
    ensures stays { HasCleanDisk (state S.Store conn.new) → Stays (state S.Store conn.old) (state S.Store conn.new) }
    ensures crash { HasCleanDisk (state S.Store conn.new) → (db : Trees) → (state S.Store conn.new).may_leave db
        → (state S.Store conn.old).may_leave db }
    ensures clean { doubt (state S.Store conn.old).is_clean ≤ doubt (state S.Store conn.new).is_clean }
{
    // Called for what its contract says: the rows are as the schema demands.
    let _ = conn.schema();
    let rows = read_after(conn, after, bound_limit(limit))?;
    letters_at(alloc, rows.as_slice())
}

/// The pair that an answer's first row tells, if it has one.
fn pair_in(alloc: Global, rows: &[Row]) -> Result<Option<Pair>, Error>
    ensures { IfOk result (IsFirstPair rows.now) }
{
    match rows.first() {
        None => Ok(None),
        Some(row) => Ok(Some(pair_at(alloc, row)?)),
    }
}

/// The first pair whose next message is held.
pub fn find_drainable<H: Filed, S: Alter>(
    alloc: Global,
    conn: &mut Connection<S>,
    _count: u64,
) -> Result<Option<Pair>, Error>
    requires autocommit { conn.old.in_transaction ≡ false }
    requires ready { HasCleanDisk (state S.Store conn.old)
        → IsReady H.filing.schema _count (state S.Store conn.old) }
    ensures pair { HasCleanDisk (state S.Store conn.new) → IfOk result (IsDrainable (next_held
        (tables_of H.filing (state S.Store conn.old).now.trees).held
        (tables_of H.filing (state S.Store conn.old).now.trees).handled)) }
    ensures autocommit { conn.new.in_transaction ≡ false }
    ensures open { HasCleanDisk (state S.Store conn.new) → OnOk result (IsTrue (state S.Store conn.new).is_open) }
    ensures stays { HasCleanDisk (state S.Store conn.new) → Stays (state S.Store conn.old) (state S.Store conn.new) }
    ensures crash { HasCleanDisk (state S.Store conn.new) → (db : Trees) → (state S.Store conn.new).may_leave db
        → (state S.Store conn.old).may_leave db }
    ensures clean { doubt (state S.Store conn.old).is_clean ≤ doubt (state S.Store conn.new).is_clean }
{
    // Called for what its contract says: the rows are as the schema demands.
    let _ = conn.schema();
    let rows = read_drainable(conn)?;
    pair_in(alloc, rows.as_slice())
}
