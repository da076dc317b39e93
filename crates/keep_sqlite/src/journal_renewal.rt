//! The journal of version 1, written as today's: a placing's body told its one line beside the account, and now it
//! tells its lines in a list.

ghost use Rattle.std.specs.Prelude.{◌≡◌, ℕ, min, IsOkAnd, OnOk, IfOk, IsTrue, filter, length, pos, string_bytes};
ghost use Rattle.std.specs.List.{AllZip};
ghost use Rattle.std.specs.Option.{option_map};
ghost use Rattle.sqlite.specs.Effect.{IsDatabase};
ghost use Rattle.sqlite.specs.Held.{state};
ghost use Rattle.sqlite.specs.State.{HasCleanDisk, IsUnchanged, KeepsCommit, Survives};
ghost use Rattle.sqlite.specs.declared.types.Value.TheVariants.{Int};
ghost use Rattle.sqlite_value.specs.Order.{column};
ghost use Rattle.sql_rows.specs.Schema.{IsService, purchasing};
ghost use Rattle.sql_rows.specs.Tables.{Edits, IsRising, is_within};
ghost use Rattle.keep_sqlite.specs.JournalRenewal.{IsBodyOfOne, IsBodyOfToday, IsRenewedAt, IsRenewedUpto};
ghost use Rattle.keep_sqlite.specs.Migration.{RenewsJournal};
ghost use Rattle.keep_sqlite.specs.Ready.{AreNumbered, AreRising};

use crate::journal::bound_count;
use crate::progress::Progress;
use crate::reads::mark_in;
use sql_bodies::{CommandBody, read_first_order_command};
use sql_rows::{count_rows_inside, count_rows_within_inside, read_journal_inside, set_body};
use sqlite::{Alter, Error, Row, Transaction};
use std::alloc::Global;

/// How many rows the journal has; of 2^63 - 1 and more no less than that.
fn count_all<S: Alter>(tx: &mut Transaction<'_, S>) -> Result<u64, Error>
    requires schema { HasCleanDisk (state S.Store tx.old.conn.now)
        → IsService (state S.Store tx.old.conn.now).now.schema }
    ensures same_reference { tx.new.conn.ghost_name ≡ tx.old.conn.ghost_name }
    ensures count { HasCleanDisk (state S.Store tx.new.conn.now) → IfOk result (λ n.
        n ≡ min (length ((state S.Store tx.old.conn.now).now.trees 0)) 9223372036854775807) }
    ensures ok { HasCleanDisk (state S.Store tx.new.conn.now)
        → OnOk result (IsUnchanged (state S.Store tx.old.conn.now) (state S.Store tx.new.conn.now)) }
    ensures kept { HasCleanDisk (state S.Store tx.new.conn.now)
        → KeepsCommit (state S.Store tx.old.conn.now) (state S.Store tx.new.conn.now) }
    ensures survives { Survives (state S.Store tx.old.conn.now) (state S.Store tx.new.conn.now) (λ _. ⊥) }
{
    let rows = count_rows_inside(tx)?;
    mark_in(rows.as_slice(), 0)
}

/// How many rows the journal has at the positions from 1 to this; of 2^63 - 1 and more no less than that.
fn count_upto<S: Alter>(tx: &mut Transaction<'_, S>, last: i64) -> Result<u64, Error>
    requires schema { HasCleanDisk (state S.Store tx.old.conn.now)
        → IsService (state S.Store tx.old.conn.now).now.schema }
    ensures same_reference { tx.new.conn.ghost_name ≡ tx.old.conn.ghost_name }
    ensures count { HasCleanDisk (state S.Store tx.new.conn.now) → IfOk result (λ n. n ≡ min
        (length (filter (is_within (pos 1) last) ((state S.Store tx.old.conn.now).now.trees 0))) 9223372036854775807) }
    ensures ok { HasCleanDisk (state S.Store tx.new.conn.now)
        → OnOk result (IsUnchanged (state S.Store tx.old.conn.now) (state S.Store tx.new.conn.now)) }
    ensures kept { HasCleanDisk (state S.Store tx.new.conn.now)
        → KeepsCommit (state S.Store tx.old.conn.now) (state S.Store tx.new.conn.now) }
    ensures survives { Survives (state S.Store tx.old.conn.now) (state S.Store tx.new.conn.now) (λ _. ⊥) }
{
    let rows = count_rows_within_inside(tx, 1, last)?;
    mark_in(rows.as_slice(), 0)
}

/// How many rows the journal has. Where their positions aren't 1, 2, .. it is refused.
fn count_journal<S: Alter>(tx: &mut Transaction<'_, S>) -> Result<u64, Error>
    requires schema { HasCleanDisk (state S.Store tx.old.conn.now)
        → IsService (state S.Store tx.old.conn.now).now.schema }
    requires rising { HasCleanDisk (state S.Store tx.old.conn.now)
        → IsRising ((state S.Store tx.old.conn.now).now.trees 0) }
    ensures same_reference { tx.new.conn.ghost_name ≡ tx.old.conn.ghost_name }
    ensures counted { HasCleanDisk (state S.Store tx.new.conn.now) → IfOk result (λ n.
        (n ≡ length ((state S.Store tx.old.conn.now).now.trees 0))
        × AreNumbered 1 ((state S.Store tx.old.conn.now).now.trees 0)) }
    ensures ok { HasCleanDisk (state S.Store tx.new.conn.now)
        → OnOk result (IsUnchanged (state S.Store tx.old.conn.now) (state S.Store tx.new.conn.now)) }
    ensures kept { HasCleanDisk (state S.Store tx.new.conn.now)
        → KeepsCommit (state S.Store tx.old.conn.now) (state S.Store tx.new.conn.now) }
    ensures survives { Survives (state S.Store tx.old.conn.now) (state S.Store tx.new.conn.now) (λ _. ⊥) }
{
    // As at an opening: a journal that would be refused there isn't migrated.
    let count = count_all(tx)?;
    let last = bound_count(count)?;
    // A count as great as this tells no more than that there are so many.
    if last == i64::MAX {
        return Err(Error::InvalidQuery);
    }
    // As many rows as positions from 1 to the count: none is missing, and none is elsewhere.
    if count_upto(tx, last)? != count {
        return Err(Error::InvalidQuery);
    }
    Ok(count)
}

/// The body that has to stand in place of a command's; none, where it is the same.
fn body_of_command(alloc: Global, row: &Row) -> Result<Option<String>, Error>
    requires seat { (seat : ℕ) × (column row.now 2 ≡ Int (pos seat)) }
    ensures { IfOk result (λ body. IsBodyOfToday row.now (option_map (λ s. string_bytes s) body)) }
{
    let text: String = row.get(5)?;
    let Some(command) = read_first_order_command(alloc, text.as_str())? else {
        return Err(Error::InvalidQuery);
    };
    let body = command.body(alloc)?;
    // A cancellation had today's text, so its row needs no write.
    if body.as_str() == text.as_str() {
        Ok(None)
    } else {
        Ok(Some(body))
    }
}

/// The body that has to stand in place of a row's; none, where the row can stay. One with no seat tells a message,
/// which version 1 wrote as today's.
fn body_of_today(alloc: Global, row: &Row) -> Result<Option<String>, Error>
    ensures { IfOk result (λ body. IsBodyOfToday row.now (option_map (λ s. string_bytes s) body)) }
{
    let seat: Option<u64> = row.get(2)?;
    match seat {
        Some(_) => body_of_command(alloc, row),
        // Messages have the body that they always had.
        None => Ok(None),
    }
}

/// The body that replaces that of an answer's one row; none, where the row can stay. It takes the
/// answer as it comes, so that its caller doesn't owe its contract at each `?`.
fn body_of_one(alloc: Global, answer: Result<Vec<Row>, Error>) -> Result<Option<String>, Error>
    ensures { IfOk result (λ body. IsOkAnd answer (λ rows.
        IsBodyOfOne rows.items (option_map (λ s. string_bytes s) body))) }
{
    let rows = answer?;
    let [row] = rows.as_slice() else {
        return Err(Error::InvalidQuery);
    };
    body_of_today(alloc, row)
}

/// Writes the row at a position as one of today.
fn renew_row<S: Alter>(
    alloc: Global,
    tx: &mut Transaction<'_, S>,
    position: u64,
) -> Result<(), Error>
    requires schema { HasCleanDisk (state S.Store tx.old.conn.now)
        → IsService (state S.Store tx.old.conn.now).now.schema }
    requires rising { HasCleanDisk (state S.Store tx.old.conn.now)
        → IsRising ((state S.Store tx.old.conn.now).now.trees 0) }
    requires numbered { HasCleanDisk (state S.Store tx.old.conn.now)
        → AreNumbered 1 ((state S.Store tx.old.conn.now).now.trees 0) }
    requires sound { HasCleanDisk (state S.Store tx.old.conn.now) → IsDatabase (state S.Store tx.old.conn.now).now }
    requires inside { HasCleanDisk (state S.Store tx.old.conn.now)
        → IsTrue (state S.Store tx.old.conn.now).in_transaction }
    ensures same_reference { tx.new.conn.ghost_name ≡ tx.old.conn.ghost_name }
    ensures ok { HasCleanDisk (state S.Store tx.new.conn.now) → OnOk result (Edits 0 (AllZip (IsRenewedAt position))
        (state S.Store tx.old.conn.now) (state S.Store tx.new.conn.now)) }
    ensures kept { HasCleanDisk (state S.Store tx.new.conn.now)
        → KeepsCommit (state S.Store tx.old.conn.now) (state S.Store tx.new.conn.now) }
    ensures survives { Survives (state S.Store tx.old.conn.now) (state S.Store tx.new.conn.now) (λ _. ⊥) }
{
    let at = bound_count(position)?;
    // The first row from this position on is the one at it, since positions have no gap.
    let rows = read_journal_inside(tx, at, 1);
    match body_of_one(alloc, rows)? {
        Some(body) => {
            set_body(tx, at, body.as_str())?;
            Ok(())
        }
        None => Ok(()),
    }
}

/// Writes the first rows as those of today, so many of them.
fn renew_rows<S: Alter, P: Progress>(
    alloc: Global,
    tx: &mut Transaction<'_, S>,
    count: u64,
    progress: &mut P,
) -> Result<(), Error>
    requires schema { HasCleanDisk (state S.Store tx.old.conn.now)
        → IsService (state S.Store tx.old.conn.now).now.schema }
    requires rising { HasCleanDisk (state S.Store tx.old.conn.now)
        → IsRising ((state S.Store tx.old.conn.now).now.trees 0) }
    requires numbered { HasCleanDisk (state S.Store tx.old.conn.now)
        → AreNumbered 1 ((state S.Store tx.old.conn.now).now.trees 0) }
    requires sound { HasCleanDisk (state S.Store tx.old.conn.now) → IsDatabase (state S.Store tx.old.conn.now).now }
    requires open { HasCleanDisk (state S.Store tx.old.conn.now) → IsTrue (state S.Store tx.old.conn.now).is_open }
    requires inside { HasCleanDisk (state S.Store tx.old.conn.now)
        → IsTrue (state S.Store tx.old.conn.now).in_transaction }
    ensures same_reference { tx.new.conn.ghost_name ≡ tx.old.conn.ghost_name }
    ensures ok { HasCleanDisk (state S.Store tx.new.conn.now) → OnOk result (Edits 0 (AllZip (IsRenewedUpto count))
        (state S.Store tx.old.conn.now) (state S.Store tx.new.conn.now)) }
    ensures kept { HasCleanDisk (state S.Store tx.new.conn.now)
        → KeepsCommit (state S.Store tx.old.conn.now) (state S.Store tx.new.conn.now) }
    ensures survives { Survives (state S.Store tx.old.conn.now) (state S.Store tx.new.conn.now) (λ _. ⊥) }
{
    // Row by row, as the kit's SQL has no JSON functions.
    for index in 0..count {
        renew_row(alloc, tx, index + 1)?;
        progress.step();
    }
    Ok(())
}

/// Writes the bodies of version 1's commands as those of today, and answers how many rows the journal has. `progress` is
/// told of each row.
///
/// # Errors
/// If the store or an allocation failed, where the rows aren't at the positions 1, 2, .., and where a row has a seat
/// and a body that version 1 wrote of no command.
pub fn renew_journal<S: Alter, P: Progress>(
    alloc: Global,
    tx: &mut Transaction<'_, S>,
    progress: &mut P,
) -> Result<u64, Error>
    requires schema { HasCleanDisk (state S.Store tx.old.conn.now)
        → (state S.Store tx.old.conn.now).now.schema ≡ purchasing }
    requires rising { HasCleanDisk (state S.Store tx.old.conn.now)
        → AreRising purchasing (state S.Store tx.old.conn.now).now.trees }
    requires sound { HasCleanDisk (state S.Store tx.old.conn.now) → IsDatabase (state S.Store tx.old.conn.now).now }
    requires inside { HasCleanDisk (state S.Store tx.old.conn.now)
        → IsTrue (state S.Store tx.old.conn.now).in_transaction }
    ensures same_reference { tx.new.conn.ghost_name ≡ tx.old.conn.ghost_name }
    ensures ok { HasCleanDisk (state S.Store tx.new.conn.now) → IfOk result (λ count. RenewsJournal count
        (state S.Store tx.old.conn.now) (state S.Store tx.new.conn.now)) }
    ensures kept { HasCleanDisk (state S.Store tx.new.conn.now)
        → KeepsCommit (state S.Store tx.old.conn.now) (state S.Store tx.new.conn.now) }
    ensures survives { Survives (state S.Store tx.old.conn.now) (state S.Store tx.new.conn.now) (λ _. ⊥) }
{
    let count = count_journal(tx)?;
    renew_rows(alloc, tx, count, progress)?;
    Ok(count)
}
