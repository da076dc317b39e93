//! The changes of a transaction.

ghost use Rattle.std.specs.Prelude.{◌≡◌, ◌<◌, ◌^◌, ◌≤◌, ◌⊎◌};
ghost use Rattle.std.specs.Prelude.{true, false, IfOk, IsOkAnd, OnOk, OnErr, IsTrue, FitsSigned, pos, is_some, option_copied};
ghost use Rattle.std.specs.Prelude.{option_map, Option, drop, length, ◌+◌};
ghost use Rattle.std.specs.Int.{w64};
ghost use Rattle.sqlite_trees.specs.Tree.{Trees};
ghost use Rattle.sqlite_trees.specs.View.{doubt};
ghost use Rattle.sqlite.specs.Effect.{IsDatabase};
ghost use Rattle.sqlite.specs.Held.{state};
ghost use Rattle.sqlite.specs.State.{HasCleanDisk, Survives, KeepsCommit};
ghost use Rattle.base.specs.Entity.{Entity};
ghost use Rattle.last_states.specs.Known.{known_of, Knows};
ghost use Rattle.keep.specs.Steps.{AreSteps};
ghost use Rattle.keep.specs.Tables.{Tables, changed, changed_by};
ghost use Rattle.keep.specs.declared.change.Change.TheVariants.{State, Sent, Settled, Handled, Held, NotHeld};
ghost use Rattle.keep_sqlite.specs.Tables.{tables_of};
ghost use Rattle.activities.specs.declared.input.Input.TheVariants.{FromSeat, FromEntity};
ghost use Rattle.base.specs.Number.{is_number};
ghost use Rattle.base.specs.declared.limits.TheConstants.{MAX_NUMBER};
ghost use Rattle.keep_sqlite.specs.Parts.{with_sent, with_settled, with_letter, without_letters, with_row};
ghost use Rattle.keep_sqlite.specs.Ready.{IsFiled, IsReady, Makes, IsFirstCell};
ghost use Rattle.keep_sqlite.specs.Stepping.{IsStepBy, sender_behind, step_at};

use crate::filed::Filed;
use crate::states::remember_row;
use activities::{Input, JournalRow};
use base::{Entity, Number, Pair};
use envelope::{Letter, Message};
use keep::Change;
use last_states::LastStates;
use sql_bodies::CommandBody;
use sql_rows::{
    add_command, add_message, find_marks, put_held, put_in_marks, put_out_marks, put_outbox,
    settle_outbox, take_held,
};
use sqlite::{Alter, Connection, Error, Row, Transaction};
use std::alloc::Global;

/// A letter's number as SQL binds it.
pub fn bound_number(number: Number) -> i64
    ensures value { result ≡ pos number }
    ensures small { number < 2 ^ 63 }
    ensures number { is_number number ≡ true }
{
    let value = number.get();
    // 2^40 at most, so it fits.
    value as i64
}

/// A quantity or an amount as SQL binds it.
pub fn bound_quantity(quantity: u64) -> i64
    requires { quantity ≤ MAX_NUMBER }
    ensures value { result ≡ pos quantity }
    ensures small { quantity < 2 ^ 63 }
{
    // 2^40 at most, as the business has it: it fits.
    quantity as i64
}

/// How many rows the journal has, where a statement was made. It takes what the statement ended in, so that no caller owes
/// its contract at a `?`.
fn counted(made: Result<usize, Error>, count: u64) -> Result<u64, Error>
    ensures { IfOk result (λ n. IsOkAnd made (λ _. n ≡ count)) }
{
    match made {
        Ok(_) => Ok(count),
        Err(error) => Err(error),
    }
}

/// Sets the handled mark of a pair.
fn write_handled<H: Filed, S: Alter>(
    tx: &mut Transaction<'_, S>,
    pair: &Pair,
    number: Number,
    count: u64,
) -> Result<u64, Error>
    requires filed { HasCleanDisk (state S.Store tx.old.conn.now)
        → IsFiled H.filing.schema count (state S.Store tx.old.conn.now).now }
    requires sound { HasCleanDisk (state S.Store tx.old.conn.now) → IsDatabase (state S.Store tx.old.conn.now).now }
    requires inside { HasCleanDisk (state S.Store tx.old.conn.now)
        → IsTrue (state S.Store tx.old.conn.now).in_transaction }
    ensures same_reference { tx.new.conn.ghost_name ≡ tx.old.conn.ghost_name }
    ensures ok { HasCleanDisk (state S.Store tx.new.conn.now)
        → IfOk result (λ count. Makes H.filing (changed_by (Handled pair.now number)) count
        (state S.Store tx.old.conn.now) (state S.Store tx.new.conn.now)) }
    ensures kept { HasCleanDisk (state S.Store tx.new.conn.now)
        → KeepsCommit (state S.Store tx.old.conn.now) (state S.Store tx.new.conn.now) }
    ensures survives { Survives (state S.Store tx.old.conn.now) (state S.Store tx.new.conn.now) (λ _. ⊥) }
{
    let made = put_in_marks(tx, pair.from.text(), pair.to.text(), bound_number(number));
    counted(made, count)
}

/// Takes a held message away.
fn write_not_held<H: Filed, S: Alter>(
    tx: &mut Transaction<'_, S>,
    pair: &Pair,
    number: Number,
    count: u64,
) -> Result<u64, Error>
    requires filed { HasCleanDisk (state S.Store tx.old.conn.now)
        → IsFiled H.filing.schema count (state S.Store tx.old.conn.now).now }
    requires sound { HasCleanDisk (state S.Store tx.old.conn.now) → IsDatabase (state S.Store tx.old.conn.now).now }
    requires inside { HasCleanDisk (state S.Store tx.old.conn.now)
        → IsTrue (state S.Store tx.old.conn.now).in_transaction }
    ensures same_reference { tx.new.conn.ghost_name ≡ tx.old.conn.ghost_name }
    ensures ok { HasCleanDisk (state S.Store tx.new.conn.now)
        → IfOk result (λ count. Makes H.filing (changed_by (NotHeld pair.now number)) count
        (state S.Store tx.old.conn.now) (state S.Store tx.new.conn.now)) }
    ensures kept { HasCleanDisk (state S.Store tx.new.conn.now)
        → KeepsCommit (state S.Store tx.old.conn.now) (state S.Store tx.new.conn.now) }
    ensures survives { Survives (state S.Store tx.old.conn.now) (state S.Store tx.new.conn.now) (λ _. ⊥) }
{
    let made = take_held(tx, pair.from.text(), pair.to.text(), bound_number(number));
    counted(made, count)
}

/// Holds a letter that came too early.
fn write_held<H: Filed, S: Alter>(
    alloc: Global,
    tx: &mut Transaction<'_, S>,
    letter: &Letter,
    count: u64,
) -> Result<u64, Error>
    requires filed { HasCleanDisk (state S.Store tx.old.conn.now)
        → IsFiled H.filing.schema count (state S.Store tx.old.conn.now).now }
    requires sound { HasCleanDisk (state S.Store tx.old.conn.now) → IsDatabase (state S.Store tx.old.conn.now).now }
    requires inside { HasCleanDisk (state S.Store tx.old.conn.now)
        → IsTrue (state S.Store tx.old.conn.now).in_transaction }
    ensures same_reference { tx.new.conn.ghost_name ≡ tx.old.conn.ghost_name }
    ensures ok { HasCleanDisk (state S.Store tx.new.conn.now)
        → IfOk result (λ count. Makes H.filing (changed_by (Held letter.now)) count
        (state S.Store tx.old.conn.now) (state S.Store tx.new.conn.now)) }
    ensures kept { HasCleanDisk (state S.Store tx.new.conn.now)
        → KeepsCommit (state S.Store tx.old.conn.now) (state S.Store tx.new.conn.now) }
    ensures survives { Survives (state S.Store tx.old.conn.now) (state S.Store tx.new.conn.now) (λ _. ⊥) }
{
    let body = letter.message.body(alloc)?;
    let pair = &letter.pair;
    let made = put_held(
        tx,
        pair.from.text(),
        pair.to.text(),
        bound_number(letter.number),
        body.as_str(),
    );
    counted(made, count)
}

/// The value in a column of an answer's first row, or 0.
fn cell_in(rows: &[Row], at: usize) -> Result<i64, Error>
    ensures cell { IfOk result (IsFirstCell at rows.now) }
    ensures fits { IfOk result (FitsSigned w64) }
{
    match rows.first() {
        // A pair that sent nothing has no row, and a mark of 0.
        None => Ok(0),
        Some(row) => row.get(at),
    }
}

/// The value in a column of an answer's first row, or 0, where there is an answer; else the answer's error.
fn cell_of(answer: Result<Vec<Row>, Error>, at: usize) -> Result<i64, Error>
    ensures cell { IfOk result (λ z. IsOkAnd answer (λ rows. IsFirstCell at rows.items z)) }
    ensures fits { IfOk result (FitsSigned w64) }
{
    match answer {
        Ok(rows) => cell_in(rows.as_slice(), at),
        Err(error) => Err(error),
    }
}

/// Sets the number of the last letter that a pair sent.
fn put_sent<H: Filed, S: Alter>(
    tx: &mut Transaction<'_, S>,
    pair: &Pair,
    number: Number,
    count: u64,
) -> Result<u64, Error>
    requires filed { HasCleanDisk (state S.Store tx.old.conn.now)
        → IsFiled H.filing.schema count (state S.Store tx.old.conn.now).now }
    requires sound { HasCleanDisk (state S.Store tx.old.conn.now) → IsDatabase (state S.Store tx.old.conn.now).now }
    requires inside { HasCleanDisk (state S.Store tx.old.conn.now)
        → IsTrue (state S.Store tx.old.conn.now).in_transaction }
    ensures same_reference { tx.new.conn.ghost_name ≡ tx.old.conn.ghost_name }
    ensures ok { HasCleanDisk (state S.Store tx.new.conn.now)
        → IfOk result (λ count. Makes H.filing (with_sent pair.now number) count
        (state S.Store tx.old.conn.now) (state S.Store tx.new.conn.now)) }
    ensures kept { HasCleanDisk (state S.Store tx.new.conn.now)
        → KeepsCommit (state S.Store tx.old.conn.now) (state S.Store tx.new.conn.now) }
    ensures survives { Survives (state S.Store tx.old.conn.now) (state S.Store tx.new.conn.now) (λ _. ⊥) }
{
    // Both marks are in one row, which is written whole: the settled one stays.
    let rows = find_marks(tx, pair.from.text(), pair.to.text());
    let settled = cell_of(rows, 1)?;
    let made = put_out_marks(
        tx,
        pair.from.text(),
        pair.to.text(),
        bound_number(number),
        settled,
    );
    counted(made, count)
}

/// Puts a letter into the outbox.
fn put_letter<H: Filed, S: Alter>(
    alloc: Global,
    tx: &mut Transaction<'_, S>,
    letter: &Letter,
    count: u64,
) -> Result<u64, Error>
    requires filed { HasCleanDisk (state S.Store tx.old.conn.now)
        → IsFiled H.filing.schema count (state S.Store tx.old.conn.now).now }
    requires sound { HasCleanDisk (state S.Store tx.old.conn.now) → IsDatabase (state S.Store tx.old.conn.now).now }
    requires inside { HasCleanDisk (state S.Store tx.old.conn.now)
        → IsTrue (state S.Store tx.old.conn.now).in_transaction }
    ensures same_reference { tx.new.conn.ghost_name ≡ tx.old.conn.ghost_name }
    ensures ok { HasCleanDisk (state S.Store tx.new.conn.now)
        → IfOk result (λ count. Makes H.filing (with_letter letter.now) count
        (state S.Store tx.old.conn.now) (state S.Store tx.new.conn.now)) }
    ensures kept { HasCleanDisk (state S.Store tx.new.conn.now)
        → KeepsCommit (state S.Store tx.old.conn.now) (state S.Store tx.new.conn.now) }
    ensures survives { Survives (state S.Store tx.old.conn.now) (state S.Store tx.new.conn.now) (λ _. ⊥) }
{
    let body = letter.message.body(alloc)?;
    let pair = &letter.pair;
    let made = put_outbox(
        tx,
        pair.from.text(),
        pair.to.text(),
        bound_number(letter.number),
        body.as_str(),
    );
    counted(made, count)
}

/// Sends a letter: its row of the outbox is put, and its number is the last that the pair sent.
fn write_sent<H: Filed, S: Alter>(
    alloc: Global,
    tx: &mut Transaction<'_, S>,
    letter: &Letter,
    count: u64,
) -> Result<u64, Error>
    requires filed { HasCleanDisk (state S.Store tx.old.conn.now)
        → IsFiled H.filing.schema count (state S.Store tx.old.conn.now).now }
    requires sound { HasCleanDisk (state S.Store tx.old.conn.now) → IsDatabase (state S.Store tx.old.conn.now).now }
    requires inside { HasCleanDisk (state S.Store tx.old.conn.now)
        → IsTrue (state S.Store tx.old.conn.now).in_transaction }
    ensures same_reference { tx.new.conn.ghost_name ≡ tx.old.conn.ghost_name }
    ensures ok { HasCleanDisk (state S.Store tx.new.conn.now)
        → IfOk result (λ count. Makes H.filing (changed_by (Sent letter.now)) count
        (state S.Store tx.old.conn.now) (state S.Store tx.new.conn.now)) }
    ensures kept { HasCleanDisk (state S.Store tx.new.conn.now)
        → KeepsCommit (state S.Store tx.old.conn.now) (state S.Store tx.new.conn.now) }
    ensures survives { Survives (state S.Store tx.old.conn.now) (state S.Store tx.new.conn.now) (λ _. ⊥) }
{
    let count = put_sent::<H, S>(tx, &letter.pair, letter.number, count)?;
    put_letter::<H, S>(alloc, tx, letter, count)
}

/// Sets the settled mark of a pair.
fn put_settled<H: Filed, S: Alter>(
    tx: &mut Transaction<'_, S>,
    pair: &Pair,
    number: Number,
    count: u64,
) -> Result<u64, Error>
    requires filed { HasCleanDisk (state S.Store tx.old.conn.now)
        → IsFiled H.filing.schema count (state S.Store tx.old.conn.now).now }
    requires sound { HasCleanDisk (state S.Store tx.old.conn.now) → IsDatabase (state S.Store tx.old.conn.now).now }
    requires inside { HasCleanDisk (state S.Store tx.old.conn.now)
        → IsTrue (state S.Store tx.old.conn.now).in_transaction }
    ensures same_reference { tx.new.conn.ghost_name ≡ tx.old.conn.ghost_name }
    ensures ok { HasCleanDisk (state S.Store tx.new.conn.now)
        → IfOk result (λ count. Makes H.filing (with_settled pair.now number) count
        (state S.Store tx.old.conn.now) (state S.Store tx.new.conn.now)) }
    ensures kept { HasCleanDisk (state S.Store tx.new.conn.now)
        → KeepsCommit (state S.Store tx.old.conn.now) (state S.Store tx.new.conn.now) }
    ensures survives { Survives (state S.Store tx.old.conn.now) (state S.Store tx.new.conn.now) (λ _. ⊥) }
{
    // Both marks are in one row, which is written whole: the number sent last stays.
    let rows = find_marks(tx, pair.from.text(), pair.to.text());
    let sent = cell_of(rows, 0)?;
    let made = put_out_marks(
        tx,
        pair.from.text(),
        pair.to.text(),
        sent,
        bound_number(number),
    );
    counted(made, count)
}

/// Takes the letters of a pair up to a number out of the outbox.
fn take_letters<H: Filed, S: Alter>(
    tx: &mut Transaction<'_, S>,
    pair: &Pair,
    number: Number,
    count: u64,
) -> Result<u64, Error>
    requires filed { HasCleanDisk (state S.Store tx.old.conn.now)
        → IsFiled H.filing.schema count (state S.Store tx.old.conn.now).now }
    requires sound { HasCleanDisk (state S.Store tx.old.conn.now) → IsDatabase (state S.Store tx.old.conn.now).now }
    requires inside { HasCleanDisk (state S.Store tx.old.conn.now)
        → IsTrue (state S.Store tx.old.conn.now).in_transaction }
    ensures same_reference { tx.new.conn.ghost_name ≡ tx.old.conn.ghost_name }
    ensures ok { HasCleanDisk (state S.Store tx.new.conn.now)
        → IfOk result (λ count. Makes H.filing (without_letters pair.now number) count
        (state S.Store tx.old.conn.now) (state S.Store tx.new.conn.now)) }
    ensures kept { HasCleanDisk (state S.Store tx.new.conn.now)
        → KeepsCommit (state S.Store tx.old.conn.now) (state S.Store tx.new.conn.now) }
    ensures survives { Survives (state S.Store tx.old.conn.now) (state S.Store tx.new.conn.now) (λ _. ⊥) }
{
    let made = settle_outbox(tx, pair.from.text(), pair.to.text(), bound_number(number));
    counted(made, count)
}

/// Settles a pair up to a number.
fn write_settled<H: Filed, S: Alter>(
    tx: &mut Transaction<'_, S>,
    pair: &Pair,
    number: Number,
    count: u64,
) -> Result<u64, Error>
    requires filed { HasCleanDisk (state S.Store tx.old.conn.now)
        → IsFiled H.filing.schema count (state S.Store tx.old.conn.now).now }
    requires sound { HasCleanDisk (state S.Store tx.old.conn.now) → IsDatabase (state S.Store tx.old.conn.now).now }
    requires inside { HasCleanDisk (state S.Store tx.old.conn.now)
        → IsTrue (state S.Store tx.old.conn.now).in_transaction }
    ensures same_reference { tx.new.conn.ghost_name ≡ tx.old.conn.ghost_name }
    ensures ok { HasCleanDisk (state S.Store tx.new.conn.now)
        → IfOk result (λ count. Makes H.filing (changed_by (Settled pair.now number)) count
        (state S.Store tx.old.conn.now) (state S.Store tx.new.conn.now)) }
    ensures kept { HasCleanDisk (state S.Store tx.new.conn.now)
        → KeepsCommit (state S.Store tx.old.conn.now) (state S.Store tx.new.conn.now) }
    ensures survives { Survives (state S.Store tx.old.conn.now) (state S.Store tx.new.conn.now) (λ _. ⊥) }
{
    let count = put_settled::<H, S>(tx, pair, number, count)?;
    take_letters::<H, S>(tx, pair, number, count)
}

/// Adds a row of a command to the journal.
fn write_command<H: Filed, S: Alter>(
    alloc: Global,
    tx: &mut Transaction<'_, S>,
    entity: &Entity,
    seat: u8,
    command: &H::Command,
    count: u64,
) -> Result<u64, Error>
    requires filed { HasCleanDisk (state S.Store tx.old.conn.now)
        → IsFiled H.filing.schema count (state S.Store tx.old.conn.now).now }
    requires sound { HasCleanDisk (state S.Store tx.old.conn.now) → IsDatabase (state S.Store tx.old.conn.now).now }
    requires inside { HasCleanDisk (state S.Store tx.old.conn.now)
        → IsTrue (state S.Store tx.old.conn.now).in_transaction }
    ensures same_reference { tx.new.conn.ghost_name ≡ tx.old.conn.ghost_name }
    ensures ok { HasCleanDisk (state S.Store tx.new.conn.now)
        → IfOk result (λ count. Makes H.filing
        (with_row (record { entity = entity.now; input = FromSeat seat command.now })) count
        (state S.Store tx.old.conn.now) (state S.Store tx.new.conn.now)) }
    ensures kept { HasCleanDisk (state S.Store tx.new.conn.now)
        → KeepsCommit (state S.Store tx.old.conn.now) (state S.Store tx.new.conn.now) }
    ensures survives { Survives (state S.Store tx.old.conn.now) (state S.Store tx.new.conn.now) (λ _. ⊥) }
{
    // The count that is kept beside the file must not wrap around.
    if count == u64::MAX {
        return Err(Error::InvalidQuery);
    }
    let body = command.body(alloc)?;
    let made = add_command(tx, entity.text(), i64::from(seat), body.as_str());
    counted(made, count + 1)
}

/// Adds a row of a message to the journal.
fn write_message<H: Filed, S: Alter>(
    alloc: Global,
    tx: &mut Transaction<'_, S>,
    entity: &Entity,
    sender: &Entity,
    number: Number,
    message: Message,
    count: u64,
) -> Result<u64, Error>
    requires filed { HasCleanDisk (state S.Store tx.old.conn.now)
        → IsFiled H.filing.schema count (state S.Store tx.old.conn.now).now }
    requires sound { HasCleanDisk (state S.Store tx.old.conn.now) → IsDatabase (state S.Store tx.old.conn.now).now }
    requires inside { HasCleanDisk (state S.Store tx.old.conn.now)
        → IsTrue (state S.Store tx.old.conn.now).in_transaction }
    ensures same_reference { tx.new.conn.ghost_name ≡ tx.old.conn.ghost_name }
    ensures ok { HasCleanDisk (state S.Store tx.new.conn.now)
        → IfOk result (λ count. Makes H.filing
        (with_row (record { entity = entity.now; input = FromEntity sender.now number message })) count
        (state S.Store tx.old.conn.now) (state S.Store tx.new.conn.now)) }
    ensures kept { HasCleanDisk (state S.Store tx.new.conn.now)
        → KeepsCommit (state S.Store tx.old.conn.now) (state S.Store tx.new.conn.now) }
    ensures survives { Survives (state S.Store tx.old.conn.now) (state S.Store tx.new.conn.now) (λ _. ⊥) }
{
    if count == u64::MAX {
        return Err(Error::InvalidQuery);
    }
    let body = message.body(alloc)?;
    let made = add_message(
        tx,
        entity.text(),
        sender.text(),
        bound_number(number),
        body.as_str(),
    );
    counted(made, count + 1)
}

/// Adds a row to the journal, after the others.
fn write_row<H: Filed, S: Alter>(
    alloc: Global,
    tx: &mut Transaction<'_, S>,
    row: &JournalRow<H::Command>,
    count: u64,
) -> Result<u64, Error>
    requires filed { HasCleanDisk (state S.Store tx.old.conn.now)
        → IsFiled H.filing.schema count (state S.Store tx.old.conn.now).now }
    requires sound { HasCleanDisk (state S.Store tx.old.conn.now) → IsDatabase (state S.Store tx.old.conn.now).now }
    requires inside { HasCleanDisk (state S.Store tx.old.conn.now)
        → IsTrue (state S.Store tx.old.conn.now).in_transaction }
    ensures same_reference { tx.new.conn.ghost_name ≡ tx.old.conn.ghost_name }
    ensures ok { HasCleanDisk (state S.Store tx.new.conn.now)
        → IfOk result (λ count. Makes H.filing (with_row row.now) count
        (state S.Store tx.old.conn.now) (state S.Store tx.new.conn.now)) }
    ensures kept { HasCleanDisk (state S.Store tx.new.conn.now)
        → KeepsCommit (state S.Store tx.old.conn.now) (state S.Store tx.new.conn.now) }
    ensures survives { Survives (state S.Store tx.old.conn.now) (state S.Store tx.new.conn.now) (λ _. ⊥) }
{
    match &row.input {
        Input::FromSeat(seat, command) => {
            write_command::<H, S>(alloc, tx, &row.entity, *seat, command, count)
        }
        Input::FromEntity(sender, number, message) => {
            write_message::<H, S>(alloc, tx, &row.entity, sender, *number, *message, count)
        }
    }
}

/// Makes one change, of a state as a whole, and answers how many rows the journal has then.
fn write_change<H: Filed, S: Alter>(
    alloc: Global,
    tx: &mut Transaction<'_, S>,
    change: &Change<H::State, H::Command>,
    count: u64,
) -> Result<u64, Error>
    requires filed { HasCleanDisk (state S.Store tx.old.conn.now)
        → IsFiled H.filing.schema count (state S.Store tx.old.conn.now).now }
    requires sound { HasCleanDisk (state S.Store tx.old.conn.now) → IsDatabase (state S.Store tx.old.conn.now).now }
    requires inside { HasCleanDisk (state S.Store tx.old.conn.now)
        → IsTrue (state S.Store tx.old.conn.now).in_transaction }
    ensures same_reference { tx.new.conn.ghost_name ≡ tx.old.conn.ghost_name }
    ensures ok { HasCleanDisk (state S.Store tx.new.conn.now)
        → IfOk result (λ count. Makes H.filing (changed_by change.now) count
        (state S.Store tx.old.conn.now) (state S.Store tx.new.conn.now)) }
    ensures kept { HasCleanDisk (state S.Store tx.new.conn.now)
        → KeepsCommit (state S.Store tx.old.conn.now) (state S.Store tx.new.conn.now) }
    ensures survives { Survives (state S.Store tx.old.conn.now) (state S.Store tx.new.conn.now) (λ _. ⊥) }
{
    match change {
        // The position isn't bound, as SQLite gives the next one: that it is the next is a premise of the store law.
        Change::Journal(_, row) => write_row::<H, S>(alloc, tx, row, count),
        Change::State(entity, row) => H::write_state::<S>(alloc, tx, entity, row, count),
        Change::Sent(letter) => write_sent::<H, S>(alloc, tx, letter, count),
        Change::Settled(pair, number) => write_settled::<H, S>(tx, pair, *number, count),
        Change::Handled(pair, number) => write_handled::<H, S>(tx, pair, *number, count),
        Change::NotHeld(pair, number) => write_not_held::<H, S>(tx, pair, *number, count),
        Change::Held(letter) => write_held::<H, S>(alloc, tx, letter, count),
    }
}

/// Who sent the input that a row of the journal tells of, where one stands first among these changes: no sender is a
/// seat.
fn sender_behind<S, C>(behind: &[Change<S, C>]) -> Option<Option<&Entity>>
    ensures { option_map option_copied result ≡ sender_behind behind.now }
{
    match behind.first() {
        Some(Change::Journal(_, row)) => match &row.input {
            Input::FromSeat(_, _) => Some(None),
            Input::FromEntity(sender, _, _) => Some(Some(sender)),
        },
        // No step, then: the state is written as a whole, which is right for any change.
        _ => None,
    }
}

/// Forgets the state that a change sets or takes away, and tells whether it was known.
fn forget<S: Drop, C>(states: &mut LastStates<S>, change: &Change<S, C>) -> bool
    ensures known { (t : Tables S C) → Knows (known_of states.old) t.entity
        → Knows (known_of states.new) (changed_by change.now t).entity }
    ensures stood { IsTrue result → (t : Tables S C) → Knows (known_of states.old) t.entity → (e : Entity)
        (row : Option S) → change.now ≡ State e row → is_some (t.entity e) ≡ true }
{
    match change {
        Change::State(entity, _) => states.forget(entity),
        _ => false,
    }
}

/// Keeps a state that a change sets, where memory can be had.
fn note<H: Filed>(
    alloc: Global,
    states: &mut LastStates<H::State>,
    change: &Change<H::State, H::Command>,
)
    ensures { (t : Tables H.State H.Command) → Knows (known_of states.old) (changed_by change.now t).entity
        → Knows (known_of states.new) (changed_by change.now t).entity }
{
    if let Change::State(entity, row) = change {
        remember_row::<H>(alloc, states, entity, row);
    }
}

/// Makes one change, and answers how many rows the journal has then: of a state whose row is known to stand no more is
/// written than what the step changes.
fn write_known<H: Filed, S: Alter>(
    alloc: Global,
    tx: &mut Transaction<'_, S>,
    change: &Change<H::State, H::Command>,
    step: Option<Option<&Entity>>,
    is_known: bool,
    count: u64,
) -> Result<u64, Error>
    requires filed { HasCleanDisk (state S.Store tx.old.conn.now)
        → IsFiled H.filing.schema count (state S.Store tx.old.conn.now).now }
    requires sound { HasCleanDisk (state S.Store tx.old.conn.now) → IsDatabase (state S.Store tx.old.conn.now).now }
    requires inside { HasCleanDisk (state S.Store tx.old.conn.now)
        → IsTrue (state S.Store tx.old.conn.now).in_transaction }
    requires stands { HasCleanDisk (state S.Store tx.old.conn.now) → IsTrue is_known → (e : Entity)
        (row : Option H.State) → change.now ≡ State e row
        → is_some (H.filing.entity (state S.Store tx.old.conn.now).now.trees e) ≡ true }
    requires step { HasCleanDisk (state S.Store tx.old.conn.now)
        → IsStepBy H.State.follows (option_map option_copied step) change.now
        (tables_of H.filing (state S.Store tx.old.conn.now).now.trees) }
    ensures same_reference { tx.new.conn.ghost_name ≡ tx.old.conn.ghost_name }
    ensures ok { HasCleanDisk (state S.Store tx.new.conn.now)
        → IfOk result (λ count. Makes H.filing (changed_by change.now) count
        (state S.Store tx.old.conn.now) (state S.Store tx.new.conn.now)) }
    ensures kept { HasCleanDisk (state S.Store tx.new.conn.now)
        → KeepsCommit (state S.Store tx.old.conn.now) (state S.Store tx.new.conn.now) }
    ensures survives { Survives (state S.Store tx.old.conn.now) (state S.Store tx.new.conn.now) (λ _. ⊥) }
{
    match (change, step) {
        // A step writes parts of a row, so it needs one that is known to be there.
        (Change::State(entity, Some(state)), Some(sender)) if is_known => {
            H::write_step::<S>(alloc, tx, entity, state, sender, count)
        }
        _ => write_change::<H, S>(alloc, tx, change, count),
    }
}

/// Makes one change, and answers how many rows the journal has then. What is known of states goes with it.
fn write_one<H: Filed, S: Alter>(
    alloc: Global,
    tx: &mut Transaction<'_, S>,
    states: &mut LastStates<H::State>,
    change: &Change<H::State, H::Command>,
    step: Option<Option<&Entity>>,
    count: u64,
) -> Result<u64, Error>
    requires filed { HasCleanDisk (state S.Store tx.old.conn.now)
        → IsFiled H.filing.schema count (state S.Store tx.old.conn.now).now }
    requires sound { HasCleanDisk (state S.Store tx.old.conn.now) → IsDatabase (state S.Store tx.old.conn.now).now }
    requires inside { HasCleanDisk (state S.Store tx.old.conn.now)
        → IsTrue (state S.Store tx.old.conn.now).in_transaction }
    requires known { HasCleanDisk (state S.Store tx.old.conn.now)
        → Knows (known_of states.old) (H.filing.entity (state S.Store tx.old.conn.now).now.trees) }
    requires step { HasCleanDisk (state S.Store tx.old.conn.now)
        → IsStepBy H.State.follows (option_map option_copied step) change.now
        (tables_of H.filing (state S.Store tx.old.conn.now).now.trees) }
    ensures same_reference { tx.new.conn.ghost_name ≡ tx.old.conn.ghost_name }
    ensures ok { HasCleanDisk (state S.Store tx.new.conn.now)
        → IfOk result (λ count. Makes H.filing (changed_by change.now) count
        (state S.Store tx.old.conn.now) (state S.Store tx.new.conn.now)) }
    ensures kept { HasCleanDisk (state S.Store tx.new.conn.now)
        → KeepsCommit (state S.Store tx.old.conn.now) (state S.Store tx.new.conn.now) }
    ensures survives { Survives (state S.Store tx.old.conn.now) (state S.Store tx.new.conn.now) (λ _. ⊥) }
    ensures known { HasCleanDisk (state S.Store tx.new.conn.now)
        → OnOk result (Knows (known_of states.new) (H.filing.entity (state S.Store tx.new.conn.now).now.trees)) }
{
    // Forgotten before the row is written: where the statement fails, no state is known that the file hasn't got.
    let is_known = forget(states, change);
    let count = write_known::<H, S>(alloc, tx, change, step, is_known, count)?;
    // Before the commit: a later change of this transaction may be of the same entity. If the commit fails, all is
    // forgotten.
    note::<H>(alloc, states, change);
    Ok(count)
}

/// The step of the change at a place, where changes are steps.
fn step_at<S, C>(changes: &[Change<S, C>], place: usize, are_steps: bool) -> Option<Option<&Entity>>
    requires { place < length changes.now }
    ensures { option_map option_copied result ≡ step_at are_steps (drop (place + 1) changes.now) }
{
    if are_steps {
        // A state's row of the journal comes right after it, and says by whose input the state came.
        sender_behind(&changes[place + 1..])
    } else {
        None
    }
}

/// Makes the changes, in order, up to the first that is refused, and answers how many rows the journal has then.
fn stage<H: Filed, S: Alter>(
    alloc: Global,
    tx: &mut Transaction<'_, S>,
    states: &mut LastStates<H::State>,
    changes: &[Change<H::State, H::Command>],
    are_steps: bool,
    count: u64,
) -> Result<u64, Error>
    requires filed { HasCleanDisk (state S.Store tx.old.conn.now)
        → IsFiled H.filing.schema count (state S.Store tx.old.conn.now).now }
    requires sound { HasCleanDisk (state S.Store tx.old.conn.now) → IsDatabase (state S.Store tx.old.conn.now).now }
    requires inside { HasCleanDisk (state S.Store tx.old.conn.now)
        → IsTrue (state S.Store tx.old.conn.now).in_transaction }
    requires open { HasCleanDisk (state S.Store tx.old.conn.now) → IsTrue (state S.Store tx.old.conn.now).is_open }
    requires known { HasCleanDisk (state S.Store tx.old.conn.now)
        → Knows (known_of states.old) (H.filing.entity (state S.Store tx.old.conn.now).now.trees) }
    requires steps { HasCleanDisk (state S.Store tx.old.conn.now) → IsTrue are_steps
        → AreSteps H.State.follows changes.now (tables_of H.filing (state S.Store tx.old.conn.now).now.trees) }
    ensures same_reference { tx.new.conn.ghost_name ≡ tx.old.conn.ghost_name }
    ensures ok { HasCleanDisk (state S.Store tx.new.conn.now)
        → IfOk result (λ count. Makes H.filing (changed changes.now) count
        (state S.Store tx.old.conn.now) (state S.Store tx.new.conn.now)) }
    ensures kept { HasCleanDisk (state S.Store tx.new.conn.now)
        → KeepsCommit (state S.Store tx.old.conn.now) (state S.Store tx.new.conn.now) }
    ensures survives { Survives (state S.Store tx.old.conn.now) (state S.Store tx.new.conn.now) (λ _. ⊥) }
    ensures known { HasCleanDisk (state S.Store tx.new.conn.now)
        → OnOk result (Knows (known_of states.new) (H.filing.entity (state S.Store tx.new.conn.now).now.trees)) }
{
    let mut count = count;
    // By place: whether a state is a step is read off the change after it.
    for place in 0..changes.len() {
        let step = step_at(changes, place, are_steps);
        count = write_one::<H, S>(alloc, tx, states, &changes[place], step, count)?;
    }
    Ok(count)
}

/// Makes all changes in one transaction, or none, and answers how many rows the journal has then. The states that are
/// known go with it.
pub fn write_all<H: Filed, S: Alter>(
    alloc: Global,
    conn: &mut Connection<S>,
    states: &mut LastStates<H::State>,
    changes: &[Change<H::State, H::Command>],
    are_steps: bool,
    count: u64,
) -> Result<u64, Error>
    requires autocommit { conn.old.in_transaction ≡ false }
    requires ready { HasCleanDisk (state S.Store conn.old) → IsReady H.filing.schema count (state S.Store conn.old) }
    requires known { HasCleanDisk (state S.Store conn.old)
        → Knows (known_of states.old) (H.filing.entity (state S.Store conn.old).now.trees) }
    requires steps { HasCleanDisk (state S.Store conn.old) → IsTrue are_steps
        → AreSteps H.State.follows changes.now (tables_of H.filing (state S.Store conn.old).now.trees) }
    ensures autocommit { conn.new.in_transaction ≡ false }
    ensures known { HasCleanDisk (state S.Store conn.new) → IsTrue (state S.Store conn.new).is_open
        → Knows (known_of states.new) (H.filing.entity (state S.Store conn.new).now.trees) }
    ensures ok { HasCleanDisk (state S.Store conn.new)
        → IfOk result (λ count. IsReady H.filing.schema count (state S.Store conn.new)
        × (tables_of H.filing (state S.Store conn.new).now.trees
        ≡ changed changes.now (tables_of H.filing (state S.Store conn.old).now.trees))) }
    ensures err { HasCleanDisk (state S.Store conn.new) → IsTrue (state S.Store conn.new).is_open
        → OnErr result (IsReady H.filing.schema count (state S.Store conn.new)
        × ((state S.Store conn.new).now.trees ≡ (state S.Store conn.old).now.trees)) }
    ensures crash { (db : Trees) → HasCleanDisk (state S.Store conn.new) → (state S.Store conn.new).may_leave db
        → (state S.Store conn.old).may_leave db
        ⊎ (tables_of H.filing db ≡ changed changes.now (tables_of H.filing (state S.Store conn.old).now.trees)) }
    ensures clean { doubt (state S.Store conn.old).is_clean ≤ doubt (state S.Store conn.new).is_clean }
{
    // Called for what its contract says: the rows are as the schema demands.
    let _ = conn.schema();
    let mut tx = conn.transaction();
    let count = match stage::<H, S>(alloc, &mut tx, states, changes, are_steps, count) {
        Ok(count) => count,
        Err(error) => {
            // The rollback takes the rows back, and not what was noted beside them.
            states.clear();
            tx.rollback();
            return Err(error);
        }
    };
    // The proof tells of both ends, each by its arm.
    match tx.commit() {
        Ok(()) => Ok(count),
        Err(error) => {
            // Whether the commit is in the file isn't known now.
            states.clear();
            Err(error)
        }
    }
}
