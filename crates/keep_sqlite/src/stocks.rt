//! The warehouse in files.

ghost use Rattle.std.specs.Prelude.{◌≡◌, ◌≤◌, true, false, refl, map, Some, None, OnOk, IfOk, IsTrue, slice_get};
ghost use Rattle.std.specs.Prelude.{is_some, option_copied};
ghost use Rattle.std.specs.List.{AllByRecursion};
ghost use Rattle.sqlite_trees.specs.Tree.{Trees};
ghost use Rattle.sqlite_trees.specs.View.{doubt};
ghost use Rattle.sqlite.specs.Effect.{IsDatabase};
ghost use Rattle.sqlite.specs.Held.{state};
ghost use Rattle.sqlite.specs.State.{HasCleanDisk, Survives, KeepsCommit};
ghost use Rattle.base.specs.Entity.{stock_of};
ghost use Rattle.keep.specs.Tables.{changed_by};
ghost use Rattle.keep.specs.declared.change.Change.TheVariants.{State};
ghost use Rattle.sql_bodies.specs.LineRows.{lines_with, IsRow};
ghost use Rattle.sql_bodies.specs.Words.{stock_phase_in};
ghost use Rattle.sql_rows.specs.Schema.{warehouse};
ghost use Rattle.sql_rows.specs.Tables.{Adds, Edits, IsRising, Puts, Stays, pair_key, text_key};
ghost use Rattle.trade.specs.Following.{LinesFollow};
ghost use Rattle.trade.specs.Sound.{IsStockSound};
ghost use Rattle.trade.specs.Stocks.{StockState};
ghost use Rattle.trade.specs.Words.{stock_line_word};
ghost use Rattle.keep_sqlite.specs.AddedRows.{AreAdded};
ghost use Rattle.keep_sqlite.specs.Holders.{line_cells, lines_in, shown_line, state_in};
ghost use Rattle.keep_sqlite.specs.Migration.{as_today};
ghost use Rattle.keep_sqlite.specs.Ready.{IsFiled, IsReady, Makes};
ghost use Rattle.keep_sqlite.specs.Stocks.{stocks, stock_cells, stock_from};

use crate::filed::Filed;
use crate::lines::sender_line;
use crate::progress::Progress;
use crate::writes::{bound_number, bound_quantity};
use base::{Entity, Kind};
use sql_bodies::put_stock_line;
use sql_rows::{
    Service, add_stock_line, put_stock, read_stock, read_stock_lines, set_version, take_stock,
    take_stock_lines,
};
use sqlite::{Alter, Connection, Error, Row, Transaction};
use std::alloc::{AllocError, Global};
use trade::{Holder, Line, Lines, StockCommand};
use warehouse::{Stock, Stocks};

/// Puts the line that a row tells among others.
fn put_line(alloc: Global, lines: &mut Lines, row: &Row) -> Result<(), Error>
    ensures { OnOk result (lines_with (shown_line stock_phase_in row.now) lines.old ≡ Some lines.new) }
{
    let order: String = row.get(0)?;
    let number: u64 = row.get(1)?;
    let phase: String = row.get(2)?;
    if put_stock_line(alloc, lines, order.as_str(), number, phase.as_str())? {
        Ok(())
    } else {
        Err(Error::InvalidQuery)
    }
}

/// The lines that an answer tells.
fn lines_in(alloc: Global, rows: &[Row]) -> Result<Lines, Error>
    ensures { IfOk result (λ lines. lines_in (shown_line stock_phase_in) rows.now ≡ Some lines) }
{
    let mut lines = Lines::new(alloc);
    for row in rows {
        put_line(alloc, &mut lines, row)?;
    }
    Ok(lines)
}

/// The stock of these numbers and lines.
fn stock_from(head: &Row, lines: Lines) -> Result<Stock, Error>
    ensures { IfOk result (λ stock. stock ≡ stock_from 0 head.now lines) }
{
    let on_hand: u64 = head.get(0)?;
    let held: u64 = head.get(1)?;
    let shipped: u64 = head.get(2)?;
    let received: u64 = head.get(3)?;
    match Stock::from_parts(on_hand, held, shipped, received, lines) {
        Some(stock) => Ok(stock),
        // No check of the tables compares the numbers with the lines, so it is done here, at each read.
        None => Err(Error::InvalidQuery),
    }
}

/// The stock that two answers tell, if there is one.
fn stock_in(alloc: Global, heads: &[Row], rows: &[Row]) -> Result<Option<Stock>, Error>
    ensures { IfOk result (λ found. found
        ≡ state_in (stock_from 0) (shown_line stock_phase_in) (slice_get heads.now 0) rows.now) }
{
    let Some(head) = heads.first() else {
        return Ok(None);
    };
    let lines = lines_in(alloc, rows)?;
    let stock = stock_from(head, lines)?;
    Ok(Some(stock))
}

/// The stock of a key, if there is one.
fn find_stock<S: Alter>(
    alloc: Global,
    conn: &mut Connection<S>,
    key: &str,
    _count: u64,
) -> Result<Option<Stock>, Error>
    requires autocommit { conn.old.in_transaction ≡ false }
    requires ready { HasCleanDisk (state S.Store conn.old) → IsReady warehouse _count (state S.Store conn.old) }
    ensures found { HasCleanDisk (state S.Store conn.new) → IfOk result (λ found. found
        ≡ stocks.entity (state S.Store conn.old).now.trees (stock_of key.now)) }
    ensures autocommit { conn.new.in_transaction ≡ false }
    ensures open { HasCleanDisk (state S.Store conn.new) → OnOk result (IsTrue (state S.Store conn.new).is_open) }
    ensures stays { HasCleanDisk (state S.Store conn.new) → Stays (state S.Store conn.old) (state S.Store conn.new) }
    ensures crash { HasCleanDisk (state S.Store conn.new) → (db : Trees) → (state S.Store conn.new).may_leave db
        → (state S.Store conn.old).may_leave db }
    ensures clean { doubt (state S.Store conn.old).is_clean ≤ doubt (state S.Store conn.new).is_clean }
{
    // Called for what its contract says: the rows are as the schema demands.
    let _ = conn.schema();
    let heads = read_stock(conn, key)?;
    let rows = read_stock_lines(conn, key)?;
    stock_in(alloc, heads.as_slice(), rows.as_slice())
}

/// Adds a line.
fn add_line<S: Alter>(tx: &mut Transaction<'_, S>, key: &str, line: &Line) -> Result<usize, Error>
    requires schema { HasCleanDisk (state S.Store tx.old.conn.now)
        → (state S.Store tx.old.conn.now).now.schema ≡ warehouse }
    requires rising { HasCleanDisk (state S.Store tx.old.conn.now)
        → IsRising ((state S.Store tx.old.conn.now).now.trees 11) }
    requires inside { HasCleanDisk (state S.Store tx.old.conn.now)
        → IsTrue (state S.Store tx.old.conn.now).in_transaction }
    ensures same_reference { tx.new.conn.ghost_name ≡ tx.old.conn.ghost_name }
    ensures row { IsRow line.now }
    ensures ok { HasCleanDisk (state S.Store tx.new.conn.now) → OnOk result (Edits 11
        (Adds (line_cells stock_line_word key.now line.now))
        (state S.Store tx.old.conn.now) (state S.Store tx.new.conn.now)) }
    ensures kept { HasCleanDisk (state S.Store tx.new.conn.now)
        → KeepsCommit (state S.Store tx.old.conn.now) (state S.Store tx.new.conn.now) }
    ensures survives { Survives (state S.Store tx.old.conn.now) (state S.Store tx.new.conn.now) (λ _. ⊥) }
{
    let order = line.order();
    add_stock_line(
        tx,
        key,
        order.key(),
        bound_number(line.number()),
        line.phase().stock_word(),
    )
}

/// Adds lines, in order.
fn add_lines<S: Alter>(tx: &mut Transaction<'_, S>, key: &str, lines: &[Line]) -> Result<(), Error>
    requires schema { HasCleanDisk (state S.Store tx.old.conn.now)
        → (state S.Store tx.old.conn.now).now.schema ≡ warehouse }
    requires rising { HasCleanDisk (state S.Store tx.old.conn.now)
        → IsRising ((state S.Store tx.old.conn.now).now.trees 11) }
    requires sound { HasCleanDisk (state S.Store tx.old.conn.now) → IsDatabase (state S.Store tx.old.conn.now).now }
    requires inside { HasCleanDisk (state S.Store tx.old.conn.now)
        → IsTrue (state S.Store tx.old.conn.now).in_transaction }
    requires open { HasCleanDisk (state S.Store tx.old.conn.now) → IsTrue (state S.Store tx.old.conn.now).is_open }
    ensures same_reference { tx.new.conn.ghost_name ≡ tx.old.conn.ghost_name }
    ensures rows { OnOk result (AllByRecursion IsRow lines.now) }
    ensures ok { HasCleanDisk (state S.Store tx.new.conn.now) → OnOk result (Edits 11
        (AreAdded (map (line_cells stock_line_word key.now) lines.now))
        (state S.Store tx.old.conn.now) (state S.Store tx.new.conn.now)) }
    ensures kept { HasCleanDisk (state S.Store tx.new.conn.now)
        → KeepsCommit (state S.Store tx.old.conn.now) (state S.Store tx.new.conn.now) }
    ensures survives { Survives (state S.Store tx.old.conn.now) (state S.Store tx.new.conn.now) (λ _. ⊥) }
{
    for line in lines {
        add_line(tx, key, line)?;
    }
    Ok(())
}

/// Sets the line of an order.
fn set_line<S: Alter>(tx: &mut Transaction<'_, S>, key: &str, line: &Line) -> Result<usize, Error>
    requires schema { HasCleanDisk (state S.Store tx.old.conn.now)
        → (state S.Store tx.old.conn.now).now.schema ≡ warehouse }
    requires rising { HasCleanDisk (state S.Store tx.old.conn.now)
        → IsRising ((state S.Store tx.old.conn.now).now.trees 11) }
    requires inside { HasCleanDisk (state S.Store tx.old.conn.now)
        → IsTrue (state S.Store tx.old.conn.now).in_transaction }
    ensures same_reference { tx.new.conn.ghost_name ≡ tx.old.conn.ghost_name }
    ensures row { IsRow line.now }
    ensures ok { HasCleanDisk (state S.Store tx.new.conn.now) → OnOk result (Edits 11
        (Puts (pair_key key.now line.now.order.key) (line_cells stock_line_word key.now line.now))
        (state S.Store tx.old.conn.now) (state S.Store tx.new.conn.now)) }
    ensures kept { HasCleanDisk (state S.Store tx.new.conn.now)
        → KeepsCommit (state S.Store tx.old.conn.now) (state S.Store tx.new.conn.now) }
    ensures survives { Survives (state S.Store tx.old.conn.now) (state S.Store tx.new.conn.now) (λ _. ⊥) }
{
    let order = line.order();
    sql_rows::put_stock_line(
        tx,
        key,
        order.key(),
        bound_number(line.number()),
        line.phase().stock_word(),
    )
}

/// Sets the numbers of a stock.
fn put_head<S: Alter>(tx: &mut Transaction<'_, S>, key: &str, stock: &Stock) -> Result<usize, Error>
    requires schema { HasCleanDisk (state S.Store tx.old.conn.now)
        → (state S.Store tx.old.conn.now).now.schema ≡ warehouse }
    requires rising { HasCleanDisk (state S.Store tx.old.conn.now)
        → IsRising ((state S.Store tx.old.conn.now).now.trees 9) }
    requires inside { HasCleanDisk (state S.Store tx.old.conn.now)
        → IsTrue (state S.Store tx.old.conn.now).in_transaction }
    ensures same_reference { tx.new.conn.ghost_name ≡ tx.old.conn.ghost_name }
    ensures sound { IsStockSound stock.now }
    ensures ok { HasCleanDisk (state S.Store tx.new.conn.now) → OnOk result (Edits 9
        (Puts (text_key key.now) (stock_cells key.now stock.now))
        (state S.Store tx.old.conn.now) (state S.Store tx.new.conn.now)) }
    ensures kept { HasCleanDisk (state S.Store tx.new.conn.now)
        → KeepsCommit (state S.Store tx.old.conn.now) (state S.Store tx.new.conn.now) }
    ensures survives { Survives (state S.Store tx.old.conn.now) (state S.Store tx.new.conn.now) (λ _. ⊥) }
{
    put_stock(
        tx,
        key,
        bound_quantity(stock.on_hand()),
        bound_quantity(stock.held()),
        bound_quantity(stock.shipped()),
        bound_quantity(stock.received()),
    )
}

/// Sets a stock: its lines stand in place of those that were there.
fn set_stock<S: Alter>(
    tx: &mut Transaction<'_, S>,
    key: &str,
    stock: &Stock,
    count: u64,
) -> Result<u64, Error>
    requires filed { HasCleanDisk (state S.Store tx.old.conn.now)
        → IsFiled warehouse count (state S.Store tx.old.conn.now).now }
    requires sound { HasCleanDisk (state S.Store tx.old.conn.now) → IsDatabase (state S.Store tx.old.conn.now).now }
    requires inside { HasCleanDisk (state S.Store tx.old.conn.now)
        → IsTrue (state S.Store tx.old.conn.now).in_transaction }
    ensures same_reference { tx.new.conn.ghost_name ≡ tx.old.conn.ghost_name }
    ensures ok { HasCleanDisk (state S.Store tx.new.conn.now)
        → IfOk result (λ count. Makes stocks (changed_by (State (stock_of key.now) (Some stock.now))) count
        (state S.Store tx.old.conn.now) (state S.Store tx.new.conn.now)) }
    ensures kept { HasCleanDisk (state S.Store tx.new.conn.now)
        → KeepsCommit (state S.Store tx.old.conn.now) (state S.Store tx.new.conn.now) }
    ensures survives { Survives (state S.Store tx.old.conn.now) (state S.Store tx.new.conn.now) (λ _. ⊥) }
{
    // In this order, as lines refer to their stock's row.
    take_stock_lines(tx, key)?;
    put_head(tx, key, stock)?;
    let lines = stock.lines().to_vec()?;
    add_lines(tx, key, lines.as_slice())?;
    Ok(count)
}

/// Sets a stock that follows the one that stands by an input of this sender: its numbers, and the sender's line.
fn step_stock<S: Alter>(
    tx: &mut Transaction<'_, S>,
    key: &str,
    stock: &Stock,
    sender: Option<&Entity>,
    count: u64,
) -> Result<u64, Error>
    requires filed { HasCleanDisk (state S.Store tx.old.conn.now)
        → IsFiled warehouse count (state S.Store tx.old.conn.now).now }
    requires sound { HasCleanDisk (state S.Store tx.old.conn.now) → IsDatabase (state S.Store tx.old.conn.now).now }
    requires inside { HasCleanDisk (state S.Store tx.old.conn.now)
        → IsTrue (state S.Store tx.old.conn.now).in_transaction }
    requires stands { HasCleanDisk (state S.Store tx.old.conn.now)
        → is_some (stocks.entity (state S.Store tx.old.conn.now).now.trees (stock_of key.now)) ≡ true }
    requires follows { HasCleanDisk (state S.Store tx.old.conn.now) → (before : StockState)
        → stocks.entity (state S.Store tx.old.conn.now).now.trees (stock_of key.now) ≡ Some before
        → LinesFollow (option_copied sender) before.lines stock.now.lines }
    ensures same_reference { tx.new.conn.ghost_name ≡ tx.old.conn.ghost_name }
    ensures ok { HasCleanDisk (state S.Store tx.new.conn.now)
        → IfOk result (λ count. Makes stocks (changed_by (State (stock_of key.now) (Some stock.now))) count
        (state S.Store tx.old.conn.now) (state S.Store tx.new.conn.now)) }
    ensures kept { HasCleanDisk (state S.Store tx.new.conn.now)
        → KeepsCommit (state S.Store tx.old.conn.now) (state S.Store tx.new.conn.now) }
    ensures survives { Survives (state S.Store tx.old.conn.now) (state S.Store tx.new.conn.now) (λ _. ⊥) }
{
    // In any case: the state before isn't at hand, so nothing says whether the numbers differ.
    put_head(tx, key, stock)?;
    match sender_line(stock.lines(), sender) {
        Some(line) => {
            set_line(tx, key, line)?;
            Ok(count)
        }
        // Without a line of the sender's only the numbers may differ.
        None => Ok(count),
    }
}

/// Takes a stock away, its lines first.
fn remove_stock<S: Alter>(tx: &mut Transaction<'_, S>, key: &str, count: u64) -> Result<u64, Error>
    requires filed { HasCleanDisk (state S.Store tx.old.conn.now)
        → IsFiled warehouse count (state S.Store tx.old.conn.now).now }
    requires sound { HasCleanDisk (state S.Store tx.old.conn.now) → IsDatabase (state S.Store tx.old.conn.now).now }
    requires inside { HasCleanDisk (state S.Store tx.old.conn.now)
        → IsTrue (state S.Store tx.old.conn.now).in_transaction }
    ensures same_reference { tx.new.conn.ghost_name ≡ tx.old.conn.ghost_name }
    ensures ok { HasCleanDisk (state S.Store tx.new.conn.now)
        → IfOk result (λ count. Makes stocks (changed_by (State (stock_of key.now) None)) count
        (state S.Store tx.old.conn.now) (state S.Store tx.new.conn.now)) }
    ensures kept { HasCleanDisk (state S.Store tx.new.conn.now)
        → KeepsCommit (state S.Store tx.old.conn.now) (state S.Store tx.new.conn.now) }
    ensures survives { Survives (state S.Store tx.old.conn.now) (state S.Store tx.new.conn.now) (λ _. ⊥) }
{
    take_stock_lines(tx, key)?;
    take_stock(tx, key)?;
    Ok(count)
}

impl Filed for Stocks {
    type State = Stock;

    type Command = StockCommand;

    ghost filing = { stocks };

    fn service() -> Service {
        Service::Warehouse
    }

    fn copy_state(_alloc: Global, row: &Stock) -> Result<Stock, AllocError> {
        row.copy()
    }

    fn read_state<S: Alter>(
        alloc: Global,
        conn: &mut Connection<S>,
        entity: &Entity,
        count: u64,
    ) -> Result<Option<Stock>, Error> {
        match entity.kind() {
            Kind::Stock => find_stock(alloc, conn, entity.key(), count),
            // No row here is one of theirs.
            Kind::Order | Kind::Account => Ok(None),
        }
    }

    fn write_state<S: Alter>(
        _alloc: Global,
        tx: &mut Transaction<'_, S>,
        entity: &Entity,
        row: &Option<Stock>,
        count: u64,
    ) -> Result<u64, Error> {
        match (entity.kind(), row) {
            (Kind::Stock, Some(stock)) => set_stock(tx, entity.key(), stock, count),
            (Kind::Stock, None) => remove_stock(tx, entity.key(), count),
            // They have no place here.
            (Kind::Order | Kind::Account, _) => Err(Error::InvalidQuery),
        }
    }

    fn write_step<S: Alter>(
        _alloc: Global,
        tx: &mut Transaction<'_, S>,
        entity: &Entity,
        row: &Stock,
        sender: Option<&Entity>,
        count: u64,
    ) -> Result<u64, Error> {
        match entity.kind() {
            Kind::Stock => step_stock(tx, entity.key(), row, sender, count),
            Kind::Order | Kind::Account => Err(Error::InvalidQuery),
        }
    }

    ghost first = { as_today stocks };

    // The rows are as they were: the table `about` alone tells another version.
    fn renew<S: Alter, P: Progress>(
        _alloc: Global,
        tx: &mut Transaction<'_, S>,
        _progress: &mut P,
    ) -> Result<(), Error> {
        set_version(tx, Service::Warehouse)?;
        Ok(())
    }

    ghost commands = { λ body. refl };
}
