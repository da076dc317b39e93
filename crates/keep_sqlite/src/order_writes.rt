//! The rows of orders.

ghost use Rattle.std.specs.Prelude.{◌≡◌, ◌≤◌, ◌+◌, Some, None, OnOk, IfOk, IsTrue, take};
ghost use Rattle.std.specs.List.{AllByRecursion};
ghost use Rattle.sqlite.specs.Effect.{IsDatabase};
ghost use Rattle.sqlite.specs.Held.{state};
ghost use Rattle.sqlite.specs.State.{HasCleanDisk, Survives, KeepsCommit};
ghost use Rattle.base.specs.Entity.{order_of};
ghost use Rattle.keep.specs.Tables.{changed_by};
ghost use Rattle.keep.specs.declared.change.Change.TheVariants.{State};
ghost use Rattle.sql_rows.specs.Schema.{about_tree, purchasing};
ghost use Rattle.sql_rows.specs.declared.service.Service.TheVariants.{Purchasing};
ghost use Rattle.sql_rows.specs.Tables.{IsRising, Puts, Adds, Edits, text_key};
ghost use Rattle.keep_sqlite.specs.AddedRows.{AreAdded};
ghost use Rattle.keep_sqlite.specs.Ready.{IsFiled, Makes};
ghost use Rattle.keep_sqlite.specs.Orders.{orders, head_cells, line_cells, lines_cells, IsNamed};

use crate::writes::bound_number;
use purchasing::{Order, Partner};
use sql_rows::{add_order_line, put_order_head, take_order_head, take_order_lines};
use sqlite::{Alter, Error, Transaction};
use trade::Status;

/// Sets the head of an order.
fn put_head<S: Alter>(
    tx: &mut Transaction<'_, S>,
    key: &str,
    status: Status,
    account: &Partner,
) -> Result<(), Error>
    requires schema { HasCleanDisk (state S.Store tx.old.conn.now)
        → (state S.Store tx.old.conn.now).now.schema ≡ purchasing }
    requires rising { HasCleanDisk (state S.Store tx.old.conn.now)
        → IsRising ((state S.Store tx.old.conn.now).now.trees 9) }
    requires inside { HasCleanDisk (state S.Store tx.old.conn.now)
        → IsTrue (state S.Store tx.old.conn.now).in_transaction }
    ensures same_reference { tx.new.conn.ghost_name ≡ tx.old.conn.ghost_name }
    ensures named { IsNamed account.now }
    ensures ok { HasCleanDisk (state S.Store tx.new.conn.now) → OnOk result (Edits 9
        (Puts (text_key key.now) (head_cells key.now status account.now))
        (state S.Store tx.old.conn.now) (state S.Store tx.new.conn.now)) }
    ensures kept { HasCleanDisk (state S.Store tx.new.conn.now)
        → KeepsCommit (state S.Store tx.old.conn.now) (state S.Store tx.new.conn.now) }
    ensures survives { Survives (state S.Store tx.old.conn.now) (state S.Store tx.new.conn.now) (λ _. ⊥) }
{
    put_order_head(
        tx,
        key,
        account.entity().key(),
        bound_number(account.number()),
        status.word(),
        account.phase().word(),
    )?;
    Ok(())
}

/// Adds the line of a stock, at an index among an order's.
fn add_line<S: Alter>(
    tx: &mut Transaction<'_, S>,
    key: &str,
    index: usize,
    stock: &Partner,
) -> Result<(), Error>
    requires few { index ≤ 7 }
    requires schema { HasCleanDisk (state S.Store tx.old.conn.now)
        → (state S.Store tx.old.conn.now).now.schema ≡ purchasing }
    requires rising { HasCleanDisk (state S.Store tx.old.conn.now)
        → IsRising ((state S.Store tx.old.conn.now).now.trees 11) }
    requires inside { HasCleanDisk (state S.Store tx.old.conn.now)
        → IsTrue (state S.Store tx.old.conn.now).in_transaction }
    ensures same_reference { tx.new.conn.ghost_name ≡ tx.old.conn.ghost_name }
    ensures named { IsNamed stock.now }
    ensures ok { HasCleanDisk (state S.Store tx.new.conn.now) → OnOk result (Edits 11
        (Adds (line_cells key.now (index + 1, stock.now)))
        (state S.Store tx.old.conn.now) (state S.Store tx.new.conn.now)) }
    ensures kept { HasCleanDisk (state S.Store tx.new.conn.now)
        → KeepsCommit (state S.Store tx.old.conn.now) (state S.Store tx.new.conn.now) }
    ensures survives { Survives (state S.Store tx.old.conn.now) (state S.Store tx.new.conn.now) (λ _. ⊥) }
{
    add_order_line(
        tx,
        key,
        // Lines are numbered from 1.
        index as i64 + 1,
        stock.entity().key(),
        bound_number(stock.number()),
        stock.phase().word(),
    )?;
    Ok(())
}

/// Adds the lines of an order, of so many of its partners, the first of them first.
fn add_lines<S: Alter>(
    tx: &mut Transaction<'_, S>,
    key: &str,
    order: &Order,
    count: usize,
) -> Result<(), Error>
    requires few { count ≤ 8 }
    requires schema { HasCleanDisk (state S.Store tx.old.conn.now)
        → (state S.Store tx.old.conn.now).now.schema ≡ purchasing }
    requires rising { HasCleanDisk (state S.Store tx.old.conn.now)
        → IsRising ((state S.Store tx.old.conn.now).now.trees 11) }
    requires sound { HasCleanDisk (state S.Store tx.old.conn.now) → IsDatabase (state S.Store tx.old.conn.now).now }
    requires open { HasCleanDisk (state S.Store tx.old.conn.now) → IsTrue (state S.Store tx.old.conn.now).is_open }
    requires inside { HasCleanDisk (state S.Store tx.old.conn.now)
        → IsTrue (state S.Store tx.old.conn.now).in_transaction }
    ensures same_reference { tx.new.conn.ghost_name ≡ tx.old.conn.ghost_name }
    ensures named { OnOk result (AllByRecursion IsNamed (take count order.now.partners)) }
    ensures ok { HasCleanDisk (state S.Store tx.new.conn.now) → OnOk result (Edits 11
        (AreAdded (lines_cells key.now (take count order.now.partners)))
        (state S.Store tx.old.conn.now) (state S.Store tx.new.conn.now)) }
    ensures kept { HasCleanDisk (state S.Store tx.new.conn.now)
        → KeepsCommit (state S.Store tx.old.conn.now) (state S.Store tx.new.conn.now) }
    ensures survives { Survives (state S.Store tx.old.conn.now) (state S.Store tx.new.conn.now) (λ _. ⊥) }
{
    for index in 0..count {
        // Always `Some`, as callers pass fewer than there are. An error needs no proof of that, `unreachable` would.
        let Some(stock) = order.partner(index) else {
            return Err(Error::InvalidQuery);
        };
        add_line(tx, key, index, stock)?;
    }
    Ok(())
}

/// Puts an order in place of what its key has: its lines are taken away first, since they refer to its head.
pub fn put_order<S: Alter>(
    tx: &mut Transaction<'_, S>,
    key: &str,
    order: &Order,
    count: u64,
) -> Result<u64, Error>
    requires filed { HasCleanDisk (state S.Store tx.old.conn.now)
        → IsFiled purchasing count (state S.Store tx.old.conn.now).now }
    requires sound { HasCleanDisk (state S.Store tx.old.conn.now) → IsDatabase (state S.Store tx.old.conn.now).now }
    requires inside { HasCleanDisk (state S.Store tx.old.conn.now)
        → IsTrue (state S.Store tx.old.conn.now).in_transaction }
    ensures same_reference { tx.new.conn.ghost_name ≡ tx.old.conn.ghost_name }
    ensures ok { HasCleanDisk (state S.Store tx.new.conn.now)
        → IfOk result (λ count. Makes orders (changed_by (State (order_of key.now) (Some (Some order.now)))) count
        (state S.Store tx.old.conn.now) (state S.Store tx.new.conn.now)) }
    ensures about { HasCleanDisk (state S.Store tx.new.conn.now) → OnOk result
        ((state S.Store tx.new.conn.now).now.trees (about_tree Purchasing)
        ≡ (state S.Store tx.old.conn.now).now.trees (about_tree Purchasing)) }
    ensures kept { HasCleanDisk (state S.Store tx.new.conn.now)
        → KeepsCommit (state S.Store tx.old.conn.now) (state S.Store tx.new.conn.now) }
    ensures survives { Survives (state S.Store tx.old.conn.now) (state S.Store tx.new.conn.now) (λ _. ⊥) }
{
    // Its contract also says what the partners are, which the rows below rely on.
    let status = order.status();
    // An order has two partners at least.
    let stocks = order.partner_count().saturating_sub(1);
    // The account is the last of an order's partners, the stocks come before it.
    let Some(account) = order.partner(stocks) else {
        return Err(Error::InvalidQuery);
    };
    take_order_lines(tx, key)?;
    put_head(tx, key, status, account)?;
    add_lines(tx, key, order, stocks)?;
    Ok(count)
}

/// Takes an order away, its lines first, since they refer to its head.
fn take_order<S: Alter>(tx: &mut Transaction<'_, S>, key: &str, count: u64) -> Result<u64, Error>
    requires filed { HasCleanDisk (state S.Store tx.old.conn.now)
        → IsFiled purchasing count (state S.Store tx.old.conn.now).now }
    requires sound { HasCleanDisk (state S.Store tx.old.conn.now) → IsDatabase (state S.Store tx.old.conn.now).now }
    requires inside { HasCleanDisk (state S.Store tx.old.conn.now)
        → IsTrue (state S.Store tx.old.conn.now).in_transaction }
    ensures same_reference { tx.new.conn.ghost_name ≡ tx.old.conn.ghost_name }
    ensures ok { HasCleanDisk (state S.Store tx.new.conn.now)
        → IfOk result (λ count. Makes orders (changed_by (State (order_of key.now) None)) count
        (state S.Store tx.old.conn.now) (state S.Store tx.new.conn.now)) }
    ensures kept { HasCleanDisk (state S.Store tx.new.conn.now)
        → KeepsCommit (state S.Store tx.old.conn.now) (state S.Store tx.new.conn.now) }
    ensures survives { Survives (state S.Store tx.old.conn.now) (state S.Store tx.new.conn.now) (λ _. ⊥) }
{
    take_order_lines(tx, key)?;
    take_order_head(tx, key)?;
    Ok(count)
}

/// Sets the row of an order that was placed: no other has one.
pub fn set_order<S: Alter>(
    tx: &mut Transaction<'_, S>,
    key: &str,
    row: &Option<Order>,
    count: u64,
) -> Result<u64, Error>
    requires filed { HasCleanDisk (state S.Store tx.old.conn.now)
        → IsFiled purchasing count (state S.Store tx.old.conn.now).now }
    requires sound { HasCleanDisk (state S.Store tx.old.conn.now) → IsDatabase (state S.Store tx.old.conn.now).now }
    requires inside { HasCleanDisk (state S.Store tx.old.conn.now)
        → IsTrue (state S.Store tx.old.conn.now).in_transaction }
    ensures same_reference { tx.new.conn.ghost_name ≡ tx.old.conn.ghost_name }
    ensures ok { HasCleanDisk (state S.Store tx.new.conn.now)
        → IfOk result (λ count. Makes orders (changed_by (State (order_of key.now) (Some row.now))) count
        (state S.Store tx.old.conn.now) (state S.Store tx.new.conn.now)) }
    ensures kept { HasCleanDisk (state S.Store tx.new.conn.now)
        → KeepsCommit (state S.Store tx.old.conn.now) (state S.Store tx.new.conn.now) }
    ensures survives { Survives (state S.Store tx.old.conn.now) (state S.Store tx.new.conn.now) (λ _. ⊥) }
{
    match row {
        Some(order) => put_order(tx, key, order, count),
        None => Err(Error::InvalidQuery),
    }
}

/// Sets the row of an order, or takes it away: only an order that was placed has one.
pub fn write_order<S: Alter>(
    tx: &mut Transaction<'_, S>,
    key: &str,
    row: &Option<Option<Order>>,
    count: u64,
) -> Result<u64, Error>
    requires filed { HasCleanDisk (state S.Store tx.old.conn.now)
        → IsFiled purchasing count (state S.Store tx.old.conn.now).now }
    requires sound { HasCleanDisk (state S.Store tx.old.conn.now) → IsDatabase (state S.Store tx.old.conn.now).now }
    requires inside { HasCleanDisk (state S.Store tx.old.conn.now)
        → IsTrue (state S.Store tx.old.conn.now).in_transaction }
    ensures same_reference { tx.new.conn.ghost_name ≡ tx.old.conn.ghost_name }
    ensures ok { HasCleanDisk (state S.Store tx.new.conn.now)
        → IfOk result (λ count. Makes orders (changed_by (State (order_of key.now) row.now)) count
        (state S.Store tx.old.conn.now) (state S.Store tx.new.conn.now)) }
    ensures kept { HasCleanDisk (state S.Store tx.new.conn.now)
        → KeepsCommit (state S.Store tx.old.conn.now) (state S.Store tx.new.conn.now) }
    ensures survives { Survives (state S.Store tx.old.conn.now) (state S.Store tx.new.conn.now) (λ _. ⊥) }
{
    match row {
        Some(row) => set_order(tx, key, row, count),
        None => take_order(tx, key, count),
    }
}
