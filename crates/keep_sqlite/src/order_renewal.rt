//! The orders of version 1, written as those of today.

ghost use Rattle.std.specs.Prelude.{◌≡◌, OnOk, IfOk, IsTrue, map};
ghost use Rattle.sqlite.specs.Effect.{IsDatabase};
ghost use Rattle.sqlite.specs.Held.{state};
ghost use Rattle.sqlite.specs.State.{HasCleanDisk, Survives, KeepsCommit};
ghost use Rattle.keep.specs.Tables.{changed};
ghost use Rattle.sql_rows.specs.Schema.{about_tree, purchasing};
ghost use Rattle.sql_rows.specs.declared.service.Service.TheVariants.{Purchasing};
ghost use Rattle.keep_sqlite.specs.Migration.{IsFirst, Renews, first_orders};
ghost use Rattle.keep_sqlite.specs.OrderRenewal.{AreTold, TellsOrder, order_change};
ghost use Rattle.keep_sqlite.specs.Orders.{orders};
ghost use Rattle.keep_sqlite.specs.Ready.{IsFiled, Makes};

use crate::first_version::first_order_of;
use crate::journal_renewal::renew_journal;
use crate::order_writes::put_order;
use crate::progress::Progress;
use purchasing::Order;
use sql_rows::{read_first_orders_inside, replace_tables};
use sqlite::{Alter, Error, Row, Transaction};
use std::alloc::Global;

/// An order of version 1, under its key.
#[derive(Drop)]
pub struct KeyedOrder {
    key: String,
    order: Order,
}

/// The order that a row tells.
fn keyed_order_of(alloc: Global, row: &Row) -> Result<KeyedOrder, Error>
    ensures { IfOk result (TellsOrder row.now) }
{
    let key: String = row.get(0)?;
    let order = first_order_of(alloc, row)?;
    Ok(KeyedOrder { key, order })
}

/// The orders that an answer tells.
fn orders_of(alloc: Global, rows: &[Row]) -> Result<Vec<KeyedOrder>, Error>
    ensures { IfOk result (λ orders. AreTold rows.now orders.items) }
{
    let mut orders = Vec::new(alloc);
    for row in rows {
        let order = keyed_order_of(alloc, row)?;
        orders.push(order)?;
    }
    Ok(orders)
}

/// Puts these orders, each under its key, one after the other.
fn put_orders<S: Alter, P: Progress>(
    tx: &mut Transaction<'_, S>,
    keyed: &[KeyedOrder],
    count: u64,
    progress: &mut P,
) -> Result<u64, Error>
    requires filed { HasCleanDisk (state S.Store tx.old.conn.now)
        → IsFiled purchasing count (state S.Store tx.old.conn.now).now }
    requires sound { HasCleanDisk (state S.Store tx.old.conn.now) → IsDatabase (state S.Store tx.old.conn.now).now }
    requires inside { HasCleanDisk (state S.Store tx.old.conn.now)
        → IsTrue (state S.Store tx.old.conn.now).in_transaction }
    requires open { HasCleanDisk (state S.Store tx.old.conn.now) → IsTrue (state S.Store tx.old.conn.now).is_open }
    ensures same_reference { tx.new.conn.ghost_name ≡ tx.old.conn.ghost_name }
    ensures ok { HasCleanDisk (state S.Store tx.new.conn.now)
        → IfOk result (λ count. Makes orders (changed (map order_change keyed.now)) count
        (state S.Store tx.old.conn.now) (state S.Store tx.new.conn.now)) }
    ensures about { HasCleanDisk (state S.Store tx.new.conn.now) → OnOk result
        ((state S.Store tx.new.conn.now).now.trees (about_tree Purchasing)
        ≡ (state S.Store tx.old.conn.now).now.trees (about_tree Purchasing)) }
    ensures kept { HasCleanDisk (state S.Store tx.new.conn.now)
        → KeepsCommit (state S.Store tx.old.conn.now) (state S.Store tx.new.conn.now) }
    ensures survives { Survives (state S.Store tx.old.conn.now) (state S.Store tx.new.conn.now) (λ _. ⊥) }
{
    let mut count = count;
    for one in keyed {
        count = put_order(tx, one.key.as_str(), &one.order, count)?;
        progress.step();
    }
    Ok(count)
}

/// Writes the rows that purchasing had in version 1 as those of today: its orders are read before their table is
/// dropped, and put into the new ones after it. `progress` is called for each row of the journal and each order.
pub fn renew_orders<S: Alter, P: Progress>(
    alloc: Global,
    tx: &mut Transaction<'_, S>,
    progress: &mut P,
) -> Result<(), Error>
    requires first { HasCleanDisk (state S.Store tx.old.conn.now)
        → IsFirst Purchasing (state S.Store tx.old.conn.now).now }
    requires sound { HasCleanDisk (state S.Store tx.old.conn.now) → IsDatabase (state S.Store tx.old.conn.now).now }
    requires inside { HasCleanDisk (state S.Store tx.old.conn.now)
        → IsTrue (state S.Store tx.old.conn.now).in_transaction }
    ensures same_reference { tx.new.conn.ghost_name ≡ tx.old.conn.ghost_name }
    ensures ok { HasCleanDisk (state S.Store tx.new.conn.now) → OnOk result (Renews first_orders orders
        (state S.Store tx.old.conn.now) (state S.Store tx.new.conn.now)) }
    ensures kept { HasCleanDisk (state S.Store tx.new.conn.now)
        → KeepsCommit (state S.Store tx.old.conn.now) (state S.Store tx.new.conn.now) }
    ensures survives { Survives (state S.Store tx.old.conn.now) (state S.Store tx.new.conn.now) (λ _. ⊥) }
{
    // All orders are in memory at once, since their table is gone when the new ones are filled.
    let rows = read_first_orders_inside(tx)?;
    let keyed = orders_of(alloc, rows.as_slice())?;
    // Dropped and not emptied: an empty `orders` would give every statement a second shape of a file.
    replace_tables(tx)?;
    // The journal first: each later write relies on its count, which is tested here.
    let count = renew_journal(alloc, tx, progress)?;
    put_orders(tx, keyed.as_slice(), count, progress)?;
    Ok(())
}
