//! The orders that rows tell.

ghost use Rattle.std.specs.Prelude.{◌≡◌, ◌≤◌, false, [], Some, OnOk, IfOk, IsTrue, MatchOption};
ghost use Rattle.sqlite_value.specs.Order.{column};
ghost use Rattle.sqlite_trees.specs.Tree.{Trees};
ghost use Rattle.sqlite_trees.specs.View.{doubt};
ghost use Rattle.sqlite.specs.Held.{state};
ghost use Rattle.sqlite.specs.State.{HasCleanDisk};
ghost use Rattle.base.specs.declared.entity.Kind.TheVariants.{Order as OrderKind};
ghost use Rattle.sql_rows.specs.Schema.{purchasing};
ghost use Rattle.sql_rows.specs.Tables.{Stays};
ghost use Rattle.keep_sqlite.specs.Ready.{IsReady};
ghost use Rattle.keep_sqlite.specs.Orders.{order_told, with_shown, shown_stocks, shown_order, order_at};

use purchasing::{Order, Partner};
use sql_bodies::{push_stock, read_order};
use sql_rows::{read_order_head, read_order_lines};
use sqlite::{Alter, Connection, Error, Row};
use std::alloc::Global;

/// Puts the stock that a line names after the others.
fn push_line(alloc: Global, stocks: &mut Vec<Partner>, row: &Row) -> Result<(), Error>
    ensures { OnOk result (with_shown row.now stocks.old.items ≡ Some stocks.new.items) }
{
    let line: u64 = row.get(0)?;
    let stock: String = row.get(1)?;
    let number: u64 = row.get(2)?;
    let phase: String = row.get(3)?;
    if push_stock(alloc, stocks, line, stock.as_str(), number, phase.as_str())? {
        Ok(())
    } else {
        Err(Error::InvalidQuery)
    }
}

/// The stocks that lines tell, in order.
fn stocks_of(alloc: Global, lines: &[Row]) -> Result<Vec<Partner>, Error>
    ensures { IfOk result (λ stocks. shown_stocks lines.now ≡ Some stocks.items) }
{
    let mut stocks = Vec::new(alloc);
    for line in lines {
        push_line(alloc, &mut stocks, line)?;
    }
    Ok(stocks)
}

/// The order that a head tells, with these stocks.
fn with_head(alloc: Global, head: &Row, stocks: Vec<Partner>) -> Result<Order, Error>
    ensures { IfOk result (λ order. order_told (column head.now 0) (column head.now 1) (column head.now 2)
        (column head.now 3) (Some stocks.items) ≡ Some order) }
{
    let account: String = head.get(0)?;
    let amount: u64 = head.get(1)?;
    let status: String = head.get(2)?;
    let phase: String = head.get(3)?;
    match read_order(
        alloc,
        stocks,
        account.as_str(),
        amount,
        status.as_str(),
        phase.as_str(),
    )? {
        Some(order) => Ok(order),
        None => Err(Error::InvalidQuery),
    }
}

/// The order that an answer of heads and one of lines tell.
fn order_of(alloc: Global, heads: &[Row], lines: &[Row]) -> Result<Option<Order>, Error>
    ensures { IfOk result
        (λ order. MatchOption order (heads.now ≡ []) (λ o. shown_order heads.now lines.now ≡ Some o)) }
{
    // The head decides: lines refer to it, so without a head there are none.
    let Some(head) = heads.first() else {
        return Ok(None);
    };
    let stocks = stocks_of(alloc, lines)?;
    let order = with_head(alloc, head, stocks)?;
    Ok(Some(order))
}

/// The order with this key, if it was placed.
pub fn find_order<S: Alter>(
    alloc: Global,
    conn: &mut Connection<S>,
    key: &str,
    _count: u64,
) -> Result<Option<Order>, Error>
    requires autocommit { conn.old.in_transaction ≡ false }
    requires ready { HasCleanDisk (state S.Store conn.old) → IsReady purchasing _count (state S.Store conn.old) }
    ensures order { HasCleanDisk (state S.Store conn.new) → IfOk result (λ order. order
        ≡ order_at OrderKind key.now ((state S.Store conn.old).now.trees 9) ((state S.Store conn.old).now.trees 11)) }
    ensures autocommit { conn.new.in_transaction ≡ false }
    ensures open { HasCleanDisk (state S.Store conn.new) → OnOk result (IsTrue (state S.Store conn.new).is_open) }
    ensures stays { HasCleanDisk (state S.Store conn.new) → Stays (state S.Store conn.old) (state S.Store conn.new) }
    ensures crash { HasCleanDisk (state S.Store conn.new) → (db : Trees) → (state S.Store conn.new).may_leave db
        → (state S.Store conn.old).may_leave db }
    ensures clean { doubt (state S.Store conn.old).is_clean ≤ doubt (state S.Store conn.new).is_clean }
{
    // Called for what its contract says: the rows are as the schema demands.
    let _ = conn.schema();
    // Two queries see the same rows: the connection is borrowed, so no write comes between them.
    let heads = read_order_head(conn, key)?;
    let lines = read_order_lines(conn, key)?;
    order_of(alloc, heads.as_slice(), lines.as_slice())
}
