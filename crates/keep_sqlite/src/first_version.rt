//! The orders that rows of version 1 tell.

ghost use Rattle.std.specs.Prelude.{◌≡◌, [], ◌∷◌, Some, IfOk};
ghost use Rattle.std.specs.Option.{option_map};
ghost use Rattle.sqlite_value.specs.Order.{column};
ghost use Rattle.keep_sqlite.specs.FirstVersion.{first_order_told};
ghost use Rattle.keep_sqlite.specs.Orders.{stock_told};

use purchasing::{Order, Partner};
use sql_bodies::{push_stock, read_order};
use sqlite::{Error, Row};
use std::alloc::Global;

/// The stock that a row tells, as the one line of its order.
fn first_stocks_of(alloc: Global, row: &Row) -> Result<Vec<Partner>, Error>
    ensures { IfOk result (λ stocks. option_map (λ p. p ∷ [])
        (stock_told (column row.now 1) (column row.now 2) (column row.now 6)) ≡ Some stocks.items) }
{
    let stock: String = row.get(1)?;
    let number: u64 = row.get(2)?;
    // A row had both partners: column 6 is the stock's phase, column 7 the account's.
    let phase: String = row.get(6)?;
    let mut stocks = Vec::new(alloc);
    // An order had one line in version 1.
    if push_stock(
        alloc,
        &mut stocks,
        1,
        stock.as_str(),
        number,
        phase.as_str(),
    )? {
        Ok(stocks)
    } else {
        Err(Error::InvalidQuery)
    }
}

/// The order that a row of version 1 has, as `read_first_orders` shows it: after its key.
pub fn first_order_of(alloc: Global, row: &Row) -> Result<Order, Error>
    ensures { IfOk result (λ order. first_order_told (column row.now 1) (column row.now 2) (column row.now 3)
        (column row.now 4) (column row.now 5) (column row.now 6) (column row.now 7) ≡ Some order) }
{
    let stocks = first_stocks_of(alloc, row)?;
    let account: String = row.get(3)?;
    let amount: u64 = row.get(4)?;
    let status: String = row.get(5)?;
    let phase: String = row.get(7)?;
    match read_order(
        alloc,
        stocks,
        account.as_str(),
        amount,
        status.as_str(),
        phase.as_str(),
    )? {
        Some(order) => Ok(order),
        None => Err(Error::InvalidQuery),
    }
}
