//! The tables that one service has, as they are made.

ghost use Rattle.std.specs.Prelude.{◌≡◌, OnOk, IsTrue, [], ◌∷◌, ◌++◌};
ghost use Rattle.sqlite.specs.Held.{state};
ghost use Rattle.sqlite.specs.State.{HasCleanDisk};
ghost use Rattle.sql_rows.specs.Schema.{AreMade, IsUnderWay, Makes, common_tables, order_heads, order_lines, stocks};
ghost use Rattle.sql_rows.specs.Schema.{stock_lines, accounts, account_lines, own_tables};

use crate::service::Service;
use crate::statements::write;
use sqlite::{Alter, Error, Transaction};

/// Makes the table of the heads of orders.
fn create_order_heads<S: Alter>(tx: &mut Transaction<'_, S>) -> Result<usize, Error>
    requires made { HasCleanDisk (state S.Store tx.old.conn.now)
        → AreMade common_tables (state S.Store tx.old.conn.now).now }
    requires inside { HasCleanDisk (state S.Store tx.old.conn.now)
        → IsTrue (state S.Store tx.old.conn.now).in_transaction }
    ensures same_reference { tx.new.conn.ghost_name ≡ tx.old.conn.ghost_name }
    ensures ok { HasCleanDisk (state S.Store tx.new.conn.now)
        → OnOk result (Makes (common_tables ++ order_heads ∷ [])
        (state S.Store tx.old.conn.now) (state S.Store tx.new.conn.now)) }
    ensures on { IsUnderWay (state S.Store tx.old.conn.now) (state S.Store tx.new.conn.now) }
{
    write(
        tx,
        "CREATE TABLE order_heads (key TEXT NOT NULL, account TEXT NOT NULL, \
         amount INTEGER NOT NULL, status TEXT NOT NULL, account_phase TEXT NOT NULL, \
         PRIMARY KEY (key)) STRICT",
        &[],
    )
}

/// Makes the table of the lines of orders.
fn create_order_lines<S: Alter>(tx: &mut Transaction<'_, S>) -> Result<usize, Error>
    requires made { HasCleanDisk (state S.Store tx.old.conn.now)
        → AreMade (common_tables ++ order_heads ∷ []) (state S.Store tx.old.conn.now).now }
    requires inside { HasCleanDisk (state S.Store tx.old.conn.now)
        → IsTrue (state S.Store tx.old.conn.now).in_transaction }
    ensures same_reference { tx.new.conn.ghost_name ≡ tx.old.conn.ghost_name }
    ensures ok { HasCleanDisk (state S.Store tx.new.conn.now)
        → OnOk result (Makes (common_tables ++ order_heads ∷ order_lines ∷ [])
        (state S.Store tx.old.conn.now) (state S.Store tx.new.conn.now)) }
    ensures on { IsUnderWay (state S.Store tx.old.conn.now) (state S.Store tx.new.conn.now) }
{
    // The checks say what an order is: one to eight lines, each of another stock.
    write(
        tx,
        "CREATE TABLE order_lines (order_key TEXT NOT NULL REFERENCES order_heads (key), \
         line INTEGER NOT NULL CHECK (line >= 1 AND line <= 8), stock TEXT NOT NULL, \
         n INTEGER NOT NULL, phase TEXT NOT NULL, PRIMARY KEY (order_key, line), \
         UNIQUE (order_key, stock)) STRICT",
        &[],
    )
}

/// Makes the two tables of purchasing.
#[tactic(auto, using(crate::proofs::Creates::then_makes, crate::proofs::Creates::then_goes_on))]
fn create_orders<S: Alter>(tx: &mut Transaction<'_, S>) -> Result<usize, Error>
    requires made { HasCleanDisk (state S.Store tx.old.conn.now)
        → AreMade common_tables (state S.Store tx.old.conn.now).now }
    requires inside { HasCleanDisk (state S.Store tx.old.conn.now)
        → IsTrue (state S.Store tx.old.conn.now).in_transaction }
    ensures same_reference { tx.new.conn.ghost_name ≡ tx.old.conn.ghost_name }
    ensures ok { HasCleanDisk (state S.Store tx.new.conn.now)
        → OnOk result (Makes (common_tables ++ order_heads ∷ order_lines ∷ [])
        (state S.Store tx.old.conn.now) (state S.Store tx.new.conn.now)) }
    ensures on { IsUnderWay (state S.Store tx.old.conn.now) (state S.Store tx.new.conn.now) }
{
    // Heads first, for each service: the lines refer to them.
    create_order_heads(tx)?;
    create_order_lines(tx)
}

/// Makes the table of stocks.
fn create_stock_heads<S: Alter>(tx: &mut Transaction<'_, S>) -> Result<usize, Error>
    requires made { HasCleanDisk (state S.Store tx.old.conn.now)
        → AreMade common_tables (state S.Store tx.old.conn.now).now }
    requires inside { HasCleanDisk (state S.Store tx.old.conn.now)
        → IsTrue (state S.Store tx.old.conn.now).in_transaction }
    ensures same_reference { tx.new.conn.ghost_name ≡ tx.old.conn.ghost_name }
    ensures ok { HasCleanDisk (state S.Store tx.new.conn.now)
        → OnOk result (Makes (common_tables ++ stocks ∷ [])
        (state S.Store tx.old.conn.now) (state S.Store tx.new.conn.now)) }
    ensures on { IsUnderWay (state S.Store tx.old.conn.now) (state S.Store tx.new.conn.now) }
{
    write(
        tx,
        "CREATE TABLE stocks (key TEXT NOT NULL, on_hand INTEGER NOT NULL, held INTEGER NOT NULL, \
         shipped INTEGER NOT NULL, received INTEGER NOT NULL, PRIMARY KEY (key)) STRICT",
        &[],
    )
}

/// Makes the table of the lines at stocks.
fn create_stock_lines<S: Alter>(tx: &mut Transaction<'_, S>) -> Result<usize, Error>
    requires made { HasCleanDisk (state S.Store tx.old.conn.now)
        → AreMade (common_tables ++ stocks ∷ []) (state S.Store tx.old.conn.now).now }
    requires inside { HasCleanDisk (state S.Store tx.old.conn.now)
        → IsTrue (state S.Store tx.old.conn.now).in_transaction }
    ensures same_reference { tx.new.conn.ghost_name ≡ tx.old.conn.ghost_name }
    ensures ok { HasCleanDisk (state S.Store tx.new.conn.now)
        → OnOk result (Makes (common_tables ++ stocks ∷ stock_lines ∷ [])
        (state S.Store tx.old.conn.now) (state S.Store tx.new.conn.now)) }
    ensures on { IsUnderWay (state S.Store tx.old.conn.now) (state S.Store tx.new.conn.now) }
{
    // An order has one line at a stock, by which a redelivered request is known: the key keeps a second one out.
    write(
        tx,
        "CREATE TABLE stock_lines (stock TEXT NOT NULL REFERENCES stocks (key), order_key TEXT NOT NULL, \
         n INTEGER NOT NULL, phase TEXT NOT NULL, PRIMARY KEY (stock, order_key)) STRICT",
        &[],
    )
}

/// Makes the two tables of a warehouse.
#[tactic(auto, using(crate::proofs::Creates::then_makes, crate::proofs::Creates::then_goes_on))]
fn create_stocks<S: Alter>(tx: &mut Transaction<'_, S>) -> Result<usize, Error>
    requires made { HasCleanDisk (state S.Store tx.old.conn.now)
        → AreMade common_tables (state S.Store tx.old.conn.now).now }
    requires inside { HasCleanDisk (state S.Store tx.old.conn.now)
        → IsTrue (state S.Store tx.old.conn.now).in_transaction }
    ensures same_reference { tx.new.conn.ghost_name ≡ tx.old.conn.ghost_name }
    ensures ok { HasCleanDisk (state S.Store tx.new.conn.now)
        → OnOk result (Makes (common_tables ++ stocks ∷ stock_lines ∷ [])
        (state S.Store tx.old.conn.now) (state S.Store tx.new.conn.now)) }
    ensures on { IsUnderWay (state S.Store tx.old.conn.now) (state S.Store tx.new.conn.now) }
{
    create_stock_heads(tx)?;
    create_stock_lines(tx)
}

/// Makes the table of accounts.
fn create_account_heads<S: Alter>(tx: &mut Transaction<'_, S>) -> Result<usize, Error>
    requires made { HasCleanDisk (state S.Store tx.old.conn.now)
        → AreMade common_tables (state S.Store tx.old.conn.now).now }
    requires inside { HasCleanDisk (state S.Store tx.old.conn.now)
        → IsTrue (state S.Store tx.old.conn.now).in_transaction }
    ensures same_reference { tx.new.conn.ghost_name ≡ tx.old.conn.ghost_name }
    ensures ok { HasCleanDisk (state S.Store tx.new.conn.now)
        → OnOk result (Makes (common_tables ++ accounts ∷ [])
        (state S.Store tx.old.conn.now) (state S.Store tx.new.conn.now)) }
    ensures on { IsUnderWay (state S.Store tx.old.conn.now) (state S.Store tx.new.conn.now) }
{
    write(
        tx,
        "CREATE TABLE accounts (key TEXT NOT NULL, limit_now INTEGER NOT NULL, \
         billed INTEGER NOT NULL, held INTEGER NOT NULL, PRIMARY KEY (key)) STRICT",
        &[],
    )
}

/// Makes the table of the lines at accounts.
fn create_account_lines<S: Alter>(tx: &mut Transaction<'_, S>) -> Result<usize, Error>
    requires made { HasCleanDisk (state S.Store tx.old.conn.now)
        → AreMade (common_tables ++ accounts ∷ []) (state S.Store tx.old.conn.now).now }
    requires inside { HasCleanDisk (state S.Store tx.old.conn.now)
        → IsTrue (state S.Store tx.old.conn.now).in_transaction }
    ensures same_reference { tx.new.conn.ghost_name ≡ tx.old.conn.ghost_name }
    ensures ok { HasCleanDisk (state S.Store tx.new.conn.now)
        → OnOk result (Makes (common_tables ++ accounts ∷ account_lines ∷ [])
        (state S.Store tx.old.conn.now) (state S.Store tx.new.conn.now)) }
    ensures on { IsUnderWay (state S.Store tx.old.conn.now) (state S.Store tx.new.conn.now) }
{
    write(
        tx,
        "CREATE TABLE account_lines (account TEXT NOT NULL REFERENCES accounts (key), order_key TEXT NOT NULL, \
         n INTEGER NOT NULL, phase TEXT NOT NULL, PRIMARY KEY (account, order_key)) STRICT",
        &[],
    )
}

/// Makes the two tables of billing.
#[tactic(auto, using(crate::proofs::Creates::then_makes, crate::proofs::Creates::then_goes_on))]
fn create_accounts<S: Alter>(tx: &mut Transaction<'_, S>) -> Result<usize, Error>
    requires made { HasCleanDisk (state S.Store tx.old.conn.now)
        → AreMade common_tables (state S.Store tx.old.conn.now).now }
    requires inside { HasCleanDisk (state S.Store tx.old.conn.now)
        → IsTrue (state S.Store tx.old.conn.now).in_transaction }
    ensures same_reference { tx.new.conn.ghost_name ≡ tx.old.conn.ghost_name }
    ensures ok { HasCleanDisk (state S.Store tx.new.conn.now)
        → OnOk result (Makes (common_tables ++ accounts ∷ account_lines ∷ [])
        (state S.Store tx.old.conn.now) (state S.Store tx.new.conn.now)) }
    ensures on { IsUnderWay (state S.Store tx.old.conn.now) (state S.Store tx.new.conn.now) }
{
    create_account_heads(tx)?;
    create_account_lines(tx)
}

/// Makes the two tables that this service has.
pub fn create_own<S: Alter>(tx: &mut Transaction<'_, S>, service: Service) -> Result<usize, Error>
    requires made { HasCleanDisk (state S.Store tx.old.conn.now)
        → AreMade common_tables (state S.Store tx.old.conn.now).now }
    requires inside { HasCleanDisk (state S.Store tx.old.conn.now)
        → IsTrue (state S.Store tx.old.conn.now).in_transaction }
    ensures same_reference { tx.new.conn.ghost_name ≡ tx.old.conn.ghost_name }
    ensures ok { HasCleanDisk (state S.Store tx.new.conn.now)
        → OnOk result (Makes (common_tables ++ own_tables service)
        (state S.Store tx.old.conn.now) (state S.Store tx.new.conn.now)) }
    ensures on { IsUnderWay (state S.Store tx.old.conn.now) (state S.Store tx.new.conn.now) }
{
    match service {
        Service::Purchasing => create_orders(tx),
        Service::Warehouse => create_stocks(tx),
        Service::Billing => create_accounts(tx),
    }
}
