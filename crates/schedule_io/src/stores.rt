//! The stores that three services stand on.

ghost use Rattle.std.specs.Prelude.{◌≡◌, IfOk, IfErr};
ghost use Rattle.laws_stores.specs.Sight.{AllTables, all_empty};
ghost use Rattle.schedule_io.specs.Opened.{AreOpened, shown};

use crate::fault::StoresFault;
use billing::{Account, Accounts};
use keep::Keep;
use keep_plain::PlainKeep;
use purchasing::{Order, Orders};
use std::alloc::Global;
use trade::{AccountCommand, OrderCommand, StockCommand};
use warehouse::{Stock, Stocks};

/// Where purchasing, warehouse and billing have their tables: in memory, or in files that may have some already.
pub trait Stores: Drop {
    ghost use Rattle.laws_stores.specs.Sight.{AllTables};
    ghost use Rattle.schedule_io.specs.Opened.{AreOpened, shown};
    ghost use Rattle.schedule_io.specs.declared.fault.StoresFault.{StoresFault};
    ghost use Rattle.std.specs.Prelude.{IfOk, IfErr};

    /// What keeps the orders.
    type Orders: Keep<State = Option<Order>, Command = OrderCommand> + Drop;
    /// What keeps the stocks.
    type Stocks: Keep<State = Stock, Command = StockCommand> + Drop;
    /// What keeps the accounts.
    type Accounts: Keep<State = Account, Command = AccountCommand> + Drop;

    /// What is known of the tables that are found. A file may have any.
    ghost found: { AllTables → Type 0 };

    /// The faults for which an opening may fail.
    ghost fails: { StoresFault → Type 0 };

    /// Opens all three, purchasing first, then warehouse, then billing.
    ///
    /// # Errors
    /// Where one can't be opened.
    fn open(
        self,
        alloc: Global,
    ) -> Result<(Self::Orders, Self::Stocks, Self::Accounts), StoresFault>
        ensures opened { IfOk result (λ keeps. AreOpened found
            (shown Self.Orders.seen Self.Stocks.seen Self.Accounts.seen keeps)) }
        ensures unopened { IfErr result fails };
}

/// Tables in memory: they are empty at first, and gone in the end. To open them takes no memory and never fails.
#[derive(Clone, Copy, Debug)]
pub struct PlainStores;

impl Stores for PlainStores {
    ghost use Rattle.std.specs.Prelude.{◌≡◌};
    ghost use Rattle.laws_stores.specs.Sight.{all_empty};

    type Orders = PlainKeep<Orders>;

    type Stocks = PlainKeep<Stocks>;

    type Accounts = PlainKeep<Accounts>;

    ghost found = { λ tables. tables ≡ all_empty };

    ghost fails = { λ _. ⊥ };

    fn open(
        self,
        alloc: Global,
    ) -> Result<(PlainKeep<Orders>, PlainKeep<Stocks>, PlainKeep<Accounts>), StoresFault> {
        Ok((
            PlainKeep::new(alloc),
            PlainKeep::new(alloc),
            PlainKeep::new(alloc),
        ))
    }
}
