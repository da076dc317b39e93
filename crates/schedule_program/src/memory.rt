//! Tables of SQL in memory.

ghost use Rattle.std.specs.Prelude.{◌≡◌, ◌⊎◌, IfOk, IfErr};
ghost use Rattle.keep.specs.Seen.{IsSound};
ghost use Rattle.keep.specs.Tables.{empty};
ghost use Rattle.keep.specs.declared.fault.KeepFault.TheVariants.{Failed, Memory};
ghost use Rattle.laws_stores.specs.Sight.{all_empty};
ghost use Rattle.schedule_io.specs.StoresFaults.{fault_in};
ghost use Rattle.schedule_program.specs.Files.{IsOpenedWith};

use billing::Accounts;
use keep::{Keep, KeepFault};
use keep_sqlite::{Filed, SqliteKeep};
use purchasing::Orders;
use schedule_io::{Stores, StoresFault};
use sqlite::MemStore;
use std::alloc::Global;
use warehouse::Stocks;

/// The trait's law, for the proof of who calls this: what a stop leaves of a usable store are its tables.
pub fn is_sound<K: Keep>(_keep: &K)
    ensures { IsSound (K.seen _keep.now) }
{}

/// Tables of SQL in memory: they are empty at first, and gone in the end.
#[derive(Clone, Copy, Debug)]
pub struct SqliteStores;

/// Empty tables of one service.
fn make_tables<H: Filed>(alloc: Global) -> Result<SqliteKeep<H, MemStore>, KeepFault>
    ensures made { IfOk result (λ k. IsOpenedWith (λ t. t ≡ empty) (⟦<SqliteKeep<H, MemStore> as Keep>⟧.seen k)) }
    ensures refused { IfErr result (λ fault. (fault ≡ Memory) ⊎ (fault ≡ Failed)) }
{
    match SqliteKeep::memory(alloc) {
        Ok(keep) => {
            // A call that does nothing: its clause is the law from which this function's clause follows.
            is_sound(&keep);
            Ok(keep)
        }
        Err(fault) => Err(fault),
    }
}

impl Stores for SqliteStores {
    ghost use Rattle.std.specs.Prelude.{◌≡◌, ◌⊎◌};
    ghost use Rattle.keep.specs.declared.fault.KeepFault.TheVariants.{Failed, Memory};
    ghost use Rattle.laws_stores.specs.Sight.{all_empty};
    ghost use Rattle.schedule_io.specs.StoresFaults.{fault_in};

    type Orders = SqliteKeep<Orders, MemStore>;

    type Stocks = SqliteKeep<Stocks, MemStore>;

    type Accounts = SqliteKeep<Accounts, MemStore>;

    ghost found = { λ tables. tables ≡ all_empty };

    ghost fails = { λ fault. (fault_in fault ≡ Memory) ⊎ (fault_in fault ≡ Failed) };

    fn open(
        self,
        alloc: Global,
    ) -> Result<
        (
            SqliteKeep<Orders, MemStore>,
            SqliteKeep<Stocks, MemStore>,
            SqliteKeep<Accounts, MemStore>,
        ),
        StoresFault,
    > {
        // No `?`: a fault of a store doesn't know whose it is.
        let orders = match make_tables(alloc) {
            Ok(keep) => keep,
            Err(fault) => return Err(StoresFault::Purchasing(fault)),
        };
        let stocks = match make_tables(alloc) {
            Ok(keep) => keep,
            Err(fault) => return Err(StoresFault::Warehouse(fault)),
        };
        let accounts = match make_tables(alloc) {
            Ok(keep) => keep,
            Err(fault) => return Err(StoresFault::Billing(fault)),
        };
        Ok((orders, stocks, accounts))
    }
}
