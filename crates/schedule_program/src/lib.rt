//! The program that runs schedules, but for what makes their events: its command line, its streams, and its tables in
//! memory, in SQL, or in the files of a folder.
//!
//! [`run_program`] is all of it, over a type that implements [`Runs`]. [`SqliteStores`] are empty at first, and gone in the
//! end. [`FileStores`] are `purchasing.db`, `warehouse.db` and `billing.db` in a folder, each with its log beside it;
//! `schedule_stores` opens them. Files of version 1, where an order had one stock, are taken over by [`migrate_files`], and by
//! [`read_and_migrate`] once a schedule was read.
//!
//! ```rust
//! pub fn tables_in_sql_are_opened(alloc: Global) -> Result<bool, StoresFault> {
//!     let (orders, stocks, accounts) = SqliteStores.open(alloc)?;
//!     Ok(orders.length() == 0 && stocks.length() == 0 && accounts.length() == 0)
//! }
//! ```
//!
//! The answer is true.
#![tactic(auto)]

mod files;
mod memory;
mod migration;
mod program;
mod runs;

pub use files::FileStores;
pub use memory::{SqliteStores, is_sound};
pub use migration::{migrate_files, read_and_migrate};
pub use program::run_program;
pub use runs::Runs;
