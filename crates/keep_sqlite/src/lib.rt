//! The tables of a service in SQL: in memory, in a file, or in any connection.
//!
//! They keep the law of [`Keep`](keep::Keep) over the texts of `sql_rows`: a transaction is one transaction of SQL, made
//! whole or not at all, and a read is a query, or two of a state that has lines; it is exact and changes nothing. What
//! SQL refuses, and a row that no call here writes, is a failure that is counted. The three services have their tables
//! here by the trait [`Filed`]: orders, stocks and accounts.
//!
//! A file that is opened gets the tables of its service where it has none. One of another service or version, and one
//! that is no database, is refused as `WrongFile`.
//!
//! ```rust
//! pub fn no_letter_was_sent(alloc: Global, pair: &Pair) -> Result<bool, KeepFault> {
//!     let mut keep: SqliteKeep<Orders, MemStore> = SqliteKeep::memory(alloc)?;
//!     let sent = keep.sent(alloc, pair)?;
//!     Ok(sent == 0)
//! }
//! ```
//!
//! The answer is true.
#![tactic(auto)]

mod accounts;
mod filed;
mod first_version;
mod founding;
mod journal;
mod journal_renewal;
mod kept;
mod lines;
mod listing;
mod migration;
mod opening;
mod order_reads;
mod order_renewal;
mod order_writes;
mod orders;
mod progress;
mod reads;
mod states;
mod stocks;
mod writes;

pub use filed::Filed;
pub use kept::SqliteKeep;
pub use migration::Migrated;
pub use opening::opening_fault;
pub use progress::{Progress, TerminalProgress};
