//! The tables of a service in SQL: each text that makes, reads or writes them, by what it does to their rows.
//!
//! Every text is fixed, and its values are bound. A write says what its table's rows become and that no other table
//! changes, a read what it shows of the rows and in which order, and that it changes nothing. What SQL refuses, as more
//! that is settled than was sent, is an error; whatever a call answers, the last commit stands as it was.
//!
//! ```rust
//! pub fn a_service_knows_its_tables(alloc: Global) -> Result<usize, Error> {
//!     let mut conn = Connection::open_in_memory(alloc)?;
//!     let mut tx = conn.transaction();
//!     create_tables(&mut tx, Service::Billing)?;
//!     tx.commit()?;
//!     let rows = read_about(&mut conn, Service::Billing)?;
//!     Ok(rows.len())
//! }
//! ```
//!
//! The answer is 1.
#![tactic(auto)]

mod about;
mod accounts;
mod common_tables;
mod first_version;
mod held;
mod in_marks;
mod journal;
mod journal_bodies;
mod orders;
mod out_marks;
mod outbox;
mod own_tables;
mod replaced_tables;
mod same;
mod schemas;
mod service;
mod sorting;
mod statements;
mod stocks;

pub use about::{create_tables, read_about};
pub use accounts::{
    add_account_line, put_account, put_account_line, read_account, read_account_lines,
    take_account, take_account_line, take_account_lines,
};
pub use first_version::{has_first_tables, read_first_about, read_first_orders_inside};
pub use held::{put_held, read_drainable, read_held, take_held};
pub use in_marks::{put_in_marks, read_handled};
pub use journal::{
    add_command, add_message, count_rows, count_rows_inside, count_rows_within,
    count_rows_within_inside, read_journal, read_last_position,
};
pub use journal_bodies::{read_journal_inside, set_body};
pub use orders::{
    add_order_line, put_order_head, read_order_head, read_order_lines, take_order_head,
    take_order_lines,
};
pub use out_marks::{find_marks, put_out_marks, read_marks};
pub use outbox::{put_outbox, read_letters, read_letters_after, settle_outbox};
pub use replaced_tables::{replace_tables, set_version};
pub use schemas::{has_no_tables, has_tables};
pub use service::Service;
pub use sorting::with_sorted_rows;
pub use stocks::{
    add_stock_line, put_stock, put_stock_line, read_stock, read_stock_lines, take_stock,
    take_stock_line, take_stock_lines,
};
