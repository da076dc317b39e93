//! Runs over the stores in SQL that a schedule's three services may stand on, and what holds of them.
//!
//! [`run_over_files`] opens the three files of a folder and runs a schedule over what they hold: what an earlier run left
//! there, or nothing in new files. [`run_events_over_files`] does so for a schedule that was read before. A run over tables
//! of SQL in memory is `run_text`'s. Where files hold what a run with a good end left, another run over them begins well,
//! by [`a_run_over_files_goes_on`]; [`a_run_over_new_files_ends_well`] is that law for a new folder,
//! [`files_taken_over_go_on`] the one for files that were of version 1, and [`a_run_in_sql_ends_well`] the one for tables
//! in memory.
//!
//! ```rust
//! pub fn a_schedule_is_run_in_sql(alloc: Global) -> Result<bool, RunFault> {
//!     let mut out = Vec::new(alloc);
//!     run_text(alloc, SqliteStores, b"cancel 0 o1\n", &mut out)?;
//!     Ok(out.as_slice() == b"refused 61 71\n".as_slice())
//! }
//! ```
//!
//! The answer is true.
#![tactic(auto)]

mod files;
mod laws;
mod running;

pub use laws::{
    a_run_in_sql_ends_well, a_run_over_files_goes_on, a_run_over_new_files_ends_well,
    files_taken_over_go_on,
};
pub use running::{run_events_over_files, run_over_files};
