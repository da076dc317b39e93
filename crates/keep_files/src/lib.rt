//! The tables of a service in two files, which are reopened after a failure.
//!
//! A [`FileKeep`] is a `SqliteKeep` over a database file and its log, on any disk, and keeps the law of `Keep`: a
//! `reopen` closes the files and opens them again, so that a service continues after a disk that failed once. Files of
//! which a sync has failed aren't reopened. It takes over files on a disk of the caller's, or opens a path: the database
//! file, with its log beside it. Dropped while it works, it copies the log into the database file, which is then whole
//! alone.
//!
//! ```rust
//! pub fn empty_files_are_opened_twice(alloc: Global) -> Result<bool, KeepFault> {
//!     let files = Files {
//!         log: Memory::new(alloc),
//!         db: Memory::new(alloc),
//!     };
//!     let mut keep: FileKeep<Orders, FileStore<Memory>> = FileKeep::adopt(
//!         alloc,
//!         files,
//!         Options::new(1),
//!     )?;
//!     keep.reopen(alloc)?;
//!     Ok(keep.usable())
//! }
//! ```
//!
//! The answer is true.
#![tactic(auto)]

mod files;
mod reopenable;

pub use files::FileKeep;
pub use reopenable::Reopenable;
