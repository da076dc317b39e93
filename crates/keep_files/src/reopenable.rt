//! Stores whose files are closed and reopened.

ghost use Rattle.std.specs.Prelude.{◌≡◌, ◌≤◌, ℕ, IfOk, IsTrue};
ghost use Rattle.sqlite_trees.specs.Tree.{Trees};
ghost use Rattle.sqlite_trees.specs.View.{doubt};
ghost use Rattle.sqlite_wal.specs.Reads.{are_clean};
ghost use Rattle.sqlite.specs.Held.{state, AreDatabases};
ghost use Rattle.sqlite.specs.State.{HasCleanDisk, IsLive, Opens};
ghost use Rattle.sqlite.specs.Files.{image_of, HoldsDatabase};

use sqlite::{Alter, Connection, Error, ErrorCode, FileStore, Files, Options};
use sqlite_disk::Disk;
use std::alloc::Global;

// A trait of its own, so that a store with an open connection never asks whether it is open.
/// A store over files that outlive it.
pub trait Reopenable: Alter {
    /// The files, closed.
    type Files: Drop;

    /// 0 while the files gave back what was written to them.
    ghost doubt_of: { Self.Files → ℕ };

    /// The trees that the files hold, as they read.
    ghost holds: { Self.Files → Trees → Type 0 };

    /// Closes the files with no call of the disk: what isn't committed is lost.
    fn into_files(self) -> Self::Files
        ensures clean { doubt (Self.Store.view self).is_clean ≤ doubt_of result }
        ensures holds { doubt_of result ≡ 0 → IsTrue (Self.Store.view self).is_numbered
            → AreDatabases (Self.Store.recovers self)
            → ∥ ((db : Trees) × Self.Store.recovers self db × holds result db) ∥₁ };

    /// Opens the files, where no sync of them has failed. They come back where that fails.
    fn open(
        alloc: Global,
        files: Self::Files,
        options: Options,
    ) -> Result<Connection<Self>, (Error, Self::Files)>
        ensures clean { IfOk result (λ c. doubt_of files ≤ doubt (state Self.Store c).is_clean) }
        ensures holds { IfOk result (λ c. HasCleanDisk (state Self.Store c) → (db : Trees) → holds files db
            → (state Self.Store c).committed.trees ≡ db) }
        ensures opened { IfOk result (λ c. HasCleanDisk (state Self.Store c)
            → Opens (state Self.Store c) × IsLive (state Self.Store c)) };

    /// Copies the log into the database file, and closes both. Where that can't be done the log stays as it is: an opening
    /// reads both files anyway.
    fn copy_and_close(self);
}

impl<D: Disk + Drop> Reopenable for FileStore<D> {
    type Files = Files<D>;

    ghost doubt_of = { λ files. doubt (are_clean D.Disk files.log files.db) };

    ghost holds = { λ files. HoldsDatabase (image_of D.Disk files) };

    fn into_files(self) -> Files<D> {
        self.close()
    }

    fn open(
        alloc: Global,
        files: Files<D>,
        options: Options,
    ) -> Result<Connection<FileStore<D>>, (Error, Files<D>)> {
        // After a sync that failed a read may show what the disk never got.
        if !files.may_be_used() {
            return Err((Error::SqliteFailure(ErrorCode::SystemIoFailure), files));
        }
        match Connection::open_files(alloc, files, options) {
            Ok(conn) => Ok(conn),
            Err((error, left)) => Err((error, left.into_files())),
        }
    }

    fn copy_and_close(mut self) {
        // Nobody is left to whom a failure could be reported, and none loses anything.
        drop(self.checkpoint());
        drop(self.close());
    }
}
