//! A service's tables in two files, which are reopened after a failure.

ghost use Rattle.std.specs.Prelude.{◌≡◌, ◌≤◌, true, false, is_ok, IfOk, OnOk, OnErr, None};
ghost use Rattle.sqlite_trees.specs.Tree.{Trees};
ghost use Rattle.sqlite.specs.Files.{IsNothing};
ghost use Rattle.sqlite.specs.WalFiles.{image_at};
ghost use Rattle.keep.specs.Steps.{AreSteps};
ghost use Rattle.keep.specs.Law.{Reopens, Writes};
ghost use Rattle.keep.specs.Seen.{keep_end};
ghost use Rattle.keep.specs.Tables.{changed, empty, ArePlaced};
ghost use Rattle.keep_sqlite.specs.Found.{AreIn, IsFoundIn};
ghost use Rattle.keep_sqlite.specs.Law.{seen_sound};
ghost use Rattle.keep_sqlite.specs.Tables.{tables_of};
ghost use Rattle.keep_files.specs.Reopening.{seen_by, sound_by, AreCounted};

use crate::reopenable::Reopenable;
use activities::JournalRow;
use base::{Entity, Number, Pair};
use core::mem::replace_with;
use envelope::{Letter, Message};
use keep::{Change, Keep, KeepFault, LetterPlace};
use keep_sqlite::{Filed, SqliteKeep, opening_fault};
use sqlite::{FileFrom, FileStore, Options, Start};
use std::alloc::Global;
use std::hash::{BuildHasher, RandomState};

/// What a store has of its files: they are open, or, after a failure, closed.
#[derive(Drop)]
enum Access<K, F> {
    Open(K),
    Closed(F),
}

/// The tables of a service in a database file and its log, which a [`reopen`](Keep::reopen) closes and opens again.
///
/// Behind a reopening that failed nothing more is told of the tables: what failed doesn't tell whether the files gave
/// back what was written to them, so that they are in doubt.
pub struct FileKeep<H: Filed, S: Reopenable + Drop> {
    access: Access<SqliteKeep<H, S>, S::Files>,
    // The failures that were counted until the files were opened last.
    failures: u64,
    options: Options,
    // No reopening has failed.
    is_told: bool,
}

/// Copies the log into the database file and closes both, where no call has failed. After a failure the files stay as they
/// are: what a sync has failed of isn't to be written elsewhere.
fn close<H: Filed, S: Reopenable + Drop>(keep: SqliteKeep<H, S>) {
    if keep.usable() {
        let (conn, _failures) = keep.into_conn();
        // A backup of the database file alone would lose what is in the log.
        conn.into_store().copy_and_close();
    }
}

/// A store that is dropped leaves a database file that is whole without its log, so that a copy of that file alone has all
/// rows. It's written by hand also since the service is no value that could be dropped.
impl<H: Filed, S: Reopenable + Drop> Drop for FileKeep<H, S> {
    fn drop(self) {
        let FileKeep {
            access,
            failures: _,
            options: _,
            is_told: _,
        } = self;
        match access {
            Access::Open(keep) => close(keep),
            Access::Closed(_files) => {}
        }
    }
}

impl<H: Filed, S: Reopenable + Drop> FileKeep<H, S> {
    /// Takes over closed files: the tables of the service that are there, or, where there are no tables, new ones.
    ///
    /// # Errors
    /// As [`SqliteKeep::adopt`], and where the files can't be opened: `WrongFile` where they are no database, `Memory`
    /// if an allocation fails, and `Failed` else.
    pub fn adopt(alloc: Global, files: S::Files, options: Options) -> Result<Self, KeepFault>
        ensures usable { IfOk result (λ f. (⟦<FileKeep<H, S> as Keep>⟧.seen f).usable ≡ true) }
        ensures failures { IfOk result (λ f. (⟦<FileKeep<H, S> as Keep>⟧.seen f).failures ≡ 0) }
        ensures doubted { IfOk result (λ f. S.Reopenable.doubt_of files ≤ (⟦<FileKeep<H, S> as Keep>⟧.seen f).doubt) }
        ensures found { IfOk result (λ f. (⟦<FileKeep<H, S> as Keep>⟧.seen f).doubt ≡ 0 → (db : Trees)
            → S.Reopenable.holds files db → AreIn H.filing db (⟦<FileKeep<H, S> as Keep>⟧.seen f).tables) }
    {
        let conn = match S::open(alloc, files, options) {
            Ok(conn) => conn,
            Err((error, _left)) => return Err(opening_fault(&error)),
        };
        match SqliteKeep::adopt(alloc, conn) {
            Ok(keep) => Ok(FileKeep {
                access: Access::Open(keep),
                failures: 0,
                options,
                is_told: true,
            }),
            Err(fault) => Err(fault),
        }
    }

    /// Closes the files. They hold tables that a crash may have left.
    pub fn into_files(self) -> S::Files
        ensures { S.Reopenable.doubt_of result ≡ 0 → (⟦<FileKeep<H, S> as Keep>⟧.seen self).doubt ≡ 0
            → ∥ ((db : Trees) × S.Reopenable.holds result db
            × (⟦<FileKeep<H, S> as Keep>⟧.seen self).may_leave (tables_of H.filing db)) ∥₁ }
    {
        let FileKeep {
            access,
            failures: _,
            options: _,
            is_told: _,
        } = self;
        match access {
            Access::Open(keep) => {
                let (conn, _failures) = keep.into_conn();
                conn.into_store().into_files()
            }
            Access::Closed(files) => files,
        }
    }

    /// The files of a store that couldn't be reopened. A failure is counted, unless an allocation failed.
    fn closed(
        files: S::Files,
        options: Options,
        failures: u64,
        fault: KeepFault,
    ) -> (Self, Result<(), KeepFault>)
        ensures closed { result.0.access ≡ Access.Closed files }
        ensures refused { is_ok result.1 ≡ false }
        ensures counted { AreCounted result.1 failures result.0.failures }
    {
        let (counted, fault) = match fault {
            KeepFault::Memory => (failures, KeepFault::Memory),
            _ => (failures.saturating_add(1), KeepFault::Failed),
        };
        let keep = FileKeep {
            access: Access::Closed(files),
            failures: counted,
            options,
            // For good: the kit doesn't say whether files that couldn't be opened were in doubt.
            is_told: false,
        };
        (keep, Err(fault))
    }

    /// Opens closed files, where no sync of them has failed.
    fn opened(
        alloc: Global,
        files: S::Files,
        options: Options,
        failures: u64,
        is_told: bool,
    ) -> (Self, Result<(), KeepFault>)
        ensures usable { (⟦<FileKeep<H, S> as Keep>⟧.seen result.0).usable ≡ is_ok result.1 }
        ensures counted { AreCounted result.1 failures (⟦<FileKeep<H, S> as Keep>⟧.seen result.0).failures }
        ensures armed { (⟦<FileKeep<H, S> as Keep>⟧.seen result.0).armed ≡ None }
        ensures doubted { OnOk result.1 (is_told ≡ true
            → S.Reopenable.doubt_of files ≤ (⟦<FileKeep<H, S> as Keep>⟧.seen result.0).doubt) }
        ensures told { is_told ≡ false → (⟦<FileKeep<H, S> as Keep>⟧.seen result.0).doubt ≡ 1 }
        ensures closed { OnErr result.1 ((⟦<FileKeep<H, S> as Keep>⟧.seen result.0).doubt ≡ 1) }
        ensures tables { OnOk result.1 ((⟦<FileKeep<H, S> as Keep>⟧.seen result.0).doubt ≡ 0 → (db : Trees)
            → S.Reopenable.holds files db
            → (⟦<FileKeep<H, S> as Keep>⟧.seen result.0).tables ≡ tables_of H.filing db) }
    {
        let conn = match S::open(alloc, files, options) {
            Ok(conn) => conn,
            Err((error, left)) => {
                return FileKeep::closed(left, options, failures, opening_fault(&error));
            }
        };
        match SqliteKeep::resume(alloc, conn) {
            Ok(keep) => {
                let keep = FileKeep {
                    // Failures are counted over reopenings.
                    access: Access::Open(keep.with_failures(failures)),
                    failures,
                    options,
                    is_told,
                };
                (keep, Ok(()))
            }
            Err((fault, store)) => {
                FileKeep::closed(store.into_files(), options, failures, fault)
            }
        }
    }

    /// The store after a reopening, and what that answers.
    fn reopened(self, alloc: Global) -> (Self, Result<(), KeepFault>)
        ensures { Reopens ⟦<FileKeep<H, S> as Keep>⟧.seen self result.0 (keep_end result.1) }
    {
        let FileKeep {
            access,
            failures,
            options,
            is_told,
        } = self;
        match access {
            Access::Open(keep) => {
                let (conn, counted) = keep.into_conn();
                // Without copying the log: a disk that failed may fail again.
                let files = conn.into_store().into_files();
                FileKeep::opened(alloc, files, options, counted, is_told)
            }
            // Files are closed only since a reopening failed.
            Access::Closed(files) => FileKeep::opened(alloc, files, options, failures, false),
        }
    }
}

impl<H: Filed, D: Start> FileKeep<H, FileStore<FileFrom<D>>> {
    /// Opens the file at a path with its log beside it, or makes them. `start` stands for what they hold: one value for
    /// each pair of files. Files that hold nothing yet get empty tables, as with [`SqliteKeep::open`].
    ///
    /// # Errors
    /// As [`SqliteKeep::open`], and `Failed` where the system gives no random number.
    pub fn open(rt: &HostRuntime, path: &str, start: D) -> Result<Self, KeepFault>
        ensures usable { IfOk result (λ f. (⟦<FileKeep<H, FileStore<FileFrom<D>>> as Keep>⟧.seen f).usable ≡ true) }
        ensures failures { IfOk result (λ f.
            (⟦<FileKeep<H, FileStore<FileFrom<D>>> as Keep>⟧.seen f).failures ≡ 0) }
        ensures armed { IfOk result (λ f. (⟦<FileKeep<H, FileStore<FileFrom<D>>> as Keep>⟧.seen f).armed ≡ None) }
        ensures found { IfOk result (λ f. (⟦<FileKeep<H, FileStore<FileFrom<D>>> as Keep>⟧.seen f).doubt ≡ 0
            → IsFoundIn H.filing (image_at D.Start)
            (⟦<FileKeep<H, FileStore<FileFrom<D>>> as Keep>⟧.seen f).tables) }
        ensures new { IfOk result (λ f. (⟦<FileKeep<H, FileStore<FileFrom<D>>> as Keep>⟧.seen f).doubt ≡ 0
            → IsNothing (image_at D.Start)
            → (⟦<FileKeep<H, FileStore<FileFrom<D>>> as Keep>⟧.seen f).tables ≡ empty) }
    {
        let Ok(random) = RandomState::new(rt) else {
            return Err(KeepFault::Failed);
        };
        match SqliteKeep::open(rt, path, start) {
            Ok(keep) => Ok(FileKeep {
                access: Access::Open(keep),
                failures: 0,
                options: Options::new(random.hash_one(&0u8)),
                is_told: true,
            }),
            Err(fault) => Err(fault),
        }
    }
}

impl<H: Filed, S: Reopenable + Drop> Keep for FileKeep<H, S> {
    type State = H::State;

    type Command = H::Command;

    ghost seen = { λ f. seen_by ⟦<SqliteKeep<H, S> as Keep>⟧.seen empty f.is_told
        f.failures f.access };

    fn usable(&self) -> bool {
        match &self.access {
            Access::Open(keep) => keep.usable(),
            // Only `reopen` may be called.
            Access::Closed(_) => false,
        }
    }

    fn entity(&mut self, alloc: Global, entity: &Entity) -> Result<Option<H::State>, KeepFault> {
        match &mut self.access {
            Access::Open(keep) => keep.entity(alloc, entity),
            Access::Closed(_) => Err(KeepFault::Failed),
        }
    }

    fn sent(&mut self, alloc: Global, pair: &Pair) -> Result<u64, KeepFault> {
        match &mut self.access {
            Access::Open(keep) => keep.sent(alloc, pair),
            Access::Closed(_) => Err(KeepFault::Failed),
        }
    }

    fn settled(&mut self, alloc: Global, pair: &Pair) -> Result<u64, KeepFault> {
        match &mut self.access {
            Access::Open(keep) => keep.settled(alloc, pair),
            Access::Closed(_) => Err(KeepFault::Failed),
        }
    }

    fn handled(&mut self, alloc: Global, pair: &Pair) -> Result<u64, KeepFault> {
        match &mut self.access {
            Access::Open(keep) => keep.handled(alloc, pair),
            Access::Closed(_) => Err(KeepFault::Failed),
        }
    }

    fn held(
        &mut self,
        alloc: Global,
        pair: &Pair,
        number: Number,
    ) -> Result<Option<Message>, KeepFault> {
        match &mut self.access {
            Access::Open(keep) => keep.held(alloc, pair, number),
            Access::Closed(_) => Err(KeepFault::Failed),
        }
    }

    fn drainable(&mut self, alloc: Global) -> Result<Option<Pair>, KeepFault> {
        match &mut self.access {
            Access::Open(keep) => keep.drainable(alloc),
            Access::Closed(_) => Err(KeepFault::Failed),
        }
    }

    fn unsettled(
        &mut self,
        alloc: Global,
        after: &Option<LetterPlace>,
        limit: usize,
    ) -> Result<Vec<Letter>, KeepFault> {
        match &mut self.access {
            Access::Open(keep) => keep.unsettled(alloc, after, limit),
            Access::Closed(_) => Err(KeepFault::Failed),
        }
    }

    fn journal(
        &mut self,
        alloc: Global,
        from: u64,
        limit: usize,
    ) -> Result<Vec<JournalRow<H::Command>>, KeepFault> {
        match &mut self.access {
            Access::Open(keep) => keep.journal(alloc, from, limit),
            Access::Closed(_) => Err(KeepFault::Failed),
        }
    }

    fn length(&self) -> u64 {
        match &self.access {
            Access::Open(keep) => keep.length(),
            Access::Closed(_) => 0,
        }
    }

    fn apply(
        &mut self,
        alloc: Global,
        changes: Vec<Change<H::State, H::Command>>,
    ) -> Result<(), KeepFault>
        requires { (seen_by ⟦<SqliteKeep<H, S> as Keep>⟧.seen empty
            self.old.is_told self.old.failures self.old.access).usable ≡ true }
        ensures { Writes (λ f. seen_by ⟦<SqliteKeep<H, S> as Keep>⟧.seen empty
            f.is_told f.failures f.access) self.old self.new (ArePlaced changes.items) (changed changes.items)
            (keep_end result) }
    {
        match &mut self.access {
            Access::Open(keep) => keep.apply(alloc, changes),
            Access::Closed(_) => Err(KeepFault::Failed),
        }
    }

    fn apply_steps(
        &mut self,
        alloc: Global,
        changes: Vec<Change<H::State, H::Command>>,
    ) -> Result<(), KeepFault>
        requires usable { (seen_by ⟦<SqliteKeep<H, S> as Keep>⟧.seen empty
            self.old.is_told self.old.failures self.old.access).usable ≡ true }
        requires steps { (seen_by ⟦<SqliteKeep<H, S> as Keep>⟧.seen empty
            self.old.is_told self.old.failures self.old.access).doubt ≡ 0 → AreSteps H.State.follows changes.items
            (seen_by ⟦<SqliteKeep<H, S> as Keep>⟧.seen empty
            self.old.is_told self.old.failures self.old.access).tables }
        ensures { Writes (λ f. seen_by ⟦<SqliteKeep<H, S> as Keep>⟧.seen empty
            f.is_told f.failures f.access) self.old self.new (ArePlaced changes.items) (changed changes.items)
            (keep_end result) }
    {
        // Where a reopening has failed nobody knows what is there, so no part of it is left as it was.
        if !self.is_told {
            return self.apply(alloc, changes);
        }
        match &mut self.access {
            Access::Open(keep) => keep.apply_steps(alloc, changes),
            Access::Closed(_) => Err(KeepFault::Failed),
        }
    }

    fn reopen(&mut self, alloc: Global) -> Result<(), KeepFault> {
        replace_with(self, alloc, FileKeep::reopened)
    }

    ghost sound = { λ f. sound_by ⟦<SqliteKeep<H, S> as Keep>⟧.seen empty f.is_told f.failures (λ k.
        seen_sound H.filing _ k.is_usable k.failures k.count k.sound k.live
        (λ live db. S.Store.settled k.conn.store db live) (S.Store.stays k.conn.store) (S.Store.survives k.conn.store))
        f.access };
}
