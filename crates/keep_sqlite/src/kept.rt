//! A store over a connection.

ghost use Rattle.std.specs.Prelude.{◌≡◌, ◌≤◌, ◌⊎◌, true, false, IsTrue, IfOk, IfErr, IfSome, IsOkAnd, OnOk, Err, Some};
ghost use Rattle.sqlite_trees.specs.Tree.{Trees};
ghost use Rattle.sqlite_trees.specs.View.{doubt};
ghost use Rattle.sqlite.specs.Files.{IsNothing};
ghost use Rattle.sqlite.specs.Held.{state};
ghost use Rattle.sqlite.specs.State.{HasCleanDisk};
ghost use Rattle.last_states.specs.Known.{known_of, Knows};
ghost use Rattle.keep.specs.Law.{MoreFailures, Reads, Writes, Reopens};
ghost use Rattle.keep.specs.Steps.{AreSteps};
ghost use Rattle.keep.specs.Seen.{keep_end};
ghost use Rattle.keep.specs.declared.fault.KeepFault.TheVariants.{Failed, Memory};
ghost use Rattle.keep.specs.Tables.{changed, empty, ArePlaced};
ghost use Rattle.sql_rows.specs.Tables.{Stays};
ghost use Rattle.sqlite_catalog.specs.Listing.{IsSound};
ghost use Rattle.sqlite.specs.WalFiles.{image_at};
ghost use Rattle.keep_sqlite.specs.Found.{IsFoundIn, IsTakenOver, TellsOfService};
ghost use Rattle.keep_sqlite.specs.Look.{IsShut};
ghost use Rattle.keep_sqlite.specs.Ready.{IsEnd, IsReady};
ghost use Rattle.keep_sqlite.specs.Law.{kept_prop, ready_prop, seen_of, seen_sound};
ghost use Rattle.keep_sqlite.specs.Tables.{tables_of};

use crate::filed::Filed;
use crate::founding::{found, with_tables};
use crate::journal::find_rows;
use crate::listing::{find_drainable, find_letters};
use crate::opening::{examine, opening_fault};
use crate::reads::{find_handled, find_held, find_sent, find_settled, look};
use crate::states::remember_row;
use crate::writes::write_all;
use activities::JournalRow;
use base::{Entity, Number, Pair};
use envelope::{Letter, Message};
use keep::{Change, Keep, KeepFault, LetterPlace};
use last_states::LastStates;
use sql_rows::with_sorted_rows;
use sqlite::{Alter, Connection, Error, ErrorCode, FileFrom, FileStore, MemStore, Start};
use std::alloc::{AllocError, Global};
use std::marker::PhantomData;

/// The tables of a service in a file, or in memory, over a connection that stays open.
pub struct SqliteKeep<H: Filed, S: Alter> {
    conn: Connection<S>,
    // What the rows of entities hold, where it was read or written last.
    // The last 1,024, so that a stock with many lines isn't read again for each letter.
    states: LastStates<H::State>,
    // How many rows the journal has.
    count: u64,
    failures: u64,
    is_usable: bool,
    service: PhantomData<H>,
    // No transaction is open between two calls.
    ghost autocommit: { conn.in_transaction ≡ false },
    // While the disk is clean and the store open: the rows are as the schema demands, and the journal has so many.
    ghost sound: { HasCleanDisk (state S.Store conn) → IsTrue (state S.Store conn).is_open
        → IsReady H.filing.schema count (state S.Store conn) } by { ready_prop _ _ _ },
    // A usable store is open.
    ghost live: { IsTrue is_usable → HasCleanDisk (state S.Store conn) → IsTrue (state S.Store conn).is_open },
    // The states that are known are those of the rows.
    ghost known: { HasCleanDisk (state S.Store conn) → IsTrue (state S.Store conn).is_open
        → Knows (known_of states) (H.filing.entity (state S.Store conn).now.trees) } by { kept_prop H.State.code (state S.Store conn) _ _ },
}

/// Written by hand, since the service is no value that could be dropped.
impl<H: Filed, S: Alter + Drop> Drop for SqliteKeep<H, S> {
    fn drop(self) {
        let SqliteKeep {
            conn: _conn,
            states: _states,
            count: _,
            failures: _,
            is_usable: _,
            service: _,
        } = self;
    }
}

impl<H: Filed, S: Alter> SqliteKeep<H, S> {
    /// Counts a failure.
    fn fail<R>(&mut self) -> Result<R, KeepFault>
        ensures failed { result ≡ Err Failed }
        ensures counted { MoreFailures self.old.failures self.new.failures }
        ensures shut { self.new.is_usable ≡ false }
        ensures same { self.new.conn ≡ self.old.conn }
    {
        self.is_usable = false;
        // Saturating: callers compare counts, and one that wrapped around would hide failures.
        self.failures = self.failures.saturating_add(1);
        Err(KeepFault::Failed)
    }

    /// Ends a call whose statements did this. Where they wanted memory, and the connection is open still, nothing failed.
    /// Where the look at it wants memory too it isn't known to be open, which is told as a failure.
    fn end<R: Drop>(&mut self, done: Result<R, Error>) -> Result<R, KeepFault>
        requires shut { self.old.is_usable ≡ false }
        requires open { HasCleanDisk (state S.Store self.old.conn)
            → OnOk done (IsTrue (state S.Store self.old.conn).is_open) }
        ensures end { IsEnd done result self.new.is_usable self.old.failures self.new.failures }
        ensures stays { HasCleanDisk (state S.Store self.new.conn)
            → Stays (state S.Store self.old.conn) (state S.Store self.new.conn) }
        ensures crash { HasCleanDisk (state S.Store self.new.conn) → (db : Trees)
            → (state S.Store self.new.conn).may_leave db → (state S.Store self.old.conn).may_leave db }
        ensures clean { doubt (state S.Store self.old.conn).is_clean ≤ doubt (state S.Store self.new.conn).is_clean }
        ensures live { IsTrue self.new.is_usable → HasCleanDisk (state S.Store self.new.conn)
            → IsTrue (state S.Store self.new.conn).is_open }
    {
        match done {
            Ok(value) => {
                self.is_usable = true;
                Ok(value)
            }
            Err(Error::SqliteFailure(ErrorCode::OutOfMemory)) => {
                // No memory says nothing of the connection: the statement may have shut it, and a usable store is open.
                if look(&mut self.conn).is_err() {
                    return self.fail();
                }
                self.is_usable = true;
                Err(KeepFault::Memory)
            }
            Err(_) => self.fail(),
        }
    }

    /// A copy of the state that is known of an entity, if one is.
    fn known_state(&self, alloc: Global, entity: &Entity) -> Result<Option<H::State>, AllocError>
        ensures { IfOk result (λ found. IfSome found (λ s. known_of self.now.states entity.now ≡ Some s)) }
    {
        // Copied: the caller changes its state before it writes it, and what is known must stay that of the row.
        match self.states.peek(entity) {
            Some(state) => Ok(Some(H::copy_state(alloc, state)?)),
            None => Ok(None),
        }
    }

    /// The row of an entity, as it is in the file.
    fn read_row(&mut self, alloc: Global, entity: &Entity) -> Result<Option<H::State>, KeepFault>
        requires { self.old.is_usable ≡ true }
        ensures { Reads (λ k. seen_of H.filing (state S.Store k.conn) k.is_usable k.failures) self.old self.new
            (λ t row. row ≡ t.entity entity.now) (keep_end result) }
    {
        // Until the call has ended: only an open store is usable, and a call that fails may shut it.
        self.is_usable = false;
        // Of a stock or an account all lines are read: some 3 us a line.
        let found = H::read_state::<S>(alloc, &mut self.conn, entity, self.count);
        self.end(found)
    }

    /// Keeps the state of an entity beside its row, where it has one and memory can be had.
    fn keep_state(&mut self, alloc: Global, entity: &Entity, row: &Option<H::State>)
        requires { HasCleanDisk (state S.Store self.old.conn)
            → row.now ≡ H.filing.entity (state S.Store self.old.conn).now.trees entity.now }
        ensures same { (self.new.conn ≡ self.old.conn) × (self.new.is_usable ≡ self.old.is_usable)
            × (self.new.failures ≡ self.old.failures) }
    {
        remember_row::<H>(alloc, &mut self.states, entity, row);
    }

    /// Makes these changes in one transaction; steps may be written in parts.
    fn write(
        &mut self,
        alloc: Global,
        changes: Vec<Change<H::State, H::Command>>,
        are_steps: bool,
    ) -> Result<(), KeepFault>
        requires usable { self.old.is_usable ≡ true }
        requires steps { HasCleanDisk (state S.Store self.old.conn) → IsTrue are_steps
            → AreSteps H.State.follows changes.items (tables_of H.filing (state S.Store self.old.conn).now.trees) }
        ensures { Writes (λ k. seen_of H.filing (state S.Store k.conn) k.is_usable k.failures) self.old self.new
            (ArePlaced changes.items) (changed changes.items) (keep_end result) }
    {
        self.is_usable = false;
        let done = write_all::<H, S>(
            alloc,
            &mut self.conn,
            &mut self.states,
            changes.as_slice(),
            are_steps,
            self.count,
        );
        match done {
            Ok(count) => {
                // Set only now: it's the count of the last commit.
                self.count = count;
                self.is_usable = true;
                Ok(())
            }
            // The count stays: while the connection is open, a transaction that failed has left no row.
            Err(error) => self.end(Err(error)),
        }
    }
}

impl<H: Filed> SqliteKeep<H, MemStore> {
    /// Empty tables in memory: they end with the run.
    ///
    /// # Errors
    /// `Memory` if an allocation fails.
    pub fn memory(alloc: Global) -> Result<Self, KeepFault>
        ensures usable { IfOk result (λ k. (⟦<SqliteKeep<H, MemStore> as Keep>⟧.seen k).usable ≡ true) }
        ensures empty { IfOk result (λ k. (⟦<SqliteKeep<H, MemStore> as Keep>⟧.seen k).doubt ≡ 0
            → (⟦<SqliteKeep<H, MemStore> as Keep>⟧.seen k).tables ≡ empty) }
        ensures unfailed { IfOk result (λ k. (⟦<SqliteKeep<H, MemStore> as Keep>⟧.seen k).failures ≡ 0) }
        ensures refused { IfErr result (λ fault. (fault ≡ Memory) ⊎ (fault ≡ Failed)) }
    {
        // In memory a statement costs by all rows there are: the kit's trees are sorted vectors there.
        let mut conn = Connection::open_in_memory(alloc)?;
        let states = LastStates::new(alloc)?;
        match found::<H, MemStore>(&mut conn) {
            Ok(()) => Ok(SqliteKeep {
                conn,
                states,
                count: 0,
                failures: 0,
                is_usable: true,
                service: PhantomData,
            }),
            Err(Error::SqliteFailure(ErrorCode::OutOfMemory)) => Err(KeepFault::Memory),
            Err(_) => Err(KeepFault::Failed),
        }
    }
}

impl<H: Filed, S: Alter> Keep for SqliteKeep<H, S> {
    type State = H::State;

    type Command = H::Command;

    ghost seen = { λ k. seen_of H.filing (state S.Store k.conn) k.is_usable k.failures };

    fn usable(&self) -> bool {
        self.is_usable
    }

    fn entity(&mut self, alloc: Global, entity: &Entity) -> Result<Option<H::State>, KeepFault> {
        // A hint, which saves the query: each write forgets the state before it touches the row.
        if let Some(state) = self.known_state(alloc, entity)? {
            // The states that were used last are kept.
            self.states.touch(entity);
            return Ok(Some(state));
        }
        let row = self.read_row(alloc, entity)?;
        self.keep_state(alloc, entity, &row);
        Ok(row)
    }

    fn sent(&mut self, _alloc: Global, pair: &Pair) -> Result<u64, KeepFault> {
        self.is_usable = false;
        let found = find_sent::<H, S>(&mut self.conn, pair, self.count);
        self.end(found)
    }

    fn settled(&mut self, _alloc: Global, pair: &Pair) -> Result<u64, KeepFault> {
        self.is_usable = false;
        let found = find_settled::<H, S>(&mut self.conn, pair, self.count);
        self.end(found)
    }

    fn handled(&mut self, _alloc: Global, pair: &Pair) -> Result<u64, KeepFault> {
        self.is_usable = false;
        let found = find_handled::<H, S>(&mut self.conn, pair, self.count);
        self.end(found)
    }

    fn held(
        &mut self,
        alloc: Global,
        pair: &Pair,
        number: Number,
    ) -> Result<Option<Message>, KeepFault> {
        self.is_usable = false;
        let found = find_held::<H, S>(alloc, &mut self.conn, pair, number, self.count);
        self.end(found)
    }

    fn drainable(&mut self, alloc: Global) -> Result<Option<Pair>, KeepFault> {
        self.is_usable = false;
        let found = find_drainable::<H, S>(alloc, &mut self.conn, self.count);
        self.end(found)
    }

    fn unsettled(
        &mut self,
        alloc: Global,
        after: &Option<LetterPlace>,
        limit: usize,
    ) -> Result<Vec<Letter>, KeepFault> {
        self.is_usable = false;
        let found = find_letters::<H, S>(alloc, &mut self.conn, after, limit, self.count);
        self.end(found)
    }

    fn journal(
        &mut self,
        alloc: Global,
        from: u64,
        limit: usize,
    ) -> Result<Vec<JournalRow<H::Command>>, KeepFault> {
        self.is_usable = false;
        let found = find_rows::<H, S>(alloc, &mut self.conn, from, limit, self.count);
        self.end(found)
    }

    fn length(&self) -> u64 {
        self.count
    }

    fn apply(
        &mut self,
        alloc: Global,
        changes: Vec<Change<H::State, H::Command>>,
    ) -> Result<(), KeepFault>
        requires { self.old.is_usable ≡ true }
        ensures { Writes (λ k. seen_of H.filing (state S.Store k.conn) k.is_usable k.failures) self.old self.new
            (ArePlaced changes.items) (changed changes.items) (keep_end result) }
    {
        self.write(alloc, changes, false)
    }

    fn apply_steps(
        &mut self,
        alloc: Global,
        changes: Vec<Change<H::State, H::Command>>,
    ) -> Result<(), KeepFault>
        requires usable { self.old.is_usable ≡ true }
        requires steps { HasCleanDisk (state S.Store self.old.conn)
            → AreSteps H.State.follows changes.items (tables_of H.filing (state S.Store self.old.conn).now.trees) }
        ensures { Writes (λ k. seen_of H.filing (state S.Store k.conn) k.is_usable k.failures) self.old self.new
            (ArePlaced changes.items) (changed changes.items) (keep_end result) }
    {
        self.write(alloc, changes, true)
    }

    fn reopen(&mut self, _alloc: Global) -> Result<(), KeepFault>
        ensures reopens { Reopens (λ k. seen_of H.filing (state S.Store k.conn) k.is_usable k.failures) self.old self.new
            (keep_end result) }
        ensures shut { HasCleanDisk (state S.Store self.new.conn) → result ≡ Err Failed
            → IsShut (state S.Store self.old.conn) (state S.Store self.new.conn) }
    {
        self.is_usable = false;
        // Nothing is opened again: a connection that was shut stays so. `keep_files` closes files and opens them again.
        // Count and states stay too: while the connection is open, no rows but those of the last commit are in it.
        match look(&mut self.conn) {
            Ok(()) => {
                self.is_usable = true;
                Ok(())
            }
            Err(KeepFault::Memory) => Err(KeepFault::Memory),
            Err(KeepFault::Failed | KeepFault::WrongFile) => self.fail(),
        }
    }

    ghost sound = { λ k. seen_sound H.filing _ k.is_usable k.failures k.count k.sound k.live
        (λ live db. S.Store.settled k.conn.store db live) (S.Store.stays k.conn.store) (S.Store.survives k.conn.store) };
}

impl<H: Filed, S: Alter + Drop> SqliteKeep<H, S> {
    /// The tables in a connection, as its last commit left them. Where they can't be had the store comes back.
    ///
    /// # Errors
    /// As [`adopt`](SqliteKeep::adopt), and `WrongFile` too where there are no tables.
    pub fn resume(alloc: Global, conn: Connection<S>) -> Result<Self, (KeepFault, S)>
        ensures fresh { IfOk result (λ k. (k.is_usable ≡ true) × (k.failures ≡ 0)) }
        ensures sound { IfOk result (λ k. HasCleanDisk (state S.Store k.conn)
            → IsSound H.filing.schema (state S.Store conn).committed.trees) }
        ensures tells { IfOk result (λ k. HasCleanDisk (state S.Store k.conn)
            → TellsOfService H.filing (state S.Store conn).committed.trees) }
        ensures tables { IfOk result (λ k. HasCleanDisk (state S.Store k.conn)
            → (state S.Store k.conn).now.trees ≡ (state S.Store conn).committed.trees) }
        ensures clean { IfOk result (λ k. doubt (state S.Store conn).is_clean
            ≤ doubt (state S.Store k.conn).is_clean) }
    {
        // The kit says of a store that its rowids rise, and not of a connection: so that is taken apart and made again.
        let mut conn = match with_sorted_rows(alloc, conn) {
            Ok(conn) => conn,
            Err((error, store)) => return Err((opening_fault(&error), store)),
        };
        // Each error returns the store: its files are what the caller tries again with.
        let Ok(states) = LastStates::new(alloc) else {
            return Err((KeepFault::Memory, conn.into_store()));
        };
        match examine::<H, S>(alloc, &mut conn) {
            Ok(Some(count)) => Ok(SqliteKeep {
                conn,
                states,
                count,
                // Those of earlier openings are the caller's to put back, by `with_failures`.
                failures: 0,
                is_usable: true,
                service: PhantomData,
            }),
            Ok(None) => Err((KeepFault::WrongFile, conn.into_store())),
            Err(error) => Err((opening_fault(&error), conn.into_store())),
        }
    }

    /// Takes over a connection: the tables of the service that are there, or, where there are no tables, new ones.
    ///
    /// # Errors
    /// `WrongFile` where the tables are others, as those of another service or version. `Failed` where the positions of
    /// the journal aren't 1, 2, .., where a transaction is open, and where the store failed. `Memory` if an allocation
    /// fails.
    pub fn adopt(alloc: Global, conn: Connection<S>) -> Result<Self, KeepFault>
        ensures usable { IfOk result (λ k. (⟦<SqliteKeep<H, S> as Keep>⟧.seen k).usable ≡ true) }
        ensures failures { IfOk result (λ k. (⟦<SqliteKeep<H, S> as Keep>⟧.seen k).failures ≡ 0) }
        ensures found { IfOk result (λ k. (⟦<SqliteKeep<H, S> as Keep>⟧.seen k).doubt ≡ 0
            → IsTakenOver H.filing (state S.Store conn) (⟦<SqliteKeep<H, S> as Keep>⟧.seen k).tables) }
        ensures clean { IfOk result (λ k. doubt (state S.Store conn).is_clean
            ≤ (⟦<SqliteKeep<H, S> as Keep>⟧.seen k).doubt) }
    {
        // A transaction that is open could be rolled back, with the rows that are found now.
        if !conn.is_autocommit() {
            return Err(KeepFault::Failed);
        }
        let conn = match with_tables::<H, S>(conn) {
            Ok(conn) => conn,
            Err(error) => return Err(opening_fault(&error)),
        };
        match SqliteKeep::resume(alloc, conn) {
            Ok(keep) => Ok(keep),
            Err((fault, _store)) => Err(fault),
        }
    }

    /// Takes over a connection where it was opened. The store is a parameter, since the arms of a `match` over files cost
    /// a proof of how all their parts are dropped.
    fn adopt_opened<L: Drop>(
        alloc: Global,
        opened: Result<Connection<S>, (Error, L)>,
    ) -> Result<Self, KeepFault>
        ensures usable { IfOk result (λ k. (⟦<SqliteKeep<H, S> as Keep>⟧.seen k).usable ≡ true) }
        ensures failures { IfOk result (λ k. (⟦<SqliteKeep<H, S> as Keep>⟧.seen k).failures ≡ 0) }
        ensures found { IfOk result (λ k. IsOkAnd opened (λ conn. (⟦<SqliteKeep<H, S> as Keep>⟧.seen k).doubt ≡ 0
            → IsTakenOver H.filing (state S.Store conn) (⟦<SqliteKeep<H, S> as Keep>⟧.seen k).tables)) }
        ensures clean { IfOk result (λ k. IsOkAnd opened (λ conn. doubt (state S.Store conn).is_clean
            ≤ (⟦<SqliteKeep<H, S> as Keep>⟧.seen k).doubt)) }
    {
        match opened {
            Ok(conn) => SqliteKeep::adopt(alloc, conn),
            Err((error, _left)) => Err(opening_fault(&error)),
        }
    }
}

impl<H: Filed, D: Start> SqliteKeep<H, FileStore<FileFrom<D>>> {
    /// Opens the file at a path with its log beside it, or makes them: two files that SQLite reads, the second under
    /// the path with `-wal` after it. `start` stands for what they hold: one value for each pair of files. Files that
    /// hold nothing yet get empty tables, also where an earlier opening was stopped while it made them.
    ///
    /// # Errors
    /// `WrongFile` where the file is no database, or one with other tables, as those of another service or version.
    /// `Failed` where it can't be opened, as one that is open already, and where the positions of its journal aren't
    /// 1, 2, ... `Memory` where an allocation failed.
    pub fn open(rt: &HostRuntime, path: &str, start: D) -> Result<Self, KeepFault>
        ensures usable { IfOk result (λ k. (⟦<SqliteKeep<H, FileStore<FileFrom<D>>> as Keep>⟧.seen k).usable ≡ true) }
        ensures failures { IfOk result (λ k.
            (⟦<SqliteKeep<H, FileStore<FileFrom<D>>> as Keep>⟧.seen k).failures ≡ 0) }
        ensures found { IfOk result (λ k. (⟦<SqliteKeep<H, FileStore<FileFrom<D>>> as Keep>⟧.seen k).doubt ≡ 0
            → IsFoundIn H.filing (image_at D.Start)
            (⟦<SqliteKeep<H, FileStore<FileFrom<D>>> as Keep>⟧.seen k).tables) }
        ensures new { IfOk result (λ k. (⟦<SqliteKeep<H, FileStore<FileFrom<D>>> as Keep>⟧.seen k).doubt ≡ 0
            → IsNothing (image_at D.Start)
            → (⟦<SqliteKeep<H, FileStore<FileFrom<D>>> as Keep>⟧.seen k).tables ≡ empty) }
    {
        // A file that is missing or empty is new, whatever its log holds, as to SQLite. Refusing such a pair would save
        // the log of a file that was moved away. But a power cut amid the making of a file may leave the same pair:
        // `runs/cut-power` found services that would not start any more.
        SqliteKeep::adopt_opened(rt.alloc(), Connection::open_from(rt, path, false, start))
    }
}

impl<H: Filed, S: Alter> SqliteKeep<H, S> {
    /// The connection, and the failures that were counted.
    pub fn into_conn(self) -> (Connection<S>, u64)
        ensures conn { result.0 ≡ self.conn }
        ensures failures { result.1 ≡ self.failures }
    {
        let SqliteKeep {
            conn,
            // Whoever has the connection may write rows that these states know nothing of.
            states: _states,
            count: _,
            failures,
            is_usable: _,
            service: _,
        } = self;
        (conn, failures)
    }

    /// The store over its tables, where so many failures were counted before.
    pub fn with_failures(mut self, failures: u64) -> Self
        ensures conn { result.conn ≡ self.conn }
        ensures usable { result.is_usable ≡ self.is_usable }
        ensures failures { result.failures ≡ failures }
    {
        self.failures = failures;
        self
    }
}
