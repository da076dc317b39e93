//! What differs between the files of services.

ghost use Rattle.std.specs.Prelude.{◌≡◌, ◌≤◌, ℕ, List, true, false, Some, OnOk, IfOk, IsTrue, is_some, option_copied};
ghost use Rattle.sqlite_trees.specs.Tree.{Trees};
ghost use Rattle.sqlite_trees.specs.View.{doubt};
ghost use Rattle.sqlite.specs.Effect.{IsDatabase};
ghost use Rattle.sqlite.specs.Held.{state};
ghost use Rattle.sqlite.specs.State.{HasCleanDisk, Survives, KeepsCommit};
ghost use Rattle.keep.specs.Tables.{changed_by};
ghost use Rattle.keep.specs.declared.change.Change.TheVariants.{State};
ghost use Rattle.sql_rows.specs.Tables.{Stays};
ghost use Rattle.keep_sqlite.specs.Migration.{FirstFiling, IsFirst, Renews};
ghost use Rattle.keep_sqlite.specs.Ready.{IsFiled, IsReady, Makes};

use crate::progress::Progress;
use activities::Parts;
use base::Entity;
use sql_bodies::CommandBody;
use sql_rows::Service;
use sqlite::{Alter, Connection, Error, Transaction};
use std::alloc::{AllocError, Global};

/// A service whose states and commands can stand in a file.
pub trait Filed {
    ghost use Rattle.keep_sqlite.specs.Filing.{Filing};
    ghost use Rattle.keep_sqlite.specs.Migration.{FirstFiling};

    /// What is kept of an entity.
    type State: Drop + Parts;
    /// What its seats ask for.
    type Command: CommandBody;

    /// The service's schema, and how the rows of its own tables are read.
    ghost filing: { Filing Self.State Self.Command };

    /// Which service it is.
    fn service() -> Service
        ensures { result ≡ filing.is_service.service };

    /// An equal state, in memory of its own or shared with it.
    ///
    /// # Errors
    /// If an allocation fails.
    fn copy_state(alloc: Global, row: &Self::State) -> Result<Self::State, AllocError>
        ensures { IfOk result (λ s. s ≡ row.now) };

    /// The row of an entity. How many rows the journal has stands for the contract alone.
    ///
    /// # Errors
    /// If the store or an allocation failed, and where the file has a row that isn't one of a state.
    fn read_state<S: Alter>(
        alloc: Global,
        conn: &mut Connection<S>,
        entity: &Entity,
        _count: u64,
    ) -> Result<Option<Self::State>, Error>
        requires autocommit { conn.old.in_transaction ≡ false }
        requires ready { HasCleanDisk (state S.Store conn.old) → IsReady filing.schema _count (state S.Store conn.old) }
        ensures row { HasCleanDisk (state S.Store conn.new)
            → IfOk result (λ row. row ≡ filing.entity (state S.Store conn.old).now.trees entity.now) }
        ensures autocommit { conn.new.in_transaction ≡ false }
        ensures open { HasCleanDisk (state S.Store conn.new) → OnOk result (IsTrue (state S.Store conn.new).is_open) }
        ensures stays { HasCleanDisk (state S.Store conn.new) → Stays (state S.Store conn.old) (state S.Store conn.new) }
        ensures crash { HasCleanDisk (state S.Store conn.new) → (db : Trees) → (state S.Store conn.new).may_leave db
            → (state S.Store conn.old).may_leave db }
        ensures clean { doubt (state S.Store conn.old).is_clean ≤ doubt (state S.Store conn.new).is_clean };

    /// Sets the row of an entity, or takes it away.
    ///
    /// # Errors
    /// If the store or an allocation failed, and where the file has no place for the entity.
    fn write_state<S: Alter>(
        alloc: Global,
        tx: &mut Transaction<'_, S>,
        entity: &Entity,
        row: &Option<Self::State>,
        count: u64,
    ) -> Result<u64, Error>
        requires filed { HasCleanDisk (state S.Store tx.old.conn.now)
            → IsFiled filing.schema count (state S.Store tx.old.conn.now).now }
        requires sound { HasCleanDisk (state S.Store tx.old.conn.now) → IsDatabase (state S.Store tx.old.conn.now).now }
        requires inside { HasCleanDisk (state S.Store tx.old.conn.now)
            → IsTrue (state S.Store tx.old.conn.now).in_transaction }
        ensures same_reference { tx.new.conn.ghost_name ≡ tx.old.conn.ghost_name }
        ensures ok { HasCleanDisk (state S.Store tx.new.conn.now)
            → IfOk result (λ count. Makes filing (changed_by (State entity.now row.now)) count
            (state S.Store tx.old.conn.now) (state S.Store tx.new.conn.now)) }
        ensures kept { HasCleanDisk (state S.Store tx.new.conn.now)
            → KeepsCommit (state S.Store tx.old.conn.now) (state S.Store tx.new.conn.now) }
        ensures survives { Survives (state S.Store tx.old.conn.now) (state S.Store tx.new.conn.now) (λ _. ⊥) };

    /// Sets the row of an entity, which has one, to a state that follows it by an input of this sender: no more is
    /// written than what differs. A seat is no sender.
    ///
    /// # Errors
    /// If the store or an allocation failed, and where the file has no place for the entity.
    fn write_step<S: Alter>(
        alloc: Global,
        tx: &mut Transaction<'_, S>,
        entity: &Entity,
        row: &Self::State,
        sender: Option<&Entity>,
        count: u64,
    ) -> Result<u64, Error>
        requires filed { HasCleanDisk (state S.Store tx.old.conn.now)
            → IsFiled filing.schema count (state S.Store tx.old.conn.now).now }
        requires sound { HasCleanDisk (state S.Store tx.old.conn.now) → IsDatabase (state S.Store tx.old.conn.now).now }
        requires inside { HasCleanDisk (state S.Store tx.old.conn.now)
            → IsTrue (state S.Store tx.old.conn.now).in_transaction }
        requires stands { HasCleanDisk (state S.Store tx.old.conn.now)
            → is_some (filing.entity (state S.Store tx.old.conn.now).now.trees entity.now) ≡ true }
        requires follows { HasCleanDisk (state S.Store tx.old.conn.now) → (before : Self.State)
            → filing.entity (state S.Store tx.old.conn.now).now.trees entity.now ≡ Some before
            → Self.State.follows (option_copied sender) before row.now }
        ensures same_reference { tx.new.conn.ghost_name ≡ tx.old.conn.ghost_name }
        ensures ok { HasCleanDisk (state S.Store tx.new.conn.now)
            → IfOk result (λ count. Makes filing (changed_by (State entity.now (Some row.now))) count
            (state S.Store tx.old.conn.now) (state S.Store tx.new.conn.now)) }
        ensures kept { HasCleanDisk (state S.Store tx.new.conn.now)
            → KeepsCommit (state S.Store tx.old.conn.now) (state S.Store tx.new.conn.now) }
        ensures survives { Survives (state S.Store tx.old.conn.now) (state S.Store tx.new.conn.now) (λ _. ⊥) };

    /// How the rows of the service were stored in version 1.
    ghost first: { FirstFiling Self.State Self.Command };

    /// Writes the rows of version 1 as those of today. `progress` is called for each row that had to be looked at.
    ///
    /// # Errors
    /// If the store or an allocation failed, and where a row isn't one that version 1 wrote.
    fn renew<S: Alter, P: Progress>(
        alloc: Global,
        tx: &mut Transaction<'_, S>,
        progress: &mut P,
    ) -> Result<(), Error>
        requires first { HasCleanDisk (state S.Store tx.old.conn.now)
            → IsFirst filing.is_service.service (state S.Store tx.old.conn.now).now }
        requires sound { HasCleanDisk (state S.Store tx.old.conn.now) → IsDatabase (state S.Store tx.old.conn.now).now }
        requires inside { HasCleanDisk (state S.Store tx.old.conn.now)
            → IsTrue (state S.Store tx.old.conn.now).in_transaction }
        ensures same_reference { tx.new.conn.ghost_name ≡ tx.old.conn.ghost_name }
        ensures ok { HasCleanDisk (state S.Store tx.new.conn.now) → OnOk result (Renews first filing
            (state S.Store tx.old.conn.now) (state S.Store tx.new.conn.now)) }
        ensures kept { HasCleanDisk (state S.Store tx.new.conn.now)
            → KeepsCommit (state S.Store tx.old.conn.now) (state S.Store tx.new.conn.now) }
        ensures survives { Survives (state S.Store tx.old.conn.now) (state S.Store tx.new.conn.now) (λ _. ⊥) };

    /// Commands are read as their bodies are.
    ghost commands: { (body : List ℕ) → filing.command body ≡ Self.Command.read body };
}
