//! What is so of runs over tables of SQL.

ghost use Rattle.std.specs.Prelude.{List};
ghost use Rattle.sqlite.specs.Files.{IsNothing};
ghost use Rattle.sqlite.specs.WalFiles.{image_at};
ghost use Rattle.keep.specs.Seen.{IsSound};
ghost use Rattle.laws_stores.specs.Sight.{AllTables, AreClean, all_empty};
ghost use Rattle.schedule_text.specs.declared.event.Event.{Event};
ghost use Rattle.schedule_text.specs.declared.outcome.Outcome.{Outcome};
ghost use Rattle.schedule_runner.specs.Sight.{sight};
ghost use Rattle.programs.specs.GoodTables.{AreGood, GoesOn};
ghost use Rattle.programs.specs.Runs.{HasRun};
ghost use Rattle.schedule_program.specs.Files.{AreFoundIn, AreHeldIn, AreTakenOverIn};

use billing::Accounts;
use keep::Keep;
use keep_files::FileKeep;
use keep_sqlite::SqliteKeep;
use programs::a_run_goes_on;
use purchasing::Orders;
use schedule_io::Stores;
use schedule_program::SqliteStores;
use sqlite::{FileFrom, FileStore, MemStore, Start};
use warehouse::Stocks;

/// The trait's law: what a stop leaves of a usable store are its tables.
fn stores_are_sound<K: Keep>()
    ensures { (k : K) → IsSound (K.seen k) }
{}

/// Over tables of SQL in memory nothing is asked of a run, as over those in ordered maps.
pub fn a_run_in_sql_ends_well()
    ensures { (events : List Event) (outcomes : List Outcome)
        (run : HasRun ⟦<SqliteKeep<Orders, MemStore> as Keep>⟧.seen ⟦<SqliteKeep<Stocks, MemStore> as Keep>⟧.seen
        ⟦<SqliteKeep<Accounts, MemStore> as Keep>⟧.seen ⟦<SqliteStores as Stores>⟧.found events outcomes)
        → GoesOn ⟦<SqliteKeep<Orders, MemStore> as Keep>⟧.seen ⟦<SqliteKeep<Stocks, MemStore> as Keep>⟧.seen
        ⟦<SqliteKeep<Accounts, MemStore> as Keep>⟧.seen all_empty events outcomes run.first run.last }
{
    // The general law, for stores of which nothing is found but empty tables.
    a_run_goes_on::<SqliteStores>();
}

/// Where three files hold good tables, as a run with a good end leaves them, whenever it's stopped, a run over them
/// begins with these tables and has a good end, while the files give back what was written to them.
pub fn a_run_over_files_goes_on<O: Start, S: Start, A: Start>()
    ensures { (left : AllTables) → AreGood left
        → AreHeldIn (image_at O.Start) (image_at S.Start) (image_at A.Start) left
        → (events : List Event) (outcomes : List Outcome)
        (run : HasRun ⟦<FileKeep<Orders, FileStore<FileFrom<O>>> as Keep>⟧.seen
        ⟦<FileKeep<Stocks, FileStore<FileFrom<S>>> as Keep>⟧.seen
        ⟦<FileKeep<Accounts, FileStore<FileFrom<A>>> as Keep>⟧.seen
        (AreFoundIn (image_at O.Start) (image_at S.Start) (image_at A.Start)) events outcomes)
        → AreClean (sight ⟦<FileKeep<Orders, FileStore<FileFrom<O>>> as Keep>⟧.seen
        ⟦<FileKeep<Stocks, FileStore<FileFrom<S>>> as Keep>⟧.seen
        ⟦<FileKeep<Accounts, FileStore<FileFrom<A>>> as Keep>⟧.seen run.last)
        → GoesOn ⟦<FileKeep<Orders, FileStore<FileFrom<O>>> as Keep>⟧.seen
        ⟦<FileKeep<Stocks, FileStore<FileFrom<S>>> as Keep>⟧.seen
        ⟦<FileKeep<Accounts, FileStore<FileFrom<A>>> as Keep>⟧.seen left events outcomes run.first run.last }
{
    // The law is about one type of store, so it is cited for each of the three.
    stores_are_sound::<FileKeep<Orders, FileStore<FileFrom<O>>>>();
    stores_are_sound::<FileKeep<Stocks, FileStore<FileFrom<S>>>>();
    stores_are_sound::<FileKeep<Accounts, FileStore<FileFrom<A>>>>();
}

/// A run over a new folder, whose three files hold nothing yet, begins with empty tables and has a good end, while the files
/// give back what was written to them.
pub fn a_run_over_new_files_ends_well<O: Start, S: Start, A: Start>()
    ensures { IsNothing (image_at O.Start) → IsNothing (image_at S.Start) → IsNothing (image_at A.Start)
        → (events : List Event) (outcomes : List Outcome)
        (run : HasRun ⟦<FileKeep<Orders, FileStore<FileFrom<O>>> as Keep>⟧.seen
        ⟦<FileKeep<Stocks, FileStore<FileFrom<S>>> as Keep>⟧.seen
        ⟦<FileKeep<Accounts, FileStore<FileFrom<A>>> as Keep>⟧.seen
        (AreFoundIn (image_at O.Start) (image_at S.Start) (image_at A.Start)) events outcomes)
        → AreClean (sight ⟦<FileKeep<Orders, FileStore<FileFrom<O>>> as Keep>⟧.seen
        ⟦<FileKeep<Stocks, FileStore<FileFrom<S>>> as Keep>⟧.seen
        ⟦<FileKeep<Accounts, FileStore<FileFrom<A>>> as Keep>⟧.seen run.last)
        → GoesOn ⟦<FileKeep<Orders, FileStore<FileFrom<O>>> as Keep>⟧.seen
        ⟦<FileKeep<Stocks, FileStore<FileFrom<S>>> as Keep>⟧.seen
        ⟦<FileKeep<Accounts, FileStore<FileFrom<A>>> as Keep>⟧.seen all_empty events outcomes run.first run.last }
{
    // Files that hold nothing are found with empty tables, which are good.
    a_run_over_files_goes_on::<O, S, A>();
}

/// A run over files goes on as [`a_run_over_files_goes_on`] says where the three were of version 1, whose rows
/// were good tables, and were migrated.
pub fn files_taken_over_go_on<O: Start, S: Start, A: Start>()
    ensures { (left : AllTables) → AreGood left
        → AreTakenOverIn (image_at O.Start) (image_at S.Start) (image_at A.Start) left
        → (events : List Event) (outcomes : List Outcome)
        (run : HasRun ⟦<FileKeep<Orders, FileStore<FileFrom<O>>> as Keep>⟧.seen
        ⟦<FileKeep<Stocks, FileStore<FileFrom<S>>> as Keep>⟧.seen
        ⟦<FileKeep<Accounts, FileStore<FileFrom<A>>> as Keep>⟧.seen
        (AreFoundIn (image_at O.Start) (image_at S.Start) (image_at A.Start)) events outcomes)
        → AreClean (sight ⟦<FileKeep<Orders, FileStore<FileFrom<O>>> as Keep>⟧.seen
        ⟦<FileKeep<Stocks, FileStore<FileFrom<S>>> as Keep>⟧.seen
        ⟦<FileKeep<Accounts, FileStore<FileFrom<A>>> as Keep>⟧.seen run.last)
        → GoesOn ⟦<FileKeep<Orders, FileStore<FileFrom<O>>> as Keep>⟧.seen
        ⟦<FileKeep<Stocks, FileStore<FileFrom<S>>> as Keep>⟧.seen
        ⟦<FileKeep<Accounts, FileStore<FileFrom<A>>> as Keep>⟧.seen left events outcomes run.first run.last }
{
    // Files are migrated to tables with the same rows in today's words, so the law is that of any files.
    a_run_over_files_goes_on::<O, S, A>();
}
