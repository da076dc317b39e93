//! What is so of runs over tables in memory, and of those that begin with good tables.

ghost use Rattle.std.specs.Prelude.{◌≡◌, List};
ghost use Rattle.laws_stores.specs.Sight.{AllTables, AreClean};
ghost use Rattle.schedule_text.specs.declared.event.Event.{Event};
ghost use Rattle.schedule_text.specs.declared.outcome.Outcome.{Outcome};
ghost use Rattle.schedule_runner.specs.Sight.{sight};
ghost use Rattle.programs.specs.GoodTables.{AreGood, GoesOn};
ghost use Rattle.programs.specs.InMemory.{EndsWellInMemory};
ghost use Rattle.programs.specs.Runs.{HasRun};
ghost use Rattle.schedule_io.specs.declared.fault.StoresFault.{StoresFault};

use billing::Accounts;
use keep::Keep;
use keep_plain::PlainKeep;
use purchasing::Orders;
use schedule_io::{PlainStores, Stores};
use warehouse::Stocks;

/// Over tables in memory nothing is asked of a run: its start is good, no file is in doubt, so its end is good, and
/// each store opens.
pub fn a_run_in_memory_ends_well()
    ensures ended { (events : List Event) (outcomes : List Outcome)
        (run : HasRun ⟦<PlainKeep<Orders> as Keep>⟧.seen ⟦<PlainKeep<Stocks> as Keep>⟧.seen
        ⟦<PlainKeep<Accounts> as Keep>⟧.seen ⟦<PlainStores as Stores>⟧.found events outcomes)
        → EndsWellInMemory events outcomes run.first run.last }
    ensures opened { (fault : StoresFault) → ⟦<PlainStores as Stores>⟧.fails fault → ⊥ }
{}

/// A run over stores that are found to have good tables begins and ends well, while no file is in doubt; and whatever a
/// stop leaves of it, another run may begin with.
pub fn a_run_goes_on<S: Stores>()
    ensures { (left : AllTables) → AreGood left → ((t : AllTables) → S.found t → t ≡ left)
        → (events : List Event) (outcomes : List Outcome)
        (run : HasRun S.Orders.seen S.Stocks.seen S.Accounts.seen S.found events outcomes)
        → AreClean (sight S.Orders.seen S.Stocks.seen S.Accounts.seen run.last)
        → GoesOn S.Orders.seen S.Stocks.seen S.Accounts.seen left events outcomes run.first run.last }
{}
