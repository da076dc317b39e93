//! Runs over tables of SQL in the files of a folder.

ghost use Rattle.std.specs.Prelude.{IfOk, ⊤};
ghost use Rattle.sqlite.specs.WalFiles.{image_at};
ghost use Rattle.keep_sqlite.specs.Accounts.{accounts};
ghost use Rattle.keep_sqlite.specs.Found.{IsFoundIn};
ghost use Rattle.keep_sqlite.specs.Orders.{orders};
ghost use Rattle.keep_sqlite.specs.Stocks.{stocks};
ghost use Rattle.schedule_io.specs.Ends.{AreRun};
ghost use Rattle.schedule_io.specs.Opened.{AreNew, shown};
ghost use Rattle.programs.specs.Runs.{HasRun};
ghost use Rattle.schedule_program.specs.Files.{AreFoundIn, IsOpenedWith};
ghost use Rattle.schedule_stores.specs.Over.{RunsOver};

use billing::Accounts;
use keep::{Keep, KeepFault};
use keep_files::{FileKeep, Reopenable};
use keep_sqlite::Filed;
use programs::run_events;
use purchasing::Orders;
use schedule_io::{RunFault, StoresFault};
use schedule_program::{FileStores, is_sound};
use schedule_text::Event;
use sqlite::{FileFrom, FileStore, Start};
use std::alloc::Global;
use std::io::Write;
use warehouse::Stocks;

/// A service's tables in a file of the operating system.
type InFile<H, D> = FileKeep<H, FileStore<FileFrom<D>>>;

/// Opens the file of this name in a folder.
fn open_file<H: Filed, D: Start>(
    rt: &HostRuntime,
    folder: &str,
    name: &str,
    start: D,
) -> Result<InFile<H, D>, KeepFault>
    ensures { IfOk result (λ f. IsOpenedWith (IsFoundIn H.filing (image_at D.Start))
        (⟦<FileKeep<H, FileStore<FileFrom<D>>> as Keep>⟧.seen f)) }
{
    // To join a path allocates, and fails for nothing else.
    let Ok(path) = format!(in rt.alloc(); "{folder}/{name}") else {
        return Err(KeepFault::Memory);
    };
    match FileKeep::open(rt, path.as_str(), start) {
        Ok(keep) => {
            // A call that does nothing: its clause is the law from which this function's clause follows.
            is_sound(&keep);
            Ok(keep)
        }
        Err(fault) => Err(fault),
    }
}

// A call whose types are three files of the operating system goes over the limits of its check. So each of the calls that
// follow has one such file more than the one before it.

/// Runs events over files that were opened, whatever they are.
fn run_over<P, W, B, T: Write>(
    alloc: Global,
    keeps: (
        FileKeep<Orders, P>,
        FileKeep<Stocks, W>,
        FileKeep<Accounts, B>,
    ),
    events: Vec<Event>,
    out: &mut T,
) -> Result<(), RunFault>
where
    P: Reopenable + Drop,
    W: Reopenable + Drop,
    B: Reopenable + Drop,
    requires opened { AreNew (shown ⟦<FileKeep<Orders, P> as Keep>⟧.seen ⟦<FileKeep<Stocks, W> as Keep>⟧.seen
        ⟦<FileKeep<Accounts, B> as Keep>⟧.seen keeps) }
    ensures { AreRun (RunsOver ⟦<FileKeep<Orders, P> as Keep>⟧.seen ⟦<FileKeep<Stocks, W> as Keep>⟧.seen
        ⟦<FileKeep<Accounts, B> as Keep>⟧.seen keeps) (λ _. ⊥) events.items (T.contents out.old) (T.contents out.new)
        result }
{
    // The world is dropped here, where the files have any types: the calls above are near the limits of their checks.
    let (_left, ran) = run_events(alloc, keeps, events, out);
    ran
}

/// The same where billing's is a file of the operating system.
fn run_over_billing<P, W, A: Start, T: Write>(
    alloc: Global,
    keeps: (
        FileKeep<Orders, P>,
        FileKeep<Stocks, W>,
        InFile<Accounts, A>,
    ),
    events: Vec<Event>,
    out: &mut T,
) -> Result<(), RunFault>
where
    P: Reopenable + Drop,
    W: Reopenable + Drop,
    requires opened { AreNew (shown ⟦<FileKeep<Orders, P> as Keep>⟧.seen ⟦<FileKeep<Stocks, W> as Keep>⟧.seen
        ⟦<FileKeep<Accounts, FileStore<FileFrom<A>>> as Keep>⟧.seen keeps) }
    ensures { AreRun (RunsOver ⟦<FileKeep<Orders, P> as Keep>⟧.seen ⟦<FileKeep<Stocks, W> as Keep>⟧.seen
        ⟦<FileKeep<Accounts, FileStore<FileFrom<A>>> as Keep>⟧.seen keeps) (λ _. ⊥) events.items (T.contents out.old)
        (T.contents out.new) result }
{
    run_over(alloc, keeps, events, out)
}

/// The same where warehouse's is too.
fn run_over_warehouse<P, S: Start, A: Start, T: Write>(
    alloc: Global,
    keeps: (FileKeep<Orders, P>, InFile<Stocks, S>, InFile<Accounts, A>),
    events: Vec<Event>,
    out: &mut T,
) -> Result<(), RunFault>
where
    P: Reopenable + Drop,
    requires opened { AreNew (shown ⟦<FileKeep<Orders, P> as Keep>⟧.seen
        ⟦<FileKeep<Stocks, FileStore<FileFrom<S>>> as Keep>⟧.seen
        ⟦<FileKeep<Accounts, FileStore<FileFrom<A>>> as Keep>⟧.seen keeps) }
    ensures { AreRun (RunsOver ⟦<FileKeep<Orders, P> as Keep>⟧.seen
        ⟦<FileKeep<Stocks, FileStore<FileFrom<S>>> as Keep>⟧.seen
        ⟦<FileKeep<Accounts, FileStore<FileFrom<A>>> as Keep>⟧.seen keeps) (λ _. ⊥) events.items (T.contents out.old)
        (T.contents out.new) result }
{
    run_over_billing(alloc, keeps, events, out)
}

/// The same where all three are.
fn run_over_opened<O: Start, S: Start, A: Start, T: Write>(
    alloc: Global,
    keeps: (InFile<Orders, O>, InFile<Stocks, S>, InFile<Accounts, A>),
    events: Vec<Event>,
    out: &mut T,
) -> Result<(), RunFault>
    requires opened { AreNew (shown ⟦<FileKeep<Orders, FileStore<FileFrom<O>>> as Keep>⟧.seen
        ⟦<FileKeep<Stocks, FileStore<FileFrom<S>>> as Keep>⟧.seen
        ⟦<FileKeep<Accounts, FileStore<FileFrom<A>>> as Keep>⟧.seen keeps) }
    ensures { AreRun (RunsOver ⟦<FileKeep<Orders, FileStore<FileFrom<O>>> as Keep>⟧.seen
        ⟦<FileKeep<Stocks, FileStore<FileFrom<S>>> as Keep>⟧.seen
        ⟦<FileKeep<Accounts, FileStore<FileFrom<A>>> as Keep>⟧.seen keeps) (λ _. ⊥) events.items (T.contents out.old)
        (T.contents out.new) result }
{
    run_over_warehouse(alloc, keeps, events, out)
}

/// Opens the files, purchasing's first.
fn open_files<O: Start, S: Start, A: Start>(
    stores: FileStores<O, S, A>,
) -> Result<(InFile<Orders, O>, InFile<Stocks, S>, InFile<Accounts, A>), StoresFault>
    ensures purchasing { IfOk result (λ keeps. IsOpenedWith (IsFoundIn orders (image_at O.Start))
        (⟦<FileKeep<Orders, FileStore<FileFrom<O>>> as Keep>⟧.seen keeps.0)) }
    ensures warehouse { IfOk result (λ keeps. IsOpenedWith (IsFoundIn stocks (image_at S.Start))
        (⟦<FileKeep<Stocks, FileStore<FileFrom<S>>> as Keep>⟧.seen keeps.1)) }
    ensures billing { IfOk result (λ keeps. IsOpenedWith (IsFoundIn accounts (image_at A.Start))
        (⟦<FileKeep<Accounts, FileStore<FileFrom<A>>> as Keep>⟧.seen keeps.2)) }
{
    // `stores` is consumed: the value that represents a file's contents is for one opening.
    let (rt, folder, (orders, stocks, accounts)) = stores.into_parts();
    let orders = match open_file(&rt, folder.as_str(), "purchasing.db", orders) {
        Ok(keep) => keep,
        Err(fault) => return Err(StoresFault::Purchasing(fault)),
    };
    // If this or the next fails, the files that are open are closed as they are dropped: nothing was run over them.
    let stocks = match open_file(&rt, folder.as_str(), "warehouse.db", stocks) {
        Ok(keep) => keep,
        Err(fault) => return Err(StoresFault::Warehouse(fault)),
    };
    let accounts = match open_file(&rt, folder.as_str(), "billing.db", accounts) {
        Ok(keep) => keep,
        Err(fault) => return Err(StoresFault::Billing(fault)),
    };
    Ok((orders, stocks, accounts))
}

/// Opens the files and runs the events of a schedule over what they hold.
///
/// # Errors
/// `Unopened` where a file can't be opened: nothing was run. `Device` where `out` failed: it took a beginning of what is
/// told of the events that were made, and none was made after it failed.
pub(crate) fn run_files<O: Start, S: Start, A: Start, T: Write>(
    alloc: Global,
    stores: FileStores<O, S, A>,
    events: Vec<Event>,
    out: &mut T,
) -> Result<(), RunFault>
    ensures { AreRun (HasRun ⟦<FileKeep<Orders, FileStore<FileFrom<O>>> as Keep>⟧.seen
        ⟦<FileKeep<Stocks, FileStore<FileFrom<S>>> as Keep>⟧.seen
        ⟦<FileKeep<Accounts, FileStore<FileFrom<A>>> as Keep>⟧.seen
        (AreFoundIn (image_at O.Start) (image_at S.Start) (image_at A.Start))) (λ _. ⊤) events.items
        (T.contents out.old) (T.contents out.new) result }
{
    match open_files(stores) {
        // All three are open first, so that a file that can't be opened leaves no half of a run.
        Ok(keeps) => run_over_opened(alloc, keeps, events, out),
        Err(fault) => Err(RunFault::Unopened(fault)),
    }
}
