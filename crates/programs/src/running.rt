//! Events, made one by one in the world of three services over their stores, and told as they are.

ghost use Rattle.std.specs.Prelude.{IfOk, IfErr};
ghost use Rattle.schedule_io.specs.Ends.{AreRun};
ghost use Rattle.schedule_io.specs.Opened.{AreNew, AreLeftBy, shown};
ghost use Rattle.programs.specs.Runs.{IsBeginning, HasLeft};

use billing::Account;
use endpoint::Endpoint;
use keep::{Faulty, Keep};
use purchasing::Order;
use schedule_io::{RunFault, Stores, StoresFault, write_outcome};
use schedule_runner::World;
use schedule_text::Event;
use std::alloc::Global;
use std::io::Write;
use trade::{AccountCommand, OrderCommand, StockCommand};
use warehouse::Stock;

/// The world where a schedule begins, over three stores that were just opened: no connection, and a broker that accepted
/// nothing.
fn make_world<O, S, A>(alloc: Global, keeps: (O, S, A)) -> World<O, S, A>
where
    O: Keep<State = Option<Order>, Command = OrderCommand> + Drop,
    S: Keep<State = Stock, Command = StockCommand> + Drop,
    A: Keep<State = Account, Command = AccountCommand> + Drop,
    requires opened { AreNew (shown O.seen S.seen A.seen keeps) }
    ensures { IsBeginning O.seen S.seen A.seen (AreLeftBy (shown O.seen S.seen A.seen keeps)) result }
{
    let (orders, stocks, accounts) = keeps;
    // All three, since any `fail` line may name one. A store that isn't armed passes its calls on.
    let purchasing = Endpoint::new(Faulty::new(orders));
    let warehouse = Endpoint::new(Faulty::new(stocks));
    let billing = Endpoint::new(Faulty::new(accounts));
    World::open(alloc, purchasing, warehouse, billing)
}

/// The world where a schedule begins: stores that were just opened, no connection, and a broker that accepted nothing.
///
/// # Errors
/// Where a store can't be opened.
pub fn open_world<S: Stores>(
    alloc: Global,
    stores: S,
) -> Result<World<S::Orders, S::Stocks, S::Accounts>, StoresFault>
    ensures beginning { IfOk result (IsBeginning S.Orders.seen S.Stocks.seen S.Accounts.seen S.found) }
    ensures unopened { IfErr result S.fails }
{
    let keeps = stores.open(alloc)?;
    Ok(make_world(alloc, keeps))
}

/// Makes the events of a schedule, in order, over three stores that were just opened, and writes each outcome before the
/// next event is made. No outcome is kept. The world that is returned is what the last event that was made has left.
///
/// # Errors
/// `Device` where `out` failed: it took a beginning of what is told of the events that were made, and none was made after
/// it failed. No other fault is told.
pub fn run_events<O, S, A, W: Write>(
    alloc: Global,
    keeps: (O, S, A),
    events: Vec<Event>,
    out: &mut W,
) -> (World<O, S, A>, Result<(), RunFault>)
where
    O: Keep<State = Option<Order>, Command = OrderCommand> + Drop,
    S: Keep<State = Stock, Command = StockCommand> + Drop,
    A: Keep<State = Account, Command = AccountCommand> + Drop,
    requires opened { AreNew (shown O.seen S.seen A.seen keeps) }
    ensures { AreRun (HasLeft O.seen S.seen A.seen (AreLeftBy (shown O.seen S.seen A.seen keeps)) result.0) (λ _. ⊥)
        events.items (W.contents out.old) (W.contents out.new) result.1 }
{
    let mut world = make_world(alloc, keeps);
    for event in events.as_slice() {
        let outcome = world.step(event);
        // Written before the next event and not kept, so that no list of outcomes has to fit in memory.
        match write_outcome(out, &outcome) {
            Ok(()) => {}
            // No event after it: what that did would be in the tables and in no output.
            Err(_) => return (world, Err(RunFault::Device)),
        }
    }
    // What waits in a buffer isn't written yet, and may still fail.
    match out.flush() {
        Ok(()) => (world, Ok(())),
        Err(_) => (world, Err(RunFault::Device)),
    }
}
