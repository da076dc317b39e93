//! A service with all its threads, over any store.

ghost use Rattle.std.specs.Prelude.{◌≡◌, Some};
ghost use Rattle.std.specs.Thread.{IsSend, IsSync};
ghost use Rattle.shared_endpoint.specs.Keys.{AreSeatsOf, IsHandOf, IsNewHand, IsNewScout, IsScoutOf};
ghost use Rattle.service_workers.specs.Conns.{values_of};
ghost use Rattle.service_workers.specs.Lives.{LifeStands};
ghost use Rattle.service_program.specs.Lives.{AreItsTokens, HaveServed, IsNamed, IsWhole};

use crate::answers::{Desk, answer_first};
use crate::board::Board;
use crate::business::Business;
use crate::console::{Streams, standard_streams};
use crate::fault::RunFault;
use crate::serving::{Served, keep_serving};
use crate::sockets::{Broker, Reach, Site, Socket};
use activities::Handler;
use endpoint::Endpoint;
use keep::Keep;
use log::Log;
use service_workers::{Life, Naming, Past, Tokens, close_life};
use shared_endpoint::{Seat, Shared};
use std::io::{BufRead, Write};
use std::marker::{Brand, PhantomData};
use std::snapshot::Snapshot;
use std::sync::{Mutex, Wait};
use std::thread::Threads;
use std::time::Clock;
use std::{io, thread};

/// How the service ended, whose lines were answered so.
fn end_of(answered: io::Result<()>, board: &Board) -> Result<(), RunFault> {
    match answered {
        // Tested first, and once all threads are joined: a failed store ends the lines without an error, and it may
        // still fail while what was read is processed.
        _ if board.life.is_broken() => Err(RunFault::Store),
        Ok(()) => Ok(()),
        Err(error) => Err(RunFault::of_kind(error.kind())),
    }
}

/// What a life of the service is run with.
struct Tools<'a, I: BufRead + Drop, W: Write + Drop> {
    site: Site<'a>,
    desk: Desk<'a, I, W>,
}

/// Written by hand, so that an owner doesn't prove at each of its exits how each part is dropped.
impl<'a, I: BufRead + Drop, W: Write + Drop> Drop for Tools<'a, I, W> {
    fn drop(self) {
        let Tools {
            site: _,
            desk: _desk,
        } = self;
    }
}

impl<'a, I: BufRead + Drop, W: Write + Drop> Tools<'a, I, W> {
    /// What connections are opened with, and what lines are answered with.
    fn into_parts(self) -> (Site<'a>, Desk<'a, I, W>) {
        let Tools { site, desk } = self;
        (site, desk)
    }
}

/// What is left once all threads of the service have ended: how it ended, the seats and the tokens.
type Done<H, K> = (Result<(), RunFault>, [Seat<H, K>; 16], Tokens<H, K>);

/// Runs all threads of the service: one answers lines, and the others keep it connected until the lines end. Where none
/// can be made for these, no line is answered: the service ends at once, and its tokens are returned.
fn run_threads<N, L, H, B, K, I, W, R>(
    rt: &R,
    tools: Tools<'_, I, W>,
    shared: &Shared<H, K>,
    seats: [Seat<H, K>; 16],
    tokens: Tokens<H, K>,
    past: &Mutex<Past<N, L, H, K>>,
) -> Done<H, K>
where
    I: BufRead + Drop,
    W: Write + Drop,
    N: Naming<K, L> + Send + Sync,
    L: Reach,
    H: Handler + Send + Sync,
    H::State: Send,
    H::Command: Send,
    B: Business<H>,
    K: Keep<State = H::State, Command = H::Command> + Drop + Send,
    R: Threads + Wait + Clock + Log + Sync,
    requires named { IsNamed N.lock L.reached N.given shared.now }
    requires seats { AreSeatsOf shared.now seats }
    requires tokens { AreItsTokens K.seen H.service N.sound shared.now tokens }
    ensures seats { AreSeatsOf shared.now result.1 }
    ensures served { HaveServed L.put_gives L.take_gives K.seen H.service N.sound N.given shared.now tokens result.2 }
{
    let (site, desk) = tools.into_parts();
    thread::scope(
        thread::scope_env(),
        rt,
        move |scope| -> Done<H, K>
            requires named { IsNamed N.lock L.reached N.given shared.now }
            requires seats { AreSeatsOf shared.now seats }
            requires tokens { AreItsTokens K.seen H.service N.sound shared.now tokens }
            requires sent { IsSend H.row × IsSend H.State.row × IsSend H.Command.row × IsSend K.row × IsSend L.row }
            requires shared { IsSync R.row }
            ensures seats { AreSeatsOf shared.entry.now result.1 }
            ensures served { HaveServed L.put_gives L.take_gives K.seen H.service N.sound N.given shared.entry.now tokens result.2 }
        {
            let given = Snapshot::of(&tokens);
            let of = PhantomData::<(N, L)>;
            let promise = Served { shared, given, of };
            let begun = scope.spawn_with(
                promise,
                move || -> Tokens<H, K>
                    requires named { IsNamed N.lock L.reached N.given shared.now }
                    requires tokens { AreItsTokens K.seen H.service N.sound shared.now tokens }
                    ensures served { HaveServed L.put_gives L.take_gives K.seen H.service N.sound N.given shared.entry.now tokens result }
                { keep_serving(rt, site, shared, tokens, past) },
            );
            match begun {
                Ok(serving) => {
                    let (answered, seats) = answer_first::<H, B, K, I, W, R>(
                        rt, shared, seats, desk,
                    );
                    let tokens = serving.join(rt);
                    let ended = end_of(answered, site.board);
                    (ended, seats, tokens)
                }
                Err(refused) => {
                    site.board.end();
                    (Err(RunFault::Memory), seats, (refused.value)())
                }
            }
        },
    )
}

/// One life of a service: its threads run until the input ends or its store fails. If what was found matched its journal
/// (`N.sound`) and its file isn't in doubt, all that was put on the links of its connections stands by the journal in the end.
/// That journal begins with the one that was found; and what was processed since came in MESSAGEs on connections, or was held.
/// So it is over whatever links.
fn live<N, L, H, B, K, I, W, R>(
    rt: &R,
    tools: Tools<'_, I, W>,
    shared: Shared<H, K>,
    found: Snapshot<Endpoint<H, K>>,
    seats: [Seat<H, K>; 16],
    tokens: Tokens<H, K>,
) -> (Life<L, H, K>, Result<(), RunFault>)
where
    N: Naming<K, L> + Send + Sync,
    L: Reach,
    H: Handler + Send + Sync,
    H::State: Send,
    H::Command: Send,
    B: Business<H>,
    K: Keep<State = H::State, Command = H::Command> + Drop + Send,
    I: BufRead + Drop,
    W: Write + Drop,
    R: Threads + Wait + Clock + Log + Sync,
    requires named { IsNamed N.lock L.reached N.given shared }
    requires seats { AreSeatsOf shared seats }
    requires hand { IsHandOf shared tokens.hand × IsNewHand found.value tokens.hand }
    requires scout { IsScoutOf shared tokens.scout × IsNewScout found.value tokens.scout }
    requires sound { N.sound → IsWhole K.seen H.service found.value }
    requires found { N.found ≡ Some found.value }
    ensures stands { N.sound → (K.seen result.0.endpoint).doubt ≡ 0
        → LifeStands L.put_gives L.take_gives K.seen H.service N.given N.found result.0.endpoint
        (values_of result.0.conns.items) }
{
    let Tokens { mut hand, scout } = tokens;
    let past = Past::<N, L, H, K>::new(tools.site.host.alloc(), &shared, &mut hand);
    let tokens = Tokens { hand, scout };
    // A lock that no other thread takes: two closures would take a `&mut`, which the borrow checker doesn't cover,
    // and a thread can return only what is `Drop`.
    let past = Mutex::new(past);
    let (ended, seats, tokens) = run_threads::<N, L, H, B, K, I, W, R>(
        rt, tools, &shared, seats, tokens, &past,
    );
    let Tokens { hand, scout } = tokens;
    (
        close_life(rt, shared, seats, hand, scout, past.into_inner()),
        ended,
    )
}

/// Runs a service over its store, on the standard streams of the process.
///
/// # Errors
/// Those of [`run_service_on`].
pub fn run_service<H, B, K, R>(
    rt: &R,
    host: &HostRuntime,
    keep: K,
    broker: Broker<'_>,
) -> Result<(), RunFault>
where
    H: Handler + Send + Sync,
    H::State: Send,
    H::Command: Send,
    B: Business<H>,
    K: Keep<State = H::State, Command = H::Command> + Drop + Send,
    R: Threads + Wait + Clock + Log + Sync,
{
    match standard_streams(host) {
        Ok(streams) => { run_service_on::<H, B, K, _, _, R>(rt, host, keep, broker, streams) }
        Err(error) => Err(RunFault::of_kind(error.kind())),
    }
}

/// Runs a service over its store: its threads keep it connected and answer the lines of its input, until these end. The runtime
/// is given twice, since sockets need the system's own.
///
/// # Errors
/// `Store` where the store failed, `Device` where a stream or the system did, `Memory` where an allocation failed at the start.
pub fn run_service_on<H, B, K, I, W, R>(
    rt: &R,
    host: &HostRuntime,
    keep: K,
    broker: Broker<'_>,
    streams: Streams<I, W>,
) -> Result<(), RunFault>
where
    I: BufRead + Drop,
    W: Write + Drop,
    H: Handler + Send + Sync,
    H::State: Send,
    H::Command: Send,
    B: Business<H>,
    K: Keep<State = H::State, Command = H::Command> + Drop + Send,
    R: Threads + Wait + Clock + Log + Sync,
{
    let board = match Board::new(host, host.alloc()) {
        Ok(board) => board,
        Err(error) => return Err(RunFault::of_kind(error.kind())),
    };
    let desk = match Desk::new(host, host.alloc(), &board, streams) {
        Ok(desk) => desk,
        Err(error) => return Err(RunFault::of_kind(error.kind())),
    };
    let site = Site {
        host,
        broker,
        board: &board,
    };
    let tools = Tools { site, desk };
    let endpoint = Endpoint::new(keep);
    // Taken before `open` moves the endpoint under the lock: the clause of `live` begins with what was found.
    let found = Snapshot::of(&endpoint);
    match Shared::<H, K>::open(rt, host.alloc(), endpoint) {
        Ok(opened) => {
            let tokens = Tokens {
                hand: opened.2,
                scout: opened.3,
            };
            // `_life` owns the store: one in files copies its log when it is dropped here.
            let (_life, ended) = live::<Brand, Socket, H, B, K, I, W, R>(
                rt, tools, opened.0, found, opened.1, tokens,
            );
            ended
        }
        Err(_) => Err(RunFault::Memory),
    }
}
