//! The thread that keeps the service connected.

ghost use Rattle.std.specs.Prelude.{◌≡◌};
ghost use Rattle.shared_endpoint.specs.Keys.{IsHandOf, name_of, told_hand};
ghost use Rattle.service_program.specs.Lives.{AreItsTokens, HaveServed, IsNamed};

use crate::board::Board;
use crate::gate::BoardGate;
use crate::overdue::Overdue;
use crate::pulse::{Pulse, Silence};
use crate::sockets::{Broker, Reach, Site, open};
use activities::Handler;
use keep::Keep;
use log::{Log, info, warn};
use service_workers::{Held, Line, Naming, Past, Stop, Tokens, run_lines};
use shared_endpoint::{Hand, Shared};
use std::alloc::Global;
use std::marker::PhantomData;
use std::snapshot::Snapshot;
use std::sync::{Mutex, Wait};
use std::thread::{Promise, Threads};
use std::time::{Clock, Duration};
use std::{io, thread};

/// How long it is until the threads are started again after an allocation for them failed, in milliseconds.
const MOMENT: u64 = 100;

/// How long it's waited at most until the broker has answered DISCONNECT, in milliseconds.
const PARTING: u64 = 1_000;

/// What is known of one of the two connections beside its place.
#[derive(Drop)]
struct Watched {
    number: u8,
    // Whether the connection is given up, though it's there.
    is_over: bool,
    pulse: Pulse,
}

/// One of the two connections.
struct Slot<N, L, H, K>
where
    N: Naming<K, L>,
    L: Reach,
    H: Handler,
    K: Keep<State = H::State, Command = H::Command> + Drop,
{
    // Its place, where also is how the last one ended, until that's noted.
    line: Line<N, L, H, K>,
    watched: Watched,
}

impl<N, L, H, K> Slot<N, L, H, K>
where
    N: Naming<K, L>,
    L: Reach,
    H: Handler,
    K: Keep<State = H::State, Command = H::Command> + Drop,
{
    /// It's empty.
    fn new(number: u8, shared: &Shared<H, K>, hand: &mut Hand<H, K>) -> Slot<N, L, H, K>
        requires at { name_of shared.now ≡ N.lock }
        requires hand { IsHandOf shared.now hand.old }
        ensures hand { IsHandOf shared.now hand.new }
        ensures knows { told_hand hand.new ≡ told_hand hand.old }
    {
        let watched = Watched {
            number,
            is_over: false,
            pulse: Pulse::new(0),
        };
        Slot {
            line: Line::none(shared, hand),
            watched,
        }
    }

    /// Whether the connection is open.
    fn is_open(&self) -> bool {
        self.line.is_there() && !self.watched.is_over
    }

    /// Opens the connection where it isn't open, after how the last one ended is noted. Whether it is then.
    fn open<R: Wait + Clock + Log>(
        &mut self,
        rt: &R,
        site: Site<'_>,
        shared: &Shared<H, K>,
        hand: &Hand<H, K>,
        past: &mut Past<N, L, H, K>,
    ) -> bool
        requires named { IsNamed N.lock L.reached N.given shared.now }
        requires hand { IsHandOf shared.now hand.now }
    {
        if self.is_open() {
            return true;
        }
        // Noted before a new one is opened: a connection that isn't on the list is missing from what is said of the
        // life. Out of memory counts as not opened, and is retried after the pause.
        if past.note(shared, hand, &mut self.line).is_err() {
            return false;
        }
        let number = self.watched.number;
        match open(site, number, &mut self.line) {
            Ok(()) => {
                log_open(rt, number, site.broker);
                site.board.openings.note();
                // Read after `open`, which may wait 2 s for each address: the time for CONNECT to be answered begins
                // now.
                let now = site.board.now(rt);
                site.board.backoff.lock(rt).note_opened(now);
                self.watched.is_over = false;
                self.watched.pulse = Pulse::new(now);
                true
            }
            Err(error) => {
                log_unopened(rt, number, site.broker, &error);
                false
            }
        }
    }

    /// Notes how the connection ended, and is done with its place.
    fn end<R: Wait + Clock>(
        self,
        rt: &R,
        shared: &Shared<H, K>,
        hand: &Hand<H, K>,
        past: &mut Past<N, L, H, K>,
    )
        requires at { name_of shared.now ≡ N.lock }
        requires hand { IsHandOf shared.now hand.now }
    {
        let Slot {
            mut line,
            watched: _watched,
        } = self;
        // The note may need memory, which is waited out: what isn't noted can't be closed, and the law of lives needs
        // all.
        for _ in rt.forever() {
            if past.note(shared, hand, &mut line).is_ok() {
                line.close();
                return;
            }
            thread::sleep(rt, Duration::from_millis(MOMENT));
        }
        unreachable!()
    }

    /// When it's to be looked at next.
    fn next(&self) -> u64 {
        if self.is_open() {
            self.watched.pulse.last(self.line.is_connected())
        } else {
            // Never due by itself: what isn't open waits for the backoff (`plan`).
            u64::MAX
        }
    }

    /// Takes leave of a connection on which nothing comes; but not while letters aren't settled, which would be resent each
    /// time: `Overdue` says when they are.
    fn look<R: Wait + Clock + Log>(
        &mut self,
        rt: &R,
        alloc: Global,
        board: &Board,
        has_unsettled: bool,
    ) {
        let now = board.now(rt);
        if !self.is_open() {
            return;
        }
        // First what came, so that a broker that has just answered isn't taken for a silent one.
        if self.line.has_come() {
            self.watched.pulse.hear(now);
        }
        match self.watched.pulse.silence(self.line.is_connected(), now) {
            None => (),
            // Counted as heard, though nothing came: the next look is a minute away. Else it would be due again at
            // once.
            Some(Silence::Quiet) if has_unsettled => self.watched.pulse.hear(now),
            Some(silence) => {
                log_silence(rt, self.watched.number, silence);
                self.leave(rt, alloc, board);
            }
        }
    }

    /// Takes leave of the broker, and waits until it has answered, for some time at most: a socket that is closed while
    /// octets wait in it unread is reset, and the broker may lose what was written last.
    fn leave<R: Wait + Clock>(&mut self, rt: &R, alloc: Global, board: &Board) {
        // Set whatever becomes of DISCONNECT: the next `open` replaces the connection.
        self.watched.is_over = true;
        // None if the connection is gone or DISCONNECT can't be written: then no receipt comes.
        let Some(receipt) = self.line.leave() else {
            return;
        };
        let last = board.now(rt).saturating_add(PARTING);
        for _ in rt.forever() {
            if self.line.has_left(alloc, receipt) || board.now(rt) >= last {
                break;
            }
            // There may be more where something came.
            if !self.line.has_come() {
                let moment = Duration::from_millis(MOMENT);
                board.rests.reader(self.watched.number).wait(rt, moment);
            }
        }
    }
}

/// Logs that a connection is open, and where to: who meant another broker, or another of its hosts, sees it here.
fn log_open<R: Log>(rt: &R, number: u8, broker: Broker<'_>) {
    let Broker {
        address,
        port,
        host,
        ..
    } = broker;
    info!(rt; "connection {number} is open to {address}:{port}, host {host}")
}

/// Logs that a connection can't be opened, and why.
fn log_unopened<R: Log>(rt: &R, number: u8, broker: Broker<'_>, error: &io::Error) {
    let Broker { address, port, .. } = broker;
    warn!(rt; "connection {number} can't be opened to {address}:{port}: {error}")
}

/// Logs why a connection is reopened.
fn log_silence<R: Log>(rt: &R, number: u8, silence: Silence) {
    match silence {
        Silence::Unanswered => {
            warn!(rt; "connection {number}: CONNECT isn't answered: it's reopened")
        }
        Silence::Quiet => info!(rt; "connection {number}: nothing comes: it's reopened"),
        Silence::Old => info!(rt; "connection {number} is an hour old: it's reopened"),
    }
}

/// Logs that letters are resent, and the first of them: who looks for what is stuck begins there.
fn log_overdue<R: Wait + Clock + Log>(rt: &R, alloc: Global, board: &Board) {
    let now = board.now(rt);
    // A statement of its own: as the scrutinee of the match it would hold the lock while the line is logged.
    let first = board.waiting.lock(rt).show(alloc, now);
    match first {
        Ok(first) => {
            warn!(rt; "letters aren't settled for long: they are sent again, on new connections; the first is {first} seconds")
        }
        Err(_) => {
            warn!(rt; "letters aren't settled for long: they are sent again, on new connections")
        }
    }
}

/// The two connections of the service.
struct Conns<N, L, H, K>
where
    N: Naming<K, L>,
    L: Reach,
    H: Handler,
    K: Keep<State = H::State, Command = H::Command> + Drop,
{
    // Two fields and no array: each generic caller would owe that an array of connections fits in memory.
    zero: Slot<N, L, H, K>,
    one: Slot<N, L, H, K>,
}

impl<N, L, H, K> Conns<N, L, H, K>
where
    N: Naming<K, L>,
    L: Reach,
    H: Handler,
    K: Keep<State = H::State, Command = H::Command> + Drop,
{
    /// None is open.
    fn none(shared: &Shared<H, K>, hand: &mut Hand<H, K>) -> Conns<N, L, H, K>
        requires at { name_of shared.now ≡ N.lock }
        requires hand { IsHandOf shared.now hand.old }
        ensures hand { IsHandOf shared.now hand.new }
        ensures knows { told_hand hand.new ≡ told_hand hand.old }
    {
        let zero = Slot::new(0, shared, hand);
        let one = Slot::new(1, shared, hand);
        Conns { zero, one }
    }

    /// Opens those that aren't open.
    fn open<R: Wait + Clock + Log>(
        &mut self,
        rt: &R,
        site: Site<'_>,
        shared: &Shared<H, K>,
        hand: &Hand<H, K>,
        past: &mut Past<N, L, H, K>,
    )
        requires named { IsNamed N.lock L.reached N.given shared.now }
        requires hand { IsHandOf shared.now hand.now }
    {
        let asked = site.board.askings.asked();
        let zero = self.zero.open(rt, site, shared, hand, past);
        let one = self.one.open(rt, site, shared, hand, past);
        site.board
            .answer(asked, u64::from(zero).saturating_add(u64::from(one)));
    }

    /// Plans when they are opened or looked at next. Where all are open, there is nothing to do before this time but to look
    /// at them.
    fn plan<R: Wait + Clock>(&self, rt: &R, board: &Board, due: u64) {
        if self.zero.is_open() && self.one.is_open() {
            let next = due.min(self.zero.next()).min(self.one.next());
            board.backoff.lock(rt).set_due(next);
        } else {
            // One that is closed makes all due after the pause: the other is then looked at too.
            board.backoff.lock(rt).put_off(board.now(rt));
        }
    }

    /// Gives all up.
    fn give_up(&mut self) {
        self.zero.watched.is_over = true;
        self.one.watched.is_over = true;
    }

    /// Takes leave of those on which nothing comes.
    fn look<R: Wait + Clock + Log>(
        &mut self,
        rt: &R,
        alloc: Global,
        board: &Board,
        has_unsettled: bool,
    ) {
        self.zero.look(rt, alloc, board, has_unsettled);
        self.one.look(rt, alloc, board, has_unsettled);
    }

    /// Takes leave of all.
    fn leave<R: Wait + Clock>(&mut self, rt: &R, alloc: Global, board: &Board) {
        self.zero.leave(rt, alloc, board);
        self.one.leave(rt, alloc, board);
    }

    /// Notes how all ended.
    fn end<R: Wait + Clock>(
        self,
        rt: &R,
        shared: &Shared<H, K>,
        hand: &Hand<H, K>,
        past: &mut Past<N, L, H, K>,
    )
        requires at { name_of shared.now ≡ N.lock }
        requires hand { IsHandOf shared.now hand.now }
    {
        let Conns { zero, one } = self;
        zero.end(rt, shared, hand, past);
        one.end(rt, shared, hand, past);
    }
}

/// What the thread that keeps the service connected promises of the tokens that it returns: they are tokens of this service,
/// good while it's sound, and what was processed by them since they were `given` came on connections, or was held before.
pub struct Served<'a, N, L, H, K>
where
    N: Naming<K, L>,
    L: Reach,
    H: Handler,
    K: Keep<State = H::State, Command = H::Command> + Drop,
{
    pub shared: &'a Shared<H, K>,
    pub given: Snapshot<Tokens<H, K>>,
    pub of: PhantomData<(N, L)>,
}

impl<'a, N, L, H, K> Drop for Served<'a, N, L, H, K>
where
    N: Naming<K, L>,
    L: Reach,
    H: Handler,
    K: Keep<State = H::State, Command = H::Command> + Drop,
{
    fn drop(self) {
        let Served {
            shared: _,
            given: _given,
            of: _,
        } = self;
    }
}

impl<'a, N, L, H, K> Promise<Tokens<H, K>> for Served<'a, N, L, H, K>
where
    N: Naming<K, L>,
    L: Reach,
    H: Handler,
    K: Keep<State = H::State, Command = H::Command> + Drop,
{
    ghost kept_by = { λ p r. HaveServed L.put_gives L.take_gives K.seen H.service N.sound N.given p.shared.now p.given.value r };
}

/// Runs the service's threads for a turn, which ends where the board says so. The slots come back.
fn run_turn<N, L, H, K, R>(
    rt: &R,
    site: Site<'_>,
    shared: &Shared<H, K>,
    tokens: Tokens<H, K>,
    conns: Conns<N, L, H, K>,
) -> (Tokens<H, K>, Conns<N, L, H, K>)
where
    N: Naming<K, L> + Send + Sync,
    L: Reach,
    H: Handler + Send + Sync,
    H::State: Send,
    H::Command: Send,
    K: Keep<State = H::State, Command = H::Command> + Drop + Send,
    R: Threads + Wait + Clock + Log + Sync,
    requires at { name_of shared.now ≡ N.lock }
    requires tokens { AreItsTokens K.seen H.service N.sound shared.now tokens }
    ensures served { HaveServed L.put_gives L.take_gives K.seen H.service N.sound N.given shared.now tokens result.0 }
{
    let stop = Stop::new();
    let alloc = site.host.alloc();
    // These threads end and start again where a connection is to be opened, as `run_lines` takes connections at its
    // start: four threads, some 0.2 ms. What was read stays with the other connection.
    let turn = BoardGate::new(alloc, site.board, &stop);
    let Conns { zero, one } = conns;
    // The threads get the places and return them. What is known beside them stays, as only this thread uses it.
    let Slot {
        line: zero,
        watched: watched_zero,
    } = zero;
    let Slot {
        line: one,
        watched: watched_one,
    } = one;
    let held = Held { tokens, zero, one };
    let (held, served) = run_lines(rt, alloc, shared, held, &turn, &stop);
    // No thread ran, so nothing changed. Without the pause the loop would spin until there is memory.
    if served.is_err() {
        warn!(rt; "out of memory for the service's threads: they are started again in a moment");
        thread::sleep(rt, Duration::from_millis(MOMENT));
    }
    let Held { tokens, zero, one } = held;
    let zero = Slot {
        line: zero,
        watched: watched_zero,
    };
    let one = Slot {
        line: one,
        watched: watched_one,
    };
    (tokens, Conns { zero, one })
}

/// Keeps the service connected, until the program ends. No other thread uses the list of what its connections were: it's
/// under a lock so that this one can be given it.
pub fn keep_serving<N, L, H, K, R>(
    rt: &R,
    site: Site<'_>,
    shared: &Shared<H, K>,
    tokens: Tokens<H, K>,
    past: &Mutex<Past<N, L, H, K>>,
) -> Tokens<H, K>
where
    N: Naming<K, L> + Send + Sync,
    L: Reach,
    H: Handler + Send + Sync,
    H::State: Send,
    H::Command: Send,
    K: Keep<State = H::State, Command = H::Command> + Drop + Send,
    R: Threads + Wait + Clock + Log + Sync,
    requires named { IsNamed N.lock L.reached N.given shared.now }
    requires tokens { AreItsTokens K.seen H.service N.sound shared.now tokens }
    ensures served { HaveServed L.put_gives L.take_gives K.seen H.service N.sound N.given shared.now tokens result }
{
    // Not a `&mut`, which two closures would take: the borrow checker doesn't cover that. And a thread can only return
    // what is `Drop`, which this list isn't.
    let mut past = past.lock(rt);
    let alloc = site.host.alloc();
    let board = site.board;
    let mut tokens = tokens;
    let mut conns = Conns::none(shared, &mut tokens.hand);
    let mut overdue = Overdue::new();
    for _ in rt.forever() {
        // At once, if no thread could be made for this: it was called all the same, since it returns the tokens.
        if board.life.has_ended() {
            break;
        }
        // Letters first: whether one is unsettled decides what silence means, and what `give_up` marks is reopened
        // below.
        if overdue.look(rt, alloc, shared, &mut tokens.scout, board) {
            log_overdue(rt, alloc, board);
            conns.give_up();
        }
        conns.look(rt, alloc, board, overdue.has_unsettled());
        conns.open(rt, site, shared, &tokens.hand, &mut *past);
        // Planned before the turn, which a time that has passed would end at once.
        conns.plan(rt, board, overdue.next());
        let turned = run_turn(rt, site, shared, tokens, conns);
        tokens = turned.0;
        conns = turned.1;
    }
    conns.leave(rt, alloc, board);
    // Closed before the notes, which may wait for memory: nobody has to wait for an asking meanwhile.
    board.close();
    conns.end(rt, shared, &tokens.hand, &mut *past);
    tokens
}
