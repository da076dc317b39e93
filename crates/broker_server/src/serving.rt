//! The loop that serves.

use crate::buffers::{Buffers, Reserve};
use crate::connection::take_accepted;
use crate::connections::{Chosen, Connections};
use crate::work::{FRAMES, Interval, Work};
use crate::{News, ServeFault, Stop, Watch};
use broker_core::Broker;
use mio::net::{TcpListener, TcpStream};
use mio::{Events, Interest, Poll, Token};
use std::alloc::Global;
use std::io;
use std::io::ErrorKind;
use std::net::{Net, SocketAddr};
use std::sync::Wait;
use std::time::{Clock, Duration, Instant};

/// The token of the listener. The others are keys of a slab, each below its capacity, and none is as high as this.
const LISTENER: Token = Token(usize::MAX);

/// The sockets that a turn handles.
const EVENTS: usize = 128;

/// The connections that a turn accepts.
const ACCEPTS: usize = 64;

/// The milliseconds after which the loop looks at the stop, at the time, and at what was refused.
const TICK: u64 = 100;

/// What a loop does besides serving.
#[derive(Clone, Copy, Debug)]
pub struct ServeOptions {
    /// For how long a connection may be silent: then it is closed. Else for ever.
    pub idle: Option<Duration>,
    /// After how long figures are told, again and again. Else never.
    pub figures: Option<Duration>,
    /// So many octets may be held by messages in queues, by what open transactions keep and by what is left to be
    /// written, together: from then on connections that send aren't read, unless their clients have shut their side, until
    /// less is held. Else as many as there is memory for.
    pub memory: Option<u64>,
}

impl ServeOptions {
    /// Nothing.
    pub fn new() -> ServeOptions {
        ServeOptions {
            idle: None,
            figures: None,
            memory: None,
        }
    }
}

/// What a loop works with.
#[derive(Drop)]
struct Server {
    poll: Poll,
    events: Events<Global>,
    /// How many of the events were handled.
    handled: usize,
    work: Work,
    reserve: Reserve,
    connections: Connections,
    options: ServeOptions,
    /// When it is looked for connections that are silent.
    look: Interval,
    /// When figures are told.
    figures: Interval,
    /// Connections may wait to be accepted.
    may_accept: bool,
    /// The system refused to take one in: it is tried again at each turn.
    was_refused: bool,
    /// Memory was refused to a deal: it is tried again at each turn.
    may_deal: bool,
    /// The last turn had octets to write, whose memory is free again where they were written.
    has_written: bool,
}

/// Serves the connections of a listener by a broker, until it is asked to stop: those that are open then are closed,
/// and their sessions are taken away.
///
/// A turn waits for sockets, reads of each that is ready, accepts what waits, and writes all answers together.
///
/// # Errors
/// - `Device` where the system refuses to wait for sockets, or to tell the time;
/// - `Memory` if an allocation fails before the first turn.
pub fn serve<R: Net + Wait + Clock, const FULL: usize>(
    rt: &R,
    alloc: Global,
    broker: &mut Broker<FULL>,
    listener: &mut TcpListener,
    stop: &Stop,
) -> Result<(), ServeFault> {
    serve_watched(rt, alloc, broker, listener, stop, ServeOptions::new(), &())
}

/// Serves as [`serve`] does, with options, and reports to a [`Watch`] what happens. Where serving ends, all connections do,
/// and none is reported.
///
/// # Errors
/// Those of [`serve`].
pub fn serve_watched<R: Net + Wait + Clock, W: Watch, const FULL: usize>(
    rt: &R,
    alloc: Global,
    broker: &mut Broker<FULL>,
    listener: &mut TcpListener,
    stop: &Stop,
    options: ServeOptions,
    watch: &W,
) -> Result<(), ServeFault> {
    let mut server = Server::open(rt, alloc, listener, options)?;
    for _ in rt.forever() {
        if stop.is_asked() {
            // The broker outlives this loop: what is out to these sessions has to be ready again.
            server.connections.drop_sessions(broker);
            return Ok(());
        }
        if server.turn(rt, broker, listener, watch).is_err() {
            server.connections.drop_sessions(broker);
            return Err(ServeFault::Device);
        }
    }
    // `forever` has no end: only the returns leave the loop.
    unreachable!()
}

impl Server {
    /// Nobody is connected yet.
    fn open<R: Net + Clock>(
        rt: &R,
        alloc: Global,
        listener: &mut TcpListener,
        options: ServeOptions,
    ) -> Result<Server, ServeFault> {
        let events = Events::with_capacity(alloc, EVENTS).map_err(|_| ServeFault::Memory)?;
        let buffers = Buffers::new(alloc).map_err(|_| ServeFault::Memory)?;
        let reserve = Reserve::new(alloc).map_err(|_| ServeFault::Memory)?;
        let poll = open_poll(rt, listener).map_err(|_| ServeFault::Device)?;
        let now = Instant::now(rt).map_err(|_| ServeFault::Device)?;
        let second = Duration::from_secs(1);
        Ok(Server {
            poll,
            events,
            handled: 0,
            work: Work::new(buffers, now, options.memory),
            reserve,
            connections: Connections::new(alloc),
            options,
            look: Interval::new(options.idle.map(|_| second), now),
            figures: Interval::new(options.figures, now),
            // Tried at once, without waiting for a report: some may be there already.
            may_accept: true,
            was_refused: false,
            may_deal: false,
            has_written: false,
        })
    }

    /// Whether something waits for memory.
    fn is_short(&self) -> bool {
        self.may_deal || self.connections.is_waiting()
    }

    /// How long to wait for sockets at most. What waits for memory is tried again at once where some may have come.
    fn wait(&self) -> Duration {
        let may_go_on = self.is_short() && self.has_written;
        if self.may_accept || self.connections.has_dropped || may_go_on {
            Duration::ZERO
        } else {
            Duration::from_millis(TICK)
        }
    }

    /// Waits for sockets, where all that were ready have had their turn, and shares the turn's frames among them.
    fn gather(&mut self) -> io::Result<()> {
        // Events that are left of the last turn come first: they aren't reported again.
        if self.handled >= self.events.iter().len() {
            let wait = self.wait();
            self.poll.poll(&mut self.events, Some(wait))?;
            self.handled = 0;
            self.connections.gather();
            self.work.share(self.events.iter().len());
        }
        Ok(())
    }

    /// Waits for sockets, and does what they are ready for.
    fn turn<R: Clock, W: Watch, const FULL: usize>(
        &mut self,
        rt: &R,
        broker: &mut Broker<FULL>,
        listener: &TcpListener,
        watch: &W,
    ) -> io::Result<()> {
        self.gather()?;
        // Once a turn, after the wait: all that happens in it happens at this time.
        self.work.now = Instant::now(rt)?;
        // Before anything is read: what waits came before it.
        self.go_on(broker, watch);
        self.handle(broker, watch);
        if self.may_accept || self.was_refused {
            self.accept(broker, listener, watch);
        }
        self.deal(broker);
        self.has_written = self
            .connections
            .write(self.poll.registry(), broker, &mut self.work, watch);
        // After the writing: octets that are written leave their memory to the reserve.
        self.take_again();
        self.connections.expire(self.work.now, watch);
        self.connections
            .ease(self.poll.registry(), broker, &mut self.work, watch);
        take_accepted(broker, &mut self.work);
        self.tell(broker, watch);
        Ok(())
    }

    /// Has connections do what their sockets are ready for, in order, until all have or these are frames enough for a
    /// turn: the next one continues after them.
    fn handle<W: Watch, const FULL: usize>(&mut self, broker: &mut Broker<FULL>, watch: &W) {
        let most = self.work.figures.frames.saturating_add(FRAMES as u64);
        for event in self.events.iter().skip(self.handled) {
            self.handled = self.handled.saturating_add(1);
            if event.token() == LISTENER {
                self.may_accept = true;
                continue;
            }
            self.connections
                .handle(self.poll.registry(), broker, event, &mut self.work, watch);
            if self.work.figures.frames >= most {
                return;
            }
        }
    }

    /// Ends what is silent, and tells the figures, where it is time for that.
    fn tell<W: Watch, const FULL: usize>(&mut self, broker: &mut Broker<FULL>, watch: &W) {
        let now = self.work.now;
        if let Some(most) = self.options.idle
            && self.look.is_due(now)
            && self
                .connections
                .end_idle(broker, &mut self.work, most, watch)
        {
            // As many were found as are looked for at once: the others have their turn next.
            self.look.hurry(now);
        }
        if self.figures.is_due(now) {
            self.work.figures.connections = self.connections.len() as u64;
            self.work.figures.held = self.connections.find_held(broker);
            self.work.figures.note_messages(broker);
            watch.tell(News::Figures(self.work.figures));
        }
    }

    /// Accepts the connections that wait, up to 64 of them.
    fn accept<W: Watch, const FULL: usize>(
        &mut self,
        broker: &mut Broker<FULL>,
        listener: &TcpListener,
        watch: &W,
    ) {
        let was_refused = self.was_refused;
        // More may wait than are taken now, and they aren't reported again.
        self.may_accept = true;
        self.was_refused = false;
        for _ in 0..ACCEPTS {
            match listener.accept() {
                Ok((stream, peer)) => self.take_in(broker, stream, peer, watch),
                Err(error) => match error.kind() {
                    // That one is gone, and others may wait after it.
                    ErrorKind::ConnectionAborted | ErrorKind::Interrupted => {}
                    kind => {
                        self.may_accept = false;
                        self.was_refused = kind != ErrorKind::WouldBlock;
                        // Reported once, and not at each turn for as long as it lasts.
                        if self.was_refused && !was_refused {
                            watch.tell(News::Unaccepted { error });
                        }
                        return;
                    }
                },
            }
        }
    }

    /// Takes a connection in. Where it can't be served it is closed, and others go on.
    fn take_in<W: Watch, const FULL: usize>(
        &mut self,
        broker: &mut Broker<FULL>,
        stream: TcpStream,
        peer: SocketAddr,
        watch: &W,
    ) {
        let registry = self.poll.registry();
        match self
            .connections
            .take_in(registry, broker, stream, self.work.now)
        {
            Ok(number) => {
                self.work.figures.note_opened();
                watch.tell(News::Opened { number, peer });
            }
            Err(error) => watch.tell(News::Unopened { peer, error }),
        }
    }

    /// Goes on with what waits for memory: first with that of connections that may give some back, to which the reserve
    /// goes where it's refused to them too; while not all of the reserve is there, with that of no other but those whose
    /// transactions keep something.
    fn go_on<W: Watch, const FULL: usize>(&mut self, broker: &mut Broker<FULL>, watch: &W) {
        if !self.connections.is_waiting() {
            return;
        }
        self.go_on_with(broker, watch, Chosen::Freeing);
        if self.connections.may_free(broker) {
            self.reserve.let_go();
            self.go_on_with(broker, watch, Chosen::Freeing);
        }
        let others = if self.reserve.is_whole() {
            Chosen::All
        } else {
            Chosen::Keeping
        };
        self.go_on_with(broker, watch, others);
    }

    fn go_on_with<W: Watch, const FULL: usize>(
        &mut self,
        broker: &mut Broker<FULL>,
        watch: &W,
        chosen: Chosen,
    ) {
        self.connections.go_on(self.poll.registry(), broker, &mut self.work, watch, chosen);
    }

    /// Takes again what was let go of the reserve, and, where nothing has to be kept, spare buffers that are gone.
    fn take_again(&mut self) {
        self.reserve.take_again();
        self.work.room.note_reserve(self.reserve.is_whole());
        if !self.is_short() {
            self.work.buffers.fill();
        }
    }

    /// Deals where a session was taken away, since messages may be ready again, and if an allocation failed: for that
    /// is the reserve.
    fn deal<const FULL: usize>(&mut self, broker: &mut Broker<FULL>) {
        if self.connections.has_dropped || self.is_short() {
            self.connections.has_dropped = false;
            // Dealing alone stops: if that ended connections, a queue of large bodies could never be emptied.
            self.may_deal = broker.dispatch().is_err();
            if self.may_deal {
                // Deals that are made in this memory bring answers, and answers give memory back.
                self.reserve.let_go();
                self.may_deal = broker.dispatch().is_err();
            }
        }
    }
}

/// Waits for connections to the listener from now on.
fn open_poll<R: Net>(rt: &R, listener: &mut TcpListener) -> io::Result<Poll> {
    let poll = Poll::new(rt)?;
    poll.registry()
        .register(listener, LISTENER, Interest::READABLE)?;
    Ok(poll)
}
