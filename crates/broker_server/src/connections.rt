//! The connections that a loop serves.

use crate::connection::{Connection, ConnectionStep, both_ways};
use crate::places::{ConnectionPlace, Places};
use crate::room::{Holding, Room};
use crate::work::Work;
use crate::{Ending, News, Watch};
use broker_core::{Broker, SessionId};
use mio::event::Event;
use mio::net::TcpStream;
use mio::{Registry, Token};
use slab::Slab;
use std::alloc::Global;
use std::collections::VecDeque;
use std::io;
use std::io::ErrorKind;
use std::time::{Duration, Instant};

/// The seconds that a connection has to tell the rest when its session is over.
const LEAVE_SECONDS: u64 = 5;

/// The connections that are found idle at once.
const IDLE: usize = 256;

/// Which of the connections that wait for memory are to go on.
#[derive(Clone, Copy)]
pub(crate) enum Chosen {
    /// Those that may give memory back.
    Freeing,
    /// Those whose open transactions keep something.
    Keeping,
    /// All.
    All,
}

impl Chosen {
    /// Whether this one is.
    fn has<const FULL: usize>(self, connection: &Connection, broker: &Broker<FULL>) -> bool {
        match self {
            Chosen::Freeing => connection.may_free(broker),
            Chosen::Keeping => connection.keeps(broker),
            Chosen::All => true,
        }
    }
}

/// A connection that leaves, and until when.
#[derive(Drop)]
struct Leave {
    place: ConnectionPlace,
    until: Instant,
}

/// The connections in a slab, whose key is the token of a connection's socket; where each stands, by the number of its
/// session; those that leave, the first to go first, and those of which something waits for memory.
///
/// A key is given again, so one that was kept may be that of another connection now. What leaves and what waits is kept
/// with the number of its session, and a connection of another number isn't it. An event has room for the key alone,
/// and events that were gathered at once are handled over several turns, between which connections are accepted. But
/// numbers rise: a connection whose number is above all that there were when the events were gathered was opened since,
/// and none of them is its own. One whose number isn't had its key then, and the system tells nothing of a socket that
/// was closed before.
#[derive(Drop)]
pub(crate) struct Connections {
    alloc: Global,
    open: Slab<Connection>,
    places: Places,
    leaving: VecDeque<Leave>,
    waiting: VecDeque<ConnectionPlace>,
    /// What all of them hold, where there is a limit.
    holding: Holding,
    /// The highest number that was accepted.
    last: u64,
    /// What that was when the events were gathered.
    gathered: u64,
    /// A session was taken away since the last deal, so messages may go to others.
    pub(crate) has_dropped: bool,
}

impl Connections {
    /// No connection. It allocates nothing.
    pub(crate) fn new(alloc: Global) -> Connections {
        Connections {
            alloc,
            open: Slab::new(alloc),
            places: Places::new(alloc),
            leaving: VecDeque::new(alloc),
            waiting: VecDeque::new(alloc),
            holding: Holding::new(),
            last: 0,
            gathered: 0,
            has_dropped: false,
        }
    }

    /// How many there are.
    pub(crate) fn len(&self) -> usize {
        self.open.len()
    }

    /// Accepts a connection and opens its session: the answer is its number. Where that fails the connection is closed,
    /// and nothing else has changed. There is room then to note that it waits for memory.
    pub(crate) fn take_in<const FULL: usize>(
        &mut self,
        registry: &Registry,
        broker: &mut Broker<FULL>,
        mut stream: TcpStream,
        now: Instant,
    ) -> io::Result<u64> {
        stream.set_nodelay(true)?;
        // Room in each list first: after these lines nothing has to be undone but the session.
        self.open.reserve(1)?;
        self.places.reserve()?;
        self.waiting.reserve(self.open.len().saturating_add(1))?;
        let Ok(session) = broker.open() else {
            return Err(io::Error::from(ErrorKind::OutOfMemory));
        };
        // The socket is registered under the key that its connection will have in the slab.
        let place = ConnectionPlace {
            key: self.open.vacant_key(),
            number: session.number(),
        };
        if let Err(fault) = registry.register(&mut stream, Token(place.key), both_ways()) {
            broker.drop_session(session);
            return Err(fault);
        }
        if !self.insert(place, Connection::new(stream, session, place, now)) {
            broker.drop_session(session);
            return Err(io::Error::from(ErrorKind::OutOfMemory));
        }
        Ok(place.number)
    }

    /// Has a new connection stand at its place, the next of the slab; `false` where there is no room.
    fn insert(&mut self, place: ConnectionPlace, connection: Connection) -> bool {
        if !self.places.push(place) {
            return false;
        }
        if self.open.insert(connection).is_err() {
            self.places.remove(place.number);
            return false;
        }
        self.last = place.number;
        true
    }

    /// Events are gathered now: they are of the connections that there are.
    pub(crate) fn gather(&mut self) {
        self.gathered = self.last;
    }

    /// Has a connection do what its socket is ready for, unless the one of which the event tells is gone.
    pub(crate) fn handle<W: Watch, const FULL: usize>(
        &mut self,
        registry: &Registry,
        broker: &mut Broker<FULL>,
        event: &Event,
        work: &mut Work,
        watch: &W,
    ) {
        let Token(key) = event.token();
        if let Some(connection) = self.open.get_mut(key) {
            let place = connection.place();
            // A connection that came since the events were gathered may have the key of one that is gone.
            if place.number <= self.gathered {
                let step = connection.handle(self.alloc, registry, broker, event, work);
                self.follow(broker, place, step, work, watch);
            }
        }
    }

    /// Counts anew what a connection holds, where there is a limit.
    fn count<const FULL: usize>(
        &mut self,
        broker: &Broker<FULL>,
        place: ConnectionPlace,
        work: &mut Work,
    ) {
        if !work.room.is_limited() {
            return;
        }
        if let Some(connection) = self.open.get_mut(place.key) {
            let before = connection.holding;
            connection.holding = connection.find_holding(broker);
            self.holding = self.holding.without(before).with(connection.holding);
        }
        work.room.note(self.held(broker));
    }

    /// How much is held by all of them, and in queues, where there is a limit.
    fn held<const FULL: usize>(&self, broker: &Broker<FULL>) -> u64 {
        broker.octets().saturating_add(self.holding.all())
    }

    /// How much that is, also where there is none.
    pub(crate) fn find_held<const FULL: usize>(&self, broker: &Broker<FULL>) -> u64 {
        let mut held = broker.octets();
        for (_, connection) in self.open.iter() {
            held = held.saturating_add(connection.find_holding(broker).all());
        }
        held
    }

    /// Behind a turn: tells whether the limit is met or not any more, and has those that were held back be read again
    /// where it isn't.
    pub(crate) fn ease<W: Watch, const FULL: usize>(
        &mut self,
        registry: &Registry,
        broker: &mut Broker<FULL>,
        work: &mut Work,
        watch: &W,
    ) {
        if !work.room.is_limited() && !work.room.holds_back {
            return;
        }
        let held = self.held(broker);
        work.room.note(held);
        if let Some(news) = work.room.news(held) {
            watch.tell(news);
        }
        if work.room.is_full() {
            if let Some(place) = self.choose_spared(&mut work.room) {
                self.release(registry, broker, place, work, watch);
            }
        } else if work.room.holds_back && !work.room.is_short() {
            self.release_all(registry, broker, work, watch);
        }
    }

    /// Chooses the connection that is read though the limit is met, where nothing that is taken out of queues could
    /// give enough memory back: the first that is held back with an open transaction, until none of its own keeps
    /// anything. It is one at a time, so that its transactions alone come on top. The answer is its place, where it was
    /// chosen now.
    fn choose_spared(&self, room: &mut Room) -> Option<ConnectionPlace> {
        if let Some(number) = room.spared()
            && self.keeps(number)
        {
            return None;
        }
        room.spare(None);
        if room.is_stuck(self.holding.kept) {
            for (_, connection) in self.open.iter() {
                if connection.is_held_back() && connection.holding.kept > 0 {
                    let place = connection.place();
                    room.spare(Some(place.number));
                    return Some(place);
                }
            }
        }
        None
    }

    /// Whether open transactions of this session keep something.
    fn keeps(&self, number: u64) -> bool {
        if let Some(place) = self.places.find(number)
            && let Some(connection) = self.open.get(place.key)
        {
            connection.holding.kept > 0
        } else {
            false
        }
    }

    /// Has all that were held back be read again.
    fn release_all<W: Watch, const FULL: usize>(
        &mut self,
        registry: &Registry,
        broker: &mut Broker<FULL>,
        work: &mut Work,
        watch: &W,
    ) {
        work.room.spare(None);
        work.room.holds_back = false;
        // From the end on: where one goes, those that are after it had their turn.
        for index in (0..self.places.len()).rev() {
            if let Some(place) = self.places.get(index) {
                self.release(registry, broker, place, work, watch);
            }
        }
    }

    /// Has one that was held back be read again.
    fn release<W: Watch, const FULL: usize>(
        &mut self,
        registry: &Registry,
        broker: &mut Broker<FULL>,
        place: ConnectionPlace,
        work: &mut Work,
        watch: &W,
    ) {
        if let Some(connection) = self.open.get_mut(place.key)
            && connection.is_held_back()
        {
            let step = connection.release(registry, broker, work);
            self.follow(broker, place, step, work, watch);
        }
    }

    /// Whether something waits for memory.
    pub(crate) fn is_waiting(&self) -> bool {
        !self.waiting.is_empty()
    }

    /// Whether something waits of a connection that may give memory back.
    pub(crate) fn may_free<const FULL: usize>(&self, broker: &Broker<FULL>) -> bool {
        for place in self.waiting.iter() {
            if let Some(connection) = self.open.get(place.key)
                && connection.is_at(*place)
                && connection.may_free(broker)
            {
                return true;
            }
        }
        false
    }

    /// Goes on with what waits for memory, once each, of those that are chosen.
    pub(crate) fn go_on<W: Watch, const FULL: usize>(
        &mut self,
        registry: &Registry,
        broker: &mut Broker<FULL>,
        work: &mut Work,
        watch: &W,
        chosen: Chosen,
    ) {
        // Each once: what still waits goes to the end of the list, after those that were there.
        for _ in 0..self.waiting.len() {
            let Some(place) = self.waiting.pop_front() else {
                return;
            };
            if let Some(connection) = self.open.get_mut(place.key)
                && connection.is_at(place)
            {
                let step = if chosen.has(connection, broker) {
                    connection.go_on(self.alloc, registry, broker, work)
                } else {
                    ConnectionStep::Waits
                };
                match step {
                    // That was told when it began to wait.
                    ConnectionStep::Waits => self.wait(broker, place, watch),
                    step => self.follow(broker, place, step, work, watch),
                }
            }
        }
    }

    /// Writes to each connection for which octets have come, together: the answer is whether there was one.
    pub(crate) fn write<W: Watch, const FULL: usize>(
        &mut self,
        registry: &Registry,
        broker: &mut Broker<FULL>,
        work: &mut Work,
        watch: &W,
    ) -> bool {
        let mut some = false;
        // Never so many: a loop needs a bound, and this one ends by its return.
        for _ in 0..u64::MAX {
            let Some(session) = broker.take_fresh() else {
                return some;
            };
            some = true;
            if let Some(place) = self.places.find(session.number())
                && let Some(connection) = self.open.get_mut(place.key)
            {
                let step = connection.write(registry, broker, work);
                self.follow(broker, place, step, work, watch);
            }
        }
        some
    }

    /// Takes all sessions away: the connections are closed where this is let go.
    pub(crate) fn drop_sessions<const FULL: usize>(&self, broker: &mut Broker<FULL>) {
        for (_, connection) in self.open.iter() {
            broker.drop_session(SessionId::new(connection.place().number));
        }
    }

    /// Ends those of which nothing came for so long, up to 256 of them: the answer is whether there may be more. It
    /// allocates nothing.
    pub(crate) fn end_idle<W: Watch, const FULL: usize>(
        &mut self,
        broker: &mut Broker<FULL>,
        work: &mut Work,
        most: Duration,
        watch: &W,
    ) -> bool {
        // Found first and ended then: to end one changes the slab that is looked through.
        let (found, count) = self.find_idle(work.now, most);
        for key in found.iter().take(count) {
            if let Some(connection) = self.open.get_mut(*key) {
                let place = connection.place();
                let step = connection.end(broker, Ending::Idle);
                self.follow(broker, place, step, work, watch);
            }
        }
        count == IDLE
    }

    /// The keys of some of which nothing came for so long, and how many.
    fn find_idle(&self, now: Instant, most: Duration) -> ([usize; IDLE], usize) {
        // An array, since a list would allocate, and idle connections have to be closed also where there is no memory.
        let mut found = [0; IDLE];
        let mut count: usize = 0;
        for (key, connection) in self.open.iter() {
            if count < IDLE && connection.is_idle(now, most) {
                found[count] = key;
                count += 1;
            }
        }
        (found, count)
    }

    /// Takes away those whose time is over.
    pub(crate) fn expire<W: Watch>(&mut self, now: Instant, watch: &W) {
        for _ in 0..u64::MAX {
            match self.leaving.front() {
                Some(leave) if leave.until <= now => {}
                _ => return,
            }
            if let Some(leave) = self.leaving.pop_front() {
                self.close(leave.place, watch);
            }
        }
    }

    /// Closes a connection whose session was taken away before, where it isn't closed yet.
    fn close<W: Watch>(&mut self, place: ConnectionPlace, watch: &W) {
        let number = place.number;
        // The key may be that of another connection by now.
        if let Some(connection) = self.open.get(place.key)
            && connection.is_at(place)
        {
            self.holding = self.holding.without(connection.holding);
            let _ = self.open.try_remove(place.key);
            self.places.remove(number);
            watch.tell(News::Closed { number });
        }
    }

    /// Notes that something of a connection waits for memory.
    fn wait<W: Watch, const FULL: usize>(
        &mut self,
        broker: &mut Broker<FULL>,
        place: ConnectionPlace,
        watch: &W,
    ) {
        // Its room was made when it was accepted. Without a note it would never be read again, so it can't stay.
        if self.waiting.push_back(place).is_err() {
            broker.drop_session(SessionId::new(place.number));
            self.end(place.number, Ending::Memory, watch);
            self.close(place, watch);
        }
    }

    /// A session was taken away.
    fn end<W: Watch>(&mut self, number: u64, why: Ending, watch: &W) {
        self.has_dropped = true;
        watch.tell(News::Ended { number, why });
    }

    /// Does what a step asks for.
    fn follow<W: Watch, const FULL: usize>(
        &mut self,
        broker: &mut Broker<FULL>,
        place: ConnectionPlace,
        step: ConnectionStep,
        work: &mut Work,
        watch: &W,
    ) {
        // Counted before the step is done: it may close the connection.
        self.count(broker, place, work);
        let number = place.number;
        match step {
            ConnectionStep::Stays => {}
            ConnectionStep::Waits => {
                watch.tell(News::Waits { number });
                self.wait(broker, place, watch);
            }
            ConnectionStep::Leaves(why) => {
                self.end(number, why, watch);
                if !self.gives_time(place, work.now) {
                    self.close(place, watch);
                }
            }
            ConnectionStep::Ends(why) => {
                self.end(number, why, watch);
                self.close(place, watch);
            }
            ConnectionStep::Closes => self.close(place, watch),
        }
    }

    /// Gives a connection time to leave, if there is memory to note it.
    fn gives_time(&mut self, place: ConnectionPlace, now: Instant) -> bool {
        let Some(until) = now.checked_add(Duration::from_secs(LEAVE_SECONDS)) else {
            return false;
        };
        self.leaving.push_back(Leave { place, until }).is_ok()
    }
}
