//! A connection: its socket, and how far it has come.

ghost use Rattle.std.specs.Prelude.{◌≡◌, ◌≤◌, false};
ghost use Rattle.broker_core.specs.Calls.{closed_in};
ghost use Rattle.broker_core.specs.Serving.{session_of};

use crate::buffers::Buffers;
use crate::places::ConnectionPlace;
use crate::refusals::refusal_in;
use crate::rest::Rest;
use crate::room::{Holding, is_held_back};
use crate::turn::{Brought, ReadTurn, Written, discard, feed_in, read_in, write_out};
use crate::work::{FIRST, Work, next_share};
use crate::{Ending, ReadFault, TurnFault};
use base::limits::{MAX_BODY, MAX_LINE, MAX_UNANSWERED};
use broker_core::{Broker, SessionId};
use mio::event::Event;
use mio::net::TcpStream;
use mio::{Interest, Registry, Token};
use std::alloc::Global;
use std::mem::replace;
use std::net::Shutdown;
use std::time::{Duration, Instant};

/// The octets of a frame besides its body: a command's line, those of 33 headers and an empty one, each with its end,
/// and a NUL.
const MAX_HEAD: usize = 35 * (MAX_LINE + 2) + 1;

/// The octets for a session that may be left after a write: 8 MiB besides as many of the longest messages as a
/// subscription has out.
// With 8 MiB in all, a client that takes bodies of 1 MiB would be dropped at the first write.
const MAX_UNREAD: usize = 8_388_608 + MAX_UNANSWERED * (MAX_HEAD + MAX_BODY);

/// The octets that are thrown away after the end of a session.
const MAX_THROWN: usize = 67_108_864;

/// How far a connection has come.
#[derive(Drop)]
enum Stage {
    /// Its session is open.
    Serving,
    /// Its session is over, and this is left to be written.
    Leaving(Rest),
    /// All is written, and this side is shut: what comes in is thrown away until the peer shuts its side.
    Draining,
}

/// What waits since an allocation for it failed. Nothing is read meanwhile, so that the system's buffers hold the
/// client back.
#[derive(Drop)]
enum Due {
    /// Nothing.
    Nothing,
    /// Frames that the session was fed, or deals after them.
    Frames,
    /// Octets that the session didn't take: the first so many of a buffer.
    Octets(Vec<u8>, usize),
}

/// What came of a step.
#[derive(Clone, Copy)]
pub(crate) enum ConnectionStep {
    /// The connection stays as far as it was.
    Stays,
    /// The connection stays as far as it was, and something of it waits for memory.
    Waits,
    /// Its session was taken away. The connection has some time left to tell the rest.
    Leaves(Ending),
    /// Its session was taken away, and the connection is over.
    Ends(Ending),
    /// The connection is over. Its session was taken away before.
    Closes,
}

/// A connection of a broker's client.
#[derive(Drop)]
pub(crate) struct Connection {
    stream: TcpStream,
    session: SessionId,
    place: ConnectionPlace,
    stage: Stage,
    due: Due,
    /// The socket takes no more, and tells when it does.
    is_blocked: bool,
    /// The peer sends no more.
    has_ended: bool,
    /// The octets that were thrown away.
    thrown: usize,
    /// The octets that it may read at a turn.
    share: usize,
    /// When something came last.
    heard: Instant,
    /// It has sent a message, or an answer that its transaction keeps.
    sends: bool,
    /// It isn't read since that limit was met, though something may have come.
    is_held_back: bool,
    /// What it held when that was counted last.
    pub(crate) holding: Holding,
}

/// What a connection asks of its socket, all the time.
pub(crate) fn both_ways() -> Interest {
    // Both, all the time: what a socket is asked for never has to change.
    Interest::READABLE | Interest::WRITABLE
}

impl Connection {
    /// A connection whose session is open.
    pub(crate) fn new(
        stream: TcpStream,
        session: SessionId,
        place: ConnectionPlace,
        now: Instant,
    ) -> Connection {
        Connection {
            stream,
            session,
            place,
            stage: Stage::Serving,
            due: Due::Nothing,
            is_blocked: false,
            has_ended: false,
            thrown: 0,
            share: FIRST,
            heard: now,
            sends: false,
            is_held_back: false,
            holding: Holding::new(),
        }
    }

    /// Where it stands.
    pub(crate) fn place(&self) -> ConnectionPlace {
        self.place
    }

    /// Whether it is the one that was at a place.
    pub(crate) fn is_at(&self, place: ConnectionPlace) -> bool {
        self.place.number == place.number
    }

    /// Reads where there is something to read and nothing waits, and writes where the socket takes more again. Where
    /// something waits it only looks whether the socket has failed.
    pub(crate) fn handle<const FULL: usize>(
        &mut self,
        alloc: Global,
        registry: &Registry,
        broker: &mut Broker<FULL>,
        event: &Event,
        work: &mut Work,
    ) -> ConnectionStep {
        let was_blocked = self.is_blocked;
        if event.is_writable() {
            self.is_blocked = false;
        }
        // Only a read finds the end of a socket, or why it failed.
        let has_more = event.is_readable() || event.is_read_closed() || event.is_error();
        let step = match self.stage {
            _ if !has_more => ConnectionStep::Stays,
            // What waits came before: nothing is read until it's handled.
            _ if self.is_waiting() => self.end_if_failed(broker, event, work),
            Stage::Serving => self.read_if_room(alloc, registry, broker, event, work),
            Stage::Leaving(_) | Stage::Draining => self.throw_away(registry, work),
        };
        let stays = matches!(step, ConnectionStep::Stays | ConnectionStep::Waits);
        // Where it wasn't blocked its octets are written at the end of the turn, together with the others'.
        if stays && was_blocked && !self.is_blocked {
            return match self.write(registry, broker, work) {
                ConnectionStep::Stays => step,
                ends => ends,
            };
        }
        step
    }

    /// Ends it, though something waits, where its socket has failed: what it has sent would get no answer.
    fn end_if_failed<const FULL: usize>(
        &mut self,
        broker: &mut Broker<FULL>,
        event: &Event,
        work: &mut Work,
    ) -> ConnectionStep {
        if !event.is_error() {
            return ConnectionStep::Stays;
        }
        give_back(replace(&mut self.due, Due::Nothing), &mut work.buffers);
        self.end(broker, Ending::Stream)
    }

    /// Reads for its session, unless it is held back, and notes whether it sends. Who has shut its side isn't held back
    /// by the limit: only a read finds its end, and no more comes than its socket holds. If an allocation fails, it waits
    /// as if some had been refused to it.
    fn read_if_room<const FULL: usize>(
        &mut self,
        alloc: Global,
        registry: &Registry,
        broker: &mut Broker<FULL>,
        event: &Event,
        work: &mut Work,
    ) -> ConnectionStep {
        let is_to_wait = self.is_to_wait(broker, work);
        // What it has sent after a failure would get no answer.
        if is_to_wait && event.is_error() {
            return self.end(broker, Ending::Stream);
        }
        // A client that has shut its side and isn't read would keep its descriptor: producers that reconnect would take
        // them all.
        self.is_held_back = is_to_wait && !event.is_read_closed();
        if self.is_held_back {
            work.room.holds_back = true;
            return ConnectionStep::Stays;
        }
        if is_to_wait && self.is_short(broker, work) {
            return self.wait(alloc, registry, broker, work, Due::Frames);
        }
        // Whoever sends once counts as sending from then on: nothing has to be compared.
        if self.sends {
            return self.read(alloc, registry, broker, event, work);
        }
        // Taken away first: what is there after the read was accepted of this connection.
        take_accepted(broker, work);
        let kept = broker.kept(self.session);
        let step = self.read(alloc, registry, broker, event, work);
        self.note_sends(broker, work, kept);
        step
    }

    /// Notes that it sends where something was accepted just now, or its transactions keep more than they did.
    fn note_sends<const FULL: usize>(
        &mut self,
        broker: &mut Broker<FULL>,
        work: &mut Work,
        kept: u64,
    ) {
        let has_sent = take_accepted(broker, work) || broker.kept(self.session) > kept;
        // A client that sent once mostly sends again.
        self.sends = self.sends || has_sent;
    }

    /// Whether there is no memory, and what its open transactions keep gives none back.
    fn is_short<const FULL: usize>(&self, broker: &Broker<FULL>, work: &Work) -> bool {
        // Senders that are read would take each octet that comes free, and a consumer's ACK would wait for good.
        work.room.is_short() && !self.keeps(broker)
    }

    /// Whether it isn't to be read now, since so much is held, or there is no memory and what it sends gives none back.
    fn is_to_wait<const FULL: usize>(&self, broker: &Broker<FULL>, work: &Work) -> bool {
        let is_full = work.room.is_full_for(self.place.number) || self.is_short(broker, work);
        // Asked last, as it goes through the session's subscriptions.
        let has_unanswered = is_full && broker.has_unanswered(self.session);
        is_held_back(is_full, self.sends, has_unanswered)
    }

    /// Whether what it sends may give memory back: answers to deliveries do, and one that has sent no message may come
    /// to take some.
    pub(crate) fn may_free<const FULL: usize>(&self, broker: &Broker<FULL>) -> bool {
        !is_held_back(true, self.sends, broker.has_unanswered(self.session))
    }

    /// Whether its open transactions keep something, which nobody else can give back.
    pub(crate) fn keeps<const FULL: usize>(&self, broker: &Broker<FULL>) -> bool {
        broker.kept(self.session) > 0
    }

    /// Whether it isn't read since so much is held.
    pub(crate) fn is_held_back(&self) -> bool {
        self.is_held_back
    }

    /// Has it be read again where it was held back and isn't to wait any more: the socket doesn't tell twice of what
    /// came meanwhile.
    pub(crate) fn release<const FULL: usize>(
        &mut self,
        registry: &Registry,
        broker: &mut Broker<FULL>,
        work: &mut Work,
    ) -> ConnectionStep {
        if !self.is_held_back || self.is_to_wait(broker, work) {
            return ConnectionStep::Stays;
        }
        self.is_held_back = false;
        // It wasn't silent, only not read.
        self.heard = work.now;
        if !self.ask_again(registry) {
            return self.end(broker, Ending::Stream);
        }
        ConnectionStep::Stays
    }

    /// What it holds for its client, besides messages in queues.
    pub(crate) fn find_holding<const FULL: usize>(&self, broker: &Broker<FULL>) -> Holding {
        match &self.stage {
            Stage::Serving => Holding {
                kept: broker.kept(self.session),
                unread: broker.out(self.session).len() as u64,
            },
            Stage::Leaving(rest) => Holding {
                kept: 0,
                unread: rest.len() as u64,
            },
            Stage::Draining => Holding::new(),
        }
    }

    /// Reads for its session, and takes it away where it is over.
    fn read<const FULL: usize>(
        &mut self,
        alloc: Global,
        registry: &Registry,
        broker: &mut Broker<FULL>,
        event: &Event,
        work: &mut Work,
    ) -> ConnectionStep {
        let buffer = work.buffers.current();
        let room = least_of(self.share, buffer.len());
        if broker.is_closed(self.session) || room == 0 {
            return self.leave_closed(alloc, registry, broker, work);
        }
        match read_in(&mut self.stream, broker, self.session, &mut buffer[..room]) {
            // Nothing would tell again that the socket has failed.
            Err(_) if event.is_error() => self.end(broker, Ending::Stream),
            Err(fault) => self.keep_unread(alloc, registry, broker, work, fault),
            Ok((ReadTurn::Ended, _)) => {
                self.has_ended = true;
                self.leave(alloc, registry, broker, work, Ending::Shut)
            }
            Ok((turn, brought)) => {
                self.note(brought, work);
                // The end of the octets has no event of its own where it came with the last of them.
                let is_told = turn == ReadTurn::Blocked && !event.is_read_closed();
                if !is_told && !self.ask_again(registry) {
                    return self.end(broker, Ending::Stream);
                }
                if broker.is_closed(self.session) {
                    return self.leave_closed(alloc, registry, broker, work);
                }
                ConnectionStep::Stays
            }
        }
    }

    /// Notes what it brought, and how much it may read next.
    fn note(&mut self, brought: Brought, work: &mut Work) {
        // A read in vain says nothing of how much comes at once.
        if brought.octets > 0 {
            self.heard = work.now;
            self.share = next_share(self.share, brought, work.frames);
        }
        work.figures.note_read(brought.octets);
        work.figures.note_frames(brought.frames);
    }

    /// A read came to no end. Has what was read wait where it can.
    fn keep_unread<const FULL: usize>(
        &mut self,
        alloc: Global,
        registry: &Registry,
        broker: &mut Broker<FULL>,
        work: &mut Work,
        fault: ReadFault,
    ) -> ConnectionStep {
        match fault {
            ReadFault::Stream => self.end(broker, Ending::Stream),
            ReadFault::Waits => self.wait(alloc, registry, broker, work, Due::Frames),
            ReadFault::Untaken(count) => match work.buffers.keep() {
                Some(octets) => {
                    work.figures.note_read(count);
                    self.wait(alloc, registry, broker, work, Due::Octets(octets, count))
                }
                None => self.end(broker, Ending::Memory),
            },
        }
    }

    /// Whether something of it waits for memory.
    fn is_waiting(&self) -> bool {
        !matches!(self.due, Due::Nothing)
    }

    /// Whether nothing came of it for so long. While something of it waits for memory, or it's held back, nothing is
    /// read.
    pub(crate) fn is_idle(&self, now: Instant, most: Duration) -> bool {
        matches!(self.stage, Stage::Serving)
            && !self.is_waiting()
            && !self.is_held_back
            && match self.heard.checked_add(most) {
                Some(last) => last <= now,
                None => false,
            }
    }

    /// Has something wait, unless the session is over.
    fn wait<const FULL: usize>(
        &mut self,
        alloc: Global,
        registry: &Registry,
        broker: &mut Broker<FULL>,
        work: &mut Work,
        due: Due,
    ) -> ConnectionStep {
        self.heard = work.now;
        if broker.is_closed(self.session) {
            give_back(due, &mut work.buffers);
            return self.leave_closed(alloc, registry, broker, work);
        }
        self.due = due;
        ConnectionStep::Waits
    }

    /// Goes on with what waits, and notes whether it sends. Where nothing waits any more it is read again: the socket
    /// doesn't tell twice of what came meanwhile.
    pub(crate) fn go_on<const FULL: usize>(
        &mut self,
        alloc: Global,
        registry: &Registry,
        broker: &mut Broker<FULL>,
        work: &mut Work,
    ) -> ConnectionStep {
        if !self.is_waiting() {
            return ConnectionStep::Stays;
        }
        let due = replace(&mut self.due, Due::Nothing);
        take_accepted(broker, work);
        let kept = broker.kept(self.session);
        if broker.is_closed(self.session) {
            give_back(due, &mut work.buffers);
            return self.leave_closed(alloc, registry, broker, work);
        }
        let fed = feed_due(broker, self.session, &due);
        self.note_sends(broker, work, kept);
        match fed {
            Err(ReadFault::Stream) | Err(ReadFault::Untaken(_)) => {
                return self.wait(alloc, registry, broker, work, due);
            }
            Err(ReadFault::Waits) => {
                give_back(due, &mut work.buffers);
                return self.wait(alloc, registry, broker, work, Due::Frames);
            }
            Ok(frames) => {
                give_back(due, &mut work.buffers);
                self.heard = work.now;
                work.figures.note_frames(frames);
            }
        }
        self.read_on(alloc, registry, broker, work)
    }

    /// Has it be read again, unless its session is over.
    fn read_on<const FULL: usize>(
        &mut self,
        alloc: Global,
        registry: &Registry,
        broker: &mut Broker<FULL>,
        work: &mut Work,
    ) -> ConnectionStep {
        if broker.is_closed(self.session) {
            return self.leave_closed(alloc, registry, broker, work);
        }
        if !self.ask_again(registry) {
            return self.end(broker, Ending::Stream);
        }
        ConnectionStep::Stays
    }

    /// Writes what is left for its session, or after it. What was fresh may have been a delivery, after which it is
    /// read again where it was held back.
    pub(crate) fn write<const FULL: usize>(
        &mut self,
        registry: &Registry,
        broker: &mut Broker<FULL>,
        work: &mut Work,
    ) -> ConnectionStep {
        match self.stage {
            Stage::Serving => match self.write_session(registry, broker, work) {
                ConnectionStep::Stays => self.release(registry, broker, work),
                step => step,
            },
            Stage::Leaving(_) => self.write_rest(registry, work),
            Stage::Draining => ConnectionStep::Stays,
        }
    }

    /// Writes what the socket takes of its session's octets, and counts it.
    fn write_some<const FULL: usize>(
        &mut self,
        broker: &mut Broker<FULL>,
        work: &mut Work,
    ) -> Result<Written, TurnFault> {
        let before = broker.out(self.session).len();
        let written = write_out(&mut self.stream, broker, self.session)?;
        let left = match written {
            Written::All => 0,
            Written::Blocked | Written::Again => broker.out(self.session).len(),
        };
        work.figures.note_written(before.saturating_sub(left));
        Ok(written)
    }

    fn write_session<const FULL: usize>(
        &mut self,
        registry: &Registry,
        broker: &mut Broker<FULL>,
        work: &mut Work,
    ) -> ConnectionStep {
        if !self.is_blocked {
            match self.write_some(broker, work) {
                Err(_) => return self.end(broker, Ending::Stream),
                Ok(Written::All) => return ConnectionStep::Stays,
                Ok(Written::Blocked) => self.is_blocked = true,
                Ok(Written::Again) => {
                    if !self.ask_again(registry) {
                        return self.end(broker, Ending::Stream);
                    }
                    self.is_blocked = true;
                }
            }
        }
        // Tested after the write, so that a client that reads again isn't dropped for what it takes now.
        if broker.out(self.session).len() > MAX_UNREAD {
            return self.end(broker, Ending::Unread);
        }
        ConnectionStep::Stays
    }

    fn write_rest(&mut self, registry: &Registry, work: &mut Work) -> ConnectionStep {
        let Stage::Leaving(rest) = &mut self.stage else {
            return ConnectionStep::Stays;
        };
        let before = rest.len();
        let written = rest.write(&mut self.stream);
        work.figures.note_written(before.saturating_sub(rest.len()));
        match written {
            Err(_) => ConnectionStep::Closes,
            Ok(Written::All) if self.is_over_by_shutting() => ConnectionStep::Closes,
            Ok(Written::All) => ConnectionStep::Stays,
            Ok(Written::Blocked) => {
                self.is_blocked = true;
                ConnectionStep::Stays
            }
            Ok(Written::Again) => {
                self.is_blocked = true;
                self.stays_if_asked(registry)
            }
        }
    }

    /// Throws away what comes in after the end of its session.
    fn throw_away(&mut self, registry: &Registry, work: &mut Work) -> ConnectionStep {
        let buffer = work.buffers.current();
        if buffer.is_empty() {
            return ConnectionStep::Closes;
        }
        match discard(&mut self.stream, buffer) {
            Err(_) => ConnectionStep::Closes,
            Ok((_, ReadTurn::Blocked)) => ConnectionStep::Stays,
            Ok((_, ReadTurn::Ended)) => {
                self.has_ended = true;
                match self.stage {
                    Stage::Draining => ConnectionStep::Closes,
                    // What is left for it is still written.
                    Stage::Serving | Stage::Leaving(_) => ConnectionStep::Stays,
                }
            }
            Ok((count, ReadTurn::More)) => {
                work.figures.note_read(count);
                self.thrown = self.thrown.saturating_add(count);
                if self.thrown > MAX_THROWN {
                    return ConnectionStep::Closes;
                }
                self.stays_if_asked(registry)
            }
        }
    }

    /// Takes a session away that is over by an ERROR or a DISCONNECT.
    fn leave_closed<const FULL: usize>(
        &mut self,
        alloc: Global,
        registry: &Registry,
        broker: &mut Broker<FULL>,
        work: &mut Work,
    ) -> ConnectionStep {
        let why = match refusal_in(broker.out(self.session)) {
            Some(refusal) => match broker.detail() {
                Some(detail) => Ending::RefusedFor(refusal, detail),
                None => Ending::Refused(refusal),
            },
            None => Ending::Disconnect,
        };
        self.leave(alloc, registry, broker, work, why)
    }

    /// Writes what the socket takes, and takes the session away with what is left.
    fn leave<const FULL: usize>(
        &mut self,
        alloc: Global,
        registry: &Registry,
        broker: &mut Broker<FULL>,
        work: &mut Work,
        why: Ending,
    ) -> ConnectionStep {
        let Ok(written) = self.write_some(broker, work) else {
            return self.end(broker, why);
        };
        if broker.out(self.session).len() > MAX_UNREAD {
            return self.end(broker, why);
        }
        // The session goes now, and not when all is written: what was out to it is dealt to others.
        let Ok(rest) = Rest::of(alloc, broker, self.session) else {
            return ConnectionStep::Ends(why);
        };
        self.stage = Stage::Leaving(rest);
        self.is_blocked = true;
        match written {
            Written::All if self.is_over_by_shutting() => ConnectionStep::Ends(why),
            Written::All | Written::Blocked => ConnectionStep::Leaves(why),
            Written::Again if self.ask_again(registry) => ConnectionStep::Leaves(why),
            Written::Again => ConnectionStep::Ends(why),
        }
    }

    /// All is written: shuts this side. Whether the connection is over by that.
    fn is_over_by_shutting(&mut self) -> bool {
        self.stage = Stage::Draining;
        // Shut and not closed: a socket that is closed with octets unread resets the connection, and an ERROR could be
        // lost.
        self.has_ended || self.stream.shutdown(Shutdown::Write).is_err()
    }

    /// Takes the session away at once.
    pub(crate) fn end<const FULL: usize>(
        &mut self,
        broker: &mut Broker<FULL>,
        why: Ending,
    ) -> ConnectionStep {
        broker.drop_session(self.session);
        ConnectionStep::Ends(why)
    }

    fn stays_if_asked(&mut self, registry: &Registry) -> ConnectionStep {
        if self.ask_again(registry) {
            ConnectionStep::Stays
        } else {
            ConnectionStep::Closes
        }
    }

    /// Has the socket tell again of what it is ready for now; `false` where it doesn't.
    // The poll reports each change once. To register the socket again makes it report what is there by now.
    fn ask_again(&mut self, registry: &Registry) -> bool {
        registry
            .reregister(&mut self.stream, Token(self.place.key), both_ways())
            .is_ok()
    }
}

/// Takes what was accepted away, and counts it: a server has no use for it, and the list would grow. The answer is
/// whether there was something.
pub(crate) fn take_accepted<const FULL: usize>(broker: &mut Broker<FULL>, work: &mut Work) -> bool {
    let accepted = broker.take_accepted();
    work.figures.note_accepted(accepted.len());
    !accepted.is_empty()
}

/// The lesser of two numbers.
fn least_of(one: usize, other: usize) -> usize
    ensures one { result ≤ one }
    ensures other { result ≤ other }
{
    if one < other { one } else { other }
}

/// Feeds what waits.
fn feed_due<const FULL: usize>(
    broker: &mut Broker<FULL>,
    session: SessionId,
    due: &Due,
) -> Result<usize, ReadFault>
    requires { closed_in (session_of session broker.old) ≡ false }
{
    match due {
        Due::Octets(octets, count) if *count <= octets.len() => {
            feed_in(broker, session, &octets[..*count])
        }
        _ => feed_in(broker, session, &[]),
    }
}

/// Gives the buffer back that kept octets.
fn give_back(due: Due, buffers: &mut Buffers) {
    if let Due::Octets(octets, _) = due {
        buffers.give_back(octets);
    }
}
