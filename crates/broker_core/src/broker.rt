//! The broker.

ghost use Rattle.std.specs.Prelude.{◌≡◌, ◌<◌, ◌≤◌, ◌%◌, ◌^◌, ℕ, [], count_by, length, not};
ghost use Rattle.std.specs.List.{list_any};
ghost use Rattle.broker_book.specs.Books.{is_ready, out_of};
ghost use Rattle.broker_book.specs.Sizes.{held_octets};
ghost use Rattle.broker_core.specs.Calls.{FreshAnswer, OpenAnswer, closed_in, dropped, empty, out_in, without_first};
ghost use Rattle.broker_core.specs.Feeding.{DispatchAnswer, FeedAnswer};
ghost use Rattle.broker_core.specs.Parts.Rising.{StandsAt};
ghost use Rattle.broker_core.specs.Parts.Taking.{TurnAnswer};
ghost use Rattle.broker_core.specs.Serving.{changing, session_of};
ghost use Rattle.broker_core.specs.Sizes.{kept_in};

use crate::sessions::Sessions;
use crate::{BrokerFault, Detail, SessionId};
use broker_book::Accepted;
use broker_queues::Queues;
use std::alloc::{AllocError, Global};
use std::marker::Model;

/// A broker of which each queue holds at most `FULL` messages: contracts see its book, its sessions and the last number
/// that one was given.
pub struct Broker<const FULL: usize> {
    queues: Queues<FULL>,
    sessions: Sessions,
    /// Of the frame that ended a session at the last feed: for people to read, so contracts don't see it.
    // Otherwise the state of all laws would change for a line of a log.
    detail: Option<Detail>,
}

/// Written by hand, so that a crate that owns a broker cites this, and doesn't prove anew how each of its parts is
/// dropped.
impl<const FULL: usize> Drop for Broker<FULL> {
    fn drop(self) {
        let Broker {
            // A program of four lines took 74 seconds to prove with a derived `drop`, and 32 with this one.
            queues: _queues,
            sessions: _sessions,
            detail: _detail,
        } = self;
    }
}

impl<const FULL: usize> Model for Broker<FULL> {
    ghost use Rattle.broker_core.specs.Serving.{Server, broker_of};

    ghost Value = { Server };

    ghost view = { λ b. broker_of b.queues b.sessions };
}

impl<const FULL: usize> Broker<FULL> {
    /// A broker with no session and no message. It allocates nothing.
    pub fn new(alloc: Global) -> Self
        ensures { result ≡ empty }
    {
        Broker {
            queues: Queues::new(alloc),
            sessions: Sessions::new(alloc),
            detail: None,
        }
    }

    /// Opens a session, which isn't connected. No session of this broker had its number before.
    ///
    /// # Errors
    /// Nothing has changed then:
    /// - `TooMany` where 2^64 - 1 sessions were opened;
    /// - `Memory` if an allocation fails.
    pub fn open(&mut self) -> Result<SessionId, BrokerFault>
        ensures { OpenAnswer self.old self.new result }
    {
        self.sessions.open()
    }

    /// Feeds a piece of a client's octets to its session, handles the frames that are whole now, one after another, and
    /// deals messages after each frame and at the end. The answer is the number of frames. A closed session throws the
    /// piece away.
    ///
    /// A frame is done or refused as a whole. It is answered in the octets of its session: by CONNECTED, by the RECEIPT
    /// that it asks for, which comes before any MESSAGE that the frame causes, or by an ERROR, which ends the session
    /// (STOMP 1.2, section "ERROR").
    ///
    /// # Errors
    /// - `NoSession` where there is no session of this number, and then nothing has changed;
    /// - `Memory` if an allocation fails. Where the piece was not taken nothing has changed. Where it was, the frames
    ///   before were handled, and the next call continues where this one stopped: `feed` with no octets then serves.
    ///   No frame is lost or handled twice.
    pub fn feed(&mut self, session: SessionId, piece: &[u8]) -> Result<usize, BrokerFault>
        ensures { FeedAnswer FULL self.old session piece.now self.new result }
    {
        // Looked up once, where it was eight times for one frame: no step and no deal moves a session.
        let Some(at) = self.sessions.place(session.number()) else {
            return Err(BrokerFault::NoSession);
        };
        // A detail is of one feed: what an earlier one found doesn't stay.
        self.detail = None;
        // Each turn takes an octet or the frame that waits, so that the bound is never reached: it shows that the loop
        // ends.
        let Ok(bound) = self.sessions.feed(at, piece) else {
            return Err(BrokerFault::Memory { took: false });
        };
        for count in 0..bound {
            match self.turn(at) {
                Err(_) => return Err(BrokerFault::Memory { took: true }),
                Ok(true) => {}
                Ok(false) => return Ok(count),
            }
        }
        unreachable!()
    }

    /// What was wrong with the frame that ended the session at the last [`feed`](Broker::feed), where that is more than
    /// its ERROR tells: which header is missing, or why its octets are no frame. It is for a log: no contract says what
    /// it is, but that asking changes nothing. It allocates nothing.
    pub fn detail(&self) -> Option<Detail> {
        self.detail
    }

    /// Delivers messages until none can be: the lowest number that is ready first, each to the oldest subscription to
    /// its queue that may take one more.
    ///
    /// # Errors
    /// If an allocation fails; what was delivered before stays so.
    pub fn dispatch(&mut self) -> Result<(), AllocError>
        ensures { DispatchAnswer self.old self.new result }
    {
        self.queues.dispatch(&mut self.sessions)
    }

    /// The octets for a session that were not taken yet; none where there is no such session. It allocates nothing.
    pub fn out(&self, session: SessionId) -> &[u8]
        ensures { result.now ≡ out_in (session_of session self.now) }
    {
        match self.sessions.get(session.number()) {
            Some(session) => session.out.as_slice(),
            None => &[],
        }
    }

    /// Takes the first octets for a session away. It allocates nothing.
    pub fn taken(&mut self, session: SessionId, count: usize)
        requires { count ≤ length (out_in (session_of session self.old)) }
        ensures { self.new ≡ changing session (without_first count) self.old }
    {
        self.sessions.taken(session.number(), count);
    }

    /// Whether a session is closed, or there is none: what is still in its octets is all that it will be sent. It
    /// allocates nothing.
    pub fn is_closed(&self, session: SessionId) -> bool
        ensures { result ≡ closed_in (session_of session self.now) }
    {
        match self.sessions.get(session.number()) {
            Some(session) => session.closed,
            None => true,
        }
    }

    /// What the messages of all queues are counted as together, for a limit on memory: for each its octets, those of its
    /// destination, headers and body, and 512 more for what keeping it takes; modulo 2^64. It allocates nothing.
    pub fn octets(&self) -> u64
        ensures { result ≡ held_octets self.now.book.living % 2 ^ 64 }
    {
        self.queues.octets()
    }

    /// How many messages are ready: in queues, and out to nobody; modulo 2^64. It allocates nothing.
    pub fn ready(&self) -> u64
        ensures { result ≡ count_by is_ready self.now.book.living % 2 ^ 64 }
    {
        self.queues.ready()
    }

    /// How many messages are out, and unanswered; modulo 2^64. It allocates nothing.
    pub fn unanswered(&self) -> u64
        ensures { result ≡ count_by (λ m. not (is_ready m)) self.now.book.living % 2 ^ 64 }
    {
        self.queues.unanswered()
    }

    /// How many deliveries that are to be answered were made so far: each has the next number, so it is the last one's. A
    /// message that came back and goes out again counts again. What goes out in mode `auto` has no number, and doesn't
    /// count. It allocates nothing.
    pub fn handed_out(&self) -> u64
        ensures { result ≡ self.now.book.given }
    {
        self.queues.given()
    }

    /// What the open transactions of a session keep, counted in the same way: a SEND as its message, and 32 more for
    /// each action; modulo 2^64. It is 0 where there is no such session. It allocates nothing.
    pub fn kept(&self, session: SessionId) -> u64
        ensures { result ≡ kept_in (session_of session self.now) % 2 ^ 64 }
    {
        match self.sessions.get(session.number()) {
            Some(session) => session.transactions.octets(),
            None => 0,
        }
    }

    /// Whether a message is out to a session, and unanswered. It allocates nothing.
    pub fn has_unanswered(&self, session: SessionId) -> bool
        ensures { result ≡ list_any (λ m. out_of session m.fate) self.now.book.living }
    {
        self.queues.has_unanswered(session.number())
    }

    /// Takes a session away: its subscriptions end, what is out to them is ready again, and its transactions and octets
    /// are gone. It deals nothing, and allocates nothing.
    pub fn drop_session(&mut self, session: SessionId)
        ensures { self.new ≡ dropped session self.old (session_of session self.old) }
    {
        self.sessions.remove(session.number(), &mut self.queues);
    }

    /// A session for which octets were written since it was last named; none where there is none. It allocates nothing.
    ///
    /// Called until it answers none, it names each session with octets to send.
    pub fn take_fresh(&mut self) -> Option<SessionId>
        ensures { FreshAnswer self.old self.new result }
    {
        self.sessions.take_fresh()
    }

    /// The SENDs that were accepted since the last call, in order. It allocates nothing.
    pub fn take_accepted(&mut self) -> Vec<Accepted>
        ensures accepted { result.items ≡ self.old.book.accepted }
        ensures rest { self.new ≡ record self.old { book = record self.old.book { accepted = [] } } }
    {
        self.queues.take_accepted()
    }

    /// Takes the next frame of the session at a place, makes its step and deals; `false` where there was none.
    fn turn(&mut self, at: usize) -> Result<bool, AllocError>
        requires { at < length self.old.sessions }
        ensures { (n : ℕ) → StandsAt n self.old.sessions at → TurnAnswer FULL n self.old self.new result }
    {
        let queues = &mut self.queues;
        let stepped = self.sessions.turn(at, queues, &mut self.detail)?;
        // After each frame and not once for all: so a RECEIPT comes before any MESSAGE that its frame causes.
        queues.dispatch(&mut self.sessions)?;
        Ok(stepped)
    }
}
