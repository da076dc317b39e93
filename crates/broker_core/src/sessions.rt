//! The sessions of a broker.
//!
//! What is true is the list of the sessions, in order of their numbers, and the last number that one was given. `last`
//! and `noted` are hints: either may be wrong at any time, and is looked at before it counts. The first saves the
//! search for a session that is called again, the second the search for one with fresh octets.

ghost use Rattle.std.specs.Prelude.{◌≡◌, ◌<◌, ◌≤◌, ◌++◌, ◌∷◌, ℕ, [], length, true, IfSome, OnOk, OnErr};
ghost use Rattle.std.specs.Option.{option_copied};
ghost use Rattle.std.specs.List.{find, position};
ghost use Rattle.broker_book.specs.Books.{Book};
ghost use Rattle.broker_core.specs.Calls.{FreshAnswer, OpenAnswer, dropped, is_fresh, new_session, out_in};
ghost use Rattle.broker_core.specs.Calls.{without_first};
ghost use Rattle.broker_core.specs.Parts.Taking.{BegunAnswer, PlaceAnswer, StepAnswer};
ghost use Rattle.broker_core.specs.Parts.Rising.{FreshPlace, IsFreshAt, StandsAt};
ghost use Rattle.broker_core.specs.Serving.{broker_of, in_roster, is_session};
ghost use Rattle.broker_core.specs.declared.session.Session.{Session};

use crate::session::Session;
use crate::{BrokerFault, Detail, SessionId};
use broker_book::{Sent, Subscription};
use broker_queues::{Queues, Sink};
use std::alloc::{AllocError, Global};
use std::marker::Model;
use stomp_session::Delivery;

/// The sessions, the oldest first, and the last number that one was given: contracts see both. `noted` are numbers of
/// sessions that may have fresh octets, at most one for each session, and `last` is where the session stood that was last
/// fed or named.
#[derive(Drop)]
pub struct Sessions {
    alloc: Global,
    items: Vec<Session>,
    opened: u64,
    noted: Vec<u64>,
    last: usize,
}

impl Model for Sessions {
    ghost use Rattle.broker_core.specs.Serving.{Roster};

    ghost Value = { Roster };

    ghost view = { λ s. record { sessions = s.items.items; opened = s.opened } };

    ghost use Rattle.broker_core.specs.Parts.Rising.{InOrder};

    ghost invariant = { InOrder };
}

impl Sessions {
    /// No session. It allocates nothing.
    pub fn new(alloc: Global) -> Sessions
        ensures { result ≡ record { sessions = []; opened = 0 } }
    {
        Sessions {
            alloc,
            items: Vec::new(alloc),
            opened: 0,
            noted: Vec::new(alloc),
            last: 0,
        }
    }

    /// Opens a session.
    pub fn open(&mut self) -> Result<SessionId, BrokerFault>
        ensures { (book : Book) → OpenAnswer (broker_of book self.old) (broker_of book self.new) result }
    {
        if self.opened == u64::MAX {
            return Err(BrokerFault::TooMany);
        }
        let number = self.opened + 1;
        if push_new(&mut self.items, self.alloc, number).is_err() {
            return Err(BrokerFault::Memory { took: false });
        }
        // Counted once it's there: where that fails the next one gets the number.
        self.opened = number;
        Ok(SessionId::new(number))
    }

    /// The session of a number.
    pub fn get(&self, number: u64) -> Option<&Session>
        ensures { option_copied result ≡ find (is_session number) self.now.sessions }
    {
        match self.place(number) {
            Some(at) => Some(&self.items[at]),
            None => None,
        }
    }

    /// Where the session of a number stands.
    pub fn place(&self, number: u64) -> Option<usize>
        ensures { PlaceAnswer number self.now.sessions result }
    {
        // Calls for one session mostly follow one another: it is fed and asked whether it is closed, or it is named and
        // its octets are taken.
        if is_at(&self.items, self.last, number) {
            return Some(self.last);
        }
        // Numbers rise and are never given twice, so that the list is in order without being sorted.
        self.items
            .binary_search_by_key(&number, |session| session.number)
            .ok()
    }

    /// Takes the first octets for a session away.
    pub fn taken(&mut self, number: u64, count: usize)
        requires { count ≤ length (out_in (find (is_session number) self.old.sessions)) }
        ensures { self.new ≡ in_roster number (without_first count) self.old }
    {
        if let Some(at) = self.place(number) {
            self.items[at].out.taken(count);
        }
    }

    /// Takes a session away, and ends its subscriptions.
    pub fn remove<const FULL: usize>(&mut self, number: u64, queues: &mut Queues<FULL>)
        ensures { let old = broker_of queues.old self.old in
            broker_of queues.new self.new ≡ dropped number old (find (is_session number) self.old.sessions) }
    {
        if let Some(at) = self.place(number) {
            // Subscriptions first, so that none ever names a session that is gone.
            queues.end(number);
            // The hints stay as they are: what they name now is looked at before it counts.
            drop(self.items.remove(at));
        }
    }

    /// Names a session with fresh octets.
    pub fn take_fresh(&mut self) -> Option<SessionId>
        ensures { (book : Book) → FreshAnswer (broker_of book self.old) (broker_of book self.new) result }
    {
        match fresh_place(self.items.as_slice(), &mut self.noted) {
            Some(at) => {
                // The caller asks for the octets of the session next.
                self.last = at;
                Some(self.items[at].name())
            }
            None => None,
        }
    }

    /// Feeds a piece to the session at a place. The answer is more than the frames that can still be taken of it.
    pub fn feed(&mut self, at: usize, piece: &[u8]) -> Result<usize, AllocError>
        requires { at < length self.old.sessions }
        ensures { (n : ℕ) (book : Book) → StandsAt n self.old.sessions at
            → BegunAnswer n piece.now (broker_of book self.old) (broker_of book self.new) result }
    {
        self.last = at;
        self.items[at].feed(piece)
    }

    /// Takes the next frame of the session at a place and makes its step; `false` where there is none, and where a
    /// fault of the octets has ended it. What was wrong with it besides is put into `detail`.
    pub fn turn<const FULL: usize>(
        &mut self,
        at: usize,
        queues: &mut Queues<FULL>,
        detail: &mut Option<Detail>,
    ) -> Result<bool, AllocError>
        requires { at < length self.old.sessions }
        ensures { (n : ℕ) → StandsAt n self.old.sessions at
            → StepAnswer FULL n (broker_of queues.old self.old) (broker_of queues.new self.new) result }
    {
        // A session that is fresh already is noted, or found by a search.
        let was_fresh = self.items[at].fresh;
        let done = self.items[at].turn(self.alloc, queues, detail);
        note(&self.items, at, was_fresh, &mut self.noted);
        done
    }
}

impl Sink for Sessions {
    ghost use Rattle.broker_core.specs.Feeding.{Hands};

    ghost takes = { Hands };

    fn deliver(
        &mut self,
        number: u64,
        sent: &Sent,
        to: &Subscription,
        ack: Option<u64>,
    ) -> Result<(), AllocError> {
        let delivery = Delivery {
            destination: sent.destination.as_str(),
            number,
            subscription: to.id.get().as_str(),
            ack,
            headers: sent.headers.as_slice(),
            body: sent.body.as_slice(),
        };
        match self.place(to.session) {
            Some(at) => {
                let was_fresh = self.items[at].fresh;
                let done = self.items[at].write_message(&delivery);
                note(&self.items, at, was_fresh, &mut self.noted);
                done
            }
            // Never so, as a session's subscriptions end with it.
            None => Ok(()),
        }
    }
}

/// Whether the session of a number is at this place.
fn is_at(items: &[Session], at: usize, number: u64) -> bool
    ensures { result ≡ true → StandsAt number items.now at }
{
    match items.get(at) {
        Some(session) => session.number == number,
        None => false,
    }
}

/// Notes the session at this place where its octets have become fresh. Where as many are noted as there are sessions,
/// or an allocation fails, it isn't noted, and is found by a search.
fn note(items: &[Session], at: usize, was_fresh: bool, noted: &mut Vec<u64>) {
    let Some(session) = items.get(at) else { return };
    // Without the bound, sessions that are dropped before they are named would let the notes grow without end.
    if session.fresh && !was_fresh && noted.len() < items.len() {
        let _ = noted.push(session.number);
    }
}

/// Where a session with fresh octets stands: one that was noted, else the first.
fn fresh_place(items: &[Session], noted: &mut Vec<u64>) -> Option<usize>
    ensures { FreshPlace items.now result }
{
    match noted_place(items, noted) {
        Some(at) => Some(at),
        // A session whose note found no memory has its octets sent too.
        None => first_fresh(items),
    }
}

/// Where the first session with fresh octets stands.
fn first_fresh(items: &[Session]) -> Option<usize>
    ensures { result ≡ position is_fresh items.now }
{
    items.iter().position(|session| session.fresh)
}

/// Where a session with fresh octets stands that was noted; the notes up to it are gone.
fn noted_place(items: &[Session], noted: &mut Vec<u64>) -> Option<usize>
    ensures { IfSome result (IsFreshAt items.now) }
{
    for _ in 0..noted.len() {
        let number = noted.pop()?;
        if let Some(at) = fresh_at(items, number) {
            return Some(at);
        }
    }
    None
}

/// Where the session of this number stands, if it has fresh octets.
fn fresh_at(items: &[Session], number: u64) -> Option<usize>
    ensures { IfSome result (IsFreshAt items.now) }
{
    let at = items
        .binary_search_by_key(&number, |session| session.number)
        .ok()?;
    let session = items.get(at)?;
    if session.fresh { Some(at) } else { None }
}

fn push_new(items: &mut Vec<Session>, alloc: Global, number: u64) -> Result<(), AllocError>
    ensures ok { OnOk result (items.new.items ≡ items.old.items ++ new_session number ∷ []) }
    ensures err { OnErr result (items.new.items ≡ items.old.items) }
{
    items.push(Session::new(alloc, number))?;
    Ok(())
}
