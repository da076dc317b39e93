//! The queues, as callers see them: a book.
//!
//! The book is what the parts stand for, with the SENDs that were accepted since they were last taken. What in the
//! parts is believed and what is a hint, `parts.rt` says.

ghost use Rattle.std.specs.Prelude.{◌≡◌, ◌==◌, ◌%◌, ◌^◌, [], OnOk, IfErr, count_by, false, is_some, not};
ghost use Rattle.std.specs.List.{list_any};
ghost use Rattle.broker_book.specs.declared.fault.QueueFault.TheVariants.{Memory};
ghost use Rattle.broker_book.specs.Books.{empty_book, is_named, is_ready, out_of};
ghost use Rattle.broker_book.specs.Sizes.{held_octets};
ghost use Rattle.broker_book.specs.Steps.{Dispatches, Exactly, UnlessMemory, ack_of, apply_of, ended, holder, nack_of};
ghost use Rattle.broker_book.specs.Steps.{put_of, released, subscribed};

use crate::Sink;
use crate::active::Active;
use crate::parts::Parts;
use broker_book::{Accepted, Action, QueueFault, Sent, Shared, Subscription};
use broker_index::{Destinations, Messages, Sessions, Subscribers};
use std::alloc::{AllocError, Global};
use std::marker::Model;
use std::mem::replace;
use stomp_session::Text;

/// A broker's queues: contracts see their book. A destination holds at most `FULL` messages, ready or out.
#[derive(Drop)]
pub struct Queues<const FULL: usize> {
    // Between calls they agree, and keep no message that is gone.
    parts: Parts,
    accepted: Vec<Accepted>,
}

impl<const FULL: usize> Model for Queues<FULL> {
    ghost use Rattle.broker_book.specs.Books.{Book};

    ghost Value = { Book };

    ghost use Rattle.broker_queues.specs.Parts.Held.{holding_of};
    ghost use Rattle.broker_queues.specs.Parts.Storing.{IsTidy};
    ghost use Rattle.broker_queues.specs.Parts.Whole.{book_of};

    ghost view = { λ q. book_of (holding_of q.parts) q.accepted.items };

    ghost invariant = { λ q. IsTidy (holding_of q.parts) };
}

impl<const FULL: usize> Queues<FULL> {
    /// Nothing has happened yet. It allocates nothing.
    pub fn new(alloc: Global) -> Self
        ensures { result ≡ empty_book }
    {
        Queues {
            parts: Parts {
                messages: Messages::new(alloc),
                subscribers: Subscribers::new(alloc),
                destinations: Destinations::new(alloc),
                sessions: Sessions::new(alloc),
                active: Active {
                    alloc,
                    names: Vec::new(alloc),
                    all: false,
                },
                last: 0,
                given: 0,
            },
            accepted: Vec::new(alloc),
        }
    }

    /// The last number that a message was given, 0 before the first.
    pub fn last(&self) -> u64
        ensures { result ≡ self.now.last }
    {
        self.parts.last
    }

    /// The last number that a delivery was given, 0 before the first. Those in mode `auto` have none.
    pub fn given(&self) -> u64
        ensures { result ≡ self.now.given }
    {
        self.parts.given
    }

    /// Accepts a SEND: its message is ready, and has the next number, which [`last`](Queues::last) tells then. What it
    /// brings is shared and not copied.
    ///
    /// # Errors
    /// `QueueFull` where its destination holds `FULL` messages, `TooMany` where no number is left, `Memory` if an
    /// allocation fails. Then nothing has changed.
    pub fn put(&mut self, sent: &Shared<Sent>) -> Result<(), QueueFault>
        ensures { UnlessMemory (put_of FULL self.old sent.now) self.old self.new result }
    {
        self.parts.put_accepted(FULL, sent, &mut self.accepted)?;
        Ok(())
    }

    /// The SENDs accepted since they were last taken, the oldest first. It allocates nothing.
    pub fn take_accepted(&mut self) -> Vec<Accepted>
        ensures accepted { result.items ≡ self.old.accepted }
        ensures rest { self.new ≡ record self.old { accepted = [] } }
    {
        replace(&mut self.accepted, Vec::new(self.parts.active.alloc))
    }

    /// Adds a subscription, the youngest, of a name that the session's others don't have, as
    /// [`has_named`](Queues::has_named) tells. Its texts are shared and not copied.
    ///
    /// # Errors
    /// `Memory` if an allocation fails, and then nothing has changed.
    pub fn subscribe(&mut self, subscription: &Subscription) -> Result<(), QueueFault>
        requires { list_any (is_named subscription.now.session subscription.now.id) self.old.subscriptions ≡ false }
        ensures ok { OnOk result (self.new ≡ subscribed self.old subscription.now) }
        ensures err { IfErr result (λ fault. (fault ≡ Memory) × (self.new ≡ self.old)) }
    {
        self.parts.subscribe(subscription)?;
        Ok(())
    }

    /// Whether a session has a subscription of this name.
    pub fn has_named(&self, session: u64, id: &Text) -> bool
        ensures { result ≡ list_any (is_named session id.now) self.now.subscriptions }
    {
        self.parts.named(session, id).is_some()
    }

    /// How many subscriptions a session has.
    pub fn count_of(&self, session: u64) -> usize
        ensures { result ≡ count_by (λ s. s.session == session) self.now.subscriptions }
    {
        self.parts.sessions.get(session).len()
    }

    /// Whether a message is out to a session, and unanswered.
    pub fn has_unanswered(&self, session: u64) -> bool
        ensures { result ≡ list_any (λ m. out_of session m.fate) self.now.living }
    {
        self.parts.has_unanswered(session)
    }

    /// What the messages that are ready or out are counted as together, modulo 2^64.
    pub fn octets(&self) -> u64
        ensures { result ≡ held_octets self.now.living % 2 ^ 64 }
    {
        self.parts.messages.octets()
    }

    /// How many messages are ready, modulo 2^64.
    pub fn ready(&self) -> u64
        ensures { result ≡ count_by is_ready self.now.living % 2 ^ 64 }
    {
        // None is kept that is gone, so those that aren't out are ready.
        (self.parts.messages.len() as u64).wrapping_sub(self.parts.messages.unanswered())
    }

    /// How many messages are out, and unanswered; modulo 2^64.
    pub fn unanswered(&self) -> u64
        ensures { result ≡ count_by (λ m. not (is_ready m)) self.now.living % 2 ^ 64 }
    {
        self.parts.messages.unanswered()
    }

    /// Ends a session's subscription of this name: what is out to it is ready again, in its old place. It allocates
    /// nothing.
    pub fn release(&mut self, session: u64, id: &Text)
        ensures { self.new ≡ released self.old session id.now }
    {
        self.parts.release(session, id)
    }

    /// Ends all subscriptions of a session: what is out to them is ready again, in its old place. It allocates nothing.
    pub fn end(&mut self, session: u64)
        ensures { self.new ≡ ended self.old session }
    {
        self.parts.end(session)
    }

    /// Whether a delivery of this number is out to a session.
    pub fn holds(&self, session: u64, number: u64) -> bool
        ensures { result ≡ is_some (holder self.now session number) }
    {
        self.parts.holder(session, number).is_some()
    }

    /// An ACK of a session (STOMP 1.2, section "ACK"): the message that is out as this delivery is gone, and in mode
    /// `client` those of the subscription's earlier deliveries. It allocates nothing.
    ///
    /// # Errors
    /// `NoSuchAck` where no such delivery is out to the session, and then nothing has changed.
    pub fn ack(&mut self, session: u64, number: u64) -> Result<(), QueueFault>
        ensures { Exactly (ack_of self.old session number) self.old self.new result }
    {
        self.parts.answer_whole(session, number, false)
    }

    /// A NACK of a session (STOMP 1.2, section "NACK"): the message that is out as this delivery is ready again, in its
    /// old place, and in mode `client` those of the subscription's earlier deliveries. It allocates nothing.
    ///
    /// # Errors
    /// `NoSuchAck` where no such delivery is out to the session, and then nothing has changed.
    pub fn nack(&mut self, session: u64, number: u64) -> Result<(), QueueFault>
        ensures { Exactly (nack_of self.old session number) self.old self.new result }
    {
        self.parts.answer_whole(session, number, true)
    }

    /// The actions of a session's transaction: all in order, or none.
    ///
    /// # Errors
    /// The first fault of an action, as `put`, `ack` and `nack` have them after those before, or `Memory` if an
    /// allocation fails. Then nothing has changed.
    pub fn apply(&mut self, session: u64, actions: &[Action]) -> Result<(), QueueFault>
        ensures { UnlessMemory (apply_of FULL session self.old actions.now) self.old self.new result }
    {
        self.parts.apply(FULL, session, actions, &mut self.accepted)
    }

    /// Delivers what is ready until no message can go out: always the first that can, to the oldest subscription that
    /// may take it.
    ///
    /// # Errors
    /// If an allocation fails, here or by the sink. Then some messages may have been delivered, each of them wholly.
    pub fn dispatch<S: Sink>(&mut self, sink: &mut S) -> Result<(), AllocError>
        ensures { Dispatches S.takes self.old sink.old self.new sink.new result }
    {
        // Each delivery changes what is ready and who has credit, so the next deal is picked again.
        while let Some(pick) = self.parts.next_deal()? {
            self.parts.hand(pick, sink)?;
        }
        Ok(())
    }
}
