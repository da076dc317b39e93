//! A session's transaction: all of its actions in order, or none.
//!
//! The truth while it runs is the parts themselves: each action is made at once. The undo log holds what they can't
//! tell any more, to whom a message was out. Its keys are hints, as all keys are.

ghost use Rattle.broker_book.specs.Steps.{act_of, apply_of, put_of};
ghost use Rattle.broker_index.specs.Index.{queue_at};
ghost use Rattle.broker_index.specs.Standing.{fate_of};
ghost use Rattle.broker_queues.specs.Parts.Begun.{Acts, AnswersNoted, Applies, CountsMore, LetsGo, NotesAll, NotesOne};
ghost use Rattle.broker_queues.specs.Parts.Begun.{PutsAccepted, PutsBack, PutsBackAll, SweepsAll, TakesLast, Undoes};
ghost use Rattle.broker_queues.specs.Parts.Begun.{Unputs, UnputsAll};
ghost use Rattle.broker_queues.specs.Parts.Held.{holding_of};
ghost use Rattle.broker_queues.specs.Parts.Storing.{NoneGone, Sweeps};
ghost use Rattle.broker_queues.specs.Parts.Whole.{IsSound};
ghost use Rattle.std.specs.Prelude.{◌+◌, ◌-◌, ◌<◌, ◌≡◌};

use crate::deliveries::{covers, is_out};
use crate::destinations::{count, count_fewer};
use crate::parts::Parts;
use broker_book::{Accepted, Action, QueueFault, Sent, Shared, Subscription};
use broker_index::{Destinations, Entry, KeyedPlace, Standing};
use std::alloc::AllocError;
use stomp_session::Text;

/// A message that was out before an answer: its number and key, the age and key of its subscriber, and to whom it was
/// out.
#[derive(Drop)]
pub struct Logged {
    pub number: u64,
    pub key: usize,
    pub age: u64,
    pub age_key: usize,
    pub standing: Standing,
}

/// What it takes to undo a transaction: the messages that were out before its answers, and the keys of those that came.
#[derive(Drop)]
pub struct UndoLog {
    pub answers: Vec<Logged>,
    pub keys: Vec<usize>,
}

/// The count with one more, where that isn't above the most that can be.
fn one_more(count: usize, most: usize) -> usize
    ensures { count < most → result ≡ count + 1 }
{
    // Where the parts agree the count is below it. That isn't required here, so it must not wrap.
    if count < most { count + 1 } else { most }
}

/// A message that may have been gone is out again: then its destination has one living message more, of at most this
/// many.
fn count_back(destinations: &mut Destinations, name: &Text, standing: &Standing, most: usize)
    ensures { CountsMore (fate_of standing.now) most (queue_at destinations.old) (queue_at destinations.new) name.now }
{
    match standing {
        Standing::Gone => {
            let count = one_more(count(destinations, name), most);
            destinations.set_count(name, count);
        }
        Standing::Ready | Standing::Out(_) => {}
    }
}

impl Parts {
    /// Accepts a SEND, and tells its message's key.
    ///
    /// # Errors
    /// As `put` has them. Then nothing of the book has changed.
    pub fn put_accepted(
        &mut self,
        full: usize,
        sent: &Shared<Sent>,
        accepted: &mut Vec<Accepted>,
    ) -> Result<usize, QueueFault>
        requires { IsSound (holding_of self.old) }
        ensures { PutsAccepted full (holding_of self.old) accepted.old.items sent.now (holding_of self.new)
            accepted.new.items result }
    {
        // Where no number is left this one is wrong, but `put` refuses the SEND then, and the entry goes.
        let one = Accepted {
            number: self.last.saturating_add(1),
            sent: sent.share()?,
        };
        // Pushed first, since a push may be refused memory and a pop can't be.
        accepted.push(one)?;
        match self.put(full, sent) {
            Ok(key) => Ok(key),
            Err(fault) => {
                drop(accepted.pop());
                Err(fault)
            }
        }
    }

    /// Accepts a SEND within a transaction, and notes the key of its message.
    fn put_noted(
        &mut self,
        full: usize,
        sent: &Shared<Sent>,
        undo_log: &mut UndoLog,
        accepted: &mut Vec<Accepted>,
    ) -> Result<(), QueueFault>
        requires { IsSound (holding_of self.old) }
        ensures { Acts (λ b. put_of full b sent.now) (holding_of self.old) undo_log.old.answers.items accepted.old.items
            (holding_of self.new) undo_log.new.answers.items accepted.new.items result }
    {
        // Room first: after the put, the push must not fail.
        undo_log.keys.reserve(1)?;
        let key = self.put_accepted(full, sent, accepted)?;
        undo_log.keys.push(key)?;
        Ok(())
    }

    /// Notes the message of a subscriber's delivery, if an answer to the delivery `answered` counts for it.
    ///
    /// # Errors
    /// If an allocation fails; then nothing is noted.
    fn note_one(
        &self,
        entry: &Entry,
        place: KeyedPlace,
        to: &Subscription,
        answered: Option<u64>,
        log: &mut Vec<Logged>,
    ) -> Result<(), AllocError>
        ensures { NotesOne self.now.messages entry.now place.number to.now answered log.old.items log.new.items result }
    {
        let Some(stored) = self.messages.get(entry.number, entry.key) else {
            return Ok(());
        };
        if covers(stored.standing(), to, answered) {
            let logged = Logged {
                number: entry.number,
                key: entry.key,
                age: place.number,
                age_key: place.key,
                standing: stored.standing().share()?,
            };
            log.push(logged)?;
        }
        Ok(())
    }

    /// Notes the messages of the subscriber at a place for which an answer to the delivery `answered` counts.
    ///
    /// # Errors
    /// If an allocation fails; then some of them are noted.
    fn note_all(
        &self,
        place: KeyedPlace,
        answered: Option<u64>,
        log: &mut Vec<Logged>,
    ) -> Result<(), AllocError>
        ensures { NotesAll (holding_of self.now) place.number answered log.old.items log.new.items result }
    {
        let Some(subscriber) = self.subscribers.get(place.number, place.key) else {
            return Ok(());
        };
        for entry in subscriber.entries() {
            self.note_one(entry, place, subscriber.subscription(), answered, log)?;
        }
        Ok(())
    }

    /// An ACK of a session within a transaction, or a NACK where the messages are to be ready again.
    ///
    /// # Errors
    /// Where no delivery of this number is out to the session, or an allocation fails.
    fn answer_noted(
        &mut self,
        session: u64,
        ack: u64,
        again: bool,
        log: &mut Vec<Logged>,
    ) -> Result<(), QueueFault>
        ensures { AnswersNoted session ack again (holding_of self.old) log.old.items (holding_of self.new) log.new.items
            result }
    {
        let Some(place) = self.holder(session, ack) else {
            return Err(QueueFault::NoSuchAck);
        };
        // Noted first: an answer that isn't noted whole couldn't be undone.
        self.note_all(place, Some(ack), log)?;
        self.answer(place.number, place.key, Some(ack), again);
        Ok(())
    }

    /// Does one action of a session's transaction.
    fn act(
        &mut self,
        full: usize,
        session: u64,
        action: &Action,
        undo_log: &mut UndoLog,
        accepted: &mut Vec<Accepted>,
    ) -> Result<(), QueueFault>
        requires { IsSound (holding_of self.old) }
        ensures { Acts (λ b. act_of full session b action.now) (holding_of self.old) undo_log.old.answers.items
            accepted.old.items (holding_of self.new) undo_log.new.answers.items accepted.new.items result }
    {
        match action {
            Action::Put(sent) => self.put_noted(full, sent, undo_log, accepted),
            Action::Ack(number) => {
                self.answer_noted(session, *number, false, &mut undo_log.answers)
            }
            Action::Nack(number) => {
                self.answer_noted(session, *number, true, &mut undo_log.answers)
            }
        }
    }

    /// The actions of a session's transaction in order, until one is refused.
    fn act_all(
        &mut self,
        full: usize,
        session: u64,
        actions: &[Action],
        undo_log: &mut UndoLog,
        accepted: &mut Vec<Accepted>,
    ) -> Result<(), QueueFault>
        requires { IsSound (holding_of self.old) }
        ensures { Acts (λ b. apply_of full session b actions.now) (holding_of self.old) undo_log.old.answers.items
            accepted.old.items (holding_of self.new) undo_log.new.answers.items accepted.new.items result }
    {
        for action in actions {
            self.act(full, session, action, undo_log, accepted)?;
        }
        Ok(())
    }

    // ---- undoing

    /// A message that is ready is gone. It tells whether there is one of this number.
    fn let_go(&mut self, number: u64, key: usize) -> bool
        ensures { LetsGo (holding_of self.old) number (holding_of self.new) result }
    {
        let Some(stored) = self.messages.get(number, key) else {
            return false;
        };
        count_fewer(&mut self.destinations, &stored.sent().get().destination);
        self.messages.set(number, key, Standing::Gone);
        true
    }

    /// Takes out the message that came last.
    fn take_last(&mut self, key: usize)
        ensures { TakesLast (holding_of self.old) (holding_of self.new) }
    {
        let number = self.last;
        if !self.let_go(number, key) {
            return;
        }
        self.purge(number, key);
    }

    /// Takes out the message that came last, and returns its number.
    fn unput(&mut self, key: usize)
        ensures begun { Unputs (holding_of self.old) (holding_of self.new) }
        ensures last { self.new.last ≡ self.old.last - 1 }
    {
        let last = self.last.saturating_sub(1);
        self.take_last(key);
        self.last = last;
    }

    /// Takes out the messages that came after the number `last`; the keys are those of the last ones.
    fn unput_all(&mut self, last: u64, keys: &mut Vec<usize>)
        ensures { UnputsAll (holding_of self.old) last (holding_of self.new) }
    {
        while self.last > last {
            // A key is a hint, so any serves where none is left.
            let key = keys.pop().unwrap_or(0);
            self.unput(key);
        }
    }

    /// A message that was noted is out again as it was, unless it is out.
    fn put_back(&mut self, logged: Logged)
        ensures { PutsBack (holding_of self.old) logged (holding_of self.new) }
    {
        let most = self.messages.len();
        let Some(stored) = self.messages.get(logged.number, logged.key) else {
            return;
        };
        if is_out(stored.standing()) {
            return;
        }
        count_back(
            &mut self.destinations,
            &stored.sent().get().destination,
            stored.standing(),
            most,
        );
        let Some(subscriber) = self.subscribers.get(logged.age, logged.age_key) else {
            return;
        };
        let count = one_more(subscriber.count(), most);
        self.subscribers
            .set_count(logged.age, logged.age_key, count);
        self.messages
            .set(logged.number, logged.key, logged.standing);
    }

    /// Takes back what was noted of answers, the last first.
    fn put_back_all(&mut self, log: &mut Vec<Logged>)
        ensures { PutsBackAll (holding_of self.old) log.old.items (holding_of self.new) }
    {
        // What was noted is moved and not shared, so that undoing never allocates.
        while let Some(logged) = log.pop() {
            self.put_back(logged);
        }
    }

    /// Undoes the steps of a transaction that began when `last` was the last message's number. It does the same if an
    /// allocation fails.
    fn undo(&mut self, last: u64, undo_log: &mut UndoLog)
        ensures { Undoes (holding_of self.old) last undo_log.old.answers.items (holding_of self.new) }
    {
        // Nothing goes out within a transaction: no answer was to a message that came in it, so neither meets the
        // other.
        self.unput_all(last, &mut undo_log.keys);
        self.put_back_all(&mut undo_log.answers);
    }

    // ---- the whole

    /// Puts away what was answered: deliveries and messages that are no longer needed.
    fn sweep_all(&mut self, log: &[Logged])
        ensures sweeps { Sweeps (holding_of self.old) (holding_of self.new) }
        ensures taken { SweepsAll (holding_of self.old) log.now (holding_of self.new) }
    {
        for logged in log {
            self.sweep(logged.age, logged.age_key);
        }
    }

    /// The actions of a session's transaction: all in order, or none.
    ///
    /// # Errors
    /// The first fault of an action, or `Memory` if an allocation fails. Then nothing of the book has changed.
    pub fn apply(
        &mut self,
        full: usize,
        session: u64,
        actions: &[Action],
        accepted: &mut Vec<Accepted>,
    ) -> Result<(), QueueFault>
        requires { IsSound (holding_of self.old) }
        ensures applies { Applies full session actions.now (holding_of self.old) accepted.old.items
            (holding_of self.new) accepted.new.items result }
        ensures taken { NoneGone self.old.messages → NoneGone self.new.messages }
    {
        let mut undo_log = UndoLog {
            answers: Vec::new(self.active.alloc),
            keys: Vec::new(self.active.alloc),
        };
        let last = self.last;
        let len = accepted.as_slice().len();
        if let Err(fault) = self.act_all(full, session, actions, &mut undo_log, accepted) {
            self.undo(last, &mut undo_log);
            // SENDs that were accepted before this transaction, and not taken yet, stay.
            accepted.truncate(len);
            return Err(fault);
        }
        // Not before: until the last action is made, a message that is gone may have to come back.
        self.sweep_all(&undo_log.answers);
        Ok(())
    }
}
