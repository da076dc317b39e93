//! Deliveries that are out, and the answers that take them back.
//!
//! What is believed is a message's standing. The deliveries that a subscriber notes are a hint at which messages may be
//! out to it: one may be noted that was answered since or never made, and each is tested by its message. Each message
//! that is out is noted, so none is missed.

ghost use Rattle.broker_book.specs.Books.{out_as};
ghost use Rattle.broker_index.specs.Index.{places_at};
ghost use Rattle.broker_index.specs.Standing.{fate_of};
ghost use Rattle.broker_queues.specs.Parts.Facts.{kept_at, subscriber_at};
ghost use Rattle.broker_queues.specs.Parts.Fates.{back, counts_alone, counts_in, fate_of_kept, is_covered, is_held};
ghost use Rattle.broker_queues.specs.Parts.Fates.{is_held_at, passes, sole_covered};
ghost use Rattle.broker_queues.specs.Parts.Held.{Responds, TakesBack, TurnsAll, TurnsNext, TurnsPast, entries_of};
ghost use Rattle.broker_queues.specs.Parts.Held.{holding_of};
ghost use Rattle.broker_queues.specs.Parts.Storing.{AnswersAlone, Clears, NoneGone, Sweeps, SweepsOne, first_stale};
ghost use Rattle.broker_queues.specs.Parts.Storing.{is_stale, notes_more};
ghost use Rattle.broker_queues.specs.Parts.Undoing.{is_out_fate};
ghost use Rattle.broker_queues.specs.Parts.Whole.{IsSound};
ghost use Rattle.std.specs.Prelude.{◌&&◌, ◌==◌, ◌≡◌, ◌≤◌, IfSome, Some, false, find, length, slice_get};
ghost use Rattle.std.specs.Str.{bytes_eq};

use crate::destinations::{credit, mark};
use crate::parts::Parts;
use broker_book::{Mode, QueueFault, Subscription};
use broker_index::{Entry, Holder, KeyedPlace, Standing, StoredSubscriber};

/// Where a message is whose delivery is taken back: ready again, or else gone.
fn standing_back(again: bool) -> Standing
    ensures { fate_of result ≡ back again }
{
    if again {
        Standing::Ready
    } else {
        Standing::Gone
    }
}

/// Whether a delivery that is out belongs to a subscription.
fn belongs(holder: &Holder, subscription: &Subscription) -> bool
    ensures { result ≡ (holder.now.session == subscription.now.session && bytes_eq holder.now.id subscription.now.id) }
{
    holder.session == subscription.session && holder.id.get().same(subscription.id.get())
}

/// Whether an answer to the delivery `answered` of a subscription counts for a message that is there; without an
/// answer, whether the message is out to the subscription.
pub fn covers(standing: &Standing, subscription: &Subscription, answered: Option<u64>) -> bool
    ensures { result ≡ passes (counts_in subscription.now answered) (fate_of standing.now) }
{
    match standing {
        Standing::Out(holder) => match answered {
            // The number first: it tells most of a subscription's deliveries apart, and is quicker than a name.
            Some(answered) => subscription.mode.reaches(answered, holder.ack)
                && belongs(holder, subscription),
            None => belongs(holder, subscription),
        },
        Standing::Ready | Standing::Gone => false,
    }
}

/// Whether an answer to a delivery counts for it alone.
fn counts_alone(mode: Mode) -> bool
    ensures { result ≡ counts_alone mode }
{
    match mode {
        Mode::Client => false,
        Mode::Auto | Mode::Individual => true,
    }
}

/// Whether a message that is there is out to a subscription as the delivery of this number.
fn is_standing_as(standing: &Standing, subscription: &Subscription, ack: u64) -> bool
    ensures { result ≡ passes (out_as subscription.now.session subscription.now.id ack) (fate_of standing.now) }
{
    match standing {
        Standing::Out(holder) => holder.ack == ack && belongs(holder, subscription),
        Standing::Ready | Standing::Gone => false,
    }
}

/// Whether a message that is there is out.
pub fn is_out(standing: &Standing) -> bool
    ensures { result ≡ passes is_out_fate (fate_of standing.now) }
{
    match standing {
        Standing::Out(_) => true,
        Standing::Ready | Standing::Gone => false,
    }
}

/// The only one of these places; none, where there are more.
fn sole_of(places: &[KeyedPlace]) -> Option<KeyedPlace>
    ensures { IfSome result (λ p. slice_get places.now 0 ≡ Some p) }
{
    // Of more than one it isn't said which it is: to ask the first in vain would cost more than that spares.
    if places.len() > 1 {
        return None;
    }
    match places.first() {
        Some(place) => Some(*place),
        None => None,
    }
}

impl Parts {
    /// Takes back the delivery of a message to a subscriber: the message is ready again, or else gone.
    fn take_back(&mut self, number: u64, key: usize, age: u64, age_key: usize, again: bool)
        ensures change { TakesBack (holding_of self.old) number age again (holding_of self.new) }
        ensures given { self.new.given ≡ self.old.given }
    {
        let Some(stored) = self.messages.get(number, key) else {
            return;
        };
        mark(
            &mut self.destinations,
            &mut self.active,
            &stored.sent().get().destination,
            number,
            again,
        );
        let Some(subscriber) = self.subscribers.get(age, age_key) else {
            return;
        };
        credit(
            &mut self.destinations,
            &mut self.active,
            subscriber.subscription().destination.get(),
            age,
        );
        let count = subscriber.count().saturating_sub(1);
        self.subscribers.set_count(age, age_key, count);
        self.messages.set(number, key, standing_back(again));
    }

    /// Whether an answer to the delivery `answered` of a subscription counts for a message; without an answer, whether
    /// it is out to it.
    fn is_covered(
        &self,
        number: u64,
        key: usize,
        subscription: &Subscription,
        answered: Option<u64>,
    ) -> bool
        ensures { result ≡ passes (counts_in subscription.now answered)
            (fate_of_kept (kept_at number self.now.messages)) }
    {
        match self.messages.get(number, key) {
            Some(stored) => covers(stored.standing(), subscription, answered),
            None => false,
        }
    }

    /// How many deliveries a subscriber notes; 0 where there is none of this age.
    fn entries_len(&self, age: u64, age_key: usize) -> usize
        ensures { result ≡ length (entries_of (subscriber_at age self.now.subscribers)) }
    {
        match self.subscribers.get(age, age_key) {
            Some(subscriber) => subscriber.entries().len(),
            None => 0,
        }
    }

    /// Takes back the delivery at a place of a subscriber's, if an answer to the delivery `answered` counts for it, or
    /// without an answer.
    fn answer_one(
        &mut self,
        age: u64,
        age_key: usize,
        index: usize,
        answered: Option<u64>,
        again: bool,
    )
        ensures { TurnsNext (holding_of self.old) age index answered again (holding_of self.new) }
    {
        let Some(subscriber) = self.subscribers.get(age, age_key) else {
            return;
        };
        let entries = subscriber.entries();
        if index >= entries.len() {
            return;
        }
        let entry = entries[index];
        if self.is_covered(entry.number, entry.key, subscriber.subscription(), answered) {
            self.take_back(entry.number, entry.key, age, age_key, again);
        }
    }

    /// Where the first of a subscriber's deliveries is, from a place on, for which an answer to the delivery `answered`
    /// counts; after all, where there is none.
    fn next_covered(&self, age: u64, age_key: usize, from: usize, answered: Option<u64>) -> usize
        ensures behind { from ≤ result }
        ensures passes { TurnsPast (holding_of self.now) age from answered result }
    {
        let Some(subscriber) = self.subscribers.get(age, age_key) else {
            return from;
        };
        let entries = subscriber.entries();
        let subscription = subscriber.subscription();
        let mut index = from;
        while index < entries.len() {
            let entry = entries[index];
            if self.is_covered(entry.number, entry.key, subscription, answered) {
                return index;
            }
            index += 1;
        }
        index
    }

    /// Takes back the deliveries of a subscriber for which an answer to the delivery `answered` counts, without an
    /// answer all: their messages are ready again, or else gone. It allocates nothing.
    pub fn answer(&mut self, age: u64, age_key: usize, answered: Option<u64>, again: bool)
        ensures { TurnsAll (holding_of self.old) age answered again (holding_of self.new) }
    {
        // No entry goes here, so the places stay: what is stale is swept once nothing can be undone any more.
        let len = self.entries_len(age, age_key);
        let mut index = self.next_covered(age, age_key, 0, answered);
        while index < len {
            self.answer_one(age, age_key, index, answered, again);
            index = self.next_covered(age, age_key, index + 1, answered);
        }
    }

    /// Whether a message is out to a subscription as the delivery of this number.
    fn is_out_as(&self, entry: &Entry, subscription: &Subscription, ack: u64) -> bool
        ensures { result ≡ passes (out_as subscription.now.session subscription.now.id ack) (fate_of_kept
            (kept_at entry.now.number self.now.messages)) }
    {
        match self.messages.get(entry.number, entry.key) {
            Some(stored) => is_standing_as(stored.standing(), subscription, ack),
            None => false,
        }
    }

    /// Whether a delivery of this number is out to a subscriber.
    fn is_held(&self, subscriber: &StoredSubscriber, ack: u64) -> bool
        ensures { result ≡ is_held self.now.messages ack subscriber.now }
    {
        let subscription = subscriber.subscription();
        subscriber
            .entries()
            .iter()
            .any(|entry| self.is_out_as(entry, subscription, ack))
    }

    /// Whether a delivery of this number is out to the subscriber at a place.
    fn is_held_at(&self, place: &KeyedPlace, ack: u64) -> bool
        ensures { result ≡ is_held_at self.now.messages self.now.subscribers ack place.now }
    {
        match self.subscribers.get(place.number, place.key) {
            Some(subscriber) => self.is_held(subscriber, ack),
            None => false,
        }
    }

    /// The first of these places whose subscriber holds a delivery of this number.
    fn first_held(&self, places: &[KeyedPlace], ack: u64) -> Option<KeyedPlace>
        ensures { result ≡ find (is_held_at self.now.messages self.now.subscribers ack) places.now }
    {
        for place in places {
            if self.is_held_at(place, ack) {
                return Some(*place);
            }
        }
        None
    }

    /// The place of the oldest subscriber of a session to whom a delivery of this number is out.
    pub fn holder(&self, session: u64, ack: u64) -> Option<KeyedPlace>
        ensures { result ≡ find (is_held_at self.now.messages self.now.subscribers ack)
            (places_at self.now.sessions session) }
    {
        self.first_held(self.sessions.get(session), ack)
    }

    /// Whether a message isn't out.
    fn is_stale(&self, entry: &Entry) -> bool
        ensures { result ≡ is_stale self.now.messages entry.now }
    {
        match self.messages.get(entry.number, entry.key) {
            Some(stored) => !is_out(stored.standing()),
            None => true,
        }
    }

    /// The first of these deliveries whose message isn't out any more.
    fn first_stale_in(&self, entries: &[Entry]) -> Option<Entry>
        ensures { result ≡ find (is_stale self.now.messages) entries.now }
    {
        for entry in entries {
            if self.is_stale(entry) {
                return Some(*entry);
            }
        }
        None
    }

    /// The first of a subscriber's deliveries whose message isn't out any more.
    fn first_stale(&self, age: u64, age_key: usize) -> Option<Entry>
        ensures { result ≡ first_stale self.now.messages (subscriber_at age self.now.subscribers) }
    {
        match self.subscribers.get(age, age_key) {
            Some(subscriber) => self.first_stale_in(subscriber.entries()),
            None => None,
        }
    }

    /// Forgets a subscriber's deliveries whose messages aren't out any more, and takes out those that are gone. A message
    /// that is out to another one is left for later, which spares a look at names. It allocates nothing.
    pub fn sweep(&mut self, age: u64, age_key: usize)
        ensures sweeps { Sweeps (holding_of self.old) (holding_of self.new) }
        ensures clears { Clears (holding_of self.old) age (holding_of self.new) }
        ensures rest { SweepsOne (holding_of self.old) age (holding_of self.new) }
    {
        while let Some(entry) = self.first_stale(age, age_key) {
            // Each round leaves fewer deliveries noted, so the search comes to an end.
            self.subscribers.forget(age, age_key, entry.number);
            self.purge(entry.number, entry.key);
        }
    }

    /// The first of these deliveries of a subscription for which an answer to the delivery `answered` counts.
    fn first_covered_in(
        &self,
        entries: &[Entry],
        subscription: &Subscription,
        answered: u64,
    ) -> Option<Entry>
        ensures { result ≡ find (is_covered self.now.messages subscription.now answered) entries.now }
    {
        for entry in entries {
            if self.is_covered(entry.number, entry.key, subscription, Some(answered)) {
                return Some(*entry);
            }
        }
        None
    }

    /// The delivery to the subscriber at a place for which alone an answer to the delivery `answered` counts; none,
    /// where it may count for more.
    fn sole_covered(&self, place: &KeyedPlace, answered: u64) -> Option<Entry>
        ensures { result ≡ sole_covered self.now.messages answered (subscriber_at place.now.number
            self.now.subscribers) }
    {
        let Some(subscriber) = self.subscribers.get(place.number, place.key) else {
            return None;
        };
        let subscription = subscriber.subscription();
        if !counts_alone(subscription.mode) {
            return None;
        }
        self.first_covered_in(subscriber.entries(), subscription, answered)
    }

    /// Acknowledges one delivery to the subscriber at a place: the delivery is forgotten, and its message taken out. It
    /// allocates nothing.
    ///
    /// The message isn't put down as gone before: so its queue counts and lists it no more by one look.
    fn settle(&mut self, entry: &Entry, holder: &KeyedPlace)
        ensures { AnswersAlone (holding_of self.old) holder.now.number entry.now.number false (holding_of self.new) }
    {
        let Some(stored) = self.messages.get(entry.number, entry.key) else {
            return;
        };
        let Some(subscriber) = self.subscribers.get(holder.number, holder.key) else {
            return;
        };
        credit(
            &mut self.destinations,
            &mut self.active,
            subscriber.subscription().destination.get(),
            holder.number,
        );
        let count = subscriber.count().saturating_sub(1);
        // The queue first: the name that it is found by is the message's own.
        self.destinations
            .take_counted(&stored.sent().get().destination, entry.number);
        self.messages.remove(entry.number, entry.key);
        self.subscribers.set_count(holder.number, holder.key, count);
        self.subscribers
            .forget(holder.number, holder.key, entry.number);
    }

    /// Takes back one delivery to the subscriber at a place, and forgets it: its message is ready again, or else taken
    /// out. It allocates nothing.
    fn answer_alone(&mut self, entry: &Entry, place: &KeyedPlace, again: bool)
        ensures { AnswersAlone (holding_of self.old) place.now.number entry.now.number again (holding_of self.new) }
    {
        if !again {
            self.settle(entry, place);
            return;
        }
        self.take_back(entry.number, entry.key, place.number, place.key, again);
        self.subscribers
            .forget(place.number, place.key, entry.number);
        self.purge(entry.number, entry.key);
    }

    /// Whether a subscriber notes more deliveries than are out to it.
    fn notes_more(&self, age: u64, age_key: usize) -> bool
        ensures { result ≡ notes_more (subscriber_at age self.now.subscribers) }
    {
        match self.subscribers.get(age, age_key) {
            Some(subscriber) => subscriber.count() < subscriber.entries().len(),
            None => false,
        }
    }

    /// Sweeps a subscriber that notes more deliveries than are out to it: if an allocation fails after a note, it is
    /// left. It allocates nothing.
    fn sweep_rest(&mut self, age: u64, age_key: usize)
        ensures sweeps { Sweeps (holding_of self.old) (holding_of self.new) }
        ensures rest { SweepsOne (holding_of self.old) age (holding_of self.new) }
    {
        if self.notes_more(age, age_key) {
            self.sweep(age, age_key);
        }
    }

    /// The delivery of this number to the only subscription of a session, and where its subscriber is, if an answer to it
    /// counts for it alone.
    fn sole_held(&self, session: u64, ack: u64) -> Option<(KeyedPlace, Entry)>
        ensures { IfSome result (λ r. (find (is_held_at self.now.messages self.now.subscribers ack)
            (places_at self.now.sessions session) ≡ Some r.0)
            × (sole_covered self.now.messages ack (subscriber_at r.0.number self.now.subscribers) ≡ Some r.1)) }
    {
        let Some(place) = sole_of(self.sessions.get(session)) else {
            return None;
        };
        let Some(entry) = self.sole_covered(&place, ack) else {
            return None;
        };
        Some((place, entry))
    }

    /// An answer of a session, whichever of its subscriptions holds the delivery.
    fn answer_any(&mut self, session: u64, ack: u64, again: bool) -> Result<(), QueueFault>
        ensures step { Responds (holding_of self.old) session ack again (holding_of self.new) result }
        ensures taken { IsSound (holding_of self.old) → NoneGone self.old.messages → NoneGone self.new.messages }
    {
        let Some(place) = self.holder(session, ack) else {
            return Err(QueueFault::NoSuchAck);
        };
        // No two deliveries that are out have one number: the others needn't be looked at.
        if let Some(entry) = self.sole_covered(&place, ack) {
            self.answer_alone(&entry, &place, again);
            self.sweep_rest(place.number, place.key);
            return Ok(());
        }
        self.answer(place.number, place.key, Some(ack), again);
        self.sweep(place.number, place.key);
        Ok(())
    }

    /// An ACK of a session, or a NACK where the messages are to be ready again; what is gone then is taken out. It
    /// allocates nothing.
    ///
    /// # Errors
    /// Where no delivery of this number is out to the session; then nothing has changed.
    pub fn answer_whole(&mut self, session: u64, ack: u64, again: bool) -> Result<(), QueueFault>
        ensures step { Responds (holding_of self.old) session ack again (holding_of self.new) result }
        ensures taken { IsSound (holding_of self.old) → NoneGone self.old.messages → NoneGone self.new.messages }
    {
        // A session has mostly one subscription: then none is searched for that holds the delivery.
        if let Some(held) = self.sole_held(session, ack) {
            self.answer_alone(&held.1, &held.0, again);
            self.sweep_rest(held.0.number, held.0.key);
            return Ok(());
        }
        self.answer_any(session, ack, again)
    }
}
