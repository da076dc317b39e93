//! Subscriptions come and end.
//!
//! A subscriber is what is believed of a subscription. Its destination and its session list it exactly: it is in both
//! lists, under its age, from the end of `subscribe` until `detach`. The deliveries that it notes may be stale.

ghost use Rattle.broker_book.specs.Books.{is_named};
ghost use Rattle.broker_index.specs.Index.{places_at, queue_at};
ghost use Rattle.broker_queues.specs.Parts.Facts.{queue_of, subscriptions_of};
ghost use Rattle.broker_queues.specs.Parts.Held.{holding_of};
ghost use Rattle.broker_queues.specs.Parts.Storing.{Attaches, Detaches, EndsAll, EndsFirst, EndsOne, ReleasesNamed};
ghost use Rattle.broker_queues.specs.Parts.Storing.{SubscribesTo, is_named_at};
ghost use Rattle.broker_queues.specs.Parts.Waiting.{waits_at};
ghost use Rattle.broker_queues.specs.Parts.Whole.{IsSound};
ghost use Rattle.std.specs.List.{list_any};
ghost use Rattle.std.specs.Prelude.{◌<◌, ◌≡◌, All, false, find, length, slice_get};

use crate::destinations::{add_subscriber, free};
use crate::parts::Parts;
use broker_book::Subscription;
use broker_index::KeyedPlace;
use std::alloc::AllocError;
use stomp_session::Text;

impl Parts {
    /// Lists a subscriber, the youngest, at its destination and at its session.
    ///
    /// # Errors
    /// If an allocation fails; then an idle queue goes at most.
    fn attach(&mut self, name: &Text, session: u64, place: KeyedPlace) -> Result<(), AllocError>
        requires { All (λ p. p.number < place.number) (queue_of (queue_at self.old.destinations) name.now).subscribers }
        ensures { Attaches (holding_of self.old) name.now session place (holding_of self.new) result }
    {
        add_subscriber(&mut self.destinations, name, place)?;
        match self.sessions.push(session, place) {
            Ok(()) => {
                // A new subscriber has credit: what nobody could take before may go out now.
                free(&mut self.destinations, &mut self.active, name, place.number);
                Ok(())
            }
            Err(error) => {
                self.destinations.remove_subscriber(name, place.number);
                // A queue that was opened for this subscriber alone is idle now, and nothing may ever come to it.
                self.destinations.close(name);
                Err(error)
            }
        }
    }

    /// Adds a subscription, the youngest; its session has none of its name. Its texts are shared.
    ///
    /// # Errors
    /// If an allocation fails; then nothing has changed but that an idle queue goes.
    pub fn subscribe(&mut self, subscription: &Subscription) -> Result<(), AllocError>
        requires sound { IsSound (holding_of self.old) }
        requires free { list_any (is_named subscription.now.session subscription.now.id)
            (subscriptions_of self.old.subscribers) ≡ false }
        ensures joins { SubscribesTo (holding_of self.old) subscription.now (holding_of self.new) result }
        ensures messages { self.new.messages ≡ self.old.messages }
    {
        // Room for the name first: a subscriber whose destination sleeps would get nothing.
        self.active.make_room(&self.destinations)?;
        let place = self.subscribers.push(subscription)?;
        let name = subscription.destination.get();
        match self.attach(name, subscription.session, place) {
            Ok(()) => Ok(()),
            Err(error) => {
                self.subscribers.remove(place.number, place.key);
                Err(error)
            }
        }
    }

    /// Takes out a subscriber to whom nothing is out, and its destination with it if nothing goes there and none
    /// listens any more.
    fn detach(&mut self, age: u64, age_key: usize)
        ensures { Detaches (holding_of self.old) age (holding_of self.new) }
    {
        let Some(subscriber) = self.subscribers.get(age, age_key) else {
            return;
        };
        let subscription = subscriber.subscription();
        let name = subscription.destination.get();
        // The lists first: the name that they are found by is the subscriber's own.
        self.destinations.remove_subscriber(name, age);
        self.destinations.close(name);
        self.sessions.remove_place(subscription.session, age);
        self.subscribers.remove(age, age_key);
    }

    /// Ends the subscription of a subscriber: what is out to it is ready again, in its old place.
    fn leave(&mut self, age: u64, age_key: usize)
        ensures { EndsOne (holding_of self.old) age (holding_of self.new) }
    {
        // Taken back first: nothing may be out to a subscriber that goes.
        self.answer(age, age_key, None, true);
        self.detach(age, age_key);
    }

    /// Whether the subscriber at a place has this name.
    fn is_named_at(&self, place: &KeyedPlace, session: u64, id: &Text) -> bool
        ensures { result ≡ is_named_at self.now.subscribers session id.now place.now }
    {
        match self.subscribers.get(place.number, place.key) {
            Some(subscriber) => subscriber.subscription().is_named(session, id),
            None => false,
        }
    }

    /// The first of these places whose subscriber has this name.
    fn first_named(&self, places: &[KeyedPlace], session: u64, id: &Text) -> Option<KeyedPlace>
        ensures { result ≡ find (is_named_at self.now.subscribers session id.now) places.now }
    {
        for place in places {
            if self.is_named_at(place, session, id) {
                return Some(*place);
            }
        }
        None
    }

    /// The place of a session's subscriber of this name.
    pub fn named(&self, session: u64, id: &Text) -> Option<KeyedPlace>
        ensures { result ≡ find (is_named_at self.now.subscribers session id.now)
            (places_at self.now.sessions session) }
    {
        // Only the session's own places are searched: names are unique within a session, and not beyond.
        self.first_named(self.sessions.get(session), session, id)
    }

    /// Ends a session's subscription of this name: what is out to it is ready again, in its old place. Where there is
    /// none, nothing changes. It allocates nothing.
    pub fn release(&mut self, session: u64, id: &Text)
        ensures { ReleasesNamed (holding_of self.old) session id.now (holding_of self.new) }
    {
        if let Some(place) = self.named(session, id) {
            self.leave(place.number, place.key);
        }
    }

    /// How many subscribers a session has.
    fn subscribers_len(&self, session: u64) -> usize
        ensures { result ≡ length (places_at self.now.sessions session) }
    {
        self.sessions.get(session).len()
    }

    /// Whether a delivery to the subscriber at a place is unanswered.
    fn waits_at(&self, place: &KeyedPlace) -> bool
        ensures { result ≡ waits_at self.now.subscribers place.now }
    {
        match self.subscribers.get(place.number, place.key) {
            Some(subscriber) => subscriber.count() > 0,
            None => false,
        }
    }

    /// Whether a delivery to a subscriber of a session is unanswered.
    pub fn has_unanswered(&self, session: u64) -> bool
        ensures { result ≡ list_any (waits_at self.now.subscribers) (places_at self.now.sessions session) }
    {
        self.sessions
            .get(session)
            .iter()
            .any(|place| self.waits_at(place))
    }

    /// The place of a session's oldest subscriber.
    fn first_place(&self, session: u64) -> Option<KeyedPlace>
        ensures { result ≡ slice_get (places_at self.now.sessions session) 0 }
    {
        self.sessions.get(session).first().copied()
    }

    /// Ends the oldest subscription of a session, if there is one.
    fn end_first(&mut self, session: u64)
        ensures { EndsFirst (holding_of self.old) session (holding_of self.new) }
    {
        if let Some(place) = self.first_place(session) {
            self.leave(place.number, place.key);
        }
    }

    /// Ends all subscriptions of a session: what is out to them is ready again, in its old place. It allocates nothing.
    pub fn end(&mut self, session: u64)
        ensures { EndsAll (holding_of self.old) session (holding_of self.new) }
    {
        // Counted before: each end takes the first place off the list.
        let len = self.subscribers_len(session);
        for _ in 0..len {
            self.end_first(session);
        }
    }
}
