//! A destination.
//!
//! The two lists are the truth. `ready_from` and `taker_from` are hints: where to look first, never after what is
//! looked for, so that one that is too low costs a longer search and no other answer.

ghost use Rattle.std.specs.Prelude.{◌≡◌, ◌<◌, ◌++◌, ◌∷◌, ◌^◌, ◌-◌, [], ◌≤◌, ◌⊎◌, All, IfSome, OnOk, OnErr};
ghost use Rattle.std.specs.List.{find};
ghost use Rattle.broker_index.specs.Index.{counting_fewer, empty_queue, is_from, is_idle, with_counted, without};
ghost use Rattle.broker_index.specs.Index.{without_counted};

use crate::KeyedPlace;
use crate::numbers::Places;
use std::alloc::{AllocError, Global};
use std::marker::Model;

/// What a destination has: the messages that go to it, and the subscribers that listen on it.
#[derive(Drop)]
pub struct StoredQueue {
    // Also of messages that are gone and wait to be taken out: `count` is without those.
    numbers: Places,
    count: usize,
    ready_from: u64,
    subscribers: Places,
    taker_from: u64,
}

impl Model for StoredQueue {
    ghost use Rattle.broker_index.specs.Index.{Queue};

    ghost Value = { Queue };

    ghost view = { λ q. record {
      numbers = q.numbers;
      count = q.count;
      ready_from = q.ready_from;
      subscribers = q.subscribers;
      taker_from = q.taker_from;
    } };
}

impl StoredQueue {
    /// Nothing goes there, and none listens.
    pub(crate) fn new(alloc: Global) -> StoredQueue
        ensures { result ≡ empty_queue }
    {
        StoredQueue {
            numbers: Places::new(alloc),
            count: 0,
            // 0 is before any message and any age: a hint that is too low is always right.
            ready_from: 0,
            subscribers: Places::new(alloc),
            taker_from: 0,
        }
    }

    /// How many messages go to it that aren't gone.
    pub fn count(&self) -> usize
        ensures { result ≡ self.now.count }
    {
        self.count
    }

    /// A number that no ready message is before.
    pub fn ready_from(&self) -> u64
        ensures { result ≡ self.now.ready_from }
    {
        self.ready_from
    }

    /// An age that no subscriber with credit is before.
    pub fn taker_from(&self) -> u64
        ensures { result ≡ self.now.taker_from }
    {
        self.taker_from
    }

    /// The first message at this number or after it.
    pub fn first_number_from(&self, number: u64) -> Option<KeyedPlace>
        ensures found { result ≡ find (is_from number) self.now.numbers }
        ensures least { IfSome result (λ p. All (λ q. (q.number < number) ⊎ (p.number ≤ q.number)) self.now.numbers) }
    {
        self.numbers.first_from(number)
    }

    /// The first subscriber of this age or a higher one.
    pub fn first_subscriber_from(&self, age: u64) -> Option<KeyedPlace>
        ensures found { result ≡ find (is_from age) self.now.subscribers }
        ensures least { IfSome result (λ p. All (λ q. (q.number < age) ⊎ (p.number ≤ q.number)) self.now.subscribers) }
    {
        self.subscribers.first_from(age)
    }

    /// Whether nothing goes there and none listens.
    pub(crate) fn is_idle(&self) -> bool
        ensures { result ≡ is_idle self.now }
    {
        self.numbers.is_empty() && self.subscribers.is_empty()
    }

    pub(crate) fn push_number(&mut self, place: KeyedPlace) -> Result<(), AllocError>
        requires { All (λ p. p.number < place.number) self.old.numbers }
        ensures ok { OnOk result (self.new ≡ record self.old { numbers = self.old.numbers ++ place ∷ [] }) }
        ensures err { OnErr result (self.new ≡ self.old) }
    {
        self.numbers.push(place)
    }

    pub(crate) fn remove_number(&mut self, number: u64)
        ensures { self.new ≡ record self.old { numbers = without number self.old.numbers } }
    {
        self.numbers.remove(number);
    }

    pub(crate) fn set_count(&mut self, count: usize)
        ensures { self.new ≡ record self.old { count = count } }
    {
        self.count = count;
    }

    pub(crate) fn push_counted(&mut self, place: KeyedPlace) -> Result<(), AllocError>
        requires above { All (λ p. p.number < place.number) self.old.numbers }
        requires room { self.old.count < 2 ^ 64 - 1 }
        ensures ok { OnOk result (self.new ≡ with_counted place self.old) }
        ensures err { OnErr result (self.new ≡ self.old) }
    {
        self.numbers.push(place)?;
        // Counted once it's listed: where that fails nothing has changed.
        self.count += 1;
        Ok(())
    }

    pub(crate) fn lower_count(&mut self)
        ensures { self.new ≡ counting_fewer self.old }
    {
        // Never below 0 where the parts agree. That isn't required here, so it must not wrap.
        self.count = self.count.saturating_sub(1);
    }

    pub(crate) fn remove_counted(&mut self, number: u64)
        ensures { self.new ≡ without_counted number self.old }
    {
        self.remove_number(number);
        self.lower_count();
    }

    pub(crate) fn set_ready_from(&mut self, number: u64)
        ensures { self.new ≡ record self.old { ready_from = number } }
    {
        self.ready_from = number;
    }

    pub(crate) fn push_subscriber(&mut self, place: KeyedPlace) -> Result<(), AllocError>
        requires { All (λ p. p.number < place.number) self.old.subscribers }
        ensures ok { OnOk result (self.new ≡ record self.old { subscribers = self.old.subscribers ++ place ∷ [] }) }
        ensures err { OnErr result (self.new ≡ self.old) }
    {
        self.subscribers.push(place)
    }

    pub(crate) fn remove_subscriber(&mut self, age: u64)
        ensures { self.new ≡ record self.old { subscribers = without age self.old.subscribers } }
    {
        self.subscribers.remove(age);
    }

    pub(crate) fn set_taker_from(&mut self, age: u64)
        ensures { self.new ≡ record self.old { taker_from = age } }
    {
        self.taker_from = age;
    }
}
