//! The subscribers of a broker.

ghost use Rattle.std.specs.Prelude.{◌≡◌, ◌==◌, ◌<◌, ◌++◌, ◌∷◌, [], map, filter, not, All, IfOk, OnOk, OnErr};
ghost use Rattle.std.specs.Option.{option_copied};
ghost use Rattle.std.specs.List.{find};
ghost use Rattle.broker_index.specs.Index.{has_age, with_count, with_entry, without_entries, entries_without};

use crate::keyed::{Keyed, find_key, find_value, put_value, take_value};
use crate::{Entry, KeyedPlace};
use broker_book::Subscription;
use slab::Slab;
use std::alloc::{AllocError, Global};
use std::marker::Model;

/// A subscription, and the deliveries to it.
#[derive(Debug, Drop)]
pub struct StoredSubscriber {
    age: u64,
    subscription: Subscription,
    // The truth, how many are unanswered; `entries` is where to look for them, and may have others.
    count: usize,
    entries: Vec<Entry>,
}

impl Model for StoredSubscriber {
    ghost use Rattle.broker_index.specs.Index.{Subscriber};

    ghost Value = { Subscriber };

    ghost view = { λ s. record { age = s.age; subscription = s.subscription; count = s.count; entries = s.entries.items } };
}

impl Keyed for StoredSubscriber {
    ghost number_of = { λ s. s.age };

    fn key_number(&self) -> u64 {
        self.age
    }
}

impl StoredSubscriber {
    /// The subscriber's age: of two the older has the lower one.
    pub fn age(&self) -> u64
        ensures { result ≡ self.now.age }
    {
        self.age
    }

    /// The subscription.
    pub fn subscription(&self) -> &Subscription
        ensures { result.now ≡ self.now.subscription }
    {
        &self.subscription
    }

    /// How many deliveries to it are unanswered.
    pub fn count(&self) -> usize
        ensures { result ≡ self.now.count }
    {
        self.count
    }

    /// The deliveries that were made to it: those that are unanswered, and perhaps others.
    pub fn entries(&self) -> &[Entry]
        ensures { result.now ≡ self.now.entries }
    {
        self.entries.as_slice()
    }

    fn set_count(&mut self, count: usize)
        ensures { self.new ≡ record self.old { count = count } }
    {
        self.count = count;
    }

    fn note(&mut self, entry: Entry) -> Result<(), AllocError>
        ensures ok { OnOk result (self.new ≡ record self.old { entries = self.old.entries ++ entry ∷ [] }) }
        ensures err { OnErr result (self.new ≡ self.old) }
    {
        self.entries.push(entry)?;
        Ok(())
    }

    fn forget(&mut self, number: u64)
        ensures { self.new ≡ record self.old { entries = entries_without number self.old.entries } }
    {
        // All of them: the message may have been out to this subscriber more than once.
        self.entries.retain(|entry| !(entry.number == number));
    }
}

/// The subscribers of a broker, the oldest first. One is found by its age; the key that it was given makes that quick.
#[derive(Drop)]
pub struct Subscribers {
    alloc: Global,
    slab: Slab<StoredSubscriber>,
    next: u64,
}

impl Model for Subscribers {
    ghost use Rattle.std.specs.Prelude.{List};
    ghost use Rattle.broker_index.specs.Index.{Subscriber};
    ghost use Rattle.broker_index.specs.Slots.{in_order};
    ghost use Rattle.broker_index.specs.Aged.{AreAged};

    ghost Value = { List Subscriber };

    ghost view = { λ s. in_order (λ (x : Subscriber). x.age) s.slab.slots };

    ghost invariant = { λ s. AreAged s.next (in_order (λ (x : Subscriber). x.age) s.slab.slots) };
}

impl Subscribers {
    /// No subscribers. It allocates nothing.
    pub fn new(alloc: Global) -> Subscribers
        ensures { result ≡ [] }
    {
        Subscribers {
            alloc,
            slab: Slab::new(alloc),
            next: 0,
        }
    }

    /// Adds a subscriber, the youngest, and says where it is: its age and its key. The texts of the subscription are
    /// shared.
    ///
    /// # Errors
    /// If an allocation fails, or no age is left; then nothing has changed.
    pub fn push(&mut self, subscription: &Subscription) -> Result<KeyedPlace, AllocError>
        ensures ok { IfOk result (λ p. self.new
            ≡ self.old ++ record { age = p.number; subscription = subscription.now; count = 0; entries = [] } ∷ []) }
        ensures youngest { IfOk result (λ p. All (λ s. s.age < p.number) self.old) }
        ensures err { OnErr result (self.new ≡ self.old) }
    {
        // Reported as out of memory: no broker lives for 2^64 subscriptions.
        if self.next == u64::MAX {
            return Err(AllocError);
        }
        let age = self.next;
        let stored = StoredSubscriber {
            age,
            subscription: subscription.share()?,
            count: 0,
            entries: Vec::new(self.alloc),
        };
        // The age is used up only after this: a call that fails gives none away.
        let key = put_value(&mut self.slab, stored)?;
        self.next = age + 1;
        Ok(KeyedPlace { number: age, key })
    }

    /// The age of the next subscriber, above the ages of all that there are.
    pub fn next_age(&self) -> u64
        ensures { All (λ s. s.age < result) self.now }
    {
        self.next
    }

    /// The subscriber of this age, if there is one. Its key makes that quick; any other is right too.
    pub fn get(&self, age: u64, key: usize) -> Option<&StoredSubscriber>
        ensures { option_copied result ≡ find (has_age age) self.now }
    {
        find_value(&self.slab, age, key)
    }

    /// Says how many deliveries to the subscriber of this age are unanswered, if there is one. It allocates nothing.
    pub fn set_count(&mut self, age: u64, key: usize, count: usize)
        ensures { self.new ≡ map (with_count age count) self.old }
    {
        match find_key(&self.slab, age, key) {
            Some(key) => self.slab[key].set_count(count),
            None => {}
        }
    }

    /// Adds a delivery to the subscriber of this age, if there is one.
    ///
    /// # Errors
    /// If an allocation fails; then nothing has changed.
    pub fn note(&mut self, age: u64, key: usize, entry: Entry) -> Result<(), AllocError>
        ensures ok { OnOk result (self.new ≡ map (with_entry age entry) self.old) }
        ensures err { OnErr result (self.new ≡ self.old) }
    {
        match find_key(&self.slab, age, key) {
            Some(key) => {
                self.slab[key].note(entry)?;
                Ok(())
            }
            None => Ok(()),
        }
    }

    /// Takes the deliveries of a message from the subscriber of this age, if there is one. It allocates nothing.
    pub fn forget(&mut self, age: u64, key: usize, number: u64)
        ensures { self.new ≡ map (without_entries age number) self.old }
    {
        match find_key(&self.slab, age, key) {
            Some(key) => self.slab[key].forget(number),
            None => {}
        }
    }

    /// Takes the subscriber of this age out, if there is one. It allocates nothing.
    pub fn remove(&mut self, age: u64, key: usize)
        ensures { self.new ≡ filter (λ s. not (s.age == age)) self.old }
    {
        take_value(&mut self.slab, age, key);
    }
}
