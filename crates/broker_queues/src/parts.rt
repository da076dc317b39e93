//! The parts of a book, and how a message comes in and is taken out.
//!
//! What is believed are the messages, each with its standing (ready, out and to whom, or gone), the subscribers with
//! their subscriptions and counts, and the last numbers that were given. The rest is kept so that no step searches them
//! all:
//!
//! - exact: how many living messages a queue counts, the subscribers that it lists, and those of a session;
//! - perhaps too much, so that what is found is looked up and tested: the numbers that a queue lists, the deliveries
//!   that a subscriber notes, the destinations that are awake;
//! - perhaps too low, which costs a walk: the number and the age from which a queue looks;
//! - perhaps wrong, which costs a search: keys. With any key an answer is the same.

ghost use Rattle.broker_index.specs.Index.{queue_at};
ghost use Rattle.broker_index.specs.Standing.{fate_of};
ghost use Rattle.broker_queues.specs.Parts.Facts.{queue_of};
ghost use Rattle.broker_queues.specs.Parts.Held.{holding_of};
ghost use Rattle.broker_queues.specs.Parts.Queues.{HasTold};
ghost use Rattle.broker_queues.specs.Parts.Storing.{Forgets, PutsIn, Stores, Sweeps, TakesOut, is_gone};
ghost use Rattle.broker_queues.specs.Parts.Whole.{IsSound};
ghost use Rattle.std.specs.Prelude.{◌-◌, ◌<◌, ◌^◌, ◌≡◌};

use crate::active::Active;
use crate::destinations::{add_number, look_from_told, told_count};
use broker_book::{QueueFault, Sent, Shared};
use broker_index::{Destinations, KeyedPlace, Messages, Sessions, Standing, Subscribers};
use std::alloc::AllocError;

/// The messages, subscribers, destinations and sessions of a book, the destinations where something may be due, and the
/// last numbers that were given to a message and to a delivery.
#[derive(Drop)]
pub struct Parts {
    pub messages: Messages,
    pub subscribers: Subscribers,
    pub destinations: Destinations,
    pub sessions: Sessions,
    pub active: Active,
    pub last: u64,
    pub given: u64,
}

/// Whether a message is gone.
fn is_gone(standing: &Standing) -> bool
    ensures { result ≡ is_gone (fate_of standing.now) }
{
    match standing {
        Standing::Ready | Standing::Out(_) => false,
        Standing::Gone => true,
    }
}

impl Parts {
    /// Puts in a message that is ready, and gives its key.
    ///
    /// # Errors
    /// If an allocation fails; then an idle queue goes at most.
    fn store(
        &mut self,
        sent: &Shared<Sent>,
        told: Option<(usize, u64)>,
    ) -> Result<usize, AllocError>
        requires sound { IsSound (holding_of self.old) }
        requires number { self.old.last < 2 ^ 64 - 1 }
        requires count { (queue_of (queue_at self.old.destinations) sent.now.destination).count < 2 ^ 64 - 1 }
        requires told { HasTold (queue_at self.old.destinations) sent.now.destination told }
        ensures { Stores (holding_of self.old) sent.now (holding_of self.new) result }
    {
        // Room for the name first: a message that nobody is woken for would wait for good.
        self.active.make_room(&self.destinations)?;
        let number = self.last + 1;
        let name = &sent.get().destination;
        let key = self.messages.push(number, sent)?;
        match add_number(
            &mut self.destinations,
            name,
            KeyedPlace { number, key },
            told,
        ) {
            Ok(()) => {
                // Nothing can fail from here on: there is room for the name, or else all wake.
                look_from_told(&mut self.destinations, name, number, told);
                self.active.wake(&self.destinations, name);
                self.last = number;
                Ok(key)
            }
            Err(error) => {
                // The number stays free: `last` is raised only once nothing can fail.
                self.messages.remove(number, key);
                Err(error)
            }
        }
    }

    /// Puts in a message that is ready, and gives its key; its number is the next one.
    ///
    /// # Errors
    /// Where its destination has `full` messages, no number is left, or an allocation fails; then nothing has changed
    /// but that an idle queue goes.
    pub fn put(&mut self, full: usize, sent: &Shared<Sent>) -> Result<usize, QueueFault>
        requires { IsSound (holding_of self.old) }
        ensures { PutsIn full (holding_of self.old) sent.now (holding_of self.new) result }
    {
        // Looked up once: what its queue shows spares the calls after a look, and they find the name by the hint that
        // this leaves.
        let told = self.destinations.seek(&sent.get().destination);
        if told_count(told) >= full {
            return Err(QueueFault::QueueFull);
        }
        if self.last == u64::MAX {
            return Err(QueueFault::TooMany);
        }
        let key = self.store(sent, told)?;
        Ok(key)
    }

    /// Takes out a message that is gone, and its destination with it if nothing goes there any more and none listens.
    /// Any other message stays. It allocates nothing.
    pub fn purge(&mut self, number: u64, key: usize)
        ensures sweeps { Sweeps (holding_of self.old) (holding_of self.new) }
        ensures taken { TakesOut (holding_of self.old) number (holding_of self.new) }
        ensures rest { IsSound (holding_of self.old) → Forgets (holding_of self.old) number (holding_of self.new) }
        ensures subscribers { self.new.subscribers ≡ self.old.subscribers }
    {
        let Some(stored) = self.messages.get(number, key) else {
            return;
        };
        if !is_gone(stored.standing()) {
            return;
        }
        let name = &stored.sent().get().destination;
        // The queue first: the name that it is found by is the message's own.
        self.destinations.take_number(name, number);
        self.messages.remove(number, key);
    }
}
