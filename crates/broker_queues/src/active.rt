//! The destinations where something may be due.
//!
//! All of it is a hint: a name here says only that its destination is to be looked at. What holds is one thing, that a
//! destination is awake where a ready message and a subscriber with credit are.
//!
//! Answers and the end of a session wake destinations, and must not allocate. So a name is shared with its queue. The
//! room to note it is made by the calls that may open a queue, `put` and `subscribe`, before they change anything: they
//! may fail, out of memory.

ghost use Rattle.std.specs.Prelude.{◌≡◌, ◌<◌, ◌+◌, true, length, remove, vec_capacity, vec_len, OnOk};
ghost use Rattle.std.specs.List.{list_any};
ghost use Rattle.std.specs.Str.{bytes_eq};
ghost use Rattle.broker_queues.specs.Parts.Queues.{awake_in};
ghost use Rattle.broker_queues.specs.Parts.Whole.{Wakes};

use broker_book::Shared;
use broker_index::Destinations;
use std::alloc::{AllocError, Global};
use stomp_session::Text;

/// The destinations where something may be due: those of these names, or all where a name could not be noted. That never
/// comes up, see `wake`, but no contract rules it out.
#[derive(Drop)]
pub struct Active {
    pub alloc: Global,
    // With copies, dropping a session with a message out on each of 64 queues allocated 68 times.
    pub names: Vec<Shared<Text>>,
    pub all: bool,
}

/// Whether a name is among names.
fn has(names: &[Shared<Text>], name: &Text) -> bool
    ensures { result ≡ list_any (λ n. bytes_eq n name.now) names.now }
{
    names.iter().any(|n| n.get().same(name))
}

impl Active {
    /// Whether something may be due at a destination.
    pub fn is_awake(&self, name: &Text) -> bool
        ensures { result ≡ awake_in self.now.all self.now.names.items name.now }
    {
        self.all || has(&self.names, name)
    }

    /// Makes room to note the names of these destinations, and of one more.
    ///
    /// From then on there is room for each destination that sleeps, until a second queue is opened: a destination that
    /// wakes takes one place, and returns it as it falls asleep.
    ///
    /// # Errors
    /// If an allocation fails; then nothing has changed.
    pub fn make_room(&mut self, destinations: &Destinations) -> Result<(), AllocError>
        ensures room { OnOk result (vec_len self.new.names + length destinations.now < vec_capacity self.new.names) }
        ensures names { self.new.names.items ≡ self.old.names.items }
        ensures all { self.new.all ≡ self.old.all }
    {
        let Some(count) = destinations.len().checked_add(1) else {
            return Err(AllocError);
        };
        self.names.reserve(count)?;
        Ok(())
    }

    /// Notes the name of a destination, which is shared with its queue. It returns whether there was such a queue, and
    /// room.
    fn note(&mut self, destinations: &Destinations, name: &Text) -> bool
        ensures wakes { Wakes (awake_in self.old.all self.old.names.items)
            (awake_in self.new.all self.new.names.items) }
        ensures awake { result ≡ true → awake_in self.new.all self.new.names.items name.now ≡ true }
    {
        match destinations.shared_name(name) {
            Ok(Some(shared)) => self.names.push(shared).is_ok(),
            Ok(None) | Err(_) => false,
        }
    }

    /// Nothing is due at the destination at a place. The others keep their order.
    pub fn sleep(&mut self, index: usize)
        requires { index < length self.old.names.items }
        ensures names { self.new.names.items ≡ remove self.old.names.items index }
        ensures all { self.new.all ≡ self.old.all }
    {
        drop(self.names.remove(index));
    }

    /// From now on something may be due at a destination. It allocates nothing, as long as `make_room` comes before
    /// each queue that is opened.
    pub fn wake(&mut self, destinations: &Destinations, name: &Text)
        ensures wakes { Wakes (awake_in self.old.all self.old.names.items)
            (awake_in self.new.all self.new.names.items) }
        ensures awake { awake_in self.new.all self.new.names.items name.now ≡ true }
    {
        // The parts always have a queue of this name, and room for it. No contract says so here: without them a message
        // would wait for good, so all destinations are looked at then.
        if !self.is_awake(name) && !self.note(destinations, name) {
            self.all = true;
        }
    }
}
