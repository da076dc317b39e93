//! The destinations of a broker.

ghost use Rattle.std.specs.Prelude.{◌≡◌, ◌≢◌, ◌<◌, ◌^◌, ◌-◌, ℕ, [], true, false, length, map, All, Some, IfNone, IfOk, IfSome};
ghost use Rattle.std.specs.Prelude.{OnErr, OnOk};
ghost use Rattle.std.specs.Option.{option_copied, option_map, option_and_then, ForSome};
ghost use Rattle.slab.specs.Slab.{get};
ghost use Rattle.broker_index.specs.Index.{Sets, is_idle, opened, queue_at, unless_idle, with_number};
ghost use Rattle.broker_index.specs.Index.{counting, counting_fewer, ready_from, with_counted};
ghost use Rattle.broker_index.specs.Index.{with_subscriber, without_subscriber, taken_counted, taken_from};
ghost use Rattle.broker_index.specs.Index.{taken_number};
ghost use Rattle.broker_index.specs.Named.{IsIndexed, queues_in};
ghost use Rattle.broker_index.specs.declared.destinations.Destination.{Destination};

use crate::KeyedPlace;
use crate::queue::StoredQueue;
use broker_book::Shared;
use slab::Slab;
use std::alloc::{AllocError, Global};
use std::collections::BTreeMap;
use std::marker::Model;
use stomp_session::Text;

/// A destination: its name, which is shared with whoever notes it, and its queue.
#[derive(Drop)]
struct Destination {
    name: Shared<Text>,
    queue: StoredQueue,
}

/// The queues of a broker by the names of their destinations. A queue lies in a slab under the key that the map tells
/// for its name; `last` is the key that was last looked up, a hint that saves the map's search where the same name
/// comes again.
#[derive(Drop)]
pub struct Destinations {
    alloc: Global,
    slab: Slab<Destination>,
    // An ordered map: clients choose the names, and could make a hash with a fixed seed collide.
    keys: BTreeMap<String, usize>,
    last: usize,
}

impl Model for Destinations {
    ghost use Rattle.std.specs.Prelude.{ℕ, List};
    ghost use Rattle.broker_index.specs.Index.{Queue};
    ghost use Rattle.broker_index.specs.Named.{IsIndexed, queues_in};

    ghost Value = { List (List ℕ × Queue) };

    ghost view = { λ d. queues_in d.slab.slots };

    ghost invariant = { λ d. IsIndexed d.slab.slots d.keys };
}

/// Whether the queue of this name is at a key.
fn is_at(slab: &Slab<Destination>, key: usize, name: &Text) -> bool
    ensures yes { result ≡ true → (d : Destination) × (get slab.now key ≡ Some d) × (d.name ≡ name.now) }
    ensures no { result ≡ false → (d : Destination) → get slab.now key ≡ Some d → d.name ≢ name.now }
{
    match slab.get(key) {
        Some(destination) => destination.name.get().same(name),
        None => false,
    }
}

/// The key of the queue of this name as the map tells it. It is seldom asked and long: it stands apart, so that a look at
/// the hint, at each call, saves no registers for it.
#[inline(never)]
fn search_queue(
    slab: &Slab<Destination>,
    keys: &BTreeMap<String, usize>,
    name: &Text,
) -> Option<usize>
    requires { IsIndexed slab.now.slots keys.now }
    ensures found { IfSome result (λ key. (d : Destination) × (get slab.now key ≡ Some d) × (d.name ≡ name.now)) }
    ensures absent { IfNone result ((key : ℕ) (d : Destination) → get slab.now key ≡ Some d → d.name ≢ name.now) }
{
    match keys.get(name.as_str()) {
        Some(key) => Some(*key),
        None => None,
    }
}

/// The key of the queue of this name: the hint, if that is it, or else the one that the map tells.
fn find_queue(
    slab: &Slab<Destination>,
    keys: &BTreeMap<String, usize>,
    hint: usize,
    name: &Text,
) -> Option<usize>
    requires { IsIndexed slab.now.slots keys.now }
    ensures found { IfSome result (λ key. (d : Destination) × (get slab.now key ≡ Some d) × (d.name ≡ name.now)) }
    ensures absent { IfNone result ((key : ℕ) (d : Destination) → get slab.now key ≡ Some d → d.name ≢ name.now) }
{
    // The hint is tested by the name itself: a wrong one costs a look, and no other answer.
    if is_at(slab, hint, name) {
        return Some(hint);
    }
    search_queue(slab, keys, name)
}

/// Takes the queue of this name out, which is at this key, if it is idle.
fn close_at(
    slab: &mut Slab<Destination>,
    keys: &mut BTreeMap<String, usize>,
    key: usize,
    name: &Text,
)
    requires indexed { IsIndexed slab.old.slots keys.old }
    requires there { (d : Destination) × (get slab.old key ≡ Some d) × (d.name ≡ name.now) }
    ensures indexed { IsIndexed slab.new.slots keys.new }
    ensures closed { Sets (queue_at (queues_in slab.old.slots)) (queue_at (queues_in slab.new.slots)) name.now
        (option_and_then unless_idle (queue_at (queues_in slab.old.slots) name.now)) }
{
    if slab[key].queue.is_idle() {
        // The key may be given to another queue: a hint that still has it is tested when it's used.
        drop(slab.try_remove(key));
        drop(keys.remove(name.as_str()));
    }
}

/// The names of all queues, each of them shared.
fn shared_names(alloc: Global, slab: &Slab<Destination>) -> Result<Vec<Shared<Text>>, AllocError>
    ensures { IfOk result (λ names. names.items ≡ map (λ e. e.0) (queues_in slab.now.slots)) }
{
    let mut names = Vec::new(alloc);
    for (_, destination) in slab.iter() {
        names.push(destination.name.share()?)?;
    }
    Ok(names)
}

impl Destinations {
    /// No queues. It allocates nothing.
    pub fn new(alloc: Global) -> Destinations
        ensures { result ≡ [] }
    {
        Destinations {
            alloc,
            slab: Slab::new(alloc),
            keys: BTreeMap::new(alloc),
            // No queue is there yet, so that any key would be a wrong hint.
            last: 0,
        }
    }

    /// The queue of this name, if there is one.
    pub fn get(&self, name: &Text) -> Option<&StoredQueue>
        ensures { option_copied result ≡ queue_at self.now name.now }
    {
        match find_queue(&self.slab, &self.keys, self.last, name) {
            // The hint stays as it is: a look changes nothing.
            Some(key) => Some(&self.slab[key].queue),
            None => None,
        }
    }

    /// What the queue of this name counts, and the number from which it is ready, if there is one. Nothing changes, but
    /// that the next calls with this name find it at once.
    pub fn seek(&mut self, name: &Text) -> Option<(usize, u64)>
        ensures same { self.new ≡ self.old }
        ensures told { result ≡ option_map (λ q. (q.count, q.ready_from)) (queue_at self.old name.now) }
    {
        match find_queue(&self.slab, &self.keys, self.last, name) {
            Some(key) => {
                self.last = key;
                let queue = &self.slab[key].queue;
                Some((queue.count(), queue.ready_from()))
            }
            None => None,
        }
    }

    /// How many queues there are.
    pub fn len(&self) -> usize
        ensures { result ≡ length self.now }
    {
        self.slab.len()
    }

    /// The name of the queue of this name, if there is one: shared, so that it allocates nothing.
    ///
    /// # Errors
    /// Where the name has too many owners to count.
    pub fn shared_name(&self, name: &Text) -> Result<Option<Shared<Text>>, AllocError>
        ensures { IfOk result (λ shared. shared ≡ option_map (λ q. name.now) (queue_at self.now name.now)) }
    {
        match find_queue(&self.slab, &self.keys, self.last, name) {
            Some(key) => {
                let shared = self.slab[key].name.share()?;
                Ok(Some(shared))
            }
            None => Ok(None),
        }
    }

    /// The names of all queues, each of them shared.
    ///
    /// # Errors
    /// Where there is no room for so many.
    pub fn names(&self) -> Result<Vec<Shared<Text>>, AllocError>
        ensures { IfOk result (λ names. names.items ≡ map (λ e. e.0) self.now) }
    {
        let names = shared_names(self.alloc, &self.slab)?;
        Ok(names)
    }

    /// Sees to it that there is a queue of this name: an empty one, where there was none.
    ///
    /// # Errors
    /// If an allocation fails; then nothing has changed.
    pub fn open(&mut self, name: &Text) -> Result<(), AllocError>
        ensures ok { OnOk result (Sets (queue_at self.old) (queue_at self.new) name.now
            (Some (opened (queue_at self.old name.now)))) }
        ensures err { OnErr result (self.new ≡ self.old) }
    {
        match find_queue(&self.slab, &self.keys, self.last, name) {
            Some(key) => {
                self.last = key;
                Ok(())
            }
            None => self.add(name),
        }
    }

    /// Adds an empty queue of a name that none has.
    fn add(&mut self, name: &Text) -> Result<(), AllocError>
        requires { queue_at self.old name.now ≡ None }
        ensures ok { OnOk result (Sets (queue_at self.old) (queue_at self.new) name.now
            (Some (opened (queue_at self.old name.now)))) }
        ensures err { OnErr result (self.new ≡ self.old) }
    {
        let shared = Shared::new(self.alloc, name.copy(self.alloc)?)?;
        let destination = Destination {
            name: shared,
            queue: StoredQueue::new(self.alloc),
        };
        // A copy for the map alone: the other is shared with whoever notes the queue.
        let text = String::from_str(self.alloc, name.as_str())?;
        // Room in the slab before the map has the name: the map must not name a queue that isn't there.
        self.slab.reserve(1)?;
        self.keys.insert(text, self.slab.vacant_key())?;
        self.last = self.slab.insert_reserved(destination);
        Ok(())
    }

    /// Adds a message after all others of the queue of this name, if there is one.
    ///
    /// # Errors
    /// If an allocation fails; then nothing has changed.
    pub fn push_number(&mut self, name: &Text, place: KeyedPlace) -> Result<(), AllocError>
        requires { ForSome (queue_at self.old name.now) (λ q. All (λ p. p.number < place.number) q.numbers) }
        ensures ok { OnOk result (Sets (queue_at self.old) (queue_at self.new) name.now
            (option_map (with_number place) (queue_at self.old name.now))) }
        ensures err { OnErr result (self.new ≡ self.old) }
    {
        match find_queue(&self.slab, &self.keys, self.last, name) {
            Some(key) => {
                self.last = key;
                self.slab[key].queue.push_number(place)
            }
            None => Ok(()),
        }
    }

    /// Says how many messages of the queue of this name aren't gone, if there is one. It allocates nothing.
    pub fn set_count(&mut self, name: &Text, count: usize)
        ensures { Sets (queue_at self.old) (queue_at self.new) name.now (option_map (counting count)
            (queue_at self.old name.now)) }
    {
        match find_queue(&self.slab, &self.keys, self.last, name) {
            Some(key) => {
                self.last = key;
                self.slab[key].queue.set_count(count);
            }
            None => {}
        }
    }

    /// Adds a message after all others of the queue of this name, if there is one, and counts it.
    ///
    /// # Errors
    /// If an allocation fails; then nothing has changed.
    pub fn push_counted(&mut self, name: &Text, place: KeyedPlace) -> Result<(), AllocError>
        requires above { ForSome (queue_at self.old name.now) (λ q. All (λ p. p.number < place.number) q.numbers) }
        requires room { ForSome (queue_at self.old name.now) (λ q. q.count < 2 ^ 64 - 1) }
        ensures ok { OnOk result (Sets (queue_at self.old) (queue_at self.new) name.now
            (option_map (with_counted place) (queue_at self.old name.now))) }
        ensures err { OnErr result (self.new ≡ self.old) }
    {
        match find_queue(&self.slab, &self.keys, self.last, name) {
            Some(key) => {
                self.last = key;
                self.slab[key].queue.push_counted(place)
            }
            None => Ok(()),
        }
    }

    /// Counts one message fewer of the queue of this name that isn't gone, if there is one. It allocates nothing.
    pub fn lower_count(&mut self, name: &Text)
        ensures { Sets (queue_at self.old) (queue_at self.new) name.now (option_map counting_fewer
            (queue_at self.old name.now)) }
    {
        match find_queue(&self.slab, &self.keys, self.last, name) {
            Some(key) => {
                self.last = key;
                self.slab[key].queue.lower_count();
            }
            None => {}
        }
    }

    /// Says of the queue of this name, if there is one, that no message before this number is ready. It allocates
    /// nothing.
    pub fn set_ready_from(&mut self, name: &Text, number: u64)
        ensures { Sets (queue_at self.old) (queue_at self.new) name.now (option_map (ready_from number)
            (queue_at self.old name.now)) }
    {
        match find_queue(&self.slab, &self.keys, self.last, name) {
            Some(key) => {
                self.last = key;
                self.slab[key].queue.set_ready_from(number);
            }
            None => {}
        }
    }

    /// Adds a subscriber, the youngest, to the queue of this name, if there is one.
    ///
    /// # Errors
    /// If an allocation fails; then nothing has changed.
    pub fn push_subscriber(&mut self, name: &Text, place: KeyedPlace) -> Result<(), AllocError>
        requires { ForSome (queue_at self.old name.now) (λ q. All (λ p. p.number < place.number) q.subscribers) }
        ensures ok { OnOk result (Sets (queue_at self.old) (queue_at self.new) name.now
            (option_map (with_subscriber place) (queue_at self.old name.now))) }
        ensures err { OnErr result (self.new ≡ self.old) }
    {
        match find_queue(&self.slab, &self.keys, self.last, name) {
            Some(key) => {
                self.last = key;
                self.slab[key].queue.push_subscriber(place)
            }
            None => Ok(()),
        }
    }

    /// Takes a subscriber from the queue of this name, if there is one. It allocates nothing.
    pub fn remove_subscriber(&mut self, name: &Text, age: u64)
        ensures { Sets (queue_at self.old) (queue_at self.new) name.now (option_map (without_subscriber age)
            (queue_at self.old name.now)) }
    {
        match find_queue(&self.slab, &self.keys, self.last, name) {
            Some(key) => {
                self.last = key;
                self.slab[key].queue.remove_subscriber(age);
            }
            None => {}
        }
    }

    /// Says of the queue of this name, if there is one, that no subscriber before this age has credit. It allocates
    /// nothing.
    pub fn set_taker_from(&mut self, name: &Text, age: u64)
        ensures { Sets (queue_at self.old) (queue_at self.new) name.now (option_map (taken_from age)
            (queue_at self.old name.now)) }
    {
        match find_queue(&self.slab, &self.keys, self.last, name) {
            Some(key) => {
                self.last = key;
                self.slab[key].queue.set_taker_from(age);
            }
            None => {}
        }
    }

    /// Takes the queue of this name out, if there is one and it is idle. It allocates nothing.
    pub fn close(&mut self, name: &Text)
        ensures { Sets (queue_at self.old) (queue_at self.new) name.now (option_and_then unless_idle
            (queue_at self.old name.now)) }
    {
        match find_queue(&self.slab, &self.keys, self.last, name) {
            // The hint isn't set: after this the queue may be gone.
            Some(key) => close_at(&mut self.slab, &mut self.keys, key, name),
            None => {}
        }
    }

    /// Takes a message from the queue of this name, if there is one, and then the queue out if it is idle. It allocates
    /// nothing.
    pub fn take_number(&mut self, name: &Text, number: u64)
        ensures { Sets (queue_at self.old) (queue_at self.new) name.now
            (option_and_then (taken_number number) (queue_at self.old name.now)) }
    {
        match find_queue(&self.slab, &self.keys, self.last, name) {
            Some(key) => {
                self.last = key;
                self.slab[key].queue.remove_number(number);
                close_at(&mut self.slab, &mut self.keys, key, name);
            }
            None => {}
        }
    }

    /// Takes a message that is counted from the queue of this name, if there is one, and counts it no more; and then the
    /// queue out if it is idle. It allocates nothing.
    pub fn take_counted(&mut self, name: &Text, number: u64)
        ensures { Sets (queue_at self.old) (queue_at self.new) name.now
            (option_and_then (taken_counted number) (queue_at self.old name.now)) }
    {
        match find_queue(&self.slab, &self.keys, self.last, name) {
            Some(key) => {
                self.last = key;
                // Before the look whether the queue is idle: this may have been its last message.
                self.slab[key].queue.remove_counted(number);
                close_at(&mut self.slab, &mut self.keys, key, name);
            }
            None => {}
        }
    }
}
