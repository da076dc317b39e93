//! The queues of destinations: what comes to them, and what they have next.
//!
//! A queue counts its living messages and lists its subscribers exactly. The numbers that it lists may be of messages
//! that are out or gone: what is believed is the standing that the message itself has. The number and the age from
//! which it looks are hints that may be too low, and never too high: what is too low costs a walk, and what is too high
//! would pass over a message or a subscriber.

ghost use Rattle.broker_book.specs.Books.{is_ready_fate};
ghost use Rattle.broker_index.specs.Index.{Sets, opened, queue_at, with_subscriber};
ghost use Rattle.broker_index.specs.Standing.{fate_of};
ghost use Rattle.broker_queues.specs.Parts.Dealings.{FirstOf, LooksOn, number_or, opens, takes_more};
ghost use Rattle.broker_queues.specs.Parts.Facts.{may_have, queue_of};
ghost use Rattle.broker_queues.specs.Parts.Fates.{passes};
ghost use Rattle.broker_queues.specs.Parts.Queues.{CountsFewer, Credits, Frees, LooksFrom, Marks, TakesFrom, awake_in};
ghost use Rattle.broker_queues.specs.Parts.Queues.{HasTold, next_of, told_count, told_from};
ghost use Rattle.broker_queues.specs.Parts.Storing.{Becomes, Closes, adding};
ghost use Rattle.std.specs.Prelude.{◌&&◌, ◌-◌, ◌<◌, ◌==◌, ◌^◌, ◌≡◌, ◌≤◌, All, OnErr, OnOk, Some, is_some, true};

use crate::active::Active;
use base::limits::MAX_UNANSWERED;
use broker_index::{
    Destinations, KeyedPlace, Messages, Standing, StoredQueue, StoredSubscriber, Subscribers,
};
use std::alloc::AllocError;
use stomp_session::Text;

/// The number from which a destination's queue looks for a ready message; 0 where there is none.
pub fn ready_from(destinations: &Destinations, name: &Text) -> u64
    ensures { result ≡ (queue_of (queue_at destinations.now) name.now).ready_from }
{
    match destinations.get(name) {
        Some(queue) => queue.ready_from(),
        None => 0,
    }
}

/// The age from which a destination's queue looks for a taker; 0 where there is none.
fn taker_from(destinations: &Destinations, name: &Text) -> u64
    ensures { result ≡ (queue_of (queue_at destinations.now) name.now).taker_from }
{
    match destinations.get(name) {
        Some(queue) => queue.taker_from(),
        None => 0,
    }
}

/// How many living messages a destination has by what its queue told; none where there is no queue.
pub fn told_count(told: Option<(usize, u64)>) -> usize
    ensures { result ≡ told_count told }
{
    match told {
        Some((count, _)) => count,
        None => 0,
    }
}

/// Whether a destination looks for ready messages from this number on, or from an earlier one, by what its queue told.
fn told_from(told: Option<(usize, u64)>, number: u64) -> bool
    ensures { result ≡ told_from told number }
{
    match told {
        Some((_, from)) => from <= number,
        None => true,
    }
}

/// Whether a destination lists a message from where it looks for a ready one.
fn lists_more(destinations: &Destinations, name: &Text) -> bool
    ensures { result ≡ is_some (next_of (queue_of (queue_at destinations.now) name.now)) }
{
    match destinations.get(name) {
        Some(queue) => queue.first_number_from(queue.ready_from()).is_some(),
        None => false,
    }
}

/// How many living messages a destination has.
pub fn count(destinations: &Destinations, name: &Text) -> usize
    ensures { result ≡ (queue_of (queue_at destinations.now) name.now).count }
{
    match destinations.get(name) {
        Some(queue) => queue.count(),
        None => 0,
    }
}

/// Sees to it that a destination's queue looks for ready messages from this number on, or from an earlier one.
pub fn look_from(destinations: &mut Destinations, name: &Text, number: u64)
    ensures { LooksFrom (queue_at destinations.old) (queue_at destinations.new) name.now number }
{
    if number < ready_from(destinations, name) {
        destinations.set_ready_from(name, number);
    }
}

/// Sees to it that a destination's queue looks from this number on, as `look_from`, by what the queue told before.
pub fn look_from_told(
    destinations: &mut Destinations,
    name: &Text,
    number: u64,
    told: Option<(usize, u64)>,
)
    requires { told_from told number ≡ true → (queue_of (queue_at destinations.old) name.now).ready_from ≤ number }
    ensures { LooksFrom (queue_at destinations.old) (queue_at destinations.new) name.now number }
{
    if told_from(told, number) {
        return;
    }
    look_from(destinations, name, number);
}

/// Sees to it that a destination's queue looks for takers from this age on, or from a lower one.
fn take_from(destinations: &mut Destinations, name: &Text, age: u64)
    ensures { TakesFrom (queue_at destinations.old) (queue_at destinations.new) name.now age }
{
    if age < taker_from(destinations, name) {
        destinations.set_taker_from(name, age);
    }
}

/// Counts one living message of a destination fewer.
pub fn count_fewer(destinations: &mut Destinations, name: &Text)
    ensures { CountsFewer (queue_at destinations.old) (queue_at destinations.new) name.now }
{
    destinations.lower_count(name);
}

/// Tells a message's destination that the message is ready again, or else that it has one living message fewer.
pub fn mark(
    destinations: &mut Destinations,
    active: &mut Active,
    name: &Text,
    number: u64,
    again: bool,
)
    ensures { Marks again name.now number (queue_at destinations.old) (queue_at destinations.new)
        (awake_in active.old.all active.old.names.items) (awake_in active.new.all active.new.names.items) }
{
    if again {
        // In its old place the message may be before where the queue looks by now, and would be passed over.
        look_from(destinations, name, number);
        active.wake(destinations, name);
    } else {
        count_fewer(destinations, name);
    }
}

/// Tells a subscriber's destination that the subscriber has credit.
pub fn free(destinations: &mut Destinations, active: &mut Active, name: &Text, age: u64)
    ensures { Frees name.now age (queue_at destinations.old) (queue_at destinations.new)
        (awake_in active.old.all active.old.names.items) (awake_in active.new.all active.new.names.items) }
{
    take_from(destinations, name, age);
    active.wake(destinations, name);
}

/// Tells a subscriber's destination that the subscriber has credit. It wakes only where it lists a message from where it
/// looks for one, since nothing else can be ready.
pub fn credit(destinations: &mut Destinations, active: &mut Active, name: &Text, age: u64)
    ensures { Credits name.now age (queue_at destinations.old) (queue_at destinations.new)
        (awake_in active.old.all active.old.names.items) (awake_in active.new.all active.new.names.items) }
{
    // Before the change, which leaves what it tells: so the two look the name up once.
    let is_awake = lists_more(destinations, name);
    take_from(destinations, name, age);
    // When each ACK woke its queue, a deal searched it in vain.
    if is_awake {
        active.wake(destinations, name);
    }
}

/// Sees to it that a destination has a queue, where it isn't told that it has.
///
/// # Errors
/// If an allocation fails; then nothing has changed.
fn open_told(
    destinations: &mut Destinations,
    name: &Text,
    told: Option<(usize, u64)>,
) -> Result<(), AllocError>
    requires { HasTold (queue_at destinations.old) name.now told }
    ensures ok { OnOk result (Sets (queue_at destinations.old) (queue_at destinations.new) name.now
        (Some (opened (queue_at destinations.old name.now)))) }
    ensures err { OnErr result (destinations.new ≡ destinations.old) }
{
    if told.is_some() {
        return Ok(());
    }
    destinations.open(name)
}

/// Adds a living message to a destination, after all others; where there was no queue, it has one then.
///
/// # Errors
/// If an allocation fails; then an idle queue goes at most.
pub fn add_number(
    destinations: &mut Destinations,
    name: &Text,
    place: KeyedPlace,
    told: Option<(usize, u64)>,
) -> Result<(), AllocError>
    requires above { All (λ p. p.number < place.number) (queue_of (queue_at destinations.old) name.now).numbers }
    requires room { (queue_of (queue_at destinations.old) name.now).count < 2 ^ 64 - 1 }
    requires told { HasTold (queue_at destinations.old) name.now told }
    ensures ok { OnOk result (Becomes (adding place) (queue_at destinations.old) (queue_at destinations.new) name.now) }
    ensures err { OnErr result (Closes (queue_at destinations.old) (queue_at destinations.new)) }
{
    open_told(destinations, name, told)?;
    // A queue that was opened in vain is closed again, or names that nothing goes to would pile up.
    match destinations.push_counted(name, place) {
        Ok(()) => Ok(()),
        Err(error) => {
            destinations.close(name);
            Err(error)
        }
    }
}

/// Adds a subscriber to a destination, the youngest; where there was no queue, it has one then.
///
/// # Errors
/// If an allocation fails; then an idle queue goes at most.
pub fn add_subscriber(
    destinations: &mut Destinations,
    name: &Text,
    place: KeyedPlace,
) -> Result<(), AllocError>
    requires { All (λ p. p.number < place.number) (queue_of (queue_at destinations.old) name.now).subscribers }
    ensures ok { OnOk result (Becomes (with_subscriber place) (queue_at destinations.old) (queue_at destinations.new)
        name.now) }
    ensures err { OnErr result (Closes (queue_at destinations.old) (queue_at destinations.new)) }
{
    destinations.open(name)?;
    match destinations.push_subscriber(name, place) {
        Ok(()) => Ok(()),
        Err(error) => {
            destinations.close(name);
            Err(error)
        }
    }
}

/// Whether a message that is there is ready.
fn is_ready(standing: &Standing) -> bool
    ensures { result ≡ passes is_ready_fate (fate_of standing.now) }
{
    match standing {
        Standing::Ready => true,
        Standing::Out(_) | Standing::Gone => false,
    }
}

/// The number of a place, or this one where there is none.
pub fn number_or(place: Option<KeyedPlace>, number: u64) -> u64
    ensures { result ≡ number_or place number }
{
    match place {
        Some(place) => place.number,
        None => number,
    }
}

/// Whether the message at a place is ready and goes to a destination.
fn is_open_at(messages: &Messages, place: KeyedPlace, name: &Text) -> bool
    ensures { result ≡ opens messages.now name.now place.number }
{
    // A number that a queue lists is a hint: the message itself says what it is and where it goes.
    match messages.get(place.number, place.key) {
        Some(stored) => is_ready(stored.standing()) && stored.sent().get().destination.same(name),
        None => false,
    }
}

/// Whether a subscriber may take one message more.
fn may_take_more(subscriber: &StoredSubscriber, given: u64) -> bool
    ensures { result ≡ may_have given subscriber.now }
{
    // Mode `auto` comes first: it gives no answers, so it needs neither credit nor a delivery's number.
    subscriber.subscription().mode.is_auto()
        || (subscriber.count() < MAX_UNANSWERED && given < u64::MAX)
}

/// Whether the subscriber at a place listens on a destination and may take one message more.
fn is_free_at(subscribers: &Subscribers, given: u64, place: KeyedPlace, name: &Text) -> bool
    ensures { result ≡ takes_more subscribers.now given name.now place.number }
{
    match subscribers.get(place.number, place.key) {
        Some(subscriber) => {
            subscriber.subscription().destination.get().same(name)
                && may_take_more(subscriber, given)
        }
        None => false,
    }
}

/// The first ready message of a destination among those up to the last number, from where its queue looks for one.
fn first_ready(
    messages: &Messages,
    queue: &StoredQueue,
    last: u64,
    name: &Text,
) -> Option<KeyedPlace>
    ensures { FirstOf (opens messages.now name.now) queue.now.numbers queue.now.ready_from last result }
{
    let mut from = queue.ready_from();
    while let Some(place) = queue.first_number_from(from) {
        if is_open_at(messages, place, name) {
            return Some(place);
        }
        // Behind the look, since the message of the last number counts too; before the sum, which can't wrap then.
        if place.number >= last {
            return None;
        }
        from = place.number + 1;
    }
    None
}

/// The oldest subscriber of a destination that may take one message more, up to the last age, from where its queue
/// looks for one.
fn first_taker(
    subscribers: &Subscribers,
    queue: &StoredQueue,
    given: u64,
    last: u64,
    name: &Text,
) -> Option<KeyedPlace>
    ensures { FirstOf (takes_more subscribers.now given name.now) queue.now.subscribers queue.now.taker_from last
        result }
{
    let mut from = queue.taker_from();
    while let Some(place) = queue.first_subscriber_from(from) {
        if is_free_at(subscribers, given, place, name) {
            return Some(place);
        }
        if place.number >= last {
            return None;
        }
        from = place.number + 1;
    }
    None
}

/// The first ready message of a destination among those up to the last number, from where its queue looks for one.
pub fn next_ready(
    messages: &Messages,
    destinations: &Destinations,
    last: u64,
    name: &Text,
) -> Option<KeyedPlace>
    ensures { FirstOf (opens messages.now name.now) (queue_of (queue_at destinations.now) name.now).numbers
        (queue_of (queue_at destinations.now) name.now).ready_from last result }
{
    match destinations.get(name) {
        Some(queue) => first_ready(messages, queue, last, name),
        None => None,
    }
}

/// The oldest subscriber of a destination that may take one message more, up to the last age, from where its queue
/// looks for one.
pub fn next_taker(
    subscribers: &Subscribers,
    destinations: &Destinations,
    given: u64,
    last: u64,
    name: &Text,
) -> Option<KeyedPlace>
    ensures { FirstOf (takes_more subscribers.now given name.now) (queue_of (queue_at destinations.now) name.now).subscribers
        (queue_of (queue_at destinations.now) name.now).taker_from last result }
{
    match destinations.get(name) {
        Some(queue) => first_taker(subscribers, queue, given, last, name),
        None => None,
    }
}

/// Whether a destination looks for ready messages from this number on, and for takers from this age on.
fn looks_on(destinations: &Destinations, name: &Text, ready: u64, taker: u64) -> bool
    ensures { result ≡ ((queue_of (queue_at destinations.now) name.now).ready_from == ready
        && (queue_of (queue_at destinations.now) name.now).taker_from == taker) }
{
    ready_from(destinations, name) == ready && taker_from(destinations, name) == taker
}

/// A destination's queue looks for ready messages from this number on, and for takers from this age on.
pub fn look_on(destinations: &mut Destinations, name: &Text, ready: u64, taker: u64)
    ensures { LooksOn (queue_at destinations.old) (queue_at destinations.new) name.now ready taker }
{
    // Mostly it does so already: as nothing changes before, all that is asked of it takes one search for its name.
    if looks_on(destinations, name, ready, taker) {
        return;
    }
    destinations.set_ready_from(name, ready);
    destinations.set_taker_from(name, taker);
}
