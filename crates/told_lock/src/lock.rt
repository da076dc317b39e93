//! The lock, and its steps.

ghost use Rattle.std.specs.Prelude.{◌≡◌, ◌∷◌, [], Some, IfOk, IfErr, MatchOption};
ghost use Rattle.crossbeam_channel.specs.Ends.{sends_on, receives_on, ruled_capacity};
ghost use Rattle.crossbeam_channel.specs.Fifo.{Pushes, Learns};
ghost use Rattle.told_lock.specs.declared.view.Stage.TheVariants.{Open};
ghost use Rattle.told_lock.specs.Rule.{Kept, Took, Entered, Saw, Stayed, MaySee, MayStay, IsChief, Holds, Sums};
ghost use Rattle.told_lock.specs.Rule.{waiting, next_of, both_of, token_of, entered, witness_of, shown_of};

use crate::Lore;
use crate::view::{Begins, Compares, Enters, Known, Law, Parts, Sees, Shows, Stays, Takes};
use crossbeam_channel::protocol::{Lesson, Outcome};
use crossbeam_channel::{Pass, RuledReceiver, RuledSender, bounded_with};
use std::alloc::Global;
use std::sync::Wait;
use std::thread;

/// How often a thread asks for the value before it sleeps until it's returned.
// Sixteen threads got 0.65 of one thread's throughput with 64 tries, 0.38 with none, 0.56 with 16 and 0.87 with 512.
// There are no more, since each try calls the system too, in vain while a file is synced.
const TRIES: u32 = 64;

/// What a token of the lock carries: it allocates nothing, and contracts see what the token knows.
pub type Key<T> = Pass<T, Known<T>>;

// Not the kit's `Mutex`: that promises of its value only what the value's type says, and here each token has to
// know what it saw.
/// A lock round a value. It's a channel of room for one, which carries the value: who receives it has the lock, and
/// returns it by sending it.
#[derive(Drop)]
pub struct Lock<T: Drop, L: Lore<T>> {
    to: RuledSender<T, Known<T>, Law<T, L>>,
    from: RuledReceiver<T, Known<T>, Law<T, L>>,
    // Both ends are of one channel.
    ghost one: { receives_on from ≡ sends_on to },
    // Room for one: while the channel is empty, someone holds the value.
    ghost room: { ruled_capacity (sends_on to) ≡ 1 },
}

impl<T: Drop, L: Lore<T>> Lock<T, L> {
    ghost use Rattle.told_lock.specs.Keys.{IsKeyOf, knows};

    /// Opens a lock, with the key that makes tokens, which holds the value. If an allocation fails, the value is
    /// returned.
    pub fn open<R: Wait>(rt: &R, alloc: Global, value: T) -> Result<(Lock<T, L>, Key<T>, T), T>
        ensures ok { IfOk result (λ r. IsKeyOf r.0 r.1 × (knows r.1 ≡ entered value) × (r.2 ≡ value)) }
        ensures err { IfErr result (λ x. x ≡ value) }
    {
        let Ok((to, from, mut key)) = bounded_with::<T, Known<T>, Law<T, L>, Global>(alloc, 1)
        else {
            return Err(value);
        };
        let lock = Lock { to, from };
        // Put in and taken out once: by these two steps the rule knows which value the lock is for.
        lock.give::<Begins<T>, R>(rt, &mut key, value);
        let value = lock.enter(rt, &mut key);
        Ok((lock, key, value))
    }

    /// Waits for the value, and takes it: all that the key's tokens know is so of it, and all that the key was shown.
    pub fn take<R: Wait>(&self, rt: &R, key: &mut Key<T>) -> T
        requires key { IsKeyOf self.now key.old }
        requires open { (knows key.old).stage ≡ Open }
        ensures key { IsKeyOf self.now key.new }
        ensures took { Took L.since L.later L.ends L.ever (knows key.old) result (knows key.new) }
    {
        // Without sleeping first: mostly the lock is free, or soon will be.
        if let Some(value) = self.try_take(rt, key) {
            return value;
        }
        for _ in rt.forever() {
            if let Ok(value) = self.from.recv_as::<Takes<T, L>, R>(rt, key) {
                return value;
            }
        }
        // `forever` has no end: only the return leaves the loop.
        unreachable!()
    }

    // Tries some times, and lets other threads run between: who sleeps at a channel has to be woken by a call of the system,
    // which costs more than the calls for which a lock is taken.
    fn try_take<R: Wait>(&self, rt: &R, key: &mut Key<T>) -> Option<T>
        requires key { IsKeyOf self.now key.old }
        requires open { (knows key.old).stage ≡ Open }
        ensures key { IsKeyOf self.now key.new }
        ensures took { MatchOption result (knows key.new ≡ knows key.old)
            (λ x. Took L.since L.later L.ends L.ever (knows key.old) x (knows key.new)) }
    {
        for _ in 0..TRIES {
            match self.from.try_recv_as::<Takes<T, L>, R>(rt, key) {
                Ok(value) => return Some(value),
                Err(_) => thread::yield_now(),
            }
        }
        None
    }

    // Sends the value, by the step `M`.
    fn give<M: Outcome<T, Known<T>> + Lesson<T, Known<T>>, R: Wait>(
        &self,
        rt: &R,
        key: &mut Key<T>,
        mut value: T,
    )
        requires key { IsKeyOf self.now key.old }
        requires rule { Pushes (Kept L.since L.later L.ends L.ever) 1 key.old.id (knows key.old) value
            (M.then (knows key.old) value) }
        requires fact { Learns (Kept L.since L.later L.ends L.ever) key.old.id (knows key.old) (M.fact (knows key.old)) }
        ensures key { IsKeyOf self.now key.new × (key.new.id ≡ key.old.id) }
        ensures gave { M.then (knows key.old) value (knows key.new) }
    {
        for _ in rt.forever() {
            match self.to.send_as::<M, R>(rt, key, value) {
                Ok(()) => return,
                Err(e) => value = e.into_inner(),
            }
        }
        unreachable!()
    }

    /// Gives the value back, which the key's tokens have seen. The caller owes that what any other token knows of the
    /// value that was taken still holds of this one.
    pub fn give_seen<R: Wait>(&self, rt: &R, key: &mut Key<T>, value: T)
        requires key { IsKeyOf self.now key.old }
        requires may { MaySee L.since L.later L.ends (knows key.old) value }
        ensures key { IsKeyOf self.now key.new }
        ensures gave { Saw (knows key.old) value (knows key.new) }
    {
        self.give::<Sees<T>, R>(rt, key, value);
    }

    /// Gives the value back, and what the key's tokens have seen stays. It may have broken: the caller owes that there
    /// is one that is good, of which all that any token knows still holds.
    pub fn give_unseen<R: Wait>(&self, rt: &R, key: &mut Key<T>, value: T)
        requires key { IsKeyOf self.now key.old }
        requires may { MayStay L.since L.later L.ends (knows key.old) value }
        ensures key { IsKeyOf self.now key.new }
        ensures gave { Stayed (knows key.old) value (knows key.new) }
    {
        self.give::<Stays<T>, R>(rt, key, value);
    }

    // Takes the value for the first time.
    fn enter<R: Wait>(&self, rt: &R, key: &mut Key<T>) -> T
        requires key { IsKeyOf self.now key.old }
        requires waits { (x : T) × (knows key.old ≡ waiting x) }
        ensures key { IsKeyOf self.now key.new }
        ensures entered { Entered (knows key.old) result (knows key.new) }
    {
        for _ in rt.forever() {
            if let Ok(value) = self.from.recv_as::<Enters<T>, R>(rt, key) {
                return value;
            }
        }
        unreachable!()
    }

    /// Makes a token, by the key that makes them, which holds the value as it was put in. Its number is the next, from
    /// 0 on.
    pub fn token(&self, key: &mut Key<T>) -> Key<T>
        requires key { IsKeyOf self.now key.old }
        requires chief { IsChief (knows key.old) }
        ensures key { IsKeyOf self.now key.new × (knows key.new ≡ next_of (knows key.old)) }
        ensures token { IsKeyOf self.now result × (knows result ≡ token_of (knows key.old)) }
    {
        self.to.another::<Parts<T>>(key)
    }

    /// Takes another key's tokens in, by a key that holds the value.
    pub fn take_in(&self, key: &mut Key<T>, other: Key<T>)
        requires key { IsKeyOf self.now key.old }
        requires other { IsKeyOf self.now other }
        requires holds { Holds (knows key.old) }
        ensures key { IsKeyOf self.now key.new }
        ensures both { knows key.new ≡ both_of (knows key.old) (knows other) }
    {
        self.to.absorb::<Parts<T>>(key, other);
    }

    /// Nothing changes: it tells that all that the tokens of a key know is so of the value, and all that the key was shown,
    /// where the key holds it.
    pub fn compare(&self, key: &mut Key<T>)
        requires key { IsKeyOf self.now key.old }
        requires open { (knows key.old).stage ≡ Open }
        ensures key { IsKeyOf self.now key.new × (knows key.new ≡ knows key.old) }
        ensures sums { Sums L.since L.later L.ends L.ever (knows key.old) }
    {
        self.to.learn_as::<Compares<T, L>>(key);
    }

    /// Makes a witness: a key that stands for no token, has no bytes, and knows that the value has been at least what this
    /// key's tokens have seen, and all that this key was shown. It may lie anywhere, and makes witnesses itself.
    pub fn witness(&self, key: &mut Key<T>) -> Key<T>
        requires key { IsKeyOf self.now key.old }
        requires open { (knows key.old).stage ≡ Open }
        ensures key { IsKeyOf self.now key.new × (knows key.new ≡ knows key.old) }
        ensures witness { IsKeyOf self.now result × (knows result ≡ witness_of (knows key.old)) }
    {
        self.to.another::<Shows<T>>(key)
    }

    /// Shows a key all that another was shown, which is a witness: of any other key the tokens, and the value where it
    /// holds it, are lost. What was shown is so of each value that the key takes from then on.
    pub fn learn(&self, key: &mut Key<T>, other: Key<T>)
        requires key { IsKeyOf self.now key.old }
        requires other { IsKeyOf self.now other }
        requires open { (knows key.old).stage ≡ Open }
        ensures key { IsKeyOf self.now key.new × (knows key.new ≡ shown_of (knows key.old) (knows other)) }
    {
        self.to.absorb::<Shows<T>>(key, other);
    }
}
