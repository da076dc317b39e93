//! The messages of a broker.
//!
//! The messages' own numbers are the truth. A slab's key that was told for a number is a hint: it is tried first, and
//! whoever is there by now is asked for its number.

ghost use Rattle.std.specs.Prelude.{◌≡◌, ◌==◌, ◌<◌, ◌++◌, ◌∷◌, ◌+◌, ◌-◌, ◌%◌, ◌^◌, [], length, map, filter, not, true, All};
ghost use Rattle.std.specs.Prelude.{OnErr, OnOk, Some};
ghost use Rattle.std.specs.Option.{option_copied};
ghost use Rattle.std.specs.List.{find};
ghost use Rattle.broker_book.specs.Books.{Ready};
ghost use Rattle.broker_book.specs.Sizes.{sent_octets};
ghost use Rattle.broker_index.specs.Held.{kept_octets, kept_out, octets_found, out_found, out_weight};
ghost use Rattle.broker_index.specs.Index.{Kept, has_number, with_fate};
ghost use Rattle.broker_index.specs.Slots.{in_order, is_rising};
ghost use Rattle.broker_index.specs.Standing.{fate_of};

use crate::Standing;
use crate::keyed::{Keyed, find_key, find_value, put_value, take_value};
use broker_book::{Sent, Shared};
use slab::Slab;
use std::alloc::{AllocError, Global};
use std::marker::Model;

/// A message as it is kept.
#[derive(Debug, Drop)]
pub struct Stored {
    number: u64,
    sent: Shared<Sent>,
    standing: Standing,
    /// What the message is counted as, so that it is counted once.
    octets: u64,
}

impl Model for Stored {
    ghost use Rattle.std.specs.Prelude.{◌≡◌, ◌%◌, ◌^◌};
    ghost use Rattle.broker_book.specs.Sizes.{sent_octets};
    ghost use Rattle.broker_index.specs.Index.{Kept};
    ghost use Rattle.broker_index.specs.Standing.{fate_of};

    ghost Value = { Kept };

    ghost view = { λ m. record { number = m.number; sent = m.sent; fate = fate_of m.standing } };

    ghost invariant = { λ m. m.octets ≡ sent_octets m.sent % 2 ^ 64 };
}

impl Keyed for Stored {
    ghost number_of = { λ m. m.number };

    fn key_number(&self) -> u64 {
        self.number
    }
}

impl Stored {
    /// The message's number.
    pub fn number(&self) -> u64
        ensures { result ≡ self.now.number }
    {
        self.number
    }

    /// What the message's SEND brought.
    pub fn sent(&self) -> &Shared<Sent>
        ensures { result.now ≡ self.now.sent }
    {
        &self.sent
    }

    /// Where it is.
    pub fn standing(&self) -> &Standing
        ensures { fate_of result.now ≡ self.now.fate }
    {
        &self.standing
    }

    /// What it is counted as, modulo 2^64.
    fn octets(&self) -> u64
        ensures { result ≡ sent_octets self.now.sent % 2 ^ 64 }
    {
        self.octets
    }

    /// 1 where it is out, else 0.
    fn unanswered(&self) -> u64
        ensures { result ≡ out_weight self.now.fate }
    {
        match &self.standing {
            Standing::Out(_) => 1,
            Standing::Ready | Standing::Gone => 0,
        }
    }

    /// Says where it is from now on. The answer is how many messages are out then, where so many were; modulo 2^64.
    fn set_standing(&mut self, standing: Standing, out: u64) -> u64
        ensures set { self.new ≡ record self.old { fate = fate_of standing } }
        ensures out { result
            ≡ ((out + out_weight (fate_of standing)) % 2 ^ 64 + (2 ^ 64 - out_weight self.old.fate)) % 2 ^ 64 }
    {
        let before = self.unanswered();
        self.standing = standing;
        // Wrapping: nothing here requires a bound on the messages, and the count is exact modulo 2^64.
        out.wrapping_add(self.unanswered()).wrapping_sub(before)
    }
}

/// The messages of a broker, in order of their numbers. A message is found by its number; the key that it was given
/// makes that quick. What they are counted as together is kept beside them, and how many are out.
#[derive(Drop)]
pub struct Messages {
    slab: Slab<Stored>,
    octets: u64,
    out: u64,
}

impl Model for Messages {
    ghost use Rattle.std.specs.Prelude.{List};
    ghost use Rattle.broker_index.specs.Held.{AreHeld};
    ghost use Rattle.broker_index.specs.Index.{Kept};
    ghost use Rattle.broker_index.specs.Slots.{in_order};

    ghost Value = { List Kept };

    ghost view = { λ m. in_order (λ (k : Kept). k.number) m.slab.slots };

    ghost invariant = { λ m. AreHeld (in_order (λ (k : Kept). k.number) m.slab.slots) m.octets m.out };
}

/// What the message of this number is counted as, modulo 2^64; 0 where there is none.
fn octets_at(slab: &Slab<Stored>, number: u64, key: usize) -> u64
    requires { is_rising (λ (k : Kept). k.number) (in_order (λ (k : Kept). k.number) slab.now.slots) ≡ true }
    ensures { result
        ≡ octets_found (find (has_number number) (in_order (λ (k : Kept). k.number) slab.now.slots)) % 2 ^ 64 }
{
    match find_value(slab, number, key) {
        Some(stored) => stored.octets(),
        None => 0,
    }
}

/// 1 where there is a message of this number and it is out, else 0.
fn unanswered_at(slab: &Slab<Stored>, number: u64, key: usize) -> u64
    requires { is_rising (λ (k : Kept). k.number) (in_order (λ (k : Kept). k.number) slab.now.slots) ≡ true }
    ensures { result ≡ out_found (find (has_number number) (in_order (λ (k : Kept). k.number) slab.now.slots)) }
{
    match find_value(slab, number, key) {
        Some(stored) => stored.unanswered(),
        None => 0,
    }
}

impl Messages {
    /// No messages. It allocates nothing.
    pub fn new(alloc: Global) -> Messages
        ensures { result ≡ [] }
    {
        Messages {
            slab: Slab::new(alloc),
            octets: 0,
            out: 0,
        }
    }

    /// What the messages are counted as together, modulo 2^64.
    pub fn octets(&self) -> u64
        ensures { result ≡ kept_octets self.now % 2 ^ 64 }
    {
        self.octets
    }

    /// How many messages are out, modulo 2^64.
    pub fn unanswered(&self) -> u64
        ensures { result ≡ kept_out self.now % 2 ^ 64 }
    {
        self.out
    }

    /// How many messages there are.
    pub fn len(&self) -> usize
        ensures { result ≡ length self.now }
    {
        self.slab.len()
    }

    /// Adds a message that is ready, and gives its key. What its SEND brought is shared.
    ///
    /// # Errors
    /// If an allocation fails; then nothing has changed.
    pub fn push(&mut self, number: u64, sent: &Shared<Sent>) -> Result<usize, AllocError>
        requires { All (λ k. k.number < number) self.old }
        ensures ok { OnOk result (self.new ≡ self.old ++ record { number = number; sent = sent.now; fate = Some Ready }
            ∷ []) }
        ensures err { OnErr result (self.new ≡ self.old) }
    {
        let octets = sent.get().octets();
        let stored = Stored {
            number,
            // Shared and not copied: a SEND is in memory once, whether a queue, a transaction or a list has it.
            sent: sent.share()?,
            standing: Standing::Ready,
            octets,
        };
        let key = put_value(&mut self.slab, stored)?;
        // Counted once it's in: where that fails the sum stays.
        self.octets = self.octets.wrapping_add(octets);
        Ok(key)
    }

    /// The message of this number, if there is one. Its key makes that quick; any other is right too.
    pub fn get(&self, number: u64, key: usize) -> Option<&Stored>
        ensures { option_copied result ≡ find (has_number number) self.now }
    {
        find_value(&self.slab, number, key)
    }

    /// Says where the message of this number is from now on, if there is one. It allocates nothing.
    pub fn set(&mut self, number: u64, key: usize, standing: Standing)
        ensures { self.new ≡ map (with_fate number (fate_of standing)) self.old }
    {
        match find_key(&self.slab, number, key) {
            Some(key) => self.out = self.slab[key].set_standing(standing, self.out),
            None => {}
        }
    }

    /// Takes the message of this number out, if there is one. It allocates nothing.
    pub fn remove(&mut self, number: u64, key: usize)
        ensures { self.new ≡ filter (λ k. not (k.number == number)) self.old }
    {
        // Both are read first: without the message nobody knows what it was counted as.
        let fewer = octets_at(&self.slab, number, key);
        let answered = unanswered_at(&self.slab, number, key);
        take_value(&mut self.slab, number, key);
        self.octets = self.octets.wrapping_sub(fewer);
        self.out = self.out.wrapping_sub(answered);
    }
}
