//! What arrives: the last number handled of each pair, the messages that came too early, and the pairs whose next
//! message is one of them.

ghost use Rattle.std.specs.Prelude.{◌≡◌, ◌+◌, ◌==◌, ℕ, IfOk, OnOk, Some, None};
ghost use Rattle.base.specs.Order.{pair_cmp};
ghost use Rattle.keep.specs.Listing.{IsDrainable, next_held, place_of};
ghost use Rattle.keep.specs.Places.{place_cmp};
ghost use Rattle.keep_plain.specs.Slots.{SetsAt};
ghost use Rattle.keep_plain.specs.Index.{messages_in, handled_at, IsIndexed};

use crate::copies::copy_place;
use crate::held::{find_message, first_filled, has_next};
use crate::slots::{empty_slot, get_slot, make_slot, set_slot, sweep_slot};
use base::{Number, Pair};
use envelope::{Letter, Message};
use keep::LetterPlace;
use std::alloc::{AllocError, Global};
use std::collections::BTreeMap;

/// What arrives. The pairs whose next message is held stand in a map of their own, so that the first of them is found
/// without a search.
#[derive(Drop)]
pub struct Arrivals {
    /// The last number handled of each pair.
    handled: BTreeMap<Pair, Option<Number>>,
    /// What came too early.
    held: BTreeMap<LetterPlace, Option<Message>>,
    /// The pairs whose next message is held: its number is one more than the last handled.
    drainable: BTreeMap<Pair, Option<()>>,
    // The index is exact: a pair is in it just where its next letter is held.
    ghost indexed: { IsIndexed handled held drainable },
}

impl Arrivals {
    ghost use Rattle.keep_plain.specs.Arrivals.{CanHandle, CanHold, KeepsArrivals, SameArrivals};

    /// Nothing arrived.
    pub fn new(alloc: Global) -> Self
        ensures handled { (p : Pair) → handled_at result.handled p ≡ 0 }
        ensures held { (p : Pair) (n : ℕ) → messages_in result.held p n ≡ None }
    {
        Arrivals {
            handled: BTreeMap::new(alloc),
            held: BTreeMap::new(alloc),
            drainable: BTreeMap::new(alloc),
        }
    }

    /// The last number handled of a pair: 0 where none was.
    pub fn find_handled(&self, pair: &Pair) -> u64
        ensures { result ≡ handled_at self.now.handled pair.now }
    {
        match get_slot(&self.handled, pair) {
            Some(number) => number.get(),
            None => 0,
        }
    }

    /// The message of a pair and number, where one is held.
    pub fn find_held(
        &self,
        alloc: Global,
        pair: &Pair,
        number: Number,
    ) -> Result<Option<Message>, AllocError>
        ensures { IfOk result (λ m. m ≡ messages_in self.now.held pair.now number) }
    {
        find_message(alloc, &self.held, pair, number)
    }

    /// A copy of the first pair whose next message is held.
    pub fn first_drainable(&self, alloc: Global) -> Result<Option<Pair>, AllocError>
        ensures { IfOk result (IsDrainable (next_held (messages_in self.now.held) (handled_at self.now.handled))) }
    {
        first_filled(alloc, &self.drainable)
    }

    /// Puts the slots that a handled mark of a pair sets.
    pub fn make_handled(&mut self, alloc: Global, pair: &Pair) -> Result<(), AllocError>
        ensures same { SameArrivals self.old self.new }
        ensures keeps { KeepsArrivals self.old self.new }
        ensures made { OnOk result (CanHandle self.new pair.now) }
    {
        make_slot(&mut self.handled, pair.copy(alloc)?)?;
        make_slot(&mut self.drainable, pair.copy(alloc)?)
    }

    /// Puts the slots that a held letter sets.
    pub fn make_held(&mut self, alloc: Global, letter: &Letter) -> Result<(), AllocError>
        ensures same { SameArrivals self.old self.new }
        ensures keeps { KeepsArrivals self.old self.new }
        ensures made { OnOk result (CanHold self.new (place_of letter.now)) }
    {
        make_slot(&mut self.held, copy_place(alloc, letter)?)?;
        make_slot(&mut self.drainable, letter.pair.copy(alloc)?)
    }

    /// Sets the handled mark of a place's pair to its number, in slots that are there.
    pub fn handle(&mut self, place: &LetterPlace)
        requires { CanHandle self.old place.now.pair }
        ensures handled { SetsAt pair_cmp place.now.pair (Some place.now.number) self.old.handled self.new.handled }
        ensures held { self.new.held ≡ self.old.held }
        ensures keeps { KeepsArrivals self.old self.new }
    {
        // By the new mark: whether the pair was drainable before says nothing of its next letter now.
        let is_drainable = has_next(&self.held, place);
        set_slot(&mut self.handled, &place.pair, Some(place.number));
        set_slot(&mut self.drainable, &place.pair, is_drainable.then_some(()));
    }

    /// Whether a place is the next of its pair: its number is one more than the last handled.
    fn is_next(&self, place: &LetterPlace) -> bool
        ensures { result ≡ ((handled_at self.now.handled place.now.pair + 1) == place.now.number) }
    {
        place.number.get() - 1 == self.find_handled(&place.pair)
    }

    /// Holds a message, in slots that are there.
    pub fn hold(&mut self, place: &LetterPlace, message: Message)
        requires { CanHold self.old place.now }
        ensures held { SetsAt place_cmp place.now (Some message) self.old.held self.new.held }
        ensures handled { self.new.handled ≡ self.old.handled }
        ensures keeps { KeepsArrivals self.old self.new }
    {
        let is_drainable = self.is_next(place);
        set_slot(&mut self.held, place, Some(message));
        if is_drainable {
            set_slot(&mut self.drainable, &place.pair, Some(()));
        }
    }

    /// Holds a message no more. Its slots are left empty.
    pub fn release(&mut self, place: &LetterPlace)
        ensures held { SetsAt place_cmp place.now None self.old.held self.new.held }
        ensures handled { self.new.handled ≡ self.old.handled }
        ensures keeps { KeepsArrivals self.old self.new }
    {
        // A pair is drainable by its next letter alone: where another one goes, that stays.
        let was_drainable = self.is_next(place);
        empty_slot(&mut self.held, place);
        if was_drainable {
            empty_slot(&mut self.drainable, &place.pair);
        }
    }

    /// Takes the empty slots of a handled mark away.
    pub fn sweep_handled(&mut self, pair: &Pair)
        ensures { SameArrivals self.old self.new }
    {
        sweep_slot(&mut self.handled, pair);
        sweep_slot(&mut self.drainable, pair);
    }

    /// Takes the empty slots of a held message away.
    pub fn sweep_held(&mut self, place: &LetterPlace)
        ensures { SameArrivals self.old self.new }
    {
        sweep_slot(&mut self.held, place);
        sweep_slot(&mut self.drainable, &place.pair);
    }
}
