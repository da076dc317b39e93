//! Places in order of their numbers.
//!
//! A place comes in behind all others, and what is looked for stands mostly near the front, where the oldest messages
//! are. So a search looks first where its place is if no number is left out before it, and then goes from the front on
//! by steps that double: it costs by how far it goes, however many places are behind. Where a place is taken out those
//! on its shorter side move up.

ghost use Rattle.std.specs.Prelude.{◌≡◌, ◌<◌, ◌++◌, ◌∷◌, [], ◌≤◌, ◌⊎◌, length, ◌==◌, true, All, IfSome, OnOk, OnErr};
ghost use Rattle.std.specs.List.{find, AllWithin};
ghost use Rattle.std.specs.List.Sorted.{IsPartitionPoint};
ghost use Rattle.broker_index.specs.Index.{is_from, without};
ghost use Rattle.broker_index.specs.Places.{IsBefore, IsFrom, are_rising};

use crate::KeyedPlace;
use std::alloc::{AllocError, Global};
use std::collections::VecDeque;
use std::marker::Model;

/// Room for so many places is kept, however few there are.
const RESTING: usize = 64;

/// Places, by rising numbers.
#[derive(Drop)]
pub struct Places {
    // A message costs the same in a queue of 65,536 as in a short one: in an ordered map each search began at the root.
    places: VecDeque<KeyedPlace>,
}

impl Model for Places {
    ghost use Rattle.std.specs.Prelude.{◌≡◌, true, List};
    ghost use Rattle.broker_index.specs.Places.{are_rising};
    ghost use Rattle.broker_index.specs.declared.places.KeyedPlace.{KeyedPlace};

    ghost Value = { List KeyedPlace };

    ghost view = { λ p. p.places.items };

    ghost invariant = { λ p. are_rising p.places.items ≡ true };
}

/// How many places are before this number, at most: each has a number above that of the place in front of it.
fn most_before(places: &VecDeque<KeyedPlace>, number: u64) -> usize
    requires { are_rising places.now.items ≡ true }
    ensures bound { result ≤ length places.now.items }
    ensures behind { AllWithin (IsFrom number) places.now.items result (length places.now.items) }
{
    match places.front() {
        Some(first) => places
            .len()
            .min(number.saturating_sub(first.number) as usize),
        None => 0,
    }
}

/// Two indices up to the highest, between which the first place at this number or after it is. The higher one is at
/// most about twice the index of that place.
fn bounds(places: &VecDeque<KeyedPlace>, number: u64, highest: usize) -> (usize, usize)
    requires rising { are_rising places.now.items ≡ true }
    requires bound { highest ≤ length places.now.items }
    requires behind { AllWithin (IsFrom number) places.now.items highest (length places.now.items) }
    ensures order { result.0 ≤ result.1 }
    ensures bound { result.1 ≤ highest }
    ensures before { AllWithin (IsBefore number) places.now.items 0 result.0 }
    ensures behind { AllWithin (IsFrom number) places.now.items result.1 (length places.now.items) }
{
    let mut low = 0;
    let mut high = 1;
    while high < highest && places[high].number < number {
        low = high;
        // Below the highest, which is a length: doubled it doesn't wrap.
        high *= 2;
    }
    (low, high.min(highest))
}

/// The index of the first place at this number or after it, which is at most the highest.
fn search(places: &VecDeque<KeyedPlace>, number: u64, highest: usize) -> usize
    requires rising { are_rising places.now.items ≡ true }
    requires bound { highest ≤ length places.now.items }
    requires behind { AllWithin (IsFrom number) places.now.items highest (length places.now.items) }
    ensures { IsPartitionPoint (IsBefore number) (IsFrom number) places.now.items result }
{
    let (mut low, mut high) = bounds(places, number, highest);
    while low < high {
        // By its form below `high`, whatever the length is: half of a sum would need a bound.
        let middle = low + (high - low) / 2;
        if places[middle].number < number {
            low = middle + 1;
        } else {
            high = middle;
        }
    }
    low
}

/// The index of the first place at this number or after it, how many there are if none is.
fn first_index(places: &VecDeque<KeyedPlace>, number: u64) -> usize
    requires { are_rising places.now.items ≡ true }
    ensures { IsPartitionPoint (IsBefore number) (IsFrom number) places.now.items result }
{
    let most = most_before(places, number);
    // Where no number up to this one is left out, as in a queue that none takes from out of turn, it is that one.
    if most == 0 || places[most - 1].number < number {
        return most;
    }
    // Or that before it is, as where what came last is looked for.
    if most == 1 || places[most - 2].number < number {
        return most - 1;
    }
    search(places, number, most)
}

impl Places {
    /// No places. It allocates nothing.
    pub fn new(alloc: Global) -> Places
        ensures { result ≡ [] }
    {
        Places {
            places: VecDeque::new(alloc),
        }
    }

    /// Whether there is none.
    pub fn is_empty(&self) -> bool
        ensures { result ≡ (length self.now == 0) }
    {
        self.places.is_empty()
    }

    /// Adds a place after all others.
    ///
    /// # Errors
    /// If an allocation fails; then nothing has changed.
    pub fn push(&mut self, place: KeyedPlace) -> Result<(), AllocError>
        requires { All (λ p. p.number < place.number) self.old }
        ensures ok { OnOk result (self.new ≡ self.old ++ place ∷ []) }
        ensures err { OnErr result (self.new ≡ self.old) }
    {
        self.places.push_back(place)?;
        Ok(())
    }

    /// Takes the place of this number out, if there is one. It allocates nothing.
    pub fn remove(&mut self, number: u64)
        ensures { self.new ≡ without number self.old }
    {
        let index = first_index(&self.places, number);
        let Some(place) = self.places.get(index) else {
            return;
        };
        // The first at the number or after it: another one, if this number isn't there.
        if place.number == number {
            let _ = self.places.remove(index);
            self.shrink();
        }
    }

    /// The first place at this number or after it.
    pub fn first_from(&self, number: u64) -> Option<KeyedPlace>
        ensures found { result ≡ find (is_from number) self.now }
        ensures least { IfSome result (λ p. All (λ q. (q.number < number) ⊎ (p.number ≤ q.number)) self.now) }
    {
        match self.places.get(first_index(&self.places, number)) {
            Some(place) => Some(*place),
            None => None,
        }
    }

    /// Gives memory back where there is room for four times as many.
    fn shrink(&mut self)
        ensures { self.new ≡ self.old }
    {
        let half = self.places.capacity() / 2;
        if half >= RESTING && self.places.len() < half / 2 {
            // To half and not to what is needed: a queue whose length swings doesn't allocate again at once.
            self.places.shrink_to(half);
        }
    }
}
