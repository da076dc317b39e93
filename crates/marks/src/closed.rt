//! What marks came to.

ghost use Rattle.std.specs.Prelude.{◌≡◌, ◌<◌, ◌≤◌, slice_index};
ghost use Rattle.marks.specs.declared.limits.TheConstants.{PLACES};

use crate::limits::PLACES;

/// Marks that no seat raises any more.
#[derive(Drop)]
pub struct Closed {
    marks: [u64; PLACES],
    places: usize,
    // So that each place below the number of places is an index of the array.
    ghost most: { places ≤ PLACES },
}

impl Closed {
    ghost use Rattle.marks.specs.Seats.{mark_of, marked_places};

    /// The first so many of these numbers.
    pub(crate) fn new(marks: [u64; PLACES], places: usize) -> Closed
        requires { places ≤ PLACES }
        ensures { (result.marks ≡ marks) × (result.places ≡ places) }
    {
        Closed { marks, places }
    }

    /// The mark at a place below the number of places: the greatest number that any seat raised there, or 0 where none
    /// did.
    pub fn mark(&self, place: usize) -> u64
        requires { place < marked_places self.now }
        ensures { result ≡ mark_of self.now place }
    {
        self.marks[place]
    }
}
