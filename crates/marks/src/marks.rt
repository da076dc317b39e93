//! Marks, and the seats that raise and read them.

ghost use Rattle.std.specs.Prelude.{◌≡◌, ℕ, ◌<◌, ◌≤◌, ◌++◌, ◌∷◌, [], replicate, slice_index, vec_len, vec_capacity, IfOk};
ghost use Rattle.std.specs.List.{All, flat_map};
ghost use Rattle.marks.specs.Entries.{greatest, entry, WasRaised};
ghost use Rattle.marks.specs.Rule.{unused, IsSettled};
ghost use Rattle.marks.specs.declared.limits.TheConstants.{PLACES, SEATS};

use crate::closed::Closed;
use crate::limits::PLACES;
use crate::rule::{Deal, Gather, Raise, Read, Rises, Settle, Size, View};
use atomic_table::{Seat, Table};
use std::alloc::{AllocError, Global};

/// Marks that threads share: a number at each place, which only rises.
#[derive(Drop)]
pub struct Marks {
    table: Table<(), View, Size, Rises, Global>,
    places: usize,
    // The table has a word for each place.
    ghost words: { table.shared.table_id.words ≡ places },
    ghost known: { table.shared.key.places ≡ places },
    ghost some: { 0 < places },
    ghost most: { places ≤ PLACES },
    ghost seated: { 0 < table.shared.key.seats },
}

/// The right to raise and read marks, of one thread at a time. It has no bytes.
#[derive(Drop)]
pub struct MarkSeat {
    seat: Seat<(), View>,
    // Each seat has one part of the right to close.
    ghost one: { seat.me.0.parts ≡ 1 },
    ghost free: { seat.me.1 ≡ [] },
}

/// A list of so many zeros.
fn zeros(alloc: Global, count: usize) -> Result<Vec<u64>, AllocError>
    ensures { IfOk result (λ v. v.items ≡ replicate count 0) }
{
    vec![in alloc; 0u64; count]
}

impl Marks {
    ghost use Rattle.marks.specs.Seats.{places_of, seats_of, IsSeatOf, raised_by, read_by, mark_of, marked_places};

    /// Gives a part of what a seat has to each of the others, which are new, and lists all.
    fn deal(&self, mut first: Seat<(), View>, seats: usize, list: &mut Vec<MarkSeat>)
        requires first { (first.table_id ≡ self.now.table.shared.table_id) × (first.me ≡ (unused seats, [])) }
        requires some { 0 < seats }
        requires room { (list.old.items ≡ []) × (seats ≤ vec_capacity list.old) }
        ensures count { vec_len list.new ≡ seats }
        ensures each { All (λ s. IsSeatOf self.now s × (raised_by s ≡ []) × (read_by s ≡ [])) list.new.items }
    {
        let mut left = seats;
        while left > 1 {
            let seat = self.table.shared.split_seat::<Deal>(&mut first);
            list.push_reserved(MarkSeat { seat });
            left -= 1;
        }
        // What is left of the first seat is the last one.
        list.push_reserved(MarkSeat { seat: first });
    }

    /// Marks of 0 at so many places, 1 to `PLACES`, and so many seats, 1 to `SEATS`.
    ///
    /// # Errors
    /// `AllocError`: an allocation failed.
    pub fn open(
        alloc: Global,
        places: usize,
        seats: usize,
    ) -> Result<(Marks, Vec<MarkSeat>), AllocError>
        requires places { (1 ≤ places) × (places ≤ PLACES) }
        requires seats { (1 ≤ seats) × (seats ≤ SEATS) }
        ensures places { IfOk result (λ opened. places_of opened.0 ≡ places) }
        ensures seats { IfOk result (λ opened. (seats_of opened.0 ≡ seats) × (vec_len opened.1 ≡ seats)) }
        ensures each { IfOk result (λ opened. All
            (λ s. IsSeatOf opened.0 s × (raised_by s ≡ []) × (read_by s ≡ [])) opened.1.items) }
    {
        // Room for all seats first: `close` needs every one of them, so none may be lost while they are dealt.
        let mut list = Vec::with_capacity(alloc, seats)?;
        let zeros: Vec<u64> = zeros(alloc, places)?;
        let size = Size {
            seats: seats as u64,
            places: places as u64,
        };
        let (table, first) = Table::of_words(alloc, zeros.as_slice(), &size)?;
        let marks = Marks { table, places };
        marks.deal(first, seats, &mut list);
        Ok((marks, list))
    }

    /// Raises the mark at a place below the number of places: it becomes this number where it is lower, else it stays.
    pub fn raise(&self, seat: &mut MarkSeat, place: usize, number: u64)
        requires seat { IsSeatOf self.now seat.old }
        requires place { place < places_of self.now }
        ensures seat { IsSeatOf self.now seat.new }
        ensures raised { raised_by seat.new ≡ raised_by seat.old ++ entry place number ∷ [] }
        ensures read { read_by seat.new ≡ read_by seat.old }
    {
        // One atomic step and no loop: a thread that is stopped in it keeps no other waiting.
        self.table
            .shared
            .fetch_max::<Raise>(&mut seat.seat, place, number);
    }

    /// The mark at a place below the number of places: no less than all that this seat raised or read there before.
    pub fn read(&self, seat: &mut MarkSeat, place: usize) -> u64
        requires seat { IsSeatOf self.now seat.old }
        requires place { place < places_of self.now }
        ensures raised_before { greatest place (raised_by seat.old) ≤ result }
        ensures read_before { greatest place (read_by seat.old) ≤ result }
        ensures seat { IsSeatOf self.now seat.new }
        ensures raised { raised_by seat.new ≡ raised_by seat.old }
        ensures read { read_by seat.new ≡ read_by seat.old ++ entry place result ∷ [] }
    {
        self.table.shared.load::<Read>(&mut seat.seat, place)
    }

    /// Joins seats into one that has all their parts, and knows what each of them knows.
    fn gather(&self, mut seats: Vec<MarkSeat>) -> Seat<(), View>
        requires all { vec_len seats ≡ seats_of self.now }
        requires each { All (IsSeatOf self.now) seats.items }
        ensures seat { (result.table_id ≡ self.now.table.shared.table_id) × (result.me.1 ≡ []) }
        ensures parts { result.me.0.parts ≡ seats_of self.now }
        ensures raised { result.me.0.raised ≡ flat_map raised_by seats.items }
        ensures read { result.me.0.read ≡ flat_map read_by seats.items }
    {
        let Some(last) = seats.pop() else {
            // Marks have one seat at least.
            unreachable!()
        };
        let MarkSeat { seat: mut all } = last;
        while let Some(other) = seats.pop() {
            let MarkSeat { seat: other } = other;
            self.table.shared.join_seat::<Gather>(&mut all, other);
        }
        all
    }

    /// What each mark is, as a seat that has all parts reads it.
    fn settled(&self, all: &mut Seat<(), View>) -> [u64; PLACES]
        requires seat { all.old.table_id ≡ self.now.table.shared.table_id }
        requires parts { all.old.me.0.parts ≡ seats_of self.now }
        ensures marks { (place : ℕ) → place < places_of self.now → IsSettled place (slice_index result place) all.old.me.0 }
    {
        let mut marks = [0; PLACES];
        let mut place = 0;
        while place < self.places {
            marks[place] = self.table.shared.load::<Settle>(all, place);
            place += 1;
        }
        marks
    }

    /// What the marks came to, once no seat is used any more. It takes all seats, in any order.
    pub fn close(self, seats: Vec<MarkSeat>) -> Closed
        requires all { vec_len seats ≡ seats_of self }
        requires each { All (IsSeatOf self) seats.items }
        ensures places { marked_places result ≡ places_of self }
        ensures marks { (place : ℕ) → place < places_of self
            → mark_of result place ≡ greatest place (flat_map raised_by seats.items) }
        ensures read { (place : ℕ) → place < places_of self
            → greatest place (flat_map read_by seats.items) ≤ mark_of result place }
        ensures was_raised { All (WasRaised (flat_map raised_by seats.items)) (flat_map read_by seats.items) }
    {
        // All seats: with all parts of the right to close, no other one can have raised anything.
        let mut all = self.gather(seats);
        // One seat has all parts now: nobody else can raise a mark, so what is read is final.
        let marks = self.settled(&mut all);
        Closed::new(marks, self.places)
    }
}
