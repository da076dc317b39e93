//! The calls of the tokens: each takes the endpoint, does what it does for one thread, and returns it.

ghost use Rattle.std.specs.Prelude.{◌≡◌, ◌-◌, ℕ, length, Option, take, drop};
ghost use Rattle.base.specs.declared.limits.TheConstants.{HELD_WINDOW};
ghost use Rattle.activities.specs.declared.input.Input.TheVariants.{FromSeat};
ghost use Rattle.keep.specs.Law.{Reads};
ghost use Rattle.keep.specs.Listing.{AreFirst};
ghost use Rattle.endpoint.specs.Arrivals.{IngestMay, DrainMay, SettleMay};
ghost use Rattle.endpoint.specs.Calls.{Commits, DoesDeed, OfLetter, OfHeldLetter, OfSettle, Views, Counts};
ghost use Rattle.endpoint.specs.Faults.{end_of};
ghost use Rattle.group_commit.specs.Group.{Groups};
ghost use Rattle.told_lock.specs.Rule.{Every};
ghost use Rattle.shared_endpoint.specs.Mark.{raised_after, row_committed, row_handled, rows_grouped, AreRowsDrained};
ghost use Rattle.shared_endpoint.specs.Token.{hand_number, scout_number};
ghost use Rattle.shared_endpoint.specs.History.{fault_in, Turns, BearsOut};

use crate::mark::{row_committed, row_handled, rows_grouped};
use crate::shared::{Shared, tells};
use crate::tokens::{Hand, Scout, Seat};
use activities::{Handler, JournalRow};
use base::{Entity, Pair};
use endpoint::{Committed, EndFault, Ingested};
use envelope::{Envelope, Letter};
use group_commit::{Grouped, take_group};
use keep::{Keep, LetterPlace};
use std::alloc::Global;
use std::sync::Wait;

impl<H, K> Shared<H, K>
where
    H: Handler,
    K: Keep<State = H::State, Command = H::Command> + Drop,
{
    ghost use Rattle.shared_endpoint.specs.Keys.{IsSeatOf, IsHandOf, IsScoutOf, seat_number};
    ghost use Rattle.shared_endpoint.specs.Keys.{told_seat, told_hand, told_scout, marks_raised, hand_raised, marks_read};
    ghost use Rattle.shared_endpoint.specs.Keys.{shown_hand};

    /// Processes a command of this seat, as `Endpoint::commit` does for one thread: the row that it adds is the last of
    /// the journal then.
    ///
    /// # Errors
    /// Those of `Endpoint::commit`. Behind `StoreFailed` each call of any token that comes to the service answers
    /// `Unusable`, until `close` has given it out and it was reopened.
    pub fn commit<R: Wait>(
        &self,
        rt: &R,
        alloc: Global,
        seat: &mut Seat<H, K>,
        entity: &Entity,
        command: H::Command,
    ) -> Result<Committed, EndFault>
        requires seat { IsSeatOf self.now seat.old }
        ensures seat { IsSeatOf self.now seat.new × (seat_number seat.new ≡ seat_number seat.old) }
        ensures turn { Turns K.seen H.service (seat_number seat.old) (told_seat seat.old) (told_seat seat.new)
            (λ d e. Commits K.seen d e H.service
            (record { entity = entity.now; input = FromSeat (seat_number seat.old) command }) result)
            (fault_in result) }
        ensures raised { marks_raised seat.new ≡ raised_after (marks_raised seat.old) (row_committed result) }
    {
        // The lock is held over the whole transaction, with the sync of its disk.
        let mut boxed = self.lock.take(rt, &mut seat.key);
        let committed = boxed.endpoint.commit(alloc, seat.number, entity, command);
        let told = tells(&committed);
        self.give(rt, &mut seat.key, boxed, told);
        // Raised after the lock is released, so that nobody waits for it: for a moment it's below the journal's length.
        self.raise(&mut seat.mark, row_committed(&committed));
        committed
    }

    /// The row of an entity, with all that this seat has done so far and has seen of others: `Endpoint::view`.
    ///
    /// # Errors
    /// Those of `Endpoint::view`.
    pub fn view<R: Wait>(
        &self,
        rt: &R,
        alloc: Global,
        seat: &mut Seat<H, K>,
        entity: &Entity,
    ) -> Result<Option<H::State>, EndFault>
        requires seat { IsSeatOf self.now seat.old }
        ensures seat { IsSeatOf self.now seat.new × (seat_number seat.new ≡ seat_number seat.old) }
        ensures raised { marks_raised seat.new ≡ marks_raised seat.old }
        ensures turn { Turns K.seen H.service (seat_number seat.old) (told_seat seat.old) (told_seat seat.new)
            (λ d e. Views K.seen d e H.service.kind entity.now result) (fault_in result) }
    {
        // A read needs the lock like a write: it may meet the store's failure, which ends the use for all.
        let mut boxed = self.lock.take(rt, &mut seat.key);
        let row = boxed.endpoint.view(alloc, entity);
        let told = tells(&row);
        self.give(rt, &mut seat.key, boxed, told);
        row
    }

    /// How many rows the journal has: `Endpoint::length`.
    ///
    /// # Errors
    /// `Unusable`, and no other.
    pub fn length<R: Wait>(&self, rt: &R, seat: &mut Seat<H, K>) -> Result<u64, EndFault>
        requires seat { IsSeatOf self.now seat.old }
        ensures seat { IsSeatOf self.now seat.new × (seat_number seat.new ≡ seat_number seat.old) }
        ensures raised { marks_raised seat.new ≡ marks_raised seat.old }
        ensures turn { Turns K.seen H.service (seat_number seat.old) (told_seat seat.old) (told_seat seat.new)
            (λ d e. (e ≡ d) × Counts K.seen d (λ t. length t.journal) result) (fault_in result) }
    {
        let boxed = self.lock.take(rt, &mut seat.key);
        let length = boxed.endpoint.length();
        let told = tells(&length);
        self.give(rt, &mut seat.key, boxed, told);
        length
    }

    /// Processes a letter, as `Endpoint::ingest` does for one thread.
    ///
    /// # Errors
    /// Those of `Endpoint::ingest`.
    pub fn ingest<R: Wait>(
        &self,
        rt: &R,
        alloc: Global,
        hand: &mut Hand<H, K>,
        letter: &Letter,
    ) -> Result<Ingested, EndFault>
        requires hand { IsHandOf self.now hand.old }
        ensures hand { IsHandOf self.now hand.new }
        ensures knows { shown_hand hand.new ≡ shown_hand hand.old }
        ensures shown { Every (BearsOut K.seen H.service (shown_hand hand.old)) (told_hand hand.new) }
        ensures turn { Turns K.seen H.service hand_number (told_hand hand.old) (told_hand hand.new)
            (λ d e. DoesDeed K.seen d e HELD_WINDOW H.service OfLetter letter.now.pair.to
            (IngestMay H.service letter.now) result) (fault_in result) }
        ensures raised { hand_raised hand.new ≡ raised_after (hand_raised hand.old) (row_handled result) }
    {
        let mut boxed = self.lock.take(rt, &mut hand.key);
        let ingested = boxed.endpoint.ingest(alloc, letter);
        let told = tells(&ingested);
        self.give(rt, &mut hand.key, boxed, told);
        self.raise(&mut hand.mark, row_handled(&ingested));
        ingested
    }

    /// Handles the next letter of a pair where it is held, and tells its number: `Endpoint::drain_held`.
    ///
    /// # Errors
    /// Those of `Endpoint::drain_held`.
    pub fn drain_held<R: Wait>(
        &self,
        rt: &R,
        alloc: Global,
        hand: &mut Hand<H, K>,
        pair: &Pair,
    ) -> Result<Option<u64>, EndFault>
        requires hand { IsHandOf self.now hand.old }
        ensures hand { IsHandOf self.now hand.new }
        ensures knows { shown_hand hand.new ≡ shown_hand hand.old }
        ensures shown { Every (BearsOut K.seen H.service (shown_hand hand.old)) (told_hand hand.new) }
        ensures turn { Turns K.seen H.service hand_number (told_hand hand.old) (told_hand hand.new)
            (λ d e. DoesDeed K.seen d e HELD_WINDOW H.service OfHeldLetter pair.now.to (DrainMay H.service pair.now)
            result) (fault_in result) }
        ensures raised { Every (λ t. (rows : Option ℕ) × AreRowsDrained K.seen t.last result rows
            × (hand_raised hand.new ≡ raised_after (hand_raised hand.old) rows)) (told_hand hand.new) }
    {
        let mut boxed = self.lock.take(rt, &mut hand.key);
        let drained = boxed.endpoint.drain_held(alloc, pair);
        // Read while the endpoint is held. The answer has the letter's number, not its row's position.
        let rows = boxed.rows_drained(&drained);
        let told = tells(&drained);
        self.give(rt, &mut hand.key, boxed, told);
        self.raise(&mut hand.mark, rows);
        drained
    }

    /// Marks what was sent on a pair as settled, up to a number, and tells the mark: `Endpoint::settle`.
    ///
    /// # Errors
    /// Those of `Endpoint::settle`.
    pub fn settle<R: Wait>(
        &self,
        rt: &R,
        alloc: Global,
        hand: &mut Hand<H, K>,
        pair: &Pair,
        number: u64,
    ) -> Result<u64, EndFault>
        requires hand { IsHandOf self.now hand.old }
        ensures hand { IsHandOf self.now hand.new }
        ensures knows { shown_hand hand.new ≡ shown_hand hand.old }
        ensures shown { Every (BearsOut K.seen H.service (shown_hand hand.old)) (told_hand hand.new) }
        ensures raised { hand_raised hand.new ≡ hand_raised hand.old }
        ensures turn { Turns K.seen H.service hand_number (told_hand hand.old) (told_hand hand.new)
            (λ d e. DoesDeed K.seen d e HELD_WINDOW H.service OfSettle pair.now.from
            (SettleMay H.service pair.now number) result) (fault_in result) }
    {
        let mut boxed = self.lock.take(rt, &mut hand.key);
        let mark = boxed.endpoint.settle(alloc, pair, number);
        let told = tells(&mark);
        self.give(rt, &mut hand.key, boxed, told);
        // The mark isn't raised: a settle adds no row to the journal.
        mark
    }

    /// Processes the first of these letters and settles, as many as can be processed together, by one transaction: each
    /// as `ingest` and `settle` take it in, one after another.
    ///
    /// # Errors
    /// `StoreFailed`, `Memory` and `Unusable`, and no other.
    pub fn take_group<R: Wait>(
        &self,
        rt: &R,
        alloc: Global,
        hand: &mut Hand<H, K>,
        envelopes: &[Envelope],
    ) -> Result<Vec<Grouped>, EndFault>
        requires hand { IsHandOf self.now hand.old }
        ensures hand { IsHandOf self.now hand.new }
        ensures knows { shown_hand hand.new ≡ shown_hand hand.old }
        ensures shown { Every (BearsOut K.seen H.service (shown_hand hand.old)) (told_hand hand.new) }
        ensures turn { Turns K.seen H.service hand_number (told_hand hand.old) (told_hand hand.new)
            (λ d e. Groups K.seen d e H.service envelopes.now result) (fault_in result) }
        ensures raised { hand_raised hand.new ≡ raised_after (hand_raised hand.old) (rows_grouped result) }
    {
        // One hold for the whole group, as it is one transaction: no other token sees a part of it.
        let mut boxed = self.lock.take(rt, &mut hand.key);
        let grouped = take_group(alloc, &mut boxed.endpoint, envelopes);
        let told = tells(&grouped);
        self.give(rt, &mut hand.key, boxed, told);
        self.raise(&mut hand.mark, rows_grouped(&grouped));
        grouped
    }

    /// How many letters of a pair were handled here: `Endpoint::handled`.
    ///
    /// # Errors
    /// Those of `Endpoint::handled`.
    pub fn handled<R: Wait>(
        &self,
        rt: &R,
        alloc: Global,
        hand: &mut Hand<H, K>,
        pair: &Pair,
    ) -> Result<u64, EndFault>
        requires hand { IsHandOf self.now hand.old }
        ensures hand { IsHandOf self.now hand.new }
        ensures knows { shown_hand hand.new ≡ shown_hand hand.old }
        ensures shown { Every (BearsOut K.seen H.service (shown_hand hand.old)) (told_hand hand.new) }
        ensures raised { hand_raised hand.new ≡ hand_raised hand.old }
        ensures turn { Turns K.seen H.service hand_number (told_hand hand.old) (told_hand hand.new)
            (λ d e. Reads K.seen d e (λ t n. n ≡ t.handled pair.now) (end_of result)) (fault_in result) }
    {
        let mut boxed = self.lock.take(rt, &mut hand.key);
        let count = boxed.endpoint.handled(alloc, pair);
        let told = tells(&count);
        self.give(rt, &mut hand.key, boxed, told);
        count
    }

    /// Looks at the service, and tells how many rows its journal has: `Endpoint::length`. So the Hand sees that journal, and
    /// whether it bears out what was shown to the Hand. It allocates nothing.
    ///
    /// # Errors
    /// `Unusable`, and no other.
    pub fn look<R: Wait>(&self, rt: &R, hand: &mut Hand<H, K>) -> Result<u64, EndFault>
        requires hand { IsHandOf self.now hand.old }
        ensures hand { IsHandOf self.now hand.new }
        ensures knows { shown_hand hand.new ≡ shown_hand hand.old }
        ensures shown { Every (BearsOut K.seen H.service (shown_hand hand.old)) (told_hand hand.new) }
        ensures raised { hand_raised hand.new ≡ hand_raised hand.old }
        ensures turn { Turns K.seen H.service hand_number (told_hand hand.old) (told_hand hand.new)
            (λ d e. (e ≡ d) × Counts K.seen d (λ t. length t.journal) result) (fault_in result) }
    {
        // It allocates nothing, so that the Hand can see the journal in any case at the end of a run.
        let boxed = self.lock.take(rt, &mut hand.key);
        let looked = boxed.endpoint.length();
        let told = tells(&looked);
        self.give(rt, &mut hand.key, boxed, told);
        looked
    }

    /// The first `limit` letters after a place that were sent and aren't settled, or all of them where they are fewer:
    /// `Endpoint::unsettled`.
    ///
    /// # Errors
    /// Those of `Endpoint::unsettled`.
    pub fn unsettled<R: Wait>(
        &self,
        rt: &R,
        alloc: Global,
        scout: &mut Scout<H, K>,
        after: &Option<LetterPlace>,
        limit: usize,
    ) -> Result<Vec<Letter>, EndFault>
        requires scout { IsScoutOf self.now scout.old }
        ensures scout { IsScoutOf self.now scout.new × (marks_read scout.new ≡ marks_read scout.old) }
        ensures turn { Turns K.seen H.service scout_number (told_scout scout.old) (told_scout scout.new)
            (λ d e. Reads K.seen d e (λ t letters. AreFirst t.unsettled after.now limit letters.items) (end_of result))
            (fault_in result) }
    {
        // One hold for each page: a walk over a long outbox keeps a command waiting for one read at most.
        let mut boxed = self.lock.take(rt, &mut scout.key);
        let letters = boxed.endpoint.unsettled(alloc, after, limit);
        let told = tells(&letters);
        self.give(rt, &mut scout.key, boxed, told);
        letters
    }

    /// The first `limit` rows of the journal from a position on, or all of them where they are fewer:
    /// `Endpoint::journal`.
    ///
    /// # Errors
    /// Those of `Endpoint::journal`.
    pub fn journal<R: Wait>(
        &self,
        rt: &R,
        alloc: Global,
        scout: &mut Scout<H, K>,
        from: u64,
        limit: usize,
    ) -> Result<Vec<JournalRow<H::Command>>, EndFault>
        requires scout { IsScoutOf self.now scout.old }
        ensures scout { IsScoutOf self.now scout.new × (marks_read scout.new ≡ marks_read scout.old) }
        ensures turn { Turns K.seen H.service scout_number (told_scout scout.old) (told_scout scout.new)
            (λ d e. Reads K.seen d e (λ t rows. rows.items ≡ take limit (drop (from - 1) t.journal)) (end_of result))
            (fault_in result) }
    {
        let mut boxed = self.lock.take(rt, &mut scout.key);
        let rows = boxed.endpoint.journal(alloc, from, limit);
        let told = tells(&rows);
        self.give(rt, &mut scout.key, boxed, told);
        rows
    }
}
