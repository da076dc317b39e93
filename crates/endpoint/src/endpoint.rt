//! One service over its store: what its seats and its partners may ask of it.

ghost use Rattle.activities.specs.Journal.{sent_of, handled_of};
ghost use Rattle.activities.specs.Rows.{row_of};
ghost use Rattle.activities.specs.declared.input.Input.TheVariants.{FromSeat};
ghost use Rattle.endpoint.specs.Arrivals.{IngestMayWithin, DrainMay, SettleMay};
ghost use Rattle.endpoint.specs.Calls.{CommitsWithin, ComesByWithin, Finds, StillMatchesWithin, DoesDeed, Stays, OfLetter};
ghost use Rattle.endpoint.specs.Calls.{OfHeldLetter, OfSettle, KeepsTables, Views, Answers, TellsOfEach, Counts};
ghost use Rattle.endpoint.specs.Deeds.{CommitMay};
ghost use Rattle.endpoint.specs.Faults.{end_of};
ghost use Rattle.keep.specs.Law.{Reopens, Reads};
ghost use Rattle.keep.specs.Listing.{IsDrainable, next_held, AreFirst};
ghost use Rattle.outbox.specs.Rows.{unsettled_of};
ghost use Rattle.std.specs.Prelude.{◌≡◌, ◌<◌, ◌-◌, length, take, drop, Some, None};

use crate::handling::handle;
use crate::receiving::{settle, take_held, take_letter};
use crate::{Committed, EndFault, Ingested};
use activities::{Handler, Input, JournalRow};
use base::limits::{HELD_WINDOW, SEATS};
use base::{Entity, Pair};
use envelope::Letter;
use inbox::{Ahead, Window};
use keep::{Faulty, Keep, Leaves, LetterPlace};
use std::alloc::Global;
use std::marker::{Model, PhantomData};

/// One service over its store, where letters are held as far ahead as the product does.
pub type Endpoint<H, K> = WindowedEndpoint<H, K, Ahead<HELD_WINDOW>>;

/// One service over its store, where a letter that comes too early is held if its number is no more above the last
/// handled one of its pair than `W` says, an [`Ahead`]. Contracts see the store.
#[derive(Drop)]
pub struct WindowedEndpoint<H, K, W>
where
    H: Handler,
    K: Keep<State = H::State, Command = H::Command> + Drop,
    W: Window,
{
    pub(crate) keep: K,
    handler: PhantomData<H>,
    window: PhantomData<W>,
}

impl<H, K, W> Model for WindowedEndpoint<H, K, W>
where
    H: Handler,
    K: Keep<State = H::State, Command = H::Command> + Drop,
    W: Window,
{
    ghost Value = { K };

    ghost view = { λ e. e.keep };
}

impl<H, K, W> WindowedEndpoint<H, K, W>
where
    H: Handler,
    K: Keep<State = H::State, Command = H::Command> + Drop,
    W: Window,
{
    /// The service of this store.
    pub fn new(keep: K) -> Self
        ensures { result ≡ keep }
    {
        WindowedEndpoint {
            keep,
            handler: PhantomData,
            window: PhantomData,
        }
    }

    /// The store of this service.
    pub fn into_keep(self) -> K
        ensures { result ≡ self }
    {
        let WindowedEndpoint {
            keep,
            handler: _,
            window: _,
        } = self;
        keep
    }

    /// Whether calls may be made: else each answers `Unusable`, until a `reopen` is Ok.
    pub fn usable(&self) -> bool
        ensures { result ≡ (K.seen self.now).usable }
    {
        self.keep.usable()
    }

    /// Processes a command of a seat, 0 to 15, in one transaction: the journal has one more row, the entity's row is
    /// its state then, and what it sends is in the outbox, with the next numbers of each pair.
    ///
    /// Calls of the store: `entity`, one `sent` for each message that is sent, and one `apply_steps`.
    ///
    /// # Errors
    /// In this order: `Unusable`; `NotMine` where the entity is of another service; `NumberLimit` where the journal has
    /// 2^40 rows; `Business` where the reaction refuses the command; `NumberLimit` where a letter's number would be
    /// above 2^40. `StoreFailed` and `Memory` may come at any call of the store and at any allocation. After each of
    /// them nothing is changed, but after `StoreFailed` the tables, once reopened, may also be those with the command
    /// processed.
    pub fn commit(
        &mut self,
        alloc: Global,
        seat: u8,
        entity: &Entity,
        command: H::Command,
    ) -> Result<Committed, EndFault>
        requires { seat < SEATS }
        ensures commit { CommitsWithin K.seen self.old self.new W.ahead H.service
            (record { entity = entity.now; input = FromSeat seat command }) result }
        ensures comes { ComesByWithin K.seen self.old self.new W.ahead H.service
            (CommitMay H.service (record { entity = entity.now; input = FromSeat seat command }) result) }
        ensures matches { StillMatchesWithin K.seen self.old self.new W.ahead H.service }
        ensures unchanged { KeepsTables K.seen self.old self.new result }
    {
        // first: where the store can't be asked, nothing else is told
        if !self.keep.usable() {
            return Err(EndFault::Unusable);
        }
        // Before the state is read: another service's entity has no row here, and would look like one that did
        // nothing.
        if entity.kind() != H::kind() {
            return Err(EndFault::NotMine);
        }
        let changes = Vec::new(alloc);
        handle::<H, K, W>(
            alloc,
            &mut self.keep,
            entity,
            Input::FromSeat(seat, command),
            changes,
        )
    }

    /// Reopens the store: the tables then are some that a crash may have left, and match their journal where all of
    /// these did. A usable endpoint may be reopened too.
    ///
    /// # Errors
    /// `StoreFailed`, which is counted, or `Memory`. After either the endpoint isn't usable, a crash leaves nothing
    /// that it couldn't leave before, and `reopen` may be called again.
    #[tactic(auto, using(crate::proofs::Parts::reopen_told))]
    pub fn reopen(&mut self, alloc: Global) -> Result<(), EndFault>
        ensures reopens { Reopens K.seen self.old self.new (end_of result) }
        ensures finds { Finds K.seen self.old self.new }
        ensures matches { StillMatchesWithin K.seen self.old self.new W.ahead H.service }
    {
        // Without a test of `usable`: only a reopening makes a failed store usable again.
        Ok(self.keep.reopen(alloc)?)
    }

    /// Processes a letter: it is handled where it is the next of its pair, held where its number is at most `W.ahead`
    /// above the last handled, and else known already. A letter that is handled isn't held any more, whatever was held
    /// under its number; of two early letters with one number the first is held.
    ///
    /// Calls of the store: `handled`; then nothing, or `held` and one `apply`, or those of `commit`.
    ///
    /// # Errors
    /// In this order: `Unusable`; `NotMine` where the receiver is of another service; `TooEarly` where its number is
    /// more than `W.ahead` above the last handled; `NumberLimit` where it is the next, and its position in the journal
    /// or the number of a letter that it makes the receiver send would be above 2^40. `StoreFailed` and `Memory` may
    /// come at any call of the store and at any allocation. After each of them nothing is changed, but after
    /// `StoreFailed` the tables, once reopened, may also be those with the letter processed or held.
    pub fn ingest(&mut self, alloc: Global, letter: &Letter) -> Result<Ingested, EndFault>
        ensures ingest { DoesDeed K.seen self.old self.new W.ahead H.service OfLetter letter.now.pair.to
            (IngestMayWithin W.ahead H.service letter.now) result }
        ensures comes { ComesByWithin K.seen self.old self.new W.ahead H.service
            (IngestMayWithin W.ahead H.service letter.now result) }
        ensures matches { StillMatchesWithin K.seen self.old self.new W.ahead H.service }
        ensures unchanged { KeepsTables K.seen self.old self.new result }
    {
        if !self.keep.usable() {
            return Err(EndFault::Unusable);
        }
        // Before any read: another service's letter costs the store nothing.
        if letter.pair.to.kind() != H::kind() {
            return Err(EndFault::NotMine);
        }
        take_letter::<H, K, W>(alloc, &mut self.keep, letter)
    }

    /// Handles the next letter of a pair where it is held, and tells its number; `None` where it isn't held.
    ///
    /// Calls of the store: `handled`, `held`, and those of `commit` where the next is held.
    ///
    /// # Errors
    /// In this order: `Unusable`; `NotMine` where the receiver is of another service; `NumberLimit` where the next is
    /// held, and its position or the number of a letter would be above 2^40. `StoreFailed` and `Memory` as in `ingest`.
    pub fn drain_held(&mut self, alloc: Global, pair: &Pair) -> Result<Option<u64>, EndFault>
        ensures drain { DoesDeed K.seen self.old self.new W.ahead H.service OfHeldLetter pair.now.to
            (DrainMay H.service pair.now) result }
        ensures comes { ComesByWithin K.seen self.old self.new W.ahead H.service (DrainMay H.service pair.now result) }
        ensures matches { StillMatchesWithin K.seen self.old self.new W.ahead H.service }
        ensures unchanged { KeepsTables K.seen self.old self.new result }
    {
        if !self.keep.usable() {
            return Err(EndFault::Unusable);
        }
        if pair.to.kind() != H::kind() {
            return Err(EndFault::NotMine);
        }
        take_held::<H, K, W>(alloc, &mut self.keep, pair)
    }

    /// Marks what was sent on a pair as settled, up to a number, and tells the mark: the greater of this number and the
    /// mark before. The letters up to it are gone from the outbox.
    ///
    /// Calls of the store: `sent`, `settled`, and one `apply` where the mark rises.
    ///
    /// # Errors
    /// In this order: `Unusable`; `NotMine` where the sender is of another service; `NotSent` where no letter of this
    /// number was sent. `StoreFailed` and `Memory` as in `ingest`.
    pub fn settle(&mut self, alloc: Global, pair: &Pair, number: u64) -> Result<u64, EndFault>
        ensures settle { DoesDeed K.seen self.old self.new W.ahead H.service OfSettle pair.now.from
            (SettleMay H.service pair.now number) result }
        ensures comes { ComesByWithin K.seen self.old self.new W.ahead H.service
            (SettleMay H.service pair.now number result) }
        ensures matches { StillMatchesWithin K.seen self.old self.new W.ahead H.service }
        ensures unchanged { KeepsTables K.seen self.old self.new result }
    {
        if !self.keep.usable() {
            return Err(EndFault::Unusable);
        }
        // The sender, where letters are tested by their receiver: a settle goes to whoever sent the letters.
        if pair.from.kind() != H::kind() {
            return Err(EndFault::NotMine);
        }
        settle::<H, K, W>(alloc, &mut self.keep, pair, number)
    }

    /// The first pair whose next letter, the one after its handled mark, is held. One read of the store.
    ///
    /// # Errors
    /// As every read: `Unusable`; else `StoreFailed` or `Memory`.
    #[tactic(auto, using(crate::proofs::Parts::read_told, crate::proofs::Links::read_stays))]
    pub fn drainable(&mut self, alloc: Global) -> Result<Option<Pair>, EndFault>
        ensures read { Reads K.seen self.old self.new (λ t. IsDrainable (next_held t.held t.handled)) (end_of result) }
        ensures stays { Stays K.seen self.old self.new }
    {
        if !self.keep.usable() {
            return Err(EndFault::Unusable);
        }
        Ok(self.keep.drainable(alloc)?)
    }

    /// The row of an entity: its state, or `None` where it took nothing in or its state is none. One read of the store.
    ///
    /// # Errors
    /// In this order: `Unusable`; `NotMine` where the entity is of another service; `StoreFailed` or `Memory`.
    #[tactic(auto, using(crate::proofs::Parts::view_told, crate::proofs::Links::read_stays))]
    pub fn view(&mut self, alloc: Global, entity: &Entity) -> Result<Option<H::State>, EndFault>
        ensures view { Views K.seen self.old self.new H.service.kind entity.now result }
        ensures stays { Stays K.seen self.old self.new }
        ensures answer { Answers K.seen self.old self.new W.ahead H.service
            (λ journal row. row ≡ row_of H.service journal entity.now) result }
    {
        if !self.keep.usable() {
            return Err(EndFault::Unusable);
        }
        if entity.kind() != H::kind() {
            return Err(EndFault::NotMine);
        }
        Ok(self.keep.entity(alloc, entity)?)
    }

    /// The number of the last letter that a pair sent; 0 where it sent none. One read of the store.
    ///
    /// # Errors
    /// As every read: `Unusable`; else `StoreFailed` or `Memory`.
    #[tactic(auto, using(crate::proofs::Parts::read_told, crate::proofs::Links::read_stays))]
    pub fn sent(&mut self, alloc: Global, pair: &Pair) -> Result<u64, EndFault>
        ensures read { Reads K.seen self.old self.new (λ t n. n ≡ t.sent pair.now) (end_of result) }
        ensures stays { Stays K.seen self.old self.new }
        ensures answer { Answers K.seen self.old self.new W.ahead H.service
            (λ journal n. n ≡ length (sent_of H.service.reactions journal pair.now)) result }
    {
        if !self.keep.usable() {
            return Err(EndFault::Unusable);
        }
        Ok(self.keep.sent(alloc, pair)?)
    }

    /// The settled mark of a pair: its receiver has handled the letters up to this number. One read of the store.
    #[tactic(auto, using(crate::proofs::Parts::read_told, crate::proofs::Links::read_stays))]
    pub fn settled(&mut self, alloc: Global, pair: &Pair) -> Result<u64, EndFault>
        ensures read { Reads K.seen self.old self.new (λ t n. n ≡ t.settled pair.now) (end_of result) }
        ensures stays { Stays K.seen self.old self.new }
    {
        if !self.keep.usable() {
            return Err(EndFault::Unusable);
        }
        Ok(self.keep.settled(alloc, pair)?)
    }

    /// How many letters of a pair were handled here: the number of the last. One read of the store.
    #[tactic(auto, using(crate::proofs::Parts::read_told, crate::proofs::Links::read_stays))]
    pub fn handled(&mut self, alloc: Global, pair: &Pair) -> Result<u64, EndFault>
        ensures read { Reads K.seen self.old self.new (λ t n. n ≡ t.handled pair.now) (end_of result) }
        ensures stays { Stays K.seen self.old self.new }
        ensures answer { Answers K.seen self.old self.new W.ahead H.service
            (λ journal n. n ≡ handled_of journal pair.now) result }
        ensures each { TellsOfEach K.seen self.old self.new W.ahead H.service (λ t n. n ≡ handled_of t.journal pair.now)
            result }
    {
        if !self.keep.usable() {
            return Err(EndFault::Unusable);
        }
        Ok(self.keep.handled(alloc, pair)?)
    }

    /// The first `limit` letters after a place that were sent and aren't settled, or all of them where they are fewer:
    /// by pair, and then by number. One read of the store.
    #[tactic(auto, using(crate::proofs::Parts::read_told, crate::proofs::Links::read_stays))]
    pub fn unsettled(
        &mut self,
        alloc: Global,
        after: &Option<LetterPlace>,
        limit: usize,
    ) -> Result<Vec<Letter>, EndFault>
        ensures read { Reads K.seen self.old self.new (λ t letters. AreFirst t.unsettled after.now limit letters.items)
            (end_of result) }
        ensures stays { Stays K.seen self.old self.new }
        ensures answer { Answers K.seen self.old self.new W.ahead H.service
            (λ journal letters. AreFirst (unsettled_of H.service.reactions journal (K.seen self.old).tables.settled)
            after.now limit
            letters.items) result }
        ensures each { TellsOfEach K.seen self.old self.new W.ahead H.service
            (λ t letters. AreFirst (unsettled_of H.service.reactions t.journal t.settled) after.now limit letters.items)
            result }
    {
        if !self.keep.usable() {
            return Err(EndFault::Unusable);
        }
        Ok(self.keep.unsettled(alloc, after, limit)?)
    }

    /// The first `limit` rows of the journal from a position on, or all of them where they are fewer. Positions begin
    /// at 1; 0 is read as 1. One read of the store.
    #[tactic(auto, using(crate::proofs::Parts::read_told, crate::proofs::Links::read_stays))]
    pub fn journal(
        &mut self,
        alloc: Global,
        from: u64,
        limit: usize,
    ) -> Result<Vec<JournalRow<H::Command>>, EndFault>
        ensures read { Reads K.seen self.old self.new (λ t rows. rows.items ≡ take limit (drop (from - 1) t.journal))
            (end_of result) }
        ensures stays { Stays K.seen self.old self.new }
    {
        if !self.keep.usable() {
            return Err(EndFault::Unusable);
        }
        Ok(self.keep.journal(alloc, from, limit)?)
    }

    /// How many rows the journal has: the position of the last. No call of the store.
    ///
    /// # Errors
    /// `Unusable`, and no other.
    pub fn length(&self) -> Result<u64, EndFault>
        ensures { Counts K.seen self.now (λ t. length t.journal) result }
    {
        // Tested as before a read: what a failed store says of its length may be wrong.
        if !self.keep.usable() {
            return Err(EndFault::Unusable);
        }
        Ok(self.keep.length())
    }
}

/// Over a store that fails where it is told to.
impl<H, K, W> WindowedEndpoint<H, Faulty<K>, W>
where
    H: Handler,
    K: Keep<State = H::State, Command = H::Command> + Drop,
    W: Window,
{
    /// The n-th read or transaction of the store from now on fails, once. No table changes; an earlier arming is
    /// forgotten.
    pub fn arm(&mut self, n: u64, leaves: Leaves)
        ensures { self.new ≡ record self.old { armed = Some (record { calls = n; leaves = leaves }) } }
    {
        self.keep.arm(n, leaves);
    }

    /// No call of the store is to fail. No table changes.
    pub fn disarm(&mut self)
        ensures { self.new ≡ record self.old { armed = None } }
    {
        self.keep.disarm();
    }
}
