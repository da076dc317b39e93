//! What keeps the tables of a service.

ghost use Rattle.std.specs.Prelude.{◌≡◌, ◌-◌, true, length, take, drop};

use crate::{Change, KeepFault, LetterPlace};
use activities::{JournalRow, Parts};
use base::{Entity, Number, Pair};
use envelope::{Letter, Message};
use std::alloc::Global;

/// What keeps the tables of a service, in memory or in files.
///
/// Contracts see of it a `Seen`. Each word `Reads`, `Writes` and `Reopens` tells three things: what the call says of
/// the store's use and its failures whatever the disk did; that doubt never falls; and what it says of tables, which
/// holds while there is no doubt. A store is not usable after `Failed`, until a `reopen` is Ok.
pub trait Keep {
    ghost use Rattle.keep.specs.Tables.{Tables, changed, ArePlaced};
    ghost use Rattle.keep.specs.Seen.{Seen, IsSound, keep_end};
    ghost use Rattle.keep.specs.Law.{Reads, Writes, Reopens};
    ghost use Rattle.keep.specs.Steps.{AreSteps};
    ghost use Rattle.keep.specs.Listing.{AreFirst, IsDrainable, next_held};

    /// What is kept of an entity.
    type State: Drop + Parts;
    /// What seats ask for.
    type Command: Drop;

    /// What callers see of it: the tables now and those that a crash may leave, its failures, its use and its doubt.
    ghost seen: { Self → Seen (Tables Self.State Self.Command) };

    /// Whether reads and transactions may be called. Else only `reopen` may.
    fn usable(&self) -> bool
        ensures { result ≡ (seen self.now).usable };

    /// An entity's row, where it has one.
    ///
    /// # Errors
    /// As every read: `Failed` where the store failed, which is counted, and then a crash leaves the tables as they
    /// were; `Memory` if an allocation fails.
    fn entity(&mut self, alloc: Global, entity: &Entity) -> Result<Option<Self::State>, KeepFault>
        requires { (seen self.old).usable ≡ true }
        ensures { Reads seen self.old self.new (λ t row. row ≡ t.entity entity.now) (keep_end result) };

    /// The number of the last letter that a pair sent; 0 where it sent none.
    fn sent(&mut self, alloc: Global, pair: &Pair) -> Result<u64, KeepFault>
        requires { (seen self.old).usable ≡ true }
        ensures { Reads seen self.old self.new (λ t n. n ≡ t.sent pair.now) (keep_end result) };

    /// The settled mark of a pair: its receiver has handled the letters up to this number.
    fn settled(&mut self, alloc: Global, pair: &Pair) -> Result<u64, KeepFault>
        requires { (seen self.old).usable ≡ true }
        ensures { Reads seen self.old self.new (λ t n. n ≡ t.settled pair.now) (keep_end result) };

    /// The handled mark of a pair: the number of the last letter that was handled here.
    fn handled(&mut self, alloc: Global, pair: &Pair) -> Result<u64, KeepFault>
        requires { (seen self.old).usable ≡ true }
        ensures { Reads seen self.old self.new (λ t n. n ≡ t.handled pair.now) (keep_end result) };

    /// The held message of a pair and number, where there is one.
    fn held(
        &mut self,
        alloc: Global,
        pair: &Pair,
        number: Number,
    ) -> Result<Option<Message>, KeepFault>
        requires { (seen self.old).usable ≡ true }
        ensures { Reads seen self.old self.new (λ t m. m ≡ t.held pair.now number) (keep_end result) };

    /// The first pair whose next message, the one after its handled mark, is held.
    fn drainable(&mut self, alloc: Global) -> Result<Option<Pair>, KeepFault>
        requires { (seen self.old).usable ≡ true }
        ensures { Reads seen self.old self.new (λ t. IsDrainable (next_held t.held t.handled)) (keep_end result) };

    /// The first `limit` letters of the outbox after a place, or all of them where they are fewer: by pair, and then by
    /// number.
    fn unsettled(
        &mut self,
        alloc: Global,
        after: &Option<LetterPlace>,
        limit: usize,
    ) -> Result<Vec<Letter>, KeepFault>
        requires { (seen self.old).usable ≡ true }
        ensures { Reads seen self.old self.new (λ t letters. AreFirst t.unsettled after.now limit letters.items)
            (keep_end result) };

    /// The first `limit` rows of the journal from a position on, or all of them where they are fewer. Positions begin
    /// at 1; 0 is read as 1.
    fn journal(
        &mut self,
        alloc: Global,
        from: u64,
        limit: usize,
    ) -> Result<Vec<JournalRow<Self::Command>>, KeepFault>
        requires { (seen self.old).usable ≡ true }
        ensures { Reads seen self.old self.new (λ t rows. rows.items ≡ take limit (drop (from - 1) t.journal))
            (keep_end result) };

    /// How many rows the journal has: the position of the last. The store knows it, and nothing is read.
    fn length(&self) -> u64
        requires { (seen self.now).usable ≡ true }
        ensures { (seen self.now).doubt ≡ 0 → result ≡ length (seen self.now).tables.journal };

    /// Makes all of these changes in order, in one transaction. What it does is told where each row of the journal has
    /// the position after the last.
    ///
    /// # Errors
    /// `Failed` where the store failed, which is counted: a crash leaves the tables as they were, or those with all
    /// changes. `Memory` if an allocation fails: the tables are as they were.
    fn apply(
        &mut self,
        alloc: Global,
        changes: Vec<Change<Self::State, Self::Command>>,
    ) -> Result<(), KeepFault>
        requires { (seen self.old).usable ≡ true }
        ensures { Writes seen self.old self.new (ArePlaced changes.items) (changed changes.items) (keep_end result) };

    /// As [`apply`](Keep::apply), for changes of which each state that is before a row of the journal follows the one
    /// that it replaces, by that row's input: no more of it need be written than what such an input changes. A store that
    /// writes states whole does just what `apply` does.
    ///
    /// # Errors
    /// As [`apply`](Keep::apply).
    fn apply_steps(
        &mut self,
        alloc: Global,
        changes: Vec<Change<Self::State, Self::Command>>,
    ) -> Result<(), KeepFault>
        requires usable { (seen self.old).usable ≡ true }
        requires steps { (seen self.old).doubt ≡ 0 → AreSteps Self.State.follows changes.items (seen self.old).tables }
        ensures { Writes seen self.old self.new (ArePlaced changes.items) (changed changes.items) (keep_end result) };

    /// Reopens the store: the tables now are some that a crash may leave. A usable keep may be reopened too, and has
    /// its tables then.
    ///
    /// # Errors
    /// `Failed` where the store failed, which is counted, and `Memory` if an allocation fails. After either the keep
    /// isn't usable, a crash leaves nothing that it couldn't leave before, and `reopen` may be called again.
    fn reopen(&mut self, alloc: Global) -> Result<(), KeepFault>
        ensures { Reopens seen self.old self.new (keep_end result) };

    /// While no file is in doubt a crash leaves some tables, and of a usable keep the tables now and no others.
    ghost sound: { (k : Self) → IsSound (seen k) };
}
