//! A store that fails where it is told to.

ghost use Rattle.std.specs.Prelude.{◌≡◌, ◌+◌, ◌-◌, ◌^◌, min, true, length, take, drop};

use crate::{Change, Keep, KeepFault, LetterPlace};
use activities::JournalRow;
use base::{Entity, Number, Pair};
use envelope::{Letter, Message};
use std::alloc::Global;
use std::marker::Model;

/// Which tables a failed transaction leaves.
#[derive(Clone, Copy, Debug, PartialEq, Eq)]
pub enum Leaves {
    /// The tables before the transaction.
    Old,
    /// The tables with the transaction's changes; where the store inside couldn't make them, what that left.
    New,
}

/// Which call from now on fails: 1 is the next.
#[derive(Clone, Copy, Debug, PartialEq, Eq)]
pub struct Arming {
    /// The place of the call among those from now on; 0 is read as 1.
    pub calls: u64,
    /// What it leaves, where it is a transaction.
    pub leaves: Leaves,
}

/// A store over another one, which fails where it is told to.
#[derive(Drop)]
pub struct Faulty<K: Keep + Drop> {
    keep: K,
    armed: Option<Arming>,
    // Beside the store inside, which an armed failure leaves usable.
    is_down: bool,
    failures: u64,
}

impl<K: Keep + Drop> Model for Faulty<K> {
    ghost use Rattle.keep.specs.Failing.{Failing};

    ghost Value = { Failing K };

    ghost view = { λ f. record { keep = f.keep; armed = f.armed; is_down = f.is_down; failures = f.failures } };
}

impl<K: Keep + Drop> Faulty<K> {
    ghost use Rattle.std.specs.Prelude.{Some, None, Err, false};
    ghost use Rattle.keep.specs.Failing.{due, counted_down};
    ghost use Rattle.keep.specs.Law.{MoreFailures};
    ghost use Rattle.keep.specs.declared.fault.KeepFault.TheVariants.{Failed};

    /// A store over this one, with no call armed.
    pub fn new(keep: K) -> Self
        ensures { result ≡ record { keep = keep; armed = None; is_down = false; failures = 0 } }
    {
        Faulty {
            keep,
            armed: None,
            is_down: false,
            failures: 0,
        }
    }

    /// The n-th read or transaction from now on fails, once.
    pub fn arm(&mut self, n: u64, leaves: Leaves)
        ensures { self.new ≡ record self.old { armed = Some (record { calls = n; leaves = leaves }) } }
    {
        // At most one call is armed: a newer arming replaces this.
        self.armed = Some(Arming { calls: n, leaves });
    }

    /// No call is to fail.
    pub fn disarm(&mut self)
        ensures { self.new ≡ record self.old { armed = None } }
    {
        self.armed = None;
    }

    /// Counts a call: what it leaves, where it is the one that fails.
    fn strike(&mut self) -> Option<Leaves>
        ensures due { result ≡ due self.old.armed }
        ensures armed { self.new ≡ record self.old { armed = counted_down self.old.armed } }
    {
        // Taken out, so that one call fails and not each from then on.
        let arming = self.armed.take()?;
        if arming.calls <= 1 {
            return Some(arming.leaves);
        }
        self.armed = Some(Arming {
            calls: arming.calls - 1,
            leaves: arming.leaves,
        });
        None
    }

    /// Counts a failure.
    fn fail<R>(&mut self) -> Result<R, KeepFault>
        ensures failed { result ≡ Err Failed }
        ensures more { MoreFailures self.old.failures self.new.failures }
        ensures counted { self.new ≡ record self.old {
          is_down = true;
          failures = min (self.old.failures + 1) (2 ^ 64 - 1);
        } }
    {
        self.is_down = true;
        // Saturating, as a count that wrapped would hide all failures.
        self.failures = self.failures.saturating_add(1);
        Err(KeepFault::Failed)
    }
}

impl<K: Keep + Drop> Keep for Faulty<K> {
    ghost use Rattle.keep.specs.Tables.{changed, ArePlaced};
    ghost use Rattle.keep.specs.Steps.{AreSteps};
    ghost use Rattle.keep.specs.Listing.{AreFirst, IsDrainable, next_held};
    ghost use Rattle.keep.specs.Failing.{through, ReadsDue, WritesDue, ReopensThrough};
    ghost use Rattle.keep.specs.Inside.{sound_through};

    type State = K::State;

    type Command = K::Command;

    ghost seen = { through K.seen };

    fn usable(&self) -> bool {
        // Down by a failure that was armed, or by one of the store inside.
        !self.is_down && self.keep.usable()
    }

    #[tactic(auto, using(crate::proofs::Faults::read_inside, crate::proofs::Faults::read_failed))]
    fn entity(&mut self, alloc: Global, entity: &Entity) -> Result<Option<K::State>, KeepFault>
        requires { (through K.seen self.old).usable ≡ true }
        ensures { ReadsDue K.seen self.old self.new (λ t row. row ≡ t.entity entity.now) result }
    {
        // Every read and every transaction counts, so that a test can have each of them fail.
        match self.strike() {
            None => self.keep.entity(alloc, entity),
            // What the call would leave is for transactions alone: a failed read leaves the tables.
            Some(_) => self.fail(),
        }
    }

    #[tactic(auto, using(crate::proofs::Faults::read_inside, crate::proofs::Faults::read_failed))]
    fn sent(&mut self, alloc: Global, pair: &Pair) -> Result<u64, KeepFault>
        requires { (through K.seen self.old).usable ≡ true }
        ensures { ReadsDue K.seen self.old self.new (λ t n. n ≡ t.sent pair.now) result }
    {
        match self.strike() {
            None => self.keep.sent(alloc, pair),
            Some(_) => self.fail(),
        }
    }

    #[tactic(auto, using(crate::proofs::Faults::read_inside, crate::proofs::Faults::read_failed))]
    fn settled(&mut self, alloc: Global, pair: &Pair) -> Result<u64, KeepFault>
        requires { (through K.seen self.old).usable ≡ true }
        ensures { ReadsDue K.seen self.old self.new (λ t n. n ≡ t.settled pair.now) result }
    {
        match self.strike() {
            None => self.keep.settled(alloc, pair),
            Some(_) => self.fail(),
        }
    }

    #[tactic(auto, using(crate::proofs::Faults::read_inside, crate::proofs::Faults::read_failed))]
    fn handled(&mut self, alloc: Global, pair: &Pair) -> Result<u64, KeepFault>
        requires { (through K.seen self.old).usable ≡ true }
        ensures { ReadsDue K.seen self.old self.new (λ t n. n ≡ t.handled pair.now) result }
    {
        match self.strike() {
            None => self.keep.handled(alloc, pair),
            Some(_) => self.fail(),
        }
    }

    #[tactic(auto, using(crate::proofs::Faults::read_inside, crate::proofs::Faults::read_failed))]
    fn held(
        &mut self,
        alloc: Global,
        pair: &Pair,
        number: Number,
    ) -> Result<Option<Message>, KeepFault>
        requires { (through K.seen self.old).usable ≡ true }
        ensures { ReadsDue K.seen self.old self.new (λ t m. m ≡ t.held pair.now number) result }
    {
        match self.strike() {
            None => self.keep.held(alloc, pair, number),
            Some(_) => self.fail(),
        }
    }

    #[tactic(auto, using(crate::proofs::Faults::read_inside, crate::proofs::Faults::read_failed))]
    fn drainable(&mut self, alloc: Global) -> Result<Option<Pair>, KeepFault>
        requires { (through K.seen self.old).usable ≡ true }
        ensures { ReadsDue K.seen self.old self.new (λ t. IsDrainable (next_held t.held t.handled)) result }
    {
        match self.strike() {
            None => self.keep.drainable(alloc),
            Some(_) => self.fail(),
        }
    }

    #[tactic(auto, using(crate::proofs::Faults::read_inside, crate::proofs::Faults::read_failed))]
    fn unsettled(
        &mut self,
        alloc: Global,
        after: &Option<LetterPlace>,
        limit: usize,
    ) -> Result<Vec<Letter>, KeepFault>
        requires { (through K.seen self.old).usable ≡ true }
        ensures { ReadsDue K.seen self.old self.new (λ t letters. AreFirst t.unsettled after.now limit letters.items)
            result }
    {
        match self.strike() {
            None => self.keep.unsettled(alloc, after, limit),
            Some(_) => self.fail(),
        }
    }

    #[tactic(auto, using(crate::proofs::Faults::read_inside, crate::proofs::Faults::read_failed))]
    fn journal(
        &mut self,
        alloc: Global,
        from: u64,
        limit: usize,
    ) -> Result<Vec<JournalRow<K::Command>>, KeepFault>
        requires { (through K.seen self.old).usable ≡ true }
        ensures { ReadsDue K.seen self.old self.new (λ t rows. rows.items ≡ take limit (drop (from - 1) t.journal))
            result }
    {
        match self.strike() {
            None => self.keep.journal(alloc, from, limit),
            Some(_) => self.fail(),
        }
    }

    fn length(&self) -> u64 {
        // Not counted: a store knows its length, and reads nothing.
        self.keep.length()
    }

    #[tactic(auto, using(crate::proofs::Faults::write_inside, crate::proofs::Faults::write_failed, crate::proofs::Faults::write_hidden))]
    fn apply(
        &mut self,
        alloc: Global,
        changes: Vec<Change<K::State, K::Command>>,
    ) -> Result<(), KeepFault>
        requires { (through K.seen self.old).usable ≡ true }
        ensures { WritesDue K.seen self.old self.new (ArePlaced changes.items) (changed changes.items) result }
    {
        match self.strike() {
            None => self.keep.apply(alloc, changes),
            // The store inside isn't even asked, so its tables stay.
            Some(Leaves::Old) => self.fail(),
            Some(Leaves::New) => {
                // Made, and reported as failed: as where a disk fails after the commit was written.
                let _ = self.keep.apply(alloc, changes);
                self.fail()
            }
        }
    }

    #[tactic(auto, using(crate::proofs::Faults::write_inside, crate::proofs::Faults::write_failed, crate::proofs::Faults::write_hidden))]
    fn apply_steps(
        &mut self,
        alloc: Global,
        changes: Vec<Change<K::State, K::Command>>,
    ) -> Result<(), KeepFault>
        requires usable { (through K.seen self.old).usable ≡ true }
        requires steps { (through K.seen self.old).doubt ≡ 0
            → AreSteps K.State.follows changes.items (through K.seen self.old).tables }
        ensures { WritesDue K.seen self.old self.new (ArePlaced changes.items) (changed changes.items) result }
    {
        match self.strike() {
            None => self.keep.apply_steps(alloc, changes),
            Some(Leaves::Old) => self.fail(),
            Some(Leaves::New) => {
                // By the same call as without a fault: a store that writes parts of states has to be tried, too.
                let _ = self.keep.apply_steps(alloc, changes);
                self.fail()
            }
        }
    }

    #[tactic(auto, using(crate::proofs::Faults::reopened_inside))]
    fn reopen(&mut self, alloc: Global) -> Result<(), KeepFault>
        ensures { ReopensThrough K.seen self.old self.new result }
    {
        // Where the store inside can't be reopened it isn't usable itself, so that this needn't be known here.
        self.is_down = false;
        // A reopening isn't counted: an armed call is one of those after it.
        self.keep.reopen(alloc)
    }

    ghost sound = { λ f. sound_through K.seen f (K.sound f.keep) };
}
