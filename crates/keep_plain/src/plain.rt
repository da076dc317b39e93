//! A store in memory.

ghost use Rattle.std.specs.Prelude.{◌≡◌, true};

use crate::apply::apply;
use crate::arrivals::Arrivals;
use crate::entities::copy_row;
use crate::journal::copy_page;
use crate::maps::Maps;
use crate::marks::{Mark, find_mark};
use crate::outbox::first_letters;
use activities::{Handler, JournalRow};
use base::{Entity, Number, Pair};
use envelope::{Letter, Message};
use keep::{Change, Keep, KeepFault, LetterPlace};
use std::alloc::Global;
use std::collections::BTreeMap;

/// The tables of a handler's service in memory. It never fails, and a crash leaves the tables now.
pub struct PlainKeep<H: Handler> {
    maps: Maps<H::State, H::Command>,
}

/// Written by hand, so that a crate that owns tables doesn't prove anew how each of their maps is dropped.
impl<H: Handler> Drop for PlainKeep<H> {
    fn drop(self) {
        let PlainKeep { maps: _maps } = self;
    }
}

impl<H: Handler> PlainKeep<H> {
    ghost use Rattle.keep.specs.Tables.{empty};

    /// Empty tables.
    pub fn new(alloc: Global) -> Self
        ensures { (⟦<PlainKeep<H> as Keep>⟧.seen result).tables ≡ empty }
    {
        PlainKeep {
            maps: Maps {
                journal: Vec::new(alloc),
                rows: BTreeMap::new(alloc),
                marks: BTreeMap::new(alloc),
                outbox: BTreeMap::new(alloc),
                arrivals: Arrivals::new(alloc),
            },
        }
    }
}

impl<H: Handler> Keep for PlainKeep<H> {
    ghost use Rattle.keep.specs.Law.{Writes};
    ghost use Rattle.keep.specs.Seen.{keep_end};
    ghost use Rattle.keep.specs.Tables.{changed, ArePlaced};
    ghost use Rattle.keep_plain.specs.Memory.{in_memory, in_memory_sound};

    type State = H::State;

    type Command = H::Command;

    ghost seen = { λ k. in_memory k.maps };

    fn usable(&self) -> bool {
        true
    }

    fn entity(&mut self, alloc: Global, entity: &Entity) -> Result<Option<H::State>, KeepFault> {
        Ok(copy_row::<H>(alloc, &self.maps.rows, entity)?)
    }

    fn sent(&mut self, _alloc: Global, pair: &Pair) -> Result<u64, KeepFault> {
        Ok(find_mark(&self.maps.marks, pair, Mark::Sent))
    }

    fn settled(&mut self, _alloc: Global, pair: &Pair) -> Result<u64, KeepFault> {
        Ok(find_mark(&self.maps.marks, pair, Mark::Settled))
    }

    fn handled(&mut self, _alloc: Global, pair: &Pair) -> Result<u64, KeepFault> {
        Ok(self.maps.arrivals.find_handled(pair))
    }

    fn held(
        &mut self,
        alloc: Global,
        pair: &Pair,
        number: Number,
    ) -> Result<Option<Message>, KeepFault> {
        Ok(self.maps.arrivals.find_held(alloc, pair, number)?)
    }

    fn drainable(&mut self, alloc: Global) -> Result<Option<Pair>, KeepFault> {
        Ok(self.maps.arrivals.first_drainable(alloc)?)
    }

    fn unsettled(
        &mut self,
        alloc: Global,
        after: &Option<LetterPlace>,
        limit: usize,
    ) -> Result<Vec<Letter>, KeepFault> {
        Ok(first_letters(alloc, &self.maps.outbox, after, limit)?)
    }

    fn journal(
        &mut self,
        alloc: Global,
        from: u64,
        limit: usize,
    ) -> Result<Vec<JournalRow<H::Command>>, KeepFault> {
        Ok(copy_page::<H>(alloc, &self.maps.journal, from, limit)?)
    }

    fn length(&self) -> u64 {
        self.maps.journal.len() as u64
    }

    fn apply(
        &mut self,
        alloc: Global,
        changes: Vec<Change<H::State, H::Command>>,
    ) -> Result<(), KeepFault>
        requires { (in_memory self.old.maps).usable ≡ true }
        ensures { Writes (λ k. in_memory k.maps) self.old self.new (ArePlaced changes.items) (changed changes.items)
            (keep_end result) }
    {
        apply(alloc, &mut self.maps, changes)?;
        Ok(())
    }

    fn apply_steps(
        &mut self,
        alloc: Global,
        changes: Vec<Change<H::State, H::Command>>,
    ) -> Result<(), KeepFault>
        requires { (in_memory self.old.maps).usable ≡ true }
        ensures { Writes (λ k. in_memory k.maps) self.old self.new (ArePlaced changes.items) (changed changes.items)
            (keep_end result) }
    {
        // In memory a state is one value: there is no part of it that needn't be written.
        self.apply(alloc, changes)
    }

    fn reopen(&mut self, _alloc: Global) -> Result<(), KeepFault> {
        // No call fails here, so there is nothing to find again.
        Ok(())
    }

    ghost sound = { λ k. in_memory_sound k.maps };
}
