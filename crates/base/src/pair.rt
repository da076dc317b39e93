//! Pairs: a sender and a receiver.

ghost use Rattle.std.specs.Prelude.{◌≡◌, IfOk};

use crate::Entity;
use std::alloc::{AllocError, Global};
use std::cmp::Ordering;

/// A sender and a receiver. Pairs are ordered by their senders, and then by their receivers.
#[derive(Debug, Drop)]
pub struct Pair {
    /// Who sends the letters of the pair.
    pub from: Entity,
    /// Who handles them.
    pub to: Entity,
}

impl Pair {
    /// An equal pair, in memory of its own.
    pub fn copy(&self, alloc: Global) -> Result<Pair, AllocError>
        ensures { IfOk result (λ p. p ≡ self.now) }
    {
        Ok(Pair {
            from: self.from.copy(alloc)?,
            to: self.to.copy(alloc)?,
        })
    }
}

impl PartialEq for Pair {
    ghost use Rattle.base.specs.Order.{same_pair, same_pair-equivalence};
    ghost use Rattle.std.specs.Cmp.{partial_equiv_from_equiv};

    ghost eq = { same_pair };

    ghost laws = { partial_equiv_from_equiv same_pair-equivalence };

    #[tactic(auto, unfolding(crate::specs::Order::same_pair))]
    fn eq(&self, other: &Pair) -> bool {
        self.from == other.from && self.to == other.to
    }
}

impl Eq for Pair {
    ghost use Rattle.base.specs.Order.{same_pair-equivalence};

    ghost laws = { same_pair-equivalence };
}

impl PartialOrd for Pair {
    ghost use Rattle.std.specs.Ordering.{as_partial_cmp};
    ghost use Rattle.base.specs.Order.{pair_cmp, pair_cmp-partial};

    ghost partial_cmp = { as_partial_cmp pair_cmp };

    ghost laws = { pair_cmp-partial };

    fn partial_cmp(&self, other: &Pair) -> Option<Ordering> {
        Some(self.cmp(other))
    }
}

impl Ord for Pair {
    ghost use Rattle.std.specs.Prelude.{refl};
    ghost use Rattle.base.specs.Order.{pair_cmp, pair_cmp-total, same_pair-ties};

    ghost cmp = { pair_cmp };

    ghost total = { pair_cmp-total };

    ghost matches_partial_cmp = { λ a b. refl };

    ghost matches_eq = { same_pair-ties };

    fn cmp(&self, other: &Pair) -> Ordering {
        // The sender first, so that the pairs of one sender are neighbours in an ordered map.
        match self.from.cmp(&other.from) {
            Ordering::Equal => self.to.cmp(&other.to),
            unequal => unequal,
        }
    }
}
