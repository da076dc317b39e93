//! A settled mark that rises.

ghost use Rattle.std.specs.Prelude.{◌≡◌, IfOk, [], ◌∷◌};
ghost use Rattle.keep.specs.declared.change.Change.TheVariants.{Settled};

use base::{Number, Pair};
use keep::Change;
use std::alloc::{AllocError, Global};

/// The change that marks the letters of a pair as settled, up to a number: their rows go.
///
/// # Errors
/// If an allocation fails.
pub fn settle<S: Drop, C: Drop>(
    alloc: Global,
    pair: &Pair,
    number: Number,
) -> Result<Vec<Change<S, C>>, AllocError>
    ensures { IfOk result (λ changes. changes.items ≡ Settled pair.now number ∷ []) }
{
    let mut changes = Vec::new(alloc);
    // One change takes all rows up to the number, and not one a row.
    changes.push(Change::Settled(pair.copy(alloc)?, number))?;
    Ok(changes)
}
