//! What changes of a store's tables where a letter is held, and where one is processed.

ghost use Rattle.std.specs.Prelude.{◌≡◌, IfOk, [], ◌∷◌};
ghost use Rattle.keep.specs.declared.change.Change.TheVariants.{Handled, NotHeld, Held};

use envelope::Letter;
use keep::Change;
use std::alloc::{AllocError, Global};

/// The change that holds a letter.
///
/// # Errors
/// If an allocation fails.
pub fn hold<S: Drop, C: Drop>(
    alloc: Global,
    letter: &Letter,
) -> Result<Vec<Change<S, C>>, AllocError>
    ensures { IfOk result (λ changes. changes.items ≡ Held letter.now ∷ []) }
{
    let mut changes = Vec::new(alloc);
    changes.push(Change::Held(letter.copy(alloc)?))?;
    Ok(changes)
}

/// The changes of marks and held letters that go with a letter that is processed: it is the last that was handled, and
/// isn't held any more.
///
/// # Errors
/// If an allocation fails.
pub fn take_in<S: Drop, C: Drop>(
    alloc: Global,
    letter: &Letter,
) -> Result<Vec<Change<S, C>>, AllocError>
    ensures { IfOk result (λ changes. changes.items
        ≡ Handled letter.now.pair letter.now.number ∷ NotHeld letter.now.pair letter.now.number ∷ []) }
{
    let mut changes = Vec::new(alloc);
    // The mark is set to the letter's own number, as it's the next of its pair.
    changes.push(Change::Handled(letter.pair.copy(alloc)?, letter.number))?;
    // Whether it is held isn't read: taking away what isn't there changes nothing.
    changes.push(Change::NotHeld(letter.pair.copy(alloc)?, letter.number))?;
    Ok(changes)
}
