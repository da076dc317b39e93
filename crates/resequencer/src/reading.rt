//! The held letter whose turn has come.

ghost use Rattle.std.specs.Prelude.{◌≡◌, true, IfOk};
ghost use Rattle.keep.specs.Law.{Reads};
ghost use Rattle.keep.specs.Seen.{keep_end};
ghost use Rattle.resequencer.specs.Waiting.{IsNextHeld, IsNextOf};

use base::{Number, Pair};
use envelope::Letter;
use keep::{Keep, KeepFault};
use std::alloc::Global;

/// The held letter after the last that was handled of a pair, or `None` where it isn't held. One read of the store;
/// none where no number is left.
///
/// # Errors
/// `Failed` where the store failed; `Memory` if an allocation fails.
pub fn next_held<K: Keep>(
    alloc: Global,
    keep: &mut K,
    pair: &Pair,
    handled: u64,
) -> Result<Option<Letter>, KeepFault>
    requires { (K.seen keep.old).usable ≡ true }
    ensures reads { Reads K.seen keep.old keep.new (λ t found. IsNextHeld t.held pair.now handled found)
        (keep_end result) }
    ensures next { IfOk result (λ found. IsNextOf pair.now handled found) }
{
    // Saturating: after the last number there is none, and the sum is refused as a number.
    let Some(number) = Number::new(handled.saturating_add(1)) else {
        return Ok(None);
    };
    let pair = pair.copy(alloc)?;
    match keep.held(alloc, &pair, number)? {
        Some(message) => Ok(Some(Letter {
            pair,
            number,
            message,
        })),
        None => Ok(None),
    }
}
