//! The messages that came too early, and the pairs whose next message is one of them.

ghost use Rattle.std.specs.Prelude.{◌≡◌, ◌+◌, ◌==◌, ◌&&◌, IfOk, is_some};
ghost use Rattle.base.specs.Order.{pair_cmp, same_pair};
ghost use Rattle.keep_plain.specs.Index.{messages_in};
ghost use Rattle.keep_plain.specs.Slots.{at, IsFirstFilled};

use crate::slots::get_slot;
use base::{Number, Pair};
use envelope::Message;
use keep::LetterPlace;
use std::alloc::{AllocError, Global};
use std::collections::BTreeMap;
use std::ops::Bound;

/// The message of a pair and number, where one is held.
pub fn find_message(
    alloc: Global,
    held: &BTreeMap<LetterPlace, Option<Message>>,
    pair: &Pair,
    number: Number,
) -> Result<Option<Message>, AllocError>
    ensures { IfOk result (λ m. m ≡ messages_in held.now pair.now number) }
{
    // A map is searched by a whole key, so the pair is copied for it.
    let place = LetterPlace {
        pair: pair.copy(alloc)?,
        number,
    };
    Ok(get_slot(held, &place).copied())
}

/// Whether a place is after another: of its pair, and with the next number.
fn is_behind(place: &LetterPlace, other: &LetterPlace) -> bool
    ensures { result ≡ (same_pair place.now.pair other.now.pair && ((other.now.number + 1) == place.now.number)) }
{
    place.pair == other.pair && place.number.get() - 1 == other.number.get()
}

/// Whether the message after a place is held.
pub fn has_next(held: &BTreeMap<LetterPlace, Option<Message>>, place: &LetterPlace) -> bool
    ensures { result ≡ is_some (messages_in held.now place.now.pair (place.now.number + 1)) }
{
    // By the range after the place: a key for the next number would have to be allocated.
    let Some((found, slot)) = held
        .range((Bound::Excluded(place), Bound::Unbounded))
        .next()
    else {
        return false;
    };
    is_behind(found, place) && slot.is_some()
}

/// A copy of the first pair that is among these.
pub fn first_filled(
    alloc: Global,
    pairs: &BTreeMap<Pair, Option<()>>,
) -> Result<Option<Pair>, AllocError>
    ensures { IfOk result (IsFirstFilled pair_cmp (at pair_cmp pairs.now)) }
{
    // Mostly the first: each transaction sweeps the slots that it leaves empty.
    for (pair, slot) in pairs {
        if slot.is_some() {
            return Ok(Some(pair.copy(alloc)?));
        }
    }
    Ok(None)
}
