//! What an entity sends becomes letters of the outbox, with the next numbers of each pair.

ghost use Rattle.std.specs.Prelude.{◌≡◌, ◌+◌, ◌^◌, ◌≤◌, ◌<◌, ◌++◌, true, length};
ghost use Rattle.activities.specs.Reaction.{messages_to};
ghost use Rattle.keep.specs.Law.{ReadsOr};
ghost use Rattle.outbox.specs.Numbering.{NumbersFit, NumbersPass};
ghost use Rattle.outbox.specs.Faults.{IsLimit, outbox_end};
ghost use Rattle.outbox.specs.Numbering.{letter_to, numbering};

use crate::OutboxFault;
use activities::{Handler, Out};
use base::limits::MAX_NUMBER;
use base::{Entity, Number, Pair};
use envelope::Letter;
use keep::{Change, Keep};
use std::alloc::Global;

/// How many of these go to a receiver.
fn count_to(outs: &[Out], receiver: &Entity) -> u64
    requires { length outs.now < 2 ^ 63 }
    ensures { result ≡ length (messages_to receiver.now outs.now) }
{
    let mut count = 0;
    for out in outs {
        // Numbers are given by pair: what goes to others doesn't count.
        if *receiver == out.receiver {
            count += 1;
        }
    }
    count
}

/// The number of a pair's next letter, where `before` go out before it. One read of the store.
#[tactic(auto, using(crate::proofs::Letters::read_told))]
fn next_number<K: Keep>(
    alloc: Global,
    keep: &mut K,
    pair: &Pair,
    before: u64,
) -> Result<Number, OutboxFault>
    requires { (K.seen keep.old).usable ≡ true }
    ensures { ReadsOr K.seen keep.old keep.new (λ t n. (n ≡ t.sent pair.now + before + 1) × (n ≤ MAX_NUMBER)) IsLimit
        (λ t _. MAX_NUMBER < t.sent pair.now + before + 1) (outbox_end result) }
{
    let last = keep.sent(alloc, pair)?;
    // Saturating: a sum that is too large is above the limit as well, and is refused.
    let next = last.saturating_add(before).saturating_add(1);
    match Number::new(next) {
        Some(number) => Ok(number),
        None => Err(OutboxFault::NumberLimit),
    }
}

/// The letter of a message that an entity sends, where these go out before it. One read of the store.
#[tactic(auto, using(crate::proofs::Letters::read_told))]
fn number_out<K: Keep>(
    alloc: Global,
    keep: &mut K,
    entity: &Entity,
    before: &[Out],
    out: &Out,
) -> Result<Letter, OutboxFault>
    requires usable { (K.seen keep.old).usable ≡ true }
    requires room { length before.now < 2 ^ 63 }
    ensures { ReadsOr K.seen keep.old keep.new
        (λ t letter. (letter ≡ letter_to t.sent entity.now before.now out.now) × (letter.number ≤ MAX_NUMBER)) IsLimit
        (λ t _. MAX_NUMBER < (letter_to t.sent entity.now before.now out.now).number) (outbox_end result) }
{
    // The store knows none of these yet: they are written by the same transaction.
    let count = count_to(before, &out.receiver);
    let pair = Pair {
        from: entity.copy(alloc)?,
        to: out.receiver.copy(alloc)?,
    };
    let number = next_number(alloc, keep, &pair, count)?;
    Ok(Letter {
        pair,
        number,
        message: out.message,
    })
}

/// Adds a letter for each message that an entity sends. One read of the store for each.
#[tactic(auto, using(keep::proofs::Arms::stays_armed))]
pub fn number_outs<H, K>(
    alloc: Global,
    keep: &mut K,
    entity: &Entity,
    outs: &[Out],
    changes: &mut Vec<Change<H::State, H::Command>>,
) -> Result<(), OutboxFault>
where
    H: Handler,
    K: Keep<State = H::State, Command = H::Command>,
    requires usable { (K.seen keep.old).usable ≡ true }
    requires room { length outs.now < 2 ^ 63 }
    ensures { ReadsOr K.seen keep.old keep.new (λ t _. (changes.new.items ≡ changes.old.items
        ++ numbering t.sent entity.now outs.now)
        × NumbersFit t.sent entity.now outs.now) IsLimit
        (λ t _. NumbersPass t.sent entity.now outs.now) (outbox_end result) }
{
    for at in 0..outs.len() {
        let letter = number_out(alloc, keep, entity, &outs[..at], &outs[at])?;
        changes.push(Change::Sent(letter))?;
    }
    Ok(())
}
