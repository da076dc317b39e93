//! The next step of a group: what taking one envelope in changes, on top of the changes of those before it.

ghost use Rattle.std.specs.Prelude.{◌≡◌, ◌<◌, ◌≤◌, ◌^◌, ◌++◌, false, true, length, IfOk};
ghost use Rattle.std.specs.List.{list_any};
ghost use Rattle.activities.specs.Rows.{state_for};
ghost use Rattle.activities.specs.declared.input.Input.TheVariants.{FromEntity};
ghost use Rattle.envelope.specs.declared.message.Envelope.TheVariants.{Letter as OfLetter, Settle as OfSettle};
ghost use Rattle.keep.specs.Law.{Reads};
ghost use Rattle.keep.specs.Seen.{keep_end};
ghost use Rattle.outbox.specs.Numbering.{numbering, NumbersFit, NumbersPass};
ghost use Rattle.group_commit.specs.Parts.Planning.{own_of, touches, IsStep, IsNext, stopped};

use crate::Grouped;
use activities::{Handler, HandlerFault, Input, Out, Outs};
use base::{Entity, Number, Pair};
use endpoint::{add_rows, read_state};
use envelope::{Envelope, Letter};
use keep::{Change, Keep, KeepFault};
use outbox::{OutboxFault, number_outs, settle};
use resequencer::take_in;
use std::alloc::{AllocError, Global};

/// What taking one envelope in changes, and what is told of it then.
#[derive(Drop)]
pub(crate) struct PlannedStep<S, C> {
    pub(crate) changes: Vec<Change<S, C>>,
    pub(crate) told: Grouped,
}

/// Whether a change concerns this entity's row, what it sends, or what is sent to it.
fn touches<S, C>(change: &Change<S, C>, entity: &Entity) -> bool
    ensures { result ≡ touches entity.now change.now }
{
    match change {
        // Where the next row goes is counted by `rows`, so the store isn't asked for it.
        Change::Journal(_, _) => false,
        Change::State(other, _) => other == entity,
        Change::Sent(letter) => letter.pair.from == *entity,
        Change::Settled(pair, _) => pair.from == *entity,
        Change::Handled(pair, _) | Change::NotHeld(pair, _) => pair.to == *entity,
        Change::Held(letter) => letter.pair.to == *entity,
    }
}

/// Whether one of these changes does: then it would have to be read on top of them.
fn are_touching<S, C>(changes: &[Change<S, C>], entity: &Entity) -> bool
    ensures { result ≡ list_any (touches entity.now) changes.now }
{
    changes.iter().any(|change| touches(change, entity))
}

/// What a letter is to its receiver.
fn input_of<C>(alloc: Global, letter: &Letter) -> Result<Input<C>, AllocError>
    ensures { IfOk result (λ input. input ≡ FromEntity letter.now.pair.from letter.now.number letter.now.message) }
{
    let from = letter.pair.from.copy(alloc)?;
    Ok(Input::FromEntity(from, letter.number, letter.message))
}

/// What a fault of numbering means for a step: there is none where no number is left, and else the store's fault.
fn stopped(fault: OutboxFault) -> Result<bool, KeepFault>
    ensures { result ≡ stopped fault }
{
    match fault {
        OutboxFault::NumberLimit => Ok(false),
        OutboxFault::Store(fault) => Err(fault),
    }
}

/// Adds a letter for each message that an entity sends, where numbers are left for them: whether they are.
fn number<H, K>(
    alloc: Global,
    keep: &mut K,
    entity: &Entity,
    outs: &[Out],
    changes: &mut Vec<Change<H::State, H::Command>>,
) -> Result<bool, KeepFault>
where
    H: Handler,
    K: Keep<State = H::State, Command = H::Command>,
    requires usable { (K.seen keep.old).usable ≡ true }
    requires room { length outs.now < 2 ^ 63 }
    ensures { Reads K.seen keep.old keep.new (λ t fit. (fit ≡ true → (changes.new.items ≡ changes.old.items
        ++ numbering t.sent entity.now outs.now)
        × NumbersFit t.sent entity.now outs.now)
        × (fit ≡ false → NumbersPass t.sent entity.now outs.now)) (keep_end result) }
{
    match number_outs::<H, K>(alloc, keep, entity, outs, changes) {
        Ok(()) => Ok(true),
        Err(fault) => stopped(fault),
    }
}

/// The step of a letter that finds its receiver in this state. One read of the store for each message that this sends.
// `_before` is there for the contract alone
fn react<H, K>(
    alloc: Global,
    keep: &mut K,
    _before: &[Change<H::State, H::Command>],
    rows: u64,
    letter: &Letter,
    mut state: H::State,
) -> Result<Option<PlannedStep<H::State, H::Command>>, KeepFault>
where
    H: Handler,
    K: Keep<State = H::State, Command = H::Command>,
    requires usable { (K.seen keep.old).usable ≡ true }
    requires kind { letter.now.pair.to.kind ≡ H.service.kind }
    requires apart { list_any (touches letter.now.pair.to) _before.now ≡ false }
    ensures { Reads K.seen keep.old keep.new (λ t step. IsNext letter.now t
        → state ≡ state_for H.service.reactions.opening (t.entity letter.now.pair.to)
        → IsStep H.service H.State.follows _before.now rows (OfLetter letter.now) t step) (keep_end result) }
{
    let Some(position) = Number::new(rows.saturating_add(1)) else {
        return Ok(None);
    };
    let Ok(input) = input_of(alloc, letter) else {
        return Err(KeepFault::Memory);
    };
    let mut outs = Outs::new(alloc);
    match H::apply(alloc, &mut state, &input, &mut outs) {
        Ok(()) => (),
        Err(HandlerFault::Memory) => return Err(KeepFault::Memory),
        // It ends the group. Given to the endpoint by itself it is refused with its reason.
        Err(HandlerFault::Business(_)) => return Ok(None),
    }
    let Ok(mut changes) = take_in(alloc, letter) else {
        return Err(KeepFault::Memory);
    };
    match number::<H, K>(alloc, keep, &letter.pair.to, outs.as_slice(), &mut changes) {
        Ok(true) => (),
        Ok(false) => return Ok(None),
        Err(fault) => return Err(fault),
    }
    match add_rows::<H>(alloc, position, &letter.pair.to, input, state, &mut changes) {
        Ok(()) => Ok(Some(PlannedStep {
            changes,
            told: Grouped::Handled(position.get()),
        })),
        Err(_) => Err(KeepFault::Memory),
    }
}

/// The step of a letter that is the next of its pair.
#[tactic(auto, using(crate::proofs::Reading::reads_then))]
fn plan_next<H, K>(
    alloc: Global,
    keep: &mut K,
    before: &[Change<H::State, H::Command>],
    rows: u64,
    letter: &Letter,
) -> Result<Option<PlannedStep<H::State, H::Command>>, KeepFault>
where
    H: Handler,
    K: Keep<State = H::State, Command = H::Command>,
    requires usable { (K.seen keep.old).usable ≡ true }
    requires kind { letter.now.pair.to.kind ≡ H.service.kind }
    requires apart { list_any (touches letter.now.pair.to) before.now ≡ false }
    ensures { Reads K.seen keep.old keep.new (λ t step. IsNext letter.now t
        → IsStep H.service H.State.follows before.now rows (OfLetter letter.now) t step) (keep_end result) }
{
    match read_state::<H, K>(alloc, keep, &letter.pair.to) {
        Ok(state) => react::<H, K>(alloc, keep, before, rows, letter, state),
        Err(fault) => Err(fault),
    }
}

/// The step of a letter, where it is the next of its pair.
#[tactic(auto, using(crate::proofs::Reading::reads_then))]
fn plan_letter<H, K>(
    alloc: Global,
    keep: &mut K,
    before: &[Change<H::State, H::Command>],
    rows: u64,
    letter: &Letter,
) -> Result<Option<PlannedStep<H::State, H::Command>>, KeepFault>
where
    H: Handler,
    K: Keep<State = H::State, Command = H::Command>,
    requires usable { (K.seen keep.old).usable ≡ true }
    requires kind { letter.now.pair.to.kind ≡ H.service.kind }
    requires apart { list_any (touches letter.now.pair.to) before.now ≡ false }
    ensures { Reads K.seen keep.old keep.new (IsStep H.service H.State.follows before.now rows (OfLetter letter.now)) (keep_end result) }
{
    match keep.handled(alloc, &letter.pair) {
        Ok(handled) => {
            if letter.number.get() == handled.saturating_add(1) {
                plan_next::<H, K>(alloc, keep, before, rows, letter)
            } else {
                Ok(None)
            }
        }
        Err(fault) => Err(fault),
    }
}

/// The step of a settle whose number was sent, where the mark rises.
// `_before` and `_rows` are there for the contract alone
#[tactic(auto, using(crate::proofs::Reading::reads_then))]
fn plan_mark<H, K>(
    alloc: Global,
    keep: &mut K,
    _before: &[Change<H::State, H::Command>],
    _rows: u64,
    pair: &Pair,
    number: u64,
) -> Result<Option<PlannedStep<H::State, H::Command>>, KeepFault>
where
    H: Handler,
    K: Keep<State = H::State, Command = H::Command>,
    requires usable { (K.seen keep.old).usable ≡ true }
    requires kind { pair.now.from.kind ≡ H.service.kind }
    requires apart { list_any (touches pair.now.from) _before.now ≡ false }
    ensures { Reads K.seen keep.old keep.new (λ t step. number ≤ t.sent pair.now
        → IsStep H.service H.State.follows _before.now _rows (OfSettle pair.now number) t step) (keep_end result) }
{
    match keep.settled(alloc, pair) {
        Ok(mark) => {
            // No mark rises: by itself it's answered without a transaction.
            if number <= mark {
                return Ok(None);
            }
            let Some(raised) = Number::new(number) else {
                return Ok(None);
            };
            match settle(alloc, pair, raised) {
                Ok(changes) => Ok(Some(PlannedStep {
                    changes,
                    told: Grouped::Settled(number),
                })),
                Err(_) => Err(KeepFault::Memory),
            }
        }
        Err(fault) => Err(fault),
    }
}

/// The step of a settle, where its number was sent and the mark rises.
#[tactic(auto, using(crate::proofs::Reading::reads_then))]
fn plan_settle<H, K>(
    alloc: Global,
    keep: &mut K,
    before: &[Change<H::State, H::Command>],
    rows: u64,
    pair: &Pair,
    number: u64,
) -> Result<Option<PlannedStep<H::State, H::Command>>, KeepFault>
where
    H: Handler,
    K: Keep<State = H::State, Command = H::Command>,
    requires usable { (K.seen keep.old).usable ≡ true }
    requires kind { pair.now.from.kind ≡ H.service.kind }
    requires apart { list_any (touches pair.now.from) before.now ≡ false }
    ensures { Reads K.seen keep.old keep.new (IsStep H.service H.State.follows before.now rows (OfSettle pair.now number))
        (keep_end result) }
{
    match keep.sent(alloc, pair) {
        Ok(sent) => {
            if number <= sent {
                plan_mark::<H, K>(alloc, keep, before, rows, pair, number)
            } else {
                Ok(None)
            }
        }
        Err(fault) => Err(fault),
    }
}

/// The entity that an envelope concerns: a letter's receiver, a settle's sender.
fn own_of(envelope: &Envelope) -> &Entity
    ensures { result.now ≡ own_of envelope.now }
{
    match envelope {
        Envelope::Letter(letter) => &letter.pair.to,
        Envelope::Settle(pair, _) => &pair.from,
    }
}

/// The step of an envelope, where it can be processed after these changes, none of which concerns its own entity: a
/// letter that is the next of its pair, or a settle by which a mark rises. `rows` is how long the journal is with them.
pub(crate) fn plan<H, K>(
    alloc: Global,
    keep: &mut K,
    before: &[Change<H::State, H::Command>],
    rows: u64,
    envelope: &Envelope,
) -> Result<Option<PlannedStep<H::State, H::Command>>, KeepFault>
where
    H: Handler,
    K: Keep<State = H::State, Command = H::Command>,
    requires usable { (K.seen keep.old).usable ≡ true }
    ensures { Reads K.seen keep.old keep.new (IsStep H.service H.State.follows before.now rows envelope.now) (keep_end result) }
{
    let own = own_of(envelope);
    // By itself it is refused as `NotMine`.
    if own.kind() != H::kind() {
        return Ok(None);
    }
    // The store's reads don't have the changes before it, which aren't written yet.
    if are_touching(before, own) {
        return Ok(None);
    }
    match envelope {
        Envelope::Letter(letter) => plan_letter::<H, K>(alloc, keep, before, rows, letter),
        Envelope::Settle(pair, number) => plan_settle::<H, K>(
            alloc, keep, before, rows, pair, *number,
        ),
    }
}
