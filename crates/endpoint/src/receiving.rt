//! How letters and settles that arrive are processed.

ghost use Rattle.std.specs.Prelude.{◌≡◌, ◌<◌, ◌≤◌, true, ⊤, IfOk};
ghost use Rattle.keep.specs.Law.{Reads};
ghost use Rattle.resequencer.specs.Waiting.{IsNextHeld, IsNextOf};
ghost use Rattle.endpoint.specs.Arrivals.{IngestMayWithin, DrainMay, SettleMay};
ghost use Rattle.endpoint.specs.Calls.{OfLetter, OfHeldLetter, OfSettle};
ghost use Rattle.endpoint.specs.Faults.{end_of};
ghost use Rattle.endpoint.specs.Parts.Receiving.{Works, IsNext, IsEarly, IsMissing, Waits};

use crate::handling::{apply_all, handle};
use crate::{EndFault, Ingested};
use activities::{Handler, Input};
use base::{Number, Pair};
use envelope::{Letter, Message};
use inbox::{Rank, Window};
use keep::Keep;
use std::alloc::Global;

/// How many letters of a pair were handled. One read of the store.
#[tactic(auto, using(crate::proofs::Parts::read_told))]
fn read_handled<K: Keep>(alloc: Global, keep: &mut K, pair: &Pair) -> Result<u64, EndFault>
    requires { (K.seen keep.old).usable ≡ true }
    ensures { Reads K.seen keep.old keep.new (λ t n. n ≡ t.handled pair.now) (end_of result) }
{
    Ok(keep.handled(alloc, pair)?)
}

/// The last number that a pair sent. One read of the store.
#[tactic(auto, using(crate::proofs::Parts::read_told))]
fn read_sent<K: Keep>(alloc: Global, keep: &mut K, pair: &Pair) -> Result<u64, EndFault>
    requires { (K.seen keep.old).usable ≡ true }
    ensures { Reads K.seen keep.old keep.new (λ t n. n ≡ t.sent pair.now) (end_of result) }
{
    Ok(keep.sent(alloc, pair)?)
}

/// The settled mark of a pair. One read of the store.
#[tactic(auto, using(crate::proofs::Parts::read_told))]
fn read_settled<K: Keep>(alloc: Global, keep: &mut K, pair: &Pair) -> Result<u64, EndFault>
    requires { (K.seen keep.old).usable ≡ true }
    ensures { Reads K.seen keep.old keep.new (λ t n. n ≡ t.settled pair.now) (end_of result) }
{
    Ok(keep.settled(alloc, pair)?)
}

/// The held message of a letter's number. One read of the store.
#[tactic(auto, using(crate::proofs::Parts::read_told))]
fn read_held<K: Keep>(
    alloc: Global,
    keep: &mut K,
    letter: &Letter,
) -> Result<Option<Message>, EndFault>
    requires { (K.seen keep.old).usable ≡ true }
    ensures { Reads K.seen keep.old keep.new (λ t m. m ≡ t.held letter.now.pair letter.now.number) (end_of result) }
{
    Ok(keep.held(alloc, &letter.pair, letter.number)?)
}

/// The held letter of a pair that is next. One read of the store.
#[tactic(auto, using(crate::proofs::Parts::read_told))]
fn read_next<K: Keep>(
    alloc: Global,
    keep: &mut K,
    pair: &Pair,
    handled: u64,
) -> Result<Option<Letter>, EndFault>
    requires { (K.seen keep.old).usable ≡ true }
    ensures reads { Reads K.seen keep.old keep.new (λ t found. IsNextHeld t.held pair.now handled found)
        (end_of result) }
    ensures next { IfOk result (λ found. IsNextOf pair.now handled found) }
{
    Ok(resequencer::next_held(alloc, keep, pair, handled)?)
}

/// Handles a letter that is the next of its pair.
fn handle_letter<H, K, W>(
    alloc: Global,
    keep: &mut K,
    letter: &Letter,
) -> Result<Ingested, EndFault>
where
    H: Handler,
    K: Keep<State = H::State, Command = H::Command>,
    W: Window,
    requires usable { (K.seen keep.old).usable ≡ true }
    requires kind { letter.now.pair.to.kind ≡ H.service.kind }
    ensures { Works K.seen keep.old keep.new W.ahead H.service OfHeldLetter (IsNext letter.now)
        (IngestMayWithin W.ahead H.service letter.now) result }
{
    // The handled mark rises in the letter's own transaction: a crash leaves both or neither.
    let changes = resequencer::take_in(alloc, letter)?;
    // Copied, since the letter is only lent and the journal keeps its sender.
    let from = letter.pair.from.copy(alloc)?;
    let input = Input::FromEntity(from, letter.number, letter.message);
    match handle::<H, K, W>(alloc, keep, &letter.pair.to, input, changes) {
        Ok(committed) => Ok(Ingested::Handled(committed.pos)),
        Err(fault) => Err(fault),
    }
}

/// Holds a letter that came too early, where none of its number is held. One transaction.
fn write_held<H, K, W>(alloc: Global, keep: &mut K, letter: &Letter) -> Result<Ingested, EndFault>
where
    H: Handler,
    K: Keep<State = H::State, Command = H::Command>,
    W: Window,
    requires usable { (K.seen keep.old).usable ≡ true }
    requires kind { letter.now.pair.to.kind ≡ H.service.kind }
    ensures { Works K.seen keep.old keep.new W.ahead H.service OfLetter (λ t. IsEarly W.ahead letter.now t
        × IsMissing letter.now t)
        (IngestMayWithin W.ahead H.service letter.now) result }
{
    let _number = letter.number.get(); // the proof needs that it is within the limit
    // Neither journal nor mark changes: until the letter is handled, no settle may cover it.
    let changes = resequencer::hold(alloc, letter)?;
    match apply_all::<H, K>(alloc, keep, changes) {
        Ok(()) => Ok(Ingested::Held),
        Err(fault) => Err(fault),
    }
}

/// Holds a letter that came too early; where one of its number is held, that one stays.
fn hold_letter<H, K, W>(alloc: Global, keep: &mut K, letter: &Letter) -> Result<Ingested, EndFault>
where
    H: Handler,
    K: Keep<State = H::State, Command = H::Command>,
    W: Window,
    requires usable { (K.seen keep.old).usable ≡ true }
    requires kind { letter.now.pair.to.kind ≡ H.service.kind }
    ensures { Works K.seen keep.old keep.new W.ahead H.service OfLetter (IsEarly W.ahead letter.now)
        (IngestMayWithin W.ahead H.service letter.now) result }
{
    let _number = letter.number.get(); // the proof needs that it is within the limit
    match read_held(alloc, keep, letter)? {
        // The first one stays: a letter that is redelivered says the same, and costs no transaction.
        Some(_) => Ok(Ingested::Held),
        None => write_held::<H, K, W>(alloc, keep, letter),
    }
}

/// Processes a letter: it is handled, held, or known already.
pub(crate) fn take_letter<H, K, W>(
    alloc: Global,
    keep: &mut K,
    letter: &Letter,
) -> Result<Ingested, EndFault>
where
    H: Handler,
    K: Keep<State = H::State, Command = H::Command>,
    W: Window,
    requires usable { (K.seen keep.old).usable ≡ true }
    requires kind { letter.now.pair.to.kind ≡ H.service.kind }
    ensures { Works K.seen keep.old keep.new W.ahead H.service OfLetter (λ _. ⊤)
        (IngestMayWithin W.ahead H.service letter.now) result }
{
    let handled = read_handled(alloc, keep, &letter.pair)?;
    match W::rank_of(handled, letter) {
        // With the mark, by which the duplicate is settled: the first settle may have been lost.
        Rank::Repeated => Ok(Ingested::Repeated(handled)),
        // Also where a held row has its number: that goes in the same transaction.
        Rank::Next => handle_letter::<H, K, W>(alloc, keep, letter),
        Rank::Early => hold_letter::<H, K, W>(alloc, keep, letter),
        // No loss: the letter stays unsettled at its sender, and is resent.
        Rank::TooEarly => Err(EndFault::TooEarly),
    }
}

/// Handles a letter that was held, and is the next of its pair: its number.
fn handle_held<H, K, W>(
    alloc: Global,
    keep: &mut K,
    letter: &Letter,
) -> Result<Option<u64>, EndFault>
where
    H: Handler,
    K: Keep<State = H::State, Command = H::Command>,
    W: Window,
    requires usable { (K.seen keep.old).usable ≡ true }
    requires kind { letter.now.pair.to.kind ≡ H.service.kind }
    ensures { Works K.seen keep.old keep.new W.ahead H.service OfHeldLetter
        (λ t. IsNext letter.now t × Waits letter.now t)
        (DrainMay H.service letter.now.pair) result }
{
    match handle_letter::<H, K, W>(alloc, keep, letter) {
        Ok(_) => Ok(Some(letter.number.get())),
        Err(fault) => Err(fault),
    }
}

/// Handles the next letter of a pair, where it is held.
pub(crate) fn take_held<H, K, W>(
    alloc: Global,
    keep: &mut K,
    pair: &Pair,
) -> Result<Option<u64>, EndFault>
where
    H: Handler,
    K: Keep<State = H::State, Command = H::Command>,
    W: Window,
    requires usable { (K.seen keep.old).usable ≡ true }
    requires kind { pair.now.to.kind ≡ H.service.kind }
    ensures { Works K.seen keep.old keep.new W.ahead H.service OfHeldLetter (λ _. ⊤) (DrainMay H.service pair.now)
        result }
{
    // Read here and not passed in: a mark that the caller has may be older than the store's.
    let handled = read_handled(alloc, keep, pair)?;
    match read_next(alloc, keep, pair, handled)? {
        Some(letter) => handle_held::<H, K, W>(alloc, keep, &letter),
        None => Ok(None),
    }
}

/// Raises the settled mark of a pair, up to a number that was sent. One transaction.
fn write_mark<H, K, W>(
    alloc: Global,
    keep: &mut K,
    pair: &Pair,
    number: Number,
) -> Result<u64, EndFault>
where
    H: Handler,
    K: Keep<State = H::State, Command = H::Command>,
    W: Window,
    requires usable { (K.seen keep.old).usable ≡ true }
    requires kind { pair.now.from.kind ≡ H.service.kind }
    ensures { Works K.seen keep.old keep.new W.ahead H.service OfSettle (λ t. (t.settled pair.now < number)
        × (number ≤ t.sent pair.now))
        (SettleMay H.service pair.now number) result }
{
    let changes = outbox::settle(alloc, pair, number)?;
    match apply_all::<H, K>(alloc, keep, changes) {
        Ok(()) => Ok(number.get()),
        Err(fault) => Err(fault),
    }
}

/// Marks what was sent on a pair as settled up to a number that was sent: the greater of that number and the mark.
fn raise_mark<H, K, W>(
    alloc: Global,
    keep: &mut K,
    pair: &Pair,
    number: u64,
) -> Result<u64, EndFault>
where
    H: Handler,
    K: Keep<State = H::State, Command = H::Command>,
    W: Window,
    requires usable { (K.seen keep.old).usable ≡ true }
    requires kind { pair.now.from.kind ≡ H.service.kind }
    ensures { Works K.seen keep.old keep.new W.ahead H.service OfSettle (λ t. number ≤ t.sent pair.now)
        (SettleMay H.service pair.now number)
        result }
{
    let mark = read_settled(alloc, keep, pair)?;
    // The number was sent, so it isn't too large: only 0 fails here, and it settles nothing.
    let Some(raised) = Number::new(number) else {
        return Ok(mark);
    };
    // A settle that is redelivered or overtaken costs no transaction, and never lowers the mark.
    if number <= mark {
        return Ok(mark);
    }
    write_mark::<H, K, W>(alloc, keep, pair, raised)
}

/// Marks what was sent on a pair as settled, up to a number.
pub(crate) fn settle<H, K, W>(
    alloc: Global,
    keep: &mut K,
    pair: &Pair,
    number: u64,
) -> Result<u64, EndFault>
where
    H: Handler,
    K: Keep<State = H::State, Command = H::Command>,
    W: Window,
    requires usable { (K.seen keep.old).usable ≡ true }
    requires kind { pair.now.from.kind ≡ H.service.kind }
    ensures { Works K.seen keep.old keep.new W.ahead H.service OfSettle (λ _. ⊤) (SettleMay H.service pair.now number)
        result }
{
    let sent = read_sent(alloc, keep, pair)?;
    // Before the mark rises: a mark above what was sent would settle letters that nobody has handled.
    if number > sent {
        return Err(EndFault::NotSent);
    }
    raise_mark::<H, K, W>(alloc, keep, pair, number)
}
