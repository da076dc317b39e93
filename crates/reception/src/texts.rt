//! The texts of the frames that a client writes for what came: each is made before anything is done, and appended as it
//! is.

ghost use Rattle.std.specs.Prelude.{◌≡◌, ◌≤◌, ◌++◌, ◌∷◌, [], List, false, length, IfOk, OnOk, IfErr};
ghost use Rattle.base.specs.Entity.{queue_of};
ghost use Rattle.stomp_frame.specs.Commands.{is_exempt};
ghost use Rattle.stomp_frame.specs.Frames.{Content};
ghost use Rattle.stomp_client.specs.Delivered.{IsDelivered};
ghost use Rattle.stomp_client.specs.Frames.{subscribe_frame, in_transaction};
ghost use Rattle.stomp_client.specs.Written.{AreWhole};
ghost use Rattle.envelope.specs.Written.{send_of};
ghost use Rattle.envelope.specs.declared.message.Envelope.TheVariants.{Settle};
ghost use Rattle.reception.specs.Replies.{answer, settling, IsTextOf, Writes};
ghost use Rattle.reception.specs.Faults.{IsWant};

use crate::ReceptionFault;
use base::limits::MAX_BODY;
use base::{Kind, Number, Pair};
use envelope::settle_to_send;
use std::alloc::{AllocError, Global};
use stomp_client::{
    ClientSession, answer_frame, in_transaction, subscribe_frame, transaction_frame,
};
use stomp_frame::{Command, Frame, encode};

/// Appends the text of one more frame.
#[tactic(auto, using(crate::proofs::Spelling::text_behind))]
fn add(text: &mut Vec<u8>, frame: &Frame<MAX_BODY>) -> Result<(), AllocError>
    ensures { (frames : List Content) → IsTextOf frames text.old.items
        → OnOk result (IsTextOf (frames ++ frame.now ∷ []) text.new.items) }
{
    // Called for what its contract says: every frame has a text, so only memory can be wanting.
    frame.holds();
    match encode(frame, text) {
        Ok(()) => Ok(()),
        // Every frame can be written, unless there is no memory.
        Err(_) => Err(AllocError),
    }
}

/// The text of one frame.
#[tactic(auto, using(crate::proofs::Spelling::no_text))]
fn text_of(alloc: Global, frame: &Frame<MAX_BODY>) -> Result<Vec<u8>, AllocError>
    ensures { IfOk result (λ text. IsTextOf (frame.now ∷ []) text.items) }
{
    let mut text = Vec::new(alloc);
    add(&mut text, frame)?;
    Ok(text)
}

/// The text of four frames, one after the other.
#[tactic(auto, using(crate::proofs::Spelling::no_text))]
fn text_of_four(
    alloc: Global,
    first: &Frame<MAX_BODY>,
    second: &Frame<MAX_BODY>,
    third: &Frame<MAX_BODY>,
    fourth: &Frame<MAX_BODY>,
) -> Result<Vec<u8>, AllocError>
    ensures { IfOk result (λ text. IsTextOf (first.now ∷ second.now ∷ third.now ∷ fourth.now ∷ []) text.items) }
{
    let mut text = Vec::new(alloc);
    add(&mut text, first)?;
    add(&mut text, second)?;
    add(&mut text, third)?;
    add(&mut text, fourth)?;
    Ok(text)
}

/// ACK or NACK of a MESSAGE, in no transaction.
pub(crate) fn answer_text(
    alloc: Global,
    command: Command,
    message: &Frame<MAX_BODY>,
) -> Result<Vec<u8>, AllocError>
    requires plain { is_exempt command ≡ false }
    requires message { IsDelivered message.now }
    ensures { IfOk result (λ text. IsTextOf (answer command message.now) text.items) }
{
    let frame = answer_frame(alloc, command, message, None)?;
    text_of(alloc, &frame)
}

/// SUBSCRIBE to the queue of a kind.
pub(crate) fn subscribe_text(alloc: Global, kind: Kind) -> Result<Vec<u8>, AllocError>
    ensures { IfOk result (λ text. IsTextOf (subscribe_frame (queue_of kind) ∷ []) text.items) }
{
    let frame = subscribe_frame(alloc, kind.queue())?;
    text_of(alloc, &frame)
}

/// The SEND of a settle, in no transaction.
pub(crate) fn settle_text(
    alloc: Global,
    pair: &Pair,
    number: Number,
) -> Result<Vec<u8>, ReceptionFault>
    ensures text { IfOk result (λ text. IsTextOf (send_of (Settle pair.now number) ∷ []) text.items) }
    ensures fault { IfErr result IsWant }
{
    let frame = settle_to_send(alloc, pair, number)?;
    Ok(text_of(alloc, &frame)?)
}

/// The SEND of a settle in a transaction.
fn settle_within(
    alloc: Global,
    pair: &Pair,
    number: Number,
    transaction: u64,
) -> Result<Frame<MAX_BODY>, ReceptionFault>
    ensures frame { IfOk result (λ f. f ≡ in_transaction (Some transaction) (send_of (Settle pair.now number))) }
    ensures fault { IfErr result IsWant }
{
    let frame = settle_to_send(alloc, pair, number)?;
    Ok(in_transaction(frame, Some(transaction))?)
}

/// A transaction: a MESSAGE is acknowledged, and its pair is settled up to a number.
pub(crate) fn settling_text(
    alloc: Global,
    message: &Frame<MAX_BODY>,
    transaction: u64,
    pair: &Pair,
    number: Number,
) -> Result<Vec<u8>, ReceptionFault>
    requires { IsDelivered message.now }
    ensures text { IfOk result (λ text. IsTextOf (settling message.now transaction pair.now number) text.items) }
    ensures fault { IfErr result IsWant }
{
    // One transaction: where the connection is cut amid these frames the broker does none of them, and redelivers the
    // MESSAGE.
    let begin = transaction_frame(alloc, Command::Begin, transaction)?;
    let ack = answer_frame(alloc, Command::Ack, message, Some(transaction))?;
    let settle = settle_within(alloc, pair, number, transaction)?;
    let commit = transaction_frame(alloc, Command::Commit, transaction)?;
    Ok(text_of_four(alloc, &begin, &ack, &settle, &commit)?)
}

/// Appends the text of frames for which room was found.
#[tactic(auto, using(crate::proofs::Spelling::writes_text))]
pub(crate) fn write(client: &mut ClientSession<u64>, text: &[u8])
    requires room { length text.now ≤ client.old.room }
    requires text { AreWhole text.now }
    ensures { (frames : List Content) → IsTextOf frames text.now → Writes frames client.old.client client.new.client }
{
    match client.append(text) {
        Ok(()) => (),
        // Its room was found before.
        Err(_) => unreachable!(),
    }
}
