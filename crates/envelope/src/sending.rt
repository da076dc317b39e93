//! Envelopes as frames.

ghost use Rattle.std.specs.Prelude.{◌≡◌, true, ◌<◌, ◌≤◌, ◌↔◌, length, IfOk, OnOk, IsErrOf, IsOkUnless};
ghost use Rattle.base.specs.Entity.{queue_of};
ghost use Rattle.stomp_frame.specs.Frames.{header, with_header};
ghost use Rattle.stomp_frame.specs.declared.command.Command.TheVariants.{Send};
ghost use Rattle.envelope.specs.Written.{heading, send_of, IsNumbered, IsBadSettle};
ghost use Rattle.envelope.specs.Sending.{is_name, IsShort};
ghost use Rattle.envelope.specs.Reading.{Carries};
ghost use Rattle.envelope.specs.declared.message.Envelope.TheVariants.{Letter as LetterOf, Settle as SettleOf};

use crate::{Envelope, EnvelopeFault, Letter};
use base::limits::MAX_BODY;
use base::{Kind, Number, Pair};
use itoa::Buffer;
use std::alloc::Global;
use stomp_frame::{Command, Frame};

/// Appends a header to a SEND that has room for it.
fn push(frame: &mut Frame<MAX_BODY>, name: &str, value: &str) -> Result<(), EnvelopeFault>
    requires command { frame.old.command ≡ Send }
    requires room { length frame.old.headers < 32 }
    requires name { is_name name.now ≡ true }
    requires value { IsShort value.now }
    ensures ok { OnOk result (frame.new ≡ with_header frame.old (header name.now value.now)) }
    ensures fault { IsOkUnless result EnvelopeFault.Memory }
{
    frame.push_header(name, value)?;
    Ok(())
}

/// A SEND to the queue of a kind, with all headers and a body.
fn send(
    alloc: Global,
    receiver: Kind,
    word: &str,
    pair: &Pair,
    number: Number,
    body: &str,
) -> Result<Frame<MAX_BODY>, EnvelopeFault>
    requires word { IsShort word.now }
    requires body { length body.now ≤ 64 }
    ensures frame { IfOk result (λ f. f
        ≡ record { command = Send; headers = heading (queue_of receiver) word.now pair.now number; body = body.now }) }
    ensures numbered { OnOk result (IsNumbered pair.now number) }
    ensures fault { IsOkUnless result EnvelopeFault.Memory }
{
    // On the stack: the numeral is copied into the frame, and needs no memory of its own.
    let mut digits = Buffer::new();
    let mut frame = Frame::new(alloc, Command::Send);
    push(&mut frame, "destination", receiver.queue())?;
    push(&mut frame, "kind", word)?;
    push(&mut frame, "from", pair.from.text())?;
    push(&mut frame, "to", pair.to.text())?;
    push(&mut frame, "number", digits.format(number.get()))?;
    frame.set_body(body.as_bytes())?;
    Ok(frame)
}

/// The SEND of a letter (STOMP 1.2, section "SEND"): to the queue of its receiver's service, with the message as its
/// body. The headers are those that [`to_send`] tells.
///
/// # Errors
/// `Memory` if an allocation fails.
pub fn letter_to_send(alloc: Global, letter: &Letter) -> Result<Frame<MAX_BODY>, EnvelopeFault>
    ensures frame { IfOk result (λ f. f ≡ send_of (LetterOf letter.now)) }
    ensures carries { IfOk result (λ f. Carries f.headers f.body (LetterOf letter.now)) }
    ensures fault { IsOkUnless result EnvelopeFault.Memory }
{
    // Of what is borrowed: an `Envelope` that is made only to be sent would copy two entities.
    let pair = &letter.pair;
    let body = letter.message.body(alloc)?;
    // To the receiver's service: all its entities share one queue.
    send(alloc, pair.to.kind(), "message", pair, letter.number, &body)
}

/// The SEND of a settle: back to the queue of the service that sends the letters of the pair, with an empty body. The
/// headers are those that [`to_send`] tells.
///
/// # Errors
/// `Memory` if an allocation fails.
pub fn settle_to_send(
    alloc: Global,
    pair: &Pair,
    number: Number,
) -> Result<Frame<MAX_BODY>, EnvelopeFault>
    ensures frame { IfOk result (λ f. f ≡ send_of (SettleOf pair.now number)) }
    ensures carries { IfOk result (λ f. Carries f.headers f.body (SettleOf pair.now number)) }
    ensures fault { IsOkUnless result EnvelopeFault.Memory }
{
    // To the letter's sender: the settle goes the other way, but it names the pair as the letter did.
    send(alloc, pair.from.kind(), "settle", pair, number, "")
}

/// The SEND that carries an envelope (STOMP 1.2, section "SEND"): the headers `destination`, `kind`, `from`, `to` and
/// `number` in this order, and the body. `from` and `to` are those of the pair, in a settle too; `number` is decimal,
/// without leading zeros.
///
/// A letter goes to the queue of its receiver's service, with the message as its body. A settle goes back to the queue
/// of the service that sends the letters, with an empty body.
///
/// # Errors
/// `BadEnvelope` for a settle whose number isn't 1 to 2^40; else `Memory` if an allocation fails.
pub fn to_send(alloc: Global, envelope: &Envelope) -> Result<Frame<MAX_BODY>, EnvelopeFault>
    ensures frame { IfOk result (λ f. f ≡ send_of envelope.now) }
    ensures carries { IfOk result (λ f. Carries f.headers f.body envelope.now) }
    ensures refused { IsErrOf result EnvelopeFault.BadEnvelope ↔ IsBadSettle envelope.now }
{
    match envelope {
        Envelope::Letter(letter) => letter_to_send(alloc, letter),
        Envelope::Settle(pair, number) => {
            // A settle is made of how many letters were handled, which may be none: such a one isn't sent.
            let Some(number) = Number::new(*number) else {
                return Err(EnvelopeFault::BadEnvelope);
            };
            settle_to_send(alloc, pair, number)
        }
    }
}
