//! Frames as envelopes.

ghost use Rattle.std.specs.Prelude.{◌≡◌, codes, option_and_then};
ghost use Rattle.stomp_frame.specs.Frames.{value_of};
ghost use Rattle.envelope.specs.Reading.{read_entity, read_number, read_content, read_envelope, read_frame, IsAnswer};
ghost use Rattle.envelope.specs.Reading.{IsReading};

use crate::{Envelope, EnvelopeFault, Letter, Message};
use base::limits::MAX_BODY;
use base::{Entity, Number, Pair};
use std::alloc::Global;
use stomp_frame::{Command, Frame};
use text::read_number;

/// The entity that the first header of a name tells.
fn entity_in(alloc: Global, frame: &Frame<MAX_BODY>, name: &str) -> Result<Entity, EnvelopeFault>
    ensures { IsAnswer (option_and_then read_entity (value_of name.now frame.now.headers)) result }
{
    let text = frame.get(name).ok_or(EnvelopeFault::BadEnvelope)?;
    Ok(Entity::read(alloc, text)?)
}

/// The number that is written so: decimal, from 1 to 2^40, without a sign and without leading zeros.
fn number_of(text: &str) -> Option<Number>
    ensures { result ≡ read_number text.now }
{
    let number = read_number(text)?;
    Number::new(number)
}

/// The letter or the settle of a word, a pair, a number and a body.
fn content_of(
    alloc: Global,
    kind: &str,
    pair: Pair,
    number: Number,
    body: &[u8],
) -> Result<Envelope, EnvelopeFault>
    ensures { IsAnswer (read_content kind.now pair number body.now) result }
{
    match kind {
        "message" => Ok(Envelope::Letter(Letter {
            pair,
            number,
            message: Message::of_body(alloc, body)?,
        })),
        // A body would say nothing, but an envelope has one spelling, as a letter has.
        "settle" if body.is_empty() => Ok(Envelope::Settle(pair, number.get())),
        _ => Err(EnvelopeFault::BadEnvelope),
    }
}

/// The envelope that the headers and the body of a frame stand for, whatever its command is.
fn envelope_in(alloc: Global, frame: &Frame<MAX_BODY>) -> Result<Envelope, EnvelopeFault>
    ensures { IsAnswer (read_envelope frame.now.headers frame.now.body) result }
{
    let kind = frame.get("kind").ok_or(EnvelopeFault::BadEnvelope)?;
    let from = entity_in(alloc, frame, "from")?;
    let to = entity_in(alloc, frame, "to")?;
    let number = frame
        .get("number")
        .and_then(number_of)
        .ok_or(EnvelopeFault::BadEnvelope)?;
    content_of(alloc, kind, Pair { from, to }, number, frame.body())
}

/// The envelope that a MESSAGE carries (STOMP 1.2, section "MESSAGE"): the first values of `kind`, `from`, `to` and
/// `number` and the body must be those that `to_send` writes for it. Other headers, as those that a broker adds, aren't
/// looked at.
///
/// # Errors
/// `BadEnvelope` where the frame is no MESSAGE, or these are no envelope's; else `Memory` if an allocation fails.
pub fn from_message(alloc: Global, frame: &Frame<MAX_BODY>) -> Result<Envelope, EnvelopeFault>
    ensures read { IsAnswer (read_frame frame.now) result }
    ensures exact { IsReading frame.now result }
{
    // What a client wrote, a SEND with these very headers, isn't taken for what a broker handed on.
    if frame.command() != Command::Message {
        return Err(EnvelopeFault::BadEnvelope);
    }
    envelope_in(alloc, frame)
}
