//! A MESSAGE of which nothing is escaped, as most are: its lines are appended as they are.

ghost use Rattle.std.specs.Prelude.{◌≡◌, ◌++◌, true, is_none, OnOk, OnErr};
ghost use Rattle.std.specs.List.{list_all};
ghost use Rattle.stomp_frame.specs.Frames.{letter_of, canonical, line_of, with_lf};
ghost use Rattle.stomp_frame.specs.Inner.Writing.{Extends, is_as_is, lines_of, start_of};
ghost use Rattle.stomp_frame.specs.declared.command.Command.TheVariants.{Message};
ghost use Rattle.stomp_session.specs.Parts.Plain.{ack_text, is_plain_header, is_plain_message};
ghost use Rattle.stomp_session.specs.Replies.{leading_headers, message_frame};

use crate::Delivery;
use itoa::Buffer;
use std::alloc::AllocError;
use stomp_frame::Header;

/// Whether an octet is written as it is.
#[inline(always)]
fn is_plain_octet(octet: u8) -> bool
    ensures { result ≡ is_none (letter_of octet) }
{
    // most octets are letters after all of these
    octet > b'\\' || !matches!(octet, b'\r' | b'\n' | b':' | b'\\')
}

/// Whether nothing of a text is escaped.
fn is_plain(text: &str) -> bool
    ensures { result ≡ is_as_is text.now }
{
    text.as_bytes().iter().all(|octet| is_plain_octet(*octet))
}

/// Whether nothing of a header is escaped.
fn is_plain_header(header: &Header) -> bool
    ensures { result ≡ is_plain_header header.now }
{
    is_plain(header.name()) && is_plain(header.value())
}

/// Whether nothing of some headers is escaped.
fn are_plain(headers: &[Header]) -> bool
    ensures { result ≡ list_all is_plain_header headers.now }
{
    headers.iter().all(|header| is_plain_header(header))
}

/// Whether nothing of a MESSAGE is escaped.
pub fn is_plain_message(delivery: &Delivery) -> bool
    ensures { result ≡ is_plain_message delivery.now }
{
    is_plain(delivery.destination) && is_plain(delivery.subscription) && are_plain(delivery.headers)
}

/// Appends two texts, one after the other.
#[inline(always)]
#[tactic(auto, using(stomp_frame::proofs::Extending::extends_more))]
fn push_both(out: &mut Vec<u8>, first: &[u8], second: &str) -> Result<(), AllocError>
    ensures ok { OnOk result (out.new.items ≡ out.old.items ++ first.now ++ second.now) }
    ensures err { OnErr result (Extends out.old.items out.new.items) }
{
    out.extend_from_slice(first)?;
    out.extend_from_slice(second.as_bytes())
}

/// Appends a header's line, and its LF.
#[tactic(auto, using(stomp_frame::proofs::Extending::extends_more, crate::proofs::AsTheyAre::header_is))]
fn push_line(out: &mut Vec<u8>, header: &Header) -> Result<(), AllocError>
    requires { is_plain_header header.now ≡ true }
    ensures ok { OnOk result (out.new.items ≡ out.old.items ++ with_lf (line_of Message header.now)) }
    ensures err { OnErr result (Extends out.old.items out.new.items) }
{
    // By its parts: the header's own text, one piece in memory, isn't seen outside of `stomp_frame`.
    out.extend_from_slice(header.name().as_bytes())?;
    push_both(out, b":", header.value())?;
    out.push(b'\n')?;
    Ok(())
}

/// Appends the lines of some headers.
#[tactic(auto, using(stomp_frame::proofs::Extending::extends_more))]
fn push_lines(out: &mut Vec<u8>, headers: &[Header]) -> Result<(), AllocError>
    requires { list_all is_plain_header headers.now ≡ true }
    ensures ok { OnOk result (out.new.items ≡ out.old.items ++ lines_of Message headers.now) }
    ensures err { OnErr result (Extends out.old.items out.new.items) }
{
    for header in headers {
        push_line(out, header)?;
    }
    Ok(())
}

/// Appends the line of the delivery's number, where it has one, but for its LF.
#[inline(always)]
fn push_ack(out: &mut Vec<u8>, ack: Option<u64>) -> Result<(), AllocError>
    ensures ok { OnOk result (out.new.items ≡ out.old.items ++ ack_text ack) }
    ensures err { OnErr result (Extends out.old.items out.new.items) }
{
    match ack {
        // The LF in front ends the line before: so no line is left open where there is no number.
        Some(number) => push_both(out, b"\nack:", Buffer::new().format(number)),
        None => Ok(()),
    }
}

/// Appends what is before the headers that are taken over.
#[tactic(auto, using(stomp_frame::proofs::Extending::extends_more))]
fn push_head(out: &mut Vec<u8>, delivery: &Delivery) -> Result<(), AllocError>
    requires { is_plain_message delivery.now ≡ true }
    ensures ok { let d = delivery.now in
        OnOk result (out.new.items ≡ out.old.items ++ (start_of Message d.body ++ lines_of Message (leading_headers d))) }
    ensures err { OnErr result (Extends out.old.items out.new.items) }
{
    let mut digits = Buffer::new();
    push_both(
        out,
        b"MESSAGE\ncontent-length:",
        digits.format(delivery.body.len()),
    )?;
    push_both(out, b"\ndestination:", delivery.destination)?;
    push_both(out, b"\nmessage-id:", digits.format(delivery.number))?;
    push_both(out, b"\nsubscription:", delivery.subscription)?;
    push_ack(out, delivery.ack)?;
    out.push(b'\n')?;
    Ok(())
}

/// The octets of a MESSAGE that aren't of its destination, its subscription, its body or what is taken over: names,
/// numbers of 20 digits at most, and ends of lines.
const FRAME: usize = 192;

/// How long a MESSAGE is at most where nothing is escaped.
fn room_of(delivery: &Delivery) -> usize {
    // Saturating: for a sum that doesn't fit, the allocation fails.
    let mut room = delivery.body.len().saturating_add(FRAME);
    room = room.saturating_add(delivery.destination.len());
    room = room.saturating_add(delivery.subscription.len());
    for header in delivery.headers {
        room = room.saturating_add(header.name().len());
        room = room.saturating_add(header.value().len());
        room = room.saturating_add(2);
    }
    room
}

/// Appends a MESSAGE of which nothing is escaped.
#[tactic(auto, using(stomp_frame::proofs::Extending::extends_more))]
fn push_message(out: &mut Vec<u8>, delivery: &Delivery) -> Result<(), AllocError>
    requires { is_plain_message delivery.now ≡ true }
    ensures ok { OnOk result (out.new.items ≡ out.old.items ++ canonical (message_frame delivery.now)) }
    ensures err { OnErr result (Extends out.old.items out.new.items) }
{
    // One allocation: a vector that doubles wanted 120,128 octets for a body of 60,000.
    out.reserve(room_of(delivery))?;
    push_head(out, delivery)?;
    push_lines(out, delivery.headers)?;
    out.push(b'\n')?;
    out.extend_from_slice(delivery.body)?;
    out.push(0)?;
    Ok(())
}

/// Appends a MESSAGE of which nothing is escaped, or nothing.
///
/// # Errors
/// If an allocation fails.
pub fn write_plain(delivery: &Delivery, out: &mut Vec<u8>) -> Result<(), AllocError>
    requires { is_plain_message delivery.now ≡ true }
    ensures ok { OnOk result (out.new.items ≡ out.old.items ++ canonical (message_frame delivery.now)) }
    ensures err { OnErr result (out.new.items ≡ out.old.items) }
{
    let before = out.len();
    // Mostly the reservation fails. That the pushes stay within it isn't proved, so what was appended is taken back.
    if push_message(out, delivery).is_err() {
        out.truncate(before);
        return Err(AllocError);
    }
    Ok(())
}
