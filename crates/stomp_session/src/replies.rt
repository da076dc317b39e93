//! The frames that a server writes, appended to what is to be sent.

ghost use Rattle.std.specs.Prelude.{◌≡◌, ◌++◌, ◌∷◌, [], map, if◌then◌else◌, is_some, codes, decimal, IfOk};
ghost use Rattle.std.specs.Option.{option_copied};
ghost use Rattle.stomp_frame.specs.Frames.{frame, header};
ghost use Rattle.stomp_session.specs.Replies.{Writes, ack_headers, connected_frame, error_frame, error_headers};
ghost use Rattle.stomp_session.specs.Replies.{message_frame, receipt_frame, receipt_told};

use crate::SessionFault;
use crate::plain::{is_plain_message, write_plain};
use crate::refusing::opens;
use base::limits::{MAX_BODY, MAX_ECHOED};
use itoa::Buffer;
use std::alloc::{AllocError, Global};
use std::marker::Model;
use stomp_frame::{Command, Frame, Header, encode_parts};

/// Appends the canonical text of a frame of these parts.
fn write(
    command: Command,
    first: &[(&str, &str)],
    headers: &[Header],
    body: &[u8],
    out: &mut Vec<u8>,
) -> Result<(), SessionFault>
    ensures { let lines = map (λ pair. header pair.0.now pair.1.now) first.now ++ headers.now in
        Writes (frame command lines body.now) out.old.items out.new.items result }
{
    match encode_parts(command, first, headers, body, out) {
        Ok(()) => Ok(()),
        Err(_) => Err(SessionFault::Memory),
    }
}

/// Appends the answer to CONNECT and STOMP (STOMP 1.2, section "CONNECT or STOMP Frame"): CONNECTED with version 1.2
/// and no heart-beat.
///
/// # Errors
/// `Memory` if an allocation fails, and then nothing was appended.
pub fn write_connected(out: &mut Vec<u8>) -> Result<(), SessionFault>
    ensures { Writes connected_frame out.old.items out.new.items result }
{
    let headers = [("version", "1.2"), ("heart-beat", "0,0")];
    write(Command::Connected, &headers, &[], &[], out)
}

/// Appends the RECEIPT of a receipt that was asked for (STOMP 1.2, section "RECEIPT").
///
/// # Errors
/// `Memory` if an allocation fails, and then nothing was appended.
pub fn write_receipt(receipt: &str, out: &mut Vec<u8>) -> Result<(), SessionFault>
    ensures { Writes (receipt_frame receipt.now) out.old.items out.new.items result }
{
    write(Command::Receipt, &[("receipt-id", receipt)], &[], &[], out)
}

/// The receipt that an ERROR about a frame tells. It is left out where it has more than 128 octets, and CONNECT and
/// STOMP ask for none.
pub fn receipt_told(frame: &Frame<MAX_BODY>) -> Option<&str>
    ensures { option_copied result ≡ receipt_told frame.now }
{
    if opens(frame.command()) {
        return None;
    }
    match frame.get("receipt") {
        Some(receipt) if receipt.len() <= MAX_ECHOED => Some(receipt),
        _ => None,
    }
}

/// The headers of an ERROR.
fn error_headers(
    alloc: Global,
    number: u8,
    name: &str,
    receipt: Option<&str>,
) -> Result<Vec<Header>, AllocError>
    ensures { IfOk result (λ hs. hs.items ≡ error_headers number name.now (option_copied receipt.entry)) }
{
    // A number and a name, and no `SessionFault`: a server also reports faults that a session doesn't know.
    let message = format!(in alloc; "{number} {name}")?;
    let mut headers = Vec::with_capacity(alloc, 3)?;
    // A client whose versions don't do is to learn the one that does.
    if number == SessionFault::Version.number() {
        headers.push(Header::new(alloc, "version", "1.2")?)?;
    }
    headers.push(Header::new(alloc, "message", message.as_str())?)?;
    if let Some(receipt) = receipt {
        headers.push(Header::new(alloc, "receipt-id", receipt)?)?;
    }
    Ok(headers)
}

/// Appends the ERROR that refuses a frame (STOMP 1.2, section "ERROR"), by the fault's number and name: with the
/// version that would do where that is what was refused, with the receipt if one is told, and with an empty body.
///
/// # Errors
/// `Memory` if an allocation fails, and then nothing was appended.
pub fn write_error(
    alloc: Global,
    number: u8,
    name: &str,
    receipt: Option<&str>,
    out: &mut Vec<u8>,
) -> Result<(), SessionFault>
    ensures { Writes (error_frame number name.now (option_copied receipt.entry)) out.old.items out.new.items result }
{
    // By number and name, so that a server can report faults that a session doesn't know.
    let headers = error_headers(alloc, number, name, receipt)?;
    write(Command::Error, &[], &headers, &[], out)
}

/// A message that is handed to a subscription.
#[derive(Debug, Drop)]
pub struct Delivery<'a> {
    /// Where its SEND went.
    pub destination: &'a str,
    /// The number of the message.
    pub number: u64,
    /// The name of the subscription within its session.
    pub subscription: &'a str,
    /// The number of the delivery, for other acknowledge modes than `auto`.
    pub ack: Option<u64>,
    /// The headers that are taken over from the SEND.
    pub headers: &'a [Header],
    /// The body of the SEND.
    pub body: &'a [u8],
}

impl<'a> Model for Delivery<'a> {
    ghost use Rattle.stomp_session.specs.Replies.{Delivered};

    ghost Value = { Delivered };

    ghost view = { λ d. record {
      destination = d.destination.now;
      number = d.number;
      subscription = d.subscription.now;
      ack = d.ack;
      headers = d.headers.now;
      body = d.body.now;
    } };
}

/// Appends the MESSAGE of a delivery whose numbers are written already.
fn write_numbered<'a>(
    delivery: &'a Delivery<'a>,
    number: &'a str,
    ack: &'a str,
    out: &mut Vec<u8>,
) -> Result<(), SessionFault>
    requires number { number.now ≡ decimal delivery.now.number }
    requires ack { ack_headers delivery.now.ack ≡ (if is_some delivery.now.ack then header (codes "ack") ack.now ∷ []
        else []) }
    ensures { Writes (message_frame delivery.now) out.old.items out.new.items result }
{
    let headers = [
        ("destination", delivery.destination),
        ("message-id", number),
        ("subscription", delivery.subscription),
        ("ack", ack),
    ];
    // `ack` is the last, so that without it the slice is just shorter.
    let count = if delivery.ack.is_some() { 4 } else { 3 };
    write(
        Command::Message,
        &headers[..count],
        delivery.headers,
        delivery.body,
        out,
    )
}

/// Appends the MESSAGE of a delivery (STOMP 1.2, section "MESSAGE"): `destination`, `message-id`, `subscription` and,
/// where the delivery has a number, `ack`; then the headers that are taken over, in order; then the body, which is
/// copied once.
///
/// # Errors
/// `Memory` if an allocation fails, and then nothing was appended.
pub fn write_message(delivery: &Delivery, out: &mut Vec<u8>) -> Result<(), SessionFault>
    ensures { Writes (message_frame delivery.now) out.old.items out.new.items result }
{
    // A quick way for most MESSAGEs. Both ways write the same octets.
    if is_plain_message(delivery) {
        write_plain(delivery, out)?;
        return Ok(());
    }
    let mut number = Buffer::new();
    let mut ack = Buffer::new();
    // Without a number the 0 isn't written.
    write_numbered(
        delivery,
        number.format(delivery.number),
        ack.format(delivery.ack.unwrap_or(0)),
        out,
    )
}
