//! Why a frame is refused at once.

ghost use Rattle.std.specs.Prelude.{◌≡◌, filter, length, nat_lt};
ghost use Rattle.std.specs.List.{list_any};
ghost use Rattle.stomp_session.specs.Headers.{has_none, has_long, is_own, offers_version};
ghost use Rattle.stomp_session.specs.Requests.{opens, is_ack, is_server, lacks, is_large, refusal_of, sole_id};
ghost use Rattle.std.specs.Option.{option_copied};

use crate::SessionFault;
use base::limits::{MAX_BODY, MAX_ECHOED, MAX_OWN_HEADERS};
use stomp_frame::{Command, Frame, Header};

/// Why a frame is refused at once: the first fault that applies.
pub fn refusal(connected: bool, frame: &Frame<MAX_BODY>) -> Option<SessionFault>
    ensures { result ≡ refusal_of connected frame.now }
{
    // First what is wrong in any session, then what is wrong in this one, then the frame itself.
    let opens = opens(frame.command());
    if is_server(frame.command()) {
        Some(SessionFault::WrongCommand)
    } else if !connected && !opens {
        Some(SessionFault::NotConnected)
    } else if connected && opens {
        Some(SessionFault::AlreadyConnected)
    } else if lacks(frame) {
        Some(SessionFault::MissingHeader)
    } else if is_large(frame) {
        Some(SessionFault::TooLarge)
        // The version last: a server that refuses it has understood the frame. A missing header was refused above.
    } else if opens && !offers_version(frame.get("accept-version").unwrap_or("")) {
        Some(SessionFault::Version)
    } else {
        None
    }
}

/// Whether a command opens a session.
pub fn opens(command: Command) -> bool
    ensures { result ≡ opens command }
{
    matches!(command, Command::Connect | Command::Stomp)
}

/// Whether a command is an ACK.
pub fn is_ack(command: Command) -> bool
    ensures { result ≡ is_ack command }
{
    matches!(command, Command::Ack)
}

/// The value of the only header, where it is an `id` that may be echoed.
pub fn sole_id(headers: &[Header]) -> Option<&str>
    ensures { option_copied result ≡ sole_id headers.now }
{
    // With `receipt` or `transaction` there is more to do: that takes the general way.
    if headers.len() != 1 {
        return None;
    }
    let header = &headers[0];
    if header.name() == "id" && header.value().len() <= MAX_ECHOED {
        Some(header.value())
    } else {
        None
    }
}

/// Whether a command is a server's.
fn is_server(command: Command) -> bool
    ensures { result ≡ is_server command }
{
    matches!(
        command,
        Command::Connected | Command::Message | Command::Receipt | Command::Error
    )
}

/// Whether one of these headers is missing.
fn lacks_any(frame: &Frame<MAX_BODY>, names: &[&str]) -> bool
    ensures { result ≡ list_any (λ name. has_none frame.now name.now) names.now }
{
    names.iter().any(|name| frame.get(name).is_none())
}

/// Whether a header is missing that the command requires.
fn lacks(frame: &Frame<MAX_BODY>) -> bool
    ensures { result ≡ lacks frame.now }
{
    match frame.command() {
        Command::Connect | Command::Stomp => lacks_any(frame, &["accept-version", "host"]),
        Command::Send => lacks_any(frame, &["destination"]),
        Command::Subscribe => lacks_any(frame, &["id", "destination"]),
        Command::Unsubscribe | Command::Ack | Command::Nack => lacks_any(frame, &["id"]),
        Command::Begin | Command::Commit | Command::Abort => lacks_any(frame, &["transaction"]),
        // DISCONNECT requires none. A server's command was refused before.
        _ => false,
    }
}

/// Whether the first value of a name has more octets than may be echoed.
fn has_long(frame: &Frame<MAX_BODY>, name: &str) -> bool
    ensures { result ≡ has_long frame.now name.now }
{
    match frame.get(name) {
        // Before it's escaped: an eighth of a line, so that it fits any line when it is.
        Some(value) => value.len() > MAX_ECHOED,
        None => false,
    }
}

/// Whether any value has more octets than may be echoed.
fn has_any_long(headers: &[Header]) -> bool
    ensures { result ≡ list_any (λ h. nat_lt MAX_ECHOED (length h.value)) headers.now }
{
    headers
        .iter()
        .any(|header| header.value().len() > MAX_ECHOED)
}

/// Whether one of these values has more octets than may be echoed.
fn exceeds_any(frame: &Frame<MAX_BODY>, names: &[&str]) -> bool
    ensures { result ≡ list_any (λ name. has_long frame.now name.now) names.now }
{
    // The values alone first: the names are looked for only where one of them is so long.
    if has_any_long(frame.headers()) {
        names.iter().any(|name| has_long(frame, name))
    } else {
        false
    }
}

/// Whether a value that is echoed is too long, or a SEND has too many headers of its own.
fn is_large(frame: &Frame<MAX_BODY>) -> bool
    ensures { result ≡ is_large frame.now }
{
    match frame.command() {
        Command::Send => {
            // Not the destination: a MESSAGE has it under this name too, so that its line fits as the SEND's did.
            exceeds_any(frame, &["receipt", "transaction"]) || has_many_own(frame.headers())
        }
        Command::Subscribe | Command::Unsubscribe => exceeds_any(frame, &["receipt", "id"]),
        Command::Ack | Command::Nack => exceeds_any(frame, &["receipt", "id", "transaction"]),
        Command::Begin | Command::Commit | Command::Abort => {
            exceeds_any(frame, &["receipt", "transaction"])
        }
        Command::Disconnect => exceeds_any(frame, &["receipt"]),
        // Of CONNECT nothing is echoed.
        _ => false,
    }
}

/// Whether a header of a SEND is taken over by its MESSAGEs.
pub fn is_own(header: &Header) -> bool
    ensures { result ≡ is_own header.now }
{
    // A MESSAGE has these of its server. In mode `auto` that writes no `ack`: a SEND's own would be taken for it.
    !matches!(
        header.name(),
        "destination" | "transaction" | "receipt" | "message-id" | "subscription" | "ack"
    )
}

/// How many headers of a SEND its MESSAGEs take over.
fn own_count(headers: &[Header]) -> usize
    ensures { result ≡ length (filter is_own headers.now) }
{
    headers.iter().filter(|header| is_own(header)).count()
}

/// Whether a SEND has more headers of its own than it may have.
fn has_many_own(headers: &[Header]) -> bool
    ensures { result ≡ nat_lt MAX_OWN_HEADERS (length (filter is_own headers.now)) }
{
    // All are counted first: they are seldom so many.
    if headers.len() > MAX_OWN_HEADERS {
        // 28 of 32: a MESSAGE has four of the server's before them.
        own_count(headers) > MAX_OWN_HEADERS
    } else {
        false
    }
}

/// Whether 1.2 is one of the versions between commas.
fn offers_version(versions: &str) -> bool
    ensures { result ≡ offers_version versions.now }
{
    // Versions stand between commas, without spaces.
    versions.split(',').any(|version| version == "1.2")
}
