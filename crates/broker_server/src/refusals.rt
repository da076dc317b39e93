//! What an ERROR says, found at the end of a session's octets.

/// Behind how many octets no ERROR begins: the longest tells a receipt of 128 octets.
const LONGEST: usize = 1_024;

/// How an ERROR begins.
const HEAD: &[u8] = b"ERROR\ncontent-length:0\n";

/// What is before its message where a version was refused.
const VERSION: &[u8] = b"version:1.2\n";

/// How its message begins.
const MESSAGE: &[u8] = b"message:";

/// The numbers and names of all refusals.
const REFUSALS: [&str; 17] = [
    "20 BadFrame",
    "21 NotConnected",
    "22 AlreadyConnected",
    "23 Version",
    "24 MissingHeader",
    "25 BadDestination",
    "26 SubscriptionExists",
    "27 NoSubscription",
    "28 BadAckMode",
    "29 TransactionExists",
    "30 NoTransaction",
    "31 NoSuchAck",
    "32 QueueFull",
    "33 WrongCommand",
    "34 Memory",
    "35 TooLarge",
    "36 TooMany",
];

/// The last frame of octets that end with one: after the last NUL but that at the end, as far as an ERROR is long.
fn last_frame(octets: &[u8]) -> &[u8] {
    let from = octets.len().saturating_sub(LONGEST);
    let tail = &octets[from..];
    // The last NUL is the ERROR's own: the one before ends the frame before it.
    let inside = &tail[..tail.len().saturating_sub(1)];
    match inside.iter().rposition(|octet| *octet == 0) {
        Some(place) => tail.get(place..).unwrap_or(&[]),
        None => tail,
    }
}

/// The number and the name of the refusal that has closed a session, by the octets that are left for it: those of the
/// ERROR, which is the last frame for it. Without an ERROR it was a DISCONNECT.
///
/// The octets of a MESSAGE could end as an ERROR does. Its client would be told of as refused where it took leave: so
/// the answer is for people to read.
pub(crate) fn refusal_in(octets: &[u8]) -> Option<&'static str> {
    let frame = last_frame(octets);
    let frame = frame.strip_prefix(b"\0".as_slice()).unwrap_or(frame);
    let headers = frame.strip_prefix(HEAD)?;
    let headers = headers.strip_prefix(VERSION).unwrap_or(headers);
    let told = headers.strip_prefix(MESSAGE)?;
    REFUSALS
        .iter()
        .find(|text| told.starts_with(text.as_bytes()))
        .copied()
}
