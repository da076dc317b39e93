//! Octets as text: `\n`, `\r`, `\s`, `\0` and `\\` stand for LF, CR, a space, NUL and a backslash, and `\xHH` for the
//! octet of these two hexadecimal digits, in lower case. Every other octet stands for itself.

ghost use Rattle.std.specs.Prelude.{◌≡◌, ◌<◌, ◌++◌, List, ℕ, [], flat_map, string_bytes, OnOk, IfOk, MatchOption};
ghost use Rattle.text.specs.Escapes.{digit_of, digit, meant_by, hex, escaped, front, Spells, spelled};

use std::alloc::{AllocError, Global};

/// The value of a hexadecimal digit.
fn digit_of(digit: u8) -> Option<u8>
    ensures { result ≡ digit_of digit }
{
    match digit {
        b'0'..=b'9' => Some(digit - b'0'),
        b'a'..=b'f' => Some(digit - b'a' + 10),
        _ => None,
    }
}

/// The octet that a letter behind a backslash stands for.
fn meant_by(letter: u8) -> Option<u8>
    ensures { result ≡ meant_by letter }
{
    match letter {
        b'\\' => Some(b'\\'),
        b'n' => Some(b'\n'),
        b'r' => Some(b'\r'),
        // This and NUL are for lines that are written by hand: `push_octet` prints neither so.
        b's' => Some(b' '),
        b'0' => Some(0),
        _ => None,
    }
}

/// The octet of two hexadecimal digits.
fn hex(high: u8, low: u8) -> Option<u8>
    ensures { result ≡ hex high low }
{
    match (digit_of(high), digit_of(low)) {
        // At most 255, since both are below 16.
        (Some(high), Some(low)) => Some(high * 16 + low),
        _ => None,
    }
}

/// The octet that stands behind a backslash, and what follows it.
fn escaped(text: &[u8]) -> Option<(u8, &[u8])>
    ensures { MatchOption result (escaped text.now ≡ None) (λ p. escaped text.now ≡ Some (p.0, p.1.now)) }
{
    let (letter, rest) = text.split_first()?;
    if *letter != b'x' {
        let octet = meant_by(*letter)?;
        return Some((octet, rest));
    }
    // Two digits always, so that a digit may follow the escape.
    let (high, rest) = rest.split_first()?;
    let (low, rest) = rest.split_first()?;
    let octet = hex(*high, *low)?;
    Some((octet, rest))
}

/// The octet that the front of a text stands for, and what follows it.
fn front(text: &[u8]) -> Option<(u8, &[u8])>
    ensures { MatchOption result (front text.now ≡ None) (λ p. front text.now ≡ Some (p.0, p.1.now)) }
{
    let (octet, rest) = text.split_first()?;
    if *octet == b'\\' {
        escaped(rest)
    } else {
        Some((*octet, rest))
    }
}

/// The octets that a text stands for; `None` where it stands for none, since a backslash has no escape behind it.
///
/// # Errors
/// `AllocError`: a growth was refused.
pub fn unescape(alloc: Global, text: &str) -> Result<Option<Vec<u8>>, AllocError>
    ensures { IfOk result (λ found. MatchOption found ((octets : List ℕ) → Spells text.now octets [] → ⊥)
        (λ octets. Spells text.now octets.items [])) }
{
    let mut octets = Vec::new(alloc);
    // By octets: in UTF-8 a backslash is never part of a longer character.
    let mut rest = text.as_bytes();
    while !rest.is_empty() {
        let Some((octet, behind)) = front(rest) else {
            return Ok(None);
        };
        octets.push(octet)?;
        rest = behind;
    }
    Ok(Some(octets))
}

/// The hexadecimal digit of a value below 16.
fn digit(value: u8) -> u8
    requires { value < 16 }
    ensures { result ≡ digit value }
{
    if value < 10 {
        b'0' + value
    } else {
        b'a' - 10 + value
    }
}

/// Appends an octet.
fn push_octet(text: &mut String, octet: u8) -> Result<(), AllocError>
    ensures { OnOk result (string_bytes text.new ≡ string_bytes text.old ++ spelled octet) }
{
    match octet {
        b'\\' => text.push_str("\\\\"),
        b'\n' => text.push_str("\\n"),
        b'\r' => text.push_str("\\r"),
        // After the backslash, which is one of these.
        32..=126 => text.push(char::from(octet)),
        _ => {
            text.push_str("\\x")?;
            text.push(char::from(digit(octet / 16)))?;
            text.push(char::from(digit(octet % 16)))
        }
    }
}

/// Appends octets to a text: LF, CR and a backslash as `\n`, `\r` and `\\`, printable ASCII and spaces as they are, and
/// every other octet as `\xHH`.
///
/// # Errors
/// `AllocError`: a growth was refused; a part may have been appended.
pub fn push_octets(text: &mut String, octets: &[u8]) -> Result<(), AllocError>
    ensures { OnOk result (string_bytes text.new ≡ string_bytes text.old ++ flat_map spelled octets.now) }
{
    for octet in octets {
        push_octet(text, *octet)?;
    }
    Ok(())
}
