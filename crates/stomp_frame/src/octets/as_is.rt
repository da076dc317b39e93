//! Whether nothing of a text is escaped: many octets are tested at once, and those of a text of at most 3 one by one.

ghost use Rattle.std.specs.Prelude.{◌≡◌, ◌≤◌, ◌-◌, ◌++◌, length, take, drop};
ghost use Rattle.stomp_frame.specs.Inner.Writing.{is_as_is};

use super::letter_of;
use std::simd::prelude::*;

/// Whether none of some octets has an escape.
#[inline(always)]
fn are_as_is<const N: usize>(octets: Simd<u8, N>) -> bool
    requires { N ≤ 64 }
    ensures { result ≡ is_as_is octets.entry }
{
    (octets.simd_eq(Simd::splat(b'\r'))
        | octets.simd_eq(Simd::splat(b'\n'))
        | octets.simd_eq(Simd::splat(b':'))
        | octets.simd_eq(Simd::splat(b'\\'))).to_bitmask()
        == 0
}

/// The first 4 octets and the last 4, which are together the whole of a text of 4 to 8.
#[inline(always)]
fn ends_of_4(text: &[u8]) -> u8x8
    requires { 4 ≤ length text.now }
    ensures { result ≡ take 4 text.now ++ drop (length text.now - 4) text.now }
{
    let front = u8x4::from_slice(text);
    let back = u8x4::from_slice(&text[text.len() - 4..]);
    front.shuffle(back, [0, 1, 2, 3, 4, 5, 6, 7])
}

/// The first 8 octets and the last 8, which are together the whole of a text of 8 to 16.
#[inline(always)]
fn ends_of_8(text: &[u8]) -> u8x16
    requires { 8 ≤ length text.now }
    ensures { result ≡ take 8 text.now ++ drop (length text.now - 8) text.now }
{
    let front = u8x8::from_slice(text);
    let back = u8x8::from_slice(&text[text.len() - 8..]);
    front.shuffle(back, [0, 1, 2, 3, 4, 5, 6, 7, 8, 9, 10, 11, 12, 13, 14, 15])
}

/// Whether no octet of a text has an escape, 16 at a time; the last 16 overlap those before.
fn is_as_is_by_16(text: &[u8]) -> bool
    requires { 16 ≤ length text.now }
    ensures { result ≡ is_as_is text.now }
{
    let mut at = 0;
    // Not at 16 that are left: these are looked at below in any case.
    while 16 < text.len() - at {
        if !are_as_is(u8x16::from_slice(&text[at..])) {
            return false;
        }
        at += 16;
    }
    are_as_is(u8x16::from_slice(&text[text.len() - 16..]))
}

/// Whether no octet of a text has an escape.
pub fn is_as_is(text: &[u8]) -> bool
    ensures { result ≡ is_as_is text.now }
{
    // Lengths from 4 to 15 have no loop: two loads that may overlap hold the whole text.
    if text.len() >= 16 {
        is_as_is_by_16(text)
    } else if text.len() >= 8 {
        are_as_is(ends_of_8(text))
    } else if text.len() >= 4 {
        are_as_is(ends_of_4(text))
    } else {
        text.iter().all(|o| letter_of(*o).is_none())
    }
}
