//! Decimal numerals.

ghost use Rattle.std.specs.Prelude.{◌≡◌};
ghost use Rattle.std.specs.List.{list_all};
ghost use Rattle.std.specs.Char.{is_ascii_digit};
ghost use Rattle.text.specs.Numerals.{are_digits, has_leading_zero, digits_number, number_of};

/// The number that decimal digits write, leading zeros allowed: from 0 to 2^64 - 1. Any other text has none, as an
/// empty one, or one with a sign.
pub fn read_digits(text: &str) -> Option<u64>
    ensures { result ≡ digits_number text.now }
{
    // `parse` alone would take a plus too.
    if are_digits(text.as_bytes()) {
        text.parse::<u64>().ok()
    } else {
        None
    }
}

/// The number that a text writes in decimal without leading zeros: from 0 to 2^64 - 1. So no two texts write one
/// number.
pub fn read_number(text: &str) -> Option<u64>
    ensures { result ≡ number_of text.now }
{
    // Refused though it has a value: 7 would have the texts `7` and `07`.
    if has_leading_zero(text.as_bytes()) {
        None
    } else {
        read_digits(text)
    }
}

/// Whether these are digits, one or more.
fn are_digits(octets: &[u8]) -> bool
    ensures { result ≡ are_digits octets.now }
{
    are_all_digits(octets) && !octets.is_empty()
}

fn are_all_digits(octets: &[u8]) -> bool
    ensures { result ≡ list_all is_ascii_digit octets.now }
{
    octets.iter().all(|o| o.is_ascii_digit())
}

/// Whether a 0 has more behind it.
fn has_leading_zero(octets: &[u8]) -> bool
    ensures { result ≡ has_leading_zero octets.now }
{
    // The length first: an empty text has no first octet. `0` alone leads nothing.
    octets.len() > 1 && octets[0] == b'0'
}
