//! What the texts of a request mean.

ghost use Rattle.std.specs.Prelude.{◌≡◌};
ghost use Rattle.std.specs.List.{list_all};
ghost use Rattle.text.specs.Numerals.{number_of};
ghost use Rattle.broker_core.specs.Words.{is_destination, is_letter, mode_of};

use broker_book::Mode;
use stomp_session::Text;

/// Whether a text names a queue: `/queue/` and 1 to 64 ASCII letters, digits, `.`, `_`, `-` or `/`.
pub fn is_destination(text: &Text) -> bool
    ensures { result ≡ is_destination text.now }
{
    are_destination(text.as_str().as_bytes())
}

fn are_destination(octets: &[u8]) -> bool
    ensures { result ≡ is_destination octets.now }
{
    // The length first: the parts below have to be there.
    8 <= octets.len()
        && octets.len() <= 71
        && &octets[..7] == b"/queue/".as_slice()
        && are_letters(&octets[7..])
}

fn are_letters(octets: &[u8]) -> bool
    ensures { result ≡ list_all is_letter octets.now }
{
    octets.iter().all(|o| is_letter(*o))
}

fn is_letter(o: u8) -> bool
    ensures { result ≡ is_letter o }
{
    // Most are lower case letters. `-`, `.` and `/` are before the digits, so that one test takes all of these.
    (97 <= o && o <= 122) || (45 <= o && o <= 57) || (65 <= o && o <= 90) || o == 95
}

/// The number that a word writes: decimal digits without a leading zero, below 2^64.
pub fn read_number(word: &Text) -> Option<u64>
    ensures { result ≡ number_of word.now }
{
    text::read_number(word.as_str())
}

/// The acknowledge mode of a word (STOMP 1.2, section "SUBSCRIBE ack Header").
pub fn read_mode(word: &str) -> Option<Mode>
    ensures { result ≡ mode_of word.now }
{
    if word == "auto" {
        Some(Mode::Auto)
    } else if word == "client" {
        Some(Mode::Client)
    } else if word == "client-individual" {
        Some(Mode::Individual)
    } else {
        None
    }
}
