//! Words and numbers of printed lines.

ghost use Rattle.std.specs.Prelude.{◌≡◌, ◌++◌, OnOk};
ghost use Rattle.schedule_text.specs.Outcomes.{told_number, shown_entity, shown_pair};
ghost use Rattle.schedule_text.specs.Words.{spelled, escaped};

use base::{Entity, Pair};
use itoa::Buffer;
use std::alloc::AllocError;
use std::slice::from_ref;

/// Appends a text.
pub(crate) fn push_text(line: &mut Vec<u8>, text: &str) -> Result<(), AllocError>
    ensures { OnOk result (line.new.items ≡ line.old.items ++ text.now) }
{
    line.extend_from_slice(text.as_bytes())?;
    Ok(())
}

/// Appends a text and a number in decimal.
#[tactic(auto, using(std::proofs::Common::append_assoc))]
pub(crate) fn push_numbered(line: &mut Vec<u8>, text: &str, number: u64) -> Result<(), AllocError>
    ensures { OnOk result (line.new.items ≡ line.old.items ++ told_number text.now number) }
{
    // On the stack, so that only the line itself can run out of memory.
    let mut digits = Buffer::new();
    push_text(line, text)?;
    push_text(line, digits.format(number))
}

/// How an octet of a word is printed: as itself, or with a backslash and a letter.
pub fn spelled(octet: &u8) -> &[u8]
    ensures { result.now ≡ spelled octet.now }
{
    // Constant texts and the octet itself: outcomes are spelled by this too, and writing them must not allocate.
    match *octet {
        b'\\' => b"\\\\",
        b'\n' => b"\\n",
        b'\r' => b"\\r",
        // A space would end the word where the line is read again.
        b' ' => b"\\s",
        _ => from_ref(octet),
    }
}

/// Appends a word with its escapes.
#[tactic(auto, using(crate::proofs::Pieces::word_more, std::proofs::Common::append_assoc))]
pub(crate) fn push_escaped(line: &mut Vec<u8>, word: &str) -> Result<(), AllocError>
    ensures { OnOk result (line.new.items ≡ line.old.items ++ escaped word.now) }
{
    // By octets and not by characters: all four that are escaped are ASCII, and part of no longer character.
    for octet in word.as_bytes() {
        line.extend_from_slice(spelled(octet))?;
    }
    Ok(())
}

/// Appends an entity's text, with its escapes: a line that has it can be read as words.
///
/// # Errors
/// Where an allocation failed; the line isn't whole then.
pub fn push_entity(line: &mut Vec<u8>, entity: &Entity) -> Result<(), AllocError>
    ensures { OnOk result (line.new.items ≡ line.old.items ++ shown_entity entity.now) }
{
    push_escaped(line, entity.text())
}

/// Appends a pair: its sender and its receiver.
#[tactic(auto, using(std::proofs::Common::append_assoc))]
pub(crate) fn push_pair(line: &mut Vec<u8>, pair: &Pair) -> Result<(), AllocError>
    ensures { OnOk result (line.new.items ≡ line.old.items ++ shown_pair pair.now) }
{
    push_entity(line, &pair.from)?;
    push_text(line, " ")?;
    push_entity(line, &pair.to)
}
