//! What is written: octets, words and numbers, and the lines that tell outcomes. It takes no memory.

ghost use Rattle.std.specs.Prelude.{◌++◌, decimal, OnOk, OnErr};
ghost use Rattle.std.specs.Io.KnownBytes.{Appends};
ghost use Rattle.schedule_text.specs.Outcomes.{outcome_lines, told_lines, shown_entity, shown_pair};
ghost use Rattle.schedule_text.specs.Words.{escaped};
ghost use Rattle.streams.specs.Written.{AppendsPart};
ghost use Rattle.schedule_io.specs.Written.{of_pair};

use base::{Entity, Pair};
use itoa::Buffer;
use schedule_shows::spelled;
use schedule_text::{Outcome, Pieces};
use std::io;
use std::io::Write;
use streams::{write_octets, write_three};

/// Writes octets, a number in decimal, and octets.
pub(crate) fn write_numbered<W: Write>(
    out: &mut W,
    before: &[u8],
    number: u64,
    after: &[u8],
) -> io::Result<()>
    ensures ok { OnOk result (Appends (W.contents out.old) (W.contents out.new)
        (before.now ++ decimal number ++ after.now)) }
    ensures err { OnErr result (AppendsPart (W.contents out.old) (W.contents out.new)
        (before.now ++ decimal number ++ after.now)) }
{
    // On the stack: an outcome is written before the next event runs, and must not be lost to an allocation.
    let mut digits = Buffer::new();
    write_three(out, before, digits.format(number).as_bytes(), after)
}

/// Writes a word with its escapes.
fn write_word<W: Write>(out: &mut W, word: &str) -> io::Result<()>
    ensures ok { OnOk result (Appends (W.contents out.old) (W.contents out.new) (escaped word.now)) }
    ensures err { OnErr result (AppendsPart (W.contents out.old) (W.contents out.new) (escaped word.now)) }
{
    // Octet by octet, since a spelled word would have to be allocated.
    for octet in word.as_bytes() {
        write_octets(out, spelled(octet))?;
    }
    Ok(())
}

/// Writes an entity's text, with its escapes.
fn write_entity<W: Write>(out: &mut W, entity: &Entity) -> io::Result<()>
    ensures ok { OnOk result (Appends (W.contents out.old) (W.contents out.new) (shown_entity entity.now)) }
    ensures err { OnErr result (AppendsPart (W.contents out.old) (W.contents out.new) (shown_entity entity.now)) }
{
    write_word(out, entity.text())
}

/// Writes a pair: its sender and its receiver.
fn write_pair<W: Write>(out: &mut W, pair: &Pair) -> io::Result<()>
    ensures ok { OnOk result (Appends (W.contents out.old) (W.contents out.new) (shown_pair pair.now)) }
    ensures err { OnErr result (AppendsPart (W.contents out.old) (W.contents out.new) (shown_pair pair.now)) }
{
    write_entity(out, &pair.from)?;
    write_octets(out, b" ")?;
    write_entity(out, &pair.to)
}

/// Writes the line of words, a pair and a number.
fn write_of_pair<W: Write>(out: &mut W, words: &[u8], pair: &Pair, number: u64) -> io::Result<()>
    ensures ok { OnOk result (Appends (W.contents out.old) (W.contents out.new) (of_pair words.now pair.now number)) }
    ensures err { OnErr result (AppendsPart (W.contents out.old) (W.contents out.new)
        (of_pair words.now pair.now number)) }
{
    write_octets(out, words)?;
    write_pair(out, pair)?;
    write_numbered(out, b" ", number, b"\n")
}

/// Writes the lines that pieces make.
fn write_told<W: Write>(out: &mut W, told: Pieces<'_>) -> io::Result<()>
    ensures ok { OnOk result (Appends (W.contents out.old) (W.contents out.new) (told_lines told.entry)) }
    ensures err { OnErr result (AppendsPart (W.contents out.old) (W.contents out.new) (told_lines told.entry)) }
{
    // By `streams` and not by `write_all`, after whose faults nothing is known of what went out.
    match told {
        Pieces::Number(words, number) => write_numbered(out, words.as_bytes(), number, b"\n"),
        Pieces::Text(words, text) => write_three(out, words.as_bytes(), text.as_bytes(), b"\n"),
        Pieces::OfPair(words, pair, number) => write_of_pair(out, words.as_bytes(), pair, number),
        Pieces::Lines(lines) => write_octets(out, lines),
    }
}

/// Writes the lines that tell an outcome.
///
/// # Errors
/// Where `out` failed: it took a beginning of them.
pub fn write_outcome<W: Write>(out: &mut W, outcome: &Outcome) -> io::Result<()>
    ensures ok { OnOk result (Appends (W.contents out.old) (W.contents out.new) (outcome_lines outcome.now)) }
    ensures err { OnErr result (AppendsPart (W.contents out.old) (W.contents out.new) (outcome_lines outcome.now)) }
{
    write_told(out, outcome.told())
}
