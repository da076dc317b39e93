//! The words of a line.

ghost use Rattle.std.specs.Prelude.{◌≡◌, ◌<◌};
ghost use Rattle.schedule_text.specs.Words.{word_of, words_of};
ghost use Rattle.schedule_text.specs.Reading.{Reads};
ghost use Rattle.schedule_text.specs.Cuts.{IsCut, IsRest};
ghost use Rattle.schedule_text.specs.Escapes.{IsUnescaped};

use crate::fault::LineFault;
use std::alloc::Global;
use std::marker::Model;

/// A word of a line, without its escapes: contracts see its octets.
#[derive(Drop)]
pub(crate) struct Word {
    text: String,
}

impl Model for Word {
    ghost use Rattle.std.specs.Prelude.{List, ℕ, string_bytes};

    ghost Value = { List ℕ };

    ghost view = { λ w. string_bytes w.text };
}

impl Word {
    /// Its text.
    pub(crate) fn as_str(&self) -> &str
        ensures { result.now ≡ self.now }
    {
        &self.text
    }

    /// The word that stands between two spaces: one octet or more, with known escapes alone.
    fn read(alloc: Global, part: &str) -> Result<Word, LineFault>
        ensures { Reads (λ w. w) result (word_of part.now) }
    {
        // Two spaces in a row, or one at an end of the line, leave an empty part: there is no word of no octets.
        if part.is_empty() {
            return Err(LineFault::Bad);
        }
        let mut text = String::new(alloc);
        let mut rest = part;
        // From backslash to backslash, so that a word without escapes is copied in one piece.
        while let Some((before, after)) = cut(rest, '\\') {
            text.push_str(before)?;
            let Some((octet, more)) = escaped(after) else {
                return Err(LineFault::Bad);
            };
            text.push(octet)?;
            rest = more;
        }
        text.push_str(rest)?;
        Ok(Word { text })
    }
}

/// What stands before the first separator of a text, and what follows it.
fn cut(text: &str, separator: char) -> Option<(&str, &str)>
    requires { separator < 128 }
    ensures { IsCut separator text.now result }
{
    // Contracts count octets. Below 128 a separator is one octet, and is part of no longer character.
    text.split_once(separator)
}

/// What follows the letter that begins a text.
fn without(text: &str, letter: char) -> Option<&str>
    requires { letter < 128 }
    ensures { IsRest letter text.now result }
{
    text.strip_prefix(letter)
}

/// What stands for the first letter behind a backslash, and what follows it.
fn escaped(after: &str) -> Option<(char, &str)>
    ensures { IsUnescaped after.now result }
{
    if let Some(rest) = without(after, '\\') {
        Some(('\\', rest))
    } else if let Some(rest) = without(after, 'n') {
        Some(('\n', rest))
    } else if let Some(rest) = without(after, 'r') {
        Some(('\r', rest))
    } else if let Some(rest) = without(after, 's') {
        Some((' ', rest))
    } else {
        None
    }
}

/// The words of a line, which single spaces separate.
pub(crate) fn read_words(alloc: Global, line: &str) -> Result<Vec<Word>, LineFault>
    ensures { Reads (λ words. words.items) result (words_of line.now) }
{
    let mut words = Vec::new(alloc);
    let mut rest = line;
    while let Some((part, after)) = cut(rest, ' ') {
        words.push(Word::read(alloc, part)?)?;
        rest = after;
    }
    // What follows the last space is a word too. If nothing does, the line ends in a space and is faulty.
    words.push(Word::read(alloc, rest)?)?;
    Ok(words)
}
