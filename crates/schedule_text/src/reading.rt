//! Schedules, read from text.

ghost use Rattle.std.specs.Prelude.{◌≡◌, ◌<◌, ◌∷◌, ◌++◌, ◌==◌, ◌||◌, nat_lt, nat_le, length, count_by, position};
ghost use Rattle.std.specs.Prelude.{option_to_list, IfOk, OnOk};
ghost use Rattle.schedule_text.specs.Events.{entity_on, event_of, events_of};
ghost use Rattle.schedule_text.specs.Faults.{IsRead};
ghost use Rattle.schedule_text.specs.Lines.{lines_of};
ghost use Rattle.schedule_text.specs.Reading.{Reads};
ghost use Rattle.schedule_text.specs.Schedules.{is_quiet, said_on, found_in, found_on};

use crate::event::Event;
use crate::fault::{LineFault, ScheduleFault};
use crate::parsing::{read_event, read_shown};
use crate::words::read_words;
use base::Entity;
use std::alloc::{AllocError, Global};

/// The most octets of an event's line, were each octet of its words escaped.
const LONGEST_LINE: usize = 3_074;

/// The most words of an event: those of `place`.
const MOST_WORDS: usize = 37;

/// Whether a line has nothing to run: it's empty, or a comment.
fn is_quiet(line: &str) -> bool
    ensures { result ≡ is_quiet line.now }
{
    line.is_empty() || line.as_bytes()[0] == b'#'
}

/// Whether a line has more octets or more words than any event, so that none of them need be kept.
// So a line of 100 MB takes its text, and not 2.8 GB. The limit is no part of the format: a law derives it from those
// of keys and numbers.
fn exceeds_events(line: &str) -> bool
    ensures { result ≡ (nat_lt LONGEST_LINE (length line.now) || nat_le MOST_WORDS (count_by (λ o. o == 32) line.now)) }
{
    // The length first: then at most 3,074 octets are searched for spaces. That is `place` with a verb of 7 octets, 18
    // keys of 64 and 18 numbers of 20 digits, each octet escaped as two, and 36 spaces between.
    line.len() > LONGEST_LINE
        || line.as_bytes().iter().filter(|o| **o == b' ').count() >= MOST_WORDS
}

/// The event of a line.
fn read_said(alloc: Global, line: &str) -> Result<Event, LineFault>
    ensures { Reads (λ event. event) result (said_on event_of line.now) }
{
    // Only a saving, and no rule of the format: such a line would be refused below too, but a line of 100 MB would take
    // 2.8 GB for its words first.
    if exceeds_events(line) {
        return Err(LineFault::Bad);
    }
    let words = read_words(alloc, line)?;
    read_event(alloc, words.as_slice())
}

/// What a line of text has to run.
fn read_text(alloc: Global, line: &str) -> Result<Option<Event>, LineFault>
    ensures { Reads (λ found. found) result (found_in event_of line.now) }
{
    // Asked before the length is: a comment may be longer than any event.
    if is_quiet(line) {
        return Ok(None);
    }
    Ok(Some(read_said(alloc, line)?))
}

/// What a line has to run: it's text, or faulty.
#[tactic(auto, using(crate::proofs::Utf8::utf8_yes, crate::proofs::Utf8::utf8_no))]
fn read_line(alloc: Global, line: &[u8]) -> Result<Option<Event>, LineFault>
    ensures { Reads (λ found. found) result (found_on event_of line.now) }
{
    // Before a look at the first octet, so that a comment has to be UTF-8 too.
    match str::from_utf8(line) {
        Ok(text) => read_text(alloc, text),
        Err(_) => Err(LineFault::Bad),
    }
}

/// Where the first LF of a text stands.
fn end_of_line(text: &[u8]) -> Option<usize>
    ensures { result ≡ position (λ o. o == 10) text.now }
{
    text.iter().position(|o| *o == b'\n')
}

/// The first line of a text, without the LF that ends it, and what follows it.
fn first_line(text: &[u8]) -> (&[u8], &[u8])
    requires { 0 < length text.now }
    ensures line { lines_of text.now ≡ result.0.now ∷ lines_of result.1.now }
    ensures shorter { length result.1.now < length text.now }
{
    match end_of_line(text) {
        Some(at) => (&text[..at], &text[at + 1..]),
        None => (text, &text[text.len()..]),
    }
}

/// Puts the event of a line behind the others, where it has one.
fn add(events: &mut Vec<Event>, found: Option<Event>) -> Result<(), AllocError>
    ensures { OnOk result (events.new.items ≡ events.old.items ++ option_to_list found) }
{
    if let Some(event) = found {
        events.push(event)?;
    }
    Ok(())
}

/// The events of a schedule, in order.
///
/// A schedule is lines of UTF-8, each ended by LF, which the last may lack. Empty lines and lines that begin with `#`
/// have no event, but are counted.
///
/// # Errors
/// `BadEvent` with the number of the first line that is no event, counted from 1; else `Memory` where a growth was
/// refused.
pub fn read_schedule(alloc: Global, text: &[u8]) -> Result<Vec<Event>, ScheduleFault>
    ensures { IsRead (events_of text.now) result }
{
    let mut events = Vec::new(alloc);
    let mut rest = text;
    let mut number: u64 = 0;
    while !rest.is_empty() {
        let (line, after) = first_line(rest);
        // Quiet lines count, so that a fault has the number that an editor shows.
        number += 1;
        let found = match read_line(alloc, line) {
            Ok(found) => found,
            Err(LineFault::Bad) => return Err(ScheduleFault::BadEvent(number)),
            // Not the line's fault: with more memory the same schedule may be read.
            Err(LineFault::Memory) => return Err(ScheduleFault::Memory),
        };
        // All events are held until the last line is read: one that is faulty must leave no half of a run.
        add(&mut events, found)?;
        rest = after;
    }
    Ok(events)
}

/// The entity that the only word of a line names, as the line of `show` has it: `stock/seven`, where `\s` is a space, `\n`
/// LF, `\r` CR and `\\` a backslash, and any other octet itself. There is none where it isn't a kind and a key of 1 to 64 octets.
///
/// # Errors
/// Where an allocation failed.
pub fn read_entity(alloc: Global, line: &str) -> Result<Option<Entity>, AllocError>
    ensures { IfOk result (λ found. found ≡ entity_on line.now) }
{
    let words = match read_words(alloc, line) {
        Ok(words) => words,
        Err(LineFault::Bad) => return Ok(None),
        Err(LineFault::Memory) => return Err(AllocError),
    };
    match read_shown(alloc, words.as_slice()) {
        Ok(entity) => Ok(Some(entity)),
        Err(LineFault::Bad) => Ok(None),
        Err(LineFault::Memory) => Err(AllocError),
    }
}
