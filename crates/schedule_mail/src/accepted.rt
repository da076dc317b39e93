//! What was accepted: where it stands, and whether it is what was sent again.

ghost use Rattle.std.specs.Prelude.{◌≡◌};
ghost use Rattle.std.specs.List.{flat_map};
ghost use Rattle.std.specs.Option.{option_copied};
ghost use Rattle.schedule_mail.specs.Accepted.{TellsRepeat, again_of, at_place, same_header, same_headers, same_sent};
ghost use Rattle.schedule_mail.specs.Texts.{AreTexts};

use crate::RepeatFault;
use crate::texts::Texts;
use broker_book::{Accepted, Sent};
use stomp_frame::Header;

/// Whether both are one header.
fn same_header(one: &Header, other: &Header) -> bool
    ensures { result ≡ same_header one.now other.now }
{
    one.name() == other.name() && one.value() == other.value()
}

/// Whether these are the same headers in the same order.
fn same_headers(one: &[Header], other: &[Header]) -> bool
    ensures { result ≡ same_headers one.now other.now }
{
    // Else a list would equal a longer one that begins with it, and a shorter `other` would be indexed past its end.
    if one.len() != other.len() {
        return false;
    }
    for index in 0..one.len() {
        if !same_header(&one[index], &other[index]) {
            return false;
        }
    }
    true
}

/// Whether both brought the same.
fn same(one: &Sent, other: &Sent) -> bool
    ensures { result ≡ same_sent one.now other.now }
{
    // The body last, since it may have 1 MiB.
    one.destination.same(&other.destination)
        && same_headers(one.headers.as_slice(), other.headers.as_slice())
        && one.body.as_slice() == other.body.as_slice()
}

/// The number of the message as which this SEND was accepted, where it alone was.
fn again(accepted: &[Accepted], sent: &Sent) -> Option<u64>
    ensures { result ≡ again_of sent.now accepted.now }
{
    // Of several it couldn't be said which one is the repeat.
    if accepted.len() != 1 {
        return None;
    }
    let one = &accepted[0];
    if same(one.sent.get(), sent) {
        Some(one.number)
    } else {
        None
    }
}

/// The SEND of a place, which counts from 1.
pub(crate) fn find(lists: &[Vec<Accepted>], place: u64) -> Option<&Accepted>
    ensures { option_copied result ≡ at_place place (flat_map (λ list. list.items) lists.now) }
{
    // The call takes any number, though the places of a schedule begin at 1.
    if place == 0 {
        return None;
    }
    let mut index = place - 1;
    // Counted over all lists as if they were one: to join them would take memory.
    for list in lists {
        let len = list.len() as u64;
        if index < len {
            return Some(&list[index as usize]);
        }
        index -= len;
    }
    None
}

/// What became of it, by what was accepted and by what its session was told.
pub(crate) fn answer_of(
    accepted: &[Accepted],
    sent: &Sent,
    out: &[u8],
    texts: &Texts,
) -> Result<Option<u64>, RepeatFault>
    requires { AreTexts sent.now texts.now.asked.items texts.now.full.items texts.now.used.items }
    ensures { TellsRepeat sent.now accepted.now out.now result }
{
    // The list is the truth, and is asked first: an accepted SEND stays so if its session then ran out of memory.
    match again(accepted, sent) {
        Some(number) => return Ok(Some(number)),
        None => {}
    }
    if out == texts.full.as_slice() {
        return Err(RepeatFault::QueueFull);
    }
    if out == texts.used.as_slice() {
        return Err(RepeatFault::TooMany);
    }
    // Neither was written, so memory ran out before the session could be answered.
    Err(RepeatFault::Memory)
}
