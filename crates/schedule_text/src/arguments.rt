//! The arguments of an event: what single words are.

ghost use Rattle.std.specs.Prelude.{◌≡◌};
ghost use Rattle.text.specs.Numerals.{number_of};
ghost use Rattle.schedule_text.specs.Arguments.{seat_of, ordinal_of, rounds_of, key_of, entity_of, service_of};
ghost use Rattle.schedule_text.specs.Arguments.{connection_number};
ghost use Rattle.schedule_text.specs.Arguments.{way_of, leaves_of};
ghost use Rattle.schedule_text.specs.Reading.{Reads};

use crate::bounded::{Ordinal, Rounds, SeatNumber};
use crate::event::{ConnectionNumber, FailureLeaves, ServiceName};
use crate::fault::LineFault;
use crate::words::Word;
use base::{Entity, EntityFault, Key};
use std::alloc::Global;
use stomp_wire::Way;
use text::read_number;

pub(crate) fn number_at(word: &Word) -> Result<u64, LineFault>
    ensures { Reads (λ n. n) result (number_of word.now) }
{
    // Not `parse`, which takes a plus and leading zeros: a number has one text.
    read_number(word.as_str()).ok_or(LineFault::Bad)
}

pub(crate) fn seat_at(word: &Word) -> Result<SeatNumber, LineFault>
    ensures { Reads (λ seat. seat) result (seat_of word.now) }
{
    let number = number_at(word)?;
    SeatNumber::new(number).ok_or(LineFault::Bad)
}

pub(crate) fn ordinal_at(word: &Word) -> Result<Ordinal, LineFault>
    ensures { Reads (λ place. place) result (ordinal_of word.now) }
{
    let number = number_at(word)?;
    Ordinal::new(number).ok_or(LineFault::Bad)
}

pub(crate) fn rounds_at(word: &Word) -> Result<Rounds, LineFault>
    ensures { Reads (λ rounds. rounds) result (rounds_of word.now) }
{
    let number = number_at(word)?;
    Rounds::new(number).ok_or(LineFault::Bad)
}

pub(crate) fn key_at(alloc: Global, word: &Word) -> Result<Key, LineFault>
    ensures { Reads (λ key. key) result (key_of word.now) }
{
    match Key::read(alloc, word.as_str()) {
        Ok(key) => Ok(key),
        // A failed allocation says nothing of the word, so it isn't reported as a faulty line.
        Err(EntityFault::Memory) => Err(LineFault::Memory),
        Err(EntityFault::BadKey) => Err(LineFault::Bad),
        // Never comes of a key, which has no kind: the fault is that of whole entities.
        Err(EntityFault::BadKind) => Err(LineFault::Bad),
    }
}

pub(crate) fn entity_at(alloc: Global, word: &Word) -> Result<Entity, LineFault>
    ensures { Reads (λ entity. entity) result (entity_of word.now) }
{
    match Entity::read(alloc, word.as_str()) {
        Ok(entity) => Ok(entity),
        Err(EntityFault::Memory) => Err(LineFault::Memory),
        Err(EntityFault::BadKey) => Err(LineFault::Bad),
        Err(EntityFault::BadKind) => Err(LineFault::Bad),
    }
}

pub(crate) fn service_at(word: &Word) -> Result<ServiceName, LineFault>
    ensures { Reads (λ service. service) result (service_of word.now) }
{
    match word.as_str() {
        "purchasing" => Ok(ServiceName::Purchasing),
        "warehouse" => Ok(ServiceName::Warehouse),
        "billing" => Ok(ServiceName::Billing),
        _ => Err(LineFault::Bad),
    }
}

pub(crate) fn connection_number_at(word: &Word) -> Result<ConnectionNumber, LineFault>
    ensures { Reads (λ number. number) result (connection_number word.now) }
{
    match word.as_str() {
        "0" => Ok(ConnectionNumber::Zero),
        "1" => Ok(ConnectionNumber::One),
        _ => Err(LineFault::Bad),
    }
}

pub(crate) fn way_at(word: &Word) -> Result<Way, LineFault>
    ensures { Reads (λ way. way) result (way_of word.now) }
{
    match word.as_str() {
        "up" => Ok(Way::Up),
        "down" => Ok(Way::Down),
        _ => Err(LineFault::Bad),
    }
}

pub(crate) fn leaves_at(word: &Word) -> Result<FailureLeaves, LineFault>
    ensures { Reads (λ leaves. leaves) result (leaves_of word.now) }
{
    match word.as_str() {
        "old" => Ok(FailureLeaves::Old),
        "new" => Ok(FailureLeaves::New),
        _ => Err(LineFault::Bad),
    }
}
