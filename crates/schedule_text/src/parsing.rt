//! The events, read from words.

ghost use Rattle.std.specs.Prelude.{◌≡◌};
ghost use Rattle.schedule_text.specs.Arguments.{entity_of, service_of, ordinal_of, rounds_of};
ghost use Rattle.schedule_text.specs.Events.{alone, connection_of, fill_of, carry_of, fail_of, stopped_of, pair_of};
ghost use Rattle.schedule_text.specs.Events.{agreement_of, event_by, event_of};
ghost use Rattle.schedule_text.specs.Reading.{Reads};

use crate::arguments::{
    connection_number_at, entity_at, leaves_at, number_at, ordinal_at, rounds_at, service_at,
    way_at,
};
use crate::bounded::{Ordinal, Rounds};
use crate::commands::{read_cancel, read_limit, read_place, read_receive};
use crate::event::{ConnectionName, Event, ServiceName};
use crate::fault::LineFault;
use crate::verb::Verb;
use crate::words::Word;
use base::{Entity, Pair};
use std::alloc::Global;

/// `SERVICE`.
fn read_service(words: &[Word]) -> Result<ServiceName, LineFault>
    ensures { Reads (λ service. service) result (alone service_of words.now) }
{
    // Every pattern over arguments has an exact length: a word too many makes the line faulty, and isn't passed over.
    let [service] = words else {
        return Err(LineFault::Bad);
    };
    service_at(service)
}

/// `ENTITY`.
pub(crate) fn read_shown(alloc: Global, words: &[Word]) -> Result<Entity, LineFault>
    ensures { Reads (λ entity. entity) result (alone entity_of words.now) }
{
    let [entity] = words else {
        return Err(LineFault::Bad);
    };
    entity_at(alloc, entity)
}

/// `K`.
fn read_ordinal(words: &[Word]) -> Result<Ordinal, LineFault>
    ensures { Reads (λ place. place) result (alone ordinal_of words.now) }
{
    let [place] = words else {
        return Err(LineFault::Bad);
    };
    ordinal_at(place)
}

/// `N`.
fn read_rounds(words: &[Word]) -> Result<Rounds, LineFault>
    ensures { Reads (λ rounds. rounds) result (alone rounds_of words.now) }
{
    let [rounds] = words else {
        return Err(LineFault::Bad);
    };
    rounds_at(rounds)
}

/// `SERVICE CONN`.
fn read_connection(words: &[Word]) -> Result<ConnectionName, LineFault>
    ensures { Reads (λ connection. connection) result (connection_of words.now) }
{
    let [service, number] = words else {
        return Err(LineFault::Bad);
    };
    let service = service_at(service)?;
    let number = connection_number_at(number)?;
    Ok(ConnectionName { service, number })
}

/// `SERVICE CONN LIMIT`: sends at most so many rows.
fn read_fill(words: &[Word]) -> Result<Event, LineFault>
    ensures { Reads (λ event. event) result (fill_of words.now) }
{
    let [service, number, limit] = words else {
        return Err(LineFault::Bad);
    };
    let service = service_at(service)?;
    let number = connection_number_at(number)?;
    let limit = number_at(limit)?;
    Ok(Event::Fill(ConnectionName { service, number }, limit))
}

/// `SERVICE CONN up MOST`, or `down`: moves at most so many octets.
fn read_carry(words: &[Word]) -> Result<Event, LineFault>
    ensures { Reads (λ event. event) result (carry_of words.now) }
{
    let [service, number, way, most] = words else {
        return Err(LineFault::Bad);
    };
    let service = service_at(service)?;
    let number = connection_number_at(number)?;
    let way = way_at(way)?;
    let most = number_at(most)?;
    Ok(Event::Carry(ConnectionName { service, number }, way, most))
}

/// `SERVICE N old`, or `new`: a call of the store fails.
fn read_fail(words: &[Word]) -> Result<Event, LineFault>
    ensures { Reads (λ event. event) result (fail_of words.now) }
{
    let [service, place, leaves] = words else {
        return Err(LineFault::Bad);
    };
    let service = service_at(service)?;
    let place = ordinal_at(place)?;
    let leaves = leaves_at(leaves)?;
    Ok(Event::Fail(service, place, leaves))
}

/// `SERVICE`, or `broker`: stops it.
fn read_stop(words: &[Word]) -> Result<Event, LineFault>
    ensures { Reads (λ event. event) result (alone stopped_of words.now) }
{
    let [stopped] = words else {
        return Err(LineFault::Bad);
    };
    if stopped.as_str() == "broker" {
        Ok(Event::StopBroker)
    } else {
        Ok(Event::Stop(service_at(stopped)?))
    }
}

/// `FROM TO`.
fn read_pair(alloc: Global, words: &[Word]) -> Result<Pair, LineFault>
    ensures { Reads (λ pair. pair) result (pair_of words.now) }
{
    let [from, to] = words else {
        return Err(LineFault::Bad);
    };
    let from = entity_at(alloc, from)?;
    let to = entity_at(alloc, to)?;
    Ok(Pair { from, to })
}

/// Nothing more: asks whether partners agree.
fn read_agreement(words: &[Word]) -> Result<Event, LineFault>
    ensures { Reads (λ event. event) result (agreement_of words.now) }
{
    match words {
        [] => Ok(Event::Agreement),
        _ => Err(LineFault::Bad),
    }
}

/// The event of a verb and its arguments.
fn read_arguments(alloc: Global, verb: Verb, words: &[Word]) -> Result<Event, LineFault>
    ensures { Reads (λ event. event) result (event_by verb words.now) }
{
    match verb {
        Verb::Place => Ok(Event::Order(read_place(alloc, words)?)),
        Verb::Cancel => Ok(Event::Order(read_cancel(alloc, words)?)),
        Verb::Receive => Ok(Event::Stock(read_receive(alloc, words)?)),
        Verb::Limit => Ok(Event::Account(read_limit(alloc, words)?)),
        Verb::Open => Ok(Event::Open(read_connection(words)?)),
        Verb::Cut => Ok(Event::Cut(read_connection(words)?)),
        Verb::Fill => read_fill(words),
        Verb::Resend => Ok(Event::Resend(read_connection(words)?)),
        Verb::Carry => read_carry(words),
        Verb::Take => Ok(Event::Take(read_connection(words)?)),
        Verb::Drain => Ok(Event::Drain(read_connection(words)?)),
        Verb::Repeat => Ok(Event::Repeat(read_ordinal(words)?)),
        Verb::Fail => read_fail(words),
        Verb::Reopen => Ok(Event::Reopen(read_service(words)?)),
        Verb::Stop => read_stop(words),
        Verb::Pump => Ok(Event::Pump(read_rounds(words)?)),
        Verb::Show => Ok(Event::Show(read_shown(alloc, words)?)),
        Verb::Pair => Ok(Event::Pair(read_pair(alloc, words)?)),
        Verb::Frames => Ok(Event::Frames(read_service(words)?)),
        Verb::Journal => Ok(Event::Journal(read_service(words)?)),
        Verb::Agreement => read_agreement(words),
    }
}

/// The event of the words of a line: the first names it.
pub(crate) fn read_event(alloc: Global, words: &[Word]) -> Result<Event, LineFault>
    ensures { Reads (λ event. event) result (event_of words.now) }
{
    let [name, arguments @ ..] = words else {
        return Err(LineFault::Bad);
    };
    // In two steps: in one match over 21 words each arm with a `?` would be proved for all words that didn't match
    // before it.
    match Verb::of_word(name.as_str()) {
        Some(verb) => read_arguments(alloc, verb, arguments),
        None => Err(LineFault::Bad),
    }
}
