//! Inputs as columns of a journal row, and the texts of single columns.

ghost use Rattle.std.specs.Prelude.{◌≡◌, IfOk};
ghost use Rattle.std.specs.Option.{option_map};
ghost use Rattle.envelope.specs.Reading.{read_entity, read_message};
ghost use Rattle.sql_bodies.specs.Columns.{command_from, message_from, input_from};

use crate::CommandBody;
use activities::Input;
use base::{Entity, EntityFault, Number};
use envelope::{EnvelopeFault, Message};
use std::alloc::{AllocError, Global};

/// The entity that a text names, if it names one.
///
/// # Errors
/// If an allocation fails.
pub fn read_entity(alloc: Global, text: &str) -> Result<Option<Entity>, AllocError>
    ensures { IfOk result (λ found. found ≡ read_entity text.now) }
{
    match Entity::read(alloc, text) {
        Ok(entity) => Ok(Some(entity)),
        Err(EntityFault::BadKind) => Ok(None),
        Err(EntityFault::BadKey) => Ok(None),
        Err(EntityFault::Memory) => Err(AllocError),
    }
}

/// The message whose body this is, if it is one's.
///
/// # Errors
/// If an allocation fails.
pub fn read_message(alloc: Global, body: &str) -> Result<Option<Message>, AllocError>
    ensures { IfOk result (λ found. found ≡ read_message body.now) }
{
    match Message::of_body(alloc, body.as_bytes()) {
        Ok(message) => Ok(Some(message)),
        Err(EnvelopeFault::BadEnvelope) => Ok(None),
        Err(EnvelopeFault::Memory) => Err(AllocError),
    }
}

/// The command that a seat gave, by its body.
fn command_from<C: CommandBody>(
    alloc: Global,
    seat: u64,
    body: &str,
) -> Result<Option<Input<C>>, AllocError>
    ensures { IfOk result (λ found. found ≡ command_from C.read seat body.now) }
{
    // The table has no check of seats: a column may hold any number.
    let Ok(seat) = u8::try_from(seat) else {
        return Ok(None);
    };
    match C::of_body(alloc, body)? {
        Some(command) => Ok(Some(Input::FromSeat(seat, command))),
        None => Ok(None),
    }
}

/// The message of a sender and a number, by its body.
fn message_from<C: CommandBody>(
    alloc: Global,
    sender: &str,
    number: u64,
    body: &str,
) -> Result<Option<Input<C>>, AllocError>
    ensures { IfOk result (λ found. found ≡ message_from sender.now number body.now) }
{
    let Some(sender) = read_entity(alloc, sender)? else {
        return Ok(None);
    };
    let Some(number) = Number::new(number) else {
        return Ok(None);
    };
    match read_message(alloc, body)? {
        Some(message) => Ok(Some(Input::FromEntity(sender, number, message))),
        None => Ok(None),
    }
}

/// The input of these columns of a journal row; `None` where they are no input's.
///
/// # Errors
/// If an allocation fails.
pub fn read_input<C: CommandBody>(
    alloc: Global,
    seat: Option<u64>,
    sender: Option<&str>,
    number: Option<u64>,
    body: &str,
) -> Result<Option<Input<C>>, AllocError>
    ensures { IfOk result (λ found. found
        ≡ input_from C.read seat (option_map (λ s. s.now) sender.entry) number body.now) }
{
    // A command has a seat alone, a message a sender and a number: a row with any other columns isn't one of ours.
    match (seat, sender, number) {
        (Some(seat), None, None) => command_from(alloc, seat, body),
        (None, Some(sender), Some(number)) => message_from(alloc, sender, number, body),
        _ => Ok(None),
    }
}
