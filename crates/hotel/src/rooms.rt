//! The handler of rooms.

ghost use Rattle.std.specs.Prelude.{◌≡◌};
ghost use Rattle.activities.specs.declared.handler.HandlerFault.TheVariants.{Business};
ghost use Rattle.activities.specs.declared.handler.Refusal.TheVariants.{Own};
ghost use Rattle.activities.specs.OwnRefusals.{IsOwnNumber, own};
ghost use Rattle.hotel.specs.Rooms.{is_promised};

use crate::{BEDS, NOT_FREE, NOT_TAKEN, Room, RoomCommand};
use activities::{Handler, HandlerFault, Input, Outs, OwnRefusal, Refusal};
use base::{Entity, Kind};
use envelope::Message;
use std::alloc::{AllocError, Global};

/// What a hotel does with what its rooms take in.
///
/// A free room is taken by a guest at the desk, or promised to an order that asks for no more guests than it has beds
/// for. The order then takes it by its confirm, or gives it back by its cancel. Only a request wants memory.
pub struct Rooms;

impl Handler for Rooms {
    ghost use Rattle.base.specs.declared.entity.Kind.TheVariants.{Stock};
    ghost use Rattle.hotel.specs.Rooms.{room_reactions, is_free, free_is_opening};

    type State = Room;

    type Command = RoomCommand;

    ghost service = { record { kind = Stock; reactions = room_reactions; is_none = is_free } };

    fn kind() -> Kind {
        Kind::Stock
    }

    fn opening(_alloc: Global) -> Result<Room, AllocError> {
        Ok(Room::Free)
    }

    fn is_none(state: &Room) -> bool {
        matches!(state, Room::Free)
    }

    fn copy_state(alloc: Global, state: &Room) -> Result<Room, AllocError> {
        match state {
            Room::Free => Ok(Room::Free),
            Room::Taken => Ok(Room::Taken),
            // Only a promise has memory of its own: a copy of any other room can't fail.
            Room::Promised(order) => Ok(Room::Promised(order.copy(alloc)?)),
        }
    }

    fn copy_command(_alloc: Global, command: &RoomCommand) -> Result<RoomCommand, AllocError> {
        match command {
            RoomCommand::Reserve => Ok(RoomCommand::Reserve),
            RoomCommand::Release => Ok(RoomCommand::Release),
        }
    }

    fn apply(
        alloc: Global,
        state: &mut Room,
        input: &Input<RoomCommand>,
        outs: &mut Outs,
    ) -> Result<(), HandlerFault> {
        match input {
            Input::FromSeat(_, RoomCommand::Reserve) if matches!(state, Room::Free) => {
                *state = Room::Taken;
            }
            Input::FromSeat(_, RoomCommand::Release) if matches!(state, Room::Taken) => {
                *state = Room::Free;
            }
            Input::FromSeat(_, RoomCommand::Reserve) => return Err(refused(NOT_FREE)),
            Input::FromSeat(_, RoomCommand::Release) => return Err(refused(NOT_TAKEN)),
            Input::FromEntity(sender, _, Message::Request(guests))
                if matches!(state, Room::Free) && guests.get() <= BEDS => {
                let order = sender.copy(alloc)?;
                outs.tell(alloc, sender, Message::Tentative)?;
                *state = Room::Promised(order);
            }
            Input::FromEntity(sender, _, Message::Request(_)) => {
                outs.tell(alloc, sender, Message::Refused)?;
            }
            Input::FromEntity(sender, _, Message::Confirm) if is_promised(state, sender) => {
                *state = Room::Taken;
            }
            Input::FromEntity(sender, _, Message::Cancel) if is_promised(state, sender) => {
                *state = Room::Free;
            }
            Input::FromEntity(_, _, _) => {}
        }
        Ok(())
    }

    fn refusal_word(refusal: OwnRefusal) -> &'static str {
        match refusal.number() {
            NOT_FREE => "NotFree",
            _ => "NotTaken",
        }
    }

    ghost none_is_opening = { free_is_opening };

    ghost follows = { λ old input done is. tt };
}

/// A refusal of the hotel's own.
fn refused(number: u8) -> HandlerFault
    requires { IsOwnNumber number }
    ensures { result ≡ Business (Own (own number)) }
{
    HandlerFault::Business(Refusal::Own(OwnRefusal::new(number)))
}

/// Whether the room is promised to this order.
fn is_promised(room: &Room, order: &Entity) -> bool
    ensures { result ≡ is_promised room.now order.now }
{
    match room {
        Room::Promised(to) => to == order,
        Room::Free | Room::Taken => false,
    }
}
