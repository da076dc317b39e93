//! What is so of rooms, whatever comes in: the law is the contract of a function with nothing to do.

ghost use Rattle.std.specs.Prelude.{◌≡◌, ◌≢◌, false, IfOk};
ghost use Rattle.std.specs.List.{AllByRecursion};
ghost use Rattle.base.specs.Entity.{Entity};
ghost use Rattle.envelope.specs.declared.message.Message.TheVariants.{Tentative};
ghost use Rattle.activities.specs.declared.input.Input.{Input};
ghost use Rattle.activities.specs.Reaction.{react};
ghost use Rattle.hotel.specs.declared.room.Room.{Room};
ghost use Rattle.hotel.specs.declared.room.Room.TheVariants.{Promised};
ghost use Rattle.hotel.specs.declared.room.RoomCommand.{RoomCommand};
ghost use Rattle.hotel.specs.Rooms.{is_free, is_from, room_reactions};

/// A room is never promised to two: what is promised to an order stays so until that order sends something, and only a
/// room that is free is promised.
pub fn a_room_is_promised_to_one()
    ensures stays { (order : Entity) (input : Input RoomCommand) → is_from order input ≡ false
        → IfOk (react room_reactions (Promised order) input) (λ done. done.0 ≡ Promised order) }
    ensures free { (room : Room) (input : Input RoomCommand) → is_free room ≡ false
        → IfOk (react room_reactions room input) (λ done. AllByRecursion (λ out. out.message ≢ Tentative) done.1) }
{}
