//! A room: who has it, and what the desk asks of it.

use activities::Parts;
use base::Entity;

/// How many guests a room has beds for.
pub const BEDS: u64 = 2;

/// The desk's refusal to give away a room that isn't free.
pub const NOT_FREE: u8 = 75;

/// The desk's refusal to take back a room that no guest has.
pub const NOT_TAKEN: u8 = 76;

/// Who has a room.
#[derive(Debug, Drop)]
pub enum Room {
    /// Nobody.
    Free,
    /// A guest.
    Taken,
    /// An order that asked for it, until it confirms or cancels.
    Promised(Entity),
}

/// A room is small: it's written as a whole.
impl Parts for Room {
    ghost use Rattle.std.specs.Prelude.{⊤};

    ghost follows = { λ _ _ _. ⊤ };
}

/// What the desk asks of a room.
#[derive(Debug, Drop)]
pub enum RoomCommand {
    /// A guest takes it, if it's free.
    Reserve,
    /// The guest who has taken it leaves.
    Release,
}
