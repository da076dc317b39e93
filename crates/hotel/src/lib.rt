//! Rooms of a hotel: a handler of one's own, as small as one can be. `docs/HANDLER.md` tells how to write another.
//!
//! The code is the table of a room's reactions: a guest takes a free room at the desk and leaves it; an order is
//! promised a free room, and then takes it or gives it back. After a refusal or want of memory nothing has changed.
//!
//! ```rust
//! pub fn a_free_room_is_promised(alloc: Global, order: Entity) -> Result<bool, HandlerFault> {
//!     let mut room = Rooms::opening(alloc)?;
//!     let mut outs = Outs::new(alloc);
//!     let request = Input::FromEntity(order, Number::FIRST, Message::Request(Number::FIRST));
//!     Rooms::apply(alloc, &mut room, &request, &mut outs)?;
//!     Ok(matches!(room, Room::Promised(_)))
//! }
//! ```
//!
//! A free room is promised to whoever asks for one guest, and says so: `Tentative` stands in `outs`.
#![tactic(auto)]

mod laws;
mod room;
mod rooms;

pub use laws::a_room_is_promised_to_one;
pub use room::{BEDS, NOT_FREE, NOT_TAKEN, Room, RoomCommand};
pub use rooms::Rooms;
