//! Books of a library: a handler of one's own whose state has a list. `docs/HANDLER.md` tells how to write another.
//!
//! The code is the table of a title's reactions. A librarian adds copies and removes them from the shelf. Who asks for
//! copies has them set aside, and then borrows them or gives them back. After a refusal or want of memory nothing has
//! changed.
//!
//! ```rust
//! pub fn one_copy_is_set_aside(
//!     alloc: Global,
//!     copies: Number,
//!     reader: Entity,
//! ) -> Result<u64, HandlerFault> {
//!     let mut title = Titles::opening(alloc)?;
//!     let mut outs = Outs::new(alloc);
//!     let add = Input::FromSeat(0, TitleCommand::Add(copies));
//!     Titles::apply(alloc, &mut title, &add, &mut outs)?;
//!     let request = Input::FromEntity(reader, Number::FIRST, Message::Request(Number::FIRST));
//!     Titles::apply(alloc, &mut title, &request, &mut outs)?;
//!     Ok(title.on_shelf())
//! }
//! ```
//!
//! One copy fewer stands on the shelf than were added. The reader is told so: `Tentative` stands in `outs`.
#![tactic(auto)]

mod laws;
mod title;
mod titles;

pub use laws::what_is_set_aside_is_here;
pub use title::{ASKERS, Asker, NOT_ON_SHELF, TOO_MANY, Title, TitleCommand};
pub use titles::Titles;
