//! What a business adds to the program of its service.

ghost use Rattle.std.specs.Prelude.{◌≡◌, ◌++◌};
ghost use Rattle.base.specs.Entity.{prefix_of};
ghost use Rattle.schedule_text.specs.Events.{entity_on};
ghost use Rattle.service_program.specs.Business.{IsReadAs};

use activities::Handler;
use base::{Entity, Kind};
use std::alloc::{AllocError, Global};
use thiserror::Error;

/// Why a line is no command of a service.
#[derive(Clone, Copy, Debug, PartialEq, Eq, Error)]
pub enum LineFault {
    /// It's a command of another service. It's answered by `refused 60`.
    #[error("it's a command of another service")]
    NotMine,
    /// It isn't a command. It's answered by `refused 80`.
    #[error("it can't be read")]
    Unreadable,
    /// An allocation failed. It's answered by `refused 64`, and may be given again.
    #[error("out of memory")]
    Memory,
}

impl LineFault {
    ghost use Rattle.service_program.specs.Business.{line_fault_number};

    /// Its number, which follows `refused`.
    pub fn number(self) -> u64
        ensures { result ≡ line_fault_number self }
    {
        match self {
            LineFault::NotMine => 60,
            LineFault::Memory => 64,
            LineFault::Unreadable => 80,
        }
    }
}

impl From<AllocError> for LineFault {
    ghost use Rattle.service_program.specs.declared.business.LineFault.TheVariants.{Memory};

    ghost from_gives = { λ _ fault. fault ≡ Memory };

    fn from(_: AllocError) -> LineFault {
        LineFault::Memory
    }
}

/// A business as a program: what its lines mean, and how its states are shown. What is done with commands and messages says
/// the handler `H`. A type of one's own implements it, since the handler may be of another crate.
pub trait Business<H: Handler> {
    /// The entity and the command of a line. The line has no LF, isn't empty, isn't a comment, and is none of `show`,
    /// `connect`, `status` and `await`, which each program answers.
    ///
    /// # Errors
    /// `Unreadable` where the line is no command, `NotMine` where it's one of another service, `Memory`.
    fn read_command(alloc: Global, line: &str) -> Result<(Entity, H::Command), LineFault>;

    /// The words of a state, which follow its entity on the line of `show`: `free`. An entity among them is shown by
    /// [`show_entity`](crate::show_entity). For an LF `\n` is printed.
    ///
    /// # Errors
    /// Where an allocation failed: then nothing of the line is printed.
    // A text of its own, which the library puts on the line: a business that appends to the line could spoil it.
    fn show_state(alloc: Global, state: &H::State) -> Result<String, AllocError>;
}

/// Reads an entity from a text such as `stock/seven`, in which `\s` is a space, `\n` LF, `\r` CR and `\\` a backslash. It has
/// no space, and any other octet is itself.
///
/// # Errors
/// `Unreadable` where it isn't a kind and a key of 1 to 64 octets, `Memory`.
pub fn read_entity(alloc: Global, text: &str) -> Result<Entity, LineFault>
    ensures { IsReadAs (entity_on text.now) result }
{
    // Schedules have the same words, so one reader serves both.
    match schedule_text::read_entity(alloc, text) {
        Ok(Some(entity)) => Ok(entity),
        Ok(None) => Err(LineFault::Unreadable),
        Err(_) => Err(LineFault::Memory),
    }
}

/// Reads the key of an entity of a kind, as a command's line has it: `seven` of the kind `Stock` is `stock/seven`.
///
/// # Errors
/// Those of [`read_entity`].
pub fn read_key(alloc: Global, kind: Kind, key: &str) -> Result<Entity, LineFault>
    ensures { IsReadAs (entity_on (prefix_of kind ++ key.now)) result }
{
    // Read as a whole entity, so that a key has the escapes and limits that it has in `show`.
    let mut text = String::from_str(alloc, kind.prefix())?;
    text.push_str(key)?;
    read_entity(alloc, &text)
}
