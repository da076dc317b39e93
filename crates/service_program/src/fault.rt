//! Why the program ends with status 1.

use keep::KeepFault;
use std::io::ErrorKind;
use thiserror::Error;

/// Why the program ends with status 1. Displayed, it's its number and name alone.
#[derive(Clone, Copy, Debug, PartialEq, Eq, Error)]
pub enum RunFault {
    /// The file of the tables can't be opened.
    #[error("fault 1 Failed")]
    Unopened,
    /// Memory was refused at its opening.
    #[error("fault 2 Memory")]
    FileMemory,
    /// It's no file of this service.
    #[error("fault 3 WrongFile")]
    WrongFile,
    /// A stream failed, or the system refused what threads wait with.
    #[error("fault 2 Device")]
    Device,
    /// The store has failed.
    #[error("fault 63 StoreFailed")]
    Store,
    /// Memory was refused at the start, or to what its lines are read with.
    #[error("fault 81 Memory")]
    Memory,
}

impl RunFault {
    ghost use Rattle.std.specs.Prelude.{◌≡◌};
    ghost use Rattle.service_program.specs.Faults.{fault_of_file, fault_of_kind, words_of};

    /// What it means, in words.
    pub fn words(self) -> &'static str
        ensures { result.now ≡ words_of self }
    {
        match self {
            RunFault::Unopened => {
                "the file can't be opened, is damaged, or another program has it"
            }
            RunFault::FileMemory => "out of memory at the opening of the file",
            RunFault::WrongFile => "the file is of another service or version, or no database",
            RunFault::Device => "a stream or the system failed",
            RunFault::Store => "the file can't be read or written, or a row of it is damaged",
            RunFault::Memory => "out of memory",
        }
    }

    /// Why a file couldn't be opened.
    pub fn of_file(fault: KeepFault) -> RunFault
        ensures { result ≡ fault_of_file fault }
    {
        match fault {
            KeepFault::Failed => RunFault::Unopened,
            KeepFault::Memory => RunFault::FileMemory,
            KeepFault::WrongFile => RunFault::WrongFile,
        }
    }

    /// Why a stream, or what threads wait with, failed.
    pub fn of_kind(kind: ErrorKind) -> RunFault
        ensures { result ≡ fault_of_kind kind }
    {
        match kind {
            ErrorKind::OutOfMemory => RunFault::Memory,
            _ => RunFault::Device,
        }
    }
}
