//! Why a client frame is refused at once.

ghost use Rattle.std.specs.Prelude.{◌≡◌};
ghost use Rattle.stomp_session.specs.Faults.{session_fault_number, session_fault_name};

use std::alloc::{AllocError, AllocFailed};
use thiserror::Error;

/// Why a client frame is refused before anything is done, or a frame of the server isn't written.
#[derive(Clone, Copy, Debug, PartialEq, Eq, Error)]
pub enum SessionFault {
    /// Another command than CONNECT or STOMP, and the session isn't connected.
    #[error("21 NotConnected: the session isn't connected")]
    NotConnected,
    /// A second CONNECT or STOMP.
    #[error("22 AlreadyConnected: the session is connected")]
    AlreadyConnected,
    /// `accept-version` doesn't offer 1.2.
    #[error("23 Version: accept-version doesn't offer 1.2")]
    Version,
    /// A header is missing that the command requires.
    #[error("24 MissingHeader: a header is missing that the command requires")]
    MissingHeader,
    /// A command of a server.
    #[error("33 WrongCommand: a server's command")]
    WrongCommand,
    /// An allocation failed.
    #[error("34 Memory: out of memory")]
    Memory,
    /// A value to be echoed has more than 128 octets, or a SEND more than 28 headers of its own.
    #[error("35 TooLarge: a value to be echoed or the headers of a SEND are over the limit")]
    TooLarge,
}

impl SessionFault {
    /// The number of the fault.
    pub fn number(self) -> u8
        ensures { result ≡ session_fault_number self }
    {
        match self {
            SessionFault::NotConnected => 21,
            SessionFault::AlreadyConnected => 22,
            SessionFault::Version => 23,
            SessionFault::MissingHeader => 24,
            SessionFault::WrongCommand => 33,
            SessionFault::Memory => 34,
            SessionFault::TooLarge => 35,
        }
    }

    /// The name of the fault, as an ERROR has it after the number.
    pub fn name(self) -> &'static str
        ensures { result.now ≡ session_fault_name self }
    {
        match self {
            SessionFault::NotConnected => "NotConnected",
            SessionFault::AlreadyConnected => "AlreadyConnected",
            SessionFault::Version => "Version",
            SessionFault::MissingHeader => "MissingHeader",
            SessionFault::WrongCommand => "WrongCommand",
            SessionFault::Memory => "Memory",
            SessionFault::TooLarge => "TooLarge",
        }
    }
}

impl From<AllocError> for SessionFault {
    ghost use Rattle.stomp_session.specs.declared.fault.SessionFault.TheVariants.{Memory};

    ghost from_gives = { λ _ fault. fault ≡ Memory };

    fn from(_: AllocError) -> SessionFault {
        SessionFault::Memory
    }
}

impl<T: Drop> From<AllocFailed<T>> for SessionFault {
    ghost use Rattle.stomp_session.specs.declared.fault.SessionFault.TheVariants.{Memory};

    ghost from_gives = { λ _ fault. fault ≡ Memory };

    fn from(_: AllocFailed<T>) -> SessionFault {
        SessionFault::Memory
    }
}
