//! Why a call of a client isn't done, or a server's frame isn't accepted.

use std::alloc::AllocError;
use thiserror::Error;

/// Why a call of a client isn't done, or a server's frame isn't accepted.
#[derive(Clone, Copy, Debug, PartialEq, Eq, Error)]
pub enum ClientFault {
    /// No CONNECTED was accepted yet.
    #[error("40 NotConnected: the server has not answered CONNECT")]
    NotConnected,
    /// CONNECT was written before.
    #[error("41 AlreadyConnected: CONNECT was written before")]
    AlreadyConnected,
    /// A frame that no server may send now. The session is closed.
    #[error("42 Unexpected: no server may send this frame now")]
    Unexpected,
    /// The session is closed.
    #[error("43 Closed: the session is closed")]
    Closed,
    /// An allocation failed.
    #[error("44 Memory: out of memory")]
    Memory,
    /// The last number, 2^64 - 1, was given.
    #[error("45 NumbersUsed: no receipt or transaction number is left")]
    NumbersUsed,
}

impl ClientFault {
    ghost use Rattle.std.specs.Prelude.{◌≡◌};
    ghost use Rattle.stomp_client.specs.Fault.{client_fault_number};

    /// The number of the fault, 40 to 45.
    pub fn number(self) -> u8
        ensures { result ≡ client_fault_number self }
    {
        match self {
            ClientFault::NotConnected => 40,
            ClientFault::AlreadyConnected => 41,
            ClientFault::Unexpected => 42,
            ClientFault::Closed => 43,
            ClientFault::Memory => 44,
            ClientFault::NumbersUsed => 45,
        }
    }
}

impl From<AllocError> for ClientFault {
    ghost use Rattle.std.specs.Prelude.{◌≡◌};
    ghost use Rattle.stomp_client.specs.declared.fault.ClientFault.TheVariants.{Memory};

    ghost from_gives = { λ _ fault. fault ≡ Memory };

    fn from(_: AllocError) -> ClientFault {
        ClientFault::Memory
    }
}
