//! Why a relay stopped.

use endpoint::EndFault;
use envelope::EnvelopeFault;
use std::alloc::AllocError;
use stomp_client::ClientFault;
use thiserror::Error;

/// Why a relay stopped. What it sent before stays sent.
#[derive(Clone, Copy, Debug, PartialEq, Eq, Error)]
pub enum RelayFault {
    /// The client's session refused the SEND, or an allocation of the relay failed.
    #[error("{0}")]
    Client(ClientFault),
    /// The SEND couldn't be made.
    #[error("{0}")]
    Envelope(EnvelopeFault),
    /// The outbox couldn't be read.
    #[error("{0}")]
    Endpoint(EndFault),
}

impl RelayFault {
    ghost use Rattle.std.specs.Prelude.{◌≡◌};
    ghost use Rattle.relay.specs.Fault.{relay_fault_number};

    /// The number of the fault: that of its cause.
    pub fn number(self) -> u8
        ensures { result ≡ relay_fault_number self }
    {
        match self {
            RelayFault::Client(fault) => fault.number(),
            RelayFault::Envelope(fault) => fault.number(),
            RelayFault::Endpoint(fault) => fault.number(),
        }
    }
}

impl From<ClientFault> for RelayFault {
    ghost use Rattle.std.specs.Prelude.{◌≡◌};
    ghost use Rattle.relay.specs.declared.fault.RelayFault.TheVariants.{Client};

    ghost from_gives = { λ cause fault. fault ≡ Client cause };

    fn from(cause: ClientFault) -> RelayFault {
        RelayFault::Client(cause)
    }
}

impl From<EnvelopeFault> for RelayFault {
    ghost use Rattle.std.specs.Prelude.{◌≡◌};
    ghost use Rattle.relay.specs.declared.fault.RelayFault.TheVariants.{Envelope};

    ghost from_gives = { λ cause fault. fault ≡ Envelope cause };

    fn from(cause: EnvelopeFault) -> RelayFault {
        RelayFault::Envelope(cause)
    }
}

impl From<EndFault> for RelayFault {
    ghost use Rattle.std.specs.Prelude.{◌≡◌};
    ghost use Rattle.relay.specs.declared.fault.RelayFault.TheVariants.{Endpoint};

    ghost from_gives = { λ cause fault. fault ≡ Endpoint cause };

    fn from(cause: EndFault) -> RelayFault {
        RelayFault::Endpoint(cause)
    }
}

impl From<AllocError> for RelayFault {
    ghost use Rattle.std.specs.Prelude.{◌≡◌};
    ghost use Rattle.stomp_client.specs.declared.fault.ClientFault.TheVariants.{Memory};
    ghost use Rattle.relay.specs.declared.fault.RelayFault.TheVariants.{Client};

    ghost from_gives = { λ _ fault. fault ≡ Client Memory };

    fn from(_: AllocError) -> RelayFault {
        RelayFault::Client(ClientFault::Memory)
    }
}
