//! Why a connection isn't opened.

ghost use Rattle.std.specs.Prelude.{◌≡◌};
ghost use Rattle.schedule_mail.specs.Faults.{open_fault_number};

use broker_core::BrokerFault;
use stomp_client::ClientFault;
use thiserror::Error;

/// Why a connection isn't opened.
#[derive(Clone, Copy, Debug, PartialEq, Eq, Error)]
pub enum OpenFault {
    /// CONNECT could not be written.
    #[error("{0}")]
    Client(ClientFault),
    /// The broker opened no session.
    #[error("{0}")]
    Broker(BrokerFault),
}

impl OpenFault {
    /// The number of the fault.
    pub fn number(self) -> u8
        ensures { result ≡ open_fault_number self }
    {
        match self {
            OpenFault::Client(fault) => fault.number(),
            OpenFault::Broker(fault) => fault.number(),
        }
    }
}

impl From<ClientFault> for OpenFault {
    ghost use Rattle.schedule_mail.specs.declared.fault.OpenFault.TheVariants.{Client};

    ghost from_gives = { λ why fault. fault ≡ Client why };

    fn from(fault: ClientFault) -> OpenFault {
        OpenFault::Client(fault)
    }
}

impl From<BrokerFault> for OpenFault {
    ghost use Rattle.schedule_mail.specs.declared.fault.OpenFault.TheVariants.{Broker};

    ghost from_gives = { λ why fault. fault ≡ Broker why };

    fn from(fault: BrokerFault) -> OpenFault {
        OpenFault::Broker(fault)
    }
}
