//! Why a frame wasn't taken, or a held letter wasn't handled.

use base::limits::MAX_BODY;
use endpoint::EndFault;
use envelope::EnvelopeFault;
use std::alloc::AllocError;
use stomp_client::ClientFault;
use stomp_frame::{Frame, FrameFault};
use thiserror::Error;

/// Why a frame wasn't taken, or a held letter wasn't handled.
#[derive(Clone, Copy, Debug, PartialEq, Eq, Error)]
pub enum ReceptionFault {
    /// What came is no frame.
    #[error("{0}")]
    Frame(FrameFault),
    /// The client's session refused the frame; or an allocation failed, or no number of a transaction is left.
    #[error("{0}")]
    Client(ClientFault),
    /// The frame carries no envelope, or an allocation failed.
    #[error("{0}")]
    Envelope(EnvelopeFault),
    /// The endpoint refused what the frame carries, or its store failed.
    #[error("{0}")]
    End(EndFault),
}

impl ReceptionFault {
    ghost use Rattle.std.specs.Prelude.{◌≡◌};
    ghost use Rattle.reception.specs.Faults.{reception_fault_number, leaves_waiting};

    /// The number of the fault: that of its cause.
    pub fn number(self) -> u8
        ensures { result ≡ reception_fault_number self }
    {
        match self {
            ReceptionFault::Frame(fault) => fault.number(),
            ReceptionFault::Client(fault) => fault.number(),
            ReceptionFault::Envelope(fault) => fault.number(),
            ReceptionFault::End(fault) => fault.number(),
        }
    }

    /// Whether the frame still waits: memory or a number was wanting before the endpoint was asked.
    pub fn leaves_waiting(self) -> bool
        ensures { result ≡ leaves_waiting self }
    {
        match self {
            ReceptionFault::Client(ClientFault::Memory) => true,
            ReceptionFault::Client(ClientFault::NumbersUsed) => true,
            ReceptionFault::Envelope(EnvelopeFault::Memory) => true,
            // All others were answered, or can't be: to take the frame once more would bring nothing else.
            _ => false,
        }
    }
}

/// A frame that wasn't taken.
#[derive(Debug, Drop)]
pub struct Untaken {
    /// Why.
    pub fault: ReceptionFault,
    /// The frame, where it still waits.
    pub frame: Option<Frame<MAX_BODY>>,
}

impl Untaken {
    ghost use Rattle.std.specs.Prelude.{◌≡◌};
    ghost use Rattle.reception.specs.Faults.{waiting_after};

    /// What is left of a frame after this fault.
    pub(crate) fn of(fault: ReceptionFault, frame: Frame<MAX_BODY>) -> Untaken
        ensures { result ≡ record { fault = fault; frame = waiting_after fault frame } }
    {
        if fault.leaves_waiting() {
            Untaken {
                fault,
                frame: Some(frame),
            }
        } else {
            Untaken { fault, frame: None }
        }
    }
}

impl From<ClientFault> for ReceptionFault {
    ghost use Rattle.std.specs.Prelude.{◌≡◌};
    ghost use Rattle.reception.specs.declared.fault.ReceptionFault.TheVariants.{Client};

    ghost from_gives = { λ cause fault. fault ≡ Client cause };

    fn from(cause: ClientFault) -> ReceptionFault {
        ReceptionFault::Client(cause)
    }
}

impl From<EnvelopeFault> for ReceptionFault {
    ghost use Rattle.std.specs.Prelude.{◌≡◌};
    ghost use Rattle.reception.specs.declared.fault.ReceptionFault.TheVariants.{Envelope};

    ghost from_gives = { λ cause fault. fault ≡ Envelope cause };

    fn from(cause: EnvelopeFault) -> ReceptionFault {
        ReceptionFault::Envelope(cause)
    }
}

impl From<EndFault> for ReceptionFault {
    ghost use Rattle.std.specs.Prelude.{◌≡◌};
    ghost use Rattle.reception.specs.declared.fault.ReceptionFault.TheVariants.{End};

    ghost from_gives = { λ cause fault. fault ≡ End cause };

    fn from(cause: EndFault) -> ReceptionFault {
        ReceptionFault::End(cause)
    }
}

impl From<AllocError> for ReceptionFault {
    ghost use Rattle.std.specs.Prelude.{◌≡◌};
    ghost use Rattle.stomp_client.specs.declared.fault.ClientFault.TheVariants.{Memory};
    ghost use Rattle.reception.specs.declared.fault.ReceptionFault.TheVariants.{Client};

    ghost from_gives = { λ _ fault. fault ≡ Client Memory };

    fn from(_: AllocError) -> ReceptionFault {
        ReceptionFault::Client(ClientFault::Memory)
    }
}
