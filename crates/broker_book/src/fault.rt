//! Why a step is refused.

ghost use Rattle.std.specs.Prelude.{◌≡◌};
ghost use Rattle.broker_book.specs.Faults.{queue_fault_name, queue_fault_number};

use std::alloc::{AllocError, AllocFailed};
use thiserror::Error;

/// Why a change of a broker's queues is refused.
#[derive(Clone, Copy, Debug, PartialEq, Eq, Error)]
pub enum QueueFault {
    /// No delivery of this number is out to the session.
    #[error("31 NoSuchAck: no delivery of this number is unanswered")]
    NoSuchAck,
    /// The destination has as many messages as it may have.
    #[error("32 QueueFull: the destination holds no more messages")]
    QueueFull,
    /// An allocation failed.
    #[error("34 Memory: out of memory")]
    Memory,
    /// No number is left for a message.
    #[error("36 TooMany: no number is left")]
    TooMany,
}

impl QueueFault {
    /// The number of the fault.
    pub fn number(self) -> u8
        ensures { result ≡ queue_fault_number self }
    {
        match self {
            QueueFault::NoSuchAck => 31,
            QueueFault::QueueFull => 32,
            QueueFault::Memory => 34,
            QueueFault::TooMany => 36,
        }
    }

    /// The name of the fault, as an ERROR has it after the number.
    pub fn name(self) -> &'static str
        ensures { result.now ≡ queue_fault_name self }
    {
        match self {
            QueueFault::NoSuchAck => "NoSuchAck",
            QueueFault::QueueFull => "QueueFull",
            QueueFault::Memory => "Memory",
            QueueFault::TooMany => "TooMany",
        }
    }
}

impl From<AllocError> for QueueFault {
    ghost use Rattle.broker_book.specs.declared.fault.QueueFault.TheVariants.{Memory};

    ghost from_gives = { λ _ fault. fault ≡ Memory };

    fn from(_: AllocError) -> QueueFault {
        QueueFault::Memory
    }
}

impl<T: Drop> From<AllocFailed<T>> for QueueFault {
    ghost use Rattle.broker_book.specs.declared.fault.QueueFault.TheVariants.{Memory};

    ghost from_gives = { λ _ fault. fault ≡ Memory };

    fn from(_: AllocFailed<T>) -> QueueFault {
        QueueFault::Memory
    }
}
