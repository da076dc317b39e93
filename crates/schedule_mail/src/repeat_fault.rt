//! Why a SEND isn't repeated.

ghost use Rattle.std.specs.Prelude.{◌≡◌};
ghost use Rattle.schedule_mail.specs.RepeatFaults.{repeat_fault_number};

use std::alloc::AllocError;
use thiserror::Error;

/// Why a SEND isn't repeated.
#[derive(Clone, Copy, Debug, PartialEq, Eq, Error)]
pub enum RepeatFault {
    /// Its destination holds no more messages.
    #[error("32 QueueFull: the destination holds no more messages")]
    QueueFull,
    /// A growth was refused.
    #[error("34 Memory: out of memory")]
    Memory,
    /// No session number or no message number is left.
    #[error("36 TooMany: no number is left")]
    TooMany,
}

impl RepeatFault {
    /// The number of the fault.
    pub fn number(self) -> u8
        ensures { result ≡ repeat_fault_number self }
    {
        match self {
            RepeatFault::QueueFull => 32,
            RepeatFault::Memory => 34,
            RepeatFault::TooMany => 36,
        }
    }
}

impl From<AllocError> for RepeatFault {
    ghost use Rattle.std.specs.Prelude.{◌≡◌};
    ghost use Rattle.schedule_mail.specs.declared.repeat_fault.RepeatFault.TheVariants.{Memory};

    ghost from_gives = { λ _ fault. fault ≡ Memory };

    fn from(_: AllocError) -> RepeatFault {
        RepeatFault::Memory
    }
}
