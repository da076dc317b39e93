//! Why the outbox doesn't take what an entity sends.

ghost use Rattle.std.specs.Prelude.{◌≡◌};

use keep::KeepFault;
use std::alloc::{AllocError, AllocFailed};
use thiserror::Error;

/// Why the outbox didn't take what an entity sends.
#[derive(Clone, Copy, Debug, PartialEq, Eq, Error)]
pub enum OutboxFault {
    /// The store failed, or an allocation failed.
    #[error("{0}")]
    Store(KeepFault),
    /// The number of a letter would be above 2^40.
    #[error("no number is left")]
    NumberLimit,
}

impl From<KeepFault> for OutboxFault {
    ghost use Rattle.outbox.specs.declared.fault.OutboxFault.TheVariants.{Store};

    ghost from_gives = { λ kept fault. fault ≡ Store kept };

    fn from(fault: KeepFault) -> OutboxFault {
        OutboxFault::Store(fault)
    }
}

impl From<AllocError> for OutboxFault {
    ghost use Rattle.keep.specs.declared.fault.KeepFault.TheVariants.{Memory};
    ghost use Rattle.outbox.specs.declared.fault.OutboxFault.TheVariants.{Store};

    ghost from_gives = { λ _ fault. fault ≡ Store Memory };

    fn from(_: AllocError) -> OutboxFault {
        OutboxFault::Store(KeepFault::Memory)
    }
}

impl<T: Drop> From<AllocFailed<T>> for OutboxFault {
    ghost use Rattle.keep.specs.declared.fault.KeepFault.TheVariants.{Memory};
    ghost use Rattle.outbox.specs.declared.fault.OutboxFault.TheVariants.{Store};

    ghost from_gives = { λ _ fault. fault ≡ Store Memory };

    fn from(_: AllocFailed<T>) -> OutboxFault {
        OutboxFault::Store(KeepFault::Memory)
    }
}
