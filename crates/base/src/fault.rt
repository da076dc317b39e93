//! Why a text names no entity.

use std::alloc::AllocError;
use thiserror::Error;

/// Why a text names no entity.
#[derive(Clone, Copy, Debug, PartialEq, Eq, Error)]
pub enum EntityFault {
    /// The key is empty, has more than 64 octets, or has a NUL.
    #[error("1 BadKey: a key has 1 to 64 octets and no NUL")]
    BadKey,
    /// The text begins with none of the three kinds. Tested before the key.
    #[error("2 BadKind: an entity begins with order/, stock/ or account/")]
    BadKind,
    /// A growth was refused.
    #[error("3 Memory: out of memory")]
    Memory,
}

impl EntityFault {
    ghost use Rattle.std.specs.Prelude.{◌≡◌};
    ghost use Rattle.base.specs.Fault.{entity_fault_number};

    /// The number of the fault, 1 to 3.
    pub fn number(self) -> u8
        ensures { result ≡ entity_fault_number self }
    {
        match self {
            EntityFault::BadKey => 1,
            EntityFault::BadKind => 2,
            EntityFault::Memory => 3,
        }
    }
}

impl From<AllocError> for EntityFault {
    ghost use Rattle.std.specs.Prelude.{◌≡◌};
    ghost use Rattle.base.specs.declared.fault.EntityFault.TheVariants.{Memory};

    ghost from_gives = { λ _ fault. fault ≡ Memory };

    fn from(_: AllocError) -> EntityFault {
        EntityFault::Memory
    }
}
