//! Why a link refused a call.

use std::alloc::AllocError;
use thiserror::Error;

/// Why a link refused a call.
#[derive(Clone, Copy, Debug, PartialEq, Eq, Error)]
pub enum LinkFault {
    /// The connection has ended: no octet comes any more. It was counted.
    #[error("1 Cut: the connection has ended")]
    Cut,
    /// A read or a write failed. It was counted.
    #[error("2 Device: a read or a write failed")]
    Device,
    /// An allocation failed. Nothing was changed, and nothing was counted.
    #[error("3 Memory: out of memory")]
    Memory,
}

impl LinkFault {
    ghost use Rattle.std.specs.Prelude.{◌≡◌};
    ghost use Rattle.stomp_wire.specs.Fault.{link_fault_number, link_fault_name};

    /// The number of the fault, 1 to 3.
    pub fn number(self) -> u8
        ensures { result ≡ link_fault_number self }
    {
        match self {
            LinkFault::Cut => 1,
            LinkFault::Device => 2,
            LinkFault::Memory => 3,
        }
    }

    /// The name of the fault: `Cut`, `Device` or `Memory`.
    pub fn name(self) -> &'static str
        ensures { result.now ≡ link_fault_name self }
    {
        match self {
            LinkFault::Cut => "Cut",
            LinkFault::Device => "Device",
            LinkFault::Memory => "Memory",
        }
    }
}

impl From<AllocError> for LinkFault {
    ghost use Rattle.std.specs.Prelude.{◌≡◌};
    ghost use Rattle.stomp_wire.specs.declared.fault.LinkFault.TheVariants.{Memory};

    ghost from_gives = { λ _ fault. fault ≡ Memory };

    fn from(_: AllocError) -> LinkFault {
        LinkFault::Memory
    }
}
