//! Why serving ended, or a connection.

ghost use Rattle.std.specs.Prelude.{◌≡◌};
ghost use Rattle.broker_server.specs.Faults.{serve_fault_number};

use thiserror::Error;

/// Why `serve` ended before it was asked to.
#[derive(Clone, Copy, Debug, PartialEq, Eq, Error)]
pub enum ServeFault {
    /// The system refused to wait for sockets.
    #[error("fault 2 Device")]
    Device,
    /// An allocation failed before the first connection was taken.
    #[error("fault 34 Memory")]
    Memory,
}

impl ServeFault {
    /// The number of the fault.
    pub fn number(self) -> u8
        ensures { result ≡ serve_fault_number self }
    {
        match self {
            ServeFault::Device => 2,
            ServeFault::Memory => 34,
        }
    }
}

/// Why a turn of reading came to no end.
#[derive(Clone, Copy, Debug, PartialEq, Eq, Error)]
pub enum ReadFault {
    /// The read failed.
    #[error("the stream failed")]
    Stream,
    /// Memory was refused to a frame, or to a deal after it. The octets were taken: the next feed continues where this
    /// one has stopped.
    #[error("out of memory: frames wait")]
    Waits,
    /// Memory was refused to the octets, so many of them: the session has taken none, and nothing has changed.
    #[error("out of memory: octets weren't taken")]
    Untaken(usize),
}

/// Why a connection ends at a turn.
#[derive(Clone, Copy, Debug, PartialEq, Eq, Error)]
pub enum TurnFault {
    /// A read or a write failed.
    #[error("the stream failed")]
    Stream,
    /// An allocation failed.
    #[error("out of memory")]
    Memory,
}
