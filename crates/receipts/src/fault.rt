//! Why no receipt is opened.

use thiserror::Error;

/// Why no receipt is opened.
#[derive(Clone, Copy, Debug, PartialEq, Eq, Error)]
pub enum ReceiptFault {
    /// A growth was refused.
    #[error("1 Memory: out of memory")]
    Memory,
    /// The last number, 2^64 - 1, was given.
    #[error("2 NumbersUsed: no receipt number is left")]
    NumbersUsed,
}

impl ReceiptFault {
    ghost use Rattle.std.specs.Prelude.{◌≡◌};
    ghost use Rattle.receipts.specs.Fault.{receipt_fault_number};

    /// The number of the fault, 1 or 2.
    pub fn number(self) -> u8
        ensures { result ≡ receipt_fault_number self }
    {
        match self {
            ReceiptFault::Memory => 1,
            ReceiptFault::NumbersUsed => 2,
        }
    }
}
