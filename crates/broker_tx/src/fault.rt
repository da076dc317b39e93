//! Why a call is refused.

ghost use Rattle.std.specs.Prelude.{◌≡◌};
ghost use Rattle.broker_tx.specs.Faults.{transaction_fault_name, transaction_fault_number};

use std::alloc::{AllocError, AllocFailed};
use thiserror::Error;

/// Why a change of a session's transactions is refused.
#[derive(Clone, Copy, Debug, PartialEq, Eq, Error)]
pub enum TransactionFault {
    /// A transaction of this name is open.
    #[error("29 TransactionExists: a transaction of this name is open")]
    TransactionExists,
    /// No transaction of this name is open.
    #[error("30 NoTransaction: no transaction of this name is open")]
    NoTransaction,
    /// An allocation failed.
    #[error("34 Memory: out of memory")]
    Memory,
    /// As many transactions are open as may be, or the transaction keeps as many actions as it may.
    #[error("36 TooMany: no further transaction or action is taken")]
    TooMany,
}

impl TransactionFault {
    /// The number of the fault.
    pub fn number(self) -> u8
        ensures { result ≡ transaction_fault_number self }
    {
        match self {
            TransactionFault::TransactionExists => 29,
            TransactionFault::NoTransaction => 30,
            TransactionFault::Memory => 34,
            TransactionFault::TooMany => 36,
        }
    }

    /// The name of the fault, as an ERROR has it after the number.
    pub fn name(self) -> &'static str
        ensures { result.now ≡ transaction_fault_name self }
    {
        match self {
            TransactionFault::TransactionExists => "TransactionExists",
            TransactionFault::NoTransaction => "NoTransaction",
            TransactionFault::Memory => "Memory",
            TransactionFault::TooMany => "TooMany",
        }
    }
}

impl From<AllocError> for TransactionFault {
    ghost use Rattle.broker_tx.specs.declared.fault.TransactionFault.TheVariants.{Memory};

    ghost from_gives = { λ _ fault. fault ≡ Memory };

    fn from(_: AllocError) -> TransactionFault {
        TransactionFault::Memory
    }
}

impl<T: Drop> From<AllocFailed<T>> for TransactionFault {
    ghost use Rattle.broker_tx.specs.declared.fault.TransactionFault.TheVariants.{Memory};

    ghost from_gives = { λ _ fault. fault ≡ Memory };

    fn from(_: AllocFailed<T>) -> TransactionFault {
        TransactionFault::Memory
    }
}
