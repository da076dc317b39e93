//! Why a frame or a call is refused.

ghost use Rattle.std.specs.Prelude.{◌≡◌};
ghost use Rattle.broker_core.specs.Faults.{broker_fault_number, refusal_name, refusal_number};

use stomp_session::SessionFault;
use thiserror::Error;

/// Why a frame is refused: an ERROR tells its number and name, and ends the session.
#[derive(Clone, Copy, Debug, PartialEq, Eq, Error)]
pub enum FrameRefusal {
    /// The octets are no frame.
    #[error("20 BadFrame: the octets are no frame")]
    BadFrame,
    /// The frame is refused before anything is done.
    #[error("{0}")]
    Unaccepted(SessionFault),
    /// The destination isn't `/queue/` and 1 to 64 ASCII letters, digits, `.`, `_`, `-` or `/`.
    #[error("25 BadDestination: the destination names no queue")]
    BadDestination,
    /// The session has a subscription of this name.
    #[error("26 SubscriptionExists: the session has a subscription of this name")]
    SubscriptionExists,
    /// The session has no subscription of this name.
    #[error("27 NoSubscription: the session has no subscription of this name")]
    NoSubscription,
    /// The acknowledge mode is none.
    #[error("28 BadAckMode: the acknowledge mode is none of auto, client, client-individual")]
    BadAckMode,
    /// The session has an open transaction of this name.
    #[error("29 TransactionExists: a transaction of this name is open")]
    TransactionExists,
    /// The session has no open transaction of this name.
    #[error("30 NoTransaction: no transaction of this name is open")]
    NoTransaction,
    /// No delivery of this number is unanswered by the session.
    #[error("31 NoSuchAck: no delivery of this number is unanswered")]
    NoSuchAck,
    /// The destination has as many messages as it may have.
    #[error("32 QueueFull: the destination holds no more messages")]
    QueueFull,
    /// A limit is reached: subscriptions, transactions, actions or message numbers.
    #[error("36 TooMany: a limit is reached")]
    TooMany,
}

impl FrameRefusal {
    /// The number of the refusal.
    pub fn number(self) -> u8
        ensures { result ≡ refusal_number self }
    {
        match self {
            FrameRefusal::BadFrame => 20,
            FrameRefusal::Unaccepted(fault) => fault.number(),
            FrameRefusal::BadDestination => 25,
            FrameRefusal::SubscriptionExists => 26,
            FrameRefusal::NoSubscription => 27,
            FrameRefusal::BadAckMode => 28,
            FrameRefusal::TransactionExists => 29,
            FrameRefusal::NoTransaction => 30,
            FrameRefusal::NoSuchAck => 31,
            FrameRefusal::QueueFull => 32,
            FrameRefusal::TooMany => 36,
        }
    }

    /// The name of the refusal, as an ERROR has it after the number.
    pub fn name(self) -> &'static str
        ensures { result.now ≡ refusal_name self }
    {
        match self {
            FrameRefusal::BadFrame => "BadFrame",
            FrameRefusal::Unaccepted(fault) => fault.name(),
            FrameRefusal::BadDestination => "BadDestination",
            FrameRefusal::SubscriptionExists => "SubscriptionExists",
            FrameRefusal::NoSubscription => "NoSubscription",
            FrameRefusal::BadAckMode => "BadAckMode",
            FrameRefusal::TransactionExists => "TransactionExists",
            FrameRefusal::NoTransaction => "NoTransaction",
            FrameRefusal::NoSuchAck => "NoSuchAck",
            FrameRefusal::QueueFull => "QueueFull",
            FrameRefusal::TooMany => "TooMany",
        }
    }
}

/// Why a call of a broker didn't do its work.
#[derive(Clone, Copy, Debug, PartialEq, Eq, Error)]
pub enum BrokerFault {
    /// An allocation failed.
    #[error("34 Memory: out of memory")]
    Memory {
        /// Whether the piece was taken before: then the next call goes on with it.
        took: bool,
    },
    /// No session number is left.
    #[error("36 TooMany: no session number is left")]
    TooMany,
    /// No session has this number.
    #[error("37 NoSession: no session has this number")]
    NoSession,
}

impl BrokerFault {
    /// The number of the fault.
    pub fn number(self) -> u8
        ensures { result ≡ broker_fault_number self }
    {
        match self {
            BrokerFault::Memory { took: _ } => 34,
            BrokerFault::TooMany => 36,
            BrokerFault::NoSession => 37,
        }
    }
}

/// Why a request wasn't done.
#[derive(Clone, Copy, Debug, PartialEq, Eq)]
pub enum HandlerFault {
    /// The request is refused.
    Refused(FrameRefusal),
    /// An allocation failed.
    Memory,
}
