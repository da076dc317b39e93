//! What a book holds.

ghost use Rattle.std.specs.Prelude.{◌≡◌, IfOk};
ghost use Rattle.broker_book.specs.Books.{is_auto, is_named, reaches};

use crate::Shared;
use std::alloc::AllocError;
use stomp_session::{Headers, Octets, Text};

/// What a SEND brings.
#[derive(Debug, Drop)]
pub struct Sent {
    /// Where it goes.
    pub destination: Text,
    /// The headers that its MESSAGEs take over, in order.
    pub headers: Headers,
    /// The body of the SEND.
    pub body: Octets,
}

/// How deliveries are answered (STOMP 1.2, section "SUBSCRIBE ack Header").
#[derive(Clone, Copy, Debug, PartialEq, Eq)]
pub enum Mode {
    /// Not at all: a message is gone as it goes out.
    Auto,
    /// An answer counts for the delivery and for all earlier ones to the subscription.
    Client,
    /// An answer counts for the delivery alone.
    Individual,
}

impl Mode {
    /// Whether deliveries want no answer.
    pub fn is_auto(self) -> bool
        ensures { result ≡ is_auto self }
    {
        matches!(self, Mode::Auto)
    }

    /// Whether an answer to the delivery `answered` counts for the delivery `number` of the same subscription.
    pub fn reaches(self, answered: u64, number: u64) -> bool
        ensures { result ≡ reaches self answered number }
    {
        match self {
            Mode::Client => number <= answered,
            // In mode `auto` nothing is ever out, so no answer asks for its arm.
            Mode::Auto | Mode::Individual => number == answered,
        }
    }
}

/// A subscription of a session.
#[derive(Debug, Drop)]
pub struct Subscription {
    /// The session's number.
    pub session: u64,
    /// The subscription's name within the session.
    pub id: Shared<Text>,
    /// Where it listens.
    pub destination: Shared<Text>,
    /// How its deliveries are answered.
    pub mode: Mode,
}

impl Subscription {
    /// Whether it is the subscription of this session with this name.
    pub fn is_named(&self, session: u64, id: &Text) -> bool
        ensures { result ≡ is_named session id.now self.now }
    {
        // The number first: names are compared within a session alone.
        self.session == session && self.id.get().same(id)
    }

    /// An equal subscription; its texts are shared, so that it allocates nothing.
    ///
    /// # Errors
    /// Where a text has too many owners to count.
    pub fn share(&self) -> Result<Subscription, AllocError>
        ensures { IfOk result (λ s. s ≡ self.now) }
    {
        Ok(Subscription {
            session: self.session,
            id: self.id.share()?,
            destination: self.destination.share()?,
            mode: self.mode,
        })
    }
}

/// What a transaction keeps until its end.
#[derive(Debug, Drop)]
pub enum Action {
    /// A SEND.
    Put(Shared<Sent>),
    /// An ACK of a delivery's number.
    Ack(u64),
    /// A NACK of a delivery's number.
    Nack(u64),
}

/// A SEND that was accepted, with the number of its message.
#[derive(Debug, Drop)]
pub struct Accepted {
    /// The number of the message.
    pub number: u64,
    /// What the SEND brought.
    pub sent: Shared<Sent>,
}
