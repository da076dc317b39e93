//! What takes what is delivered.

ghost use Rattle.std.specs.Prelude.{◌≡◌, OnOk, OnErr, Option};
ghost use Rattle.broker_book.specs.Steps.{Handed};

use broker_book::{Sent, Subscription};
use std::alloc::AllocError;

/// What takes messages that are delivered, one at a time.
pub trait Sink {
    /// What it is after one.
    ghost takes: { Self → Handed → Self → Type 0 };

    /// Takes the message of this number with what its SEND brought, which goes to a subscription: as the delivery
    /// `ack`, or with no number in mode `auto`.
    ///
    /// # Errors
    /// If an allocation fails; then nothing has changed.
    fn deliver(
        &mut self,
        number: u64,
        sent: &Sent,
        to: &Subscription,
        ack: Option<u64>,
    ) -> Result<(), AllocError>
        ensures ok { OnOk result (takes self.old (record { number = number; sent = sent.now; to = to.now; ack = ack })
            self.new) }
        ensures err { OnErr result (self.new ≡ self.old) };
}
