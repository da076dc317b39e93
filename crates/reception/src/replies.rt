//! The replies to a MESSAGE, with room for each.

ghost use Rattle.std.specs.Prelude.{◌≡◌, ℕ, ◌≤◌, length, IfOk, IfErr, IsOkUnless};
ghost use Rattle.stomp_client.specs.Delivered.{IsDelivered};
ghost use Rattle.stomp_client.specs.declared.fault.ClientFault.TheVariants.{Memory};
ghost use Rattle.stomp_frame.specs.Frames.{Content};
ghost use Rattle.reception.specs.Prepared.{AreAcknowledgements, AreLetterReplies, HasRoom};
ghost use Rattle.reception.specs.Parts.Letters.{IsLetterWant};
ghost use Rattle.reception.specs.Replies.{refusal, IsTextOf};

use crate::ReceptionFault;
use crate::texts::{answer_text, settling_text};
use base::limits::MAX_BODY;
use endpoint::EndFault;
use envelope::Letter;
use std::alloc::Global;
use stomp_client::{ClientFault, ClientSession};
use stomp_frame::{Command, Frame};

/// The texts of ACK and NACK.
#[derive(Drop)]
pub(crate) struct Acknowledgements {
    pub(crate) ack: Vec<u8>,
    pub(crate) nack: Vec<u8>,
}

impl Acknowledgements {
    /// ACK and NACK of a MESSAGE, with room for either.
    pub(crate) fn make(
        alloc: Global,
        client: &mut ClientSession<u64>,
        message: &Frame<MAX_BODY>,
    ) -> Result<Acknowledgements, ClientFault>
        requires { IsDelivered message.now }
        ensures texts { IfOk result (λ a. AreAcknowledgements message.now a) }
        ensures room { IfOk result (λ a. HasRoom a client.new.room) }
        ensures same { client.new.client ≡ client.old.client }
        ensures fault { IsOkUnless result Memory }
    {
        let ack = answer_text(alloc, Command::Ack, message)?;
        let nack = answer_text(alloc, Command::Nack, message)?;
        // Room for either, and not for both: one of them is written at most.
        client.room(ack.len())?;
        client.room(nack.len())?;
        Ok(Acknowledgements { ack, nack })
    }

    /// What is written where the endpoint refuses what the MESSAGE carries.
    pub(crate) fn refusal(&self, fault: EndFault) -> &[u8]
        ensures text { (message : Content) → AreAcknowledgements message self.now
            → IsTextOf (refusal message fault) result.now }
        ensures room { (room : ℕ) → HasRoom self.now room → length result.now ≤ room }
    {
        match fault {
            // Never of use to this service: a redelivery would be refused again, without end.
            EndFault::NotMine | EndFault::NotSent => &self.ack,
            // Whether it was processed isn't known, so nothing may say so: the broker redelivers it on a new
            // connection.
            EndFault::StoreFailed => &[],
            // Nothing was changed, and a later attempt may succeed: NACK asks for one.
            EndFault::Business(_)
            | EndFault::TooEarly
            | EndFault::Memory
            | EndFault::Unusable
            | EndFault::NumberLimit => &self.nack,
        }
    }
}

/// What may be written for a letter at once: where it is handled the transaction that settles its pair, and else ACK or
/// NACK.
#[derive(Drop)]
pub(crate) struct LetterReplies {
    pub(crate) settling: Vec<u8>,
    pub(crate) answers: Acknowledgements,
}

impl LetterReplies {
    /// The replies to a letter that a MESSAGE brought, with room for each.
    pub(crate) fn make(
        alloc: Global,
        client: &mut ClientSession<u64>,
        message: &Frame<MAX_BODY>,
        letter: &Letter,
    ) -> Result<LetterReplies, ReceptionFault>
        requires message { IsDelivered message.now }
        ensures ready { IfOk result (λ r. AreLetterReplies message.now client.new letter.now r) }
        ensures same { client.new.client ≡ client.old.client }
        ensures fault { IfErr result (IsLetterWant client.old.client.transactions) }
    {
        // Before anything is made or read: a letter that is only held needs no transaction, but then one test serves
        // all of them.
        if client.transactions() == u64::MAX {
            return Err(ReceptionFault::Client(ClientFault::NumbersUsed));
        }
        let answers = Acknowledgements::make(alloc, client, message)?;
        // The test above keeps this sum from wrapping.
        let transaction = client.transactions() + 1;
        let settling = settling_text(alloc, message, transaction, &letter.pair, letter.number)?;
        client.room(settling.len())?;
        Ok(LetterReplies { settling, answers })
    }
}
