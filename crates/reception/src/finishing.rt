//! The second half of taking a frame: what the endpoint's answer says.

ghost use Rattle.std.specs.Prelude.{◌≡◌, List, ◌≤◌, ◌<◌, ◌+◌, ◌-◌, ◌^◌, length, Ok, OnOk, OnErr, IfErr};
ghost use Rattle.base.specs.declared.entity.Kind.{Kind};
ghost use Rattle.stomp_frame.specs.Frames.{Content};
ghost use Rattle.stomp_client.specs.Clients.{counting};
ghost use Rattle.stomp_client.specs.Delivered.{IsDelivered};
ghost use Rattle.stomp_client.specs.Written.{AreWhole};
ghost use Rattle.reception.specs.Answers.{Answers};
ghost use Rattle.reception.specs.Faults.{IsWant, taken_or, waiting_after};
ghost use Rattle.reception.specs.Prepared.{IsReadyLetter, IsReadySettle, ToldOfLetter, ToldOfSettle};
ghost use Rattle.reception.specs.Replies.{settled_again, settling, IsTextOf, Writes};
ghost use Rattle.endpoint.specs.declared.answer.Ingested.TheVariants as ingested;

use crate::texts::{settling_text, write};
use crate::{PreparedLetter, PreparedSettle, ReceptionFault, Taken, Untaken};
use base::limits::MAX_BODY;
use base::{Number, Pair};
use endpoint::{EndFault, Ingested};
use std::alloc::Global;
use stomp_client::ClientSession;
use stomp_frame::Frame;

/// Writes a transaction for which room was found, and counts it.
fn write_transaction(client: &mut ClientSession<u64>, text: &[u8])
    requires numbers { client.old.client.transactions < 2 ^ 64 - 1 }
    requires room { length text.now ≤ client.old.room }
    requires text { AreWhole text.now }
    ensures { (frames : List Content) → IsTextOf frames text.now
        → Writes frames (counting client.old.client) client.new.client }
{
    // Neither of the two can fail: the number and the room were found before.
    client.count_transaction();
    write(client, text);
}

/// Acknowledges a MESSAGE and settles its pair up to a number, in the next transaction.
pub(crate) fn settle_up_to(
    alloc: Global,
    client: &mut ClientSession<u64>,
    message: &Frame<MAX_BODY>,
    pair: &Pair,
    number: Number,
) -> Result<(), ReceptionFault>
    requires message { IsDelivered message.now }
    requires numbers { client.old.client.transactions < 2 ^ 64 - 1 }
    ensures ok { OnOk result (Writes (settling message.now (client.old.client.transactions + 1) pair.now number)
        (counting client.old.client) client.new.client) }
    ensures err { OnErr result (client.new.client ≡ client.old.client) }
    ensures fault { IfErr result IsWant }
{
    let transaction = client.transactions() + 1;
    let text = settling_text(alloc, message, transaction, pair, number)?;
    client.room(text.len())?;
    write_transaction(client, &text);
    Ok(())
}

/// How far a pair is settled when one of its letters is redelivered.
pub(crate) fn settled_again(number: Number, handled: u64) -> Number
    ensures { result ≡ settled_again number handled }
{
    match Number::new(handled) {
        Some(mark) => mark,
        // Never so: what was handled has a number.
        None => number,
    }
}

impl PreparedLetter {
    /// Settles the pair again, as far as it was handled.
    fn settle_again(
        &self,
        alloc: Global,
        client: &mut ClientSession<u64>,
        handled: u64,
    ) -> Result<Taken, ReceptionFault>
        requires { IsReadyLetter client.old self.now }
        ensures told { ToldOfLetter self.now.letter (Ok (ingested.Repeated handled)) result }
        ensures answers { (kind : Kind) → Answers kind self.now.message client.old.client client.new.client result }
    {
        // Made only now: how far the pair was handled is in the answer, by which nothing has changed.
        let mark = settled_again(self.letter.number, handled);
        settle_up_to(alloc, client, &self.message, &self.letter.pair, mark)?;
        Ok(Taken::Repeated(mark.get()))
    }

    /// Writes what the endpoint's answer says.
    fn answer(
        &self,
        alloc: Global,
        client: &mut ClientSession<u64>,
        answer: Result<Ingested, EndFault>,
    ) -> Result<Taken, ReceptionFault>
        requires { IsReadyLetter client.old self.now }
        ensures told { ToldOfLetter self.now.letter answer result }
        ensures answers { (kind : Kind) → Answers kind self.now.message client.old.client client.new.client result }
    {
        match answer {
            Ok(Ingested::Handled(position)) => {
                write_transaction(client, &self.replies.settling);
                Ok(Taken::Handled(position))
            }
            Ok(Ingested::Repeated(handled)) => self.settle_again(alloc, client, handled),
            Ok(Ingested::Held) => {
                write(client, &self.replies.answers.ack);
                Ok(Taken::Held)
            }
            Err(fault) => {
                write(client, self.replies.answers.refusal(fault));
                Err(ReceptionFault::End(fault))
            }
        }
    }

    /// The second half of taking a letter: writes what the endpoint's answer says. Where the letter was handled, now or
    /// before, a transaction: BEGIN, ACK, the SEND of a settle up to what was handled, COMMIT. Where it is held: ACK.
    ///
    /// # Errors
    /// - `End`, as the endpoint tells it: ACK is written after `NotMine` and `NotSent`, nothing after `StoreFailed`,
    ///   and else NACK.
    /// - `Client(Memory)` and `Envelope(Memory)` for a letter that was redelivered: nothing is written, and the frame
    ///   is returned. How far its pair was handled is known only now, and by such an answer nothing has changed.
    pub fn finish(
        self,
        alloc: Global,
        client: &mut ClientSession<u64>,
        answer: Result<Ingested, EndFault>,
    ) -> Result<Taken, Untaken>
        requires { IsReadyLetter client.old self }
        ensures told { ToldOfLetter self.letter answer (taken_or result) }
        ensures answers { (kind : Kind)
            → Answers kind self.message client.old.client client.new.client (taken_or result) }
        ensures waits { IfErr result (λ untaken. untaken.frame ≡ waiting_after untaken.fault self.message) }
    {
        match self.answer(alloc, client, answer) {
            Ok(taken) => Ok(taken),
            Err(fault) => {
                // Taken apart to move the frame out: a copy would need memory, which may be what is wanting.
                let PreparedLetter {
                    message,
                    letter: _letter,
                    replies: _replies,
                } = self;
                Err(Untaken::of(fault, message))
            }
        }
    }
}

impl PreparedSettle {
    /// The second half of taking a settle: writes ACK.
    ///
    /// # Errors
    /// `End`, as the endpoint tells it: ACK is written after `NotMine` and `NotSent`, nothing after `StoreFailed`, and
    /// else NACK.
    pub fn finish(
        self,
        client: &mut ClientSession<u64>,
        answer: Result<u64, EndFault>,
    ) -> Result<Taken, ReceptionFault>
        requires { IsReadySettle client.old self }
        ensures told { ToldOfSettle answer result }
        ensures answers { (kind : Kind) → Answers kind self.message client.old.client client.new.client result }
    {
        match answer {
            Ok(mark) => {
                write(client, &self.answers.ack);
                Ok(Taken::Settled(mark))
            }
            Err(fault) => {
                write(client, self.answers.refusal(fault));
                Err(ReceptionFault::End(fault))
            }
        }
    }
}
