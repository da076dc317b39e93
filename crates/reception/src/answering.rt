//! Both halves of taking a MESSAGE at once: its envelope was read before, and the endpoint has answered to it.

ghost use Rattle.std.specs.Prelude.{◌≡◌, ◌⊎◌, ℕ, ◌+◌, Some, None, Err, OnOk, OnErr, IfOk, IfErr};
ghost use Rattle.base.specs.declared.entity.Kind.{Kind};
ghost use Rattle.base.specs.declared.pair.Pair.{Pair};
ghost use Rattle.stomp_frame.specs.declared.command.Command.TheVariants.{Message};
ghost use Rattle.stomp_client.specs.Clients.{counting};
ghost use Rattle.stomp_client.specs.declared.fault.ClientFault.TheVariants.{Memory};
ghost use Rattle.envelope.specs.Reading.{read_frame};
ghost use Rattle.envelope.specs.declared.message.Envelope.TheVariants as envelope;
ghost use Rattle.reception.specs.Answers.{Answers, BringsMessage, CarriesLetter, CarriesSettle};
ghost use Rattle.reception.specs.Faults.{taken_or, waiting_after};
ghost use Rattle.reception.specs.Parts.Letters.{IsLetterWant};
ghost use Rattle.reception.specs.Prepared.{IsUnasked, IsUntold, ToldOfLetter, ToldOfSettle};
ghost use Rattle.reception.specs.Replies.{settling, Writes};
ghost use Rattle.reception.specs.declared.fault.ReceptionFault.TheVariants.{Client, End};

use crate::finishing::{settle_up_to, settled_again};
use crate::preparing::acknowledge;
use crate::replies::Acknowledgements;
use crate::texts::write;
use crate::{ReceptionFault, Taken, Untaken};
use base::limits::MAX_BODY;
use base::{Number, Pair};
use endpoint::{EndFault, Ingested};
use envelope::Letter;
use std::alloc::Global;
use stomp_client::{ClientEvent, ClientFault, ClientSession};
use stomp_frame::Frame;

/// The MESSAGE, where a server may send it now.
fn accept(
    client: &mut ClientSession<u64>,
    message: Frame<MAX_BODY>,
) -> Result<Frame<MAX_BODY>, ReceptionFault>
    requires { message.command ≡ Message }
    ensures is { IfOk result (λ m. m ≡ message) }
    ensures brings { OnOk result (BringsMessage message client.old.client) }
    ensures same { OnOk result (client.new.client ≡ client.old.client) }
    ensures unasked { IfErr result IsUnasked }
    ensures answers { (kind : Kind)
        → IfErr result (λ fault. Answers kind message client.old.client client.new.client (Err fault)) }
    ensures over { IfErr result (λ fault. waiting_after fault message ≡ None) }
{
    match client.accept(message) {
        Ok(ClientEvent::Message(message)) => Ok(message),
        // The frame is a MESSAGE: that's for the caller to see to.
        Ok(_) => unreachable!(),
        Err(fault) => Err(ReceptionFault::Client(fault)),
    }
}

/// Acknowledges a letter and settles its pair up to a number, in the next transaction, where there is one.
fn settle(
    alloc: Global,
    client: &mut ClientSession<u64>,
    message: &Frame<MAX_BODY>,
    pair: &Pair,
    number: Number,
) -> Result<(), ReceptionFault>
    requires { BringsMessage message.now client.old.client }
    ensures ok { OnOk result (Writes (settling message.now (client.old.client.transactions + 1) pair.now number)
        (counting client.old.client) client.new.client) }
    ensures err { OnErr result (client.new.client ≡ client.old.client) }
    ensures fault { IfErr result (IsLetterWant client.old.client.transactions) }
{
    // Tested before anything allocates, so that out of memory never hides a fault that stays.
    if client.transactions() == u64::MAX {
        return Err(ReceptionFault::Client(ClientFault::NumbersUsed));
    }
    settle_up_to(alloc, client, message, pair, number)
}

/// Writes what is answered where the endpoint refuses what a MESSAGE carries, and returns what is told then.
fn refuse(
    alloc: Global,
    client: &mut ClientSession<u64>,
    message: &Frame<MAX_BODY>,
    fault: EndFault,
) -> ReceptionFault
    requires { BringsMessage message.now client.old.client }
    ensures told { (result ≡ End fault) ⊎ (result ≡ Client Memory) }
    ensures answers { (kind : Kind) → Answers kind message.now client.old.client client.new.client (Err result) }
{
    match Acknowledgements::make(alloc, client, message) {
        Ok(answers) => {
            write(client, answers.refusal(fault));
            ReceptionFault::End(fault)
        }
        Err(fault) => ReceptionFault::Client(fault),
    }
}

/// Writes what the endpoint's answer to a letter says.
fn write_letter(
    alloc: Global,
    client: &mut ClientSession<u64>,
    message: &Frame<MAX_BODY>,
    letter: &Letter,
    answer: Result<Ingested, EndFault>,
) -> Result<Taken, ReceptionFault>
    requires { CarriesLetter message.now client.old.client letter.now }
    ensures told { IsUntold result ⊎ ToldOfLetter letter.now answer result }
    ensures answers { (kind : Kind) → Answers kind message.now client.old.client client.new.client result }
{
    match answer {
        Ok(Ingested::Handled(position)) => {
            settle(alloc, client, message, &letter.pair, letter.number)?;
            Ok(Taken::Handled(position))
        }
        Ok(Ingested::Repeated(handled)) => {
            // Settled again, as the settle of the first time may be lost, and up to the mark, which covers later
            // letters.
            let mark = settled_again(letter.number, handled);
            settle(alloc, client, message, &letter.pair, mark)?;
            Ok(Taken::Repeated(mark.get()))
        }
        Ok(Ingested::Held) => {
            // Acknowledged, since it is stored, but not settled: its sender keeps it until it is handled.
            acknowledge(alloc, client, message)?;
            Ok(Taken::Held)
        }
        Err(fault) => Err(refuse(alloc, client, message, fault)),
    }
}

/// Writes what the endpoint's answer to a settle says.
fn write_settle(
    alloc: Global,
    client: &mut ClientSession<u64>,
    message: &Frame<MAX_BODY>,
    answer: Result<u64, EndFault>,
) -> Result<Taken, ReceptionFault>
    requires { (pair : Pair) × (number : ℕ) × CarriesSettle message.now client.old.client pair number }
    ensures told { IsUntold result ⊎ ToldOfSettle answer result }
    ensures answers { (kind : Kind) → Answers kind message.now client.old.client client.new.client result }
{
    match answer {
        Ok(mark) => {
            acknowledge(alloc, client, message)?;
            Ok(Taken::Settled(mark))
        }
        Err(fault) => Err(refuse(alloc, client, message, fault)),
    }
}

/// Takes a letter whose MESSAGE was read before, and to which the endpoint has answered: the client takes the MESSAGE, and
/// writes what the answer says, as [`finish`](crate::PreparedLetter::finish) does. Its envelope isn't read again, and no reply
/// is made that isn't written.
///
/// # Errors
/// - `End`, as the endpoint told it: ACK is written after `NotMine` and `NotSent`, nothing after `StoreFailed`, and else NACK.
/// - `Client(Memory)`, `Envelope(Memory)`, and where the last number of a transaction was given `Client(NumbersUsed)`:
///   nothing is written, and the MESSAGE is returned.
/// - `Client(Closed)` and `Client(Unexpected)` as `ClientSession::accept` tells them: nothing is written.
pub fn answer_letter(
    alloc: Global,
    client: &mut ClientSession<u64>,
    message: Frame<MAX_BODY>,
    letter: &Letter,
    answer: Result<Ingested, EndFault>,
) -> Result<Taken, Untaken>
    requires command { message.command ≡ Message }
    requires carries { read_frame message ≡ Some (envelope.Letter letter.now) }
    ensures told { IsUntold (taken_or result) ⊎ ToldOfLetter letter.now answer (taken_or result) }
    ensures answers { (kind : Kind) → Answers kind message client.old.client client.new.client (taken_or result) }
    ensures waits { IfErr result (λ untaken. untaken.frame ≡ waiting_after untaken.fault message) }
{
    let message = match accept(client, message) {
        Ok(message) => message,
        // The session is closed now, so the broker redelivers the MESSAGE on another connection.
        Err(fault) => return Err(Untaken { fault, frame: None }),
    };
    match write_letter(alloc, client, &message, letter, answer) {
        Ok(taken) => Ok(taken),
        // Where the reply found no memory, what the endpoint did stays: a duplicate of the letter is answered for it.
        Err(fault) => Err(Untaken::of(fault, message)),
    }
}

/// Takes a settle whose MESSAGE was read before, and to which the endpoint has answered: ACK is written where it was
/// noted. What it settles isn't asked for: no answer says it.
/// # Errors
/// As of [`answer_letter`], but for `Envelope(Memory)` and `Client(NumbersUsed)`.
pub fn answer_settle(
    alloc: Global,
    client: &mut ClientSession<u64>,
    message: Frame<MAX_BODY>,
    answer: Result<u64, EndFault>,
) -> Result<Taken, Untaken>
    requires command { message.command ≡ Message }
    requires carries { (pair : Pair) × (number : ℕ) × (read_frame message ≡ Some (envelope.Settle pair number)) }
    ensures told { IsUntold (taken_or result) ⊎ ToldOfSettle answer (taken_or result) }
    ensures answers { (kind : Kind) → Answers kind message client.old.client client.new.client (taken_or result) }
    ensures waits { IfErr result (λ untaken. untaken.frame ≡ waiting_after untaken.fault message) }
{
    let message = match accept(client, message) {
        Ok(message) => message,
        Err(fault) => return Err(Untaken { fault, frame: None }),
    };
    match write_settle(alloc, client, &message, answer) {
        Ok(taken) => Ok(taken),
        Err(fault) => Err(Untaken::of(fault, message)),
    }
}
