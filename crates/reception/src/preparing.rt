//! The first half of taking a frame: what doesn't need the endpoint.

ghost use Rattle.std.specs.Prelude.{◌≡◌, ◌≤◌, ◌∷◌, [], length, Ok, Err, Some, IfOk, OnOk, OnErr, IfErr, IsOkUnless};
ghost use Rattle.base.specs.Entity.{queue_of};
ghost use Rattle.base.specs.declared.entity.Kind.{Kind};
ghost use Rattle.stomp_frame.specs.declared.command.Command.TheVariants.{Ack, Connected};
ghost use Rattle.stomp_client.specs.Delivered.{IsDelivered};
ghost use Rattle.stomp_client.specs.Frames.{subscribe_frame};
ghost use Rattle.stomp_client.specs.declared.fault.ClientFault.TheVariants.{Memory};
ghost use Rattle.stomp_client.specs.declared.session.Stage.TheVariants.{Connecting};
ghost use Rattle.envelope.specs.Reading.{read_frame};
ghost use Rattle.envelope.specs.declared.message.Envelope.TheVariants as envelope;
ghost use Rattle.reception.specs.Answers.{Answers, BringsMessage};
ghost use Rattle.reception.specs.Faults.{taken_or, waiting_after};
ghost use Rattle.reception.specs.Parts.Letters.{IsUnread};
ghost use Rattle.reception.specs.Prepared.{IsUnasked, PreparesFrame};
ghost use Rattle.reception.specs.Replies.{answer, IsTextOf, Writes};
ghost use Rattle.reception.specs.declared.fault.ReceptionFault.TheVariants.{Client};
ghost use Rattle.reception.specs.declared.taken.Taken.TheVariants as taken;

use crate::replies::{Acknowledgements, LetterReplies};
use crate::texts::{answer_text, subscribe_text, write};
use crate::{Prepared, PreparedLetter, PreparedSettle, ReceptionFault, Taken, Untaken};
use base::limits::MAX_BODY;
use base::{Kind, Pair};
use envelope::{Envelope, EnvelopeFault, Letter, from_message};
use std::alloc::Global;
use stomp_client::{ClientEvent, ClientFault, ClientSession, Stage};
use stomp_frame::{Command, Frame};

/// SUBSCRIBE to the queue of a kind, with room for it.
fn make_subscribe(
    alloc: Global,
    client: &mut ClientSession<u64>,
    kind: Kind,
) -> Result<Vec<u8>, ClientFault>
    ensures text { IfOk result (λ text. IsTextOf (subscribe_frame (queue_of kind) ∷ []) text.items) }
    ensures room { IfOk result (λ text. length text.items ≤ client.new.room) }
    ensures same { client.new.client ≡ client.old.client }
    ensures fault { IsOkUnless result Memory }
{
    let text = subscribe_text(alloc, kind)?;
    client.room(text.len())?;
    Ok(text)
}

/// Takes the CONNECTED that answers CONNECT.
fn take_connected(
    alloc: Global,
    client: &mut ClientSession<u64>,
    kind: Kind,
    frame: Frame<MAX_BODY>,
) -> Result<Taken, Untaken>
    requires command { frame.command ≡ Connected }
    requires stage { client.old.client.stage ≡ Connecting }
    ensures answers { Answers kind frame client.old.client client.new.client (taken_or result) }
    ensures waits { IfErr result (λ untaken. untaken.frame ≡ waiting_after untaken.fault frame) }
    ensures connected { OnOk result (result ≡ Ok taken.Connected) }
    ensures fault { IfErr result (λ untaken. untaken.fault ≡ Client Memory) }
{
    let text = match make_subscribe(alloc, client, kind) {
        Ok(text) => text,
        Err(fault) => return Err(Untaken::of(ReceptionFault::Client(fault), frame)),
    };
    match client.accept(frame) {
        Ok(ClientEvent::Connected) => {
            write(client, &text);
            Ok(Taken::Connected)
        }
        // The client is connecting, and accepts CONNECTED then.
        _ => unreachable!(),
    }
}

/// Acknowledges a MESSAGE, in no transaction.
pub(crate) fn acknowledge(
    alloc: Global,
    client: &mut ClientSession<u64>,
    message: &Frame<MAX_BODY>,
) -> Result<(), ClientFault>
    requires { IsDelivered message.now }
    ensures ok { OnOk result (Writes (answer Ack message.now) client.old.client client.new.client) }
    ensures err { OnErr result (client.new.client ≡ client.old.client) }
    ensures fault { IsOkUnless result Memory }
{
    let ack = answer_text(alloc, Command::Ack, message)?;
    client.room(ack.len())?;
    write(client, &ack);
    Ok(())
}

/// What is told of a MESSAGE of which no envelope was read. One that carries none is acknowledged: it never will be
/// read.
fn unread(
    alloc: Global,
    client: &mut ClientSession<u64>,
    message: &Frame<MAX_BODY>,
    fault: EnvelopeFault,
) -> ReceptionFault
    requires message { BringsMessage message.now client.old.client }
    requires fault { IsUnread message.now fault }
    ensures unasked { IsUnasked result }
    ensures answers { (kind : Kind) → Answers kind message.now client.old.client client.new.client (Err result) }
{
    match fault {
        EnvelopeFault::BadEnvelope => match acknowledge(alloc, client, message) {
            Ok(()) => ReceptionFault::Envelope(fault),
            Err(fault) => ReceptionFault::Client(fault),
        },
        // Not answered: whether it is an envelope isn't known yet.
        EnvelopeFault::Memory => ReceptionFault::Envelope(fault),
    }
}

/// Makes the replies to a letter.
fn prepare_letter(
    alloc: Global,
    client: &mut ClientSession<u64>,
    message: Frame<MAX_BODY>,
    letter: Letter,
) -> Result<Prepared, Untaken>
    requires message { BringsMessage message client.old.client }
    requires carries { read_frame message ≡ Some (envelope.Letter letter) }
    ensures { (kind : Kind) → PreparesFrame kind message client.old client.new result }
{
    match LetterReplies::make(alloc, client, &message, &letter) {
        Ok(replies) => Ok(Prepared::Letter(PreparedLetter {
            message,
            letter,
            replies,
        })),
        Err(fault) => Err(Untaken::of(fault, message)),
    }
}

/// Makes the replies to a settle.
fn prepare_settle(
    alloc: Global,
    client: &mut ClientSession<u64>,
    message: Frame<MAX_BODY>,
    pair: Pair,
    number: u64,
) -> Result<Prepared, Untaken>
    requires message { BringsMessage message client.old.client }
    requires carries { read_frame message ≡ Some (envelope.Settle pair number) }
    ensures { (kind : Kind) → PreparesFrame kind message client.old client.new result }
{
    match Acknowledgements::make(alloc, client, &message) {
        Ok(answers) => Ok(Prepared::Settle(PreparedSettle {
            message,
            pair,
            number,
            answers,
        })),
        Err(fault) => Err(Untaken::of(ReceptionFault::Client(fault), message)),
    }
}

/// Reads what a MESSAGE carries, and makes the replies to it.
fn prepare_message(
    alloc: Global,
    client: &mut ClientSession<u64>,
    message: Frame<MAX_BODY>,
) -> Result<Prepared, Untaken>
    requires { BringsMessage message client.old.client }
    ensures { (kind : Kind) → PreparesFrame kind message client.old client.new result }
{
    match from_message(alloc, &message) {
        Ok(Envelope::Letter(letter)) => prepare_letter(alloc, client, message, letter),
        Ok(Envelope::Settle(pair, number)) => prepare_settle(alloc, client, message, pair, number),
        Err(fault) => {
            let fault = unread(alloc, client, &message, fault);
            Err(Untaken::of(fault, message))
        }
    }
}

/// The first half of taking a frame that came to the service of a kind: the client takes it, its envelope is read, all
/// replies are made that its answer may need at once, and room for them is found. The endpoint isn't asked, so that it
/// may be anywhere, as behind a lock that isn't held now. Until `finish` of what is prepared nothing else is to be
/// asked of the client.
///
/// `Done` where the frame asks nothing of the endpoint: CONNECTED, for which SUBSCRIBE was written, RECEIPT and ERROR.
///
/// # Errors
/// - `Client(Memory)`, `Envelope(Memory)`, and for a letter `Client(NumbersUsed)` where the last number of a
///   transaction was given: nothing is written, and the frame is returned.
/// - `Client(Closed)` and `Client(Unexpected)` as `ClientSession::accept` tells them: nothing is written.
/// - `Envelope(BadEnvelope)` where the MESSAGE carries no envelope: ACK is written.
pub fn prepare(
    alloc: Global,
    client: &mut ClientSession<u64>,
    kind: Kind,
    frame: Frame<MAX_BODY>,
) -> Result<Prepared, Untaken>
    ensures { PreparesFrame kind frame client.old client.new result }
{
    // Before the client takes it: CONNECTED is answered in any case, and is to come again where memory for that is
    // wanting.
    if frame.command() == Command::Connected && client.stage() == Stage::Connecting {
        return match take_connected(alloc, client, kind, frame) {
            Ok(taken) => Ok(Prepared::Done(taken)),
            Err(untaken) => Err(untaken),
        };
    }
    match client.accept(frame) {
        // The CONNECTED that a client accepts was taken above.
        Ok(ClientEvent::Connected) => unreachable!(),
        Ok(ClientEvent::Receipt(number, _)) => Ok(Prepared::Done(Taken::Receipt(number))),
        // Taken and not refused: the session ends, and the text says what the broker didn't accept.
        Ok(ClientEvent::Error(text)) => Ok(Prepared::Done(Taken::Error(text))),
        Ok(ClientEvent::Message(message)) => prepare_message(alloc, client, message),
        Err(fault) => Err(Untaken {
            fault: ReceptionFault::Client(fault),
            frame: None,
        }),
    }
}
