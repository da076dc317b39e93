//! What is written where a MESSAGE was taken.

ghost use Rattle.std.specs.Prelude.{◌≡◌, ◌⊎◌, [], IfSome};
ghost use Rattle.reception.specs.Faults.{taken_or};
ghost use Rattle.service_workers.specs.Conns.{client_of, link_of, start_of};
ghost use Rattle.service_workers.specs.Reads.{ReadsOnly};
ghost use Rattle.service_workers.specs.Taking.{CarriedIn};
ghost use Rattle.service_workers.specs.Tokens.{Progress};
ghost use Rattle.service_workers.specs.Truth.{CarriedBy, RepliedBy, Finishes, NeedsNoAnswer, IsItsAnswer, is_answered};

use crate::conn::Conn;
use crate::worker::Answer;
use base::Kind;
use base::limits::MAX_BODY;
use endpoint::EndFault;
use envelope::{Envelope, EnvelopeFault};
use reception::{Prepared, ReceptionFault, Taken, Untaken, answer_letter, answer_settle, prepare};
use std::alloc::Global;
use stomp_client::{ClientFault, ClientSession};
use stomp_frame::{Command, Frame};
use stomp_wire::Link;

/// What was prepared doesn't go with what the endpoint answered: the frame isn't the one that was asked for.
const OTHER: ReceptionFault = ReceptionFault::Client(ClientFault::Unexpected);

/// A MESSAGE, the number of the connection on which it came, and the envelope that was read of it, where one was.
#[derive(Drop)]
pub(crate) struct Read<'e> {
    pub number: u8,
    pub message: Frame<MAX_BODY>,
    pub envelope: Option<&'e Envelope>,
}

/// What became of a MESSAGE, without the MESSAGE: where it still waits its connection is cut, and it's redelivered on another.
fn told_of(answered: Result<Taken, Untaken>) -> Result<Taken, ReceptionFault>
    ensures { result ≡ taken_or answered }
{
    match answered {
        Ok(taken) => Ok(taken),
        Err(untaken) => Err(untaken.fault),
    }
}

/// Writes what is answered to a MESSAGE whose envelope was read.
fn finish_read(
    alloc: Global,
    client: &mut ClientSession<u64>,
    message: Frame<MAX_BODY>,
    envelope: &Envelope,
    answer: Answer,
) -> Result<Taken, ReceptionFault>
    requires { CarriedIn message envelope.now }
    ensures answers { (kind : Kind) → Finishes kind message client.old.client client.new.client result }
    ensures told { NeedsNoAnswer result ⊎ IsItsAnswer message answer result }
    ensures replied { (x : Progress) → CarriedBy message answer x → RepliedBy message result x }
{
    // The client would take another frame than a MESSAGE too: nothing is written for one here.
    if message.command() != Command::Message {
        return Err(OTHER);
    }
    match envelope {
        Envelope::Letter(letter) => match answer {
            Answer::Letter(answer) => told_of(answer_letter(
                alloc, client, message, letter, answer,
            )),
            _ => Err(OTHER),
        },
        Envelope::Settle(_, _) => match answer {
            Answer::Settle(answer) => told_of(answer_settle(alloc, client, message, answer)),
            _ => Err(OTHER),
        },
    }
}

/// Writes what is answered to a MESSAGE whose envelope wasn't read, or isn't there any more: it's read here.
fn finish_unread(
    alloc: Global,
    client: &mut ClientSession<u64>,
    kind: Kind,
    message: Frame<MAX_BODY>,
    answer: Answer,
) -> Result<Taken, ReceptionFault>
    ensures answers { Finishes kind message client.old.client client.new.client result }
    ensures told { NeedsNoAnswer result ⊎ IsItsAnswer message answer result }
    ensures replied { (x : Progress) → CarriedBy message answer x → RepliedBy message result x }
{
    // An allocation may have failed at the first reading, and not at this one. Then the endpoint wasn't asked: the
    // connection is cut, and the MESSAGE redelivered.
    match prepare(alloc, client, kind, message) {
        Ok(Prepared::Letter(letter)) => match answer {
            Answer::Letter(answer) => match letter.finish(alloc, client, answer) {
                Ok(taken) => Ok(taken),
                Err(untaken) => Err(untaken.fault),
            },
            _ => Err(OTHER),
        },
        Ok(Prepared::Settle(settle)) => match answer {
            Answer::Settle(answer) => settle.finish(client, answer),
            _ => Err(OTHER),
        },
        Ok(Prepared::Done(taken)) => Ok(taken),
        Err(untaken) => Err(untaken.fault),
    }
}

/// Writes what is answered to a MESSAGE, after the endpoint's answer: others use the connection while that is asked, and what
/// was prepared before could be stale then.
pub(crate) fn finish<L: Link + Drop>(
    alloc: Global,
    conn: &mut Conn<L>,
    kind: Kind,
    read: Read<'_>,
    answer: Answer,
) -> Result<Taken, ReceptionFault>
    requires carries { IfSome read.envelope (λ e. CarriedIn read.message e.now) }
    ensures link { (link_of conn.new ≡ link_of conn.old) × (start_of conn.new ≡ start_of conn.old) }
    ensures reads { ReadsOnly L.put_gives L.take_gives [] conn.old conn.new }
    ensures answers { Finishes kind read.entry.message (client_of conn.old) (client_of conn.new) result }
    ensures told { NeedsNoAnswer result ⊎ IsItsAnswer read.entry.message answer result }
    ensures replied { (x : Progress) → CarriedBy read.entry.message answer x → RepliedBy read.entry.message result x }
{
    let client = &mut conn.channel.client;
    let Read {
        number: _,
        message,
        envelope,
    } = read;
    match envelope {
        Some(envelope) => finish_read(alloc, client, message, envelope, answer),
        None => finish_unread(alloc, client, kind, message, answer),
    }
}

/// Whether a connection stays in use after a fault: the frame was answered. Where it wasn't, as an allocation failed or because
/// the store failed, it's redelivered on a new connection.
pub(crate) fn goes_on(fault: ReceptionFault) -> bool
    ensures { result ≡ is_answered fault }
{
    match fault {
        // Nothing was acknowledged, and no frame that speaks of the store may follow.
        ReceptionFault::End(EndFault::StoreFailed | EndFault::Unusable) => false,
        ReceptionFault::End(_) | ReceptionFault::Envelope(EnvelopeFault::BadEnvelope) => true,
        ReceptionFault::Envelope(EnvelopeFault::Memory)
        | ReceptionFault::Client(_)
        | ReceptionFault::Frame(_) => false,
    }
}
