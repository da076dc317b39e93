//! One frame that came.

ghost use Rattle.std.specs.Prelude.{◌≡◌, ◌≤◌, Some, IfErr};
ghost use Rattle.envelope.specs.Reading.{read_frame};
ghost use Rattle.envelope.specs.declared.message.Envelope.TheVariants as envelope;
ghost use Rattle.endpoint.specs.Arrivals.{IngestMay, SettleMay};
ghost use Rattle.endpoint.specs.Calls.{ComesBy, StillMatches};
ghost use Rattle.reception.specs.Answers.{Answers};
ghost use Rattle.reception.specs.Deeds.{TakeMay, TellsOfUse};
ghost use Rattle.reception.specs.Faults.{taken_or, waiting_after};
ghost use Rattle.reception.specs.Parts.Letters.{AnswerUse};

use crate::{Prepared, PreparedLetter, PreparedSettle, Taken, Untaken, prepare};
use activities::Handler;
use base::limits::MAX_BODY;
use endpoint::{EndFault, Endpoint, Ingested};
use keep::Keep;
use std::alloc::Global;
use stomp_client::ClientSession;
use stomp_frame::Frame;

/// Gives a letter to the endpoint.
fn ingest<H, K>(
    alloc: Global,
    endpoint: &mut Endpoint<H, K>,
    prepared: &PreparedLetter,
) -> Result<Ingested, EndFault>
where
    H: Handler,
    K: Keep<State = H::State, Command = H::Command> + Drop,
    requires { read_frame prepared.now.message ≡ Some (envelope.Letter prepared.now.letter) }
    ensures doubt { (K.seen endpoint.old).doubt ≤ (K.seen endpoint.new).doubt }
    ensures matches { StillMatches K.seen endpoint.old endpoint.new H.service }
    ensures comes { ComesBy K.seen endpoint.old endpoint.new H.service (IngestMay H.service prepared.now.letter
        result) }
    ensures used { AnswerUse K.seen H.service.kind prepared.now.message endpoint.old endpoint.new result }
{
    endpoint.ingest(alloc, &prepared.letter)
}

/// Gives a settle to the endpoint.
fn settle<H, K>(
    alloc: Global,
    endpoint: &mut Endpoint<H, K>,
    prepared: &PreparedSettle,
) -> Result<u64, EndFault>
where
    H: Handler,
    K: Keep<State = H::State, Command = H::Command> + Drop,
    requires { read_frame prepared.now.message ≡ Some (envelope.Settle prepared.now.pair prepared.now.number) }
    ensures doubt { (K.seen endpoint.old).doubt ≤ (K.seen endpoint.new).doubt }
    ensures matches { StillMatches K.seen endpoint.old endpoint.new H.service }
    ensures comes { ComesBy K.seen endpoint.old endpoint.new H.service
        (SettleMay H.service prepared.now.pair prepared.now.number result) }
    ensures used { AnswerUse K.seen H.service.kind prepared.now.message endpoint.old endpoint.new result }
{
    endpoint.settle(alloc, &prepared.pair, prepared.number)
}

/// Takes one frame that came: what a service does with it, and what its client then writes. It is [`prepare`], the
/// endpoint's call, and `finish` of what was prepared by its answer.
///
/// - CONNECTED: the client subscribes to the service's queue.
/// - RECEIPT: its number is told. ERROR: its message is told, and the session is closed.
/// - MESSAGE with a letter: it is given to `Endpoint::ingest`. Where it was handled, now or before, a transaction is
///   written: BEGIN, ACK, the SEND of a settle up to what was handled, COMMIT. Where it is held: ACK.
/// - MESSAGE with a settle: it is given to `Endpoint::settle`, and then ACK is written.
///
/// Calls of the store: for a letter those of `ingest`, for a settle those of `settle`, else none.
///
/// # Errors
/// - `Client(Memory)`, `Envelope(Memory)`, and for a letter `Client(NumbersUsed)` where the last number of a
///   transaction was given: nothing is written, the frame is returned, and the store was read at most.
/// - `Client(Closed)` and `Client(Unexpected)` as `ClientSession::accept` tells them: nothing is written.
/// - `Envelope(BadEnvelope)` where the MESSAGE carries no envelope: ACK is written.
/// - `End`, as the endpoint tells it: ACK is written after `NotMine` and `NotSent`, nothing after `StoreFailed`, and
///   else NACK.
pub fn take_frame<H, K>(
    alloc: Global,
    endpoint: &mut Endpoint<H, K>,
    client: &mut ClientSession<u64>,
    frame: Frame<MAX_BODY>,
) -> Result<Taken, Untaken>
where
    H: Handler,
    K: Keep<State = H::State, Command = H::Command> + Drop,
    ensures doubt { (K.seen endpoint.old).doubt ≤ (K.seen endpoint.new).doubt }
    ensures matches { StillMatches K.seen endpoint.old endpoint.new H.service }
    ensures comes { ComesBy K.seen endpoint.old endpoint.new H.service (TakeMay H.service frame (taken_or result)) }
    ensures used { TellsOfUse K.seen H.service.kind frame endpoint.old endpoint.new (taken_or result) }
    ensures answers { Answers H.service.kind frame client.old.client client.new.client (taken_or result) }
    ensures waits { IfErr result (λ untaken. untaken.frame ≡ waiting_after untaken.fault frame) }
{
    // The replies come first: once the store has changed, no failed allocation may keep its answer back.
    match prepare(alloc, client, H::kind(), frame)? {
        Prepared::Done(taken) => Ok(taken),
        Prepared::Letter(prepared) => {
            let answer = ingest::<H, K>(alloc, endpoint, &prepared);
            prepared.finish(alloc, client, answer)
        }
        Prepared::Settle(prepared) => {
            let answer = settle::<H, K>(alloc, endpoint, &prepared);
            match prepared.finish(client, answer) {
                Ok(taken) => Ok(taken),
                // All replies to a settle were made before, so no fault here leaves its frame waiting.
                Err(fault) => Err(Untaken { fault, frame: None }),
            }
        }
    }
}
