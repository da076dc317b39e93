//! Letters that were held.

ghost use Rattle.std.specs.Prelude.{◌≡◌, ◌≤◌, [], length, IfOk, IfErr};
ghost use Rattle.endpoint.specs.Calls.{ComesBy, StillMatches};
ghost use Rattle.reception.specs.Draining.{DrainsMay, TellsOfDraining, DrainWrites, settle_after};
ghost use Rattle.reception.specs.Faults.{IsWant};
ghost use Rattle.reception.specs.Parts.Letters.{PairMay};
ghost use Rattle.reception.specs.Replies.{IsTextOf};

use crate::texts::{settle_text, write};
use crate::{Drained, ReceptionFault};
use activities::Handler;
use base::{Number, Pair};
use endpoint::Endpoint;
use keep::Keep;
use std::alloc::Global;
use stomp_client::{ClientSession, Stage};

/// The settle of a letter of this number, where the client is connected, with room for it.
fn make_settle(
    alloc: Global,
    client: &mut ClientSession<u64>,
    pair: &Pair,
    number: Number,
) -> Result<Vec<u8>, ReceptionFault>
    ensures text { IfOk result (λ text. IsTextOf
        (settle_after client.old.client.stage (record { pair = pair.now; number = number })) text.items) }
    ensures room { IfOk result (λ text. length text.items ≤ client.new.room) }
    ensures same { client.new.client ≡ client.old.client }
    ensures fault { IfErr result IsWant }
{
    match client.stage() {
        Stage::Connected => {
            let text = settle_text(alloc, pair, number)?;
            client.room(text.len())?;
            Ok(text)
        }
        // Without a connection no settle is written: the sender resends the letter, and its duplicate is settled.
        _ => Ok(Vec::new(alloc)),
    }
}

/// Handles the next letter of a pair, where it is held.
fn drain_pair<H, K>(
    alloc: Global,
    endpoint: &mut Endpoint<H, K>,
    client: &mut ClientSession<u64>,
    pair: Pair,
) -> Result<Option<Drained>, ReceptionFault>
where
    H: Handler,
    K: Keep<State = H::State, Command = H::Command> + Drop,
    ensures doubt { (K.seen endpoint.old).doubt ≤ (K.seen endpoint.new).doubt }
    ensures matches { StillMatches K.seen endpoint.old endpoint.new H.service }
    ensures comes { ComesBy K.seen endpoint.old endpoint.new H.service (PairMay H.service pair result) }
    ensures used { TellsOfDraining K.seen endpoint.old endpoint.new result }
    ensures wrote { DrainWrites client.old.client client.new.client result }
{
    // Which letter is next has to be known before it is handled: its settle is made first.
    let handled = match endpoint.handled(alloc, &pair) {
        Ok(handled) => handled,
        Err(fault) => return Err(ReceptionFault::End(fault)),
    };
    // No letter follows the one whose number is the limit.
    let Some(number) = Number::new(handled.saturating_add(1)) else {
        return Ok(None);
    };
    // Before the letter is touched: after the store's answer nothing may be wanting.
    let text = make_settle(alloc, client, &pair, number)?;
    match endpoint.drain_held(alloc, &pair) {
        Ok(Some(_)) => {
            // In no transaction: the letter's MESSAGE was acknowledged when the letter was held.
            write(client, &text);
            let number = number.get();
            Ok(Some(Drained { pair, number }))
        }
        Ok(None) => Ok(None),
        Err(fault) => Err(ReceptionFault::End(fault)),
    }
}

/// Handles the next letter of the first pair that has it held, and settles it: a connected client writes the SEND of a
/// settle, in no transaction. `None` where no pair's next letter is held.
///
/// Calls of the store: `drainable`; where there is a pair `handled`, and those of `drain_held`.
///
/// # Errors
/// `Client(Memory)` and `Envelope(Memory)` where the settle couldn't be made; `End`, as the endpoint tells it. Nothing
/// is written then.
pub fn drain<H, K>(
    alloc: Global,
    endpoint: &mut Endpoint<H, K>,
    client: &mut ClientSession<u64>,
) -> Result<Option<Drained>, ReceptionFault>
where
    H: Handler,
    K: Keep<State = H::State, Command = H::Command> + Drop,
    ensures doubt { (K.seen endpoint.old).doubt ≤ (K.seen endpoint.new).doubt }
    ensures matches { StillMatches K.seen endpoint.old endpoint.new H.service }
    ensures comes { ComesBy K.seen endpoint.old endpoint.new H.service (DrainsMay H.service result) }
    ensures used { TellsOfDraining K.seen endpoint.old endpoint.new result }
    ensures wrote { DrainWrites client.old.client client.new.client result }
{
    match endpoint.drainable(alloc) {
        Ok(Some(pair)) => drain_pair::<H, K>(alloc, endpoint, client, pair),
        Ok(None) => Ok(None),
        Err(fault) => Err(ReceptionFault::End(fault)),
    }
}

/// Handles the next letter of the first pair that has it held, where there is no connection. `None` where no pair's
/// next letter is held.
///
/// # Errors
/// `End`, as the endpoint tells it; else as `drain`.
pub fn drain_unconnected<H, K>(
    alloc: Global,
    endpoint: &mut Endpoint<H, K>,
) -> Result<Option<Drained>, ReceptionFault>
where
    H: Handler,
    K: Keep<State = H::State, Command = H::Command> + Drop,
    ensures doubt { (K.seen endpoint.old).doubt ≤ (K.seen endpoint.new).doubt }
    ensures matches { StillMatches K.seen endpoint.old endpoint.new H.service }
    ensures comes { ComesBy K.seen endpoint.old endpoint.new H.service (DrainsMay H.service result) }
    ensures used { TellsOfDraining K.seen endpoint.old endpoint.new result }
{
    // A session that was never connected: `drain` writes no settle on it.
    let mut client = ClientSession::new(alloc);
    drain::<H, K>(alloc, endpoint, &mut client)
}
