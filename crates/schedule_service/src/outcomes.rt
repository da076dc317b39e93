//! What is told of each answer, and what becomes of the connection.

ghost use Rattle.std.specs.Prelude.{◌≡◌};
ghost use Rattle.schedule_service.specs.Outcomes.{fault_told, fill_told, fill_fate, rise_told, decoder_told};
ghost use Rattle.schedule_service.specs.Outcomes.{decoder_fate, fall_told, fall_fate};
ghost use Rattle.schedule_service.specs.Outcomes.{reception_told, reception_fate, event_told, taken_told, taken_fate};
ghost use Rattle.schedule_service.specs.Outcomes.{drain_told, drain_fate};

use crate::ChannelFate;
use broker_core::BrokerFault;
use endpoint::EndFault;
use reception::{Drained, ReceptionFault, Taken};
use relay::RelayFault;
use schedule_text::Outcome;
use stomp_client::ClientFault;
use stomp_frame::FrameFault;

/// A fault of the endpoint.
pub(crate) fn fault_told(fault: EndFault) -> Outcome
    ensures { result ≡ fault_told fault }
{
    match fault {
        // Two numbers are printed of it, 61 and its own: `Refused` has one.
        EndFault::Business(refusal) => Outcome::NotDone(refusal),
        _ => Outcome::Refused(fault.number()),
    }
}

/// A filling.
pub(crate) fn fill_told(answer: Result<usize, RelayFault>) -> Outcome
    ensures { result ≡ fill_told answer }
{
    match answer {
        Ok(count) => Outcome::Sent(count as u64),
        Err(RelayFault::Endpoint(fault)) => fault_told(fault),
        Err(fault) => Outcome::Refused(fault.number()),
    }
}

/// What becomes of the connection behind it.
pub(crate) fn fill_fate(answer: &Result<usize, RelayFault>) -> ChannelFate
    ensures { result ≡ fill_fate answer.now }
{
    match answer {
        Err(RelayFault::Endpoint(EndFault::StoreFailed)) => ChannelFate::BothAreCut,
        // A fault of the client or of memory leaves the session as it was: the rows that are left can be sent on it
        // later.
        _ => ChannelFate::Stays,
    }
}

/// Octets that went up.
pub(crate) fn rise_told(answer: Result<u64, BrokerFault>) -> Outcome
    ensures { result ≡ rise_told answer }
{
    match answer {
        Ok(count) => Outcome::Carried(count),
        Err(fault) => Outcome::Refused(fault.number()),
    }
}

/// A decoder's fault; its want of memory is told as the client's.
pub(crate) fn decoder_told(fault: FrameFault) -> Outcome
    ensures { result ≡ decoder_told fault }
{
    match fault {
        // 44 and not the decoder's own 1: schedules have one number for a client's side that is out of memory.
        FrameFault::Memory => Outcome::Refused(ClientFault::Memory.number()),
        _ => Outcome::Refused(fault.number()),
    }
}

/// What becomes of the connection behind it.
pub(crate) fn decoder_fate(fault: FrameFault) -> ChannelFate
    ensures { result ≡ decoder_fate fault }
{
    match fault {
        // No octet was lost, so the call may be made again. A decoder with any other fault reads nothing more.
        FrameFault::Memory => ChannelFate::Stays,
        _ => ChannelFate::IsCut,
    }
}

/// Octets that went down.
pub(crate) fn fall_told(answer: Result<u64, FrameFault>) -> Outcome
    ensures { result ≡ fall_told answer }
{
    match answer {
        Ok(count) => Outcome::Carried(count),
        Err(fault) => decoder_told(fault),
    }
}

/// What becomes of the connection behind them.
pub(crate) fn fall_fate(answer: &Result<u64, FrameFault>) -> ChannelFate
    ensures { result ≡ fall_fate answer.now }
{
    match answer {
        Ok(_) => ChannelFate::Stays,
        Err(fault) => decoder_fate(*fault),
    }
}

/// Why a frame wasn't taken, or a held letter not handled.
fn reception_told(fault: ReceptionFault) -> Outcome
    ensures { result ≡ reception_told fault }
{
    match fault {
        ReceptionFault::End(fault) => fault_told(fault),
        _ => Outcome::Refused(fault.number()),
    }
}

/// What becomes of the connection behind it.
fn reception_fate(fault: ReceptionFault) -> ChannelFate
    ensures { result ≡ reception_fate fault }
{
    match fault {
        // Of the client's faults this one alone is the server's. Out of memory or of numbers the frame waits.
        ReceptionFault::Client(ClientFault::Unexpected) => ChannelFate::IsCut,
        // Nobody knows whether the frame was handled: the broker redelivers it, and it is recognized if it was.
        ReceptionFault::End(EndFault::StoreFailed) => ChannelFate::BothAreCut,
        _ => ChannelFate::Stays,
    }
}

/// What became of a frame.
fn event_told(taken: Taken) -> Outcome
    ensures { result ≡ event_told taken }
{
    match taken {
        Taken::Connected => Outcome::Connected,
        Taken::Receipt(number) => Outcome::Receipt(number),
        Taken::Handled(position) => Outcome::Handled(position),
        Taken::Repeated(_) => Outcome::Repeated,
        Taken::Held => Outcome::Held,
        Taken::Settled(mark) => Outcome::Settled(mark),
        Taken::Error(text) => Outcome::Error(text),
    }
}

/// A frame that was taken, or why not.
pub(crate) fn taken_told(answer: Result<Taken, ReceptionFault>) -> Outcome
    ensures { result ≡ taken_told answer }
{
    match answer {
        Ok(taken) => event_told(taken),
        Err(fault) => reception_told(fault),
    }
}

/// What becomes of the connection behind it.
pub(crate) fn taken_fate(answer: &Result<Taken, ReceptionFault>) -> ChannelFate
    ensures { result ≡ taken_fate answer.now }
{
    match answer {
        // A server ends the session with its ERROR, so nothing more comes on it.
        Ok(Taken::Error(_)) => ChannelFate::IsCut,
        Ok(_) => ChannelFate::Stays,
        Err(fault) => reception_fate(*fault),
    }
}

/// Held letters.
pub(crate) fn drain_told(answer: Result<Option<Drained>, ReceptionFault>) -> Outcome
    ensures { result ≡ drain_told answer }
{
    match answer {
        Ok(Some(drained)) => Outcome::Drained(drained.pair, drained.number),
        Ok(None) => Outcome::Idle,
        Err(fault) => reception_told(fault),
    }
}

/// What becomes of the connection behind them.
pub(crate) fn drain_fate(answer: &Result<Option<Drained>, ReceptionFault>) -> ChannelFate
    ensures { result ≡ drain_fate answer.now }
{
    match answer {
        // No frame is taken here, so nothing that a server sent can be at fault.
        Err(ReceptionFault::End(EndFault::StoreFailed)) => ChannelFate::BothAreCut,
        _ => ChannelFate::Stays,
    }
}
