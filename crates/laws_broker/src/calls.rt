//! The calls of a broker, as a life counts them.
//!
//! Each function is the broker's own call of its name; its contract says which call of a life it is, whatever it
//! answers. With `new` of a broker they are all the calls that change one.

ghost use Rattle.std.specs.Prelude.{◌≤◌, List, [], length, is_ok, take};
ghost use Rattle.broker_core.specs.Calls.{empty, out_in};
ghost use Rattle.broker_core.specs.Serving.{Decided, session_of};
ghost use Rattle.laws_broker.specs.Lives.{DoesCall, Dispatched, Dropped, FedTo, Lives, Named, Opened, TakenFrom, Told};

use broker_book::Accepted;
use broker_core::{Broker, BrokerFault, SessionId};
use std::alloc::{AllocError, Global};

/// A broker's life begins. It takes no memory.
pub fn begin<const FULL: usize>(alloc: Global) -> Broker<FULL>
    ensures { Lives FULL empty [] result }
{
    // The beginning is no call: a life is what follows, here an empty list.
    Broker::new(alloc)
}

/// Opens a session.
///
/// # Errors
/// Those of `Broker::open`; nothing has changed then.
pub fn open<const FULL: usize>(broker: &mut Broker<FULL>) -> Result<SessionId, BrokerFault>
    ensures { DoesCall FULL broker.old (Opened result) broker.new }
{
    // A call that is refused is counted too: the laws hold of lives that ran out of memory.
    broker.open()
}

/// Feeds a piece of a client's octets to its session. The call of a life also tells which frames had their step.
///
/// # Errors
/// Those of `Broker::feed`.
pub fn feed<const FULL: usize>(
    broker: &mut Broker<FULL>,
    session: SessionId,
    piece: &[u8],
) -> Result<usize, BrokerFault>
    ensures { (frames : List Decided)
        × DoesCall FULL broker.old (FedTo session (record { piece = piece.now; frames = frames }) result) broker.new }
{
    // The answer is a count, while the laws need the frames: the contract says that there are such, and no caller
    // sees them.
    broker.feed(session, piece)
}

/// Hands out messages until none can be.
///
/// # Errors
/// Where a growth was refused; what was handed out before stays so.
pub fn dispatch<const FULL: usize>(broker: &mut Broker<FULL>) -> Result<(), AllocError>
    ensures { DoesCall FULL broker.old (Dispatched (is_ok result)) broker.new }
{
    match broker.dispatch() {
        Ok(()) => Ok(()),
        Err(fault) => Err(fault),
    }
}

/// Takes the first octets for a session away. It takes no memory.
pub fn taken<const FULL: usize>(broker: &mut Broker<FULL>, session: SessionId, count: usize)
    requires { count ≤ length (out_in (session_of session broker.old)) }
    ensures { DoesCall FULL broker.old (TakenFrom session (take count (out_in (session_of session broker.old))))
        broker.new }
{
    // Which octets these are follows from the broker before the call, so the list of a life has them exactly.
    broker.taken(session, count);
}

/// Takes a session away. It takes no memory.
pub fn drop_session<const FULL: usize>(broker: &mut Broker<FULL>, session: SessionId)
    ensures { DoesCall FULL broker.old (Dropped session) broker.new }
{
    broker.drop_session(session);
}

/// A session for which octets were written since it was last named. It takes no memory.
pub fn take_fresh<const FULL: usize>(broker: &mut Broker<FULL>) -> Option<SessionId>
    ensures { DoesCall FULL broker.old (Named result) broker.new }
{
    // A hint for servers, and a call all the same, since it changes the broker.
    broker.take_fresh()
}

/// The SENDs that were accepted since the last call, in order. It takes no memory.
pub fn take_accepted<const FULL: usize>(broker: &mut Broker<FULL>) -> Vec<Accepted>
    ensures { DoesCall FULL broker.old (Told result.items) broker.new }
{
    // Each call reports what was accepted since the one before: put together, the answers are all SENDs, each once.
    broker.take_accepted()
}
