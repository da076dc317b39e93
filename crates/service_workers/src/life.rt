//! The end of a service's life.

ghost use Rattle.std.specs.Prelude.{◌≡◌};
ghost use Rattle.shared_endpoint.specs.Keys.{AreSeatsOf, IsHandOf, IsScoutOf, name_of, told_hand};
ghost use Rattle.service_workers.specs.Conns.{links_of, values_of};
ghost use Rattle.service_workers.specs.Lives.{HasTakenWhatCame, LifeStands};

use crate::Conn;
use crate::naming::Naming;
use crate::past::Past;
use activities::Handler;
use endpoint::Endpoint;
use keep::Keep;
use shared_endpoint::{Hand, Scout, Seat, Shared};
use std::snapshot::Snapshot;
use std::sync::Wait;
use stomp_wire::Link;

/// What is left of a service's life. Contracts also see all connections that it had, each as it was at its end.
pub struct Life<L, H, K>
where
    L: Link + Drop,
    H: Handler,
    K: Keep<State = H::State, Command = H::Command> + Drop,
{
    /// The endpoint.
    pub endpoint: Endpoint<H, K>,
    pub(crate) conns: Vec<Snapshot<Option<Conn<L>>>>,
}

/// Written by hand, so that an owner doesn't prove again how each of its parts is dropped.
impl<L, H, K> Drop for Life<L, H, K>
where
    L: Link + Drop,
    H: Handler,
    K: Keep<State = H::State, Command = H::Command> + Drop,
{
    fn drop(self) {
        let Life {
            endpoint: _endpoint,
            conns: _conns,
        } = self;
    }
}

/// Ends a service's life: its tokens come back, and its endpoint is what is left. While the life's name is sound, and where no
/// file is in doubt at the end, there is an endpoint that was good to the end: what is left, or what this was before its store
/// failed. By its tables stands all that was put on the links of the life's connections; their journal begins with the one
/// that was found; and each letter that was handled since, or is held, came in a MESSAGE on a connection, or was held before.
pub fn close_life<N, L, H, K, R: Wait>(
    rt: &R,
    shared: Shared<H, K>,
    seats: [Seat<H, K>; 16],
    hand: Hand<H, K>,
    scout: Scout<H, K>,
    past: Past<N, L, H, K>,
) -> Life<L, H, K>
where
    N: Naming<K, L>,
    L: Link + Drop,
    H: Handler,
    K: Keep<State = H::State, Command = H::Command> + Drop,
    requires at { name_of shared ≡ N.lock }
    requires seats { AreSeatsOf shared seats }
    requires hand { IsHandOf shared hand }
    requires scout { IsScoutOf shared scout }
    requires took { HasTakenWhatCame L.put_gives L.take_gives K.seen H.service N.sound N.given N.found (told_hand hand) }
    ensures noted { links_of result.conns.items ≡ past }
    ensures stands { N.sound → (K.seen result.endpoint).doubt ≡ 0
        → LifeStands L.put_gives L.take_gives K.seen H.service N.given N.found result.endpoint (values_of result.conns.items) }
{
    let (conns, witness) = past.into_parts();
    let mut hand = hand;
    // What `close` gives bears out all that the Hand has learned: here all that was written on the connections.
    hand.learn(&shared, witness);
    Life {
        endpoint: shared.close(rt, seats, hand, scout),
        conns,
    }
}
