//! Connections of a service's life that are no more.

ghost use Rattle.std.specs.Prelude.{◌≡◌, false, List, [], ◌∷◌, ◌++◌, Option, None, Some, IfOk, IfErr};
ghost use Rattle.told_lock.specs.Rule.{Every, seen_by};
ghost use Rattle.shared_endpoint.specs.Keys.{Any, IsHandOf, IsWitnessAt, name_of, told_hand, shown_hand, shown_witness};
ghost use Rattle.service_workers.specs.Conns.{links_of, values_of};
ghost use Rattle.service_workers.specs.Written.{HasSpokenIf};

use crate::Conn;
use crate::line::Line;
use crate::naming::Naming;
use activities::Handler;
use keep::Keep;
use shared_endpoint::{Hand, Shared, Witness};
use std::alloc::{AllocError, Global};
use std::marker::{Model, PhantomData};
use std::snapshot::Snapshot;
use stomp_wire::Link;

/// The connections of a service's life that are no more, each as it was at its end, and a witness of what was written on
/// them. It's for contracts: it has no octets of the connections. Contracts see the links that they began with. A list can't
/// be dropped, and only `close_life` takes one, with the service itself: so a life has one list.
pub struct Past<N, L, H, K>
where
    N: Naming<K, L>,
    L: Link + Drop,
    H: Handler,
    K: Keep<State = H::State, Command = H::Command> + Drop,
{
    was: Vec<Snapshot<Option<Conn<L>>>>,
    witness: Witness<H, K>,
    of: PhantomData<N>,
}

impl<N, L, H, K> Model for Past<N, L, H, K>
where
    N: Naming<K, L>,
    L: Link + Drop,
    H: Handler,
    K: Keep<State = H::State, Command = H::Command> + Drop,
{
    ghost Value = { List (Option L) };

    ghost view = { λ p. links_of p.was.items };

    ghost invariant = { λ p. IsWitnessAt N.lock p.witness
        × Any (λ e. N.found ≡ Some e) (shown_witness p.witness)
        × (N.sound → Every (HasSpokenIf L.put_gives L.take_gives K.seen H.service (shown_witness p.witness))
        (values_of p.was.items)) };
}

impl<N, L, H, K> Past<N, L, H, K>
where
    N: Naming<K, L>,
    L: Link + Drop,
    H: Handler,
    K: Keep<State = H::State, Command = H::Command> + Drop,
{
    /// A list without connections, where a life begins: the Hand has seen the endpoint that was found.
    pub fn new(alloc: Global, shared: &Shared<H, K>, hand: &mut Hand<H, K>) -> Past<N, L, H, K>
        requires at { name_of shared.now ≡ N.lock }
        requires hand { IsHandOf shared.now hand.old }
        requires found { Any (λ e. N.found ≡ Some e) (seen_by (told_hand hand.old) ++ shown_hand hand.old) }
        ensures hand { IsHandOf shared.now hand.new }
        ensures knows { told_hand hand.new ≡ told_hand hand.old }
        ensures none { result ≡ [] }
    {
        Past {
            was: Vec::new(alloc),
            witness: hand.witness(shared),
            of: PhantomData,
        }
    }

    /// Notes how a connection ended, or is now, and drops it: its place is empty. Only contracts read the Hand: it shows that
    /// the lock is there.
    ///
    /// # Errors
    /// If an allocation fails, nothing has changed.
    pub fn note(
        &mut self,
        shared: &Shared<H, K>,
        hand: &Hand<H, K>,
        line: &mut Line<N, L, H, K>,
    ) -> Result<(), AllocError>
        requires at { name_of shared.now ≡ N.lock }
        requires hand { IsHandOf shared.now hand.now }
        ensures ok { IfOk result (λ _. (self.new ≡ self.old ++ line.old.link ∷ [])
            × (line.new ≡ record { is_there = false; link = None })) }
        ensures err { IfErr result (λ _. (self.new ≡ self.old) × (line.new ≡ line.old)) }
    {
        // Room first: a connection that left its place must not be missing here.
        if self.was.reserve(1).is_err() {
            return Err(AllocError);
        }
        let (last, witness) = line.take_last(shared, hand);
        self.was.push_reserved(last);
        self.witness.learn(shared, witness);
        Ok(())
    }

    /// The list, and the witness.
    pub(crate) fn into_parts(self) -> (Vec<Snapshot<Option<Conn<L>>>>, Witness<H, K>)
        ensures noted { links_of result.0.items ≡ self }
        ensures witness { IsWitnessAt N.lock result.1 × Any (λ e. N.found ≡ Some e) (shown_witness result.1) }
        ensures spoken { N.sound → Every (HasSpokenIf L.put_gives L.take_gives K.seen H.service (shown_witness result.1))
            (values_of result.0.items) }
    {
        let Past {
            was,
            witness,
            of: _,
        } = self;
        (was, witness)
    }
}
