//! Two sides over a list of deliveries.

ghost use Rattle.std.specs.Prelude.{◌≡◌, ◌∷◌, [], IfOk, OnErr};
ghost use Rattle.endpoint.specs.Calls.{StillMatches};
ghost use Rattle.laws_network.specs.Sides.{contents};
ghost use Rattle.laws_network.specs.SideSteps.{TellsOfSide};
ghost use Rattle.laws_network.specs.Runs.{DoubtStays, Runs, StaysFair, TakenAreHandled};

use crate::side::act;
use crate::{Delivery, Network, Outcome};
use activities::Handler;
use endpoint::Endpoint;
use keep::Keep;
use std::alloc::{AllocError, Global};

/// One of two sides does what the delivery says.
pub fn deliver<H, K, G, L>(
    alloc: Global,
    left: &mut Endpoint<H, K>,
    right: &mut Endpoint<G, L>,
    network: &mut Network,
    delivery: &Delivery<H::Command, G::Command>,
) -> Outcome
where
    H: Handler,
    K: Keep<State = H::State, Command = H::Command> + Drop,
    G: Handler,
    L: Keep<State = G::State, Command = G::Command> + Drop,
    ensures left { StillMatches K.seen left.old left.new H.service }
    ensures right { StillMatches L.seen right.old right.new G.service }
    ensures doubt { DoubtStays (contents (K.seen left.old) (L.seen right.old) network.old)
        (contents (K.seen left.new) (L.seen right.new) network.new) }
    ensures runs { Runs H.service G.service (delivery.now ∷ []) (result ∷ [])
        (contents (K.seen left.old) (L.seen right.old) network.old)
        (contents (K.seen left.new) (L.seen right.new) network.new) }
    ensures fair { StaysFair H.service G.service (contents (K.seen left.old) (L.seen right.old) network.old)
        (contents (K.seen left.new) (L.seen right.new) network.new) }
    ensures used { TellsOfSide K.seen L.seen left.old left.new right.old right.new delivery.now result }
{
    match delivery {
        // Each side reads all that the other ever sent, and adds to its own post alone: nothing is forged.
        Delivery::Left(event) => act::<H, K>(
            alloc,
            left,
            &mut network.from_left,
            network.from_right.as_slice(),
            event,
        ),
        Delivery::Right(event) => act::<G, L>(
            alloc,
            right,
            &mut network.from_right,
            network.from_left.as_slice(),
            event,
        ),
    }
}

/// Carries out these deliveries, one after another, and tells what each was answered.
///
/// # Errors
/// Where there was no room for the answers: nothing is done then.
pub fn exchange<H, K, G, L>(
    alloc: Global,
    left: &mut Endpoint<H, K>,
    right: &mut Endpoint<G, L>,
    network: &mut Network,
    deliveries: &[Delivery<H::Command, G::Command>],
) -> Result<Vec<Outcome>, AllocError>
where
    H: Handler,
    K: Keep<State = H::State, Command = H::Command> + Drop,
    G: Handler,
    L: Keep<State = G::State, Command = G::Command> + Drop,
    ensures left { StillMatches K.seen left.old left.new H.service }
    ensures right { StillMatches L.seen right.old right.new G.service }
    ensures runs { IfOk result (λ outcomes. Runs H.service G.service deliveries.now outcomes.items
        (contents (K.seen left.old) (L.seen right.old) network.old)
        (contents (K.seen left.new) (L.seen right.new) network.new)) }
    ensures fair { StaysFair H.service G.service (contents (K.seen left.old) (L.seen right.old) network.old)
        (contents (K.seen left.new) (L.seen right.new) network.new) }
    ensures all { IfOk result (λ outcomes. TakenAreHandled H.service G.service deliveries.now outcomes.items
        (contents (K.seen left.old) (L.seen right.old) network.old)
        (contents (K.seen left.new) (L.seen right.new) network.new)) }
    ensures err { OnErr result ((left.new ≡ left.old) × (right.new ≡ right.old) × (network.new ≡ network.old)) }
{
    // Room for all answers before anything is done: what a side did is never left without its answer.
    let mut outcomes = Vec::with_capacity(alloc, deliveries.len())?;
    for delivery in deliveries {
        let outcome = deliver::<H, K, G, L>(alloc, left, right, network, delivery);
        outcomes.push_reserved(outcome);
    }
    Ok(outcomes)
}
