//! What one side does, whichever service it is: each event is one call of its endpoint, and what it has to send.

ghost use Rattle.std.specs.Prelude.{◌≡◌, ◌≤◌, ◌<◌, List};
ghost use Rattle.envelope.specs.declared.message.Envelope.{Envelope};
ghost use Rattle.activities.specs.declared.input.Input.TheVariants.{FromSeat};
ghost use Rattle.endpoint.specs.Calls.{ComesBy, StillMatches};
ghost use Rattle.endpoint.specs.Deeds.{CommitMay};
ghost use Rattle.laws_network.specs.SideSteps.{SideSteps, IsUse, TellsOfUse};
ghost use Rattle.laws_network.specs.declared.event.Event.TheVariants.{Commit, Send, Tell, Take};
ghost use Rattle.laws_network.specs.declared.event.Outcome.TheVariants.{Sent, Told};

use crate::{Event, Outcome, Post};
use activities::Handler;
use base::limits::SEATS;
use base::{Entity, Pair};
use endpoint::{Committed, EndFault, Endpoint};
use envelope::Envelope;
use keep::Keep;
use std::alloc::Global;

/// An equal command is taken in.
#[tactic(auto, using(crate::proofs::SideStepping::any_reason))]
fn commit_copy<H, K>(
    alloc: Global,
    own: &mut Endpoint<H, K>,
    seat: u8,
    entity: &Entity,
    command: &H::Command,
) -> Result<Committed, EndFault>
where
    H: Handler,
    K: Keep<State = H::State, Command = H::Command> + Drop,
    requires { seat < SEATS }
    ensures doubt { (K.seen own.old).doubt ≤ (K.seen own.new).doubt }
    ensures matches { StillMatches K.seen own.old own.new H.service }
    ensures comes { ComesBy K.seen own.old own.new H.service
        (CommitMay H.service (record { entity = entity.now; input = FromSeat seat command.now }) result) }
    ensures used { IsUse K.seen own.old own.new result }
{
    // Before the copy, so that an unusable store is never reported as out of memory.
    if !own.usable() {
        return Err(EndFault::Unusable);
    }
    // A copy: the event stays in its list, which says afterwards what was done.
    let command = H::copy_command(alloc, command)?;
    own.commit(alloc, seat, entity, command)
}

/// A seat's command to an entity is taken in, where there is such a seat.
fn commit<H, K>(
    alloc: Global,
    own: &mut Endpoint<H, K>,
    seat: u8,
    entity: &Entity,
    command: &H::Command,
) -> Outcome
where
    H: Handler,
    K: Keep<State = H::State, Command = H::Command> + Drop,
    ensures doubt { (K.seen own.old).doubt ≤ (K.seen own.new).doubt }
    ensures matches { StillMatches K.seen own.old own.new H.service }
    ensures steps { (arriving sent : List Envelope) →
        SideSteps K.seen own.old own.new H.service (Commit seat entity.now command.now) result arriving sent sent }
    ensures used { TellsOfUse K.seen own.old own.new result }
{
    // An event may name any seat, and `commit` takes only those that there are: so the law holds of every list.
    if seat >= SEATS {
        return Outcome::Missing;
    }
    Outcome::Committed(commit_copy::<H, K>(alloc, own, seat, entity, command))
}

/// The first so many letters that aren't settled are sent: how many they are.
#[tactic(auto, using(crate::proofs::SideStepping::any_reason))]
fn send<H, K>(
    alloc: Global,
    own: &mut Endpoint<H, K>,
    post: &mut Post,
    limit: usize,
) -> Result<usize, EndFault>
where
    H: Handler,
    K: Keep<State = H::State, Command = H::Command> + Drop,
    ensures doubt { (K.seen own.old).doubt ≤ (K.seen own.new).doubt }
    ensures matches { StillMatches K.seen own.old own.new H.service }
    ensures steps { (arriving : List Envelope) →
        SideSteps K.seen own.old own.new H.service (Send limit) (Sent result) arriving post.old post.new }
    ensures used { IsUse K.seen own.old own.new result }
{
    // From the first on, whatever was sent before: so the network has duplicates to bring.
    let letters = own.unsettled(alloc, &None, limit)?;
    Ok(post.send_letters(alloc, letters)?)
}

/// The other side is told how many letters of a pair were handled.
#[tactic(auto, using(crate::proofs::SideStepping::any_reason))]
fn tell<H, K>(
    alloc: Global,
    own: &mut Endpoint<H, K>,
    post: &mut Post,
    pair: &Pair,
) -> Result<u64, EndFault>
where
    H: Handler,
    K: Keep<State = H::State, Command = H::Command> + Drop,
    ensures doubt { (K.seen own.old).doubt ≤ (K.seen own.new).doubt }
    ensures matches { StillMatches K.seen own.old own.new H.service }
    ensures steps { (arriving : List Envelope) →
        SideSteps K.seen own.old own.new H.service (Tell pair.now) (Told result) arriving post.old post.new }
    ensures used { IsUse K.seen own.old own.new result }
{
    // The mark of now. Older settles stay in the post, and may arrive after this one.
    let handled = own.handled(alloc, pair)?;
    post.send(Envelope::Settle(pair.copy(alloc)?, handled))?;
    Ok(handled)
}

/// An envelope of the other side arrives, where there is one at this index.
#[tactic(auto, using(crate::proofs::SideStepping::any_reason))]
fn take<H, K>(
    alloc: Global,
    own: &mut Endpoint<H, K>,
    arriving: &[Envelope],
    index: usize,
) -> Outcome
where
    H: Handler,
    K: Keep<State = H::State, Command = H::Command> + Drop,
    ensures doubt { (K.seen own.old).doubt ≤ (K.seen own.new).doubt }
    ensures matches { StillMatches K.seen own.old own.new H.service }
    ensures steps { (sent : List Envelope) →
        SideSteps K.seen own.old own.new H.service (Take index) result arriving.now sent sent }
    ensures used { TellsOfUse K.seen own.old own.new result }
{
    // By any index, also one that was taken before: so the network loses, repeats and reorders.
    match arriving.get(index) {
        Some(Envelope::Letter(letter)) => Outcome::Taken(own.ingest(alloc, letter)),
        Some(Envelope::Settle(pair, number)) => Outcome::Settled(own.settle(alloc, pair, *number)),
        None => Outcome::Missing,
    }
}

/// One side does what the event says, over all that the other side ever sent. What it sends itself goes behind `post`.
#[tactic(auto, using(crate::proofs::SideStepping::any_reason))]
pub fn act<H, K>(
    alloc: Global,
    own: &mut Endpoint<H, K>,
    post: &mut Post,
    arriving: &[Envelope],
    event: &Event<H::Command>,
) -> Outcome
where
    H: Handler,
    K: Keep<State = H::State, Command = H::Command> + Drop,
    ensures doubt { (K.seen own.old).doubt ≤ (K.seen own.new).doubt }
    ensures matches { StillMatches K.seen own.old own.new H.service }
    ensures steps { SideSteps K.seen own.old own.new H.service event.now result arriving.now post.old post.new }
    ensures used { TellsOfUse K.seen own.old own.new result }
{
    match event {
        Event::Commit(seat, entity, command) => {
            commit::<H, K>(alloc, own, *seat, entity, command)
        }
        Event::Send(limit) => Outcome::Sent(send::<H, K>(alloc, own, post, *limit)),
        Event::Tell(pair) => Outcome::Told(tell::<H, K>(alloc, own, post, pair)),
        Event::Take(index) => take::<H, K>(alloc, own, arriving, *index),
        Event::Drain(pair) => Outcome::Drained(own.drain_held(alloc, pair)),
        Event::Reopen => Outcome::Reopened(own.reopen(alloc)),
    }
}
