//! Several letters and settles in one transaction.

ghost use Rattle.std.specs.Prelude.{◌≡◌, ◌++◌, ◌∷◌, [], true, OnOk};
ghost use Rattle.endpoint.specs.Calls.{StillMatches};
ghost use Rattle.keep.specs.Law.{Reads};
ghost use Rattle.keep.specs.Seen.{keep_end};
ghost use Rattle.keep.specs.Steps.{AreSteps};
ghost use Rattle.group_commit.specs.Group.{Groups};
ghost use Rattle.group_commit.specs.Parts.Planning.{IsGathered, WritesGroup, ended, rows_behind};

use crate::Grouped;
use crate::planning::{PlannedStep, plan};
use activities::Handler;
use core::mem::replace_with;
use endpoint::{EndFault, Endpoint};
use envelope::Envelope;
use keep::{Change, Keep, KeepFault};
use std::alloc::{AllocError, Global};

/// The changes of the envelopes that are processed so far, and what is reported of each.
#[derive(Drop)]
pub(crate) struct Group<S, C> {
    changes: Vec<Change<S, C>>,
    told: Vec<Grouped>,
}

impl<S: Drop, C: Drop> Group<S, C> {
    /// Nothing is processed yet.
    fn new(alloc: Global) -> Group<S, C>
        ensures { (result.changes.items ≡ []) × (result.told.items ≡ []) }
    {
        Group {
            changes: Vec::new(alloc),
            told: Vec::new(alloc),
        }
    }

    /// Adds a step after the others.
    ///
    /// # Errors
    /// If an allocation fails; the group is of no more use then.
    fn add(&mut self, step: PlannedStep<S, C>) -> Result<(), AllocError>
        ensures { OnOk result ((self.new.changes.items ≡ self.old.changes.items ++ step.changes.items)
            × (self.new.told.items ≡ self.old.told.items ++ step.told ∷ [])) }
    {
        let PlannedStep { mut changes, told } = step;
        self.changes.append(&mut changes)?;
        self.told.push(told)?;
        Ok(())
    }
}

/// How many rows the journal has after a step, where it had so many before.
fn rows_behind(rows: u64, told: Grouped) -> u64
    ensures { result ≡ rows_behind rows told }
{
    match told {
        Grouped::Handled(position) => position,
        Grouped::Settled(_) => rows,
    }
}

/// What a fault of planning makes of a group: out of memory it's what was gathered so far.
fn ended<S: Drop, C: Drop>(group: Group<S, C>, fault: KeepFault) -> Result<Group<S, C>, KeepFault>
    ensures { result ≡ ended group fault }
{
    match fault {
        // A shorter group is as good: the envelopes that are left go into the next one.
        KeepFault::Memory => Ok(group),
        KeepFault::Failed => Err(KeepFault::Failed),
        KeepFault::WrongFile => Err(KeepFault::WrongFile),
    }
}

/// What taking in the first of these envelopes changes, up to the first that can't be processed with those before it.
fn gather<H, K>(
    alloc: Global,
    keep: &mut K,
    envelopes: &[Envelope],
) -> Result<Group<H::State, H::Command>, KeepFault>
where
    H: Handler,
    K: Keep<State = H::State, Command = H::Command>,
    requires { (K.seen keep.old).usable ≡ true }
    ensures { Reads K.seen keep.old keep.new (IsGathered H.service H.State.follows envelopes.now) (keep_end result) }
{
    let mut rows = keep.length();
    let mut group = Group::new(alloc);
    for at in 0..envelopes.len() {
        let found = match plan::<H, K>(alloc, keep, &group.changes, rows, &envelopes[at]) {
            Ok(found) => found,
            Err(fault) => return ended(group, fault),
        };
        let Some(step) = found else {
            return Ok(group);
        };
        rows = rows_behind(rows, step.told);
        match group.add(step) {
            Ok(()) => (),
            // Changes may have got in without their answer, so this group must not be written.
            Err(_) => return Err(KeepFault::Memory),
        }
    }
    Ok(group)
}

/// Writes what was gathered, in one transaction of steps, and answers what is told of it.
#[tactic(auto, using(crate::proofs::Writing::write_told))]
fn write<H, K>(
    alloc: Global,
    keep: &mut K,
    group: Group<H::State, H::Command>,
) -> Result<Vec<Grouped>, EndFault>
where
    H: Handler,
    K: Keep<State = H::State, Command = H::Command>,
    requires usable { (K.seen keep.old).usable ≡ true }
    requires steps { (K.seen keep.old).doubt ≡ 0 → AreSteps H.State.follows group.changes.items
        (K.seen keep.old).tables }
    ensures { WritesGroup K.seen keep.old keep.new group result }
{
    let Group { changes, told } = group;
    match keep.apply_steps(alloc, changes) {
        Ok(()) => Ok(told),
        Err(fault) => Err(EndFault::from(fault)),
    }
}

/// Processes the first of these envelopes, as many as can be processed together, over a store that may be used.
fn take<H, K>(alloc: Global, keep: &mut K, envelopes: &[Envelope]) -> Result<Vec<Grouped>, EndFault>
where
    H: Handler,
    K: Keep<State = H::State, Command = H::Command>,
    requires { (K.seen keep.old).usable ≡ true }
    ensures groups { Groups K.seen keep.old keep.new H.service envelopes.now result }
    ensures matches { StillMatches K.seen keep.old keep.new H.service }
{
    match gather::<H, K>(alloc, keep, envelopes) {
        Ok(group) => write::<H, K>(alloc, keep, group),
        Err(fault) => Err(EndFault::from(fault)),
    }
}

/// What a group is processed with.
#[derive(Clone, Copy)]
struct Given<'a> {
    alloc: Global,
    envelopes: &'a [Envelope],
}

/// Processes the first of these envelopes over an endpoint's store: the endpoint and the answer.
fn taken<H, K>(
    endpoint: Endpoint<H, K>,
    given: Given<'_>,
) -> (Endpoint<H, K>, Result<Vec<Grouped>, EndFault>)
where
    H: Handler,
    K: Keep<State = H::State, Command = H::Command> + Drop,
    requires { (K.seen endpoint).usable ≡ true }
    ensures groups { Groups K.seen endpoint result.0 H.service given.entry.envelopes.now result.1 }
    ensures matches { StillMatches K.seen endpoint result.0 H.service }
{
    // An endpoint doesn't lend its store: it's taken apart, and made again of the same store.
    let mut keep = endpoint.into_keep();
    let told = take::<H, K>(given.alloc, &mut keep, given.envelopes);
    (Endpoint::new(keep), told)
}

/// Processes the first of these envelopes, as many as can be processed together, by one transaction of the store, and
/// reports of each what the endpoint answers to one that comes alone. It stops at the first that it can't process so: a
/// letter that isn't the next of its pair, a settle by which no mark rises, one that is refused, one of another service,
/// and one whose own entity, the letter's receiver or the settle's sender, has another before it. Where it reports none
/// the transaction changes nothing.
///
/// Calls of the store: for a letter `handled`, `entity`, and one `sent` for each message that it makes its receiver
/// send; for a settle `sent` and `settled`; and one `apply_steps`.
///
/// # Errors
/// In this order: `Unusable`; `StoreFailed` and `Memory` as in `Endpoint::ingest`. After each of them nothing is changed,
/// but after `StoreFailed` the tables, once reopened, may also be those with a first part of these envelopes processed.
pub fn take_group<H, K>(
    alloc: Global,
    endpoint: &mut Endpoint<H, K>,
    envelopes: &[Envelope],
) -> Result<Vec<Grouped>, EndFault>
where
    H: Handler,
    K: Keep<State = H::State, Command = H::Command> + Drop,
    ensures groups { Groups K.seen endpoint.old endpoint.new H.service envelopes.now result }
    ensures matches { StillMatches K.seen endpoint.old endpoint.new H.service }
{
    // First: the store isn't asked for anything after a failure.
    if !endpoint.usable() {
        return Err(EndFault::Unusable);
    }
    replace_with(endpoint, Given { alloc, envelopes }, taken::<H, K>)
}
