//! How an input is processed: one transaction for the journal's row, the entity's row and what the entity sends.

ghost use Rattle.std.specs.Prelude.{◌≡◌, ◌+◌, ◌<◌, ◌++◌, [], ◌∷◌, true, length, OnOk};
ghost use Rattle.activities.specs.Rows.{row_for, state_for};
ghost use Rattle.keep.specs.Law.{Reads, Writes};
ghost use Rattle.keep.specs.Seen.{keep_end};
ghost use Rattle.keep.specs.Steps.{AreSteps};
ghost use Rattle.keep.specs.Tables.{changed, ArePlaced};
ghost use Rattle.keep.specs.declared.change.Change.TheVariants.{State, Journal};
ghost use Rattle.endpoint.specs.Faults.{end_of};
ghost use Rattle.endpoint.specs.Parts.Handling.{Handles, SetNoRow};

use crate::{Committed, EndFault};
use activities::{Handler, Input, JournalRow, Outs};
use base::{Entity, Number};
use inbox::Window;
use keep::{Change, Keep, KeepFault};
use outbox::number_outs;
use std::alloc::{AllocError, Global};

/// An entity's state: its row, or the opening state where no row stands. One read of the store.
pub fn read_state<H, K>(alloc: Global, keep: &mut K, entity: &Entity) -> Result<H::State, KeepFault>
where
    H: Handler,
    K: Keep<State = H::State, Command = H::Command>,
    requires { (K.seen keep.old).usable ≡ true }
    ensures { Reads K.seen keep.old keep.new (λ t state. state ≡ state_for H.service.reactions.opening
        (t.entity entity.now))
        (keep_end result) }
{
    match keep.entity(alloc, entity)? {
        Some(state) => Ok(state),
        // A missing row loses nothing: a state that counts as none is the opening state.
        None => Ok(H::opening(alloc)?),
    }
}

/// Makes these changes, in one transaction of the store.
#[tactic(auto, using(crate::proofs::Parts::write_told))]
pub(crate) fn apply_all<H, K>(
    alloc: Global,
    keep: &mut K,
    changes: Vec<Change<H::State, H::Command>>,
) -> Result<(), EndFault>
where
    H: Handler,
    K: Keep<State = H::State, Command = H::Command>,
    requires { (K.seen keep.old).usable ≡ true }
    ensures { Writes K.seen keep.old keep.new (ArePlaced changes.items) (changed changes.items) (end_of result) }
{
    // Not `apply_steps`: no state is among these changes.
    Ok(keep.apply(alloc, changes)?)
}

/// The row that stands for a state, or none.
pub fn row_for<H: Handler>(state: H::State) -> Option<H::State>
    ensures { result ≡ row_for H.service.is_none state }
{
    if H::is_none(&state) {
        None
    } else {
        Some(state)
    }
}

/// Adds the entity's row and the journal's to these changes.
pub fn add_rows<H: Handler>(
    alloc: Global,
    position: Number,
    entity: &Entity,
    input: Input<H::Command>,
    state: H::State,
    changes: &mut Vec<Change<H::State, H::Command>>,
) -> Result<(), AllocError>
    ensures { OnOk result (changes.new.items ≡ changes.old.items
        ++ State entity.now (row_for H.service.is_none state) ∷ Journal position
        (record { entity = entity.now; input = input }) ∷ []) }
{
    // The state right before its row of the journal: a store that writes states in parts looks for it there.
    let row = row_for::<H>(state);
    changes.push(Change::State(entity.copy(alloc)?, row))?;
    // A copy for each of the two rows, since a change owns what it writes.
    let entity = entity.copy(alloc)?;
    changes.push(Change::Journal(position, JournalRow { entity, input }))?;
    Ok(())
}

/// Writes these changes, the entity's row and the journal's, at this position, in one transaction of steps.
#[tactic(auto, using(crate::proofs::Parts::write_told))]
fn write<H, K>(
    alloc: Global,
    keep: &mut K,
    position: Number,
    entity: &Entity,
    input: Input<H::Command>,
    state: H::State,
    mut changes: Vec<Change<H::State, H::Command>>,
) -> Result<(), EndFault>
where
    H: Handler,
    K: Keep<State = H::State, Command = H::Command>,
    requires usable { (K.seen keep.old).usable ≡ true }
    requires steps { (K.seen keep.old).doubt ≡ 0 → AreSteps H.State.follows (changes.items
        ++ State entity.now (row_for H.service.is_none state)
        ∷ Journal position (record { entity = entity.now; input = input }) ∷ []) (K.seen keep.old).tables }
    ensures { let all = changes.items ++ State entity.now (row_for H.service.is_none state)
        ∷ Journal position (record { entity = entity.now; input = input }) ∷ [] in
        Writes K.seen keep.old keep.new (ArePlaced all) (changed all) (end_of result) }
{
    add_rows::<H>(alloc, position, entity, input, state, &mut changes)?;
    // Steps: by this input only a part of the state may differ, and a store may write just that.
    Ok(keep.apply_steps(alloc, changes)?)
}

/// Processes an input of an entity of this service, in one transaction with `changes`: those of handled marks and held
/// letters that go with it. Reads of the store: the entity's row, and the last number sent for each message that is
/// sent.
pub(crate) fn handle<H, K, W>(
    alloc: Global,
    keep: &mut K,
    entity: &Entity,
    input: Input<H::Command>,
    mut changes: Vec<Change<H::State, H::Command>>,
) -> Result<Committed, EndFault>
where
    H: Handler,
    K: Keep<State = H::State, Command = H::Command>,
    W: Window,
    requires usable { (K.seen keep.old).usable ≡ true }
    requires kind { entity.now.kind ≡ H.service.kind }
    requires rows { SetNoRow changes.items }
    ensures { Handles K.seen keep.old keep.new W.ahead H.service (record { entity = entity.now; input = input })
        changes.items result }
{
    // Before the reaction, as `commit` promises: a full journal is reported and not the refusal.
    let Some(position) = Number::new(keep.length().saturating_add(1)) else {
        return Err(EndFault::NumberLimit);
    };
    let mut state = read_state::<H, K>(alloc, keep, entity)?;
    let mut outs = Outs::new(alloc);
    // Before the numbers of what it sends are read: a refusal costs one read.
    H::apply(alloc, &mut state, &input, &mut outs)?;
    number_outs::<H, K>(alloc, keep, entity, outs.as_slice(), &mut changes)?;
    // The marks that the caller has put into `changes` go into this transaction too: none is written without its row.
    write::<H, K>(alloc, keep, position, entity, input, state, changes)?;
    Ok(Committed {
        pos: position.get(),
    })
}
