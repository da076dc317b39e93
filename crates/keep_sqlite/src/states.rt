//! What is known of states beside their rows.

ghost use Rattle.std.specs.Prelude.{◌≡◌, Option};
ghost use Rattle.base.specs.Entity.{Entity};
ghost use Rattle.last_states.specs.Known.{known_of, Knows};

use crate::filed::Filed;
use base::Entity;
use last_states::LastStates;
use std::alloc::Global;

/// Remembers a copy of what the row of an entity holds, where it has one and memory can be had.
pub fn remember_row<H: Filed>(
    alloc: Global,
    states: &mut LastStates<H::State>,
    entity: &Entity,
    row: &Option<H::State>,
)
    ensures { (rows : Entity → Option H.State) → rows entity.now ≡ row.now → Knows (known_of states.old) rows
        → Knows (known_of states.new) rows }
{
    // That there is no row isn't remembered: what is known of an entity is always a state.
    if let Some(state) = row {
        // A copy that finds no memory is left out: the next read takes the row from the file.
        if let Ok(state) = H::copy_state(alloc, state) {
            states.remember(alloc, entity, state);
        }
    }
}
