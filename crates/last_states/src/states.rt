//! Last states by entity.

ghost use Rattle.std.specs.Prelude.{◌≡◌, ◌⊎◌, ◌≤◌, ◌<◌, ◌-◌, false, if◌then◌else◌, ◌∷◌, take, Some, None, is_some};
ghost use Rattle.std.specs.Prelude.{option_copied, IfOk, IsSome};
ghost use Rattle.last_states.specs.declared.states.TheConstants.{MOST_STATES};
ghost use Rattle.base.specs.Entity.{Entity, text_of};
ghost use Rattle.base.specs.Order.{same_entity};

use base::Entity;
use lru::LruCache;
use std::alloc::{AllocError, Global};
use std::num::NonZeroUsize;

/// Of how many entities something is known at most.
pub const MOST_STATES: usize = 1_024;

/// The last states of entities: contracts see what is known of each.
#[derive(Drop)]
pub struct LastStates<S: Drop> {
    states: LruCache<String, S>,
    ghost bounded: { states.cap ≡ MOST_STATES },
}

impl<S: Drop> LastStates<S> {
    ghost use Rattle.last_states.specs.Known.{known_of, count_of, order_of, without, Remembers};

    /// Nothing is known.
    ///
    /// # Errors
    /// Where a growth was refused.
    pub fn new(alloc: Global) -> Result<LastStates<S>, AllocError>
        ensures { IfOk result (λ states. (e : Entity) → known_of states e ≡ None) }
    {
        let states = LruCache::sparse(alloc, NonZeroUsize::new(MOST_STATES).unwrap())?;
        Ok(LastStates { states })
    }

    /// Of how many entities something is known.
    pub fn len(&self) -> usize
        ensures counted { result ≡ count_of self.now }
        ensures bounded { result ≤ MOST_STATES }
    {
        self.states.len()
    }

    /// What is known of an entity. It takes no memory.
    pub fn peek(&self, entity: &Entity) -> Option<&S>
        ensures { option_copied result ≡ known_of self.now entity.now }
    {
        self.states.peek(entity.text())
    }

    /// Makes an entity the last to go. It takes no memory.
    pub fn touch(&mut self, entity: &Entity)
        ensures same { (e : Entity) → known_of self.new e ≡ known_of self.old e }
        ensures order { order_of self.new ≡ (if is_some (known_of self.old entity.now)
            then text_of entity.now ∷ without (text_of entity.now) (order_of self.old) else order_of self.old) }
    {
        self.states.promote(entity.text());
    }

    /// Forgets what is known of an entity, and tells whether anything was. It takes no memory.
    pub fn forget(&mut self, entity: &Entity) -> bool
        ensures was_known { result ≡ is_some (known_of self.old entity.now) }
        ensures forgotten { (e : Entity) → known_of self.new e
            ≡ (if same_entity entity.now e then None else known_of self.old e) }
        ensures order { order_of self.new ≡ without (text_of entity.now) (order_of self.old) }
    {
        // Its contract tells that no two keys are alike.
        let _ = self.states.len();
        self.states.pop(entity.text()).is_some()
    }

    /// Remembers the state of an entity, and makes it the last to go; where memory is refused nothing new is known.
    pub fn remember(&mut self, alloc: Global, entity: &Entity, state: S)
        ensures known { Remembers entity.now state (known_of self.old) (known_of self.new) }
        ensures replaced { IsSome (known_of self.old entity.now) → (e : Entity) → known_of self.new e
            ≡ (if same_entity entity.now e then Some state else known_of self.old e) }
        ensures latest { IsSome (known_of self.old entity.now)
            → order_of self.new ≡ text_of entity.now ∷ without (text_of entity.now) (order_of self.old) }
        ensures first_goes { known_of self.old entity.now ≡ None → (order_of self.new ≡ order_of self.old)
            ⊎ (order_of self.new ≡ text_of entity.now ∷ take (MOST_STATES - 1) (order_of self.old)) }
        ensures others { count_of self.old < MOST_STATES → (e : Entity) → same_entity entity.now e ≡ false
            → known_of self.new e ≡ known_of self.old e }
    {
        if let Some(known) = self.states.get_mut(entity.text()) {
            *known = state;
            return;
        }
        let Ok(text) = String::from_str(alloc, entity.text()) else {
            return;
        };
        let _ = self.states.put(text, state);
    }

    /// Forgets everything. It takes no memory.
    pub fn clear(&mut self)
        ensures { (e : Entity) → known_of self.new e ≡ None }
    {
        self.states.clear();
    }
}
