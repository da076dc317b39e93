//! The sessions of a broker, and where their subscribers are.

ghost use Rattle.std.specs.Prelude.{◌≡◌, ◌==◌, ◌++◌, ◌∷◌, [], None, IsSome, OnOk, OnErr};
ghost use Rattle.std.specs.Map.{lookup};
ghost use Rattle.broker_index.specs.Index.{Sets, places_at, without};

use crate::KeyedPlace;
use std::alloc::{AllocError, Global};
use std::collections::BTreeMap;
use std::marker::Model;

/// Where the subscribers of each session are, the oldest first. A session without any allocates nothing.
#[derive(Drop)]
pub struct Sessions {
    alloc: Global,
    places: BTreeMap<u64, Vec<KeyedPlace>>,
}

impl Model for Sessions {
    ghost use Rattle.std.specs.Prelude.{ℕ, List, map};
    ghost use Rattle.broker_index.specs.declared.places.KeyedPlace.{KeyedPlace};

    ghost Value = { List (ℕ × List KeyedPlace) };

    ghost view = { λ s. map (λ e. (e.0, e.1.items)) s.places.entries };

    ghost use Rattle.broker_index.specs.Listed.{NoneIsEmpty};

    ghost invariant = { λ s. NoneIsEmpty s.places };
}

impl Sessions {
    /// No sessions. It allocates nothing.
    pub fn new(alloc: Global) -> Sessions
        ensures { result ≡ [] }
    {
        Sessions {
            alloc,
            places: BTreeMap::new(alloc),
        }
    }

    /// Where the subscribers of a session are.
    pub fn get(&self, session: u64) -> &[KeyedPlace]
        ensures { result.now ≡ places_at self.now session }
    {
        match self.places.get(&session) {
            Some(places) => places.as_slice(),
            None => &[],
        }
    }

    /// Adds a subscriber to a session that has some.
    fn push_more(&mut self, session: u64, place: KeyedPlace) -> Result<(), AllocError>
        requires { IsSome (lookup (λ s. session == s) self.old) }
        ensures ok { OnOk result (Sets (places_at self.old) (places_at self.new) session
            (places_at self.old session ++ place ∷ [])) }
        ensures err { OnErr result (self.new ≡ self.old) }
    {
        match self.places.get_mut(&session) {
            Some(places) => {
                places.push(place)?;
                Ok(())
            }
            // Never so: the caller has found the session.
            None => Ok(()),
        }
    }

    /// Adds a subscriber to a session that had none.
    fn push_first(&mut self, session: u64, place: KeyedPlace) -> Result<(), AllocError>
        requires { lookup (λ s. session == s) self.old ≡ None }
        ensures ok { OnOk result (Sets (places_at self.old) (places_at self.new) session
            (places_at self.old session ++ place ∷ [])) }
        ensures err { OnErr result (self.new ≡ self.old) }
    {
        let mut places = Vec::new(self.alloc);
        // The place before the map has the list: if an allocation fails, no empty list is left in it.
        places.push(place)?;
        self.places.insert(session, places)?;
        Ok(())
    }

    /// Adds a subscriber to a session.
    ///
    /// # Errors
    /// If an allocation fails; then nothing has changed.
    pub fn push(&mut self, session: u64, place: KeyedPlace) -> Result<(), AllocError>
        ensures ok { OnOk result (Sets (places_at self.old) (places_at self.new) session
            (places_at self.old session ++ place ∷ [])) }
        ensures err { OnErr result (self.new ≡ self.old) }
    {
        if self.places.contains_key(&session) {
            self.push_more(session, place)
        } else {
            self.push_first(session, place)
        }
    }

    /// Takes a subscriber from a session, and the session with its last one. It allocates nothing.
    pub fn remove_place(&mut self, session: u64, age: u64)
        ensures { Sets (places_at self.old) (places_at self.new) session (without age (places_at self.old session)) }
    {
        let Some(places) = self.places.get_mut(&session) else {
            return;
        };
        places.retain(|place| !(place.number == age));
        // The number of a session never comes again: an empty list would stay for good.
        if places.is_empty() {
            drop(self.places.remove(&session));
        }
    }
}
