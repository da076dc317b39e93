//! The keys of entities.

ghost use Rattle.std.specs.Prelude.{◌≡◌, true, IfOk};
ghost use Rattle.base.specs.Entity.{is_key, IsKeyReading};

use crate::EntityFault;
use crate::limits::MAX_KEY;
use std::alloc::{AllocError, Global};
use std::marker::Model;

// A type, so that a key that was read once needs no second test. UTF-8 costs no test either, since every `&str` is, and
// lets a store keep the key in a text column.
/// What tells an entity from the others of its kind: 1 to 64 octets of UTF-8 and no NUL. Contracts see the octets.
#[derive(Debug, Drop)]
pub struct Key {
    text: String,
}

impl Model for Key {
    ghost use Rattle.std.specs.Prelude.{◌≡◌, true, List, ℕ, string_bytes};
    ghost use Rattle.base.specs.Entity.{is_key};

    ghost Value = { List ℕ };

    ghost view = { λ k. string_bytes k.text };

    ghost invariant = { λ k. is_key (string_bytes k.text) ≡ true };
}

impl Key {
    /// The key of this text.
    ///
    /// # Errors
    /// `BadKey` where the text is empty, has more than 64 octets, or has a NUL; else `Memory` where a growth was
    /// refused.
    pub fn read(alloc: Global, text: &str) -> Result<Key, EntityFault>
        ensures { IsKeyReading text.now result }
    {
        // Tested before the copy, so that a text that is no key is reported as that without memory.
        if !is_key(text) {
            return Err(EntityFault::BadKey);
        }
        let text = String::from_str(alloc, text)?;
        Ok(Key { text })
    }

    /// Its text.
    pub fn as_str(&self) -> &str
        ensures text { result.now ≡ self.now }
        ensures key { is_key self.now ≡ true }
    {
        &self.text
    }

    /// An equal key, in memory of its own.
    pub fn copy(&self, alloc: Global) -> Result<Key, AllocError>
        ensures { IfOk result (λ k. k ≡ self.now) }
    {
        Ok(Key {
            text: String::from_str(alloc, &self.text)?,
        })
    }
}

/// Whether a text can be a key: 1 to 64 octets and no NUL.
pub fn is_key(text: &str) -> bool
    ensures { result ≡ is_key text.now }
{
    // In octets and not in characters, as the limit of a header's line. No frame's header can hold a NUL, and the lead
    // of an entity needs an octet that no key has.
    !text.is_empty() && text.len() <= MAX_KEY && !text.as_bytes().contains(&0)
}
