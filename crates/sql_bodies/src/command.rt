//! Commands as texts.

ghost use Rattle.std.specs.Prelude.{◌≡◌, ℕ, List, Option, Some, IfOk, string_bytes};

use std::alloc::{AllocError, Global};

/// A command that a text stands for.
pub trait CommandBody: Drop {
    /// The text that is written for a command.
    ghost written: { Self → List ℕ };

    /// The command whose text this is, if it is one's.
    ghost read: { List ℕ → Option Self };

    /// The command as JSON, its keys sorted and without spaces.
    ///
    /// # Errors
    /// If an allocation fails.
    fn body(&self, alloc: Global) -> Result<String, AllocError>
        ensures text { IfOk result (λ s. string_bytes s ≡ written self.now) }
        ensures reads { IfOk result (λ s. read (string_bytes s) ≡ Some self.now) };

    /// The command whose body this is; `None` where it is no command's, as in another spelling of the same object.
    ///
    /// # Errors
    /// If an allocation fails.
    fn of_body(alloc: Global, body: &str) -> Result<Option<Self>, AllocError>
        ensures { IfOk result (λ found. found ≡ read body.now) };
}
