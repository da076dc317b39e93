//! The numbers of sessions.

ghost use Rattle.std.specs.Prelude.{◌≡◌};

use std::marker::Model;

/// The number of a session, by which calls name it: no two sessions of a broker ever have the same.
#[derive(Clone, Copy, Debug, Drop, PartialEq, Eq)]
pub struct SessionId {
    number: u64,
}

impl Model for SessionId {
    ghost use Rattle.std.specs.Prelude.{ℕ};

    ghost Value = { ℕ };

    ghost view = { λ s. s.number };

    ghost inverse = { λ number. record { number = number } };
}

impl SessionId {
    /// The session of this number, if there is one: the first that a broker opens has 1.
    pub fn new(number: u64) -> SessionId
        ensures { result ≡ number }
    {
        SessionId { number }
    }

    /// The session's number.
    pub fn number(self) -> u64
        ensures { result ≡ self }
    {
        self.number
    }
}
