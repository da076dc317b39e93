//! Numbers of a line that have bounds.

ghost use Rattle.std.specs.Prelude.{◌≡◌, ◌<◌, ◌≤◌};
ghost use Rattle.schedule_text.specs.Numbers.{seat_number, ordinal_number, rounds_number};

use base::limits::SEATS;
use std::marker::Model;

/// The number of a seat: 0 to 15.
#[derive(Clone, Copy, Debug, PartialEq, Eq)]
pub struct SeatNumber {
    number: u8,
}

impl Model for SeatNumber {
    ghost use Rattle.std.specs.Prelude.{ℕ, ◌<◌};

    ghost Value = { ℕ };

    ghost view = { λ s. s.number };

    ghost invariant = { λ s. s.number < 16 };

    ghost inverse = { λ n. record { number = n } };
}

impl SeatNumber {
    /// The seat of this number, or `None` where there is none: from 16 on.
    pub fn new(number: u64) -> Option<SeatNumber>
        ensures { result ≡ seat_number number }
    {
        // Compared as a `u64`: if it was cut down to a `u8` first, 256 would be seat 0.
        if number < SEATS as u64 {
            Some(SeatNumber {
                number: number as u8,
            })
        } else {
            None
        }
    }

    /// Its number.
    pub fn get(self) -> u8
        ensures value { result ≡ self }
        ensures seat { self < 16 }
    {
        self.number
    }
}

/// A place that is counted from 1.
#[derive(Clone, Copy, Debug, PartialEq, Eq)]
pub struct Ordinal {
    number: u64,
}

impl Model for Ordinal {
    ghost use Rattle.std.specs.Prelude.{ℕ, ◌<◌};

    ghost Value = { ℕ };

    ghost view = { λ o. o.number };

    ghost invariant = { λ o. 0 < o.number };

    ghost inverse = { λ n. record { number = n } };
}

impl Ordinal {
    /// The place of this number, or `None` for 0.
    pub fn new(number: u64) -> Option<Ordinal>
        ensures { result ≡ ordinal_number number }
    {
        if 0 < number {
            Some(Ordinal { number })
        } else {
            None
        }
    }

    /// Its number.
    pub fn get(self) -> u64
        ensures value { result ≡ self }
        ensures counted { 0 < self }
    {
        self.number
    }
}

/// How many rounds are run at once: 1 to 100.
#[derive(Clone, Copy, Debug, PartialEq, Eq)]
pub struct Rounds {
    number: u8,
}

impl Model for Rounds {
    ghost use Rattle.std.specs.Prelude.{ℕ, ◌<◌, ◌≤◌};

    ghost Value = { ℕ };

    ghost view = { λ r. r.number };

    ghost invariant = { λ r. (0 < r.number) × (r.number ≤ 100) };

    ghost inverse = { λ n. record { number = n } };
}

impl Rounds {
    /// So many rounds, or `None` where that is none or more than 100.
    pub fn new(number: u64) -> Option<Rounds>
        ensures { result ≡ rounds_number number }
    {
        if 0 < number && number <= 100 {
            Some(Rounds {
                number: number as u8,
            })
        } else {
            None
        }
    }

    /// Its number.
    pub fn get(self) -> u8
        ensures value { result ≡ self }
        ensures some { 0 < self }
        ensures few { self ≤ 100 }
    {
        self.number
    }
}
