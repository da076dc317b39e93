//! The first letter that isn't settled, as the line `status` shows it.

ghost use Rattle.std.specs.Prelude.{◌≡◌, string_bytes, if◌then◌else◌};
ghost use Rattle.std.specs.Str.{bytes_eq};

use crate::rows::show_entity;
use envelope::Letter;
use std::alloc::{AllocError, Global};

/// The first letter that wasn't settled when it was looked last, and since when it's the first: as long as it stays, its
/// receiver hasn't handled it, or its settle was lost.
#[derive(Drop)]
pub struct Waiting {
    /// Its pair and number. It's empty where all letters are settled.
    letter: String,
    /// In milliseconds since the program began.
    since: u64,
}

/// The pair and the number of the first of these letters, or nothing.
///
/// # Errors
/// Where an allocation failed.
pub fn show_first(alloc: Global, letters: &[Letter]) -> Result<String, AllocError> {
    let Some(letter) = letters.first() else {
        return Ok(String::new(alloc));
    };
    let from = show_entity(alloc, &letter.pair.from)?;
    let to = show_entity(alloc, &letter.pair.to)?;
    format!(in alloc; "{from} {to} {}", letter.number.get())
}

impl Waiting {
    /// Nothing waits.
    pub fn new(alloc: Global) -> Waiting {
        Waiting {
            letter: String::new(alloc),
            since: 0,
        }
    }

    /// This letter is the first that isn't settled now. Only another one begins to wait now.
    pub fn note(&mut self, letter: String, now: u64)
        ensures letter { string_bytes self.new.letter ≡ string_bytes letter }
        ensures since { self.new.since ≡ (if bytes_eq (string_bytes self.old.letter) (string_bytes letter)
            then self.old.since else now) }
    {
        if self.letter.as_str() != letter.as_str() {
            self.since = now;
        }
        self.letter = letter;
    }

    /// The letter, and for how many seconds it has been the first; or `none`.
    ///
    /// # Errors
    /// Where an allocation failed.
    pub fn show(&self, alloc: Global, now: u64) -> Result<String, AllocError> {
        if self.letter.is_empty() {
            return String::from_str(alloc, "none");
        }
        let seconds = now.saturating_sub(self.since) / 1000;
        format!(in alloc; "{} since {seconds}", self.letter)
    }
}
