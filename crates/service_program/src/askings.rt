//! Askings that connections are opened at once, and their answers.

use std::sync::atomic::{AtomicU64, Ordering};

/// Askings that the connections that aren't open are opened at once. They are numbered from 1, and one answer answers all
/// up to a number, so that nobody waits for an asking that came while others were answered.
#[derive(Drop)]
pub struct Askings {
    asked: AtomicU64,
    answered: AtomicU64,
    /// How many connections are open, by the last answer.
    open: AtomicU64,
}

impl Askings {
    /// One asking is there, since a program opens its connections when it starts.
    pub fn new() -> Askings {
        Askings {
            asked: AtomicU64::new(1),
            answered: AtomicU64::new(0),
            open: AtomicU64::new(0),
        }
    }

    /// Asks, and answers the number of this asking.
    pub fn ask(&self) -> u64 {
        self.asked.fetch_add(1, Ordering::SeqCst).saturating_add(1)
    }

    /// How many there were so far. It's read before connections are opened: an asking that comes meanwhile may have missed
    /// the opening, which doesn't answer it.
    pub fn asked(&self) -> u64 {
        self.asked.load(Ordering::SeqCst)
    }

    /// Whether an asking isn't answered.
    pub fn are_left(&self) -> bool {
        self.asked() != self.answered.load(Ordering::SeqCst)
    }

    /// Answers all askings up to this number: so many connections are open.
    pub fn answer(&self, asked: u64, open: u64) {
        // First, so that who finds the asking answered reads this answer or a later one.
        self.open.store(open, Ordering::SeqCst);
        self.answered.store(asked, Ordering::SeqCst);
    }

    /// Whether the asking of this number is answered.
    pub fn is_answered(&self, asking: u64) -> bool {
        self.answered.load(Ordering::SeqCst) >= asking
    }

    /// How many connections are open, by the last answer; 0 before the first.
    pub fn open(&self) -> u64 {
        self.open.load(Ordering::SeqCst)
    }
}
