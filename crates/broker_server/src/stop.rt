//! How another thread ends a loop.

use std::sync::atomic::{AtomicBool, Ordering};

/// Asks a `serve` to end: it may be shared with the thread that serves.
#[derive(Drop)]
pub struct Stop {
    asked: AtomicBool,
}

impl Stop {
    /// Nobody has asked yet. It allocates nothing.
    pub fn new() -> Stop {
        Stop {
            asked: AtomicBool::new(false),
        }
    }

    /// Asks: the loop ends at its next turn, after at most 100 milliseconds where no socket is ready.
    pub fn ask(&self) {
        self.asked.store(true, Ordering::SeqCst);
    }

    /// Whether somebody has asked.
    pub fn is_asked(&self) -> bool {
        self.asked.load(Ordering::SeqCst)
    }
}
