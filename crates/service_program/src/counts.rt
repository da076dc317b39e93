//! How often something happened since the program began.

use std::sync::atomic::{AtomicU64, Ordering};

/// How often something happened since the program began.
#[derive(Drop)]
pub struct Count {
    count: AtomicU64,
}

impl Count {
    /// It has never happened.
    pub fn new() -> Count {
        Count {
            count: AtomicU64::new(0),
        }
    }

    /// It has happened once more.
    pub fn note(&self) {
        self.count.fetch_add(1, Ordering::SeqCst);
    }

    /// How often it has happened so far.
    pub fn get(&self) -> u64 {
        self.count.load(Ordering::SeqCst)
    }
}
