//! How far the program has come.

use std::sync::atomic::{AtomicBool, AtomicU64, Ordering};

/// The service's threads run, and connections are opened.
const SERVING: u64 = 0;

/// No line is answered any more: the service's threads end, and aren't run again.
const ENDING: u64 = 1;

/// The service's threads have ended, and the connections are closed.
const OVER: u64 = 2;

/// How far the program has come. A stage is only ever followed by a later one, so the order in which threads set them
/// doesn't matter.
#[derive(Drop)]
pub struct Life {
    stage: AtomicU64,
    is_broken: AtomicBool,
}

impl Life {
    /// A program that serves.
    pub fn new() -> Life {
        Life {
            stage: AtomicU64::new(SERVING),
            is_broken: AtomicBool::new(false),
        }
    }

    /// The program is to end, unless it does already.
    pub fn end(&self) {
        // The greatest stays: an `end` that comes after `close` doesn't lower the stage again.
        self.stage.fetch_max(ENDING, Ordering::SeqCst);
    }

    /// The store has failed: the program is to end, and its exit status says so.
    pub fn fail(&self) {
        // First, so that whoever sees the end also sees its reason.
        self.is_broken.store(true, Ordering::SeqCst);
        self.end();
    }

    /// The service's threads have ended for good.
    pub fn close(&self) {
        self.stage.fetch_max(OVER, Ordering::SeqCst);
    }

    /// Whether the program ends, or is over.
    pub fn has_ended(&self) -> bool {
        self.stage.load(Ordering::SeqCst) >= ENDING
    }

    /// Whether the service's threads have ended for good.
    pub fn is_over(&self) -> bool {
        self.stage.load(Ordering::SeqCst) >= OVER
    }

    /// Whether the store has failed.
    pub fn is_broken(&self) -> bool {
        self.is_broken.load(Ordering::SeqCst)
    }
}
