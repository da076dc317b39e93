//! What a turn works with, besides the broker and its connections.

use crate::Figures;
use crate::buffers::Buffers;
use crate::room::Room;
use crate::turn::Brought;
use std::time::{Duration, Instant};

/// The octets that are read of a connection at a turn: at most, at least, and at first.
pub(crate) const MOST: usize = 65_536;

const LEAST: usize = 512;

// So that 128 new connections with small frames don't hold a turn up. One that sends much reaches 65,536 in six reads.
pub(crate) const FIRST: usize = 1_024;

/// The frames that a turn may bring. Behind them the rest waits for the next turn, and the answers are written first.
// 64 KiB of BEGIN and ABORT are 3,000 frames: 128 clients that sent such made an honest one wait 1.6 s.
pub(crate) const FRAMES: usize = 4_096;

/// The frames of these that a connection may bring at least, however many are ready.
const FEW: usize = 32;

/// What is the same for all connections at a turn.
#[derive(Drop)]
pub(crate) struct Work {
    pub(crate) buffers: Buffers,
    pub(crate) figures: Figures,
    /// When the turn began.
    pub(crate) now: Instant,
    /// The frames that each connection may bring.
    pub(crate) frames: usize,
    /// Whether there is room for what connections send.
    pub(crate) room: Room,
}

impl Work {
    /// Nothing was done yet.
    pub(crate) fn new(buffers: Buffers, now: Instant, memory: Option<u64>) -> Work {
        Work {
            buffers,
            figures: Figures::new(),
            now,
            frames: FRAMES,
            room: Room::new(memory),
        }
    }

    /// Shares the frames of a turn among so many sockets that are ready.
    pub(crate) fn share(&mut self, ready: usize) {
        if ready > 0 {
            self.frames = (FRAMES / ready).max(FEW);
        }
    }
}

/// The octets that a connection may read next, where it read at most `share` of them last. Where they had more frames
/// than it may bring, as many as these would have had by that; where there were more octets and much fewer frames,
/// twice as many.
pub(crate) fn next_share(share: usize, brought: Brought, frames: usize) -> usize {
    if brought.frames > frames {
        let each = brought.octets / brought.frames;
        each.saturating_mul(frames).clamp(LEAST, MOST)
    } else if brought.octets >= share && brought.frames <= frames / 2 {
        share.saturating_mul(2).min(MOST)
    } else {
        share
    }
}

/// What is due again and again, or never.
#[derive(Clone, Copy, Debug)]
pub(crate) struct Interval {
    every: Option<Duration>,
    next: Instant,
}

impl Interval {
    /// An interval that is first due after its time.
    pub(crate) fn new(every: Option<Duration>, now: Instant) -> Interval {
        let mut interval = Interval { every, next: now };
        interval.pass(now);
        interval
    }

    /// Sets when the interval is due next: never, where the clock has no such time.
    fn pass(&mut self, now: Instant) {
        if let Some(every) = self.every {
            match now.checked_add(every) {
                Some(next) => self.next = next,
                None => self.every = None,
            }
        }
    }

    /// Whether it is due now.
    pub(crate) fn is_due(&mut self, now: Instant) -> bool {
        if self.every.is_none() || self.next > now {
            return false;
        }
        // Counted from now, and not from when it was due: after a pause it isn't due several times.
        self.pass(now);
        true
    }

    /// Makes the interval due again at once.
    pub(crate) fn hurry(&mut self, now: Instant) {
        self.next = now;
    }
}
