//! What memory a loop has taken beforehand: buffers to read into, and a reserve for deals.

use crate::work::MOST;
use std::alloc::{AllocError, Global};
use std::mem::replace;

/// The buffers that may keep octets at once.
const SPARES: usize = 8;

/// The octets of a block of the reserve: allocators serve what is much larger from elsewhere, and give it back to the
/// system.
// Two of them are enough for bodies of 90,000 octets.
// A third one, of 1.1 MiB, was tried: waiting frames took what was left of it, and queues of bodies of 50,000 octets
// came to a stop.
const BLOCK: usize = 98_304;

/// A buffer that connections are read into, and spare ones: where a session has no memory for what was read, the buffer
/// keeps it, and a spare one comes in its place.
#[derive(Drop)]
pub(crate) struct Buffers {
    alloc: Global,
    current: Vec<u8>,
    spares: Vec<Vec<u8>>,
}

impl Buffers {
    /// All buffers. They are allocated at the start, and not when they are needed: there may be no memory then.
    pub(crate) fn new(alloc: Global) -> Result<Buffers, AllocError> {
        let current = Vec::from_elem(alloc, 0u8, MOST)?;
        let mut spares = Vec::with_capacity(alloc, SPARES)?;
        for _ in 0..SPARES {
            spares.push(Vec::from_elem(alloc, 0u8, MOST)?)?;
        }
        Ok(Buffers {
            alloc,
            current,
            spares,
        })
    }

    /// The buffer to read into.
    pub(crate) fn current(&mut self) -> &mut Vec<u8> {
        &mut self.current
    }

    /// The buffer that was read into, which is to keep what it holds; none where there is no spare one. It allocates
    /// nothing.
    pub(crate) fn keep(&mut self) -> Option<Vec<u8>> {
        let spare = self.spares.pop()?;
        Some(replace(&mut self.current, spare))
    }

    /// Takes spare ones in the place of those that went with their connections, as far as memory isn't refused.
    pub(crate) fn fill(&mut self) {
        if self.spares.len() < SPARES
            && let Ok(buffer) = Vec::from_elem(self.alloc, 0u8, MOST)
        {
            self.give_back(buffer);
        }
    }

    /// Takes a buffer back.
    pub(crate) fn give_back(&mut self, buffer: Vec<u8>) {
        // There is room for it: it was one of them.
        let _ = self.spares.push(buffer);
    }
}

/// Memory that is kept for deals and for answers: where one was refused it is let go, so that others can be made. As far
/// as memory isn't refused, it is taken again after the writing.
#[derive(Drop)]
pub(crate) struct Reserve {
    alloc: Global,
    first: Vec<u8>,
    second: Vec<u8>,
}

impl Reserve {
    /// The whole reserve.
    pub(crate) fn new(alloc: Global) -> Result<Reserve, AllocError> {
        Ok(Reserve {
            alloc,
            first: Vec::from_elem(alloc, 0u8, BLOCK)?,
            second: Vec::from_elem(alloc, 0u8, BLOCK)?,
        })
    }

    /// Gives it to the allocator.
    pub(crate) fn let_go(&mut self) {
        // An empty vector has no memory: the blocks are free at once.
        self.first = Vec::new(self.alloc);
        self.second = Vec::new(self.alloc);
    }

    /// Whether all of it is there.
    pub(crate) fn is_whole(&self) -> bool {
        !self.first.is_empty() && !self.second.is_empty()
    }

    /// Takes again what isn't there, as far as memory isn't refused.
    pub(crate) fn take_again(&mut self) {
        take_block(self.alloc, &mut self.first);
        take_block(self.alloc, &mut self.second);
    }
}

fn take_block(alloc: Global, block: &mut Vec<u8>) {
    if block.is_empty()
        && let Ok(taken) = Vec::from_elem(alloc, 0u8, BLOCK)
    {
        *block = taken;
    }
}
