//! Where connections stand, by the numbers of their sessions.

use std::alloc::{AllocError, Global};
use std::collections::VecDeque;

/// Where a connection stands: the key that it has, and the number of its session. Once it is gone another may have the
/// key, and none ever has the number: so what is kept of a connection is kept with both.
#[derive(Clone, Copy, Debug)]
pub(crate) struct ConnectionPlace {
    pub(crate) key: usize,
    pub(crate) number: u64,
}

/// The places of all connections by rising numbers. A broker numbers its sessions in the order in which they are
/// opened, so that a new one is after all others.
#[derive(Drop)]
pub(crate) struct Places {
    rising: VecDeque<ConnectionPlace>,
}

impl Places {
    /// No places. It allocates nothing.
    pub(crate) fn new(alloc: Global) -> Places {
        Places {
            rising: VecDeque::new(alloc),
        }
    }

    /// Takes a new one in, whose number is above all others; `false` where there is no memory, and then nothing has
    /// changed.
    pub(crate) fn push(&mut self, place: ConnectionPlace) -> bool {
        self.rising.push_back(place).is_ok()
    }

    /// Makes room for another.
    pub(crate) fn reserve(&mut self) -> Result<(), AllocError> {
        self.rising.reserve(1)
    }

    /// How many there are.
    pub(crate) fn len(&self) -> usize {
        self.rising.len()
    }

    /// The place that is so many places after the lowest.
    pub(crate) fn get(&self, index: usize) -> Option<ConnectionPlace> {
        self.rising.get(index).copied()
    }

    /// The place of the connection whose session has this number.
    pub(crate) fn find(&self, number: u64) -> Option<ConnectionPlace> {
        let index = self.index_of(number)?;
        self.get(index)
    }

    /// Takes the place of a session away. It allocates nothing, and is quick at both ends.
    pub(crate) fn remove(&mut self, number: u64) {
        if let Some(index) = self.index_of(number) {
            let _ = self.rising.remove(index);
        }
    }

    fn index_of(&self, number: u64) -> Option<usize> {
        self.rising
            .binary_search_by_key(&number, |place| place.number)
            .ok()
    }
}
