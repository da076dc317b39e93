//! A wire in memory: two ends, and what moves octets from the one to the other.

ghost use Rattle.std.specs.Prelude.{◌≡◌, ℕ, List, []};

use crate::{LinkFault, MemoryLink};
use std::alloc::Global;

/// A way of a wire.
#[derive(Clone, Copy, Debug, PartialEq, Eq)]
pub enum Way {
    /// From the near end to the far one.
    Up,
    /// From the far end to the near one.
    Down,
}

/// A wire in memory. Its two ends are links of their own, and nothing reaches the other end before it is carried.
/// To cut the wire is to drop it, with all that is on its way.
#[derive(Debug, Drop)]
pub struct MemoryWire {
    /// The end from which the way `Up` leads: the client's, where one end is a client's.
    pub near: MemoryLink,
    /// The end from which the way `Down` leads: the server's, where one end is a server's.
    pub far: MemoryLink,
}

impl MemoryWire {
    ghost use Rattle.stomp_wire.specs.Memory.{IsCarried};
    ghost use Rattle.stomp_wire.specs.Wire.{TravelsOn, start_of, end_of};

    /// A wire on which nothing was put.
    pub fn new(alloc: Global) -> MemoryWire
        ensures near { result.near ≡ record { waiting = []; carried = [] } }
        ensures far { result.far ≡ record { waiting = []; carried = [] } }
    {
        MemoryWire {
            near: MemoryLink::new(alloc),
            far: MemoryLink::new(alloc),
        }
    }

    /// Carries octets on one way: exactly the lesser of `most` and what waits there, from the front. Answers how many.
    /// Nothing moves on the other way. Its one fault is `Memory`, and then the wire is as it was.
    ///
    /// By `travels` it is a step of [`what_is_taken_begins_what_was_put`](crate::what_is_taken_begins_what_was_put).
    pub fn carry(&mut self, way: Way, most: usize) -> Result<usize, LinkFault>
        ensures carried { IsCarried most (start_of way self.old) (end_of way self.old) (start_of way self.new)
            (end_of way self.new) result }
        ensures travels { (put taken : List ℕ) → TravelsOn way put taken self.old → TravelsOn way put taken self.new }
    {
        match way {
            Way::Up => self.near.carry_to(&mut self.far, most),
            Way::Down => self.far.carry_to(&mut self.near, most),
        }
    }
}
