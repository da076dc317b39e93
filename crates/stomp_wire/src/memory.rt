//! One end of a wire in memory.

ghost use Rattle.std.specs.Prelude.{◌≡◌, ◌≤◌, [], length, drop};

use crate::{Link, LinkFault};
use std::alloc::Global;
use std::marker::Model;

/// One end of a wire in memory. Octets that it puts wait in it until they are carried to the other end, and octets
/// that were carried to it wait until they are taken.
///
/// Contracts see its two queues: `waiting`, what it put and nobody carried yet, and `carried`, what was carried to it
/// and it didn't take yet. It never fails unless an allocation does.
///
/// Both queues are plain vectors, so that they can be looked at as slices. What leaves a queue costs a move of the
/// rest.
#[derive(Debug, Drop)]
pub struct MemoryLink {
    waiting: Vec<u8>,
    carried: Vec<u8>,
}

impl Model for MemoryLink {
    ghost use Rattle.stomp_wire.specs.Memory.{Queues};

    ghost Value = { Queues };

    ghost view = { λ link. record { waiting = link.waiting.items; carried = link.carried.items } };
}

impl MemoryLink {
    ghost use Rattle.stomp_wire.specs.Memory.{IsCarried};

    /// An end that has put nothing and to which nothing was carried.
    pub fn new(alloc: Global) -> MemoryLink
        ensures { result ≡ record { waiting = []; carried = [] } }
    {
        MemoryLink {
            waiting: Vec::new(alloc),
            carried: Vec::new(alloc),
        }
    }

    /// The octets that were put and not carried yet, in order.
    pub fn waiting(&self) -> &[u8]
        ensures { result.now ≡ self.now.waiting }
    {
        self.waiting.as_slice()
    }

    /// The octets that were carried to this end and not taken yet, in order.
    pub fn carried(&self) -> &[u8]
        ensures { result.now ≡ self.now.carried }
    {
        self.carried.as_slice()
    }

    /// Takes away the first `count` of the octets that were carried to this end, which its owner looked at in place. It
    /// allocates nothing.
    pub fn taken(&mut self, count: usize)
        requires { count ≤ length self.old.carried }
        ensures { self.new ≡ record self.old { carried = drop count self.old.carried } }
    {
        drop(self.carried.drain(..count));
    }

    /// Takes away the first `count` of the octets that wait here, which went out from where they stood, as `waiting`
    /// shows them. It allocates nothing.
    pub fn sent(&mut self, count: usize)
        requires { count ≤ length self.old.waiting }
        ensures { self.new ≡ record self.old { waiting = drop count self.old.waiting } }
    {
        drop(self.waiting.drain(..count));
    }

    /// Carries to `to` what waits here: exactly the lesser of `most` and what waits, from the front of what waits to
    /// the end of what was carried there. Answers how many octets these were. Its one fault is `Memory`, and then both
    /// ends are as they were.
    pub fn carry_to(&mut self, to: &mut MemoryLink, most: usize) -> Result<usize, LinkFault>
        ensures { IsCarried most self.old to.old self.new to.new result }
    {
        let count = most.min(self.waiting.len());
        // Appended before they leave this end: where that fails no octet is lost.
        to.carried.extend_from_slice(&self.waiting[..count])?;
        self.sent(count);
        Ok(count)
    }
}

impl Link for MemoryLink {
    ghost use Rattle.std.specs.Prelude.{Some};
    ghost use Rattle.stomp_wire.specs.Memory.{QueuePuts, QueueTakes};

    ghost outgoing = { λ link. Some link.waiting };

    ghost incoming = { λ link. Some link.carried };

    ghost failures = { λ _. 0 };

    ghost put_gives = { QueuePuts };

    ghost take_gives = { QueueTakes };

    fn failures(&self) -> u64 {
        0
    }

    /// Puts all of the octets. Its one fault is `Memory`.
    fn put(&mut self, octets: &[u8]) -> Result<usize, LinkFault> {
        self.waiting.extend_from_slice(octets)?;
        Ok(octets.len())
    }

    /// Takes the first `most` octets that were carried here, or all where there are fewer. Its one fault is `Memory`.
    fn take(&mut self, into: &mut Vec<u8>, most: usize) -> Result<usize, LinkFault> {
        let count = most.min(self.carried.len());
        // Appended before they are taken away: where that fails they stay.
        into.extend_from_slice(&self.carried[..count])?;
        self.taken(count);
        Ok(count)
    }
}
