//! Octets on their way out.

ghost use Rattle.std.specs.Prelude.{◌≡◌, ◌+◌, ◌++◌, ◌≤◌, [], length, take, drop, OnOk, OnErr, IsOk};
ghost use Rattle.stomp_frame.specs.Frames.{canonical};
ghost use Rattle.std.specs.Option.{option_copied};
ghost use Rattle.stomp_session.specs.Replies.{Writes, connected_frame, error_frame, message_frame, receipt_frame};

use crate::SessionFault;
use crate::replies::{self, Delivery};
use base::limits::MAX_BODY;
use std::alloc::{AllocError, Global};
use std::marker::Model;
use stomp_frame::{Frame, encode};

/// Octets on their way out: contracts see those that weren't taken yet, and how many more fit without memory.
///
/// Taking a few from the front moves nothing. What was taken is given up once it is more than what wasn't, so that each
/// octet is moved once at most for each one that is taken.
#[derive(Drop)]
pub struct Outgoing {
    octets: Vec<u8>,
    // where those begin that weren't taken yet
    start: usize,
}

impl Model for Outgoing {
    ghost use Rattle.stomp_session.specs.Outgoing.{Pending};

    ghost Value = { Pending };

    ghost use Rattle.stomp_session.specs.Parts.OutgoingView.{pending_of, IsInside};

    ghost view = { pending_of };

    ghost invariant = { IsInside };
}

impl Outgoing {
    /// Nothing. It allocates nothing.
    pub fn new(alloc: Global) -> Outgoing
        ensures { result.octets ≡ [] }
    {
        Outgoing {
            octets: Vec::new(alloc),
            start: 0,
        }
    }

    /// How many octets weren't taken yet.
    pub fn len(&self) -> usize
        ensures { result ≡ length self.now.octets }
    {
        self.octets.len() - self.start
    }

    /// The octets that weren't taken yet.
    pub fn as_slice(&self) -> &[u8]
        ensures { result.now ≡ self.now.octets }
    {
        let (_, octets) = self.octets.split_at(self.start);
        octets
    }

    /// How many octets more fit without memory.
    pub fn room(&self) -> usize
        ensures { result ≡ self.now.room }
    {
        // What was taken and is still in front doesn't count as room: only `taken` moves octets.
        self.octets.capacity() - self.octets.len()
    }

    /// Takes the first of them away. It allocates nothing.
    pub fn taken(&mut self, count: usize)
        requires { count ≤ length self.old.octets }
        ensures octets { self.new.octets ≡ drop count self.old.octets }
        ensures room { self.old.room ≤ self.new.room }
    {
        self.start += count;
        if self.start == self.octets.len() {
            // Mostly all were taken: nothing is left that would have to move.
            self.octets.clear();
            self.start = 0;
        } else if self.start > self.octets.len() / 2 {
            drop(self.octets.drain(..self.start));
            self.start = 0;
        }
    }

    /// Makes room for so many more.
    ///
    /// # Errors
    /// If the allocation fails.
    pub fn reserve(&mut self, additional: usize) -> Result<(), AllocError>
        ensures octets { self.new.octets ≡ self.old.octets }
        ensures room { OnOk result (additional ≤ self.new.room) }
        ensures kept { self.old.room ≤ self.new.room }
        ensures within { additional ≤ self.old.room → IsOk result }
    {
        self.octets.reserve(additional)
    }

    /// Appends octets, all or none.
    ///
    /// # Errors
    /// If an allocation fails; none is where room is left.
    pub fn append(&mut self, more: &[u8]) -> Result<(), AllocError>
        ensures ok { OnOk result (self.new.octets ≡ self.old.octets ++ more.now) }
        ensures err { OnErr result (self.new.octets ≡ self.old.octets) }
        ensures room { self.old.room ≤ self.new.room + length more.now }
        ensures within { length more.now ≤ self.old.room → IsOk result }
    {
        self.octets.extend_from_slice(more)
    }

    /// Appends the canonical text of a frame, or nothing.
    ///
    /// # Errors
    /// If an allocation fails.
    pub fn write(&mut self, frame: &Frame<MAX_BODY>) -> Result<(), AllocError>
        ensures ok { OnOk result (self.new.octets ≡ self.old.octets ++ canonical frame.now) }
        ensures err { OnErr result (self.new.octets ≡ self.old.octets) }
    {
        match encode(frame, &mut self.octets) {
            Ok(()) => Ok(()),
            Err(_) => Err(AllocError),
        }
    }

    /// Appends CONNECTED, as [`write_connected`](crate::write_connected) does.
    ///
    /// # Errors
    /// `Memory` if an allocation fails, and then nothing was appended.
    pub fn write_connected(&mut self) -> Result<(), SessionFault>
        ensures { Writes connected_frame self.old.octets self.new.octets result }
    {
        replies::write_connected(&mut self.octets)
    }

    /// Appends a RECEIPT, as [`write_receipt`](crate::write_receipt) does.
    ///
    /// # Errors
    /// `Memory` if an allocation fails, and then nothing was appended.
    pub fn write_receipt(&mut self, receipt: &str) -> Result<(), SessionFault>
        ensures { Writes (receipt_frame receipt.now) self.old.octets self.new.octets result }
    {
        replies::write_receipt(receipt, &mut self.octets)
    }

    /// Appends an ERROR, as [`write_error`](crate::write_error) does.
    ///
    /// # Errors
    /// `Memory` if an allocation fails, and then nothing was appended.
    pub fn write_error(
        &mut self,
        alloc: Global,
        number: u8,
        name: &str,
        receipt: Option<&str>,
    ) -> Result<(), SessionFault>
        ensures { Writes (error_frame number name.now (option_copied receipt.entry)) self.old.octets self.new.octets
            result }
    {
        replies::write_error(alloc, number, name, receipt, &mut self.octets)
    }

    /// Appends a MESSAGE, as [`write_message`](crate::write_message) does.
    ///
    /// # Errors
    /// `Memory` if an allocation fails, and then nothing was appended.
    pub fn write_message(&mut self, delivery: &Delivery) -> Result<(), SessionFault>
        ensures { Writes (message_frame delivery.now) self.old.octets self.new.octets result }
    {
        replies::write_message(delivery, &mut self.octets)
    }

    /// Takes all away but the first so many.
    pub fn truncate(&mut self, len: usize)
        ensures { self.new.octets ≡ take len self.old.octets }
    {
        // Counted from the first that wasn't taken, as callers see it.
        let kept = len.min(self.len());
        self.octets.truncate(self.start + kept);
    }
}
