//! What messages and actions are counted as, for a limit on memory: all of it modulo 2^64.

ghost use Rattle.std.specs.Prelude.{◌≡◌, ◌%◌, ◌^◌};
ghost use Rattle.std.specs.List.{sum_by};
ghost use Rattle.broker_book.specs.Sizes.{action_octets, header_octets, sent_octets};

use crate::{Action, Sent};
use stomp_frame::Header;

/// What keeping a message takes besides its own octets: its places in the queues, and what memory is asked for.
// A message of 100 octets that waits takes some 620.
pub const MESSAGE_OVERHEAD: u64 = 512;

/// What keeping an action takes besides the message of a SEND.
pub const ACTION_OVERHEAD: u64 = 32;

/// The octets of headers.
fn headers_octets(headers: &[Header]) -> u64
    ensures { result ≡ sum_by header_octets headers.now % 2 ^ 64 }
{
    let mut octets: u64 = 0;
    for header in headers {
        // Modulo 2^64, as contracts count: no frame has so many octets.
        octets = octets
            .wrapping_add(header.name().len() as u64)
            .wrapping_add(header.value().len() as u64);
    }
    octets
}

impl Sent {
    /// What a message of these contents is counted as: the octets of its destination, headers and body, and what
    /// keeping it takes.
    pub fn octets(&self) -> u64
        ensures { result ≡ sent_octets self.now % 2 ^ 64 }
    {
        MESSAGE_OVERHEAD
            .wrapping_add(self.destination.as_str().len() as u64)
            .wrapping_add(headers_octets(self.headers.as_slice()))
            .wrapping_add(self.body.as_slice().len() as u64)
    }
}

impl Action {
    /// What the action is counted as: a SEND as its message, and what keeping it takes.
    pub fn octets(&self) -> u64
        ensures { result ≡ action_octets self.now % 2 ^ 64 }
    {
        match self {
            // As in a queue: the SEND holds its memory from now on, whether or not its COMMIT comes.
            Action::Put(sent) => ACTION_OVERHEAD.wrapping_add(sent.get().octets()),
            Action::Ack(_) | Action::Nack(_) => ACTION_OVERHEAD,
        }
    }
}
