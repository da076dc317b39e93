//! What each link promises of its calls.

use crate::LinkFault;

/// One end of a connection, which puts octets out and takes octets that came in.
///
/// Contracts see of a link the octets that are on their way out of it and into it, where it knows them, and the count
/// of its failures. They also see each call, by `put_gives` and `take_gives`: which answers may come, and what the
/// link is then. A link over a socket knows nothing of its other end but what this end put and took.
///
/// A fault `Cut` or `Device` comes only with a counted failure, and after it nothing was put or taken by that call.
/// After `Memory` the link is as it was.
pub trait Link {
    ghost use Rattle.std.specs.Prelude.{◌≡◌, ℕ, List, Option, Result, Err};
    ghost use Rattle.std.specs.Io.KnownBytes.{Keeps};
    ghost use Rattle.stomp_wire.specs.Fault.{IsCounted};
    ghost use Rattle.stomp_wire.specs.Link.{IsPut, IsTake, answer_of};
    ghost use Rattle.stomp_wire.specs.declared.fault.LinkFault.{LinkFault};

    // The octets that were put and that haven't left this end, where they are known.
    ghost outgoing: { Self → Option (List ℕ) };

    // The octets that came and that weren't taken yet, where they are known.
    ghost incoming: { Self → Option (List ℕ) };

    // The count of failures. It stays at 2^64 - 1, its last value.
    ghost failures: { Self → ℕ };

    // A put of these octets may give this answer, and lead from the first link to the second.
    ghost put_gives: { Self → List ℕ → Result ℕ LinkFault → Self → Type 0 };

    // A take of at most this number may give these octets or this fault, and lead from the first link to the second.
    ghost take_gives: { Self → ℕ → Result (List ℕ) LinkFault → Self → Type 0 };

    /// The count of failures so far. It stays at 2^64 - 1, its last value.
    fn failures(&self) -> u64
        ensures { result ≡ failures self.now };

    /// Puts a beginning of the octets, and answers how many of them. 0 means none now.
    fn put(&mut self, octets: &[u8]) -> Result<usize, LinkFault>
        ensures gives { put_gives self.old octets.now result self.new }
        ensures outgoing { IsPut octets.now (outgoing self.old) (outgoing self.new) result }
        ensures incoming { Keeps (incoming self.old) (incoming self.new) }
        ensures counted { IsCounted (failures self.old) (failures self.new) result }
        ensures memory { result ≡ Err LinkFault.Memory → self.new ≡ self.old };

    /// Appends the octets that came, the first of them and at most `most`, and answers how many. 0 means none now.
    /// At a fault nothing is appended.
    fn take(&mut self, into: &mut Vec<u8>, most: usize) -> Result<usize, LinkFault>
        ensures gives { take_gives self.old most (answer_of into.old.items into.new.items result) self.new }
        ensures incoming { IsTake most into.old.items into.new.items (incoming self.old) (incoming self.new) result }
        ensures outgoing { Keeps (outgoing self.old) (outgoing self.new) }
        ensures counted { IsCounted (failures self.old) (failures self.new) result }
        ensures memory { result ≡ Err LinkFault.Memory → self.new ≡ self.old };
}
