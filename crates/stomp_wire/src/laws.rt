//! What holds of all links: each law is the contract of a function with nothing to do.

ghost use Rattle.std.specs.Prelude.{ℕ, List, Option};
ghost use Rattle.std.specs.Io.{StartsWith};
ghost use Rattle.stomp_wire.specs.Travel.{Travels, IsKept};

/// What is taken at one end of a wire is a beginning of what was put at the other, after any calls in any order: all
/// that was put is what was taken, then what was carried and waits to be taken, then what waits to be carried.
///
/// It speaks of the octets that any two links know, and uses only what [`Link`](crate::Link) promises of each put and
/// each take, and that a carry takes octets from the front and adds them at the end.
pub fn what_is_taken_begins_what_was_put()
    ensures kept { (put taken : List ℕ) (waiting carried : Option (List ℕ)) → Travels put taken waiting carried
        → IsKept put taken waiting carried }
    ensures beginning { (put taken : List ℕ) (waiting carried : Option (List ℕ)) → Travels put taken waiting carried
        → StartsWith put taken }
{}
