//! The product's own loop over `put`.

ghost use Rattle.std.specs.Prelude.{◌≡◌, ℕ, ◌-◌, ◌≤◌, List, length, take, drop, Option};
ghost use Rattle.std.specs.Io.KnownBytes.{Appends, Keeps};
ghost use Rattle.stomp_wire.specs.Pump.{Puts, IsPumped, IsPumpCounted};

use crate::{Link, LinkFault};

/// What became of octets that were to go out.
#[derive(Clone, Copy, Debug, PartialEq, Eq)]
pub struct Gone {
    /// How many of them went out: exactly the first `count`.
    pub count: usize,
    /// The fault that ended it, if one did.
    pub fault: Option<LinkFault>,
}

/// Puts the octets, as often as the link takes some of them, and answers what became of them: exactly the first
/// `count` went out. It ends when all are gone, at a put that answers 0, or at a fault.
pub fn pump_out<L: Link>(link: &mut L, bytes: &[u8]) -> Gone
    ensures count { result.count ≤ length bytes.now }
    ensures run { IsPumped L.put_gives bytes.now link.old 0 link.new result }
    ensures outgoing { Appends (L.outgoing link.old) (L.outgoing link.new) (take result.count bytes.now) }
    ensures incoming { Keeps (L.incoming link.old) (L.incoming link.new) }
    ensures counted { IsPumpCounted (L.failures link.old) (L.failures link.new) result.fault }
{
    pump_rest(link, bytes, 0)
}

/// Goes on with octets of which the first `gone` went out before. The answer's `count` is of all that are out now.
///
/// `run` and `whole` say that it composes: with the puts by which the first `gone` went out, on a link that has put
/// nothing else since, it is one pump.
pub fn pump_rest<L: Link>(link: &mut L, bytes: &[u8], gone: usize) -> Gone
    requires { gone ≤ length bytes.now }
    ensures count { (gone ≤ result.count) × (result.count ≤ length bytes.now) }
    ensures run { (first : L) (start : ℕ) → Puts L.put_gives bytes.now first start link.old gone
        → IsPumped L.put_gives bytes.now first start link.new result }
    ensures outgoing { Appends (L.outgoing link.old) (L.outgoing link.new)
        (take (result.count - gone) (drop gone bytes.now)) }
    ensures whole { (first : Option (List ℕ)) → Appends first (L.outgoing link.old) (take gone bytes.now)
        → Appends first (L.outgoing link.new) (take result.count bytes.now) }
    ensures incoming { Keeps (L.incoming link.old) (L.incoming link.new) }
    ensures counted { IsPumpCounted (L.failures link.old) (L.failures link.new) result.fault }
{
    let mut count = gone;
    while count < bytes.len() {
        match link.put(&bytes[count..]) {
            // The link takes nothing now. It's for the caller to try later, and not to wait here.
            Ok(0) => break,
            Ok(some) => count += some,
            Err(fault) => {
                return Gone {
                    count,
                    fault: Some(fault),
                };
            }
        }
    }
    Gone { count, fault: None }
}
