//! What a relay knows of an outbox stays true: each law is the contract of a function with nothing to do.

ghost use Rattle.std.specs.Prelude.{◌≡◌};
ghost use Rattle.endpoint.specs.Calls.{Finds};
ghost use Rattle.endpoint.specs.Deeds.{Kept, Deed, Did};
ghost use Rattle.endpoint.specs.Matches.{AllMatch};
ghost use Rattle.relay.specs.Knowing.{Knows, KnowsAll};
ghost use Rattle.relay.specs.declared.relay.Relay.{Relay};

use activities::Handler;
use keep::Keep;

/// Whatever one call does to a service, a relay's cursor is right of it afterwards where it was right before.
pub fn each_deed_is_known<H: Handler>()
    ensures { (r : Relay) (x y : Kept H.Command) (deed : Deed H.Command) → Knows H.service r x → Did H.service x deed y
        → Knows H.service r y }
{}

/// A cursor that is right of each content that a crash may leave is right of what a reopening finds.
pub fn a_reopening_is_known<H, K>()
where
    H: Handler,
    K: Keep<State = H::State, Command = H::Command>,
    ensures { (r : Relay) (old new : K) → (K.seen new).doubt ≡ 0 → Finds K.seen old new
        → AllMatch H.service (K.seen new).may_leave
        → KnowsAll H.service r (K.seen old).may_leave → KnowsAll H.service r (K.seen new).may_leave }
{}
