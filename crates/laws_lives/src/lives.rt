//! A life that was closed, as the laws of whole lives ask for one: each law is the contract of a function with nothing
//! to do.

ghost use Rattle.std.specs.Prelude.{◌≡◌, true, Contains, List, Option};
ghost use Rattle.envelope.specs.declared.message.Envelope.{Envelope};
ghost use Rattle.keep.specs.Tables.{Tables};
ghost use Rattle.laws_lives.specs.Posts.{CameIn, StandsByPost, post_of};
ghost use Rattle.laws_services.specs.Lives.{Lives};
ghost use Rattle.service_workers.specs.Lives.{LifeStands};
ghost use Rattle.service_workers.specs.declared.conn.Conn.{Conn};

use activities::Handler;
use keep::Keep;
use service_workers::Naming;
use stomp_wire::Link;

/// A life that `close_life` has closed is a life in the sense of `laws_services`: it read what its MESSAGEs carry, and wrote
/// what its SENDs carry. It leads from the tables that it found to those of the endpoint that was good to the end; and if what
/// is left is still usable, to each content that a stop may leave of that. Where the store failed, such a content matches its
/// journal, and all that was written is true by it; which envelope the failing call took in is not said. What was read came
/// on a connection.
pub fn closed_lives_are_lives<N, L, H, K>()
where
    N: Naming<K, L>,
    L: Link + Drop,
    H: Handler,
    K: Keep<State = H::State, Command = H::Command> + Drop,
    ensures good { (left : K) (conns : List (Option (Conn L)))
        (life : LifeStands L.put_gives L.take_gives K.seen H.service N.given N.found left conns) →
        Lives H.service (post_of life) (K.seen life.first).tables (K.seen life.good).tables }
    ensures left { (left : K) (conns : List (Option (Conn L)))
        (life : LifeStands L.put_gives L.take_gives K.seen H.service N.given N.found left conns) →
        (K.seen left).usable ≡ true → (t : Tables H.State H.Command) → (K.seen left).may_leave t →
        Lives H.service (post_of life) (K.seen life.first).tables t }
    ensures failed { (left : K) (conns : List (Option (Conn L)))
        (life : LifeStands L.put_gives L.take_gives K.seen H.service N.given N.found left conns) →
        (t : Tables H.State H.Command) → (K.seen left).may_leave t → StandsByPost H.service (post_of life) t }
    ensures read { (left : K) (conns : List (Option (Conn L)))
        (life : LifeStands L.put_gives L.take_gives K.seen H.service N.given N.found left conns) (e : Envelope) →
        Contains (post_of life).read e → CameIn L.put_gives L.take_gives N.given e }
{}
