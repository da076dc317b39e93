//! What connections have written and read, and what was processed, from the first frame to the end: each law is the contract of a
//! function with nothing to do.

ghost use Rattle.std.specs.Prelude.{◌≡◌, ◌++◌, [], ℕ, List, Option};
ghost use Rattle.stomp_frame.specs.Frames.{Content};
ghost use Rattle.stomp_frame.specs.declared.command.Command.TheVariants.{Connect};
ghost use Rattle.base.specs.declared.entity.Kind.{Kind};
ghost use Rattle.told_lock.specs.Rule.{Every};
ghost use Rattle.shared_endpoint.specs.Keys.{Any};
ghost use Rattle.service_workers.specs.Conns.{IsNewConnBy};
ghost use Rattle.service_workers.specs.Owing.{Owes};
ghost use Rattle.service_workers.specs.Reads.{CameOn, HasGiven, IsUnread, ReadsLast, ReadsOnly};
ghost use Rattle.service_workers.specs.Taking.{TakingStands};
ghost use Rattle.service_workers.specs.Written.{ConnectionsStand, HasSpoken, WrittenStands, WritesOfSession};
ghost use Rattle.service_workers.specs.declared.conn.Conn.{Conn};

use activities::Handler;
use keep::Keep;
use stomp_wire::Link;

/// A new connection has written its CONNECT and nothing else, which needs no witness; and one on which no more was written
/// than frames of the session, as where it takes leave, has written what needs no more witnesses than before.
pub fn connections_speak_of_themselves<L, H, K>()
where
    L: Link + Drop,
    H: Handler,
    K: Keep<State = H::State, Command = H::Command> + Drop,
    ensures new { (shown : List K) (connect : Content) (prefetch : Option ℕ) (link : L) (c : Conn L) → connect.command ≡ Connect →
        IsNewConnBy connect prefetch link c → HasSpoken L.put_gives L.take_gives K.seen H.service shown c }
    ensures goes_on { (shown : List K) (c d : Conn L) → HasSpoken L.put_gives L.take_gives K.seen H.service shown c →
        WritesOfSession L.put_gives L.take_gives H.service.kind c d →
        HasSpoken L.put_gives L.take_gives K.seen H.service shown d }
{}

/// A new connection owes no answer. One that gives nothing and writes only frames of the session, as where it takes leave, owes as
/// many as before. So a run may begin with either.
pub fn new_connections_owe_no_answer<L>()
where
    L: Link + Drop,
    ensures new { (connect : Content) (prefetch : Option ℕ) (link : L) (c : Conn L) → connect.command ≡ Connect →
        IsNewConnBy connect prefetch link c → IsUnread c → Owes L.put_gives L.take_gives 0 c }
    ensures goes_on { (owed : ℕ) (mine : Kind) (c d : Conn L) → ReadsOnly L.put_gives L.take_gives [] c d →
        WritesOfSession L.put_gives L.take_gives mine c d → Owes L.put_gives L.take_gives owed c →
        Owes L.put_gives L.take_gives owed d }
{}

/// What was written stands by the journal in the end, whatever was written meanwhile, and whatever MESSAGEs came: each letter is
/// what the journal sends under its number, no settle is ahead of what it has handled, and what was acknowledged else was held,
/// noted or not for this service, at a beginning of that journal. Only what came was answered.
pub fn what_was_written_stands<H, K>()
where
    H: Handler,
    K: Keep<State = H::State, Command = H::Command> + Drop,
    ensures { (came : List Content) → WrittenStands K.seen H.service (λ message. Any (λ m. m ≡ message) came) }
{}

/// All that was put on a connection's link stands by the journal in the end, from its first frame to its last.
pub fn what_connections_wrote_stands<L, H, K>()
where
    L: Link + Drop,
    H: Handler,
    K: Keep<State = H::State, Command = H::Command> + Drop,
    ensures { ConnectionsStand L.put_gives L.take_gives K.seen H.service }
{}

/// What a service processed stands in the end: of all letters that were handled since the Hand had seen so much, of those
/// that are held and of the marks, only the envelopes of the MESSAGEs that it handled are the cause, or what was held or
/// marked before.
pub fn what_was_taken_in_stands<H, K>()
where
    H: Handler,
    K: Keep<State = H::State, Command = H::Command> + Drop,
    ensures { TakingStands K.seen H.service }
{}

/// What a connection gives is what came on it, once each and in order. A new connection has given nothing. Where one continues,
/// and gives frames, it has given these after those before. Each frame that was given came on it, also where it ends meanwhile.
pub fn what_connections_give_came<L>()
where
    L: Link + Drop,
    ensures new { (c : Conn L) → IsUnread c → HasGiven L.put_gives L.take_gives [] c }
    ensures goes_on { (before given : List Content) (c d : Conn L) → HasGiven L.put_gives L.take_gives before c →
        ReadsOnly L.put_gives L.take_gives given c d → HasGiven L.put_gives L.take_gives (before ++ given) d }
    ensures came { (given : List Content) (c : Conn L) → HasGiven L.put_gives L.take_gives given c →
        Every (CameOn L.put_gives L.take_gives c) given }
    ensures ends { (given : List Content) (c d : Conn L) → HasGiven L.put_gives L.take_gives given c →
        ReadsLast L.put_gives L.take_gives c d → Every (CameOn L.put_gives L.take_gives d) given }
{}
