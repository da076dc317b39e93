//! Each call of an endpoint is a step, by its contract alone: the premises are clauses of `Endpoint`'s calls, of
//! `group_commit::take_group`, and of the `turn` of `Shared`'s. Each law is the contract of a function with nothing to
//! do.

ghost use Rattle.std.specs.Prelude.{◌≡◌, ◌≤◌, ℕ, List, All, Contains, Option, Some, Result, Ok, slice_get};
ghost use Rattle.std.specs.Global.{Vec};
ghost use Rattle.base.specs.Entity.{Entity};
ghost use Rattle.base.specs.declared.limits.TheConstants.{HELD_WINDOW};
ghost use Rattle.base.specs.declared.pair.Pair.{Pair};
ghost use Rattle.envelope.specs.declared.message.Envelope.{Envelope};
ghost use Rattle.envelope.specs.declared.message.Envelope.TheVariants as envelope;
ghost use Rattle.envelope.specs.declared.message.Letter.{Letter};
ghost use Rattle.activities.specs.declared.input.Input.TheVariants.{FromSeat};
ghost use Rattle.endpoint.specs.Arrivals.{IngestMay, DrainMay, SettleMay};
ghost use Rattle.endpoint.specs.Calls.{Commits, DoesDeed, Finds, StillMatches, OfLetter, OfHeldLetter, OfSettle};
ghost use Rattle.endpoint.specs.declared.answer.Committed.{Committed};
ghost use Rattle.endpoint.specs.declared.answer.Ingested.{Ingested};
ghost use Rattle.endpoint.specs.declared.answer.Ingested.TheVariants as ingested;
ghost use Rattle.endpoint.specs.declared.fault.EndFault.{EndFault};
ghost use Rattle.group_commit.specs.Group.{Groups};
ghost use Rattle.group_commit.specs.declared.grouped.Grouped.{Grouped};
ghost use Rattle.group_commit.specs.declared.grouped.Grouped.TheVariants as grouped;
// `Does` is what a theorem asks of a call. A new call of an endpoint changes no theorem: once its contract names its
// deed, a law like these makes it a step.
ghost use Rattle.laws_services.specs.Steps.{IsFounded, Does, TakesLetter, MayWrite};

use activities::Handler;
use keep::Keep;

/// A command: a step, whatever it is answered.
pub fn commits_are_steps<H, K>()
where
    H: Handler,
    K: Keep<State = H::State, Command = H::Command>,
    ensures { (old new : K) (written : List Envelope) (e : Entity) (seat : ℕ) (command : H.Command)
        (result : Result Committed EndFault) →
        Commits K.seen old new H.service (record { entity = e; input = FromSeat seat command }) result →
        StillMatches K.seen old new H.service → Does K.seen H.service (IsFounded written) old new }
{}

/// A letter that was written: a step, whatever it is answered. An `Ok` takes it. Where it was handled a settle may be
/// written up to its number; where it comes again, up to what was handled.
pub fn ingests_are_steps<H, K>()
where
    H: Handler,
    K: Keep<State = H::State, Command = H::Command>,
    ensures does { (old new : K) (written : List Envelope) (l : Letter) (result : Result Ingested EndFault) →
        DoesDeed K.seen old new HELD_WINDOW H.service OfLetter l.pair.to (IngestMay H.service l) result →
        StillMatches K.seen old new H.service → Contains written (envelope.Letter l) →
        Does K.seen H.service (IsFounded written) old new }
    ensures takes { (old new : K) (l : Letter) (answer : Ingested) →
        DoesDeed K.seen old new HELD_WINDOW H.service OfLetter l.pair.to (IngestMay H.service l) (Ok answer) →
        TakesLetter K.seen H.service l old new }
    ensures handled { (old new : K) (l : Letter) (position : ℕ) →
        DoesDeed K.seen old new HELD_WINDOW H.service OfLetter l.pair.to (IngestMay H.service l)
        (Ok (ingested.Handled position)) →
        MayWrite K.seen H.service old new (envelope.Settle l.pair l.number) }
    ensures repeated { (old new : K) (l : Letter) (handled count : ℕ) →
        DoesDeed K.seen old new HELD_WINDOW H.service OfLetter l.pair.to (IngestMay H.service l)
        (Ok (ingested.Repeated handled)) →
        count ≤ handled → MayWrite K.seen H.service old new (envelope.Settle l.pair count) }
{}

/// The next letter of a pair where it is held: a step, whatever it is answered. A settle may be written up to the
/// number that is told.
pub fn drains_are_steps<H, K>()
where
    H: Handler,
    K: Keep<State = H::State, Command = H::Command>,
    ensures does { (old new : K) (written : List Envelope) (p : Pair) (result : Result (Option ℕ) EndFault) →
        DoesDeed K.seen old new HELD_WINDOW H.service OfHeldLetter p.to (DrainMay H.service p) result →
        StillMatches K.seen old new H.service → Does K.seen H.service (IsFounded written) old new }
    ensures handled { (old new : K) (p : Pair) (number : ℕ) →
        DoesDeed K.seen old new HELD_WINDOW H.service OfHeldLetter p.to (DrainMay H.service p) (Ok (Some number)) →
        MayWrite K.seen H.service old new (envelope.Settle p number) }
{}

/// A settle that was written: a step, whatever it is answered.
pub fn settles_are_steps<H, K>()
where
    H: Handler,
    K: Keep<State = H::State, Command = H::Command>,
    ensures { (old new : K) (written : List Envelope) (p : Pair) (number : ℕ) (result : Result ℕ EndFault) →
        DoesDeed K.seen old new HELD_WINDOW H.service OfSettle p.from (SettleMay H.service p number) result →
        StillMatches K.seen old new H.service → Contains written (envelope.Settle p number) →
        Does K.seen H.service (IsFounded written) old new }
{}

/// Several letters and settles that were written, which are taken in together: a step, whatever it is answered. Each
/// letter of which something is told is taken; where it was handled a settle may be written up to its number.
pub fn groups_are_steps<H, K>()
where
    H: Handler,
    K: Keep<State = H::State, Command = H::Command>,
    ensures does { (old new : K) (written envelopes : List Envelope) (result : Result (Vec Grouped) EndFault) →
        Groups K.seen old new H.service envelopes result → StillMatches K.seen old new H.service →
        All (Contains written) envelopes → Does K.seen H.service (IsFounded written) old new }
    ensures takes { (old new : K) (envelopes : List Envelope) (told : Vec Grouped) (i : ℕ) (l : Letter) (g : Grouped) →
        Groups K.seen old new H.service envelopes (Ok told) → slice_get envelopes i ≡ Some (envelope.Letter l) →
        slice_get told.items i ≡ Some g → TakesLetter K.seen H.service l old new }
    ensures handled { (old new : K) (envelopes : List Envelope) (told : Vec Grouped) (i : ℕ) (l : Letter)
        (position : ℕ) →
        Groups K.seen old new H.service envelopes (Ok told) → slice_get envelopes i ≡ Some (envelope.Letter l) →
        slice_get told.items i ≡ Some (grouped.Handled position) →
        MayWrite K.seen H.service old new (envelope.Settle l.pair l.number) }
{}

/// A store that is opened again: what it has then is some of what a stop might leave.
pub fn reopenings_are_steps<H, K>()
where
    H: Handler,
    K: Keep<State = H::State, Command = H::Command>,
    ensures { (old new : K) (written : List Envelope) → (K.seen old).doubt ≤ (K.seen new).doubt →
        Finds K.seen old new → StillMatches K.seen old new H.service →
        Does K.seen H.service (IsFounded written) old new }
{}
