//! A read is a step, and what it gave may be written: each law is the contract of a function with nothing to do.

ghost use Rattle.std.specs.Prelude.{◌≡◌, ◌≤◌, ℕ, List, Option, Some, Result, Ok, slice_get};
ghost use Rattle.std.specs.Global.{Vec};
ghost use Rattle.base.specs.declared.pair.Pair.{Pair};
ghost use Rattle.envelope.specs.declared.message.Envelope.{Envelope};
ghost use Rattle.envelope.specs.declared.message.Envelope.TheVariants as envelope;
ghost use Rattle.envelope.specs.declared.message.Letter.{Letter};
ghost use Rattle.keep.specs.declared.change.LetterPlace.{LetterPlace};
ghost use Rattle.keep.specs.Law.{Reads};
ghost use Rattle.keep.specs.Listing.{AreFirst};
ghost use Rattle.endpoint.specs.Calls.{Stays};
ghost use Rattle.endpoint.specs.Faults.{end_of};
ghost use Rattle.endpoint.specs.declared.fault.EndFault.{EndFault};
// A read changes nothing, but what it showed may be written afterwards: hence `Does` and `MayWrite`.
ghost use Rattle.laws_services.specs.Steps.{IsFounded, Does, MayWrite};

use activities::Handler;
use keep::Keep;

/// A call that leaves all contents as they were: a step.
pub fn reads_are_steps<H, K>()
where
    H: Handler,
    K: Keep<State = H::State, Command = H::Command>,
    ensures { (old new : K) (written : List Envelope) → (K.seen old).doubt ≤ (K.seen new).doubt →
        Stays K.seen old new → Does K.seen H.service (IsFounded written) old new }
{}

/// The first letters of the outbox after a place, as `unsettled` lists them: a step, whatever it is answered, and each
/// letter that is listed may be written.
pub fn listings_are_steps<H, K>()
where
    H: Handler,
    K: Keep<State = H::State, Command = H::Command>,
    ensures does { (old new : K) (written : List Envelope) (after : Option LetterPlace) (limit : ℕ)
        (result : Result (Vec Letter) EndFault) →
        Reads K.seen old new (λ t letters. AreFirst t.unsettled after limit letters.items) (end_of result) →
        Does K.seen H.service (IsFounded written) old new }
    ensures letters { (old new : K) (after : Option LetterPlace) (limit : ℕ) (result : Result (Vec Letter) EndFault)
        (letters : Vec Letter) (i : ℕ) (l : Letter) →
        Reads K.seen old new (λ t letters. AreFirst t.unsettled after limit letters.items) (end_of result) →
        result ≡ Ok letters → slice_get letters.items i ≡ Some l →
        MayWrite K.seen H.service old new (envelope.Letter l) }
{}

/// How many letters of a pair were handled, as `handled` counts them: a step, whatever it is answered, and a settle may
/// be written up to that count.
pub fn counts_are_steps<H, K>()
where
    H: Handler,
    K: Keep<State = H::State, Command = H::Command>,
    ensures does { (old new : K) (written : List Envelope) (p : Pair) (result : Result ℕ EndFault) →
        Reads K.seen old new (λ t n. n ≡ t.handled p) (end_of result) →
        Does K.seen H.service (IsFounded written) old new }
    ensures handled { (old new : K) (p : Pair) (result : Result ℕ EndFault) (count : ℕ) →
        Reads K.seen old new (λ t n. n ≡ t.handled p) (end_of result) → result ≡ Ok count →
        MayWrite K.seen H.service old new (envelope.Settle p count) }
{}
