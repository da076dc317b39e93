//! A frame that is taken is a step where what it carries was written, or it carries nothing, by the contract of
//! `reception::take_frame` alone; and so is a held letter that is handled, by that of `reception::drain`. Each law is
//! the contract of a function with nothing to do.

ghost use Rattle.std.specs.Prelude.{◌≡◌, ◌≤◌, ℕ, List, Option, Some, Result, Ok};
ghost use Rattle.stomp_frame.specs.Frames.{Content};
ghost use Rattle.envelope.specs.Reading.{read_frame};
ghost use Rattle.envelope.specs.declared.message.Envelope.{Envelope};
ghost use Rattle.envelope.specs.declared.message.Envelope.TheVariants as envelope;
ghost use Rattle.envelope.specs.declared.message.Letter.{Letter};
ghost use Rattle.endpoint.specs.Calls.{ComesBy, StillMatches};
ghost use Rattle.reception.specs.Deeds.{TakeMay};
ghost use Rattle.reception.specs.Draining.{DrainsMay};
ghost use Rattle.reception.specs.declared.fault.ReceptionFault.{ReceptionFault};
ghost use Rattle.reception.specs.declared.taken.Drained.{Drained};
ghost use Rattle.reception.specs.declared.taken.Taken.{Taken};
ghost use Rattle.reception.specs.declared.taken.Taken.TheVariants.{Handled, Repeated};
// `CarriesWritten` is all that is asked of a broker. Nothing says that a frame comes, or that it comes once: so loss,
// repetition and another order need no case of their own.
ghost use Rattle.laws_services.specs.Frames.{CarriesWritten, IsOfLetter};
ghost use Rattle.laws_services.specs.Steps.{IsFounded, Does, TakesLetter, MayWrite};

use activities::Handler;
use keep::Keep;

/// A frame that carries an envelope that was written, or none: a step, whatever it is answered. A letter that is
/// handled, was handled before or is held, is taken; and the settle that is told may be written.
pub fn frames_are_steps<H, K>()
where
    H: Handler,
    K: Keep<State = H::State, Command = H::Command>,
    ensures does { (old new : K) (written : List Envelope) (f : Content) (result : Result Taken ReceptionFault) →
        (K.seen old).doubt ≤ (K.seen new).doubt → ComesBy K.seen old new H.service (TakeMay H.service f result) →
        StillMatches K.seen old new H.service → CarriesWritten written f →
        Does K.seen H.service (IsFounded written) old new }
    ensures takes { (old new : K) (f : Content) (taken : Taken) (l : Letter) →
        ComesBy K.seen old new H.service (TakeMay H.service f (Ok taken)) → IsOfLetter taken →
        read_frame f ≡ Some (envelope.Letter l) → TakesLetter K.seen H.service l old new }
    ensures handled { (old new : K) (f : Content) (position : ℕ) (l : Letter) →
        ComesBy K.seen old new H.service (TakeMay H.service f (Ok (Handled position))) →
        read_frame f ≡ Some (envelope.Letter l) → MayWrite K.seen H.service old new (envelope.Settle l.pair l.number) }
    ensures repeated { (old new : K) (f : Content) (number : ℕ) (l : Letter) →
        ComesBy K.seen old new H.service (TakeMay H.service f (Ok (Repeated number))) →
        read_frame f ≡ Some (envelope.Letter l) → MayWrite K.seen H.service old new (envelope.Settle l.pair number) }
{}

/// A letter that was held, or none: a step, whatever it is answered; and the settle that is told may be written.
pub fn held_letters_are_steps<H, K>()
where
    H: Handler,
    K: Keep<State = H::State, Command = H::Command>,
    ensures does { (old new : K) (written : List Envelope) (result : Result (Option Drained) ReceptionFault) →
        (K.seen old).doubt ≤ (K.seen new).doubt → ComesBy K.seen old new H.service (DrainsMay H.service result) →
        StillMatches K.seen old new H.service → Does K.seen H.service (IsFounded written) old new }
    ensures handled { (old new : K) (drained : Drained) →
        ComesBy K.seen old new H.service (DrainsMay H.service (Ok (Some drained))) →
        MayWrite K.seen H.service old new (envelope.Settle drained.pair drained.number) }
{}
