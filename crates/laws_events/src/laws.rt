//! What holds of the events of services: each law is the contract of a function with nothing to do.

ghost use Rattle.std.specs.Prelude.{◌≡◌, Bool, Some, true};
ghost use Rattle.stomp_frame.specs.Frames.{Content};
ghost use Rattle.envelope.specs.Reading.{read_frame};
ghost use Rattle.envelope.specs.declared.message.Envelope.{Envelope};
ghost use Rattle.schedule_mail.specs.Mails.{Mail};
ghost use Rattle.laws_mail.specs.Passing.{passing};
ghost use Rattle.laws_events.specs.Laws.{EventPasses, FirstKeeps};
ghost use Rattle.laws_events.specs.Three.{Genuine};
ghost use Rattle.schedule_text.specs.declared.event.ConnectionNumber.{ConnectionNumber};
ghost use Rattle.schedule_service.specs.Deeds.{CameOn, channels_of};
ghost use Rattle.schedule_service.specs.declared.site.Site.{Site};

use activities::Handler;
use keep::Keep;

/// Where all envelopes on their way and in the broker pass a test, they do so behind an event of one service, if what
/// is true by its journal then passes. Its connections have the texts that are on their way, and those of other
/// connections are as they were.
pub fn each_event_makes_nothing_up<H, K>()
where
    H: Handler,
    K: Keep<State = H::State, Command = H::Command> + Drop,
    ensures { (test : Envelope → Bool) (s t : Site H K H.State H.Command) (from to : Mail)
        → EventPasses K.seen H.service test s t from to }
{}

/// The same of three services over one broker, of which one acts. Which of them is the first doesn't count.
pub fn one_of_three_makes_nothing_up<H, K, I, L, J, M>()
where
    H: Handler,
    K: Keep<State = H::State, Command = H::Command> + Drop,
    I: Handler,
    L: Keep<State = I::State, Command = I::Command> + Drop,
    J: Handler,
    M: Keep<State = J::State, Command = J::Command> + Drop,
    ensures acts { (test : Envelope → Bool) (s t : Site H K H.State H.Command) (b : Site I L I.State I.Command)
        (c : Site J M J.State J.Command) (from to : Mail) → FirstKeeps K.seen H.service test s t from to b c }
    ensures turned { (test : Envelope → Bool) (a : Site H K H.State H.Command) (b : Site I L I.State I.Command)
        (c : Site J M J.State J.Command) (o : Mail) → Genuine (passing test) a b c o
        → Genuine (passing test) b c a o }
{}

/// The envelope of a frame that came on a connection of a service passes.
pub fn what_comes_passes<H, K, I, L, J, M>()
where
    H: Handler,
    K: Keep<State = H::State, Command = H::Command> + Drop,
    I: Handler,
    L: Keep<State = I::State, Command = I::Command> + Drop,
    J: Handler,
    M: Keep<State = J::State, Command = J::Command> + Drop,
    ensures { (test : Envelope → Bool) (a : Site H K H.State H.Command) (b : Site I L I.State I.Command)
        (c : Site J M J.State J.Command) (o : Mail) → Genuine (passing test) a b c o
        → (number : ConnectionNumber) (f : Content) → CameOn (channels_of a number) f
        → (e : Envelope) → read_frame f ≡ Some e → test e ≡ true }
{}
