//! What holds of the envelopes on their way: each law is the contract of a function with nothing to do.

ghost use Rattle.std.specs.Prelude.{ℕ, Bool, List};
ghost use Rattle.envelope.specs.declared.message.Envelope.{Envelope};
ghost use Rattle.laws_mail.specs.Laws.{OpeningIsGood, CarryingUpIsGood, CarryingDownIsGood, TakingIsGood};
ghost use Rattle.laws_mail.specs.Laws.{WritingIsGood, CuttingIsGood};
ghost use Rattle.laws_mail.specs.Laws.{DealingIsGood, RepeatingIsGood, RestartingIsGood, NothingIsGood, SendsAreGood};
ghost use Rattle.laws_mail.specs.Laws.{OthersAreGood};
ghost use Rattle.laws_mail.specs.Laws.{ReadingPasses, MoreMayPass};

/// In a new mail nothing is on its way, so each envelope there passes any test.
pub fn nothing_is_on_its_way_at_first()
    ensures { (test : Envelope → Bool) → NothingIsGood test }
{}

/// Whatever texts are on their way to and from the sessions: where each envelope among them and in the mail passes a
/// test, the same is so behind each call of the mail and of a connection, whatever it answers, with the texts that the
/// connection has then. A frame that a connection gives is good. `E` is the type of what a call answers that was
/// refused memory.
pub fn each_call_makes_nothing_up<E>()
    ensures open { (test : Envelope → Bool) (up down : ℕ → List ℕ) → OpeningIsGood test up down }
    ensures carry_up { (test : Envelope → Bool) (up down : ℕ → List ℕ) → CarryingUpIsGood test up down }
    ensures carry_down { (test : Envelope → Bool) (up down : ℕ → List ℕ) → CarryingDownIsGood test up down }
    ensures next { (test : Envelope → Bool) (up down : ℕ → List ℕ) → TakingIsGood test up down }
    ensures write { (test : Envelope → Bool) (up down : ℕ → List ℕ) → WritingIsGood test up down }
    ensures cut { (test : Envelope → Bool) (up down : ℕ → List ℕ) → CuttingIsGood test up down E }
    ensures deals { (test : Envelope → Bool) (up down : ℕ → List ℕ) → DealingIsGood test up down E }
    ensures repeats { (test : Envelope → Bool) (up down : ℕ → List ℕ) → RepeatingIsGood test up down }
    ensures restarts { (test : Envelope → Bool) (up down : ℕ → List ℕ) → RestartingIsGood test up down }
{}

/// The SEND of an envelope that passes is good, also with the number of a receipt or of a transaction behind its
/// headers, and so is each frame that is no SEND and no MESSAGE.
pub fn what_is_written_is_good()
    ensures sends { SendsAreGood }
    ensures others { OthersAreGood }
{}

/// The envelope that is read of a good MESSAGE passes.
pub fn what_is_read_passes()
    ensures { ReadingPasses }
{}

/// Where more envelopes pass a test than another, what is good by this one is good by that.
pub fn more_may_pass()
    ensures { MoreMayPass }
{}
