//! What the SENDs of a service carry: each law is the contract of a function with nothing to do.

ghost use Rattle.std.specs.Prelude.{◌≡◌, ℕ, Some};
ghost use Rattle.envelope.specs.Reading.{HaveSameValues, read_frame};
ghost use Rattle.envelope.specs.Written.{IsEnvelope, send_of};
ghost use Rattle.envelope.specs.declared.message.Envelope.{Envelope};
ghost use Rattle.laws_lives.specs.Posts.{sent_in};
ghost use Rattle.stomp_client.specs.Frames.{in_transaction, with_receipt};
ghost use Rattle.stomp_frame.specs.Frames.{Content};
ghost use Rattle.stomp_frame.specs.declared.command.Command.TheVariants.{Message, Send};

/// A SEND carries the envelope that it was written for, with a receipt or in a transaction; with a receipt it carries no other
/// in any case. A MESSAGE with the same values and the same body carries that too: so a broker that copies these hands on what
/// was written.
pub fn sends_carry_their_envelopes()
    ensures by_itself { (receipt : ℕ) (e : Envelope) → IsEnvelope e →
        sent_in (with_receipt receipt (send_of e)) ≡ Some e }
    ensures in_a_transaction { (transaction : ℕ) (e : Envelope) → IsEnvelope e →
        sent_in (in_transaction (Some transaction) (send_of e)) ≡ Some e }
    ensures no_other { (receipt : ℕ) (d e : Envelope) → sent_in (with_receipt receipt (send_of d)) ≡ Some e → e ≡ d }
    ensures handed_on { (send message : Content) → send.command ≡ Send → message.command ≡ Message →
        HaveSameValues message.headers send.headers → message.body ≡ send.body →
        read_frame message ≡ sent_in send }
{}
