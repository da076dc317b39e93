//! What holds of clients over any calls: each law is the contract of a function with nothing to do.

ghost use Rattle.std.specs.Prelude.{◌≡◌, ◌++◌, ℕ, List, [], ◌∷◌, Some, Ok, IsOk, true, false};
ghost use Rattle.std.specs.List.{AllByRecursion};
ghost use Rattle.base.specs.declared.limits.TheConstants.{MAX_BODY};
ghost use Rattle.stomp_frame.specs.Frames.{Content};
ghost use Rattle.stomp_frame.specs.Spelling.{NoFrame};
ghost use Rattle.stomp_frame.specs.Decoding.{Held};
ghost use Rattle.stomp_frame.specs.Awaiting.{Awaits};
ghost use Rattle.stomp_frame.specs.Calls.{DecoderCall, LeadsFromNew, fed, given};
ghost use Rattle.stomp_wire.specs.Travel.{Travels};
ghost use Rattle.stomp_session.specs.Requests.{request_of, asked};
ghost use Rattle.stomp_client.specs.Frames.{connect_frame};
ghost use Rattle.stomp_client.specs.Served.{answers_of, IsClients};
ghost use Rattle.stomp_client.specs.Written.{Wrote};

/// A session in which nothing was written wrote no frame. With the clauses `wrote` of its calls this says what was
/// written over any of them.
pub fn a_new_session_wrote_nothing()
    ensures { Wrote [] [] [] }
{}

/// What a client wrote is what a server's decoder gives, in order and nothing else, however its text is cut on the way.
/// The octets taken from the client were put on a wire, in any pieces; what was taken at the wire's other end was fed
/// to a decoder, in any pieces. Then the frames that the decoder gave are the first of those that the client wrote, and
/// it awaits the others from what is held, what was carried, what waits on the wire and what the client still has to
/// send. Where nothing is on its way and no frame is left to give, it gave them all.
pub fn what_a_client_wrote_is_read()
    ensures awaits { (frames : List Content) (gone out received waiting carried : List ℕ) (calls : List DecoderCall)
        (held : Held)
        → Wrote frames gone out → Travels gone received (Some waiting) (Some carried) → LeadsFromNew MAX_BODY calls held
        → fed calls ≡ received
        → (others : List Content) × (frames ≡ given calls ++ others)
        × Awaits MAX_BODY others held (carried ++ waiting ++ out) }
    ensures all { (frames : List Content) (gone received : List ℕ) (calls : List DecoderCall) (held : Held)
        → Wrote frames gone [] → Travels gone received (Some []) (Some []) → LeadsFromNew MAX_BODY calls held
        → fed calls ≡ received
        → NoFrame MAX_BODY held.octets → given calls ≡ frames }
{}

/// A server's session refuses nothing that a client writes, however its text is cut on the way: CONNECT connects it,
/// and each frame after that asks what it says. The calls have to be given what a server takes: a SEND with a
/// destination and at most 28 headers of its own, and a MESSAGE whose `ack` has at most 128 octets.
pub fn what_a_client_wrote_is_taken()
    ensures connect { request_of false connect_frame ≡ Ok (asked connect_frame) }
    ensures each { (f : Content) → IsClients f → request_of true f ≡ Ok (asked f) }
    ensures all { (frames : List Content) → AllByRecursion IsClients frames
        → AllByRecursion (λ answer. IsOk answer) (answers_of false (connect_frame ∷ frames)) }
    ensures read { (frames : List Content) (gone out received waiting carried : List ℕ) (calls : List DecoderCall)
        (held : Held)
        → AllByRecursion IsClients frames → Wrote (connect_frame ∷ frames) gone out
        → Travels gone received (Some waiting) (Some carried)
        → LeadsFromNew MAX_BODY calls held → fed calls ≡ received
        → AllByRecursion (λ answer. IsOk answer) (answers_of false (given calls)) }
{}
