//! What holds of all requests and of all that a server writes.
//!
//! Each function does nothing when it is called: its contract is the law.

ghost use Rattle.std.specs.Prelude.{◌≡◌, ◌≢◌, Bool, List, ℕ, Option};
ghost use Rattle.base.specs.declared.limits.TheConstants.{MAX_BODY};
ghost use Rattle.stomp_frame.specs.Frames.{Content, IsFrame};
ghost use Rattle.stomp_session.specs.Fitting.{Fits};
ghost use Rattle.stomp_session.specs.Replies.{Delivered, IsEchoed, IsEchoedIfAny, IsGiven, IsTold};
ghost use Rattle.stomp_session.specs.Replies.{connected_frame, error_frame, message_frame, receipt_frame, receipt_told};
ghost use Rattle.stomp_session.specs.Requests.{receipt_of, request_of};
ghost use Rattle.stomp_session.specs.declared.fault.SessionFault.TheVariants.{Memory};
ghost use Rattle.stomp_session.specs.declared.request.Request.{Request};

/// No frame is refused out of memory: to accept one allocates nothing.
pub fn accepting_wants_no_memory()
    ensures { (connected : Bool) (f : Content) → request_of connected f ≢ Err Memory }
{}

/// What a server tells again of an accepted request has at most 128 octets and no NUL, and a MESSAGE can carry what a
/// SEND brings.
pub fn accepted_requests_fit()
    ensures { (connected : Bool) (f : Content) (request : Request) → IsFrame MAX_BODY f
        → request_of connected f ≡ Ok request
        → Fits request }
{}

/// The receipt that an accepted request asks for is the one that an ERROR about its frame tells.
pub fn requests_ask_for_the_receipt_told()
    ensures { (connected : Bool) (f : Content) (request : Request) → request_of connected f ≡ Ok request
        → receipt_of request ≡ receipt_told f }
{}

/// The receipt that an ERROR about any frame tells has at most 128 octets and no NUL.
pub fn receipts_told_are_short()
    ensures { (f : Content) → IsFrame MAX_BODY f → IsEchoedIfAny (receipt_told f) }
{}

/// CONNECTED is a frame, and so is the RECEIPT of each value that may be echoed.
pub fn confirmations_are_frames()
    ensures connected { IsFrame MAX_BODY connected_frame }
    ensures receipt { (receipt : List ℕ) → IsEchoed receipt → IsFrame MAX_BODY (receipt_frame receipt) }
{}

/// The ERROR of each fault, with a receipt or without one, is a frame.
pub fn errors_are_frames()
    ensures { (number : ℕ) (name : List ℕ) (receipt : Option (List ℕ)) → IsGiven number → IsEchoed name
        → IsEchoedIfAny receipt
        → IsFrame MAX_BODY (error_frame number name receipt) }
{}

/// The MESSAGE of each delivery is a frame: 28 headers of the SEND fit after those of the server.
pub fn messages_are_frames()
    ensures { (d : Delivered) → IsTold d → IsFrame MAX_BODY (message_frame d) }
{}
