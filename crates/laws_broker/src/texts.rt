//! The laws of what a broker and its clients write to each other.
//!
//! Each function does nothing when it is called: its contract is the law.

ghost use Rattle.laws_broker.specs.Carried.{ClientsAskForAcks, ReadMessagesWereSent, ReceiptsWereAsked};
ghost use Rattle.laws_broker.specs.Carried.{WrittenAreHandled};
ghost use Rattle.laws_broker.specs.Conversations.{BrokersAreRead, ClientsTakeAll};
ghost use Rattle.laws_broker.specs.Lifetime.{NothingIsRefused};
ghost use Rattle.laws_broker.specs.Written.{BrokersSpeak};

/// What is written for a session, from a new broker and over any calls, is frames: those octets that were taken and
/// those that weren't are the canonical texts of frames, one behind the other. They are CONNECTED, then MESSAGEs and
/// RECEIPTs in any order, and at the end one ERROR, if any; where the session isn't connected, the ERROR alone, or
/// nothing yet.
///
/// Each MESSAGE brings what a SEND brought that some session handled, with its headers and its body, and goes to a
/// subscription that this session asked for and to its destination: it has `destination`, `message-id` and
/// `subscription`, and an `ack` exactly where the acknowledge mode isn't `auto` (STOMP 1.2, section "MESSAGE"). The
/// RECEIPTs are those that the handled frames ask for, each once and in order; where an ERROR has closed the session,
/// the last may be missing.
pub fn what_is_written_is_frames()
    ensures { BrokersSpeak }
{}

/// A decoder at the other end of a wire reads exactly what a broker wrote, however the octets are cut on their way:
/// what it gave is the first of the frames that were written for the session, in order and nothing else, and it awaits
/// the others from what is held, what is on its way and what wasn't taken yet.
pub fn what_a_broker_wrote_is_read()
    ensures { BrokersAreRead }
{}

/// A client never meets a frame that it refuses: one that is connecting at the first frame accepts each that is read,
/// as an event. It has to ask for no subscription of mode `auto`, since it wants an `ack` on each MESSAGE, and each
/// RECEIPT has to be one that is open. Between two frames it may do all but change its stage. `T` is the type of the
/// tags of its receipts.
pub fn what_a_broker_wrote_is_taken<T>()
    ensures { ClientsTakeAll T }
{}

/// A client for which only the calls of a client's session write asks for no subscription of mode `auto`.
pub fn clients_ask_for_acks()
    ensures { ClientsAskForAcks }
{}

/// What a session handled is what its client wrote: where the session was fed what came over a wire from a client, the
/// frames that it handled are the first of those that the client wrote, each once and in order, however they were cut
/// on their way and whatever else was done with the broker.
pub fn what_a_client_wrote_is_handled()
    ensures { WrittenAreHandled }
{}

/// The RECEIPTs that a client reads are the first of those that its own frames ask for, each once and in order: none is
/// told that it didn't ask for, none twice, and none before another one that it asked for earlier.
pub fn each_receipt_was_asked_for()
    ensures { ReceiptsWereAsked }
{}

/// So a client never meets a frame that it refuses, whatever it writes and whenever it reads: from its CONNECT on and
/// until it disconnects, it accepts each frame that it reads as an event, where these were written by a broker that was
/// fed what it wrote so far. The SENDs that it writes have to be such as a server takes. `T` is the type of the tags of
/// its receipts.
pub fn a_client_refuses_nothing<T>()
    ensures { NothingIsRefused T }
{}

/// From client to client: where each session is fed what a client wrote, each MESSAGE that is read of a session brings
/// what a SEND of one of the clients brought, to the same destination, with its own headers behind those of the broker,
/// and with its body.
pub fn each_message_was_sent()
    ensures { ReadMessagesWereSent }
{}
