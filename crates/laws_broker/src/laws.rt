//! The laws of a broker's life.
//!
//! Each function does nothing when it is called: its contract is the law.

ghost use Rattle.laws_broker.specs.Deeds.{AcceptedWereSent, MessagesWereSent};
// From a frame's step over a call to a life: what is shown of runs of the book then holds of any broker that lived.
ghost use Rattle.laws_broker.specs.Runs.{AcceptedAreToldOnce, BrokersAreOrderly, CallsAreRuns, LivesAreRuns};
ghost use Rattle.laws_broker.specs.Runs.{MessagesWereAccepted};
ghost use Rattle.laws_broker.specs.Runs.{NoLifeLosesAny, NoneOvertakes, StepsAreRuns};
ghost use Rattle.laws_broker.specs.Streams.{LivesAreHandledInOrder, LivesFeedInTurn, OtherCallsLeaveIt};

/// What a decided frame makes of the book is a run of events of the book, along which no accepted SEND is taken and
/// nothing is handed out.
pub fn steps_are_runs()
    ensures { StepsAreRuns }
{}

/// What a call makes of the book is a run of events of the book, along which is taken what the call tells, and handed
/// out what it deals.
pub fn calls_are_runs()
    ensures { CallsAreRuns }
{}

/// So is what calls make of it, one after another, in the order in which they tell and deal.
pub fn lives_are_runs()
    ensures { LivesAreRuns }
{}

/// After any calls of a new broker: its messages stand in order of their numbers; no delivery number is out twice, and
/// none that wasn't given; what is out is out to a subscription that is there; and no session has two subscriptions of
/// one name.
pub fn books_stay_orderly()
    ensures { BrokersAreOrderly }
{}

/// Along any calls of a new broker: what `take_accepted` answered, call after call, and then what it would answer next,
/// are the accepted SENDs, each once and in order, with the numbers 1, 2 and so on up to the last.
pub fn accepted_sends_are_told_once()
    ensures { AcceptedAreToldOnce }
{}

/// Along any calls of a new broker each message that is handed out is the accepted SEND of its number, with its own
/// destination, headers and body; and so is each that the broker has.
pub fn messages_were_accepted()
    ensures { MessagesWereAccepted }
{}

/// Along any calls of a new broker each SEND is accepted at most once, at once or at the COMMIT of its transaction: no
/// more accepted SENDs pass a test than SEND frames that had their step.
pub fn accepted_sends_were_sent()
    ensures { AcceptedWereSent }
{}

/// Along any calls of a new broker each message that is handed out has the destination, the headers and the body of a
/// SEND frame that had its step: a broker makes up nothing.
pub fn messages_were_sent()
    ensures { MessagesWereSent }
{}

/// Along any calls of a new broker no message is lost: each number from 1 to the last is that of one message that the
/// broker has, or of one that an ACK covered, or of one that went out in mode `auto`, and of no two of these. And no
/// SEND, ACK or NACK is done more often than frames asked for it, those of its own session where it answers a delivery.
pub fn no_message_is_lost()
    ensures { NoLifeLosesAny }
{}

/// Along any calls of a new broker no message overtakes another of its queue: when one is handed out, each SEND of a
/// lower number that was accepted to the same destination had been handed out before. One that comes back may go out
/// again behind it.
pub fn no_message_overtakes()
    ensures { NoneOvertakes }
{}

/// A call of another session, and any but `feed` and `drop_session` of its own, leaves a session there: closed or not,
/// connected or not, and with what it was fed, as it was. So does a `feed` that took nothing.
pub fn other_calls_leave_a_session()
    ensures { OtherCallsLeaveIt }
{}

/// The pieces that a session took in calls, of which none takes it away, were fed to it in turn, whatever the calls
/// between did.
pub fn lives_feed_in_turn()
    ensures { LivesFeedInTurn }
{}

/// As long as a session isn't taken away, its frames that had their step are the first of all that it was fed since it
/// was opened, each once and in order, whatever other sessions did, and wherever memory was refused.
pub fn frames_are_handled_in_order_all_life()
    ensures { LivesAreHandledInOrder }
{}
