//! What the calls tell: each law is the contract of a function with nothing to do.

ghost use Rattle.shared_endpoint.specs.Promises.{CommitsAreOneThreads, ViewsAreOneThreads, LengthsAreOneThreads};
ghost use Rattle.shared_endpoint.specs.Promises.{IngestsAreOneThreads, DrainsAreOneThreads, SettlesAreOneThreads};
ghost use Rattle.shared_endpoint.specs.Promises.{GroupsAreOneThreads, HandledIsTheLists, UnsettledAreAboveMarks};
ghost use Rattle.shared_endpoint.specs.Promises.{JournalsAreOneThreads};
ghost use Rattle.shared_endpoint.specs.Promises.{ClosesToOneHistory, FailuresAreCounted, FailuresAreForGood, TokensStayGood};
ghost use Rattle.shared_endpoint.specs.Promises.{WitnessesAreBorneOut, FailedCallsAreTheLast, FailedCommitsAreFoundOnce};

use activities::Handler;
use keep::Keep;

/// A seat's commit is answered as one thread is at a journal that begins with the one that the seat has seen and has
/// exactly its list; `Committed` adds the row to both.
pub fn commits_are_one_threads<H, K>()
where
    H: Handler,
    K: Keep<State = H::State, Command = H::Command> + Drop,
    ensures { CommitsAreOneThreads K.seen H.service }
{}

/// A view gives the entity's row at such a journal, which the seat has then seen.
pub fn views_are_one_threads<H, K>()
where
    H: Handler,
    K: Keep<State = H::State, Command = H::Command> + Drop,
    ensures { ViewsAreOneThreads K.seen H.service }
{}

/// A length is that of such a journal.
pub fn lengths_are_one_threads<H, K>()
where
    H: Handler,
    K: Keep<State = H::State, Command = H::Command> + Drop,
    ensures { LengthsAreOneThreads K.seen H.service }
{}

/// A letter is answered by its number and by how many of its pair were handled, over such a journal and the Hand's own
/// held letters.
pub fn ingests_are_one_threads<H, K>()
where
    H: Handler,
    K: Keep<State = H::State, Command = H::Command> + Drop,
    ensures { IngestsAreOneThreads K.seen H.service }
{}

/// A held letter is handled where it is the next of its pair, over the same.
pub fn drains_are_one_threads<H, K>()
where
    H: Handler,
    K: Keep<State = H::State, Command = H::Command> + Drop,
    ensures { DrainsAreOneThreads K.seen H.service }
{}

/// A settle is answered by what such a journal sends, and raises the Hand's own mark.
pub fn settles_are_one_threads<H, K>()
where
    H: Handler,
    K: Keep<State = H::State, Command = H::Command> + Drop,
    ensures { SettlesAreOneThreads K.seen H.service }
{}

/// The letters and settles of a group are answered one after another as each alone is, and the Hand's list has the row of
/// each letter more.
pub fn groups_are_one_threads<H, K>()
where
    H: Handler,
    K: Keep<State = H::State, Command = H::Command> + Drop,
    ensures { GroupsAreOneThreads K.seen H.service }
{}

/// The letters of a pair that were handled are those of the Hand's list.
pub fn handled_is_the_lists<H, K>()
where
    H: Handler,
    K: Keep<State = H::State, Command = H::Command> + Drop,
    ensures { HandledIsTheLists K.seen H.service }
{}

/// The Scout gets what such a journal sends above some marks, none of which is below one that it has seen: each letter
/// that is asked for, and no other.
pub fn unsettled_are_above_marks<H, K>()
where
    H: Handler,
    K: Keep<State = H::State, Command = H::Command> + Drop,
    ensures { UnsettledAreAboveMarks K.seen H.service }
{}

/// The Scout gets rows of such a journal: those from a position on, as many as are asked for, or all of them.
pub fn journals_are_one_threads<H, K>()
where
    H: Handler,
    K: Keep<State = H::State, Command = H::Command> + Drop,
    ensures { JournalsAreOneThreads K.seen H.service }
{}

/// `StoreFailed` and `Unusable` are answered only where a failure was counted since the lock was opened, or the
/// endpoint wasn't usable then.
pub fn failures_are_counted<H, K>()
where
    H: Handler,
    K: Keep<State = H::State, Command = H::Command> + Drop,
    ensures { FailuresAreCounted K.seen H.service }
{}

/// Behind either of them all that the token gets is `Unusable`.
pub fn failures_are_for_good<H, K>()
where
    H: Handler,
    K: Keep<State = H::State, Command = H::Command> + Drop,
    ensures { FailuresAreForGood K.seen H.service }
{}

/// The call that met the store's failure was the last that the store did: what is found in the end is what this call left,
/// at an endpoint that had exactly the token's list, whatever others asked for meanwhile.
pub fn failed_calls_are_the_last<H, K>()
where
    H: Handler,
    K: Keep<State = H::State, Command = H::Command> + Drop,
    ensures { FailedCallsAreTheLast K.seen H.service }
{}

/// So a commit that was answered `StoreFailed` is found once at most, and no other row of its seat beside those that the seat
/// knows.
pub fn failed_commits_are_found_once<H, K>()
where
    H: Handler,
    K: Keep<State = H::State, Command = H::Command> + Drop,
    ensures { FailedCommitsAreFoundOnce K.seen H.service }
{}

/// A token that was made of good tables stays good: so the other laws hold of all its calls.
pub fn tokens_stay_good<H, K>()
where
    H: Handler,
    K: Keep<State = H::State, Command = H::Command> + Drop,
    ensures { TokensStayGood K.seen H.service }
{}

/// What was shown to the Hand is so of the journal that it has seen after its next answer: that begins with each journal
/// that a witness knows, and no settled mark is lower than one of these.
pub fn witnesses_are_borne_out<H, K>()
where
    H: Handler,
    K: Keep<State = H::State, Command = H::Command> + Drop,
    ensures { WitnessesAreBorneOut K.seen H.service }
{}

/// What `close` gives is one history: its journal begins with each that a token has seen or that was shown to one, consists
/// of the tokens' lists and of no other rows, and its marks and held letters are the Hand's; where the store failed, with
/// one deed more at most.
pub fn closes_to_one_history<H, K>()
where
    H: Handler,
    K: Keep<State = H::State, Command = H::Command> + Drop,
    ensures { ClosesToOneHistory K.seen H.service }
{}
