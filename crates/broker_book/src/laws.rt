//! What follows of the steps.
//!
//! Each function does nothing when it is called: its contract is the law.

ghost use Rattle.broker_book.specs.Known.{DeliveriesAreKnown};
ghost use Rattle.broker_book.specs.Laws.{ActionsAreRuns, BooksAreOrderly, DealsAreRuns, EachIsAcceptedOnce};
ghost use Rattle.broker_book.specs.Laws.{EachIsAsPut};
ghost use Rattle.broker_book.specs.Laws.{MessagesAreKept, NothingIsLost, RunsJoin};

/// What goes out was put in: whatever holds of each living message's SEND holds of each one that is delivered, and of
/// what lives then.
pub fn deliveries_are_known()
    ensures { DeliveriesAreKnown }
{}

/// What a dispatch delivers is a run of deals, and what a session's actions do together, as a COMMIT's, is a run that
/// shows each of them in order. A run and one after it are a run.
pub fn steps_are_runs()
    ensures deals { DealsAreRuns }
    ensures actions { ActionsAreRuns }
    ensures joined { RunsJoin }
{}

/// After any run from the empty book: messages are in order of their numbers; no delivery number is out twice, and none
/// that wasn't given; what is out is out to a subscription that is there; and no session has two subscriptions of one
/// name.
pub fn books_are_orderly()
    ensures { BooksAreOrderly }
{}

/// After any run from the empty book, nothing is lost and nothing is there twice: each number from 1 to the last is
/// that of exactly one living message, or of one that was ended, by an ACK that covered it or by going out in mode
/// `auto`, and never of both. So a message that wants an ACK and got none is never lost while the broker lives.
pub fn nothing_is_lost()
    ensures kept { MessagesAreKept }
    ensures lives { NothingIsLost }
{}

/// Along any run from the empty book, the accepted SENDs that were taken and those that weren't yet are exactly the
/// SENDs that were put, in order, with the numbers 1, 2 and so on up to the last.
pub fn each_is_accepted_once()
    ensures { EachIsAcceptedOnce }
{}

/// Along any run from the empty book, messages stay what they were put as: whatever holds of each SEND that was put,
/// with its number, holds of each living message, and of each that was delivered. So a number always stands for one
/// SEND, the one that it was given to.
pub fn each_is_as_put()
    ensures { EachIsAsPut }
{}
