//! What a request does to the queues and to the transactions of its session.

ghost use Rattle.std.specs.Prelude.{◌≡◌, ℕ, List, true, false, IfOk};
ghost use Rattle.broker_book.specs.Books.{Book};
ghost use Rattle.broker_tx.specs.Transactions.{Transaction, actions_of};
ghost use Rattle.broker_core.specs.Parts.Asked.{is_ready, is_send, request_in, send_in};
ghost use Rattle.broker_core.specs.Parts.Taking.{Performs, lifted, lifted_transaction};
ghost use Rattle.broker_core.specs.Performing.{reach, performed, kept, commit_done, unanswered_number};
ghost use Rattle.broker_core.specs.Performing.{unsubscribe_done};
ghost use Rattle.text.specs.Numerals.{number_of};

use crate::FrameRefusal;
use crate::asked::{Form, SharedSend};
use crate::fault::HandlerFault;
use crate::words::{is_destination, read_mode, read_number};
use base::limits::MAX_SUBSCRIPTIONS;
use broker_book::{Action, Mode, QueueFault, Shared, Subscription};
use broker_queues::Queues;
use broker_tx::{TransactionFault, Transactions};
use std::alloc::{AllocError, Global};
use stomp_session::{Acknowledge, Request, Subscribe, Text};

/// Does a request of a session, or changes nothing.
pub fn perform<const FULL: usize>(
    alloc: Global,
    queues: &mut Queues<FULL>,
    transactions: &mut Transactions,
    session: u64,
    form: &Form,
) -> Result<(), HandlerFault>
    requires { is_ready form.now ≡ true }
    ensures { Performs (performed FULL session (reach queues.old transactions.old) (request_in form.now))
        (reach queues.old transactions.old) (reach queues.new transactions.new) result }
{
    match form {
        Form::Whole(request) => perform_whole(alloc, queues, transactions, session, request),
        Form::Shared(send) => put(queues, transactions, send),
    }
}

/// Does a request that isn't a SEND, or changes nothing.
fn perform_whole<const FULL: usize>(
    alloc: Global,
    queues: &mut Queues<FULL>,
    transactions: &mut Transactions,
    session: u64,
    request: &Request,
) -> Result<(), HandlerFault>
    requires { is_send request.now ≡ false }
    ensures { Performs (performed FULL session (reach queues.old transactions.old) request.now)
        (reach queues.old transactions.old) (reach queues.new transactions.new) result }
{
    match request {
        Request::Connect(_) => Ok(()),
        // A SEND comes in its shared form.
        Request::Send(_) => unreachable!(),
        Request::Subscribe(asked) => subscribe(alloc, queues, session, asked),
        Request::Unsubscribe(asked) => unsubscribe(queues, session, &asked.id),
        Request::Ack(asked) => ack(queues, transactions, session, asked),
        Request::Nack(asked) => nack(queues, transactions, session, asked),
        Request::Begin(asked) => lift_transaction(transactions.begin(alloc, &asked.transaction)),
        Request::Commit(asked) => commit(queues, transactions, session, &asked.transaction),
        Request::Abort(asked) => lift_transaction(transactions.abort(&asked.transaction)),
        Request::Disconnect(_) => Ok(()),
    }
}

fn lift(answer: Result<(), QueueFault>) -> Result<(), HandlerFault>
    ensures { result ≡ lifted answer }
{
    match answer {
        Ok(()) => Ok(()),
        // Only this one isn't a refusal: the frame waits, and is tried again.
        Err(QueueFault::Memory) => Err(HandlerFault::Memory),
        Err(QueueFault::NoSuchAck) => Err(HandlerFault::Refused(FrameRefusal::NoSuchAck)),
        Err(QueueFault::QueueFull) => Err(HandlerFault::Refused(FrameRefusal::QueueFull)),
        Err(QueueFault::TooMany) => Err(HandlerFault::Refused(FrameRefusal::TooMany)),
    }
}

fn lift_transaction(answer: Result<(), TransactionFault>) -> Result<(), HandlerFault>
    ensures { result ≡ lifted_transaction answer }
{
    match answer {
        Ok(()) => Ok(()),
        Err(TransactionFault::Memory) => Err(HandlerFault::Memory),
        Err(TransactionFault::TransactionExists) => {
            Err(HandlerFault::Refused(FrameRefusal::TransactionExists))
        }
        Err(TransactionFault::NoTransaction) => {
            Err(HandlerFault::Refused(FrameRefusal::NoTransaction))
        }
        Err(TransactionFault::TooMany) => Err(HandlerFault::Refused(FrameRefusal::TooMany)),
    }
}

/// Keeps an action until the end of its transaction.
fn keep(transactions: &mut Transactions, name: &Text, action: Action) -> Result<(), HandlerFault>
    ensures { (book : Book) → Performs (kept (reach book transactions.old) name.now action)
        (reach book transactions.old) (reach book transactions.new) result }
{
    lift_transaction(transactions.add(name, action))
}

/// Accepts a SEND, or keeps it until the end of its transaction.
fn put<const FULL: usize>(
    queues: &mut Queues<FULL>,
    transactions: &mut Transactions,
    send: &SharedSend,
) -> Result<(), HandlerFault>
    ensures { (session : ℕ) → Performs (performed FULL session (reach queues.old transactions.old) (send_in send.now))
        (reach queues.old transactions.old) (reach queues.new transactions.new) result }
{
    // Before the transaction is looked at, so that at a COMMIT no destination is refused any more.
    if !is_destination(&send.sent.get().destination) {
        return Err(HandlerFault::Refused(FrameRefusal::BadDestination));
    }
    match &send.transaction {
        None => lift(queues.put(&send.sent)),
        Some(name) => match send.sent.share() {
            Ok(sent) => keep(transactions, name, Action::Put(sent)),
            // It has too many owners to count: reported as out of memory.
            Err(_) => Err(HandlerFault::Memory),
        },
    }
}

/// The subscription that a SUBSCRIBE asks for: its texts are copied.
fn subscription(
    alloc: Global,
    session: u64,
    asked: &Subscribe,
    mode: Mode,
) -> Result<Subscription, AllocError>
    ensures { IfOk result (λ s. s ≡ record {
      session = session;
      id = asked.now.id;
      destination = asked.now.destination;
      mode = mode;
    }) }
{
    Ok(Subscription {
        session,
        // Copied once and shared: each delivery takes a share of the name.
        id: Shared::new(alloc, asked.id.copy(alloc)?)?,
        destination: Shared::new(alloc, asked.destination.copy(alloc)?)?,
        mode,
    })
}

fn subscribe<const FULL: usize>(
    alloc: Global,
    queues: &mut Queues<FULL>,
    session: u64,
    asked: &Subscribe,
) -> Result<(), HandlerFault>
    ensures { (transactions : List Transaction)
        → Performs (performed FULL session (reach queues.old transactions) (Request.Subscribe asked.now))
        (reach queues.old transactions) (reach queues.new transactions) result }
{
    // What the frame says comes before what the session has; the limit is last, so that one too many is told only where
    // all else is well.
    if !is_destination(&asked.destination) {
        return Err(HandlerFault::Refused(FrameRefusal::BadDestination));
    }
    let Some(mode) = read_mode(asked.ack_mode()) else {
        return Err(HandlerFault::Refused(FrameRefusal::BadAckMode));
    };
    if queues.has_named(session, &asked.id) {
        return Err(HandlerFault::Refused(FrameRefusal::SubscriptionExists));
    }
    if queues.count_of(session) >= MAX_SUBSCRIPTIONS {
        return Err(HandlerFault::Refused(FrameRefusal::TooMany));
    }
    let Ok(subscription) = subscription(alloc, session, asked, mode) else {
        return Err(HandlerFault::Memory);
    };
    match queues.subscribe(&subscription) {
        Ok(()) => Ok(()),
        Err(_) => Err(HandlerFault::Memory),
    }
}

fn unsubscribe<const FULL: usize>(
    queues: &mut Queues<FULL>,
    session: u64,
    id: &Text,
) -> Result<(), HandlerFault>
    ensures { (transactions : List Transaction)
        → Performs (unsubscribe_done (reach queues.old transactions) session id.now)
        (reach queues.old transactions) (reach queues.new transactions) result }
{
    if !queues.has_named(session, id) {
        return Err(HandlerFault::Refused(FrameRefusal::NoSubscription));
    }
    queues.release(session, id);
    Ok(())
}

/// The number of an unanswered delivery to a session.
fn unanswered<const FULL: usize>(queues: &Queues<FULL>, session: u64, id: &Text) -> Option<u64>
    ensures { result ≡ unanswered_number queues.now session (number_of id.now) }
{
    let number = read_number(id)?;
    if queues.holds(session, number) {
        Some(number)
    } else {
        None
    }
}

fn ack<const FULL: usize>(
    queues: &mut Queues<FULL>,
    transactions: &mut Transactions,
    session: u64,
    asked: &Acknowledge,
) -> Result<(), HandlerFault>
    ensures { Performs (performed FULL session (reach queues.old transactions.old) (Request.Ack asked.now))
        (reach queues.old transactions.old) (reach queues.new transactions.new) result }
{
    let Some(name) = &asked.transaction else {
        // Whether the delivery is out isn't asked before: the answer itself finds that, by one search.
        return match read_number(&asked.id) {
            Some(number) => lift(queues.ack(session, number)),
            None => Err(HandlerFault::Refused(FrameRefusal::NoSuchAck)),
        };
    };
    if !transactions.has(name) {
        return Err(HandlerFault::Refused(FrameRefusal::NoTransaction));
    }
    match unanswered(queues, session, &asked.id) {
        Some(number) => keep(transactions, name, Action::Ack(number)),
        None => Err(HandlerFault::Refused(FrameRefusal::NoSuchAck)),
    }
}

fn nack<const FULL: usize>(
    queues: &mut Queues<FULL>,
    transactions: &mut Transactions,
    session: u64,
    asked: &Acknowledge,
) -> Result<(), HandlerFault>
    ensures { Performs (performed FULL session (reach queues.old transactions.old) (Request.Nack asked.now))
        (reach queues.old transactions.old) (reach queues.new transactions.new) result }
{
    let Some(name) = &asked.transaction else {
        return match read_number(&asked.id) {
            Some(number) => lift(queues.nack(session, number)),
            None => Err(HandlerFault::Refused(FrameRefusal::NoSuchAck)),
        };
    };
    if !transactions.has(name) {
        return Err(HandlerFault::Refused(FrameRefusal::NoTransaction));
    }
    match unanswered(queues, session, &asked.id) {
        Some(number) => keep(transactions, name, Action::Nack(number)),
        None => Err(HandlerFault::Refused(FrameRefusal::NoSuchAck)),
    }
}

/// Carries a transaction out, all of it or nothing, and ends it.
fn commit<const FULL: usize>(
    queues: &mut Queues<FULL>,
    transactions: &mut Transactions,
    session: u64,
    name: &Text,
) -> Result<(), HandlerFault>
    ensures { Performs (commit_done FULL (reach queues.old transactions.old) session name.now
        (actions_of transactions.old name.now))
        (reach queues.old transactions.old) (reach queues.new transactions.new) result }
{
    let Some(actions) = transactions.actions(name) else {
        return Err(HandlerFault::Refused(FrameRefusal::NoTransaction));
    };
    match queues.apply(session, actions) {
        // Ended last: where the actions find no memory, the COMMIT is tried again with all of them.
        Ok(()) => lift_transaction(transactions.commit(name)),
        Err(fault) => lift(Err(fault)),
    }
}
