//! The frames that a client writes.

ghost use Rattle.std.specs.Prelude.{◌≡◌, ◌<◌, None, true, false, length, codes, IfOk, OnOk, OnErr};
ghost use Rattle.std.specs.Option.{option_copied};
ghost use Rattle.std.specs.Fmt.{decimal};
ghost use Rattle.stomp_frame.specs.Commands.{is_exempt};
ghost use Rattle.stomp_frame.specs.Frames.{with_header, header};
ghost use Rattle.stomp_frame.specs.Building.{header_refused};
ghost use Rattle.stomp_client.specs.Frames.{connect_frame, connect_start, connect_frame_to, connect_refused, IsMadeUnless};
ghost use Rattle.stomp_client.specs.Frames.{with_given, given_refused, with_login, login_refused};
ghost use Rattle.stomp_client.specs.Frames.{subscribe_frame, subscribe_frame_with, transaction_frame, in_transaction};
ghost use Rattle.stomp_client.specs.Frames.{answer_frame, disconnect_frame, with_receipt, IsShort};
ghost use Rattle.stomp_client.specs.Delivered.{IsDelivered};
ghost use Rattle.stomp_client.specs.Parts.Names.{is_name};

use base::limits::MAX_BODY;
use itoa::Buffer;
use std::alloc::{AllocError, Global};
use stomp_frame::{Command, Frame, FrameFault};

/// Appends a header that the frame takes.
fn push(frame: &mut Frame<MAX_BODY>, name: &str, value: &str) -> Result<(), AllocError>
    requires { header_refused frame.old (header name.now value.now) ≡ None }
    ensures ok { OnOk result (frame.new ≡ with_header frame.old (header name.now value.now)) }
{
    match frame.push_header(name, value) {
        Ok(()) => Ok(()),
        Err(FrameFault::Memory) => Err(AllocError),
        // The caller has to see to it that the frame takes the header.
        Err(_) => unreachable!(),
    }
}

/// The frame with one more header, a number.
pub fn with_number(
    frame: Frame<MAX_BODY>,
    name: &str,
    number: u64,
) -> Result<Frame<MAX_BODY>, AllocError>
    requires plain { is_exempt frame.command ≡ false }
    requires room { length frame.headers < 32 }
    requires name { is_name name.now ≡ true }
    ensures { IfOk result (λ f. f ≡ with_header frame (header name.now (decimal number))) }
{
    let mut digits = Buffer::new();
    let mut frame = frame;
    push(&mut frame, name, digits.format(number))?;
    Ok(frame)
}

/// CONNECT (STOMP 1.2, section "CONNECT or STOMP Frame"), for version 1.2 and the host `outbox`.
pub fn connect_frame(alloc: Global) -> Result<Frame<MAX_BODY>, AllocError>
    ensures { IfOk result (λ f. f ≡ connect_frame) }
{
    let mut frame = Frame::new(alloc, Command::Connect);
    push(&mut frame, "accept-version", "1.2")?;
    push(&mut frame, "host", "outbox")?;
    Ok(frame)
}

/// The frame with one more header, where a value is given.
fn with_given(
    frame: Frame<MAX_BODY>,
    name: &str,
    value: Option<&str>,
) -> Result<Frame<MAX_BODY>, FrameFault>
    ensures { IsMadeUnless (given_refused name.now (option_copied value.entry) frame)
        (with_given name.now (option_copied value.entry) frame) result }
{
    let Some(value) = value else {
        return Ok(frame);
    };
    let mut frame = frame;
    // The value is a user's word, so it may be refused; the headers that `push` adds are the client's own.
    match frame.push_header(name, value) {
        Ok(()) => Ok(frame),
        Err(fault) => Err(fault),
    }
}

/// The frame with a login and a passcode, where they are given.
#[tactic(auto, using(crate::proofs::Making::stops, crate::proofs::Making::goes_on))]
fn with_login(
    frame: Frame<MAX_BODY>,
    login: Option<&str>,
    passcode: Option<&str>,
) -> Result<Frame<MAX_BODY>, FrameFault>
    ensures { IsMadeUnless (login_refused (option_copied login.entry) (option_copied passcode.entry) frame)
        (with_login (option_copied login.entry) (option_copied passcode.entry) frame) result }
{
    match with_given(frame, "login", login) {
        Ok(frame) => with_given(frame, "passcode", passcode),
        Err(fault) => Err(fault),
    }
}

/// The frame by which a client connects, before it names a host.
fn connect_start(alloc: Global) -> Result<Frame<MAX_BODY>, AllocError>
    ensures { IfOk result (λ f. f ≡ connect_start) }
{
    let mut frame = Frame::new(alloc, Command::Connect);
    push(&mut frame, "accept-version", "1.2")?;
    Ok(frame)
}

/// CONNECT for version 1.2 and a host of the broker, with a login and a passcode where they are given.
///
/// # Errors
/// `Memory` if an allocation fails, and else the first that applies to the host, the login and the passcode:
/// - `BadLine` where a NUL, CR or LF is in it: CONNECT has no escapes;
/// - `LineTooLong` where its line would have more than 1,024 octets.
#[tactic(auto, using(crate::proofs::Making::stops, crate::proofs::Making::goes_on))]
pub fn connect_frame_to(
    alloc: Global,
    host: &str,
    login: Option<&str>,
    passcode: Option<&str>,
) -> Result<Frame<MAX_BODY>, FrameFault>
    ensures { IsMadeUnless (connect_refused host.now (option_copied login.entry) (option_copied passcode.entry))
        (connect_frame_to host.now (option_copied login.entry) (option_copied passcode.entry)) result }
{
    let Ok(frame) = connect_start(alloc) else {
        return Err(FrameFault::Memory);
    };
    match with_given(frame, "host", Some(host)) {
        Ok(frame) => with_login(frame, login, passcode),
        Err(fault) => Err(fault),
    }
}

/// SUBSCRIBE to a destination, under the id `0`. Each message is to be answered by itself.
pub fn subscribe_frame(alloc: Global, destination: &str) -> Result<Frame<MAX_BODY>, AllocError>
    requires { IsShort destination.now }
    ensures { IfOk result (λ f. f ≡ subscribe_frame destination.now) }
{
    let mut frame = Frame::new(alloc, Command::Subscribe);
    // A session has one subscription, so one id does.
    push(&mut frame, "id", "0")?;
    push(&mut frame, "destination", destination)?;
    // In mode `client` an ACK would answer all earlier messages too, handled or not.
    push(&mut frame, "ack", "client-individual")?;
    Ok(frame)
}

/// SUBSCRIBE as by [`subscribe_frame`], which asks the broker to deliver so many messages at most that aren't answered.
/// The standard has no header for that: it has the names of ActiveMQ and of RabbitMQ, and others pass over it.
pub fn subscribe_frame_with(
    alloc: Global,
    destination: &str,
    prefetch: u64,
) -> Result<Frame<MAX_BODY>, AllocError>
    requires { IsShort destination.now }
    ensures { IfOk result (λ f. f ≡ subscribe_frame_with destination.now prefetch) }
{
    let frame = subscribe_frame(alloc, destination)?;
    let frame = with_number(frame, "activemq.prefetchSize", prefetch)?;
    with_number(frame, "prefetch-count", prefetch)
}

/// DISCONNECT that asks for a receipt under this number.
pub fn disconnect_frame_with(alloc: Global, receipt: u64) -> Result<Frame<MAX_BODY>, AllocError>
    ensures { IfOk result (λ f. f ≡ with_receipt receipt disconnect_frame) }
{
    with_number(Frame::new(alloc, Command::Disconnect), "receipt", receipt)
}

/// BEGIN, COMMIT or ABORT of a transaction.
pub fn transaction_frame(
    alloc: Global,
    command: Command,
    number: u64,
) -> Result<Frame<MAX_BODY>, AllocError>
    requires { is_exempt command ≡ false }
    ensures { IfOk result (λ f. f ≡ transaction_frame command number) }
{
    with_number(Frame::new(alloc, command), "transaction", number)
}

/// The frame in a transaction, where one is given: with the header `transaction`.
pub fn in_transaction(
    frame: Frame<MAX_BODY>,
    transaction: Option<u64>,
) -> Result<Frame<MAX_BODY>, AllocError>
    requires plain { is_exempt frame.command ≡ false }
    requires room { length frame.headers < 32 }
    ensures { IfOk result (λ f. f ≡ in_transaction transaction frame) }
{
    match transaction {
        Some(number) => with_number(frame, "transaction", number),
        None => Ok(frame),
    }
}

/// ACK or NACK of a MESSAGE, in a transaction where one is given.
pub fn answer_frame(
    alloc: Global,
    command: Command,
    message: &Frame<MAX_BODY>,
    transaction: Option<u64>,
) -> Result<Frame<MAX_BODY>, AllocError>
    requires plain { is_exempt command ≡ false }
    requires message { IsDelivered message.now }
    ensures { IfOk result (λ f. f ≡ answer_frame command message.now transaction) }
{
    // It does nothing: by its contract the MESSAGE's `ack` fits into the answer.
    message.holds();
    let mut frame = Frame::new(alloc, command);
    // Always there: a MESSAGE without `ack` isn't accepted.
    if let Some(id) = message.get("ack") {
        push(&mut frame, "id", id)?;
    }
    in_transaction(frame, transaction)
}
