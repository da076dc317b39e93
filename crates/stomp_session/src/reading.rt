//! A request is made of the parts of its frame: they are moved, and no memory is taken.

ghost use Rattle.std.specs.Prelude.{◌≡◌, Some, false, true, filter, is_some, unwrap_or, []};
ghost use Rattle.std.specs.List.{position};
ghost use Rattle.stomp_frame.specs.Frames.{frame, value_of};
ghost use Rattle.stomp_session.specs.Headers.{is_own};
ghost use Rattle.stomp_session.specs.Requests.{asked, is_send, is_server, lacks};
ghost use Rattle.stomp_session.specs.Parts.Taking.{is_named, without_first};

use crate::refusing::is_own;
use crate::{
    Acknowledge, Connect, Demarcate, Disconnect, Headers, Octets, Request, Send, Subscribe, Text,
    Unsubscribe,
};
use base::limits::MAX_BODY;
use stomp_frame::{Command, Frame, Header};

/// Where the first header of a name stands.
fn place_of(headers: &[Header], name: &str) -> Option<usize>
    ensures { result ≡ position (is_named name.now) headers.now }
{
    headers.iter().position(|header| header.name() == name)
}

/// Takes the first header of a name out, and gives its value.
fn take(headers: &mut Vec<Header>, name: &str) -> Option<Text>
    ensures value { result ≡ value_of name.now headers.old.items }
    ensures rest { headers.new.items ≡ without_first name.now headers.old.items }
{
    let at = place_of(headers, name)?;
    // Not by swapping: a MESSAGE has the headers that are left in their order.
    Some(Text::new(headers.remove(at).into_value()))
}

/// Takes the first header of a name out, which is there, and gives its value.
fn take_required(headers: &mut Vec<Header>, name: &str) -> Text
    requires { is_some (value_of name.now headers.old.items) ≡ true }
    ensures value { result ≡ unwrap_or (value_of name.now headers.old.items) [] }
    ensures rest { headers.new.items ≡ without_first name.now headers.old.items }
{
    match take(headers, name) {
        Some(value) => value,
        // A frame without it was refused before.
        None => unreachable!(),
    }
}

/// The headers that MESSAGEs take over.
fn own(mut headers: Vec<Header>) -> Headers
    ensures { result ≡ filter is_own headers.items }
{
    // What the server writes itself isn't taken over, nor what was for the server alone.
    headers.retain(|header| is_own(header));
    Headers::new(headers)
}

/// What a CONNECT or STOMP of these headers asks.
fn connect(mut headers: Vec<Header>) -> Connect
    requires { lacks (frame Command.Connect headers.items []) ≡ false }
    ensures { Request.Connect result ≡ asked (frame Command.Connect headers.items []) }
{
    Connect {
        accept_version: take_required(&mut headers, "accept-version"),
        host: take_required(&mut headers, "host"),
    }
}

/// What a SEND of these headers and this body asks.
fn send(mut headers: Vec<Header>, body: Vec<u8>) -> Send
    requires { lacks (frame Command.Send headers.items body.items) ≡ false }
    ensures { Request.Send result ≡ asked (frame Command.Send headers.items body.items) }
{
    // The headers come after what is taken out of them: they are what is left.
    Send {
        destination: take_required(&mut headers, "destination"),
        transaction: take(&mut headers, "transaction"),
        receipt: take(&mut headers, "receipt"),
        headers: own(headers),
        body: Octets::new(body),
    }
}

/// What a SUBSCRIBE asks.
fn subscribe(mut headers: Vec<Header>) -> Subscribe
    requires { lacks (frame Command.Subscribe headers.items []) ≡ false }
    ensures { Request.Subscribe result ≡ asked (frame Command.Subscribe headers.items []) }
{
    Subscribe {
        id: take_required(&mut headers, "id"),
        destination: take_required(&mut headers, "destination"),
        ack: take(&mut headers, "ack"),
        receipt: take(&mut headers, "receipt"),
    }
}

/// What an UNSUBSCRIBE asks.
fn unsubscribe(mut headers: Vec<Header>) -> Unsubscribe
    requires { lacks (frame Command.Unsubscribe headers.items []) ≡ false }
    ensures { Request.Unsubscribe result ≡ asked (frame Command.Unsubscribe headers.items []) }
{
    Unsubscribe {
        id: take_required(&mut headers, "id"),
        receipt: take(&mut headers, "receipt"),
    }
}

/// What an ACK or NACK asks.
fn acknowledge(mut headers: Vec<Header>) -> Acknowledge
    requires { lacks (frame Command.Ack headers.items []) ≡ false }
    ensures { Request.Ack result ≡ asked (frame Command.Ack headers.items []) }
{
    Acknowledge {
        id: take_required(&mut headers, "id"),
        transaction: take(&mut headers, "transaction"),
        receipt: take(&mut headers, "receipt"),
    }
}

/// What a BEGIN, COMMIT or ABORT asks.
fn demarcate(mut headers: Vec<Header>) -> Demarcate
    requires { lacks (frame Command.Begin headers.items []) ≡ false }
    ensures { Request.Begin result ≡ asked (frame Command.Begin headers.items []) }
{
    Demarcate {
        transaction: take_required(&mut headers, "transaction"),
        receipt: take(&mut headers, "receipt"),
    }
}

/// What a DISCONNECT asks.
fn disconnect(mut headers: Vec<Header>) -> Disconnect
    ensures { Request.Disconnect result ≡ asked (frame Command.Disconnect headers.items []) }
{
    Disconnect {
        receipt: take(&mut headers, "receipt"),
    }
}

/// What a frame of these parts asks that isn't a SEND and isn't refused. It stands by itself, so that a SEND doesn't pay
/// for the room of all others.
#[inline(never)]
fn read_other(command: Command, headers: Vec<Header>) -> Request
    requires client { is_server command ≡ false }
    requires other { is_send command ≡ false }
    requires complete { lacks (frame command headers.items []) ≡ false }
    ensures { result ≡ asked (frame command headers.items []) }
{
    match command {
        // `read_request` reads a SEND itself.
        Command::Send => unreachable!(),
        Command::Subscribe => Request::Subscribe(subscribe(headers)),
        Command::Unsubscribe => Request::Unsubscribe(unsubscribe(headers)),
        Command::Ack => Request::Ack(acknowledge(headers)),
        Command::Nack => Request::Nack(acknowledge(headers)),
        Command::Begin => Request::Begin(demarcate(headers)),
        Command::Commit => Request::Commit(demarcate(headers)),
        Command::Abort => Request::Abort(demarcate(headers)),
        Command::Disconnect => Request::Disconnect(disconnect(headers)),
        Command::Connect | Command::Stomp => Request::Connect(connect(headers)),
        // A server's command was refused before.
        Command::Connected | Command::Message | Command::Receipt | Command::Error => unreachable!(),
    }
}

/// What a frame asks that isn't refused.
#[tactic(auto, using(crate::proofs::Taking::asked_alike))]
pub fn read_request(frame: Frame<MAX_BODY>) -> Request
    requires client { is_server frame.command ≡ false }
    requires complete { lacks frame ≡ false }
    ensures { result ≡ asked frame }
{
    let (command, headers, body) = frame.into_parts();
    match command {
        Command::Send => Request::Send(send(headers, body)),
        command => read_other(command, headers),
    }
}
