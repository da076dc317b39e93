//! What a client frame asks.

ghost use Rattle.std.specs.Prelude.{◌≡◌};
ghost use Rattle.std.specs.Option.{option_copied};
ghost use Rattle.stomp_session.specs.Requests.{ack_mode, receipt_of};

use crate::{Headers, Octets, Text};

/// A connection is opened: the frame CONNECT or STOMP.
#[derive(Debug, Drop)]
pub struct Connect {
    /// The versions that the client speaks, between commas.
    pub accept_version: Text,
    /// The host that it wants to reach.
    pub host: Text,
}

/// A message goes to a destination.
#[derive(Debug, Drop)]
pub struct Send {
    /// Where it goes.
    pub destination: Text,
    /// The headers that its MESSAGEs take over, in order.
    pub headers: Headers,
    /// The body of the message.
    pub body: Octets,
    /// The transaction that it belongs to.
    pub transaction: Option<Text>,
    /// The receipt that is asked for.
    pub receipt: Option<Text>,
}

/// A subscription to a destination begins.
#[derive(Debug, Drop)]
pub struct Subscribe {
    /// The subscription's name within the session.
    pub id: Text,
    /// Where it listens.
    pub destination: Text,
    /// The word of its acknowledge mode, whatever it is.
    pub ack: Option<Text>,
    /// The receipt that is asked for.
    pub receipt: Option<Text>,
}

impl Subscribe {
    /// The word of its acknowledge mode: `auto` where the frame has no header `ack` (STOMP 1.2, section "SUBSCRIBE").
    ///
    /// A header `ack` with no value is there: its word is the empty one.
    pub fn ack_mode(&self) -> &str
        ensures { result.now ≡ ack_mode self.now.ack }
    {
        match &self.ack {
            Some(word) => word.as_str(),
            None => "auto",
        }
    }
}

/// A subscription ends.
#[derive(Debug, Drop)]
pub struct Unsubscribe {
    /// The subscription's name within the session.
    pub id: Text,
    /// The receipt that is asked for.
    pub receipt: Option<Text>,
}

/// A delivery is acknowledged, or it isn't: the frame ACK or NACK.
#[derive(Debug, Drop)]
pub struct Acknowledge {
    /// What the MESSAGE had as `ack`.
    pub id: Text,
    /// The transaction that the answer belongs to.
    pub transaction: Option<Text>,
    /// The receipt that is asked for.
    pub receipt: Option<Text>,
}

/// A transaction begins or ends: the frame BEGIN, COMMIT or ABORT.
#[derive(Debug, Drop)]
pub struct Demarcate {
    /// The transaction's name within the session.
    pub transaction: Text,
    /// The receipt that is asked for.
    pub receipt: Option<Text>,
}

/// The session ends.
#[derive(Debug, Drop)]
pub struct Disconnect {
    /// The receipt that is asked for.
    pub receipt: Option<Text>,
}

/// What a client frame asks: a case for each command of a client, and one for CONNECT and STOMP.
#[derive(Debug, Drop)]
pub enum Request {
    /// The session is opened.
    Connect(Connect),
    /// A message goes to a destination.
    Send(Send),
    /// A subscription begins.
    Subscribe(Subscribe),
    /// A subscription ends.
    Unsubscribe(Unsubscribe),
    /// A delivery is acknowledged.
    Ack(Acknowledge),
    /// A delivery isn't handled: its message is ready again.
    Nack(Acknowledge),
    /// A transaction begins.
    Begin(Demarcate),
    /// A transaction is carried out.
    Commit(Demarcate),
    /// A transaction is dropped.
    Abort(Demarcate),
    /// The session ends.
    Disconnect(Disconnect),
}

impl Request {
    /// The receipt that is asked for. A CONNECT asks for none: its answer is CONNECTED.
    pub fn receipt(&self) -> Option<&str>
        ensures { option_copied result ≡ receipt_of self.now }
    {
        let receipt = match self {
            Request::Connect(_) => return None,
            Request::Send(send) => &send.receipt,
            Request::Subscribe(subscribe) => &subscribe.receipt,
            Request::Unsubscribe(unsubscribe) => &unsubscribe.receipt,
            Request::Ack(answer) | Request::Nack(answer) => &answer.receipt,
            Request::Begin(edge) | Request::Commit(edge) | Request::Abort(edge) => &edge.receipt,
            Request::Disconnect(disconnect) => &disconnect.receipt,
        };
        receipt.as_ref().map(|text| text.as_str())
    }
}
