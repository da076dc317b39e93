//! A session as its server knows it.

ghost use Rattle.std.specs.Prelude.{◌≡◌, false, true, Ok, IfSome};
ghost use Rattle.std.specs.Option.{option_copied};
ghost use Rattle.stomp_session.specs.Requests.{Accepts, acking, request_of, sole_ack};

use crate::reading::read_request;
use crate::refusing::{is_ack, refusal, sole_id};
use crate::{Request, SessionFault};
use base::limits::MAX_BODY;
use std::marker::Model;
use stomp_frame::Frame;

/// A frame that was refused, returned, and why.
#[derive(Debug, Drop)]
pub struct Refused {
    /// The first fault that applies.
    pub fault: SessionFault,
    /// The frame as it came.
    pub frame: Frame<MAX_BODY>,
}

/// A session of a client: contracts see whether it is connected.
#[derive(Clone, Copy, Debug, Drop)]
pub struct ServerSession {
    // Also after DISCONNECT: its server remembers that it is closed.
    connected: bool,
}

impl Model for ServerSession {
    ghost use Rattle.std.specs.Prelude.{Bool};

    ghost Value = { Bool };

    ghost view = { λ s. s.connected };

    ghost inverse = { λ connected. record { connected = connected } };
}

impl ServerSession {
    /// A session that isn't connected.
    pub fn new() -> ServerSession
        ensures { result ≡ false }
    {
        ServerSession { connected: false }
    }

    /// A session that is connected, as each is that has accepted a frame.
    pub fn connected() -> ServerSession
        ensures { result ≡ true }
    {
        ServerSession { connected: true }
    }

    /// Whether it is connected: a CONNECT or STOMP was accepted.
    pub fn is_connected(&self) -> bool
        ensures { result ≡ self.now }
    {
        self.connected
    }

    /// The id of an ACK that would be accepted, where it is the frame's only header: the request then is this id's,
    /// outside of a transaction and with no receipt. A server of many ACKs makes no request of them.
    #[tactic(auto, using(crate::proofs::SoleAck::sole_asks))]
    pub fn sole_ack<'a>(&self, frame: &'a Frame<MAX_BODY>) -> Option<&'a str>
        ensures value { option_copied result ≡ sole_ack self.now frame.now }
        ensures asks { IfSome result (λ id. request_of self.now frame.now ≡ Ok (acking id.now)) }
        ensures connected { IfSome result (λ id. self.now ≡ true) }
    {
        if self.connected && is_ack(frame.command()) {
            sole_id(frame.headers())
        } else {
            None
        }
    }

    /// What a client frame asks. After CONNECT or STOMP the session is connected.
    ///
    /// It allocates nothing, and so never fails for want of it: the request is made of the frame's own parts.
    ///
    /// # Errors
    /// The first that applies; then the frame is returned, and nothing has changed:
    /// - `WrongCommand` for a command of a server;
    /// - `NotConnected` for another than CONNECT or STOMP before one of these, `AlreadyConnected` for one of these
    ///   after it;
    /// - `MissingHeader` where a header is missing that the command requires;
    /// - `TooLarge` where a value that is echoed has more than 128 octets, or a SEND more than 28 headers of its own;
    /// - `Version` for CONNECT and STOMP, where `accept-version` doesn't offer 1.2.
    pub fn accept(&mut self, frame: Frame<MAX_BODY>) -> Result<Request, Refused>
        ensures { Accepts self.old frame self.new result }
    {
        // By reference: a frame that is refused goes back whole, for the ERROR that names its receipt.
        if let Some(fault) = refusal(self.connected, &frame) {
            return Err(Refused { fault, frame });
        }
        // Whatever it is: before CONNECT nothing else is accepted.
        *self = ServerSession { connected: true };
        Ok(read_request(frame))
    }
}
