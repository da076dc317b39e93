//! What a frame asks, as a session keeps it until it is done.

ghost use Rattle.std.specs.Prelude.{◌≡◌, true, IfOk, IfErr};
ghost use Rattle.std.specs.Option.{option_copied};
ghost use Rattle.stomp_session.specs.Requests.{receipt_of};
ghost use Rattle.broker_core.specs.Parts.Asked.{is_ready, request_in, send_in};
ghost use Rattle.broker_core.specs.Serving.{is_connect, is_last};

use broker_book::{Sent, Shared};
use std::alloc::Global;
use std::marker::Model;
use stomp_session::{Request, Send, Text};

/// A SEND of which queues and transactions take a share.
#[derive(Debug, Drop)]
pub struct SharedSend {
    pub sent: Shared<Sent>,
    pub transaction: Option<Text>,
    pub receipt: Option<Text>,
}

impl SharedSend {
    /// The SEND with its octets shared, or the SEND as it came if an allocation fails.
    pub fn new(alloc: Global, send: Send) -> Result<SharedSend, Send>
        ensures ok { IfOk result (λ s. send_in s ≡ Request.Send send) }
        ensures err { IfErr result (λ s. s ≡ send) }
    {
        let Send {
            destination,
            headers,
            body,
            transaction,
            receipt,
        } = send;
        let sent = Sent {
            destination,
            headers,
            body,
        };
        match Shared::new(alloc, sent) {
            Ok(sent) => Ok(SharedSend {
                sent,
                transaction,
                receipt,
            }),
            Err(failed) => {
                // Put together again: the session keeps the SEND, and tries it at the next feed.
                let Sent {
                    destination,
                    headers,
                    body,
                } = failed.value;
                Err(Send {
                    destination,
                    headers,
                    body,
                    transaction,
                    receipt,
                })
            }
        }
    }
}

/// A request as it came, or a shared SEND.
#[derive(Debug)]
pub enum Form {
    Whole(Request),
    Shared(SharedSend),
}

/// Written by hand: a derived one is written out, part by part of each request, wherever a form may be dropped.
impl Drop for Form {
    fn drop(self) {
        match self {
            // With a derived `drop` this crate took 296 seconds of CPU time to prove, and 227 with this one.
            Form::Whole(_request) => {}
            Form::Shared(_send) => {}
        }
    }
}

impl Form {
    /// The request with nothing left to be moved: a SEND is shared, so that a queue and a transaction take a share of
    /// its octets, however large they are, and it can still be returned if an allocation fails after that.
    pub fn share(self, alloc: Global) -> Result<Form, Form>
        ensures ok { IfOk result (λ f. (request_in f ≡ request_in self) × (is_ready f ≡ true)) }
        ensures err { IfErr result (λ f. request_in f ≡ request_in self) }
    {
        match self {
            Form::Whole(Request::Send(send)) => match SharedSend::new(alloc, send) {
                Ok(send) => Ok(Form::Shared(send)),
                Err(send) => Err(Form::Whole(Request::Send(send))),
            },
            form => Ok(form),
        }
    }

    /// The receipt that is asked for.
    pub fn receipt(&self) -> Option<&str>
        ensures { option_copied result ≡ receipt_of (request_in self.now) }
    {
        match self {
            Form::Whole(request) => request.receipt(),
            Form::Shared(send) => send.receipt.as_ref().map(|text| text.as_str()),
        }
    }

    /// Whether it opens the session.
    pub fn is_connect(&self) -> bool
        ensures { result ≡ is_connect (request_in self.now) }
    {
        matches!(self, Form::Whole(Request::Connect(_)))
    }

    /// Whether it is the last of its session.
    pub fn is_last(&self) -> bool
        ensures { result ≡ is_last (request_in self.now) }
    {
        matches!(self, Form::Whole(Request::Disconnect(_)))
    }
}

/// A request: contracts see the request, whatever its form.
#[derive(Debug, Drop)]
pub struct Asked {
    form: Form,
}

impl Model for Asked {
    ghost use Rattle.stomp_session.specs.declared.request.Request.{Request};

    ghost Value = { Request };

    ghost use Rattle.broker_core.specs.Parts.Asked.{request_in};

    ghost view = { λ a. request_in a.form };
}

impl Asked {
    /// The request of this form.
    pub fn new(form: Form) -> Asked
        ensures { result ≡ request_in form }
    {
        Asked { form }
    }

    /// The form of the request.
    pub fn into_form(self) -> Form
        ensures { request_in result ≡ self }
    {
        let Asked { form } = self;
        form
    }
}
