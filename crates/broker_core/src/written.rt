//! What was written for a session.

ghost use Rattle.std.specs.Prelude.{◌≡◌, ◌++◌, ◌≤◌, [], drop, length, take, is_some, IfOk, OnOk, OnErr};
ghost use Rattle.std.specs.Option.{option_copied};
ghost use Rattle.stomp_frame.specs.Frames.{canonical};
ghost use Rattle.stomp_session.specs.Replies.{connected_frame, error_frame, message_frame, receipt_frame};
ghost use Rattle.broker_core.specs.Faults.{refusal_name, refusal_number};
ghost use Rattle.broker_core.specs.Parts.Asked.{request_in};
ghost use Rattle.broker_core.specs.Serving.{reply_of, text_of};

use crate::FrameRefusal;
use crate::asked::Form;
use std::alloc::{AllocError, Global};
use std::marker::Model;
use stomp_session::{Delivery, Outgoing};

/// The octets that were written for a session and not taken yet: contracts see them alone.
#[derive(Drop)]
pub struct Written {
    alloc: Global,
    outgoing: Outgoing,
}

/// Where nothing is left, no more room than this is kept.
const RESTING: usize = 8_192;

impl Model for Written {
    ghost use Rattle.std.specs.Prelude.{List, ℕ};

    ghost Value = { List ℕ };

    ghost view = { λ w. w.outgoing.octets };
}

impl Written {
    /// Nothing. It allocates nothing.
    pub fn new(alloc: Global) -> Written
        ensures { result ≡ [] }
    {
        Written {
            alloc,
            outgoing: Outgoing::new(alloc),
        }
    }

    /// How many octets.
    pub fn len(&self) -> usize
        ensures { result ≡ length self.now }
    {
        self.outgoing.len()
    }

    /// The octets that were written and not taken.
    pub fn as_slice(&self) -> &[u8]
        ensures { result.now ≡ self.now }
    {
        self.outgoing.as_slice()
    }

    /// Takes the first octets away. Where none is left and there is much room, its memory is freed: a session that
    /// rests keeps little, whatever was written for it.
    pub fn taken(&mut self, count: usize)
        requires { count ≤ length self.old }
        ensures { self.new ≡ drop count self.old }
    {
        self.outgoing.taken(count);
        if self.outgoing.len() == 0 && self.outgoing.room() > RESTING {
            self.outgoing = Outgoing::new(self.alloc);
        }
    }

    /// Takes all away but the first so many.
    pub fn truncate(&mut self, len: usize)
        ensures { self.new ≡ take len self.old }
    {
        self.outgoing.truncate(len);
    }

    /// Writes the reply to a request that is done, or nothing; the answer is whether it has one.
    pub fn write_reply(&mut self, form: &Form) -> Result<bool, AllocError>
        ensures wrote { IfOk result (λ wrote. wrote ≡ is_some (reply_of (request_in form.now))) }
        ensures ok { OnOk result (self.new ≡ self.old ++ text_of (reply_of (request_in form.now))) }
        ensures err { OnErr result (self.new ≡ self.old) }
    {
        if form.is_connect() {
            self.write_connected()?;
            return Ok(true);
        }
        match form.receipt() {
            Some(receipt) => {
                self.write_receipt(receipt)?;
                Ok(true)
            }
            None => Ok(false),
        }
    }

    fn write_connected(&mut self) -> Result<(), AllocError>
        ensures ok { OnOk result (self.new ≡ self.old ++ canonical connected_frame) }
        ensures err { OnErr result (self.new ≡ self.old) }
    {
        match self.outgoing.write_connected() {
            Ok(()) => Ok(()),
            Err(_) => Err(AllocError),
        }
    }

    fn write_receipt(&mut self, receipt: &str) -> Result<(), AllocError>
        ensures ok { OnOk result (self.new ≡ self.old ++ canonical (receipt_frame receipt.now)) }
        ensures err { OnErr result (self.new ≡ self.old) }
    {
        match self.outgoing.write_receipt(receipt) {
            Ok(()) => Ok(()),
            Err(_) => Err(AllocError),
        }
    }

    /// Writes the ERROR of a refusal, or nothing.
    pub fn write_error(
        &mut self,
        alloc: Global,
        refusal: FrameRefusal,
        receipt: Option<&str>,
    ) -> Result<(), AllocError>
        ensures ok { let f = error_frame (refusal_number refusal) (refusal_name refusal) (option_copied receipt.entry)
            in
            OnOk result (self.new ≡ self.old ++ canonical f) }
        ensures err { OnErr result (self.new ≡ self.old) }
    {
        match self
            .outgoing
            .write_error(alloc, refusal.number(), refusal.name(), receipt)
        {
            Ok(()) => Ok(()),
            Err(_) => Err(AllocError),
        }
    }

    /// Writes the MESSAGE of a delivery, or nothing.
    pub fn write_message(&mut self, delivery: &Delivery) -> Result<(), AllocError>
        ensures ok { OnOk result (self.new ≡ self.old ++ canonical (message_frame delivery.now)) }
        ensures err { OnErr result (self.new ≡ self.old) }
    {
        match self.outgoing.write_message(delivery) {
            Ok(()) => Ok(()),
            Err(_) => Err(AllocError),
        }
    }
}
