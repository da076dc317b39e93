//! The broker, and all SENDs that it and those before it accepted.

ghost use Rattle.std.specs.Prelude.{◌≡◌, ◌≢◌, ◌≤◌, length, true, false, OnOk, OnErr, IfOk, IfErr};
ghost use Rattle.std.specs.List.{flat_map};
ghost use Rattle.base.specs.declared.limits.TheConstants.{MAX_QUEUED};
ghost use Rattle.broker_core.specs.Calls.{OpenAnswer, dropped, out_in, without_first};
ghost use Rattle.broker_core.specs.Feeding.{DispatchAnswer, FeedAnswer};
ghost use Rattle.broker_core.specs.Serving.{changing, session_of};
ghost use Rattle.broker_core.specs.declared.fault.BrokerFault.TheVariants.{NoSession};
ghost use Rattle.schedule_mail.specs.Mails.{new_mail, restarted, collected, taken_from};
ghost use Rattle.schedule_mail.specs.Sessions.{KeepsOthers, KeepsSessions, has_session};

use base::limits::MAX_QUEUED;
use broker_book::Accepted;
use broker_core::{Broker, BrokerFault, SessionId};
use std::alloc::{AllocError, Global};
use std::marker::Model;

/// A broker, and all SENDs that were accepted: contracts see the broker, and the SENDs that were taken from it or that
/// a broker before it accepted, in order.
pub struct Mail {
    alloc: Global,
    broker: Broker<MAX_QUEUED>,
    // Lists as the brokers had them: to take one over needs one place, and copies no entry.
    earlier: Vec<Vec<Accepted>>,
}

/// Written by hand, so that a crate that owns a mail doesn't prove anew how each of its parts is dropped.
impl Drop for Mail {
    fn drop(self) {
        let Mail {
            alloc: _,
            broker: _broker,
            earlier: _earlier,
        } = self;
    }
}

impl Model for Mail {
    ghost use Rattle.std.specs.List.{flat_map};
    ghost use Rattle.schedule_mail.specs.Mails.{Mail};

    ghost Value = { Mail };

    ghost view = { λ m. record { broker = m.broker; earlier = flat_map (λ list. list.items) m.earlier.items } };
}

impl Mail {
    /// A broker with no session and no message; nothing was accepted. It takes no memory.
    pub fn new(alloc: Global) -> Mail
        ensures { result ≡ new_mail }
    {
        Mail {
            alloc,
            broker: Broker::new(alloc),
            earlier: Vec::new(alloc),
        }
    }

    /// Hands out messages until none can be.
    ///
    /// # Errors
    /// Where a growth was refused; what was handed out before stays so, and the next call goes on.
    pub fn dispatch(&mut self) -> Result<(), AllocError>
        ensures deals { DispatchAnswer self.old.broker self.new.broker result }
        ensures sessions { KeepsSessions self.old.broker self.new.broker }
        ensures earlier { self.new.earlier ≡ self.old.earlier }
    {
        self.broker.dispatch()
    }

    /// Takes a new broker, with no session and no message. All SENDs that were accepted before stay known.
    ///
    /// # Errors
    /// Where a growth was refused: nothing has changed then.
    pub fn restart(&mut self) -> Result<(), AllocError>
        ensures ok { OnOk result (self.new ≡ restarted self.old) }
        ensures err { OnErr result (self.new ≡ self.old) }
    {
        // Before the broker goes: with its list the SENDs would be lost, and `repeat` would count without them.
        self.collect()?;
        self.broker = Broker::new(self.alloc);
        Ok(())
    }

    /// Takes over the list of what the broker accepted.
    pub(crate) fn collect(&mut self) -> Result<(), AllocError>
        ensures ok { OnOk result (self.new ≡ collected self.old) }
        ensures err { OnErr result (self.new ≡ self.old) }
    {
        // Room first: a list that was taken from the broker and found no place would be lost.
        self.earlier.reserve(1)?;
        let accepted = self.broker.take_accepted();
        self.earlier.push_reserved(accepted);
        Ok(())
    }

    /// The allocator.
    pub(crate) fn alloc(&self) -> Global {
        self.alloc
    }

    /// The lists that were taken over.
    pub(crate) fn earlier(&self) -> &[Vec<Accepted>]
        ensures { flat_map (λ list. list.items) result.now ≡ self.now.earlier }
    {
        &self.earlier
    }

    /// Takes what the broker accepted from it.
    pub(crate) fn take_accepted(&mut self) -> Vec<Accepted>
        ensures accepted { result.items ≡ self.old.broker.book.accepted }
        ensures rest { self.new ≡ record self.old { broker = taken_from self.old.broker } }
    {
        self.broker.take_accepted()
    }

    /// Opens a session.
    pub(crate) fn open_session(&mut self) -> Result<SessionId, BrokerFault>
        ensures opens { OpenAnswer self.old.broker self.new.broker result }
        ensures sessions { IfOk result (λ own. KeepsOthers own self.old.broker self.new.broker) }
        ensures earlier { self.new.earlier ≡ self.old.earlier }
    {
        self.broker.open()
    }

    /// Feeds a piece to a session.
    pub(crate) fn feed(&mut self, session: SessionId, piece: &[u8]) -> Result<usize, BrokerFault>
        ensures feeds { FeedAnswer MAX_QUEUED self.old.broker session piece.now self.new.broker result }
        ensures sessions { KeepsSessions self.old.broker self.new.broker }
        ensures there { has_session session self.old.broker ≡ true → IfErr result (λ fault. fault ≢ NoSession) }
        ensures earlier { self.new.earlier ≡ self.old.earlier }
    {
        self.broker.feed(session, piece)
    }

    /// The octets that wait for a session.
    pub(crate) fn out(&self, session: SessionId) -> &[u8]
        ensures { result.now ≡ out_in (session_of session self.now.broker) }
    {
        self.broker.out(session)
    }

    /// Takes the first octets for a session away.
    pub(crate) fn taken(&mut self, session: SessionId, count: usize)
        requires { count ≤ length (out_in (session_of session self.old.broker)) }
        ensures taken { self.new ≡ record self.old { broker = changing session (without_first count) self.old.broker } }
        ensures sessions { KeepsSessions self.old.broker self.new.broker }
    {
        self.broker.taken(session, count);
    }

    /// Takes a session away.
    pub(crate) fn drop_session(&mut self, session: SessionId)
        ensures dropped { self.new ≡ record self.old {
          broker =
              dropped session self.old.broker (session_of session self.old.broker);
        } }
        ensures sessions { KeepsOthers session self.old.broker self.new.broker }
        ensures gone { has_session session self.new.broker ≡ false }
    {
        self.broker.drop_session(session);
    }
}
