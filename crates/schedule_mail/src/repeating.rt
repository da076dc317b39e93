//! Sending again what was accepted.

ghost use Rattle.std.specs.Prelude.{◌≡◌, IfOk};
ghost use Rattle.schedule_mail.specs.Accepted.{sent_at};
ghost use Rattle.schedule_mail.specs.Mails.{all_accepted};
ghost use Rattle.schedule_mail.specs.Repeating.{FedAgain, Repeats, SendsAgain};
ghost use Rattle.schedule_mail.specs.Sessions.{KeepsSessions};
ghost use Rattle.schedule_mail.specs.Texts.{AreTexts};

use crate::accepted::{answer_of, find};
use crate::texts::Texts;
use crate::{Mail, RepeatFault};
use broker_book::{Sent, Shared};
use broker_core::{BrokerFault, SessionId};
use std::alloc::AllocError;

impl Mail {
    /// Sends an accepted SEND again, in a session of its own: the one at this place, from 1 on, among all that were
    /// ever accepted. The answer is the new message's number; none where fewer were accepted. What is repeated doesn't
    /// count as accepted.
    ///
    /// # Errors
    /// The SEND isn't accepted then:
    /// - `QueueFull` and `TooMany` where its session was told so;
    /// - `TooMany` where no session number is left;
    /// - `Memory` where a growth was refused.
    pub fn repeat(&mut self, place: u64) -> Result<Option<u64>, RepeatFault>
        ensures repeats { Repeats place self.old self.new result }
        ensures all { all_accepted self.new ≡ all_accepted self.old }
        ensures sessions { KeepsSessions self.old.broker self.new.broker }
    {
        // So places count all SENDs, and the broker's own list is empty: what is in it later came of this repeat.
        self.collect()?;
        match self.sent_at(place)? {
            Some(sent) => self.send_again(sent.get()),
            None => Ok(None),
        }
    }

    /// A further owner of the SEND of a place.
    fn sent_at(&self, place: u64) -> Result<Option<Shared<Sent>>, AllocError>
        ensures { IfOk result (λ sent. sent ≡ sent_at place self.now.earlier) }
    {
        match find(self.earlier(), place) {
            // Shared, since the list can't stay borrowed while the mail is changed.
            Some(accepted) => Ok(Some(accepted.sent.share()?)),
            None => Ok(None),
        }
    }

    /// Sends it in a session of its own.
    // A session of its own needs no further call of the broker. What the broker accepted then shows whether the SEND was.
    fn send_again(&mut self, sent: &Sent) -> Result<Option<u64>, RepeatFault>
        ensures { SendsAgain sent.now self.old self.new result }
    {
        // All that allocates on this side comes before there is a session, so a failure has changed nothing.
        let texts = Texts::new(self.alloc(), sent)?;
        match self.open_session() {
            Ok(session) => self.feed_again(session, sent, &texts),
            Err(BrokerFault::TooMany) => Err(RepeatFault::TooMany),
            Err(_) => Err(RepeatFault::Memory),
        }
    }

    /// Feeds its text, takes what was accepted of it, and drops the session.
    fn feed_again(
        &mut self,
        session: SessionId,
        sent: &Sent,
        texts: &Texts,
    ) -> Result<Option<u64>, RepeatFault>
        requires { AreTexts sent.now texts.now.asked.items texts.now.full.items texts.now.used.items }
        ensures { FedAgain sent.now session self.old self.new result }
    {
        // The answer isn't looked at: dealing may run out of memory after the SEND was accepted. The list shows that.
        let _ = self.feed(session, &texts.asked);
        // Out of the list: if repeats counted, they would shift the places of all later SENDs.
        let accepted = self.take_accepted();
        // Before the session is dropped, and its octets with it.
        let answer = answer_of(&accepted, sent, self.out(session), texts);
        // Nothing is dealt after it: a session without subscriptions has nothing out to it.
        self.drop_session(session);
        answer
    }
}
