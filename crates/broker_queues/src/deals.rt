//! Deals: which message goes out next and to whom, and how it goes, until none can.
//!
//! The names of the destinations that are awake are hints, and so is the number from which each looks: they tell where
//! a look is needed. A pick is made from messages that are ready and subscribers with credit as they stand.

ghost use Rattle.broker_index.specs.Index.{queue_at};
ghost use Rattle.broker_queues.specs.Parts.Choosing.{Chooses, Hands, Looks, NextDeal, Rests, earlier};
ghost use Rattle.broker_queues.specs.Parts.Choosing.{is_at_most, is_auto_of, pick_of};
ghost use Rattle.broker_queues.specs.Parts.Dealings.{HandsOut, HandsWhole, NotesNoMore};
ghost use Rattle.broker_queues.specs.Parts.Facts.{queue_of, subscriber_at};
ghost use Rattle.broker_queues.specs.Parts.Held.{holding_of};
ghost use Rattle.broker_queues.specs.Parts.Whole.{IsSound};
ghost use Rattle.std.specs.Prelude.{[], ◌<◌, ◌≡◌, IfOk, OnErr, OnOk, Some, false, length, slice_index_or, true};

use crate::destinations::{count_fewer, look_on, next_ready, next_taker, number_or, ready_from};
use crate::parts::Parts;
use crate::sink::Sink;
use broker_book::{Sent, Subscription};
use broker_index::{Entry, Holder, KeyedPlace, Standing};
use std::alloc::AllocError;

/// A deal that can be made: where its message is, and where its taker is.
#[derive(Clone, Copy)]
pub struct Pick {
    pub message: KeyedPlace,
    pub taker: KeyedPlace,
}

/// The pick with the earlier message.
fn earlier(best: Option<Pick>, pick: Pick) -> Pick
    ensures { result ≡ earlier best pick }
{
    match best {
        Some(best) => {
            if best.message.number <= pick.message.number {
                best
            } else {
                pick
            }
        }
        None => pick,
    }
}

/// The pick of a message and the taker that was found for it, if one was.
fn pick_of(message: KeyedPlace, taker: Option<KeyedPlace>) -> Option<Pick>
    ensures { result ≡ pick_of message taker }
{
    match taker {
        Some(taker) => Some(Pick { message, taker }),
        None => None,
    }
}

/// Gives a message to a sink, as the delivery `ack` to a subscription, and tells to whom it is out then.
///
/// # Errors
/// If an allocation fails; then the sink has taken nothing.
fn deliver_as<S: Sink>(
    number: u64,
    sent: &Sent,
    to: &Subscription,
    ack: u64,
    sink: &mut S,
) -> Result<Holder, AllocError>
    ensures holder { IfOk result (λ h. h ≡ record { session = to.now.session; id = to.now.id; ack = ack }) }
    ensures ok { OnOk result (S.takes sink.old
        (record { number = number; sent = sent.now; to = to.now; ack = Some ack }) sink.new) }
    ensures err { OnErr result (sink.new ≡ sink.old) }
{
    let holder = Holder {
        session: to.session,
        id: to.id.share()?,
        ack,
    };
    // The last that can fail.
    sink.deliver(number, sent, to, Some(ack))?;
    Ok(holder)
}

impl Parts {
    /// Whether the destination at a place among those that are awake can have no message before a pick's.
    fn is_behind(&self, index: usize, best: Option<Pick>) -> bool
        requires { index < length self.now.active.names.items }
        ensures { result ≡ is_at_most best (queue_of (queue_at self.now.destinations)
            (slice_index_or self.now.active.names.items index [])).ready_from }
    {
        // The hint is never above the first ready message: at worst it's too low, and costs a look in vain.
        match best {
            Some(pick) => {
                pick.message.number
                    <= ready_from(&self.destinations, self.active.names[index].get())
            }
            None => false,
        }
    }

    /// The deal of the destination at a place among those that are awake, if one can be made there. The destination
    /// notes how far it looked.
    fn look(&mut self, index: usize) -> Option<Pick>
        requires { index < length self.old.active.names.items }
        ensures looks { Looks (holding_of self.old) (slice_index_or self.old.active.names.items index [])
            (holding_of self.new) result }
        ensures active { self.new.active ≡ self.old.active }
    {
        let name = self.active.names[index].get();
        let Some(message) = next_ready(&self.messages, &self.destinations, self.last, name) else {
            // Behind all that came: what the queue lists is passed at once then.
            self.destinations
                .set_ready_from(name, self.last.saturating_add(1));
            return None;
        };
        // The next subscriber's age: a look in vain passes all that there are, until one of them gets credit.
        let last = self.subscribers.next_age();
        let taken = next_taker(
            &self.subscribers,
            &self.destinations,
            self.given,
            last,
            name,
        );
        // At what was found and not after it: another destination's deal may be made first.
        look_on(
            &mut self.destinations,
            name,
            message.number,
            number_or(taken, last),
        );
        pick_of(message, taken)
    }

    /// The next deal, where the destinations that are awake are all named. Those that are looked at in vain sleep then.
    fn choose(&mut self) -> Option<Pick>
        ensures { Chooses (holding_of self.old) self.old.active.all (holding_of self.new) result }
    {
        let mut best = None;
        let mut index = 0;
        while index < self.active.names.len() {
            // The hint first: it is one look-up at most, and saves the walk where a message can't be the first.
            if self.is_behind(index, best) {
                index += 1;
            } else if let Some(pick) = self.look(index) {
                best = Some(earlier(best, pick));
                index += 1;
            } else {
                // The next name is at this place then.
                self.active.sleep(index);
            }
        }
        best
    }

    /// Names all destinations, where a name could not be noted before. That never comes up: see
    /// `Active::wake`.
    fn rouse(&mut self) -> Result<(), AllocError>
        ensures rests { IsSound (holding_of self.old) → Rests (holding_of self.old) (holding_of self.new) }
        ensures named { OnOk result (self.new.active.all ≡ false) }
    {
        if self.active.all {
            // The flag falls only with the names in place: out of memory leaves it up for the next deal.
            let names = self.destinations.names()?;
            self.active.names = names;
            self.active.all = false;
        }
        Ok(())
    }

    /// The next deal, if any can be made.
    ///
    /// It looks at the destinations that are awake: at most by a search for their names, where they can have no
    /// message before the best so far. Where nothing can be dealt a destination sleeps, until a message or a subscriber
    /// wakes it; and each notes how far it looked, so that messages that are out and subscribers without credit are
    /// passed once, until one of them comes back. So a deal costs nothing for messages that wait, destinations that
    /// sleep or other sessions.
    ///
    /// # Errors
    /// If an allocation fails; then nothing can be said of the next deal, and nothing has changed.
    pub fn next_deal(&mut self) -> Result<Option<Pick>, AllocError>
        ensures { NextDeal (holding_of self.old) (holding_of self.new) result }
    {
        self.rouse()?;
        Ok(self.choose())
    }

    /// Hands a message out to a subscriber in mode `auto`: it is gone.
    ///
    /// # Errors
    /// If an allocation fails; then nothing has changed.
    fn hand_auto<S: Sink>(
        &mut self,
        message: KeyedPlace,
        to: KeyedPlace,
        sink: &mut S,
    ) -> Result<(), AllocError>
        ensures hands { HandsOut S.takes true message.number to.number (holding_of self.old) sink.old
            (holding_of self.new) sink.new result }
        ensures whole { HandsWhole (holding_of self.old) message.number to.number (holding_of self.new) }
    {
        // Message and taker are there: the pick was made by the same call of `dispatch`.
        let Some(stored) = self.messages.get(message.number, message.key) else {
            return Ok(());
        };
        let Some(subscriber) = self.subscribers.get(to.number, to.key) else {
            return Ok(());
        };
        let sent = stored.sent().get();
        // Before all else, since only the sink can fail here.
        sink.deliver(message.number, sent, subscriber.subscription(), None)?;
        count_fewer(&mut self.destinations, &sent.destination);
        self.messages
            .set(message.number, message.key, Standing::Gone);
        // Set to gone before: `purge` takes out nothing else.
        self.purge(message.number, message.key);
        Ok(())
    }

    /// Hands a message out to a subscriber that is to answer, as the next delivery; the subscriber notes it.
    ///
    /// # Errors
    /// If an allocation fails; then nothing has changed, but that what the subscriber noted of the message before, which
    /// is stale, may be forgotten.
    fn hand_out<S: Sink>(
        &mut self,
        message: KeyedPlace,
        to: KeyedPlace,
        sink: &mut S,
    ) -> Result<(), AllocError>
        ensures hands { HandsOut S.takes false message.number to.number (holding_of self.old) sink.old
            (holding_of self.new) sink.new result }
        ensures whole { HandsWhole (holding_of self.old) message.number to.number (holding_of self.new) }
        ensures notes { NotesNoMore self.old.subscribers message.number to.number self.new.subscribers result }
    {
        // A number is left: `may_take_more` asked for one before this taker was picked.
        let ack = self.given.saturating_add(1);
        let entry = Entry {
            ack,
            number: message.number,
            key: message.key,
        };
        // Noted before it is made: a delivery without a note could not be answered.
        self.subscribers.note(to.number, to.key, entry)?;
        let Some(stored) = self.messages.get(message.number, message.key) else {
            return Ok(());
        };
        let Some(subscriber) = self.subscribers.get(to.number, to.key) else {
            return Ok(());
        };
        let sent = stored.sent().get();
        let subscription = subscriber.subscription();
        let count = subscriber.count().saturating_add(1);
        match deliver_as(message.number, sent, subscription, ack, sink) {
            Ok(holder) => {
                // What follows allocates nothing, so a message that the sink has is out.
                self.subscribers.set_count(to.number, to.key, count);
                self.messages
                    .set(message.number, message.key, Standing::Out(holder));
                self.given = ack;
                Ok(())
            }
            Err(error) => {
                // It is tried again, and would be noted once more each time.
                self.subscribers.forget(to.number, to.key, message.number);
                Err(error)
            }
        }
    }

    /// Whether the subscriber at a place wants to give no answers.
    fn is_auto_at(&self, place: KeyedPlace) -> bool
        ensures { result ≡ is_auto_of (subscriber_at place.number self.now.subscribers) }
    {
        match self.subscribers.get(place.number, place.key) {
            Some(subscriber) => subscriber.subscription().mode.is_auto(),
            None => false,
        }
    }

    /// Makes a deal.
    ///
    /// # Errors
    /// If an allocation fails; then no message has gone out.
    pub fn hand<S: Sink>(&mut self, pick: Pick, sink: &mut S) -> Result<(), AllocError>
        ensures hands { Hands S.takes pick.message.number pick.taker.number (holding_of self.old) sink.old
            (holding_of self.new) sink.new result }
        ensures whole { HandsWhole (holding_of self.old) pick.message.number pick.taker.number (holding_of self.new) }
    {
        if self.is_auto_at(pick.taker) {
            self.hand_auto(pick.message, pick.taker, sink)
        } else {
            self.hand_out(pick.message, pick.taker, sink)
        }
    }
}
