//! One service, and what each event of a schedule does with it.

ghost use Rattle.endpoint.specs.Calls.{Commits, ComesBy, StillMatches, Stays};
ghost use Rattle.endpoint.specs.Deeds.{CommitMay};
ghost use Rattle.keep.specs.Failing.{through};
ghost use Rattle.schedule_mail.specs.Mails.{Mail};
ghost use Rattle.reception.specs.Answers.{Answers};
ghost use Rattle.reception.specs.Deeds.{TakeMay, TellsOfUse};
ghost use Rattle.schedule_service.specs.Channels.{AfterFault, CutsBoth, Meets, MeetsAlone, TakesChannel, with_channel};
ghost use Rattle.schedule_service.specs.Deeds.{DoubtStays, Matches, Goes, SiteMay, channels_of, FrameMay, HeldMay};
ghost use Rattle.schedule_service.specs.Deeds.{CameOn};
ghost use Rattle.schedule_service.specs.SiteSteps.{SiteStep, leaves_of, command_row, SendsRows, Falls, DrainsAlone};
ghost use Rattle.schedule_service.specs.SiteSteps.{DrainsOver, TakesFrame, TakesOne, waiting_of};
ghost use Rattle.schedule_service.specs.Outcomes.{fault_told};
ghost use Rattle.schedule_service.specs.SiteEvents.{Opens, Cuts, Resends, Commits as CommitsCommand, Arms, Reopens};
ghost use Rattle.schedule_service.specs.SiteEvents.{Stops, Fills, Carries, Takes, Drains};
ghost use Rattle.std.specs.Prelude.{◌≡◌, Some, None, ◌≤◌};
ghost use Rattle.stomp_wire.specs.declared.wire.Way.TheVariants.{Up, Down};

use crate::outcomes::{
    decoder_fate, decoder_told, drain_fate, drain_told, fall_fate, fall_told, fault_told,
    fill_fate, fill_told, rise_told, taken_fate, taken_told,
};
use crate::site_channel::hang_up;
use crate::{ChannelFate, SiteChannel};
use activities::Handler;
use base::limits::MAX_BODY;
use channel::Channel;
use endpoint::{Committed, EndFault, Endpoint};
use keep::{Faulty, Keep, Leaves};
use reception::{ReceptionFault, Taken, take_frame};
use relay::Relay;
use schedule_mail::{Connection, Mail};
use schedule_text::{ConnectionNumber, FailureLeaves, Ordinal, Outcome, SeatCommand};
use std::alloc::Global;
use stomp_frame::Frame;
use stomp_wire::Way;

/// One service: its endpoint, over a store that fails where it is told to, and its two connections with the broker,
/// where they are open.
#[derive(Drop)]
pub struct Site<H, K>
where
    H: Handler,
    K: Keep<State = H::State, Command = H::Command> + Drop,
{
    /// The endpoint.
    pub endpoint: Endpoint<H, Faulty<K>>,
    /// The connection of number 0.
    pub zero: Option<SiteChannel>,
    /// The connection of number 1.
    pub one: Option<SiteChannel>,
}

/// Which tables a store leaves.
fn leaves_of(leaves: FailureLeaves) -> Leaves
    ensures { result ≡ leaves_of leaves }
{
    match leaves {
        FailureLeaves::Old => Leaves::Old,
        FailureLeaves::New => Leaves::New,
    }
}

/// Gives an equal command to an endpoint.
fn commit_copy<H, K>(
    alloc: Global,
    endpoint: &mut Endpoint<H, K>,
    asked: &SeatCommand<H::Command>,
) -> Result<Committed, EndFault>
where
    H: Handler,
    K: Keep<State = H::State, Command = H::Command> + Drop,
    ensures commits { Commits K.seen endpoint.old endpoint.new H.service (command_row asked.now) result }
    ensures comes { ComesBy K.seen endpoint.old endpoint.new H.service (CommitMay H.service (command_row asked.now)
        result) }
    ensures matches { StillMatches K.seen endpoint.old endpoint.new H.service }
{
    // The endpoint's own first tests, made before the copy, so that a failed allocation hides neither fault.
    if !endpoint.usable() {
        return Err(EndFault::Unusable);
    }
    if asked.entity.kind() != H::kind() {
        return Err(EndFault::NotMine);
    }
    // A schedule's events are only lent, and `commit` consumes its command.
    let command = H::copy_command(alloc, &asked.command)?;
    endpoint.commit(alloc, asked.seat.get(), &asked.entity, command)
}

/// Takes a frame that came on a connection. It waits there again where it wasn't taken for want of memory or of a
/// number.
fn receive<H, K>(
    alloc: Global,
    endpoint: &mut Endpoint<H, K>,
    channel: &mut Channel,
    frame: Frame<MAX_BODY>,
) -> Result<Taken, ReceptionFault>
where
    H: Handler,
    K: Keep<State = H::State, Command = H::Command> + Drop,
    ensures doubt { (K.seen endpoint.old).doubt ≤ (K.seen endpoint.new).doubt }
    ensures matches { StillMatches K.seen endpoint.old endpoint.new H.service }
    ensures comes { ComesBy K.seen endpoint.old endpoint.new H.service (TakeMay H.service frame result) }
    ensures used { TellsOfUse K.seen H.service.kind frame endpoint.old endpoint.new result }
    ensures answers { Answers H.service.kind frame channel.old.client.client channel.new.client.client result }
    ensures rest { channel.new ≡ record channel.old { client = channel.new.client; waiting = waiting_of result frame } }
{
    match take_frame(alloc, endpoint, &mut channel.client, frame) {
        Ok(taken) => {
            channel.waiting = None;
            Ok(taken)
        }
        Err(untaken) => {
            // A frame only if nothing was written for it: kept after its answer, it would be answered twice.
            channel.waiting = untaken.frame;
            Err(untaken.fault)
        }
    }
}

impl<H, K> Site<H, K>
where
    H: Handler,
    K: Keep<State = H::State, Command = H::Command> + Drop,
{
    /// The service of this endpoint, with no connection.
    pub fn new(endpoint: Endpoint<H, Faulty<K>>) -> Self
        ensures { result ≡ record { endpoint = endpoint; zero = None; one = None } }
    {
        Site {
            endpoint,
            zero: None,
            one: None,
        }
    }

    /// Cuts both connections, that of number 0 first.
    pub fn disconnect(&mut self, mail: &mut Mail)
        ensures cuts { CutsBoth self.old mail.old self.new mail.new }
        ensures store { self.new.endpoint ≡ self.old.endpoint }
    {
        hang_up(self.zero.take(), mail);
        hang_up(self.one.take(), mail);
    }

    /// What is told of a fault of the endpoint. Where the store failed both connections are cut.
    pub fn after(&mut self, mail: &mut Mail, fault: EndFault) -> Outcome
        ensures told { result ≡ fault_told fault }
        ensures after { AfterFault fault self.old mail.old self.new mail.new }
        ensures store { self.new.endpoint ≡ self.old.endpoint }
    {
        match fault {
            // As in a live service: no later frame may speak of what the store doesn't have.
            EndFault::StoreFailed => self.disconnect(mail),
            _ => {}
        }
        fault_told(fault)
    }

    /// Takes a connection out, where it is open.
    pub(crate) fn take_channel(&mut self, number: ConnectionNumber) -> Option<SiteChannel>
        ensures takes { TakesChannel number self.old self.new result }
        ensures store { self.new.endpoint ≡ self.old.endpoint }
    {
        match number {
            ConnectionNumber::Zero => self.zero.take(),
            ConnectionNumber::One => self.one.take(),
        }
    }

    /// Puts an open connection in.
    pub(crate) fn put_channel(&mut self, number: ConnectionNumber, channel: SiteChannel)
        ensures { self.new ≡ with_channel number (Some channel) self.old }
    {
        match number {
            ConnectionNumber::Zero => self.zero = Some(channel),
            ConnectionNumber::One => self.one = Some(channel),
        }
    }

    /// No connection has this number.
    fn clear_channel(&mut self, number: ConnectionNumber)
        ensures { self.new ≡ with_channel number None self.old }
    {
        match number {
            ConnectionNumber::Zero => self.zero = None,
            ConnectionNumber::One => self.one = None,
        }
    }

    /// Gives a connection that was taken out its fate.
    pub(crate) fn meet(
        &mut self,
        mail: &mut Mail,
        fate: ChannelFate,
        number: ConnectionNumber,
        channel: SiteChannel,
    )
        ensures meets { Meets fate number channel self.old mail.old self.new mail.new }
        ensures store { self.new.endpoint ≡ self.old.endpoint }
    {
        match fate {
            ChannelFate::Stays => self.put_channel(number, channel),
            ChannelFate::IsCut => {
                // Empty since the channel was taken out, but no clause of this call says so.
                self.clear_channel(number);
                hang_up(Some(channel), mail);
            }
            ChannelFate::BothAreCut => {
                // Put back, so that both are cut in the order of their numbers, whichever met the failure.
                self.put_channel(number, channel);
                self.disconnect(mail);
            }
        }
    }

    /// Gives both connections their fate, where none was taken out.
    pub(crate) fn meet_alone(&mut self, mail: &mut Mail, fate: ChannelFate)
        ensures meets { MeetsAlone fate self.old mail.old self.new mail.new }
        ensures store { self.new.endpoint ≡ self.old.endpoint }
    {
        match fate {
            ChannelFate::BothAreCut => self.disconnect(mail),
            ChannelFate::Stays | ChannelFate::IsCut => {}
        }
    }

    /// Opens a connection: a new session, in which CONNECT waits to be carried; nothing counts as sent on it.
    ///
    /// Outcomes: `Opened`; `Already` where it is open; `Refused` with 44, 34 or 36, as [`Connection::open`] tells it.
    /// Nothing has changed then.
    pub fn open(&mut self, alloc: Global, mail: &mut Mail, number: ConnectionNumber) -> Outcome
        ensures did { SiteStep K.seen H.service (Opens number) result self.old mail.old self.new mail.new }
        ensures doubt { DoubtStays K.seen self.old self.new }
        ensures matches { Matches K.seen self.old self.new H.service }
        ensures comes { Goes K.seen self.old self.new H.service (SiteMay H.service (channels_of self.old) (Opens number)
            result) }
    {
        if let Some(channel) = self.take_channel(number) {
            // Put back as it was: a second session would lose what is on its way.
            self.put_channel(number, channel);
            return Outcome::Already;
        }
        match Connection::open(alloc, mail) {
            Ok(connection) => {
                let relay = Relay::new(alloc);
                self.put_channel(number, SiteChannel { connection, relay });
                Outcome::Opened
            }
            Err(fault) => Outcome::Refused(fault.number()),
        }
    }

    /// Cuts a connection: all octets on the way are lost, the broker drops the session, and deals what was out to it to
    /// others.
    ///
    /// Outcomes: `Cut`; `Closed` where it isn't open, and nothing has changed.
    pub fn cut(&mut self, mail: &mut Mail, number: ConnectionNumber) -> Outcome
        ensures did { SiteStep K.seen H.service (Cuts number) result self.old mail.old self.new mail.new }
        ensures doubt { DoubtStays K.seen self.old self.new }
        ensures matches { Matches K.seen self.old self.new H.service }
        ensures comes { Goes K.seen self.old self.new H.service (SiteMay H.service (channels_of self.old) (Cuts number)
            result) }
    {
        let Some(channel) = self.take_channel(number) else {
            return Outcome::Closed;
        };
        hang_up(Some(channel), mail);
        Outcome::Cut
    }

    /// Takes in a seat's command.
    ///
    /// Outcomes: `Committed`, with its position; `NotDone` where it is refused as business; `Refused` with 60 or 63 to
    /// 66, as [`Endpoint::commit`] tells it. After 63 both connections are cut.
    pub fn commit(
        &mut self,
        alloc: Global,
        mail: &mut Mail,
        asked: &SeatCommand<H::Command>,
    ) -> Outcome
        ensures did { SiteStep K.seen H.service (CommitsCommand asked.now) result self.old mail.old self.new mail.new }
        ensures doubt { DoubtStays K.seen self.old self.new }
        ensures matches { Matches K.seen self.old self.new H.service }
        ensures comes { Goes K.seen self.old self.new H.service (SiteMay H.service (channels_of self.old)
            (CommitsCommand asked.now) result) }
    {
        match commit_copy(alloc, &mut self.endpoint, asked) {
            Ok(committed) => Outcome::Committed(committed.pos),
            Err(fault) => self.after(mail, fault),
        }
    }

    /// Lets the read or transaction of the store at this place from now on fail, once. An earlier arming is forgotten.
    ///
    /// The outcome is `Armed`.
    pub fn fail(&mut self, n: Ordinal, leaves: FailureLeaves) -> Outcome
        ensures did { (mail : Mail) → SiteStep K.seen H.service (Arms n leaves) result self.old mail self.new mail }
        ensures doubt { DoubtStays K.seen self.old self.new }
        ensures matches { Matches K.seen self.old self.new H.service }
        ensures comes { Goes K.seen self.old self.new H.service (SiteMay H.service (channels_of self.old)
            (Arms n leaves) result) }
    {
        self.endpoint.arm(n.get(), leaves_of(leaves));
        Outcome::Armed
    }

    /// Opens the store anew: its tables are some that a stop may have left.
    ///
    /// Outcomes: `Reopened`; `Refused` with 63 or 64, and a stop leaves nothing that it couldn't leave before. After 63
    /// both connections are cut.
    pub fn reopen(&mut self, alloc: Global, mail: &mut Mail) -> Outcome
        ensures did { SiteStep K.seen H.service Reopens result self.old mail.old self.new mail.new }
        ensures doubt { DoubtStays K.seen self.old self.new }
        ensures matches { Matches K.seen self.old self.new H.service }
        ensures comes { Goes K.seen self.old self.new H.service (SiteMay H.service (channels_of self.old) Reopens
            result) }
    {
        match self.endpoint.reopen(alloc) {
            Ok(()) => Outcome::Reopened,
            Err(fault) => self.after(mail, fault),
        }
    }

    /// Stops the service and starts it again: both connections are cut, the store is opened anew, and no call of it is
    /// to fail.
    ///
    /// Outcomes: `Stopped`; `Refused` with 63 or 64, where the store couldn't be opened.
    pub fn stop(&mut self, alloc: Global, mail: &mut Mail) -> Outcome
        ensures did { SiteStep K.seen H.service Stops result self.old mail.old self.new mail.new }
        ensures doubt { DoubtStays K.seen self.old self.new }
        ensures matches { Matches K.seen self.old self.new H.service }
        ensures comes { Goes K.seen self.old self.new H.service (SiteMay H.service (channels_of self.old) Stops
            result) }
    {
        let answer = self.endpoint.reopen(alloc);
        // This and the cuts even if the reopening failed: a stopped process has no connections and nothing armed.
        self.endpoint.disarm();
        self.disconnect(mail);
        match answer {
            Ok(()) => Outcome::Stopped,
            Err(fault) => fault_told(fault),
        }
    }

    /// Sends the rows of the outbox that weren't sent on a connection, at most so many. Before CONNECTED it sends none,
    /// and the store isn't called.
    ///
    /// Outcomes: `Sent`, with how many; `Closed` where the connection isn't open; `Refused` as
    /// [`Relay::resume`](relay::Relay::resume) tells it: the rows before stay sent. After 63 both connections are cut.
    pub fn fill(&mut self, mail: &mut Mail, number: ConnectionNumber, limit: u64) -> Outcome
        ensures did { SiteStep K.seen H.service (Fills number limit) result self.old mail.old self.new mail.new }
        ensures doubt { DoubtStays K.seen self.old self.new }
        ensures matches { Matches K.seen self.old self.new H.service }
        ensures comes { Goes K.seen self.old self.new H.service (SiteMay H.service (channels_of self.old)
            (Fills number limit) result) }
    {
        match self.take_channel(number) {
            Some(channel) => self.fill_on(mail, number, channel, limit),
            None => Outcome::Closed,
        }
    }

    /// Sends rows on a connection, which was taken out.
    fn fill_on(
        &mut self,
        mail: &mut Mail,
        number: ConnectionNumber,
        mut channel: SiteChannel,
        limit: u64,
    ) -> Outcome
        ensures did { SendsRows K.seen H.service number limit channel result self.old mail.old self.new mail.new }
        ensures doubt { DoubtStays K.seen self.old self.new }
        ensures matches { Matches K.seen self.old self.new H.service }
        ensures stays { Stays (through K.seen) self.old.endpoint self.new.endpoint }
    {
        let limit = limit as usize;
        // A connection's relay serves this service alone, so that its cursor is right of the outbox.
        let answer = channel.relay.resume(
            &mut channel.connection.channel.client,
            &mut self.endpoint,
            limit,
        );
        // The fate first, since the outcome consumes the answer.
        self.meet(mail, fill_fate(&answer), number, channel);
        fill_told(answer)
    }

    /// Makes all rows of the outbox due again on a connection.
    ///
    /// Outcomes: `Due`; `Closed` where it isn't open.
    pub fn resend(&mut self, number: ConnectionNumber) -> Outcome
        ensures did { (mail : Mail) → SiteStep K.seen H.service (Resends number) result self.old mail self.new mail }
        ensures doubt { DoubtStays K.seen self.old self.new }
        ensures matches { Matches K.seen self.old self.new H.service }
        ensures comes { Goes K.seen self.old self.new H.service (SiteMay H.service (channels_of self.old)
            (Resends number) result) }
    {
        let Some(mut channel) = self.take_channel(number) else {
            return Outcome::Closed;
        };
        channel.relay.forget();
        self.put_channel(number, channel);
        Outcome::Due
    }

    /// Carries the first octets that wait on a way of a connection, at most so many: up to the broker, which is called
    /// also where none wait, or down to the decoder.
    ///
    /// Outcomes: `Carried`, with how many; `Closed` where the connection isn't open; up, `Refused` with 34 where memory
    /// was refused to the broker: the octets went over whole, or nothing has changed; down, `Refused` with 44 where
    /// memory was refused to the decoder, and nothing has changed, and with 12 where it has met a fault, and the
    /// connection is cut.
    pub fn carry(
        &mut self,
        mail: &mut Mail,
        number: ConnectionNumber,
        way: Way,
        most: u64,
    ) -> Outcome
        ensures did { SiteStep K.seen H.service (Carries number way most) result self.old mail.old self.new mail.new }
        ensures doubt { DoubtStays K.seen self.old self.new }
        ensures matches { Matches K.seen self.old self.new H.service }
        ensures comes { Goes K.seen self.old self.new H.service (SiteMay H.service (channels_of self.old)
            (Carries number way most) result) }
    {
        match way {
            Way::Up => self.carry_up(mail, number, most),
            Way::Down => self.carry_down(mail, number, most),
        }
    }

    /// Carries octets up.
    fn carry_up(&mut self, mail: &mut Mail, number: ConnectionNumber, most: u64) -> Outcome
        ensures did { SiteStep K.seen H.service (Carries number Up most) result self.old mail.old self.new mail.new }
        ensures store { self.new.endpoint ≡ self.old.endpoint }
    {
        let Some(mut channel) = self.take_channel(number) else {
            return Outcome::Closed;
        };
        let answer = channel.connection.carry_up(mail, most);
        self.put_channel(number, channel);
        rise_told(answer)
    }

    /// Carries octets down.
    fn carry_down(&mut self, mail: &mut Mail, number: ConnectionNumber, most: u64) -> Outcome
        ensures did { SiteStep K.seen H.service (Carries number Down most) result self.old mail.old self.new mail.new }
        ensures store { self.new.endpoint ≡ self.old.endpoint }
    {
        match self.take_channel(number) {
            Some(channel) => self.carry_down_on(mail, number, channel, most),
            None => Outcome::Closed,
        }
    }

    /// Carries octets down on a connection, which was taken out.
    fn carry_down_on(
        &mut self,
        mail: &mut Mail,
        number: ConnectionNumber,
        mut channel: SiteChannel,
        most: u64,
    ) -> Outcome
        ensures did { Falls number most channel result self.old mail.old self.new mail.new }
        ensures store { self.new.endpoint ≡ self.old.endpoint }
    {
        let answer = channel.connection.carry_down(mail, most);
        self.meet(mail, fall_fate(&answer), number, channel);
        fall_told(answer)
    }

    /// Takes the next frame that came on a connection, as [`take_frame`] does.
    ///
    /// Outcomes: `Connected`, `Receipt`, `Handled`, `Repeated`, `Held` and `Settled`; `Error`, and the connection is
    /// cut; `Idle` where no whole frame came; `Closed` where the connection isn't open. `Refused`:
    /// - with 44, 45 or 51: the frame still waits;
    /// - with 50, 60, 62 or 64 to 67: it was answered;
    /// - with 2 to 12 where octets are at fault, and with 42 where no server may send the frame: the connection is cut;
    /// - with 63: both connections are cut.
    pub fn take(&mut self, alloc: Global, mail: &mut Mail, number: ConnectionNumber) -> Outcome
        ensures did { SiteStep K.seen H.service (Takes number) result self.old mail.old self.new mail.new }
        ensures doubt { DoubtStays K.seen self.old self.new }
        ensures matches { Matches K.seen self.old self.new H.service }
        ensures comes { Goes K.seen self.old self.new H.service (SiteMay H.service (channels_of self.old) (Takes number)
            result) }
    {
        match self.take_channel(number) {
            Some(channel) => self.take_on(alloc, mail, number, channel),
            None => Outcome::Closed,
        }
    }

    /// Takes the next frame that came on a connection, which was taken out.
    fn take_on(
        &mut self,
        alloc: Global,
        mail: &mut Mail,
        number: ConnectionNumber,
        mut channel: SiteChannel,
    ) -> Outcome
        ensures did { TakesOne K.seen H.service number channel result self.old mail.old self.new mail.new }
        ensures doubt { DoubtStays K.seen self.old self.new }
        ensures matches { Matches K.seen self.old self.new H.service }
        ensures comes { ComesBy (through K.seen) self.old.endpoint self.new.endpoint H.service
            (FrameMay H.service (CameOn (Some channel)) result) }
    {
        match channel.connection.channel.next() {
            Ok(None) => {
                self.put_channel(number, channel);
                Outcome::Idle
            }
            Ok(Some(frame)) => self.take_frame(alloc, mail, number, channel, frame),
            Err(fault) => {
                self.meet(mail, decoder_fate(fault), number, channel);
                decoder_told(fault)
            }
        }
    }

    /// Takes a frame that came on a connection, which was taken out.
    fn take_frame(
        &mut self,
        alloc: Global,
        mail: &mut Mail,
        number: ConnectionNumber,
        mut channel: SiteChannel,
        frame: Frame<MAX_BODY>,
    ) -> Outcome
        ensures did { TakesFrame K.seen H.service number channel frame result self.old mail.old self.new mail.new }
        ensures doubt { DoubtStays K.seen self.old self.new }
        ensures matches { Matches K.seen self.old self.new H.service }
        ensures comes { ComesBy (through K.seen) self.old.endpoint self.new.endpoint H.service
            (FrameMay H.service (λ f. f ≡ frame) result) }
    {
        let answer = receive(
            alloc,
            &mut self.endpoint,
            &mut channel.connection.channel,
            frame,
        );
        self.meet(mail, taken_fate(&answer), number, channel);
        taken_told(answer)
    }

    /// Handles the next letter of the first pair that has it held. Where the connection is connected it writes a settle
    /// of it, in no transaction.
    ///
    /// Outcomes: `Drained`; `Idle` where no pair's next letter is held; `Refused` as [`drain`](reception::drain) tells
    /// it. After 63 both connections are cut.
    pub fn drain(&mut self, alloc: Global, mail: &mut Mail, number: ConnectionNumber) -> Outcome
        ensures did { SiteStep K.seen H.service (Drains number) result self.old mail.old self.new mail.new }
        ensures doubt { DoubtStays K.seen self.old self.new }
        ensures matches { Matches K.seen self.old self.new H.service }
        ensures comes { Goes K.seen self.old self.new H.service (SiteMay H.service (channels_of self.old)
            (Drains number) result) }
    {
        match self.take_channel(number) {
            Some(channel) => self.drain_over(alloc, mail, number, channel),
            None => self.drain_alone(alloc, mail),
        }
    }

    /// Handles a held letter over a connection, which was taken out.
    fn drain_over(
        &mut self,
        alloc: Global,
        mail: &mut Mail,
        number: ConnectionNumber,
        mut channel: SiteChannel,
    ) -> Outcome
        ensures did { DrainsOver K.seen H.service number channel result self.old mail.old self.new mail.new }
        ensures doubt { DoubtStays K.seen self.old self.new }
        ensures matches { Matches K.seen self.old self.new H.service }
        ensures comes { ComesBy (through K.seen) self.old.endpoint self.new.endpoint H.service
            (HeldMay H.service result) }
    {
        let answer = reception::drain(
            alloc,
            &mut self.endpoint,
            &mut channel.connection.channel.client,
        );
        self.meet(mail, drain_fate(&answer), number, channel);
        drain_told(answer)
    }

    /// Handles a held letter where the connection isn't open.
    fn drain_alone(&mut self, alloc: Global, mail: &mut Mail) -> Outcome
        ensures did { DrainsAlone K.seen H.service result self.old mail.old self.new mail.new }
        ensures doubt { DoubtStays K.seen self.old self.new }
        ensures matches { Matches K.seen self.old self.new H.service }
        ensures comes { ComesBy (through K.seen) self.old.endpoint self.new.endpoint H.service
            (HeldMay H.service result) }
    {
        let answer = reception::drain_unconnected(alloc, &mut self.endpoint);
        self.meet_alone(mail, drain_fate(&answer));
        drain_told(answer)
    }
}
