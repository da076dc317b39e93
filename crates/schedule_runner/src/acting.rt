//! What one service is told to do, and which of its functions does it.

ghost use Rattle.schedule_mail.specs.Mails.{Mail};
ghost use Rattle.schedule_runner.specs.Events.{asked_of};
ghost use Rattle.schedule_service.specs.Deeds.{DoubtStays, Matches, Goes, SiteMay, channels_of};
ghost use Rattle.schedule_service.specs.SiteSteps.{SiteStep};

use activities::Handler;
use keep::Keep;
use schedule_mail::Mail;
use schedule_service::Site;
use schedule_text::{ConnectionNumber, FailureLeaves, Ordinal, Outcome};
use std::alloc::Global;
use stomp_wire::Way;

/// What a service is told to do, but for commands.
#[derive(Clone, Copy, Debug, PartialEq, Eq)]
pub enum ServiceEvent {
    /// Opens a connection.
    Open(ConnectionNumber),
    /// Cuts it.
    Cut(ConnectionNumber),
    /// Sends rows on it, at most so many.
    Fill(ConnectionNumber, u64),
    /// Makes all rows due on it again.
    Resend(ConnectionNumber),
    /// Carries octets, at most so many.
    Carry(ConnectionNumber, Way, u64),
    /// Takes a frame.
    Take(ConnectionNumber),
    /// Handles a held letter.
    Drain(ConnectionNumber),
    /// Lets a call of the store fail.
    Fail(Ordinal, FailureLeaves),
    /// Opens the store anew.
    Reopen,
    /// Stops the service and starts it again.
    Stop,
}

/// The service does it.
pub(crate) fn act<H, K>(
    alloc: Global,
    site: &mut Site<H, K>,
    mail: &mut Mail,
    event: ServiceEvent,
) -> Outcome
where
    H: Handler,
    K: Keep<State = H::State, Command = H::Command> + Drop,
    ensures did { SiteStep K.seen H.service (asked_of event) result site.old mail.old site.new mail.new }
    ensures doubt { DoubtStays K.seen site.old site.new }
    ensures matches { Matches K.seen site.old site.new H.service }
    ensures comes { Goes K.seen site.old site.new H.service (SiteMay H.service (channels_of site.old) (asked_of event)
        result) }
{
    // Commands are no such events: their type is each service's own, and this function is for all three.
    match event {
        ServiceEvent::Open(number) => site.open(alloc, mail, number),
        ServiceEvent::Cut(number) => site.cut(mail, number),
        ServiceEvent::Fill(number, limit) => site.fill(mail, number, limit),
        ServiceEvent::Resend(number) => site.resend(number),
        ServiceEvent::Carry(number, way, most) => site.carry(mail, number, way, most),
        ServiceEvent::Take(number) => site.take(alloc, mail, number),
        ServiceEvent::Drain(number) => site.drain(alloc, mail, number),
        ServiceEvent::Fail(n, leaves) => site.fail(n, leaves),
        ServiceEvent::Reopen => site.reopen(alloc, mail),
        ServiceEvent::Stop => site.stop(alloc, mail),
    }
}
