//! What is read of one service, and shown.

ghost use Rattle.std.specs.Prelude.{◌≡◌, None};
ghost use Rattle.keep.specs.Law.{Reads};
ghost use Rattle.keep.specs.Listing.{AreFirst};
ghost use Rattle.endpoint.specs.Calls.{Stays};
ghost use Rattle.endpoint.specs.Faults.{end_of};
ghost use Rattle.schedule_service.specs.Channels.{After};
ghost use Rattle.schedule_runner.specs.Looks.{most, IsRow, AreListed, mark_of, read_told, shown_told, ReadsSite};
ghost use Rattle.schedule_runner.specs.Looks.{StoreStays};

use activities::Handler;
use base::{Entity, Pair};
use endpoint::{EndFault, Endpoint};
use envelope::Letter;
use keep::Keep;
use schedule_mail::Mail;
use schedule_service::Site;
use schedule_shows::{Shown, show_frames, show_journal, show_row};
use schedule_text::Outcome;
use std::alloc::Global;

/// What of a service is shown row by row.
#[derive(Clone, Copy, Debug, PartialEq, Eq)]
pub enum Listing {
    /// The frames that it is to send.
    Frames,
    /// Its journal.
    Journal,
}

/// A number that a service has of a pair.
#[derive(Clone, Copy, Debug, PartialEq, Eq)]
pub enum Mark {
    /// How many letters were sent.
    Sent,
    /// How many of them are settled.
    Settled,
    /// How many were handled.
    Handled,
}

/// What the tables of two services have of a pair: the sender's how many letters it sent and how many of them are
/// settled, the receiver's how many it handled.
#[derive(Clone, Copy, Debug, PartialEq, Eq)]
pub struct PairTables {
    /// How many letters were sent.
    pub sent: u64,
    /// How many of them are settled.
    pub settled: u64,
    /// How many were handled.
    pub handled: u64,
}

/// The line of an entity's row. One read of the store.
fn row_line<H, K>(
    alloc: Global,
    endpoint: &mut Endpoint<H, K>,
    entity: &Entity,
) -> Result<Vec<u8>, EndFault>
where
    H: Shown,
    K: Keep<State = H::State, Command = H::Command> + Drop,
    requires { entity.now.kind ≡ H.service.kind }
    ensures read { Reads K.seen endpoint.old endpoint.new (λ t lines. IsRow H.shown_state entity.now t lines.items)
        (end_of result) }
    ensures stays { Stays K.seen endpoint.old endpoint.new }
{
    let row = endpoint.view(alloc, entity)?;
    Ok(show_row::<H>(alloc, entity, &row)?)
}

/// The letters that aren't settled. One read of the store.
fn letters_due<H, K>(alloc: Global, endpoint: &mut Endpoint<H, K>) -> Result<Vec<Letter>, EndFault>
where
    H: Handler,
    K: Keep<State = H::State, Command = H::Command> + Drop,
    ensures read { Reads K.seen endpoint.old endpoint.new (λ t letters. AreFirst t.unsettled None most letters.items)
        (end_of result) }
    ensures stays { Stays K.seen endpoint.old endpoint.new }
{
    // All in one read, which is what `fail` counts. A relay reads pages, since it may stop before the last.
    endpoint.unsettled(alloc, &None, usize::MAX)
}

/// The lines of the frames that the service is to send. One read of the store.
fn frame_lines<H, K>(alloc: Global, endpoint: &mut Endpoint<H, K>) -> Result<Vec<u8>, EndFault>
where
    H: Shown,
    K: Keep<State = H::State, Command = H::Command> + Drop,
    ensures read { Reads K.seen endpoint.old endpoint.new (λ t lines. AreListed H.shown_command Listing.Frames t
        lines.items)
        (end_of result) }
    ensures stays { Stays K.seen endpoint.old endpoint.new }
{
    let letters = letters_due(alloc, endpoint)?;
    match show_frames(alloc, letters.as_slice()) {
        Ok(lines) => Ok(lines),
        Err(_) => Err(EndFault::Memory),
    }
}

/// The lines of the journal. One read of the store.
fn journal_lines<H, K>(alloc: Global, endpoint: &mut Endpoint<H, K>) -> Result<Vec<u8>, EndFault>
where
    H: Shown,
    K: Keep<State = H::State, Command = H::Command> + Drop,
    ensures read { Reads K.seen endpoint.old endpoint.new (λ t lines. AreListed H.shown_command Listing.Journal t
        lines.items)
        (end_of result) }
    ensures stays { Stays K.seen endpoint.old endpoint.new }
{
    // From 1 on: rows come without their positions, and those that are printed are counted from 1.
    let rows = endpoint.journal(alloc, 1, usize::MAX)?;
    Ok(show_journal::<H>(alloc, rows.as_slice())?)
}

/// The lines of one of both.
fn listed<H, K>(
    alloc: Global,
    endpoint: &mut Endpoint<H, K>,
    listing: Listing,
) -> Result<Vec<u8>, EndFault>
where
    H: Shown,
    K: Keep<State = H::State, Command = H::Command> + Drop,
    ensures read { Reads K.seen endpoint.old endpoint.new (λ t lines. AreListed H.shown_command listing t lines.items)
        (end_of result) }
    ensures stays { Stays K.seen endpoint.old endpoint.new }
{
    match listing {
        Listing::Frames => frame_lines(alloc, endpoint),
        Listing::Journal => journal_lines(alloc, endpoint),
    }
}

/// A mark of a pair. One read of the store.
fn mark_read<H, K>(
    alloc: Global,
    endpoint: &mut Endpoint<H, K>,
    mark: Mark,
    pair: &Pair,
) -> Result<u64, EndFault>
where
    H: Handler,
    K: Keep<State = H::State, Command = H::Command> + Drop,
    ensures read { Reads K.seen endpoint.old endpoint.new (λ t n. n ≡ mark_of mark t pair.now) (end_of result) }
    ensures stays { Stays K.seen endpoint.old endpoint.new }
{
    match mark {
        Mark::Sent => endpoint.sent(alloc, pair),
        Mark::Settled => endpoint.settled(alloc, pair),
        Mark::Handled => endpoint.handled(alloc, pair),
    }
}

/// What was read, or the outcome of its fault. Where the store failed both connections are cut.
fn told<H, K, R>(
    site: &mut Site<H, K>,
    mail: &mut Mail,
    answer: Result<R, EndFault>,
) -> Result<R, Outcome>
where
    H: Handler,
    K: Keep<State = H::State, Command = H::Command> + Drop,
    ensures told { result ≡ read_told answer }
    ensures after { After answer site.old mail.old site.new mail.new }
    ensures store { site.new.endpoint ≡ site.old.endpoint }
{
    match answer {
        Ok(read) => Ok(read),
        Err(fault) => Err(site.after(mail, fault)),
    }
}

/// Shows the row of an entity of this service.
pub(crate) fn look_at_row<H, K>(
    alloc: Global,
    site: &mut Site<H, K>,
    mail: &mut Mail,
    entity: &Entity,
) -> Result<Vec<u8>, Outcome>
where
    H: Shown,
    K: Keep<State = H::State, Command = H::Command> + Drop,
    requires { entity.now.kind ≡ H.service.kind }
    ensures did { ReadsSite K.seen (λ t lines. IsRow H.shown_state entity.now t lines.items) result site.old mail.old
        site.new mail.new }
    ensures store { StoreStays K.seen site.old site.new }
{
    // Two steps: the read borrows the endpoint alone, and a failure cuts connections, which takes the whole site.
    let answer = row_line(alloc, &mut site.endpoint, entity);
    told(site, mail, answer)
}

/// Shows the frames that this service is to send, or its journal.
pub(crate) fn look_at_list<H, K>(
    alloc: Global,
    site: &mut Site<H, K>,
    mail: &mut Mail,
    listing: Listing,
) -> Result<Vec<u8>, Outcome>
where
    H: Shown,
    K: Keep<State = H::State, Command = H::Command> + Drop,
    ensures did { ReadsSite K.seen (λ t lines. AreListed H.shown_command listing t lines.items) result site.old mail.old
        site.new mail.new }
    ensures store { StoreStays K.seen site.old site.new }
{
    let answer = listed(alloc, &mut site.endpoint, listing);
    told(site, mail, answer)
}

/// Reads a mark of this service.
pub(crate) fn look_at_mark<H, K>(
    alloc: Global,
    site: &mut Site<H, K>,
    mail: &mut Mail,
    mark: Mark,
    pair: &Pair,
) -> Result<u64, Outcome>
where
    H: Handler,
    K: Keep<State = H::State, Command = H::Command> + Drop,
    ensures did { ReadsSite K.seen (λ t n. n ≡ mark_of mark t pair.now) result site.old mail.old site.new mail.new }
    ensures store { StoreStays K.seen site.old site.new }
{
    let answer = mark_read(alloc, &mut site.endpoint, mark, pair);
    told(site, mail, answer)
}

/// The outcome that shows lines, or that of a fault.
pub(crate) fn shown(lines: Result<Vec<u8>, Outcome>) -> Outcome
    ensures { result ≡ shown_told lines }
{
    match lines {
        Ok(lines) => Outcome::Shown(lines),
        Err(told) => told,
    }
}
