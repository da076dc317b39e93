//! The thread that answers lines.

ghost use Rattle.std.specs.Prelude.{◌≡◌};
ghost use Rattle.shared_endpoint.specs.Keys.{IsSeatOf, AreSeatsOf, seat_number};

use crate::asks::{Ask, read_ask};
use crate::board::Board;
use crate::business::{Business, LineFault};
use crate::console::Streams;
use crate::input::{Came, InputLines};
use crate::rows::show_row;
use activities::{Handler, Refusal};
use base::Entity;
use endpoint::EndFault;
use keep::Keep;
use log::{Log, info};
use service_workers::Resting;
use shared_endpoint::{Seat, Shared};
use std::alloc::Global;
use std::io;
use std::io::{BufRead, ErrorKind, Write};
use std::net::Net;
use std::sync::Wait;
use std::time::{Clock, Duration};

/// How often it's looked whether the journal has so many rows.
const TURNS: u32 = 1_000_000;

/// How long it is between two looks at most, in milliseconds.
const MOMENT: u64 = 1;

/// How long it's waited for a line or an answer at once, in milliseconds.
// Bounded: if the store has failed the program ends, though no line comes.
const PATIENCE: u64 = 500;

/// Where lines come from and where their answers go.
pub struct Desk<'a, I: BufRead + Drop, W: Write + Drop> {
    alloc: Global,
    board: &'a Board,
    input: InputLines<I>,
    out: W,
}

/// Written by hand, so that an owner doesn't prove at each of its exits how each part is dropped.
impl<'a, I: BufRead + Drop, W: Write + Drop> Drop for Desk<'a, I, W> {
    fn drop(self) {
        let Desk {
            alloc: _,
            board: _,
            input: _input,
            out: _out,
        } = self;
    }
}

/// Logs a refusal of business in words: on standard output its number is all that scripts compare.
fn log_refusal<H: Handler, R: Log>(rt: &R, refusal: Refusal) {
    match refusal {
        Refusal::Own(own) => {
            let word = H::refusal_word(own);
            info!(rt; "refused 61 {} {word}", own.number())
        }
        _ => info!(rt; "refused 61 {refusal}"),
    }
}

impl<'a, I: BufRead + Drop, W: Write + Drop> Desk<'a, I, W> {
    /// One for these streams.
    ///
    /// # Errors
    /// Where the system or memory refused what lines are waited for with.
    pub fn new<R: Net>(
        rt: &R,
        alloc: Global,
        board: &'a Board,
        streams: Streams<I, W>,
    ) -> io::Result<Desk<'a, I, W>> {
        let (input, descriptor, out) = streams.into_parts();
        Ok(Desk {
            alloc,
            board,
            input: InputLines::new(rt, alloc, input, descriptor)?,
            out,
        })
    }

    /// Answers a command that its business refuses.
    fn refuse_business<H: Handler, R: Log>(&mut self, rt: &R, refusal: Refusal) -> io::Result<()> {
        log_refusal::<H, R>(rt, refusal);
        writeln!(self.out, "refused 61 {}", refusal.number())
    }

    /// Answers a line that wasn't done.
    fn refuse<H: Handler, R: Log>(&mut self, rt: &R, fault: EndFault) -> io::Result<()> {
        // First, so that the exit status names the store even if the answer can't be written.
        self.board.heed(fault);
        match fault {
            EndFault::Business(refusal) => self.refuse_business::<H, R>(rt, refusal),
            _ => writeln!(self.out, "refused {}", fault.number()),
        }
    }

    /// Answers a line that is no line of this service.
    fn refuse_line(&mut self, fault: LineFault) -> io::Result<()> {
        writeln!(self.out, "refused {}", fault.number())
    }

    /// Waits until this asking is answered, or none is any more.
    fn wait_for_answer<R: Wait>(&mut self, rt: &R, asking: u64) {
        let board = self.board;
        for _ in rt.forever() {
            // Looked at after each wake: the seat is woken for handled letters too.
            if board.askings.is_answered(asking) || board.life.is_over() {
                break;
            }
            board.seat.park_timeout(rt, Duration::from_millis(PATIENCE));
        }
    }

    /// Prints how many connections are open, once this asking is answered.
    fn tell_connected<R: Wait>(&mut self, rt: &R, asking: u64) -> io::Result<()> {
        self.wait_for_answer(rt, asking);
        writeln!(self.out, "connected {}", self.board.askings.open())
    }

    /// Prints how far the service has come, whose journal has so many rows.
    fn tell_status<R: Wait + Clock>(&mut self, rt: &R, rows: u64) -> io::Result<()> {
        let board = self.board;
        let open = board.askings.open();
        let opened = board.openings.get();
        let settles = board.settles.get();
        let now = board.now(rt);
        // A statement of its own: as the scrutinee it would hold the lock until the line is written.
        let waiting = board.waiting.lock(rt).show(self.alloc, now);
        match waiting {
            Ok(letter) => writeln!(
                self.out,
                "status journal {rows} connected {open} opened {opened} settles {settles} unsettled {letter}"
            ),
            Err(_) => self.refuse_line(LineFault::Memory),
        }
    }

    /// Waits a moment for rows of the journal, unless it's in vain: the program ends, or its input is over, and with that
    /// goes whoever could want them. Whether it has waited.
    fn wait_for_rows<R: Wait>(&mut self, rt: &R) -> io::Result<bool> {
        let board = self.board;
        // Whoever closes the input of a program that waits wants it to end. But lines that come at once, as from a
        // file, end long before their answers: so the input is over only where no line is left of it.
        // The life is tested first: a failed store ends the wait without a look at the input.
        if board.life.has_ended() || self.input.is_over()? {
            return Ok(false);
        }
        board.seat.park_timeout(rt, Duration::from_millis(MOMENT));
        Ok(true)
    }
}

/// Gives a command, and has its letters sent.
fn commit<H, K, I: BufRead + Drop, W: Write + Drop, R: Wait + Clock + Log>(
    rt: &R,
    shared: &Shared<H, K>,
    seat: &mut Seat<H, K>,
    desk: &mut Desk<'_, I, W>,
    entity: &Entity,
    command: H::Command,
) -> io::Result<()>
where
    H: Handler,
    K: Keep<State = H::State, Command = H::Command> + Drop,
    requires seat { IsSeatOf shared.now seat.old }
    ensures seat { IsSeatOf shared.now seat.new × (seat_number seat.new ≡ seat_number seat.old) }
{
    match shared.commit(rt, desk.alloc, seat, entity, command) {
        Ok(committed) => {
            // Woken before the answer is written: letters don't wait for whoever reads standard output.
            desk.board.rests.wake(Resting::Relay);
            writeln!(desk.out, "committed {}", committed.pos)
        }
        Err(fault) => desk.refuse::<H, R>(rt, fault),
    }
}

/// Shows the row of an entity.
fn show<H, B, K, I: BufRead + Drop, W: Write + Drop, R: Wait + Clock + Log>(
    rt: &R,
    shared: &Shared<H, K>,
    seat: &mut Seat<H, K>,
    desk: &mut Desk<'_, I, W>,
    entity: &Entity,
) -> io::Result<()>
where
    H: Handler,
    B: Business<H>,
    K: Keep<State = H::State, Command = H::Command> + Drop,
    requires seat { IsSeatOf shared.now seat.old }
    ensures seat { IsSeatOf shared.now seat.new × (seat_number seat.new ≡ seat_number seat.old) }
{
    match shared.view(rt, desk.alloc, seat, entity) {
        // The line is made whole before it is written: if an allocation fails, no half of it was printed.
        Ok(row) => match show_row::<H, B>(desk.alloc, entity, &row) {
            Ok(line) => desk.out.write_all(line.as_slice()),
            Err(_) => desk.refuse::<H, R>(rt, EndFault::Memory),
        },
        Err(fault) => desk.refuse::<H, R>(rt, fault),
    }
}

/// Waits until the journal has so many rows, or the input is over, or for long, and prints how many it has.
fn await_rows<H, K, I: BufRead + Drop, W: Write + Drop, R: Wait + Clock + Log>(
    rt: &R,
    shared: &Shared<H, K>,
    seat: &mut Seat<H, K>,
    desk: &mut Desk<'_, I, W>,
    rows: u64,
) -> io::Result<()>
where
    H: Handler,
    K: Keep<State = H::State, Command = H::Command> + Drop,
    requires seat { IsSeatOf shared.now seat.old }
    ensures seat { IsSeatOf shared.now seat.new × (seat_number seat.new ≡ seat_number seat.old) }
{
    let mut length = shared.length(rt, seat);
    // Turns of 1 ms: the 1,000 seconds that `--help` names. A handled letter may end a turn earlier.
    for _ in 0..TURNS {
        let has_waited = match length {
            Ok(there) if there < rows => desk.wait_for_rows(rt)?,
            _ => false,
        };
        if !has_waited {
            break;
        }
        length = shared.length(rt, seat);
    }
    match length {
        Ok(there) => writeln!(desk.out, "journal {there}"),
        Err(fault) => desk.refuse::<H, R>(rt, fault),
    }
}

/// Prints how far the service has come. Connections that aren't open are opened meanwhile, as by `connect`: who does that
/// also looks which letters aren't settled.
fn status<H, K, I: BufRead + Drop, W: Write + Drop, R: Wait + Clock + Log>(
    rt: &R,
    shared: &Shared<H, K>,
    seat: &mut Seat<H, K>,
    desk: &mut Desk<'_, I, W>,
) -> io::Result<()>
where
    H: Handler,
    K: Keep<State = H::State, Command = H::Command> + Drop,
    requires seat { IsSeatOf shared.now seat.old }
    ensures seat { IsSeatOf shared.now seat.new × (seat_number seat.new ≡ seat_number seat.old) }
{
    // The turn has to end for this: only between turns is it seen what isn't settled.
    let asking = desk.board.ask();
    desk.wait_for_answer(rt, asking);
    match shared.length(rt, seat) {
        Ok(rows) => desk.tell_status(rt, rows),
        Err(fault) => desk.refuse::<H, R>(rt, fault),
    }
}

/// Does what a line asks for, and prints what became of it.
fn answer<H, B, K, I: BufRead + Drop, W: Write + Drop, R: Wait + Clock + Log>(
    rt: &R,
    shared: &Shared<H, K>,
    seat: &mut Seat<H, K>,
    desk: &mut Desk<'_, I, W>,
    ask: Ask<H::Command>,
) -> io::Result<()>
where
    H: Handler,
    B: Business<H>,
    K: Keep<State = H::State, Command = H::Command> + Drop,
    requires seat { IsSeatOf shared.now seat.old }
    ensures seat { IsSeatOf shared.now seat.new × (seat_number seat.new ≡ seat_number seat.old) }
{
    match ask {
        Ask::Nothing => Ok(()),
        Ask::Command(entity, command) => commit(rt, shared, seat, desk, &entity, command),
        Ask::Show(entity) => show::<H, B, K, I, W, R>(rt, shared, seat, desk, &entity),
        Ask::Connect => {
            let asking = desk.board.ask();
            desk.tell_connected(rt, asking)
        }
        Ask::Status => status(rt, shared, seat, desk),
        Ask::Await(rows) => await_rows(rt, shared, seat, desk, rows),
        Ask::Refused(fault) => desk.refuse_line(fault),
    }
}

/// Answers lines until they end, or the store has failed.
fn answer_all<H, B, K, I: BufRead + Drop, W: Write + Drop, R: Wait + Clock + Log>(
    rt: &R,
    shared: &Shared<H, K>,
    seat: &mut Seat<H, K>,
    desk: &mut Desk<'_, I, W>,
) -> io::Result<()>
where
    H: Handler,
    B: Business<H>,
    K: Keep<State = H::State, Command = H::Command> + Drop,
    requires seat { IsSeatOf shared.now seat.old }
    ensures seat { IsSeatOf shared.now seat.new × (seat_number seat.new ≡ seat_number seat.old) }
{
    // Asking 1 is on the board from the start: nobody gives a line for it.
    desk.tell_connected(rt, 1)?;
    desk.out.flush()?;
    for _ in rt.forever() {
        // Only a failed store ends it here: the lines that are left aren't read.
        if desk.board.life.has_ended() {
            break;
        }
        match desk.input.next(Duration::from_millis(PATIENCE)) {
            Ok(Came::Line(line)) => {
                let ask = read_ask::<H, B>(desk.alloc, line.as_slice());
                answer::<H, B, K, I, W, R>(rt, shared, seat, desk, ask)?;
                desk.out.flush()?;
            }
            // The spell is over: the loop looks whether the store has failed, though no line comes.
            Ok(Came::Nothing) => (),
            Ok(Came::End) => break,
            // The line isn't lost: it waits until there is memory.
            Err(error) if error.kind() == ErrorKind::OutOfMemory => {
                desk.board
                    .seat
                    .park_timeout(rt, Duration::from_millis(MOMENT));
            }
            Err(error) => return Err(error),
        }
    }
    Ok(())
}

/// Answers lines with the first of all seats, which come back, and then has all end.
pub fn answer_first<H, B, K, I: BufRead + Drop, W: Write + Drop, R: Wait + Clock + Log>(
    rt: &R,
    shared: &Shared<H, K>,
    mut seats: [Seat<H, K>; 16],
    desk: Desk<'_, I, W>,
) -> (io::Result<()>, [Seat<H, K>; 16])
where
    H: Handler,
    B: Business<H>,
    K: Keep<State = H::State, Command = H::Command> + Drop,
    requires seats { AreSeatsOf shared.now seats }
    ensures seats { AreSeatsOf shared.now result.1 }
{
    let mut desk = desk;
    // One seat is enough for lines that are answered one by one; the end of the life needs all sixteen back.
    let answered = answer_all::<H, B, K, I, W, R>(rt, shared, &mut seats[0], &mut desk);
    // Also after a stream that failed: nothing else ends the other threads.
    desk.board.end();
    (answered, seats)
}
