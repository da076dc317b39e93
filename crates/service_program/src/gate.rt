//! What the program has to say to the threads of the service.

use crate::board::Board;
use crate::rows::show_entity;
use base::Pair;
use endpoint::EndFault;
use envelope::Envelope;
use log::{Log, warn};
use reception::ReceptionFault;
use service_workers::{Cut, Gate, Resting, Stop};
use std::alloc::{AllocError, Global};
use std::fmt::Display;
use std::sync::Wait;
use std::thread;
use std::time::{Clock, Duration};

/// How long a reader rests that finds the intake full, in microseconds.
const MOMENT: u64 = 50;

/// One run of the service's threads, which ends where connections are to be opened or all ends.
#[derive(Drop)]
pub struct BoardGate<'a> {
    alloc: Global,
    board: &'a Board,
    /// By what it ends.
    stop: &'a Stop,
}

impl<'a> BoardGate<'a> {
    /// It goes on until the board says otherwise.
    pub fn new(alloc: Global, board: &'a Board, stop: &'a Stop) -> BoardGate<'a> {
        BoardGate { alloc, board, stop }
    }

    /// Ends it where the board says so.
    fn look<R: Wait + Clock>(&self, rt: &R) {
        // Once a turn: else each rest would wake all the others again.
        if !self.stop.asked() && self.board.is_due(rt) {
            self.stop.ask();
            self.board.rests.wake_all();
        }
    }
}

/// Tells that a connection is no more, how that came, and why.
fn tell_end<R: Log, D: Display>(rt: &R, number: u8, how: &str, why: &D) {
    warn!(rt; "connection {number}{how}: {why}");
}

/// Tells why a connection ended. Each arm is one call: what an arm writes by itself is proved in each way to it.
fn tell_cut<R: Log>(rt: &R, number: u8, cut: &Cut) {
    match cut {
        Cut::Link(fault) => tell_end(rt, number, " ended", fault),
        Cut::Frame(fault) => tell_end(rt, number, " is cut", fault),
        Cut::Reception(fault) => tell_end(rt, number, " is cut", fault),
        Cut::Relay(fault) => tell_end(rt, number, " is cut", fault),
        Cut::Error(text) => tell_end(rt, number, ": ERROR of the broker", text),
    }
}

/// Whether what wasn't taken is no loss: its sender sends it again, and it's taken once it's its turn and there is memory.
fn comes_again(fault: ReceptionFault) -> bool {
    matches!(
        fault,
        ReceptionFault::End(EndFault::TooEarly | EndFault::Memory)
    )
}

/// An envelope in words, as a line of the log has it. Keys have their escapes: one may have an LF.
fn describe(alloc: Global, envelope: &Envelope) -> Result<String, AllocError> {
    match envelope {
        Envelope::Letter(letter) => {
            let from = show_entity(alloc, &letter.pair.from)?;
            let to = show_entity(alloc, &letter.pair.to)?;
            format!(in alloc; "letter {} from {from} to {to}", letter.number.get())
        }
        Envelope::Settle(pair, count) => {
            let from = show_entity(alloc, &pair.from)?;
            let to = show_entity(alloc, &pair.to)?;
            format!(in alloc; "that {to} has handled {count} letters of {from}")
        }
    }
}

/// Logs what was thrown away, and why. Where there is no memory for its words it's a message.
fn log_not_taken<R: Log>(
    rt: &R,
    alloc: Global,
    number: u8,
    fault: ReceptionFault,
    envelope: Option<&Envelope>,
) {
    let words = match envelope {
        Some(envelope) => describe(alloc, envelope),
        None => Err(AllocError),
    };
    match words {
        Ok(words) => warn!(rt; "connection {number}: {words} isn't taken: {fault}"),
        Err(_) => warn!(rt; "connection {number}: a message isn't taken: {fault}"),
    }
}

impl<R: Wait + Clock + Log> Gate<R> for BoardGate<'_> {
    // Nothing is to be done before a SEND: `test_live` has threads meet here.
    fn before_send(&self, _rt: &R) {}

    fn after_ingest(&self, _rt: &R) {
        // The line `await` may wait for the row.
        self.board.seat.unpark();
    }

    fn after_settle(&self, _rt: &R) {
        self.board.settles.note();
    }

    fn not_taken(&self, rt: &R, number: u8, fault: ReceptionFault, envelope: Option<&Envelope>) {
        if !comes_again(fault) {
            log_not_taken(rt, self.alloc, number, fault, envelope);
        }
    }

    fn refused(&self, _rt: &R, fault: EndFault) {
        self.board.heed(fault);
    }

    fn rest(&self, rt: &R, who: Resting) {
        match who {
            // Room in the intake wakes nobody, so a short sleep: a rest at the socket may last half a second.
            Resting::Full(_) => thread::sleep(rt, Duration::from_micros(MOMENT)),
            _ => self.board.wait(rt, who),
        }
        // After each rest: none is longer than half a second, so that a turn ends within that time of being due.
        self.look(rt);
    }

    fn wake(&self, _rt: &R, who: Resting) {
        self.board.rests.wake(who);
    }

    fn cut(&self, rt: &R, number: u8, cut: Cut) {
        tell_cut(rt, number, &cut);
        // Before `lose` wakes all: if the store has failed, they find the end and not only the pause.
        if let Cut::Reception(ReceptionFault::End(fault)) = cut {
            self.board.heed(fault);
        }
        self.board.lose(rt);
    }
}
