//! What the threads of the program tell each other.
//!
//! The thread that *answers* reads lines and prints what became of them. The thread that *serves* opens connections and runs
//! the service's threads in turns, in which it is the worker; a turn ends once something is due.
//!
//! ```text
//! state             set by                                         what follows
//! ----------------  ---------------------------------------------  ----------------------------------------------
//! life: ending      who answers, at the end of the input or if it  the turn ends, and no other begins: connections
//!                   fails (`end`)                                  are left by DISCONNECT, and closed
//! life: ending      whoever meets the store's failure (`heed`)     the same, but the connections are cut at once; who
//!   and broken                                                     answers reads no further line, and the exit
//!                                                                  status is 1
//! life: over        who serves, as its last step (`close`)         who answers waits for no asking any more
//! askings: one is   who answers, for the line `connect` (`ask`);   the turn ends, and who serves opens what isn't
//!   left            there is one at the start                      open
//! askings: open,    who serves, after each opening (`answer`)      who answers prints `connected N`
//!   answered
//! backoff: due      who serves: the next look at connections and   then the turn ends; who serves looks at all, and
//!                   letters, or the pause if one can't be opened;  opens what isn't open
//!                   whoever finds a connection cut (`lose`): the
//!                   pause
//! backoff: pause    whoever puts the opening off: it doubles from  how long the next attempt is put off
//!                   100 ms to 5 s; a cut makes it 100 ms first if
//!                   no connection was opened for 5 s
//! settles           the worker, one more for each that it took     letters aren't overdue while it grows
//! openings,         the thread that serves                         nothing: the line `status` shows them
//! waiting
//! rests, seat       whoever changes one of the above, or has work  a thread that is woken looks at what concerns it:
//!                   for another thread, wakes it                   a wake itself says nothing
//! ```

use crate::askings::Askings;
use crate::backoff::Backoff;
use crate::counts::Count;
use crate::life::Life;
use crate::rests::Rests;
use crate::waiting::Waiting;
use endpoint::EndFault;
use service_workers::Resting;
use std::alloc::Global;
use std::io;
use std::net::Net;
use std::sync::{Mutex, Wait};
use std::thread::Parker;
use std::time::{Clock, Duration, Instant};

/// How long a thread rests at most, in milliseconds: not all that it waits for wakes it.
const PATIENCE: u64 = 500;

/// What the threads of the program tell each other.
pub struct Board {
    begun: Instant,
    pub life: Life,
    pub askings: Askings,
    // Its three numbers change together: so they are a plain value under a lock, whose changes have contracts. What
    // only rises is an atomic.
    pub backoff: Mutex<Backoff>,
    /// How many settles the worker has taken: as long as this grows, receivers are at work.
    pub settles: Count,
    /// How often a connection was opened.
    pub openings: Count,
    pub waiting: Mutex<Waiting>,
    /// Where the threads of the service rest.
    pub rests: Rests,
    /// Where who answers rests.
    pub seat: Parker,
}

/// Written by hand, so that an owner doesn't prove at each of its exits how each part is dropped.
impl Drop for Board {
    fn drop(self) {
        let Board {
            begun: _,
            life: _life,
            askings: _askings,
            backoff: _backoff,
            settles: _settles,
            openings: _openings,
            waiting: _waiting,
            rests: _rests,
            seat: _seat,
        } = self;
    }
}

impl Board {
    /// The opening of connections is asked for once, and due.
    ///
    /// # Errors
    /// If the system or memory refuses what threads wait with.
    pub fn new<R: Net + Clock>(rt: &R, alloc: Global) -> io::Result<Board> {
        let rests = Rests::new(rt, alloc)?;
        Ok(Board {
            begun: Instant::now(rt)?,
            life: Life::new(),
            askings: Askings::new(),
            backoff: Mutex::new(Backoff::new()),
            settles: Count::new(),
            openings: Count::new(),
            waiting: Mutex::new(Waiting::new(alloc)),
            rests,
            seat: Parker::new(),
        })
    }

    /// The milliseconds since the program began; 0 where the system doesn't tell the time.
    pub fn now<R: Clock>(&self, rt: &R) -> u64 {
        match self.begun.elapsed(rt) {
            Ok(spent) => u64::try_from(spent.as_millis()).unwrap_or(u64::MAX),
            Err(_) => 0,
        }
    }

    /// Whether a turn has to end: the program ends, connections are asked for, or they are due.
    pub fn is_due<R: Wait + Clock>(&self, rt: &R) -> bool {
        // The lock and the clock last: each rest of each thread asks this.
        self.life.has_ended()
            || self.askings.are_left()
            || self.backoff.lock(rt).is_due(self.now(rt))
    }

    /// Has a thread of the service rest until it's woken or connections are due.
    pub fn wait<R: Wait + Clock>(&self, rt: &R, who: Resting) {
        let left = self.backoff.lock(rt).left(self.now(rt));
        // At least 1 ms: where something is due already, a rest of 0 would spin.
        let most = Duration::from_millis(left.clamp(1, PATIENCE));
        self.rests.wait(rt, who, most);
    }

    /// Asks that connections are opened now, and answers the number of the asking.
    pub fn ask(&self) -> u64 {
        let asking = self.askings.ask();
        self.rests.wake_all();
        asking
    }

    /// Answers askings up to this number: so many connections are open.
    pub fn answer(&self, asked: u64, open: u64) {
        self.askings.answer(asked, open);
        self.seat.unpark();
    }

    /// A connection was cut.
    pub fn lose<R: Wait + Clock>(&self, rt: &R) {
        // The state before the wake, here and below: whoever is woken has to find it.
        self.backoff.lock(rt).lose(self.now(rt));
        // A turn ends only once one of its threads looks at the board.
        self.rests.wake_all();
    }

    /// No line comes any more: the program ends.
    pub fn end(&self) {
        self.life.end();
        self.rests.wake_all();
    }

    /// The endpoint refused something: if the store has failed, the program ends.
    pub fn heed(&self, fault: EndFault) {
        if matches!(fault, EndFault::StoreFailed | EndFault::Unusable) {
            self.life.fail();
            self.rests.wake_all();
        }
    }

    /// The service's threads have ended for good: no asking is answered any more.
    pub fn close(&self) {
        self.life.close();
        // Nobody else is left to wake: the service's threads have ended.
        self.seat.unpark();
    }
}
