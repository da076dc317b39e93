//! Where the threads of the service rest.

use crate::rest::Rest;
use service_workers::Resting;
use std::alloc::Global;
use std::io;
use std::net::Net;
use std::sync::Wait;
use std::thread::Parker;
use std::time::Duration;

/// Where the threads of the service rest: a reader until its socket is ready, and each until it's woken. Who is woken
/// before it rests doesn't rest, so nobody misses a wake.
pub struct Rests {
    zero: Rest,
    one: Rest,
    worker: Parker,
    relay: Parker,
}

/// Written by hand, so that an owner doesn't prove at each of its exits how each part is dropped.
impl Drop for Rests {
    fn drop(self) {
        let Rests {
            zero: _zero,
            one: _one,
            worker: _worker,
            relay: _relay,
        } = self;
    }
}

impl Rests {
    /// Nobody rests.
    ///
    /// # Errors
    /// If the system or memory refuses what readers wait with.
    pub fn new<R: Net>(rt: &R, alloc: Global) -> io::Result<Rests> {
        Ok(Rests {
            zero: Rest::new(rt, alloc)?,
            one: Rest::new(rt, alloc)?,
            worker: Parker::new(),
            relay: Parker::new(),
        })
    }

    /// Where the reader of a connection rests.
    pub fn reader(&self, number: u8) -> &Rest {
        if number == 0 { &self.zero } else { &self.one }
    }

    /// Has a thread rest until it's woken, for this time at most.
    pub fn wait<R: Wait>(&self, rt: &R, who: Resting, most: Duration) {
        match who {
            Resting::Reader(number) | Resting::Full(number) => self.reader(number).wait(rt, most),
            Resting::Worker => self.worker.park_timeout(rt, most),
            Resting::Relay => self.relay.park_timeout(rt, most),
        }
    }

    /// Wakes a thread.
    pub fn wake(&self, who: Resting) {
        match who {
            Resting::Reader(number) | Resting::Full(number) => self.reader(number).wake(),
            Resting::Worker => self.worker.unpark(),
            Resting::Relay => self.relay.unpark(),
        }
    }

    /// Wakes all.
    pub fn wake_all(&self) {
        self.zero.wake();
        self.one.wake();
        self.worker.unpark();
        self.relay.unpark();
    }
}
