//! The end of the standard input.

use broker_server::Stop;
use mio::unix::SourceFd;
use mio::{Events, Interest, Poll, Token};
use std::alloc::Global;
use std::io;
use std::io::{ErrorKind, Read};
use std::net::Net;
use std::sync::Wait;
use std::time::Duration;

/// The descriptor of the standard input.
const DESCRIPTOR: i32 = 0;

const TOKEN: Token = Token(0);

/// How many octets are read at once.
const ROOM: usize = 4_096;

/// The milliseconds after which it's looked whether serving has ended by itself.
const TICK: u64 = 250;

/// Waits for the standard input.
#[derive(Drop)]
struct Waits {
    poll: Poll,
    events: Events<Global>,
}

impl Waits {
    /// A file can't be waited for, which is no fault: it is always ready.
    fn new<R: Net>(rt: &R, alloc: Global) -> io::Result<Waits> {
        let poll = Poll::new(rt)?;
        let descriptor = DESCRIPTOR;
        let mut source = SourceFd(&descriptor);
        poll.registry()
            .register(&mut source, TOKEN, Interest::READABLE)?;
        Ok(Waits {
            poll,
            events: Events::with_capacity(alloc, 1)?,
        })
    }

    /// Whether there is something to read, or an end, within a moment. It is told of once, and so asked for again.
    fn is_ready(&mut self) -> io::Result<bool> {
        self.poll
            .poll(&mut self.events, Some(Duration::from_millis(TICK)))?;
        let is_ready = !self.events.is_empty();
        if is_ready {
            let descriptor = DESCRIPTOR;
            let mut source = SourceFd(&descriptor);
            self.poll
                .registry()
                .reregister(&mut source, TOKEN, Interest::READABLE)?;
        }
        Ok(is_ready)
    }
}

/// Reads once: whether it has ended, or failed.
fn has_ended<I: Read>(input: &mut I, octets: &mut [u8]) -> bool {
    match input.read(octets) {
        Ok(count) => count == 0,
        // A read that a signal broke off says nothing of the input.
        Err(error) => error.kind() != ErrorKind::Interrupted,
    }
}

/// Reads the standard input until it has ended or failed, or serving has. What it says is thrown away. Where the system
/// refuses to wait for it, it is read all the same, and then the end of serving is seen behind its next octets.
pub fn wait_for_end<R: Net + Wait, I: Read>(rt: &R, alloc: Global, input: &mut I, stop: &Stop) {
    let mut octets = [0; ROOM];
    let mut waits = Waits::new(rt, alloc).ok();
    for _ in rt.forever() {
        let is_ready = match &mut waits {
            // A wait that fails counts as ready: the read then shows what there is.
            Some(waits) => waits.is_ready().unwrap_or(true),
            None => true,
        };
        // The stop first: the read may block, and nobody would end it.
        if stop.is_asked() || is_ready && has_ended(input, &mut octets) {
            return;
        }
    }
}
