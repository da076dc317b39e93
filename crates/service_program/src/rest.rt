//! How a thread waits for a socket.

use mio::net::TcpStream;
use mio::{Events, Interest, Poll, Registry, Token, Waker};
use std::alloc::Global;
use std::io;
use std::net::Net;
use std::sync::{Mutex, Wait};
use std::time::Duration;

const SOCKET: Token = Token(0);

const WAKER: Token = Token(1);

/// What tells that a socket is ready.
#[derive(Drop)]
struct Ready {
    poll: Poll,
    events: Events<Global>,
}

/// Where one thread waits until a socket is ready or another thread wakes it. A socket that is closed is of no account
/// any more.
pub struct Rest {
    // Locked only to wait: sockets are registered and wakes sent by handles of their own, which wait for no poll.
    ready: Mutex<Ready>,
    registry: Registry,
    waker: Waker,
}

/// Written by hand, so that an owner doesn't prove at each of its exits how each part is dropped.
impl Drop for Rest {
    fn drop(self) {
        let Rest {
            ready: _ready,
            registry: _registry,
            waker: _waker,
        } = self;
    }
}

impl Rest {
    /// There is no socket yet.
    ///
    /// # Errors
    /// Where the system or memory refused what it waits with.
    pub fn new<R: Net>(rt: &R, alloc: Global) -> io::Result<Rest> {
        let poll = Poll::new(rt)?;
        let registry = poll.registry().try_clone()?;
        let waker = Waker::new(&registry, WAKER)?;
        let events = Events::with_capacity(alloc, 4)?;
        Ok(Rest {
            ready: Mutex::new(Ready { poll, events }),
            registry,
            waker,
        })
    }

    /// Waits for this socket from now on.
    ///
    /// # Errors
    /// Where the system refused it.
    pub fn watch(&self, stream: &mut TcpStream) -> io::Result<()> {
        let both = Interest::READABLE | Interest::WRITABLE;
        self.registry.register(stream, SOCKET, both)
    }

    /// Waits, for this time at most. Where the system refuses that it's as if the time were up.
    pub fn wait<R: Wait>(&self, rt: &R, most: Duration) {
        let mut guard = self.ready.lock(rt);
        let Ready { poll, events } = &mut *guard;
        // Which event came doesn't matter: whoever is woken looks at all that concerns it.
        let _ = poll.poll(events, Some(most));
    }

    /// Wakes the thread that waits, or else the next that does.
    pub fn wake(&self) {
        // A wake that the system refuses costs time and nothing else: each rest ends by itself.
        let _ = self.waker.wake();
    }
}
