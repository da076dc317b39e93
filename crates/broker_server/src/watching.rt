//! What a loop tells of what happens.

use broker_core::{Broker, Detail};
use std::io;
use std::net::SocketAddr;
use thiserror::Error;

/// Why a connection ended: the first cause, where there are several.
#[derive(Clone, Copy, Debug, Error)]
pub enum Ending {
    /// Its client has shut its side.
    #[error("its client has shut it")]
    Shut,
    /// Its client took leave.
    #[error("DISCONNECT")]
    Disconnect,
    /// A frame was refused: the number and the name that its ERROR tells.
    #[error("ERROR {0}")]
    Refused(&'static str),
    /// A frame was refused, as in `Refused`, and what was wrong with it besides.
    #[error("ERROR {0}: {1}")]
    RefusedFor(&'static str, Detail),
    /// More octets are left for it than may be.
    #[error("its client doesn't read: too much is left for it")]
    Unread,
    /// A read or a write failed, or the system doesn't wait for the socket any more.
    #[error("its stream failed")]
    Stream,
    /// Memory was refused where it can't wait for some.
    #[error("out of memory")]
    Memory,
    /// Nothing came of it for as long as it may be silent.
    #[error("nothing came for too long")]
    Idle,
}

/// What a loop has done since it began.
#[derive(Clone, Copy, Debug)]
pub struct Figures {
    /// The connections that there are now: those too whose session is over, while the rest is told to them.
    pub connections: u64,
    /// The connections that were accepted.
    pub opened: u64,
    /// The frames that were handled.
    pub frames: u64,
    /// The messages that were accepted.
    pub accepted: u64,
    /// The octets that were read, but for those after which an allocation failed.
    pub read: u64,
    /// The octets that were written.
    pub written: u64,
    /// The octets that are held now: by messages in queues, by what open transactions keep, and by what is left to be
    /// written.
    pub held: u64,
    /// The deliveries that were made and are to be answered: those in mode `auto` don't count.
    pub handed: u64,
    /// The messages that are ready now: in queues, and out to nobody.
    pub ready: u64,
    /// The messages that are out now, and unanswered.
    pub out: u64,
}

impl Figures {
    /// Nothing was done.
    pub fn new() -> Figures {
        Figures {
            connections: 0,
            opened: 0,
            frames: 0,
            accepted: 0,
            read: 0,
            written: 0,
            held: 0,
            handed: 0,
            ready: 0,
            out: 0,
        }
    }

    /// A connection was accepted.
    pub(crate) fn note_opened(&mut self) {
        // Saturating, here and below: a figure that is full stays so.
        self.opened = self.opened.saturating_add(1);
    }

    /// So many octets were written.
    pub(crate) fn note_written(&mut self, count: usize) {
        self.written = self.written.saturating_add(count as u64);
    }

    /// So many octets were read.
    pub(crate) fn note_read(&mut self, count: usize) {
        self.read = self.read.saturating_add(count as u64);
    }

    /// So many frames were handled.
    pub(crate) fn note_frames(&mut self, count: usize) {
        self.frames = self.frames.saturating_add(count as u64);
    }

    /// So many messages were accepted.
    pub(crate) fn note_accepted(&mut self, count: usize) {
        self.accepted = self.accepted.saturating_add(count as u64);
    }

    /// Where its messages are now, and how many deliveries were made.
    pub(crate) fn note_messages<const FULL: usize>(&mut self, broker: &Broker<FULL>) {
        self.handed = broker.handed_out();
        self.ready = broker.ready();
        self.out = broker.unanswered();
    }
}

/// What happened. A connection is named by the number of its session, which no other has.
#[derive(Clone, Copy, Debug)]
pub enum News {
    /// A connection was accepted.
    Opened { number: u64, peer: SocketAddr },
    /// There is no memory for a new connection, or the system refuses it, and why: it is closed.
    Unopened { peer: SocketAddr, error: io::Error },
    /// The system gives no new connection, mostly since no descriptor is left: they wait until it does.
    Unaccepted { error: io::Error },
    /// Memory was refused to something of a connection, which waits for some.
    Waits { number: u64 },
    /// A connection ended: its session was taken away.
    Ended { number: u64, why: Ending },
    /// Behind its end all was told to it, or the time for that was over: its socket is closed.
    Closed { number: u64 },
    /// So many octets are held, as many as may be or more: connections that send aren't read.
    Full { held: u64 },
    /// There is room again: all are read.
    Freed,
    /// The time of the figures has come.
    Figures(Figures),
}

/// Who is told what happens, between the steps of the loop: as long as that takes, nobody is served.
pub trait Watch {
    /// Reports what happened.
    fn tell(&self, news: News);
}

impl Watch for () {
    fn tell(&self, _news: News) {}
}
