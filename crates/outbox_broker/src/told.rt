//! What is told on standard error of what happens.

use broker_server::{Ending, Figures, News, Watch};
use log::{Log, debug, error, info, warn};
use std::io;
use std::io::ErrorKind;
use std::net::SocketAddr;

/// Of what the lines tell.
pub const TARGET: &str = "outbox-broker";

/// What the system answers where all processes together have no descriptor left, and where this one hasn't.
const NONE_FOR_ALL: i32 = 23;

const NONE_FOR_THIS: i32 = 24;

/// Tells what happens by lines of a log, and the figures whatever its level is.
#[derive(Drop)]
pub struct BrokerLog<'a, R> {
    rt: &'a R,
}

impl<'a, R> BrokerLog<'a, R> {
    /// By this runtime's log.
    pub fn new(rt: &'a R) -> BrokerLog<'a, R> {
        BrokerLog { rt }
    }
}

/// Tells that a connection ended. That a client goes, however it does, is told as what happens; that it is sent away is
/// a warning; and what this machine is short of is an error.
fn tell_end<R: Log>(rt: &R, number: u64, why: Ending) {
    match why {
        Ending::Shut | Ending::Disconnect | Ending::Stream => {
            info!(rt; target: TARGET, "connection {number} ended: {why}");
        }
        Ending::Refused(_) | Ending::RefusedFor(_, _) | Ending::Unread | Ending::Idle => {
            warn!(rt; target: TARGET, "connection {number} ended: {why}");
        }
        Ending::Memory => error!(rt; target: TARGET, "connection {number} ended: {why}"),
    }
}

/// Tells that a new connection was closed, and why.
fn tell_unopened<R: Log>(rt: &R, peer: SocketAddr, error: io::Error) {
    if error.kind() == ErrorKind::OutOfMemory {
        error!(rt; target: TARGET, "no memory for a connection: {peer} is sent away");
    } else {
        error!(rt; target: TARGET, "{peer} can't be served, and is sent away: {error}");
    }
}

/// Whether the system refuses a descriptor.
fn is_of_descriptors(error: io::Error) -> bool {
    match error.raw_os_error() {
        // ENFILE and EMFILE: these two have no `ErrorKind`.
        Some(number) => number == NONE_FOR_ALL || number == NONE_FOR_THIS,
        None => false,
    }
}

/// Tells why connections wait to be taken in.
fn tell_unaccepted<R: Log>(rt: &R, error: io::Error) {
    if is_of_descriptors(error) {
        // An error, as an operator can act: clients aren't refused, but wait in the backlog.
        error!(rt; target: TARGET, "no descriptor is left: connections wait for one: {error}");
    } else {
        error!(rt; target: TARGET, "no connection can be taken in: they wait: {error}");
    }
}

/// Tells the figures. Where standard error takes no more nobody would read them.
fn tell_figures<R: Eprint>(rt: &R, of: Figures) {
    let _ = eprintln!(rt;
        "figures connections={} opened={} frames={} accepted={} read={} written={} held={} handed={} ready={} out={}",
        of.connections,
        of.opened,
        of.frames,
        of.accepted,
        of.read,
        of.written,
        of.held,
        of.handed,
        of.ready,
        of.out
    );
}

impl<R: Log + Eprint> Watch for BrokerLog<'_, R> {
    fn tell(&self, news: News) {
        let rt = self.rt;
        match news {
            News::Opened { number, peer } => {
                info!(rt; target: TARGET, "connection {number} opened by {peer}");
            }
            News::Unopened { peer, error } => tell_unopened(rt, peer, error),
            News::Unaccepted { error } => tell_unaccepted(rt, error),
            News::Waits { number } => {
                debug!(rt; target: TARGET, "connection {number} waits for memory");
            }
            News::Ended { number, why } => tell_end(rt, number, why),
            News::Closed { number } => {
                debug!(rt; target: TARGET, "connection {number} is closed");
            }
            News::Full { held } => {
                warn!(rt; target: TARGET, "memory: {held} octets are held: who sends isn't read");
            }
            News::Freed => {
                warn!(rt; target: TARGET, "memory: there is room again: all are read");
            }
            News::Figures(figures) => tell_figures(rt, figures),
        }
    }
}
