//! Connections to the broker.

ghost use Rattle.std.specs.Prelude.{◌≡◌, None, IfOk};
ghost use Rattle.std.specs.Option.{option_copied};
ghost use Rattle.stomp_frame.specs.declared.command.Command.TheVariants.{Connect};
ghost use Rattle.stomp_client.specs.Frames.{connect_frame_to, connect_refused, IsMadeUnless};

use crate::board::Board;
use activities::Handler;
use base::limits::MAX_BODY;
use keep::Keep;
use mio::net::TcpStream;
use service_workers::{Line, Naming};
use std::alloc::Global;
use std::io::ErrorKind;
use std::net::{SocketAddr, ToSocketAddrs};
use std::time::Duration;
use std::{io, net};
use stomp_client::connect_frame_to;
use stomp_frame::{Frame, FrameFault};
use stomp_wire::{Link, StreamLink};

/// How long it may take to connect, in milliseconds.
const PATIENCE: u64 = 2_000;

/// What carries a connection's octets: a socket, and another handle of it.
pub type Socket = StreamLink<TcpStream, TcpStream>;

/// Where the broker is, and what it's told of the service.
#[derive(Clone, Copy, Debug)]
pub struct Broker<'a> {
    /// Where it is: a name or an address.
    pub address: &'a str,
    /// Its port.
    pub port: u16,
    /// The header `host` of CONNECT: which of the broker's hosts is meant.
    pub host: &'a str,
    /// The headers `login` and `passcode`, where they are given.
    pub login: Option<&'a str>,
    pub passcode: Option<&'a str>,
    /// How many messages it's asked to deliver at most that aren't acknowledged, where it's asked for that.
    pub prefetch: Option<u64>,
}

impl Broker<'_> {
    /// The CONNECT for it.
    ///
    /// # Errors
    /// Where one of the values can't be in a frame, or an allocation failed.
    pub fn greet(&self, alloc: Global) -> Result<Frame<MAX_BODY>, FrameFault>
        ensures made { IsMadeUnless
            (connect_refused self.now.host.now (option_copied self.now.login) (option_copied self.now.passcode))
            (connect_frame_to self.now.host.now (option_copied self.now.login) (option_copied self.now.passcode)) result }
        ensures command { IfOk result (λ frame. frame.command ≡ Connect) }
    {
        connect_frame_to(alloc, self.host, self.login, self.passcode)
    }
}

/// What connections are opened with: the system, the broker, and the board of the threads that use them.
#[derive(Clone, Copy)]
pub struct Site<'a> {
    pub host: &'a HostRuntime,
    pub broker: Broker<'a>,
    pub board: &'a Board,
}

/// Links by which a service reaches its broker. The service is generic over them, so that nothing that is promised of what it
/// writes and processes rests on what a socket is.
pub trait Reach: Link + Drop + Send {
    ghost use Rattle.std.specs.Prelude.{IfOk};

    // What is so of each link that is reached, as it is then.
    ghost reached: { Self → Type 0 };

    /// A link to the broker that the reader of this number watches.
    ///
    /// # Errors
    /// Where the broker isn't there, the system refused a link, or an allocation failed.
    fn reach(site: Site<'_>, number: u8) -> io::Result<Self>
        ensures { IfOk result reached };
}

/// Of a socket nothing is known: what comes on it is whatever its other end puts.
impl Reach for Socket {
    ghost use Rattle.std.specs.Prelude.{⊤};

    ghost reached = { λ link. ⊤ };

    fn reach(site: Site<'_>, number: u8) -> io::Result<Socket> {
        let stream = connect_first(site.host, site.broker)?;
        // Two handles of one socket, since a link reads by one value and writes by another.
        let writer = TcpStream::from_std(stream.try_clone()?);
        let mut reader = TcpStream::from_std(stream);
        // One handle is enough to watch: the poll reports both octets to read and room to write.
        site.board.rests.reader(number).watch(&mut reader)?;
        Ok(StreamLink::new(reader, writer))
    }
}

/// A socket to the first address of the host that accepts.
// By the system's own runtime, no type parameter: what is sent to a thread may not depend on a parameter's `Net`.
fn connect_first(host: &HostRuntime, broker: Broker<'_>) -> io::Result<net::TcpStream> {
    // Reported if the name has no address at all.
    let mut last = io::Error::from(ErrorKind::AddrNotAvailable);
    let found = (broker.address, broker.port).to_socket_addrs(host)?;
    for one in found {
        match connect(host, one) {
            Ok(stream) => return Ok(stream),
            Err(error) => last = error,
        }
    }
    Err(last)
}

/// A socket to an address, whose calls don't wait.
fn connect(host: &HostRuntime, address: SocketAddr) -> io::Result<net::TcpStream> {
    let most = Duration::from_millis(PATIENCE);
    let stream = net::TcpStream::connect_timeout(host, &address, most)?;
    // Else the system holds short frames back until what went before is acknowledged.
    stream.set_nodelay(true)?;
    // Only once it is connected: until then the call above is to wait, for its time at most.
    stream.set_nonblocking(true)?;
    Ok(stream)
}

/// Opens the connection of a number, on which CONNECT waits to be written then.
///
/// # Errors
/// Where the broker isn't there, the system refused a link, or an allocation failed.
pub fn open<N, L, H, K>(site: Site<'_>, number: u8, line: &mut Line<N, L, H, K>) -> io::Result<()>
where
    N: Naming<K, L>,
    L: Reach,
    H: Handler,
    K: Keep<State = H::State, Command = H::Command> + Drop,
    requires given { (link : L) → L.reached link → N.given link }
    requires noted { line.old.link ≡ None }
{
    let alloc = site.host.alloc();
    // CONNECT is made before the socket, so that a failed allocation costs none. `read_words` has tried the words.
    let Ok(connect) = site.broker.greet(alloc) else {
        return Err(io::Error::from(ErrorKind::OutOfMemory));
    };
    // Nothing is written on the link before `open_by`: what a life has written is counted from there.
    let link = L::reach(site, number)?;
    match line.open_by(alloc, link, &connect, site.broker.prefetch) {
        Ok(()) => Ok(()),
        Err(_) => Err(io::Error::from(ErrorKind::OutOfMemory)),
    }
}
