//! A client's connection with the broker.

ghost use Rattle.std.specs.Prelude.{◌≡◌, ◌≢◌, length, min, true, false, IfOk, IfErr};
ghost use Rattle.broker_core.specs.declared.fault.BrokerFault.TheVariants.{NoSession};
ghost use Rattle.schedule_mail.specs.Connecting.{Opens, CarriesUp, CarriesDown, Cuts};
ghost use Rattle.schedule_mail.specs.Sessions.{KeepsOthers, KeepsSessions, has_session};

use crate::{Mail, OpenFault};
use broker_core::{BrokerFault, SessionId};
use channel::Channel;
use std::alloc::{AllocError, Global};
use stomp_frame::FrameFault;

/// A client's connection with the broker: its session there, and the client's side.
#[derive(Drop)]
pub struct Connection {
    /// The broker's session.
    pub session: SessionId,
    /// The client's side.
    pub channel: Channel,
}

/// How many of the octets that wait are carried, where at most so many may be.
fn count_of(most: u64, waiting: &[u8]) -> usize
    ensures { result ≡ min most (length waiting.now) }
{
    if most < waiting.len() as u64 {
        most as usize
    } else {
        waiting.len()
    }
}

impl Connection {
    /// Opens a session and writes CONNECT, which waits to be carried.
    ///
    /// # Errors
    /// Nothing has changed then:
    /// - `Memory` of the client where CONNECT could not be written;
    /// - else `TooMany` and `Memory` of the broker, which opened no session.
    pub fn open(alloc: Global, mail: &mut Mail) -> Result<Connection, OpenFault>
        ensures opens { Opens mail.old mail.new result }
        ensures sessions { IfOk result (λ c. KeepsOthers c.session mail.old.broker mail.new.broker) }
    {
        let mut channel = Channel::new(alloc);
        // CONNECT first: if it can't be written there is no session that would have to be dropped.
        if let Err(fault) = channel.client.connect() {
            return Err(OpenFault::Client(fault));
        }
        match mail.open_session() {
            Ok(session) => Ok(Connection { session, channel }),
            Err(fault) => Err(OpenFault::Broker(fault)),
        }
    }

    /// Carries the first octets that the client wrote, at most so many, to the broker, which handles the frames that
    /// are whole now; how many went over. The broker is called also where none wait.
    ///
    /// # Errors
    /// - `Memory` where a growth was refused: the octets went over whole, or nothing has changed, as it tells;
    /// - `NoSession` where the broker has no such session: nothing has changed.
    pub fn carry_up(&mut self, mail: &mut Mail, most: u64) -> Result<u64, BrokerFault>
        ensures carries { CarriesUp most self.old mail.old self.new mail.new result }
        ensures sessions { KeepsSessions mail.old.broker mail.new.broker }
        ensures there { has_session self.old.session mail.old.broker ≡ true
            → IfErr result (λ fault. fault ≢ NoSession) }
    {
        let count = count_of(most, self.channel.out());
        let (piece, _) = self.channel.out().split_at(count);
        // Fed also if the piece is empty: frames that ran out of memory wait in their session for its next feed.
        match mail.feed(self.session, piece) {
            Ok(_) => {
                self.channel.taken(count);
                Ok(count as u64)
            }
            // The broker has the octets. If they stayed here too, the next carry would bring them twice.
            Err(BrokerFault::Memory { took: true }) => {
                self.channel.taken(count);
                Err(BrokerFault::Memory { took: true })
            }
            Err(fault) => Err(fault),
        }
    }

    /// Carries the first octets that the broker wrote to this session, at most so many, to the client's decoder; how
    /// many went over.
    ///
    /// # Errors
    /// Nothing has changed then:
    /// - `Memory` where a growth was refused;
    /// - `Failed` where the decoder has met a fault.
    pub fn carry_down(&mut self, mail: &mut Mail, most: u64) -> Result<u64, FrameFault>
        ensures carries { CarriesDown most self.old mail.old self.new mail.new result }
        ensures sessions { KeepsSessions mail.old.broker mail.new.broker }
    {
        let count = count_of(most, mail.out(self.session));
        let (piece, _) = mail.out(self.session).split_at(count);
        match self.channel.feed(piece) {
            Ok(()) => {
                // Dropped only now that the decoder has its copy: a failed allocation loses no octet.
                mail.taken(self.session, count);
                Ok(count as u64)
            }
            Err(fault) => Err(fault),
        }
    }

    /// Cuts the connection: all octets on the way are lost, the broker drops the session, and deals what was out to it
    /// to others.
    ///
    /// # Errors
    /// Where memory was refused to the deals, behind some of them: the next `carry_up` or [`Mail::dispatch`] goes on
    /// with them. The connection is cut all the same.
    pub fn cut(self, mail: &mut Mail) -> Result<(), AllocError>
        ensures cuts { Cuts self mail.old mail.new result }
        ensures sessions { KeepsOthers self.session mail.old.broker mail.new.broker }
        ensures gone { has_session self.session mail.new.broker ≡ false }
    {
        mail.drop_session(self.session);
        // A broker deals nothing as it drops a session: what was out to it would wait for a feed of another one.
        mail.dispatch()
    }
}
