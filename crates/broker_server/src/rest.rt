//! What is left to be written when a session is over.

ghost use Rattle.std.specs.Prelude.{◌≡◌, [], length, IfOk};
ghost use Rattle.broker_core.specs.Calls.{dropped, out_in};
ghost use Rattle.broker_core.specs.Serving.{session_of};
ghost use Rattle.broker_server.specs.Turns.{RestAnswer};

use crate::TurnFault;
use crate::turn::{Written, write_some};
use broker_core::{Broker, SessionId};
use std::alloc::Global;
use std::io::Write;
use std::marker::Model;

/// The octets that are left to be written to a connection whose session is over: contracts see them alone.
#[derive(Drop)]
pub struct Rest {
    octets: Vec<u8>,
    from: usize,
}

impl Model for Rest {
    ghost use Rattle.std.specs.Prelude.{List, ℕ, drop, vec_len, ◌≤◌};

    ghost Value = { List ℕ };

    ghost view = { λ r. drop r.from r.octets.items };

    ghost invariant = { λ r. r.from ≤ vec_len r.octets };
}

impl Rest {
    /// Nothing. It allocates nothing.
    pub fn new(alloc: Global) -> Rest
        ensures { result ≡ [] }
    {
        Rest {
            octets: Vec::new(alloc),
            from: 0,
        }
    }

    /// How many octets are left.
    pub fn len(&self) -> usize
        ensures { result ≡ length self.now }
    {
        self.octets.len() - self.from
    }

    /// Takes a session away, with what is left to be written for it: its subscriptions end, and what was out to them is
    /// ready again. It deals nothing.
    ///
    /// # Errors
    /// `Memory` if an allocation fails: the session is away then too.
    pub fn of<const FULL: usize>(
        alloc: Global,
        broker: &mut Broker<FULL>,
        session: SessionId,
    ) -> Result<Rest, TurnFault>
        ensures rest { IfOk result (λ rest. rest ≡ out_in (session_of session broker.old)) }
        ensures dropped { broker.new ≡ dropped session broker.old (session_of session broker.old) }
    {
        // Copied before the session goes, and its octets with it.
        let octets = broker.out(session).to_vec(alloc);
        broker.drop_session(session);
        match octets {
            Ok(octets) => Ok(Rest { octets, from: 0 }),
            Err(_) => Err(TurnFault::Memory),
        }
    }

    /// Writes a beginning of it, and takes away what was written and no more.
    ///
    /// # Errors
    /// `Stream` where the write failed or took nothing; nothing was written or taken then.
    pub fn write<S: Write>(&mut self, stream: &mut S) -> Result<Written, TurnFault>
        ensures { RestAnswer self.old self.new (S.contents stream.old) (S.contents stream.new) result }
    {
        let (count, written) = write_some(stream, &self.octets[self.from..])?;
        self.from += count;
        Ok(written)
    }
}
