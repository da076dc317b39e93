//! What a session was fed.

ghost use Rattle.std.specs.Prelude.{◌≡◌, ◌<◌, Bool, None, true, is_some};
ghost use Rattle.broker_core.specs.Feeding.{DecidesNext, answer_of};
ghost use Rattle.broker_core.specs.Parts.Taking.{NextAnswer, PieceAnswer, is_memory, left_of};
ghost use Rattle.broker_core.specs.Serving.{nothing_incoming};

use crate::asked::Asked;
use base::limits::MAX_BODY;
use std::alloc::{AllocError, Global};
use stomp_frame::{Decoder, Frame, FrameFault};
use stomp_session::{Refused, Request, ServerSession};

/// What waits since an allocation for it failed, as it was decided, and the octets after it.
#[derive(Debug, Drop)]
pub struct Incoming {
    pub decoder: Decoder<MAX_BODY>,
    pub waiting: Option<Result<Asked, Refused>>,
}

impl Incoming {
    /// Nothing. It allocates nothing.
    pub fn new(alloc: Global) -> Incoming
        ensures { result ≡ nothing_incoming }
    {
        Incoming {
            decoder: Decoder::new(alloc),
            waiting: None,
        }
    }

    /// Takes a piece, which is thrown away where a fault was found.
    pub fn feed(&mut self, piece: &[u8]) -> Result<(), AllocError>
        ensures { PieceAnswer piece.now self.old self.new result }
    {
        match self.decoder.feed(piece) {
            Ok(()) => Ok(()),
            Err(fault) => {
                if is_memory(fault) {
                    Err(AllocError)
                } else {
                    // After a fault of the octets the session is closed, and what still comes is thrown away.
                    Ok(())
                }
            }
        }
    }

    /// Takes what waits out.
    pub fn take_waiting(&mut self) -> Result<Asked, Refused>
        requires { is_some self.old.waiting ≡ true }
        ensures { (connected : Bool) → DecidesNext connected self.old result self.new }
    {
        match self.waiting.take() {
            Some(decided) => decided,
            // Called only where something waits.
            None => unreachable!(),
        }
    }

    /// Takes the frame that begins the octets out, where nothing waits.
    #[tactic(auto, using(crate::proofs::Taking::decodes))]
    pub fn decode(&mut self) -> Result<Option<Frame<MAX_BODY>>, FrameFault>
        requires { self.old.waiting ≡ None }
        ensures { (connected : Bool) → NextAnswer connected self.old self.new result }
    {
        self.decoder.next()
    }

    /// More than what can still be taken.
    pub fn bound(&self) -> usize
        ensures { left_of self.now < result }
    {
        // A frame has an octet at least; beside the frame that waits, the turn that finds none counts too.
        let octets = self.decoder.held_len();
        match &self.waiting {
            None => octets + 1,
            Some(_) => octets + 2,
        }
    }
}

/// What a frame is decided to be: its parts are moved.
pub fn decide(server: ServerSession, frame: Frame<MAX_BODY>) -> Result<Request, Refused>
    ensures { result ≡ answer_of server frame }
{
    let mut server = server;
    match server.accept(frame) {
        Ok(request) => Ok(request),
        Err(refused) => Err(refused),
    }
}

/// Whether a fault is that an allocation failed.
pub fn is_memory(fault: FrameFault) -> bool
    ensures { result ≡ is_memory fault }
{
    matches!(fault, FrameFault::Memory)
}
