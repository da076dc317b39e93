//! A client's side of a connection.

ghost use Rattle.std.specs.Prelude.{◌≡◌, ◌≤◌, None, Some, length};
ghost use Rattle.channel.specs.Calls.{ChannelFeeds, IsNewChannel, ChannelSends, GivesNext, outgoing};

use base::limits::MAX_BODY;
use std::alloc::Global;
use stomp_client::ClientSession;
use stomp_frame::{Decoder, Frame, FrameFault};

/// A client's side of a connection: what it wrote and what came, whatever carries the octets.
pub struct Channel {
    /// The client, with the octets that it wrote and that weren't sent yet. Each receipt's tag is the number of a
    /// letter.
    pub client: ClientSession<u64>,
    /// The octets that came and belong to no frame that was given.
    pub decoder: Decoder<MAX_BODY>,
    /// The frame that was given and waits.
    pub waiting: Option<Frame<MAX_BODY>>,
}

/// Written by hand, so that a crate that owns channels doesn't prove anew how each of their parts is dropped.
impl Drop for Channel {
    fn drop(self) {
        let Channel {
            client: _client,
            decoder: _decoder,
            waiting: _waiting,
        } = self;
    }
}

impl Channel {
    /// A channel on which nothing was written, and nothing came. It takes no memory.
    pub fn new(alloc: Global) -> Channel
        ensures { IsNewChannel result }
    {
        Channel {
            client: ClientSession::new(alloc),
            decoder: Decoder::new(alloc),
            waiting: None,
        }
    }

    /// The octets still to be sent.
    pub fn out(&self) -> &[u8]
        ensures { result.now ≡ outgoing self.now }
    {
        self.client.out()
    }

    /// Takes the first octets away, which were sent. It takes no memory.
    pub fn taken(&mut self, count: usize)
        requires { count ≤ length (outgoing self.old) }
        ensures { ChannelSends count self.old self.new }
    {
        self.client.taken(count);
    }

    /// Holds octets that came behind those that it holds.
    ///
    /// # Errors
    /// Nothing has changed then:
    /// - `Memory` where a growth was refused, never for a piece of no octets;
    /// - `Failed` where `next` has answered a fault of the text.
    pub fn feed(&mut self, piece: &[u8]) -> Result<(), FrameFault>
        ensures { ChannelFeeds self.old self.new piece.now result }
    {
        self.decoder.feed(piece)
    }

    /// The frame that waits, else the next one that came; none where no whole frame came.
    ///
    /// # Errors
    /// No frame waits then:
    /// - `Memory` where a growth was refused, and nothing has changed;
    /// - the fault of the text, `UnknownCommand` to `BodyNotAllowed`, and `Failed` at each call after that.
    pub fn next(&mut self) -> Result<Option<Frame<MAX_BODY>>, FrameFault>
        ensures gives { GivesNext self.old self.new result }
        ensures none_waits { self.new.waiting ≡ None }
    {
        // It came before all that the decoder holds.
        match self.waiting.take() {
            Some(frame) => Ok(Some(frame)),
            None => self.decoder.next(),
        }
    }

    /// Puts a frame back: it is the next one again. There is one place for it, so what `next` gave is put back before
    /// it is asked again.
    pub fn put_back(&mut self, frame: Frame<MAX_BODY>)
        requires { self.old.waiting ≡ None }
        ensures { self.new ≡ record self.old { waiting = Some frame } }
    {
        self.waiting = Some(frame);
    }
}
