//! A link over any reader and writer.

ghost use Rattle.std.specs.Prelude.{◌≡◌};
ghost use Rattle.stomp_wire.specs.Fault.{IsCounted};
ghost use Rattle.stomp_wire.specs.Stream.{meaning_of_error, meaning_of_write, meaning_of_read, count_after, StreamPuts};
ghost use Rattle.stomp_wire.specs.Stream.{StreamTakes};

use crate::{Link, LinkFault};
use std::io::{self, ErrorKind, Read, Write};

/// How many octets a take reads at most, however many are asked for.
const MOST_READ: usize = 4096;

/// A link over a reader and a writer, such as the two sides of a socket.
///
/// An end of the reader's input is `Cut`, and is counted. `WouldBlock` and `Interrupted` mean that there is nothing
/// now: they are 0 octets and aren't counted. Each other error is `Device`, and is counted. A writer that takes none
/// of the octets, and doesn't say why, takes none now: that is 0 octets too, and isn't counted.
#[derive(Debug, Drop)]
pub struct StreamLink<R, W> {
    /// Where octets come from.
    pub reader: R,
    /// Where octets go.
    pub writer: W,
    /// The count of failures so far. It stays at 2^64 - 1, its last value.
    pub failures: u64,
}

/// What an error of a reader or a writer means: nothing now, or a fault.
fn meaning_of_error(error: io::Error) -> Result<usize, LinkFault>
    ensures { result ≡ meaning_of_error error }
{
    match error.kind() {
        ErrorKind::WouldBlock | ErrorKind::Interrupted => Ok(0),
        _ => Err(LinkFault::Device),
    }
}

/// What a writer's answer means.
fn meaning_of_write(answer: io::Result<usize>) -> Result<usize, LinkFault>
    ensures { result ≡ meaning_of_write answer }
{
    match answer {
        Ok(count) => Ok(count),
        Err(error) => meaning_of_error(error),
    }
}

/// What a reader's answer means that was offered room: none is the end of its input.
fn meaning_of_read(answer: io::Result<usize>) -> Result<usize, LinkFault>
    ensures { result ≡ meaning_of_read answer }
{
    match answer {
        Ok(0) => Err(LinkFault::Cut),
        Ok(some) => Ok(some),
        Err(error) => meaning_of_error(error),
    }
}

impl<R, W> StreamLink<R, W> {
    /// A link over this reader and this writer, with no failure so far.
    pub fn new(reader: R, writer: W) -> StreamLink<R, W>
        ensures reader { result.reader ≡ reader }
        ensures writer { result.writer ≡ writer }
        ensures failures { result.failures ≡ 0 }
    {
        StreamLink {
            reader,
            writer,
            failures: 0,
        }
    }

    /// Counts a failure where the answer is one, and passes the answer on.
    fn counted(&mut self, answer: Result<usize, LinkFault>) -> Result<usize, LinkFault>
        ensures answer { result ≡ answer }
        ensures failures { self.new ≡ record self.old { failures = count_after self.old.failures answer } }
        ensures counted { IsCounted self.old.failures self.new.failures answer }
    {
        if let Err(LinkFault::Cut | LinkFault::Device) = answer {
            self.failures = self.failures.saturating_add(1);
        }
        answer
    }
}

impl<R: Read, W: Write> Link for StreamLink<R, W> {
    ghost outgoing = { λ link. W.contents link.writer };

    ghost incoming = { λ link. R.remaining link.reader };

    ghost failures = { λ link. link.failures };

    ghost put_gives = { StreamPuts R.remaining W.contents };

    ghost take_gives = { StreamTakes R.remaining W.contents };

    fn failures(&self) -> u64 {
        self.failures
    }

    /// Makes one write. Its one fault is `Device`.
    fn put(&mut self, octets: &[u8]) -> Result<usize, LinkFault> {
        let answer = self.writer.write(octets);
        self.counted(meaning_of_write(answer))
    }

    /// Makes one read of at most 4,096 octets, for which room is found first; none where `most` is 0.
    fn take(&mut self, into: &mut Vec<u8>, most: usize) -> Result<usize, LinkFault> {
        let room = most.min(MOST_READ);
        // A read without room looks like the end of the input.
        if room == 0 {
            return Ok(0);
        }
        // Room first: octets that are read and can't be kept would be lost.
        into.reserve(room)?;
        let mut piece = [0u8; MOST_READ];
        let answer = self.reader.read(&mut piece[..room]);
        if let Ok(count) = answer {
            // Room for it was found above.
            into.extend_from_slice(&piece[..count]).unwrap();
        }
        self.counted(meaning_of_read(answer))
    }
}
