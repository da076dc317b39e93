//! What is read from a connection and written to it at a turn, over any stream.

ghost use Rattle.std.specs.Prelude.{◌≡◌, ◌<◌, false, length};
ghost use Rattle.broker_core.specs.Calls.{closed_in};
ghost use Rattle.broker_core.specs.Serving.{session_of};
ghost use Rattle.broker_server.specs.Parts.{PieceAnswer, SomeAnswer};
ghost use Rattle.broker_server.specs.Turns.{DiscardAnswer, FedAnswer, ReadAnswer, WriteAnswer};

use crate::{ReadFault, TurnFault};
use broker_core::{Broker, BrokerFault, SessionId};
use std::io::{ErrorKind, Read, Write};

/// What a turn of reading came to.
#[derive(Clone, Copy, Debug, PartialEq, Eq)]
pub enum ReadTurn {
    /// What was there is read: the stream tells when there is more.
    Blocked,
    /// There may be more, of which the stream doesn't tell again.
    More,
    /// The peer sends no more.
    Ended,
}

/// What a turn of reading brought its session.
#[derive(Clone, Copy, Debug, PartialEq, Eq)]
pub struct Brought {
    /// The octets that were read, and fed.
    pub octets: usize,
    /// The frames that were handled.
    pub frames: usize,
}

/// No octet was read, so that no frame was handled.
const NOTHING: Brought = Brought {
    octets: 0,
    frames: 0,
};

/// What a turn of writing came to.
#[derive(Clone, Copy, Debug, PartialEq, Eq)]
pub enum Written {
    /// All is written.
    All,
    /// The stream takes no more now, and tells when it does.
    Blocked,
    /// Some is left, and the stream doesn't tell when it takes more.
    Again,
}

/// What a read gave.
#[derive(Clone, Copy, Debug, PartialEq, Eq)]
pub(crate) enum Piece {
    /// A read of so many octets.
    Octets(usize),
    /// No octets are there now.
    Blocked,
    /// There will be none.
    Ended,
    /// The read is to be made again.
    Interrupted,
}

/// Reads once. Where the stream fails nothing was read.
fn read_piece<S: Read>(stream: &mut S, buffer: &mut [u8]) -> Result<Piece, TurnFault>
    requires { 0 < length buffer.old }
    ensures { PieceAnswer (S.remaining stream.old) (S.remaining stream.new) buffer.new result }
{
    match stream.read(buffer) {
        // The buffer has room, so that no octets are the end.
        Ok(0) => Ok(Piece::Ended),
        Ok(count) => Ok(Piece::Octets(count)),
        Err(error) => match error.kind() {
            ErrorKind::WouldBlock => Ok(Piece::Blocked),
            ErrorKind::Interrupted => Ok(Piece::Interrupted),
            _ => Err(TurnFault::Stream),
        },
    }
}

/// Feeds octets to an open session, and handles them as far as its frames are whole: the answer is how many frames.
/// With no octets it continues with the frames that wait since an allocation for them failed.
///
/// # Errors
/// - `Waits` if an allocation failed after the taking of the octets: the frames before were handled, and the next feed,
///   also one of no octets, continues where this one stopped: no frame is lost or handled twice;
/// - `Untaken` if an allocation failed for the octets, never to none: nothing has changed, and they may be fed again. It
///   says how many.
pub fn feed_in<const FULL: usize>(
    broker: &mut Broker<FULL>,
    session: SessionId,
    piece: &[u8],
) -> Result<usize, ReadFault>
    requires { closed_in (session_of session broker.old) ≡ false }
    ensures { FedAnswer FULL session piece.now broker.old broker.new result }
{
    match broker.feed(session, piece) {
        Ok(frames) => Ok(frames),
        Err(BrokerFault::Memory { took: true }) => Err(ReadFault::Waits),
        Err(BrokerFault::Memory { took: false }) => Err(ReadFault::Untaken(piece.len())),
        // The session is open, and none is opened here.
        Err(BrokerFault::NoSession) => unreachable!(),
        Err(BrokerFault::TooMany) => unreachable!(),
    }
}

/// Reads once from the stream of an open session, at most as many octets as `buffer` has, and feeds them to the
/// session: each octet that was read is fed once, after those before, and handled as far as its frames are whole. The
/// answer tells how many octets and frames that were.
///
/// # Errors
/// - `Stream` where the read failed, and then nothing was read;
/// - `Waits` if an allocation failed after the taking of the octets. The session has all of them, and a later
///   [`feed_in`], also one of no octets, continues with its frames: what is read until then waits after them;
/// - `Untaken` if an allocation failed for the octets themselves. The session has none of them, and nothing has changed:
///   they are the first so many of `buffer`, of which the stream doesn't tell again, and may be fed later by
///   [`feed_in`], before others.
pub fn read_in<S: Read, const FULL: usize>(
    stream: &mut S,
    broker: &mut Broker<FULL>,
    session: SessionId,
    buffer: &mut [u8],
) -> Result<(ReadTurn, Brought), ReadFault>
    requires open { closed_in (session_of session broker.old) ≡ false }
    requires room { 0 < length buffer.old }
    ensures { ReadAnswer FULL session broker.old broker.new (S.remaining stream.old) (S.remaining stream.new) buffer.new
        result }
{
    let piece = match read_piece(stream, buffer) {
        Ok(piece) => piece,
        Err(TurnFault::Stream) => return Err(ReadFault::Stream),
        // A read allocates nothing.
        Err(TurnFault::Memory) => unreachable!(),
    };
    match piece {
        Piece::Octets(count) => {
            let frames = feed_in(broker, session, &buffer[..count])?;
            let brought = Brought {
                octets: count,
                frames,
            };
            // A read that leaves room has emptied the socket: the poll reports what comes after it.
            if count < buffer.len() {
                Ok((ReadTurn::Blocked, brought))
            } else {
                Ok((ReadTurn::More, brought))
            }
        }
        Piece::Blocked => Ok((ReadTurn::Blocked, NOTHING)),
        Piece::Ended => Ok((ReadTurn::Ended, NOTHING)),
        Piece::Interrupted => Ok((ReadTurn::More, NOTHING)),
    }
}

/// Reads once, and throws the octets away: the answer is how many.
///
/// # Errors
/// `Stream` where the read failed, and then nothing was read.
pub fn discard<S: Read>(stream: &mut S, buffer: &mut [u8]) -> Result<(usize, ReadTurn), TurnFault>
    requires { 0 < length buffer.old }
    ensures { DiscardAnswer (S.remaining stream.old) (S.remaining stream.new) result }
{
    match read_piece(stream, buffer)? {
        Piece::Octets(count) => Ok((count, ReadTurn::More)),
        Piece::Blocked => Ok((0, ReadTurn::Blocked)),
        Piece::Ended => Ok((0, ReadTurn::Ended)),
        Piece::Interrupted => Ok((0, ReadTurn::More)),
    }
}

/// Writes a beginning of octets: the answer is how many, and what is with the others. Where the stream fails none was
/// written.
pub(crate) fn write_some<S: Write>(
    stream: &mut S,
    octets: &[u8],
) -> Result<(usize, Written), TurnFault>
    ensures { SomeAnswer (S.contents stream.old) (S.contents stream.new) octets.now result }
{
    // Tested first: a write of no octets would look like a stream that takes none.
    if octets.is_empty() {
        return Ok((0, Written::All));
    }
    match stream.write(octets) {
        // A stream that takes nothing and reports no error would be tried again for good.
        Ok(0) => Err(TurnFault::Stream),
        Ok(count) if count == octets.len() => Ok((count, Written::All)),
        // Only a full socket takes a part, and the poll reports when it takes more.
        Ok(count) => Ok((count, Written::Blocked)),
        Err(error) => match error.kind() {
            ErrorKind::WouldBlock => Ok((0, Written::Blocked)),
            ErrorKind::Interrupted => Ok((0, Written::Again)),
            _ => Err(TurnFault::Stream),
        },
    }
}

/// Writes a beginning of a session's octets to its stream, and takes away what was written and no more.
///
/// # Errors
/// `Stream` where the write failed or took nothing; nothing was written or taken then.
pub fn write_out<S: Write, const FULL: usize>(
    stream: &mut S,
    broker: &mut Broker<FULL>,
    session: SessionId,
) -> Result<Written, TurnFault>
    ensures { WriteAnswer session broker.old broker.new (S.contents stream.old) (S.contents stream.new) result }
{
    // Once and not to the end, so that no client holds up the others.
    let (count, written) = write_some(stream, broker.out(session))?;
    broker.taken(session, count);
    Ok(written)
}
