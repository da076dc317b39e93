//! The decoder: frames from the pieces of a text.

ghost use Rattle.std.specs.Prelude.{◌≡◌, ◌≢◌, ◌<◌, ◌^◌, [], ◌++◌, length, false, IfOk, OnOk, OnErr};
ghost use Rattle.stomp_frame.specs.Decoding.{Nexts, FeedsDecoder};

use crate::reading::{Found, Progress, after_gap, read_frame};
use crate::{Frame, FrameFault};
use bytes::BytesMut;
use std::alloc::{AllocError, Global};
use std::marker::Model;

/// Where it holds nothing, no more room than this is kept: frames of some headers fit, and a large one isn't paid for
/// as long as a session lives.
const RESTING: usize = 32_768;

/// Reads frames from the pieces of a text: contracts see the octets that it holds, and whether it has answered a fault.
///
/// However the text is cut into pieces, its frames are the same, and its fault is. Where `next` finds no whole frame,
/// it leaves at most `BODY` and 35,910 octets held, and room for four times `BODY`, or for 32,768 octets where nothing
/// is held. A length that is declared allocates nothing: its octets do as they come. Of a frame that isn't whole, a later
/// call of `next` reads no octet again but for one.
#[derive(Debug, Drop)]
pub struct Decoder<const BODY: usize> {
    alloc: Global,
    // Those that no frame was read from yet.
    // A BytesMut drops frames at its front, so that no index can leave it.
    octets: BytesMut,
    // How far these are read.
    progress: Progress,
    failed: bool,
}

impl<const BODY: usize> Model for Decoder<BODY> {
    ghost use Rattle.stomp_frame.specs.Decoding.{Held};

    ghost Value = { Held };

    ghost use Rattle.stomp_frame.specs.DecoderView.{held_of};

    ghost view = { held_of };

    ghost use Rattle.stomp_frame.specs.DecoderView.{IsInside};

    ghost invariant = { IsInside BODY };
}

impl<const BODY: usize> Decoder<BODY> {
    /// A decoder that holds nothing. It allocates nothing.
    pub fn new(alloc: Global) -> Decoder<BODY>
        ensures { result ≡ record { octets = []; failed = false } }
    {
        Decoder {
            alloc,
            octets: BytesMut::new(alloc),
            progress: Progress::Line(0),
            failed: false,
        }
    }

    /// Holds a piece of the text after what it holds.
    ///
    /// # Errors
    /// Nothing has changed then:
    /// - `Memory` if an allocation fails, never for a piece of no octets;
    /// - `Failed` where `next` has answered a fault of the text.
    pub fn feed(&mut self, piece: &[u8]) -> Result<(), FrameFault>
        ensures { FeedsDecoder self.old self.new piece.now result }
    {
        if self.failed {
            return Err(FrameFault::Failed);
        }
        append(self.alloc, &mut self.octets, piece)?;
        Ok(())
    }

    /// The next frame, and none where the text goes on. EOLs before a frame are passed over.
    ///
    /// # Errors
    /// - `Memory` if an allocation fails, and then nothing has changed;
    /// - the fault of the text, `UnknownCommand` to `BodyNotAllowed`, once the octet is held at which it is found;
    /// - `Failed` at each call after that.
    pub fn next(&mut self) -> Result<Option<Frame<BODY>>, FrameFault>
        ensures { Nexts BODY self.old self.new result }
    {
        if self.failed {
            return Err(FrameFault::Failed);
        }
        // Asked before the read, which moves the progress on.
        let begins = is_at_start(&self.progress);
        let text = after_gap(self.octets.as_slice());
        let len = text.len();
        match read_frame(self.alloc, BODY, &mut self.progress, text) {
            Ok(Some(found)) => {
                let Found {
                    command,
                    headers,
                    body,
                    left,
                } = found;
                // By what is left and not by what was read: so the gap before the frame goes too.
                self.octets.advance(self.octets.len() - left);
                self.progress = Progress::Line(0);
                // Memory isn't looked at here: the call that finds no more frames does so once for all of them.
                Ok(Some(Frame::of(self.alloc, command, headers, body)))
            }
            Ok(None) => {
                // The gap goes now, so that the EOLs of an idle peer don't pile up.
                self.octets.advance(self.octets.len() - len);
                self.settle(begins);
                Ok(None)
            }
            Err(fault) => {
                // What was begun may be half read: it's read from its start again, over the same octets.
                self.progress = Progress::Line(0);
                if fault == FrameFault::Memory {
                    return Err(fault);
                }
                // Where the next frame would begin can't be told after a fault.
                self.failed = true;
                Err(fault)
            }
        }
    }

    /// How many octets it holds: those that were fed and belong to no frame that was given.
    pub fn held_len(&self) -> usize
        ensures value { result ≡ length self.now.octets }
        ensures small { result < 2 ^ 63 }
    {
        self.octets.len()
    }

    /// Moves what it holds to the front of its memory where a frame begins, and gives memory back where it has much
    /// more than it needs.
    fn settle(&mut self, begins: bool)
        ensures { self.new ≡ self.old }
    {
        // Only what is held of a frame when it begins, so that no octet is moved twice.
        if begins {
            move_to_front(&mut self.octets);
        }
        let held = self.octets.len();
        if held == 0 {
            shrink(self.alloc, &mut self.octets, RESTING / 2, RESTING / 2);
        } else {
            // A frame that isn't whole fits into it, and a piece.
            // With less room each piece of a long body would move those before it, at quadratic cost.
            // Half of the room that is promised: memory before the front isn't reported, and may be as much again.
            let most = BODY.saturating_mul(2).max(held);
            shrink(self.alloc, &mut self.octets, most, held);
        }
    }
}

/// Whether no octet of a frame is known to go on with it.
fn is_at_start(progress: &Progress) -> bool {
    matches!(progress, Progress::Line(0))
}

/// Appends a piece.
fn append(alloc: Global, octets: &mut BytesMut, piece: &[u8]) -> Result<(), AllocError>
    ensures ok { OnOk result (octets.new.items ≡ octets.old.items ++ piece.now) }
    ensures err { OnErr result (octets.new.items ≡ octets.old.items) }
    ensures some { OnErr result (piece.now ≢ []) }
{
    if octets.capacity() < piece.len() && octets.is_empty() {
        return begin_with(alloc, octets, piece);
    }
    octets.extend_from_slice(piece)
}

/// Makes a piece the octets, where there are none, in memory of its own length: no room of that has to be filled first.
// Seldom called: mostly there is room for the piece.
#[cold]
#[inline(never)]
fn begin_with(alloc: Global, octets: &mut BytesMut, piece: &[u8]) -> Result<(), AllocError>
    ensures ok { OnOk result (octets.new.items ≡ piece.now) }
    ensures err { OnErr result ((octets.new.items ≡ octets.old.items) × (piece.now ≢ [])) }
{
    if piece.is_empty() {
        octets.clear();
        return Ok(());
    }
    *octets = BytesMut::copy_from_slice(alloc, piece)?;
    Ok(())
}

/// Moves the octets to the front of their memory.
fn move_to_front(octets: &mut BytesMut)
    ensures { octets.new.items ≡ octets.old.items }
{
    if octets.is_empty() {
        octets.clear();
    } else {
        // there is room for one octet more than behind them only once they are moved
        let more = octets.capacity() - octets.len() + 1;
        let _ = octets.try_reclaim(more);
    }
}

/// Where they have more room than `most`, takes memory for `kept` octets in its place. At most twice the room that
/// is seen is allocated.
fn shrink(alloc: Global, octets: &mut BytesMut, most: usize, kept: usize)
    ensures { octets.new.items ≡ octets.old.items }
{
    if octets.capacity() > most {
        // Without memory for a smaller block the larger one stays.
        if let Ok(less) = copy_into(alloc, octets.as_slice(), kept) {
            *octets = less;
        }
    }
}

/// A copy that has room for so many octets.
fn copy_into(alloc: Global, octets: &[u8], room: usize) -> Result<BytesMut, AllocError>
    ensures { IfOk result (λ b. b.items ≡ octets.now) }
{
    let mut copy = BytesMut::with_capacity(alloc, room)?;
    copy.extend_from_slice(octets)?;
    Ok(copy)
}
