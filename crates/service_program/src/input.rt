//! The lines of a service's input.

ghost use Rattle.std.specs.Prelude.{◌≡◌, [], true, IfOk, OnErr, option_map};
ghost use Rattle.service_program.specs.Input.{IsTaken};

use mio::unix::SourceFd;
use mio::{Events, Interest, Poll, Token};
use std::alloc::{AllocError, Global};
use std::io;
use std::io::{BufRead, ErrorKind};
use std::net::Net;
use std::time::Duration;

const TOKEN: Token = Token(0);

/// How many octets a line has at most that can be read: those of the longest command are fewer.
pub const LONGEST: usize = 4_096;

/// How many octets of a line are kept at most, so that one that is too long is known by what is kept of it.
const KEPT: usize = LONGEST + 1;

/// Waits for a descriptor.
struct Waits {
    poll: Poll,
    events: Events<Global>,
    /// There is none where nothing can be waited for, as for a file: it's always ready.
    descriptor: Option<i32>,
}

/// Written by hand, so that an owner doesn't prove at each of its exits how each part is dropped.
impl Drop for Waits {
    fn drop(self) {
        let Waits {
            poll: _poll,
            events: _events,
            descriptor: _,
        } = self;
    }
}

/// What came.
#[derive(Drop)]
pub enum Came {
    /// A line, without the LF that ends it.
    Line(Vec<u8>),
    /// Nothing for some time.
    Nothing,
    /// The end: no line comes any more.
    End,
}

/// The lines of a reader.
pub struct InputLines<I: BufRead + Drop> {
    alloc: Global,
    input: I,
    waits: Waits,
    /// What came and wasn't given yet.
    text: Vec<u8>,
    /// Whether the reader may hold something that wasn't kept, of which nothing more is told.
    is_held: bool,
    has_ended: bool,
}

/// Written by hand, so that an owner doesn't prove at each of its exits how each part is dropped.
impl<I: BufRead + Drop> Drop for InputLines<I> {
    fn drop(self) {
        let InputLines {
            alloc: _,
            input: _input,
            waits: _waits,
            text: _text,
            is_held: _,
            has_ended: _,
        } = self;
    }
}

/// Whether a poll watches a descriptor from now on. That of a file can't be watched.
fn is_watched(poll: &Poll, descriptor: i32) -> bool {
    let mut source = SourceFd(&descriptor);
    poll.registry()
        .register(&mut source, TOKEN, Interest::READABLE)
        .is_ok()
}

impl Waits {
    /// For this descriptor, if there is one that can be waited for.
    fn new<R: Net>(rt: &R, alloc: Global, descriptor: Option<i32>) -> io::Result<Waits> {
        let poll = Poll::new(rt)?;
        let descriptor = match descriptor {
            Some(descriptor) if is_watched(&poll, descriptor) => Some(descriptor),
            _ => None,
        };
        Ok(Waits {
            poll,
            events: Events::with_capacity(alloc, 1)?,
            descriptor,
        })
    }

    /// Whether there is something to read, or an end, within this time.
    fn is_ready(&mut self, most: Duration) -> bool {
        if self.descriptor.is_none() {
            return true;
        }
        match self.poll.poll(&mut self.events, Some(most)) {
            Ok(()) => self.events.iter().next().is_some(),
            // A wait that failed counts as nothing: the next call waits again.
            Err(_) => false,
        }
    }

    /// Has it told again that there is something to read: it's told once, and there may be more.
    fn again(&mut self) -> io::Result<()> {
        let Some(descriptor) = self.descriptor else {
            return Ok(());
        };
        let mut source = SourceFd(&descriptor);
        self.poll
            .registry()
            .reregister(&mut source, TOKEN, Interest::READABLE)
    }
}

impl<I: BufRead + Drop> InputLines<I> {
    /// Those of this reader, for which it's waited by a descriptor, if it has one.
    ///
    /// # Errors
    /// Where the system or memory refused what it waits with.
    pub fn new<R: Net>(
        rt: &R,
        alloc: Global,
        input: I,
        descriptor: Option<i32>,
    ) -> io::Result<InputLines<I>> {
        Ok(InputLines {
            alloc,
            input,
            waits: Waits::new(rt, alloc, descriptor)?,
            text: Vec::new(alloc),
            is_held: false,
            has_ended: false,
        })
    }

    /// The first line of what came; at the end the last may lack its LF.
    fn take_line(&mut self) -> Result<Option<Vec<u8>>, AllocError>
        ensures taken { IfOk result (λ line. IsTaken self.old.has_ended self.old.text.items self.new.text.items
            (option_map (λ octets. octets.items) line)) }
        ensures refused { OnErr result (self.new.text.items ≡ self.old.text.items) }
    {
        let length = self.text.len();
        let (end, next) = match self.text.iter().position(|octet| *octet == b'\n') {
            Some(end) => (end, end + 1),
            None if self.has_ended && length > 0 => (length, length),
            None => return Ok(None),
        };
        // Copied before the text is cut: if the allocation fails, the line is still there.
        let line = Vec::from_slice(self.alloc, &self.text[..end])?;
        drop(self.text.drain(..next));
        Ok(Some(line))
    }

    /// Keeps what is there, but of a line that is too long only its beginning. Where memory is refused it's there still.
    fn keep(&mut self) -> io::Result<()> {
        let piece = self.input.fill_buf()?;
        let count = piece.len();
        self.text.extend_from_slice(piece)?;
        // Consumed only once it is kept: if that failed, the reader still has the piece.
        self.input.consume(count);
        self.has_ended = count == 0;
        // A line without an end takes no more memory than its limit and a block, however long it gets.
        if !self.text.contains(&b'\n') {
            self.text.truncate(KEPT);
        }
        Ok(())
    }

    /// Reads what is there. Where memory is refused the reader may hold it already: the next call doesn't wait for more.
    fn read(&mut self) -> io::Result<()> {
        let kept = self.keep();
        self.is_held = kept.is_err();
        self.waits.again()?;
        kept
    }

    /// The next line, or what else came within this time.
    ///
    /// # Errors
    /// Where the reader failed, or memory was refused: then nothing is lost, and the next call tries again.
    pub fn next(&mut self, most: Duration) -> io::Result<Came> {
        if let Some(line) = self.take_line()? {
            return Ok(Came::Line(line));
        }
        // After the lines: at the end of the input there may be many that aren't answered yet.
        if self.has_ended {
            return Ok(Came::End);
        }
        if self.is_held || self.waits.is_ready(most) {
            // Only read here: what came may be no whole line, so the next call looks.
            self.read()?;
        }
        Ok(Came::Nothing)
    }

    /// Whether no line is left and none can come. It reads what is there, unless a line or a part of one waits already: so
    /// no more of the input is held than one reading gives.
    ///
    /// # Errors
    /// Where the reader failed. Where memory was refused it isn't over: the next call tries again.
    pub fn is_over(&mut self) -> io::Result<bool>
        ensures over { IfOk result (λ over. over ≡ true → (self.new.has_ended ≡ true) × (self.new.text.items ≡ [])) }
    {
        let is_idle = self.text.is_empty() && !self.has_ended;
        // No time: whoever asks waits for rows of the journal, not for the input.
        if is_idle && (self.is_held || self.waits.is_ready(Duration::from_millis(0))) {
            match self.read() {
                Err(error) if error.kind() != ErrorKind::OutOfMemory => return Err(error),
                _ => (),
            }
        }
        Ok(self.has_ended && self.text.is_empty())
    }
}
