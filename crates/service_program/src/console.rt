//! The streams of a service: where its lines come from, and where their answers go.

use std::alloc::Global;
use std::io;
use std::io::{BufRead, BufReader, Printer, Stdin, Write};

/// The descriptor of the standard input.
const STANDARD_INPUT: i32 = 0;

/// Where a service reads its lines, and where it writes their answers.
pub struct Streams<I: BufRead + Drop, W: Write + Drop> {
    /// The lines. They are read in blocks: who gives a reader reads nothing of it meanwhile.
    pub input: I,
    /// By which descriptor it's waited for them, as 0 for the standard input. A reader without one is asked at once, whenever the
    /// service has nothing to do: a text is, or a file.
    pub descriptor: Option<i32>,
    /// The answers. It's flushed after each.
    pub out: W,
}

/// Written by hand, so that an owner doesn't prove at each of its exits how each part is dropped.
impl<I: BufRead + Drop, W: Write + Drop> Drop for Streams<I, W> {
    fn drop(self) {
        let Streams {
            input: _input,
            descriptor: _,
            out: _out,
        } = self;
    }
}

impl<I: BufRead + Drop, W: Write + Drop> Streams<I, W> {
    /// Its parts: the input, the descriptor, and where answers go.
    pub(crate) fn into_parts(self) -> (I, Option<i32>, W) {
        let Streams {
            input,
            descriptor,
            out,
        } = self;
        (input, descriptor, out)
    }
}

/// The standard streams of a process.
pub type StandardStreams<'a> = Streams<BufReader<Stdin, Global>, Printer<'a, HostRuntime>>;

/// The standard streams of this process.
///
/// # Errors
/// Where memory was refused.
pub fn standard_streams(host: &HostRuntime) -> io::Result<StandardStreams<'_>> {
    Ok(Streams {
        // The runtime's own reader takes a pipe octet by octet, so that it never takes more than a line. Nobody else reads here.
        input: BufReader::new(host.alloc(), host.stdin())?,
        descriptor: Some(STANDARD_INPUT),
        out: io::writer(host),
    })
}
