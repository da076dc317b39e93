//! What is told of the words of a command line.

ghost use Rattle.std.specs.Prelude.{◌≡◌, true, false, IfOk, OnErr};
ghost use Rattle.std.specs.Io.KnownBytes.{Appends};
ghost use Rattle.clap.specs.Words.{kind_of};
ghost use Rattle.command_line.specs.Usage.{is_request, status_of, bad_words_text};
ghost use Rattle.streams.specs.Written.{AppendsPart};

use clap::Error;
use clap::error::ErrorKind;
use std::io;
use std::io::Write;
use streams::write_three;

/// What is told where a word isn't UTF-8, up to how the program is called.
const BAD_WORDS: &[u8] = b"error: invalid UTF-8 was detected in one or more arguments\n\nUsage: ";

/// What is told behind it.
const TRY_HELP: &[u8] = b"\n\nFor more information, try '--help'.\n";

/// Whether it was asked for, and is no fault.
fn is_request(kind: ErrorKind) -> bool
    ensures { result ≡ is_request kind }
{
    matches!(kind, ErrorKind::DisplayHelp | ErrorKind::DisplayVersion)
}

/// Writes what `clap` says of the words: help and the version to `out`, a fault of usage to `err`. Answers the status:
/// 0 for what was asked for, 2 for a fault.
///
/// # Errors
/// Where the stream failed on which it is told; the other is as it was.
pub fn tell_words<W: Write, E: Write>(out: &mut W, err: &mut E, error: &Error) -> io::Result<u8>
    ensures status { IfOk result (λ status. status ≡ status_of (kind_of error.now)) }
    ensures request { is_request (kind_of error.now) ≡ true → err.new ≡ err.old }
    ensures fault { is_request (kind_of error.now) ≡ false → out.new ≡ out.old }
{
    // Help that was asked for is output, and may be piped; a fault of usage must not get into that pipe.
    if is_request(error.kind()) {
        write!(out, "{error}")?;
        out.flush()?;
        Ok(0)
    } else {
        write!(err, "{error}")?;
        err.flush()?;
        Ok(2)
    }
}

/// Tells on `err` that a word isn't UTF-8, and how the program is called, as `clap` does. The status is 2 then.
///
/// # Errors
/// Where `err` failed: it took a beginning of that.
pub fn tell_bad_words<E: Write>(err: &mut E, usage: &str) -> io::Result<u8>
    ensures told { IfOk result (λ status. (status ≡ 2)
        × Appends (E.contents err.old) (E.contents err.new) (bad_words_text usage.now)) }
    ensures untold { OnErr result (AppendsPart (E.contents err.old) (E.contents err.new) (bad_words_text usage.now)) }
{
    // In `clap`'s words but not by `clap`: words that aren't UTF-8 can't be read, so it is never called.
    write_three(err, BAD_WORDS, usage.as_bytes(), TRY_HELP)?;
    err.flush()?;
    Ok(2)
}
