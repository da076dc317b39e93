//! Octets that are written whole, or up to where the writer fails.

ghost use Rattle.std.specs.Prelude.{◌++◌, OnOk, OnErr};
ghost use Rattle.std.specs.Io.{WritesAtMost};
ghost use Rattle.std.specs.Io.KnownBytes.{Appends, WriteAppends};
ghost use Rattle.streams.specs.Written.{AppendsPart};

use std::io;
use std::io::{ErrorKind, Write};

/// Writes a beginning of octets: at least one of them, unless the writer was interrupted.
fn write_some<W: Write>(out: &mut W, octets: &[u8]) -> io::Result<usize>
    ensures bound { WritesAtMost result octets.now }
    ensures bytes { WriteAppends (W.contents out.old) (W.contents out.new) result octets.now }
{
    match out.write(octets) {
        Ok(0) => Err(io::Error::from(ErrorKind::WriteZero)),
        Err(error) if error.kind() == ErrorKind::Interrupted => Ok(0),
        answer => answer,
    }
}

/// Writes octets to a writer that blocks. It takes no memory.
///
/// # Errors
/// That of the writer where it failed, and `WriteZero` where it took no octet: it took a beginning of them then. A
/// write that was interrupted is made again.
pub fn write_octets<W: Write>(out: &mut W, octets: &[u8]) -> io::Result<()>
    ensures ok { OnOk result (Appends (W.contents out.old) (W.contents out.new) octets.now) }
    ensures err { OnErr result (AppendsPart (W.contents out.old) (W.contents out.new) octets.now) }
{
    let mut written = 0;
    // bounded, since a writer may be interrupted for ever
    for _ in 0..u64::MAX {
        if written == octets.len() {
            return Ok(());
        }
        written += write_some(out, &octets[written..])?;
    }
    Err(io::Error::from(ErrorKind::TimedOut))
}

/// Writes octets, other octets, and others again. It takes no memory.
///
/// # Errors
/// Those of [`write_octets`]: the writer took a beginning of all three together.
pub fn write_three<W: Write>(
    out: &mut W,
    first: &[u8],
    second: &[u8],
    third: &[u8],
) -> io::Result<()>
    ensures ok { OnOk result (Appends (W.contents out.old) (W.contents out.new)
        (first.now ++ second.now ++ third.now)) }
    ensures err { OnErr result (AppendsPart (W.contents out.old) (W.contents out.new)
        (first.now ++ second.now ++ third.now)) }
{
    write_octets(out, first)?;
    write_octets(out, second)?;
    write_octets(out, third)
}
