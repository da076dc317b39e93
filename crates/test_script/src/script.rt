//! The loop over a script's lines.

ghost use Rattle.std.specs.Prelude.{◌≡◌, ◌++◌, ◌∷◌, [], true, IfOk, string_bytes};
ghost use Rattle.std.specs.Io.KnownBytes.{Appends};
ghost use Rattle.test_script.specs.Lines.{is_quiet, or_done};

use std::alloc::{AllocError, Global};
use std::fmt::Display;
use std::io;
use std::io::{BufWriter, ErrorKind, Write};
use std::process::ExitCode;

/// The status of a program that was refused a growth.
const NO_MEMORY: u8 = 3;

/// Why a line has no answer: its text is printed in place of one.
pub trait Fault: Display + Drop {
    /// Whether a growth was refused: the program ends then, and nothing is printed for the line.
    fn is_memory(&self) -> bool;
}

/// What answers the lines of a script.
pub trait Script {
    /// What a line gives.
    type Answer;

    /// Why a line gives nothing.
    type Fault: Fault;

    /// What a line gives that is neither empty nor a comment.
    ///
    /// # Errors
    /// What the program says of the line; where `is_memory` holds of it, the script ends.
    fn answer(&mut self, alloc: Global, line: &str) -> Result<Self::Answer, Self::Fault>;

    /// Writes what a line gave, without the LF that ends it.
    ///
    /// # Errors
    /// Those of `out`.
    fn show<W: Write>(&self, answer: Self::Answer, out: &mut W) -> io::Result<()>;
}

/// Whether a line is printed as it is: it is empty or a comment.
fn is_quiet(line: &str) -> bool
    ensures { result ≡ is_quiet line.now }
{
    // Empty first: such a line has no first octet.
    line.is_empty() || line.as_bytes()[0] == b'#'
}

/// Writes a text and LF.
fn write_line<W: Write>(out: &mut W, text: &str) -> io::Result<()>
    ensures { IfOk result (λ _. Appends (W.contents out.old) (W.contents out.new) (text.now ++ 10 ∷ [])) }
{
    out.write_all(text.as_bytes())?;
    out.write_all(b"\n")
}

/// Writes the answer to a line, or the text of its fault, and LF. An empty line and a comment are written as they are,
/// and the script isn't asked.
///
/// # Errors
/// `OutOfMemory` where the script was refused a growth, and those of `out`.
pub fn answer_line<S: Script, W: Write>(
    alloc: Global,
    script: &mut S,
    line: &str,
    out: &mut W,
) -> io::Result<()>
    ensures unasked { is_quiet line.now ≡ true → script.new ≡ script.old }
    ensures quiet { is_quiet line.now ≡ true
        → IfOk result (λ _. Appends (W.contents out.old) (W.contents out.new) (line.now ++ 10 ∷ [])) }
{
    if is_quiet(line) {
        return write_line(out, line);
    }
    match script.answer(alloc, line) {
        Ok(answer) => {
            script.show(answer, out)?;
            writeln!(out)
        }
        // Not printed as the line's fault: with more memory the same line has another answer.
        Err(fault) if fault.is_memory() => Err(io::Error::from(ErrorKind::OutOfMemory)),
        Err(fault) => writeln!(out, "{fault}"),
    }
}

/// What a line answers whose call gave this text: the text, or `done` where it's empty.
///
/// # Errors
/// `AllocError`: a growth was refused.
pub fn or_done(alloc: Global, text: String) -> Result<String, AllocError>
    ensures { IfOk result (λ answer. string_bytes answer ≡ or_done (string_bytes text)) }
{
    if text.is_empty() {
        // Nothing at all would look like an empty line of the script, which is printed as it is.
        String::from_str(alloc, "done")
    } else {
        Ok(text)
    }
}

/// Answers each line of the input.
fn answer_lines<R: AllocGlobal + Input, S: Script, W: Write>(
    rt: &R,
    script: &mut S,
    out: &mut W,
) -> io::Result<()> {
    for line in rt.lines(rt.alloc()) {
        answer_line(rt.alloc(), script, line?.as_str(), out)?;
    }
    Ok(())
}

/// The same on the output: what was answered is written out, whatever ended it.
fn answer_input<R: AllocGlobal + Input + Print, S: Script>(
    rt: &R,
    script: &mut S,
) -> io::Result<()> {
    let mut out = BufWriter::new(rt.alloc(), io::writer(rt))?;
    let answered = answer_lines(rt, script, &mut out);
    // Before the fault of a line is returned, so that the answers above it are written. A fault of this hides that one.
    out.flush()?;
    answered
}

/// Runs a script: answers each line of the standard input on the standard output, as `answer_line` does. What was
/// answered is written out whatever ends it. The status is 0, or 3 where a growth was refused.
///
/// # Errors
/// Those of the streams.
pub fn run<R: AllocGlobal + Input + Print, S: Script>(
    rt: &R,
    script: &mut S,
) -> io::Result<ExitCode> {
    match answer_input(rt, script) {
        Ok(()) => Ok(ExitCode::SUCCESS),
        // Of a line or of the output's own buffer: both come as this kind.
        Err(error) if error.kind() == ErrorKind::OutOfMemory => Ok(ExitCode::from(NO_MEMORY)),
        Err(error) => Err(error),
    }
}
