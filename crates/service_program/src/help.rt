//! What `--help` prints below the options.

use crate::program::Texts;
use std::alloc::{AllocError, Global};

/// What a program does, and its lines up to its commands.
const INTRODUCTION: &str = "\
It opens two connections to the broker, prints `connected N`, how many are open then, and answers
the lines of its standard input, each by a line on standard output. A connection that ends is
opened again by itself, at growing intervals of 100 milliseconds to 5 seconds, and one on which
the broker is mute is reopened. What happens to connections is logged on standard error, a line
each after its time in UTC and its level.

Lines:
";

/// The lines that each program answers, and the answers up to its refusals.
const LINES: &str = "  \
show KIND/KEY                        shows an entity's row; KIND is order, stock or account
  connect                              opens now what isn't open
  status                               shows the journal's rows; how many connections are open, and
                                       were opened since the start; how many settles came; the first
                                       unsettled letter, and for how many seconds it is the first
  await N                              waits until the journal has N rows, 1,000 seconds at most, or
                                       until the input ends, if this was its last line

A key has 1 to 64 octets, with \\s for a space, \\n for LF, \\r for CR and \\\\ for a backslash. Empty
lines and lines that begin with # are passed over.

Answers, where nothing is shown:
  committed POS   processed and stored, at this position of the journal
  connected N     how many connections are open
  journal N       how many rows the journal has
  refused 60      NotMine: the command or the entity is of another service
";

/// The refusals of each program.
const REFUSALS: &str = "  \
refused 63, 65  StoreFailed, Unusable: the store failed, and the program ends with status 1
  refused 64      Memory: out of memory
  refused 66      NumberLimit: no number is left
  refused 80      the line can't be read

";

/// What becomes of the tables of a program that has them in memory, and its exit status.
pub const IN_MEMORY: &str = "\
At the end of the input it ends: what came before is handled. It may be killed at any time. Its
tables end with the program, and then the broker's queues and the tables of its partners have to
end too.

Exit status:
  0  the input ended
  1  `fault N NAME` is the last line on standard error: 2 Device: a stream failed, or the system
     refused what is needed; 63 StoreFailed: the store failed; 81 Memory: out of memory at the start
  2  the words of the command line are at fault";

/// Appends words, each with its meaning on a line of its own.
fn push_entries(
    alloc: Global,
    help: &mut String,
    entries: &[(&str, &str)],
) -> Result<(), AllocError> {
    for (words, meaning) in entries {
        // As wide as the first column of `LINES`, which is printed below these entries.
        let line = format!(in alloc; "  {words:<35}  {meaning}\n")?;
        help.push_str(&line)?;
    }
    Ok(())
}

/// Appends refusals, each with its meaning on a line of its own.
fn push_refusals(
    alloc: Global,
    help: &mut String,
    entries: &[(&str, &str)],
) -> Result<(), AllocError> {
    for (words, meaning) in entries {
        let line = format!(in alloc; "  {words:<14}  {meaning}\n")?;
        help.push_str(&line)?;
    }
    Ok(())
}

/// What `--help` prints below the options.
///
/// # Errors
/// Where an allocation failed.
pub fn help_of(alloc: Global, texts: Texts<'_>, ending: &str) -> Result<String, AllocError> {
    let mut help = String::from_str(alloc, INTRODUCTION)?;
    push_entries(alloc, &mut help, texts.commands)?;
    help.push_str(LINES)?;
    push_refusals(alloc, &mut help, texts.refusals)?;
    help.push_str(REFUSALS)?;
    help.push_str(ending)?;
    Ok(help)
}
