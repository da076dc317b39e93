//! The marks of a pair.

ghost use Rattle.std.specs.Prelude.{◌≡◌, IfOk};
ghost use Rattle.schedule_shows.specs.Printed.{pair_line};

use crate::words::{push_numbered, push_pair, push_text};
use base::Pair;
use std::alloc::{AllocError, Global};

/// The line of `pair`: how many of its letters were sent, how many of them its sender knows to be settled, and how many
/// were handled.
///
/// # Errors
/// Where a growth was refused.
#[tactic(auto, using(std::proofs::Common::append_assoc))]
pub fn show_marks(
    alloc: Global,
    pair: &Pair,
    sent: u64,
    settled: u64,
    handled: u64,
) -> Result<Vec<u8>, AllocError>
    ensures { IfOk result (λ line. line.items ≡ pair_line pair.now sent settled handled) }
{
    let mut line = Vec::new(alloc);
    push_text(&mut line, "pair ")?;
    push_pair(&mut line, pair)?;
    push_numbered(&mut line, " sent ", sent)?;
    push_numbered(&mut line, " settled ", settled)?;
    push_numbered(&mut line, " handled ", handled)?;
    line.push(b'\n')?;
    Ok(line)
}
