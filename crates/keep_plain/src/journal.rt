//! The rows of the journal.

ghost use Rattle.std.specs.Prelude.{◌≡◌, ◌-◌, IfOk, take, drop};

use crate::copies::copy_journal_row;
use activities::{Handler, JournalRow};
use std::alloc::{AllocError, Global};

/// Copies of rows, in order.
fn copy_rows<H: Handler>(
    alloc: Global,
    rows: &[JournalRow<H::Command>],
) -> Result<Vec<JournalRow<H::Command>>, AllocError>
    ensures { IfOk result (λ copies. copies.items ≡ rows.now) }
{
    let mut copies = Vec::new(alloc);
    for row in rows {
        copies.push(copy_journal_row::<H>(alloc, row)?)?;
    }
    Ok(copies)
}

/// Copies of the first `limit` rows from a position on, or of all where they are fewer. Positions begin at 1; 0 is read
/// as 1.
pub fn copy_page<H: Handler>(
    alloc: Global,
    journal: &[JournalRow<H::Command>],
    from: u64,
    limit: usize,
) -> Result<Vec<JournalRow<H::Command>>, AllocError>
    ensures { IfOk result (λ rows. rows.items ≡ take limit (drop (from - 1) journal.now)) }
{
    let start = from.saturating_sub(1);
    // Compared as u64: a position that is too large may not wrap around as an index.
    if start >= journal.len() as u64 {
        return Ok(Vec::new(alloc));
    }
    let rest = &journal[start as usize..];
    copy_rows::<H>(alloc, &rest[..limit.min(rest.len())])
}
