//! The mark of the journal's length, which calls raise and the Scout reads without the lock.

ghost use Rattle.std.specs.Prelude.{◌≡◌, ◌≤◌, ◌∷◌, [], ◌++◌, true, None, IfOk};
ghost use Rattle.marks.specs.Entries.{entry, greatest};
ghost use Rattle.marks.specs.Seats.{raised_by};
ghost use Rattle.shared_endpoint.specs.Mark.{raised_after, row_committed, row_handled, last_handled, rows_grouped};
ghost use Rattle.shared_endpoint.specs.Mark.{AreRowsDrained};

use crate::boxed::Boxed;
use crate::shared::Shared;
use crate::tokens::Scout;
use activities::Handler;
use endpoint::{Committed, EndFault, Ingested};
use group_commit::Grouped;
use keep::Keep;
use marks::MarkSeat;

/// How many tokens there are: the seats, the Hand and the Scout.
pub(crate) const TOKENS: usize = 18;

/// The position of the row that a commit added.
pub(crate) fn row_committed(answer: &Result<Committed, EndFault>) -> Option<u64>
    ensures { result ≡ row_committed answer.now }
{
    match answer {
        // A row's position is the journal's length once the row is there.
        Ok(committed) => Some(committed.pos),
        Err(_) => None,
    }
}

/// The position of the row that taking in a letter added.
pub(crate) fn row_handled(answer: &Result<Ingested, EndFault>) -> Option<u64>
    ensures { result ≡ row_handled answer.now }
{
    match answer {
        Ok(Ingested::Handled(pos)) => Some(*pos),
        // A letter that is held has no row yet: `drain_held` adds it.
        Ok(Ingested::Repeated(_) | Ingested::Held) | Err(_) => None,
    }
}

/// The last of the positions that are told.
fn last_handled(told: &[Grouped]) -> Option<u64>
    ensures { result ≡ last_handled None told.now }
{
    let mut last = None;
    for grouped in told {
        if let Grouped::Handled(position) = grouped {
            // Rows are added in order: the last one has the highest position.
            last = Some(*position);
        }
    }
    last
}

/// The position of the last row that taking in a group added.
pub(crate) fn rows_grouped(answer: &Result<Vec<Grouped>, EndFault>) -> Option<u64>
    ensures { result ≡ rows_grouped answer.now }
{
    match answer {
        Ok(told) => last_handled(told.as_slice()),
        Err(_) => None,
    }
}

impl<H, K> Boxed<H, K>
where
    H: Handler,
    K: Keep<State = H::State, Command = H::Command> + Drop,
{
    /// How many rows the journal has after a held letter was processed, where one was.
    pub(crate) fn rows_drained(&self, answer: &Result<Option<u64>, EndFault>) -> Option<u64>
        requires { IfOk answer.now (λ _. (K.seen self.now).usable ≡ true) }
        ensures { AreRowsDrained K.seen self.now answer.now result }
    {
        match answer {
            // An endpoint that has just answered so is usable, and then its length can't fail.
            Ok(Some(_)) => self.endpoint.length().ok(),
            Ok(None) | Err(_) => None,
        }
    }
}

impl<H, K> Shared<H, K>
where
    H: Handler,
    K: Keep<State = H::State, Command = H::Command> + Drop,
{
    ghost use Rattle.shared_endpoint.specs.Keys.{IsScoutOf, IsMarkOf, told_scout, marks_read};

    /// Raises the mark to so many rows, where there are any new ones.
    pub(crate) fn raise(&self, mark: &mut MarkSeat, rows: Option<u64>)
        requires mark { IsMarkOf self.now mark.old }
        ensures mark { IsMarkOf self.now mark.new }
        ensures raised { raised_by mark.new ≡ raised_after (raised_by mark.old) rows }
    {
        // Threads come here after they released the lock, in any order: the greatest of all stays.
        if let Some(rows) = rows {
            self.marks.raise(mark, 0, rows);
        }
    }

    /// The mark, which begins at 0, and which each call that adds a row raises to the length that the journal then has:
    /// no less than what the Scout read before. It takes neither the lock nor memory, so that it waits for no thread;
    /// how soon it shows a row isn't promised.
    pub fn mark(&self, scout: &mut Scout<H, K>) -> u64
        requires scout { IsScoutOf self.now scout.old }
        ensures read_before { greatest 0 (marks_read scout.old) ≤ result }
        ensures read { marks_read scout.new ≡ marks_read scout.old ++ entry 0 result ∷ [] }
        ensures scout { IsScoutOf self.now scout.new × (told_scout scout.new ≡ told_scout scout.old) }
    {
        self.marks.read(&mut scout.mark, 0)
    }
}
