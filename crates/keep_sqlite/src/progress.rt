//! Who is told how far a file was taken over.

use std::io::IsTerminal;

/// How many rows are taken over between two lines that tell so.
const ROWS: u64 = 100_000;

/// Is told how far a file was taken over. The unit type is one that tells nobody.
pub trait Progress {
    /// Called for each row that was taken over: of the journal, or an order.
    fn step(&mut self);
}

impl Progress for () {
    fn step(&mut self) {}
}

/// Tells on standard error how many rows were taken over, each 100,000 of them, where that is a terminal.
#[derive(Drop)]
pub struct TerminalProgress<'a> {
    rt: &'a HostRuntime,
    is_terminal: bool,
    rows: u64,
}

impl<'a> TerminalProgress<'a> {
    /// No row was taken over yet.
    pub fn new(rt: &'a HostRuntime) -> TerminalProgress<'a> {
        TerminalProgress {
            rt,
            // Asked once. These lines are for somebody who waits: a log has no use for them.
            is_terminal: rt.stderr().is_terminal(),
            rows: 0,
        }
    }
}

impl<'a> Progress for TerminalProgress<'a> {
    fn step(&mut self) {
        // Saturating: a count that is only shown must not stop a migration.
        self.rows = self.rows.saturating_add(1);
        if self.is_terminal && self.rows % ROWS == 0 {
            // A terminal that is gone is no reason to stop.
            let _ = eprintln!(self.rt; "{} rows taken over", self.rows);
        }
    }
}
