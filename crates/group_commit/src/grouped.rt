//! What is reported of an envelope that was processed with others.

/// What is reported of an envelope that was processed with others.
#[derive(Clone, Copy, Debug, PartialEq, Eq)]
pub enum Grouped {
    /// The letter was handled: this is the position of its row in the journal.
    Handled(u64),
    /// What was sent on the pair is settled, up to this number.
    Settled(u64),
}
