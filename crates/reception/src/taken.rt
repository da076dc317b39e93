//! What became of a frame or of a held letter.

use base::Pair;

/// What became of one frame that came.
#[derive(Debug, Drop)]
pub enum Taken {
    /// The session is connected, and subscribes to its service's queue.
    Connected,
    /// The broker has the frame with this receipt number.
    Receipt(u64),
    /// A letter was the next of its pair and was processed: the position of its row in the journal, from 1.
    Handled(u64),
    /// A letter was redelivered: how far its pair was handled, which is settled again.
    Repeated(u64),
    /// A letter came too early; one of its number is held.
    Held,
    /// A settle was taken: the mark of its pair.
    Settled(u64),
    /// The broker refused a frame and ends the session: the `message` of its ERROR, empty where it has none.
    Error(String),
}

/// A held letter that was handled.
#[derive(Debug, Drop)]
pub struct Drained {
    /// The pair of the letter.
    pub pair: Pair,
    /// The number of the letter.
    pub number: u64,
}
