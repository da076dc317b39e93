//! What is ready before the endpoint is asked.

use crate::Taken;
use crate::replies::{Acknowledgements, LetterReplies};
use base::Pair;
use base::limits::MAX_BODY;
use envelope::Letter;
use stomp_frame::Frame;

/// What a frame that came asks of the endpoint.
#[derive(Drop)]
pub enum Prepared {
    /// Nothing: this became of it.
    Done(Taken),
    /// To process a letter.
    Letter(PreparedLetter),
    /// To mark letters as settled.
    Settle(PreparedSettle),
}

/// A letter that came, with its replies made and room for them.
#[derive(Drop)]
pub struct PreparedLetter {
    /// The MESSAGE that brought it.
    pub message: Frame<MAX_BODY>,
    /// The letter.
    pub letter: Letter,
    pub(crate) replies: LetterReplies,
}

/// A settle that came, with its replies made and room for them.
#[derive(Drop)]
pub struct PreparedSettle {
    /// The MESSAGE that brought it.
    pub message: Frame<MAX_BODY>,
    /// The pair that is settled.
    pub pair: Pair,
    /// Up to which number.
    pub number: u64,
    pub(crate) answers: Acknowledgements,
}
