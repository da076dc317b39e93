//! What two sides may do, and what they answer.

use base::{Entity, Pair};
use endpoint::{Committed, EndFault, Ingested};

/// What one side does.
#[derive(Debug, Drop)]
pub enum Event<C> {
    /// A seat's command to an entity is taken in.
    Commit(u8, Entity, C),
    /// The first so many letters that aren't settled are sent, also those that were sent before.
    Send(usize),
    /// The other side is told how many letters of a pair were handled here.
    Tell(Pair),
    /// An envelope arrives, now or again: its index, from 0, among all that the other side ever sent.
    Take(usize),
    /// The next letter of a pair is taken in, where it is held.
    Drain(Pair),
    /// The store is opened again.
    Reopen,
}

/// Which of two sides acts, and what it does.
#[derive(Debug, Drop)]
pub enum Delivery<C, D> {
    /// The left side does this.
    Left(Event<C>),
    /// The right side does this.
    Right(Event<D>),
}

/// What a side answered.
#[derive(Clone, Copy, Debug, PartialEq, Eq)]
pub enum Outcome {
    /// To a command.
    Committed(Result<Committed, EndFault>),
    /// How many letters were sent.
    Sent(Result<usize, EndFault>),
    /// How many letters the other side was told of.
    Told(Result<u64, EndFault>),
    /// To a letter.
    Taken(Result<Ingested, EndFault>),
    /// To a settle.
    Settled(Result<u64, EndFault>),
    /// The number of the letter that was held, where the next was.
    Drained(Result<Option<u64>, EndFault>),
    /// To a reopening.
    Reopened(Result<(), EndFault>),
    /// There is no such seat, or no such envelope: nothing was done.
    Missing,
}
