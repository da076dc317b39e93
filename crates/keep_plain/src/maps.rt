//! The maps that the tables are kept in.

use crate::arrivals::Arrivals;
use crate::marks::Marks;
use activities::JournalRow;
use base::{Entity, Pair};
use envelope::Message;
use keep::LetterPlace;
use std::collections::BTreeMap;

/// The tables of a service whose states are `S` and whose commands are `C`, as they are in memory. An empty slot is as
/// no row.
#[derive(Drop)]
pub struct Maps<S, C> {
    /// The rows of the journal, in order.
    pub journal: Vec<JournalRow<C>>,
    // Ordered maps, so that a commit costs its look-ups: as a log of changes, searched from its newest, tables gave 856
    // commits a second after 20,000 orders.
    /// The rows of entities.
    pub rows: BTreeMap<Entity, Option<S>>,
    /// The marks of pairs that send.
    pub marks: BTreeMap<Pair, Option<Marks>>,
    /// What was sent and isn't settled.
    pub outbox: BTreeMap<LetterPlace, Option<Message>>,
    /// What arrives.
    pub arrivals: Arrivals,
}
