//! How much is held together, and who isn't read while that is too much.

ghost use Rattle.std.specs.Prelude.{◌&&◌, ◌-◌, ◌/◌, ◌<◌, ◌≡◌, ◌≤◌, false, not, true};

use crate::News;

/// The limit counts as met until less of it is held than all but one of so many parts: else a client would be read for
/// a message, and held back again.
const PARTS: u64 = 8;

/// A limit of what is held, and below which number of octets it counts as met no more.
#[derive(Clone, Copy, Debug)]
pub(crate) struct Limit {
    most: u64,
    eased: u64,
}

impl Limit {
    /// A limit of so many octets.
    fn new(most: u64) -> Limit
        ensures most { result.most ≡ most }
        ensures eased { result.eased ≡ most - most / 8 }
    {
        Limit {
            most,
            eased: most - most / PARTS,
        }
    }

    /// Whether it is met, where so much is held and it was or wasn't.
    fn is_met(&self, was_met: bool, held: u64) -> bool
        ensures met { self.now.most ≤ held → result ≡ true }
        ensures eased { held < self.now.most → held < self.now.eased → result ≡ false }
        ensures between { held < self.now.most → self.now.eased ≤ held → result ≡ was_met }
    {
        held >= self.most || (was_met && held >= self.eased)
    }
}

/// Whether a connection isn't read: one that has sent something, while the limit is met. One that has deliveries to
/// answer is, as each answer gives memory back; and so is one that has sent nothing, as it may come to take something.
pub(crate) fn is_held_back(is_full: bool, sends: bool, has_unanswered: bool) -> bool
    // A hard limit would stop services that take, send and answer on one connection.
    ensures { result ≡ (is_full && sends && not has_unanswered) }
{
    is_full && sends && !has_unanswered
}

/// The octets that something holds for its clients, besides the messages in queues.
#[derive(Clone, Copy, Debug)]
pub(crate) struct Holding {
    /// What open transactions keep.
    pub(crate) kept: u64,
    /// What is left to be written.
    pub(crate) unread: u64,
}

impl Holding {
    /// Nothing.
    pub(crate) fn new() -> Holding {
        Holding { kept: 0, unread: 0 }
    }

    /// All octets together.
    pub(crate) fn all(self) -> u64 {
        self.kept.saturating_add(self.unread)
    }

    /// What both hold.
    pub(crate) fn with(self, other: Holding) -> Holding {
        Holding {
            // Saturating: a sum that is too large is above every limit as well.
            kept: self.kept.saturating_add(other.kept),
            unread: self.unread.saturating_add(other.unread),
        }
    }

    /// What is left without the other's, which is part of it.
    pub(crate) fn without(self, other: Holding) -> Holding {
        Holding {
            kept: self.kept.saturating_sub(other.kept),
            unread: self.unread.saturating_sub(other.unread),
        }
    }
}

/// Whether the limit is met, if there is one.
#[derive(Clone, Copy, Debug)]
pub(crate) struct Room {
    limit: Option<Limit>,
    is_full: bool,
    /// Memory was refused to what is kept for deals and answers.
    is_short: bool,
    /// What was told last.
    was_told_full: bool,
    /// The session whose connection is read all the same.
    spared: Option<u64>,
    /// There may be connections that are held back.
    pub(crate) holds_back: bool,
}

impl Room {
    /// Nothing is held yet.
    pub(crate) fn new(memory: Option<u64>) -> Room {
        Room {
            limit: memory.map(Limit::new),
            is_full: false,
            is_short: false,
            was_told_full: false,
            spared: None,
            holds_back: false,
        }
    }

    /// Whether there is a limit.
    pub(crate) fn is_limited(&self) -> bool {
        self.limit.is_some()
    }

    /// Whether the limit is met.
    pub(crate) fn is_full(&self) -> bool {
        self.is_full
    }

    /// Whether it is, for the connection of a session.
    pub(crate) fn is_full_for(&self, number: u64) -> bool {
        self.is_full && self.spared != Some(number)
    }

    /// Whether there is no memory for what is kept for deals and answers, so that who sends leaves what there is to
    /// them.
    pub(crate) fn is_short(&self) -> bool
        ensures { result ≡ self.now.is_short }
    {
        self.is_short
    }

    /// Whether all is there that is kept for deals and answers.
    pub(crate) fn note_reserve(&mut self, is_whole: bool)
        ensures { self.new.is_short ≡ not is_whole }
    {
        self.is_short = !is_whole;
    }

    /// Notes how much is held now.
    pub(crate) fn note(&mut self, held: u64) {
        if let Some(limit) = self.limit {
            self.is_full = limit.is_met(self.is_full, held);
        }
    }

    /// What is to be told where the limit is met since it was told last, or isn't any more.
    pub(crate) fn news(&mut self, held: u64) -> Option<News> {
        // Reported once for each change.
        if self.is_full == self.was_told_full {
            return None;
        }
        self.was_told_full = self.is_full;
        if self.is_full {
            Some(News::Full { held })
        } else {
            Some(News::Freed)
        }
    }

    /// Whether the limit stays met whatever is taken out of queues, since open transactions keep so much.
    pub(crate) fn is_stuck(&self, kept: u64) -> bool {
        // Only a COMMIT or an ABORT frees so much: if none of their connections were read, that would last for good.
        match self.limit {
            Some(limit) => self.is_full && kept >= limit.eased,
            None => false,
        }
    }

    /// The session whose connection is read all the same.
    pub(crate) fn spared(&self) -> Option<u64> {
        self.spared
    }

    /// Has a session's connection be read all the same, or none.
    pub(crate) fn spare(&mut self, number: Option<u64>) {
        self.spared = number;
    }
}
