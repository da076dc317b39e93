//! What is left to be sent to receivers of each kind.

ghost use Rattle.std.specs.Prelude.{◌≡◌};
ghost use Rattle.service_workers.specs.Backlogs.{earlier, moment_of};

use crate::walk::{Left, Walk};
use base::Kind;

/// After how many rests in vain the outbox is walked over from its first letter, where news or an estimate were relied on.
const RESTS: u32 = 16;

/// A moment after which all that new rows of the journal have sent can be sent at once: all before was.
#[derive(Clone, Copy)]
pub(crate) struct Moment {
    /// The connection on which it was sent.
    pub number: u8,
    /// How many rows the journal had.
    pub rows: u64,
    /// How often connections had changed.
    pub changes: u64,
}

/// What the relay has seen of others when it looked last for letters to receivers of a kind, and what that look left.
#[derive(Drop)]
pub(crate) struct Backlog {
    pub kind: Kind,
    rows: u64,
    changes: u64,
    settles: u64,
    left: Left,
    /// The connection on which all was sent that these rows have sent, where it was.
    whole: Option<u8>,
    /// How often the relay has rested in vain since it sent news, or filled the window by an estimate, where it did so last.
    vain: Option<u32>,
    /// The last walk, where it left something.
    last: Option<Walk>,
}

impl Backlog {
    /// Nobody has looked: it's to be done now, since there were never so many changes.
    fn new(kind: Kind) -> Backlog {
        Backlog {
            kind,
            rows: 0,
            changes: u64::MAX,
            settles: 0,
            left: Left::Nothing,
            whole: None,
            vain: None,
            last: None,
        }
    }

    /// Whether there may be something to send, where the journal has so many rows, so many of the receivers' settles were
    /// taken, and connections have changed so often.
    pub(crate) fn is_due(&self, rows: u64, settles: u64, changes: u64) -> bool {
        match self.left {
            Left::More => true,
            // What was sent on a connection that was cut may be lost, so each change makes all of it due again.
            Left::Nothing => rows > self.rows || changes != self.changes,
            // New rows don't help while the window is full: only a settle or another connection makes room.
            Left::Full => settles != self.settles || changes != self.changes,
        }
    }

    /// Counts a rest in vain, and answers whether the outbox is walked over from its first letter for it: so nothing depends
    /// on news or estimates alone.
    fn count_vain(&mut self) -> bool {
        let Some(vain) = self.vain else {
            return false;
        };
        if vain < RESTS {
            self.vain = Some(vain.saturating_add(1));
            return false;
        }
        // Without a last walk the next one begins at the first letter.
        self.last = None;
        self.left = Left::More;
        true
    }

    /// Whether all was sent that the rows have sent which were looked at.
    pub(crate) fn is_whole(&self) -> bool {
        self.whole.is_some()
    }

    /// Since when new rows can be looked at, where the journal has more now and no connection has changed.
    fn moment(&self, rows: u64, changes: u64) -> Option<Moment>
        ensures { result ≡ moment_of self.now rows changes }
    {
        // Where a walk left something, older letters may be due too: news alone wouldn't do.
        let number = self.whole?;
        if rows <= self.rows || changes != self.changes {
            return None;
        }
        Some(Moment {
            number,
            rows: self.rows,
            changes,
        })
    }

    /// Whether all was sent at that moment, or at a later one: what was sent since is passed over by its marks. So all kinds
    /// that are whole get their news by one look, and stay together.
    pub(crate) fn is_whole_at(&self, moment: Moment) -> bool {
        self.whole == Some(moment.number)
            && self.rows >= moment.rows
            && self.changes == moment.changes
    }

    /// What rows up to so many have sent was sent, all of it or not, where so many settles were taken before. Where it wasn't,
    /// the outbox is walked over for it.
    pub(crate) fn end_news(&mut self, rows: u64, settles: u64, is_all: bool) {
        if !is_all {
            // The rows stay as they were, so the kind is still due; without `whole` it gets a walk, and no news.
            self.whole = None;
            return;
        }
        self.rows = rows;
        self.settles = settles;
        self.left = Left::Nothing;
        // News are a hint: from here on rests in vain are counted, until a walk looks at the whole outbox.
        self.vain = Some(0);
    }

    /// The connection that was used last.
    pub(crate) fn number(&self) -> Option<u8> {
        match &self.last {
            Some(walk) => Some(walk.number),
            None => self.whole,
        }
    }

    /// A look begins, where there are so many rows, settles and changes, and what the last one left is answered. What others do
    /// from here on is seen by the next look.
    pub(crate) fn begin(&mut self, rows: u64, settles: u64, changes: u64) -> Left {
        self.rows = rows;
        self.settles = settles;
        self.changes = changes;
        self.whole = None;
        self.vain = None;
        self.left
    }

    /// No connection is connected.
    pub(crate) fn end_unconnected(&mut self) {
        // A connection that becomes connected is a change, which makes it due again.
        self.left = Left::Nothing;
        self.last = None;
    }

    /// A page couldn't be read.
    pub(crate) fn end_refused(&mut self) {
        // The walk was taken out and isn't put back: the next one begins at the first letter.
        self.left = Left::More;
    }

    /// The next walk on a connection: from the first letter on, unless the last one can be resumed there. Either finds as much
    /// room as settles were taken since the last one: how many letters are on their way then is answered beside.
    pub(crate) fn next_walk(&mut self, number: u8) -> (Walk, Option<usize>) {
        let fresh = Walk::new(self.kind, number, self.rows, self.changes, self.settles);
        // After a change, or on another connection, what the walk counted as sent may have been lost.
        match self.last.take() {
            Some(mut walk) if walk.number == number && walk.changes == self.changes => {
                // Asked before make_room, which lowers the count that it looks at.
                let is_resumable = walk.is_resumable(self.settles);
                walk.make_room(self.settles);
                let total = walk.total;
                if is_resumable {
                    (walk, Some(total))
                } else {
                    (fresh.estimated(), Some(total))
                }
            }
            _ => (fresh, None),
        }
    }

    /// Keeps what a walk left, and the walk itself where that is something.
    pub(crate) fn end(&mut self, walk: Walk, left: Left) {
        self.left = left;
        if left == Left::Nothing {
            self.whole = Some(walk.number);
            // Rows that were made since the walk began may have sent letters that come before where it was resumed.
            self.rows = walk.rows;
            return;
        }
        // By an estimate the window may be full with nothing on its way: no settle comes then.
        if walk.is_estimated {
            self.vain = Some(0);
        }
        self.last = Some(walk);
    }
}

/// The one of two moments at which the journal had fewer rows.
fn earlier(first: Option<Moment>, second: Option<Moment>) -> Option<Moment>
    ensures { result ≡ earlier first second }
{
    let Some(one) = first else {
        return second;
    };
    match second {
        Some(other) if other.rows < one.rows => Some(other),
        _ => Some(one),
    }
}

/// What is left to be sent, by the kind of receiver. Each has its own window on a connection, so that nobody waits for another
/// one's settles.
#[derive(Drop)]
pub(crate) struct Backlogs {
    // With one window for all, letters to a warehouse that was away filled it, and billing got nothing either.
    pub order: Backlog,
    pub stock: Backlog,
    pub account: Backlog,
}

impl Backlogs {
    /// Nobody has looked.
    pub(crate) fn new() -> Backlogs {
        Backlogs {
            order: Backlog::new(Kind::Order),
            stock: Backlog::new(Kind::Stock),
            account: Backlog::new(Kind::Account),
        }
    }

    /// Since when new rows can be looked at for one of them at least: the earliest moment.
    pub(crate) fn moment(&self, rows: u64, changes: u64) -> Option<Moment>
        ensures { result ≡ earlier (moment_of self.now.order rows changes)
            (earlier (moment_of self.now.stock rows changes) (moment_of self.now.account rows changes)) }
    {
        // One moment for all: the earliest, so that no kind waits for another for ever while each look finds new rows. Kinds that
        // are whole at a later one are served by the same look: else they would stay apart, and rows be read for each of them.
        let partners = earlier(
            self.stock.moment(rows, changes),
            self.account.moment(rows, changes),
        );
        earlier(self.order.moment(rows, changes), partners)
    }

    /// Counts a rest in vain, and answers whether the outbox is walked over from its first letter for it.
    pub(crate) fn count_vain(&mut self) -> bool {
        // Each of the three has to count: `||` alone would pass over those after the first that is due.
        let order = self.order.count_vain();
        let stock = self.stock.count_vain();
        self.account.count_vain() || stock || order
    }

    /// Whether a walk from the first letter on would pass letters that aren't sent.
    pub(crate) fn is_any_full(&self) -> bool {
        self.order.left == Left::Full
            || self.stock.left == Left::Full
            || self.account.left == Left::Full
    }
}
