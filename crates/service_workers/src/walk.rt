//! A walk over the outbox, page by page, for the letters to one kind of receiver.

ghost use Rattle.std.specs.Prelude.{◌≡◌, ◌≤◌, ◌<◌, ◌-◌, ◌⊎◌, true, false, not, Some, IfOk, filter, slice_index_or, vec_len};
ghost use Rattle.envelope.specs.declared.message.Letter.{Letter};
ghost use Rattle.keep.specs.Listing.{place_of};
ghost use Rattle.service_workers.specs.Counts.{is_to};
ghost use Rattle.service_workers.specs.declared.conn.TheConstants.{WINDOW};
ghost use Rattle.service_workers.specs.declared.walk.TheConstants.{ENOUGH, PAGE};
ghost use Rattle.service_workers.specs.declared.walk.Left.{Left};
ghost use Rattle.service_workers.specs.declared.walk.Left.TheVariants.{Full, Nothing};
ghost use Rattle.service_workers.specs.declared.walk.WalkStep.TheVariants.{Ends, Goes};

use crate::conn::WINDOW;
use base::Kind;
use envelope::Letter;
use keep::LetterPlace;
use std::alloc::{AllocError, Global};

/// How many letters are read at once.
pub(crate) const PAGE: usize = 64;

/// How many letters a walk has to count for the connection's estimate to be believed that the window is full.
const ENOUGH: usize = WINDOW / 4 * 3;

/// What a look at the outbox left.
#[derive(Clone, Copy, Debug, PartialEq, Eq)]
pub(crate) enum Left {
    /// All was sent, or no connection is connected.
    Nothing,
    /// There may be more to send.
    More,
    /// There is more, and the receivers' window is full.
    Full,
}

/// What comes of one page.
pub(crate) enum WalkStep {
    /// There may be another.
    Goes,
    /// The page was the last, and this is left.
    Ends(Left),
    /// The connection is no more.
    Cut,
    /// It couldn't be read.
    Refused,
}

/// The place of a letter.
pub(crate) fn place_of(alloc: Global, letter: &Letter) -> Result<LetterPlace, AllocError>
    ensures { IfOk result (λ place. place ≡ place_of letter.now) }
{
    Ok(LetterPlace {
        pair: letter.pair.copy(alloc)?,
        number: letter.number,
    })
}

/// Whether a letter is to a receiver of a kind.
fn is_to(letter: &Letter, kind: Kind) -> bool
    ensures { result ≡ is_to kind letter.now }
{
    letter.pair.to.kind() == kind
}

/// Parts letters: those to receivers of a kind, and the others, each in their order.
pub(crate) fn part(
    alloc: Global,
    kind: Kind,
    letters: Vec<Letter>,
) -> Result<(Vec<Letter>, Vec<Letter>), AllocError>
    ensures own { IfOk result (λ both. both.0.items ≡ filter (is_to kind) letters.items) }
    ensures others { IfOk result (λ both. both.1.items ≡ filter (λ l. not (is_to kind l)) letters.items) }
{
    let mut own = Vec::new(alloc);
    let mut others = Vec::new(alloc);
    for letter in letters {
        if is_to(&letter, kind) {
            own.push(letter)?;
        } else {
            others.push(letter)?;
        }
    }
    Ok((own, others))
}

/// A page of the outbox.
#[derive(Drop)]
pub(crate) struct Page {
    /// How many letters it has, to whomever.
    count: usize,
    /// The place of the last of them.
    last: Option<LetterPlace>,
    /// Those that are to receivers of the walk's kind.
    pub own: Vec<Letter>,
}

impl Page {
    /// A page of these letters, for a walk of a kind.
    pub(crate) fn of(alloc: Global, kind: Kind, letters: Vec<Letter>) -> Result<Page, AllocError>
        ensures count { IfOk result (λ page. page.count ≡ vec_len letters) }
        ensures last { IfOk result (λ page. (d : Letter) → 0 < vec_len letters
            → page.last ≡ Some (place_of (slice_index_or letters.items (vec_len letters - 1) d))) }
        ensures own { IfOk result (λ page. page.own.items ≡ filter (is_to kind) letters.items) }
    {
        let count = letters.len();
        let last = match letters.last() {
            Some(letter) => Some(place_of(alloc, letter)?),
            None => None,
        };
        // Letters to other kinds of receivers are for the walks of these.
        let (own, _) = part(alloc, kind, letters)?;
        Ok(Page { count, last, own })
    }
}

/// A walk over the outbox, page by page, for the letters to one kind of receiver. Where a full window stopped it, it's resumed
/// at that page: if each settle made the relay begin at the first letter, a letter would cost the more the more of them wait.
#[derive(Drop)]
pub(crate) struct Walk {
    /// How many rows the journal had when it began.
    pub rows: u64,
    /// How often connections had changed then.
    pub changes: u64,
    /// How many of the receivers' settles had been taken then.
    settles: u64,
    /// To which kind of receiver its letters are.
    pub kind: Kind,
    /// The connection.
    pub number: u8,
    /// How many settles were taken when it began, or was resumed last.
    seen: u64,
    /// After which letter its next page begins.
    pub after: Option<LetterPlace>,
    /// How many letters up to there were sent on the connection, now or before, and aren't settled.
    sent: usize,
    /// `sent`, and how many of the last page were sent.
    pub total: usize,
    /// Whether all letters up to `after` were sent.
    is_all: bool,
    /// Whether the connection's count of letters on their way follows from an earlier walk: by settles since, an estimate.
    pub is_estimated: bool,
}

impl Walk {
    /// A walk from the first letter on, where there are so many rows, changes and settles.
    pub(crate) fn new(kind: Kind, number: u8, rows: u64, changes: u64, settles: u64) -> Walk {
        Walk {
            rows,
            changes,
            settles,
            kind,
            number,
            seen: settles,
            after: None,
            sent: 0,
            total: 0,
            is_all: true,
            is_estimated: false,
        }
    }

    /// A walk where the connection's count follows from an earlier one.
    pub(crate) fn estimated(mut self) -> Walk
        ensures { result ≡ record self { is_estimated = true } }
    {
        self.is_estimated = true;
        self
    }

    /// Whether it can be resumed where so many settles were taken: a full window stopped it, all letters before its next page
    /// were sent, and its count isn't estimated from more than 1,024 settles.
    pub(crate) fn is_resumable(&self, settles: u64) -> bool {
        // When each settle began a walk from the first letter, 100,000 letters in a file cost some 0.2 s a walk.
        let taken = settles.saturating_sub(self.settles);
        self.total >= WINDOW && self.is_all && taken < WINDOW as u64
    }

    /// Makes room for a letter for each settle that was taken since, where there are so many settles now. That is an estimate:
    /// a settle may be a duplicate, or settle several letters.
    pub(crate) fn make_room(&mut self, settles: u64)
        ensures { self.new ≡ record self.old {
          sent = self.old.sent - (settles - self.old.seen);
          total = self.old.total - (settles - self.old.seen);
          seen = settles;
          is_estimated = true;
        } }
    {
        let freed = settles.saturating_sub(self.seen) as usize;
        // Saturating: among the settles may be duplicates, so they may be more than what was counted.
        self.sent = self.sent.saturating_sub(freed);
        self.total = self.total.saturating_sub(freed);
        self.seen = settles;
        self.is_estimated = true;
    }

    /// Counts a page, of whose own letters so many were sent. The next page begins after it, unless this is the last for now.
    pub(crate) fn pass(&mut self, page: Page, sent: usize) -> WalkStep
        ensures ends { (left : Left) → result ≡ Ends left → (page.count < PAGE) ⊎ (WINDOW ≤ self.new.total) }
        ensures full { result ≡ Ends Full → WINDOW ≤ self.new.total }
        ensures nothing { result ≡ Ends Nothing → (self.old.is_all ≡ true) × (sent ≡ vec_len page.own) }
        ensures stays { (left : Left) → result ≡ Ends left
            → (self.new.after ≡ self.old.after) × (self.new.is_all ≡ self.old.is_all) }
        ensures whole { result ≡ Goes → PAGE ≤ page.count }
        ensures sent { result ≡ Goes → (sent ≡ vec_len page.own) ⊎ (self.old.is_estimated ≡ false) ⊎ (self.new.total < ENOUGH) }
        ensures all { result ≡ Goes → self.new.is_all ≡ true → (self.old.is_all ≡ true) × (sent ≡ vec_len page.own) }
        ensures moves { result ≡ Goes → self.new.after ≡ page.last }
    {
        let is_whole = sent == page.own.len();
        self.total = self.sent.saturating_add(sent);
        // By the connection's count the window is full where something isn't sent. This count is lower, as it misses letters
        // that were settled amid the walk. Where it's far lower, an allocation has failed, or new letters come first.
        if !is_whole && self.is_estimated && self.total >= ENOUGH {
            self.total = self.total.max(WINDOW);
            self.sent = self.total.saturating_sub(sent);
        }
        if page.count < PAGE {
            return WalkStep::Ends(self.left(is_whole));
        }
        // Where the window is full nothing more is sent, however many letters there are. Once there is room, this page is
        // read again: what was sent of it may be anywhere in it.
        if self.total >= WINDOW {
            return WalkStep::Ends(Left::Full);
        }
        self.is_all = self.is_all && is_whole;
        self.sent = self.total;
        self.after = page.last;
        WalkStep::Goes
    }

    /// What is left after the last letter, where all letters of the last page were sent or not.
    fn left(&self, is_whole: bool) -> Left
        ensures nothing { result ≡ Nothing → (self.now.is_all ≡ true) × (is_whole ≡ true) }
        ensures full { result ≡ Full → WINDOW ≤ self.now.total }
    {
        if self.is_all && is_whole {
            Left::Nothing
        } else if self.total < WINDOW {
            Left::More
        } else {
            Left::Full
        }
    }
}
