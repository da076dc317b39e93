//! A filling, page by page: the outbox isn't held in memory, and of a pair's rows those that were sent are passed over.

ghost use Rattle.std.specs.Prelude.{◌≡◌, ◌≢◌, ◌<◌, ◌≤◌, ◌^◌, ◌⊎◌, None, Some, Err, false, true, ⊤, length, ℕ, Option};
ghost use Rattle.std.specs.Prelude.{IfOk, IfErr};
ghost use Rattle.keep.specs.declared.change.LetterPlace.{LetterPlace};
ghost use Rattle.keep.specs.Law.{Reads};
ghost use Rattle.keep.specs.Listing.{AreFirst};
ghost use Rattle.keep.specs.Pages.{place_behind};
ghost use Rattle.keep.specs.Places.{place_cmp};
ghost use Rattle.std.specs.declared.cmp.Ordering.TheVariants.{Greater};
ghost use Rattle.keep.specs.Tables.{Messages};
ghost use Rattle.endpoint.specs.Calls.{Stays};
ghost use Rattle.endpoint.specs.Faults.{end_cause};
ghost use Rattle.base.specs.declared.pair.Pair.{Pair};
ghost use Rattle.stomp_client.specs.declared.session.Stage.TheVariants.{Connected};
ghost use Rattle.relay.specs.Filling.{marks_of, send_state};
ghost use Rattle.relay.specs.Knowing.{AllSent, KnowsAll};
ghost use Rattle.relay.specs.Calls.{Fills, store_end};
ghost use Rattle.relay.specs.Parts.Pages.{FillsPage, StaysOrJumps, HasRead};
ghost use Rattle.relay.specs.Parts.News.{SentBut, Skips};
ghost use Rattle.keep.specs.Listing.{IsAfter};

use crate::marks::{count_sent, find};
use crate::news::clear_place;
use crate::{Relay, RelayFault};
use activities::{Handler, JournalRow};
use base::Number;
use endpoint::{EndFault, Endpoint};
use envelope::Letter;
use keep::{Keep, LetterPlace};
use std::cmp::Ordering;
use stomp_client::ClientSession;

/// How many rows are read at once: few enough to be held, and so many that finding the first of them costs little.
const PAGE: usize = 64;

/// How many new rows of the journal are read, and no more: where there are more, they pay for a look from the first row
/// on.
const NEWS: usize = 256;

impl Relay {
    /// Sends what is due: before the cursor of what the journal's new rows sent, and after it.
    pub(crate) fn fill_connected<H, K>(
        &mut self,
        client: &mut ClientSession<u64>,
        endpoint: &mut Endpoint<H, K>,
        limit: usize,
    ) -> Result<usize, RelayFault>
    where
        H: Handler,
        K: Keep<State = H::State, Command = H::Command> + Drop,
        requires { client.old.client.stage ≡ Connected }
        ensures read { Reads K.seen endpoint.old endpoint.new (λ _ _. ⊤) (store_end result) }
        ensures stays { Stays K.seen endpoint.old endpoint.new }
        ensures fills { Fills (((K.seen endpoint.new).doubt ≡ 0)
            × (KnowsAll H.service self.old (K.seen endpoint.old).may_leave ⊎ (self.old.behind ≡ None)))
            (K.seen endpoint.old).tables.unsettled limit (send_state self.old client.old)
            (send_state self.new client.new) result }
        ensures unused { (K.seen endpoint.old).usable ≡ false
            → send_state self.new client.new ≡ send_state self.old client.old }
        ensures knows { (K.seen endpoint.new).doubt ≡ 0 → KnowsAll H.service self.old (K.seen endpoint.old).may_leave
            → KnowsAll H.service self.new (K.seen endpoint.new).may_leave }
    {
        let rows = match endpoint.length() {
            Ok(rows) => rows,
            Err(fault) => return Err(RelayFault::Endpoint(fault)),
        };
        let news = match self.read_news(endpoint, rows) {
            Ok(news) => news,
            Err(fault) => return Err(RelayFault::Endpoint(fault)),
        };
        // The journal's length is set before the pages are read: they have all that its rows sent. `stay_at` takes it
        // back where the pages end before the place that the cursor had.
        let since = self.rows;
        let reach = self.begin(rows);
        let sent = self.fill_pages(client, endpoint, &news, &reach, limit);
        self.stay_at(reach, since);
        sent
    }

    /// Begins at the first row, of a journal of so many rows, and answers where the cursor was.
    fn begin(&mut self, rows: u64) -> Option<LetterPlace>
        ensures reach { result ≡ self.old.behind }
        ensures behind { self.new.behind ≡ None }
        ensures rows { self.new.rows ≡ rows }
        ensures marks { self.new.marks ≡ self.old.marks }
    {
        self.rows = rows;
        self.behind.take()
    }

    /// The rows that the journal has more than it had at the last filling. Where they are too many, or all are, the
    /// cursor is taken away instead.
    fn read_news<H, K>(
        &mut self,
        endpoint: &mut Endpoint<H, K>,
        rows: u64,
    ) -> Result<Vec<JournalRow<H::Command>>, EndFault>
    where
        H: Handler,
        K: Keep<State = H::State, Command = H::Command> + Drop,
        ensures read { IfOk result (λ _. HasRead K.seen endpoint.old endpoint.new) }
        ensures unread { IfErr result (λ fault. Reads K.seen endpoint.old endpoint.new {R = ℕ} (λ _ _. ⊤)
            (Err (end_cause fault))) }
        ensures stays { Stays K.seen endpoint.old endpoint.new }
        ensures doubt { (K.seen endpoint.old).doubt ≤ (K.seen endpoint.new).doubt }
        ensures news { (K.seen endpoint.new).doubt ≡ 0 → (K.seen endpoint.old).usable ≡ true
            → rows ≡ length (K.seen endpoint.old).tables.journal
            → KnowsAll H.service self.old (K.seen endpoint.old).may_leave
            → IfOk result (λ news. SentBut news.items (marks_of self.old) (K.seen endpoint.old).tables.unsettled
            self.new.behind) }
        ensures marks { self.new.marks ≡ self.old.marks }
        ensures rows { self.new.rows ≡ self.old.rows }
        ensures behind { (self.new.behind ≡ None) ⊎ (self.new.behind ≡ self.old.behind) }
        ensures err { IfErr result (λ _. self.new ≡ self.old) }
    {
        if self.rows == rows {
            return Ok(Vec::new(self.alloc));
        }
        // Without a cursor all rows of the outbox are read anyway.
        if self.behind.is_none() {
            return Ok(Vec::new(self.alloc));
        }
        // A journal only grows: of a shorter one, another service's or one that lost rows, the cursor tells nothing.
        if rows < self.rows || rows - self.rows > NEWS as u64 {
            self.behind = None;
            return Ok(Vec::new(self.alloc));
        }
        match endpoint.journal(self.alloc, self.rows + 1, NEWS) {
            Ok(news) => Ok(news),
            Err(fault) => Err(fault),
        }
    }

    /// Takes the cursor back to a place, and to the rows of the journal that it knew there, where it hasn't come so far
    /// again.
    fn stay_at(&mut self, reach: Option<LetterPlace>, since: u64)
        ensures marks { self.new.marks ≡ self.old.marks }
        ensures cursor { ((self.new.behind ≡ self.old.behind) × (self.new.rows ≡ self.old.rows))
            ⊎ ((self.new.behind ≡ reach) × (self.new.rows ≡ since)) }
    {
        let Some(place) = &reach else {
            return;
        };
        if is_ahead(place, &self.behind) {
            self.behind = reach;
            self.rows = since;
        }
    }

    /// Moves the cursor over what was sent: up to a place all was but letters that these rows' entities sent.
    fn pass_over<C>(&mut self, news: &[JournalRow<C>], reach: &Option<LetterPlace>)
        ensures skips { (messages : Messages) → SentBut news.now (marks_of self.old) messages reach.now
            → Skips (marks_of self.old) messages self.old.behind self.new.behind }
        ensures marks { self.new.marks ≡ self.old.marks }
        ensures rows { self.new.rows ≡ self.old.rows }
    {
        let Some(reach) = reach else {
            return;
        };
        let Some(place) = clear_place(self.alloc, &self.marks, news, &self.behind, reach) else {
            return;
        };
        // The cursor is never moved back, nor beyond what was sent.
        if is_upto(&place, reach) && is_ahead(&place, &self.behind) {
            self.behind = Some(place);
        }
    }

    /// Sends what is due after the cursor, page by page, where up to a place all was sent but letters that these rows'
    /// entities sent.
    fn fill_pages<H, K>(
        &mut self,
        client: &mut ClientSession<u64>,
        endpoint: &mut Endpoint<H, K>,
        news: &[JournalRow<H::Command>],
        reach: &Option<LetterPlace>,
        limit: usize,
    ) -> Result<usize, RelayFault>
    where
        H: Handler,
        K: Keep<State = H::State, Command = H::Command> + Drop,
        requires { client.old.client.stage ≡ Connected }
        ensures read { Reads K.seen endpoint.old endpoint.new (λ _ _. ⊤) (store_end result) }
        ensures stays { Stays K.seen endpoint.old endpoint.new }
        ensures fills { Fills (((K.seen endpoint.new).doubt ≡ 0)
            × AllSent (marks_of self.old) (K.seen endpoint.old).tables.unsettled self.old.behind
            × SentBut news.now (marks_of self.old) (K.seen endpoint.old).tables.unsettled reach.now)
            (K.seen endpoint.old).tables.unsettled limit (send_state self.old client.old)
            (send_state self.new client.new) result }
        ensures sent { (K.seen endpoint.new).doubt ≡ 0
            → AllSent (marks_of self.old) (K.seen endpoint.old).tables.unsettled self.old.behind
            → SentBut news.now (marks_of self.old) (K.seen endpoint.old).tables.unsettled reach.now
            → AllSent (marks_of self.new) (K.seen endpoint.old).tables.unsettled self.new.behind }
        ensures rows { self.new.rows ≡ self.old.rows }
        ensures rises { (p : Pair) → marks_of self.old p ≤ marks_of self.new p }
    {
        let mut count = 0;
        for _page in 0..u64::MAX {
            self.pass_over(news, reach);
            let (sent, more) = match self.fill_page(client, endpoint, PAGE, limit - count) {
                Ok(done) => done,
                Err(fault) => return Err(fault),
            };
            count += sent;
            if !more {
                return Ok(count);
            }
        }
        // No outbox has so many pages.
        let (sent, _) = match self.fill_page(client, endpoint, usize::MAX, limit - count) {
            Ok(done) => done,
            Err(fault) => return Err(fault),
        };
        Ok(count + sent)
    }

    /// Sends what is due of a page of rows after the cursor, moves the cursor, and answers how many were sent and
    /// whether it goes on.
    fn fill_page<H, K>(
        &mut self,
        client: &mut ClientSession<u64>,
        endpoint: &mut Endpoint<H, K>,
        page: usize,
        limit: usize,
    ) -> Result<(usize, bool), RelayFault>
    where
        H: Handler,
        K: Keep<State = H::State, Command = H::Command> + Drop,
        requires stage { client.old.client.stage ≡ Connected }
        requires page { 0 < page }
        ensures read { Reads K.seen endpoint.old endpoint.new (λ _ _. ⊤) (store_end result) }
        ensures stays { Stays K.seen endpoint.old endpoint.new }
        ensures fills { FillsPage ((K.seen endpoint.new).doubt ≡ 0) (K.seen endpoint.old).tables.unsettled
            self.old.behind self.new.behind
            limit (send_state self.old client.old) (send_state self.new client.new) result }
        ensures sent { (K.seen endpoint.new).doubt ≡ 0
            → AllSent (marks_of self.old) (K.seen endpoint.old).tables.unsettled self.old.behind
            → AllSent (marks_of self.new) (K.seen endpoint.old).tables.unsettled self.new.behind }
        ensures rows { self.new.rows ≡ self.old.rows }
        ensures rises { (p : Pair) → marks_of self.old p ≤ marks_of self.new p }
        ensures whole { 2 ^ 63 ≤ page → IfOk result (λ done. done.1 ≡ false) }
    {
        let rows = endpoint.unsettled(self.alloc, &self.behind, page)?;
        let sent = match self.fill_letters(client, &rows, limit) {
            Ok(sent) => sent,
            Err(fault) => {
                // The rows before the fault were sent. The cursor passes over them, so that they aren't read again.
                self.go_behind_sent(rows);
                return Err(fault);
            }
        };
        // The limit may leave rows of this page: the cursor stops before the first of them.
        if sent == limit {
            self.go_behind_sent(rows);
            return Ok((sent, false));
        }
        // A page that isn't full was the last one, which spares a read that finds nothing.
        if rows.len() < page {
            self.go_behind(rows);
            return Ok((sent, false));
        }
        self.go_behind(rows);
        Ok((sent, true))
    }

    /// Moves the cursor after those of these rows that are before the first one that is due.
    fn go_behind_sent(&mut self, mut rows: Vec<Letter>)
        ensures sent { (messages : Messages) (page : ℕ) → AreFirst messages self.old.behind page rows.items
            → AllSent (marks_of self.old) messages self.old.behind
            → AllSent (marks_of self.new) messages self.new.behind }
        ensures marks { self.new.marks ≡ self.old.marks }
        ensures rows { self.new.rows ≡ self.old.rows }
    {
        let count = count_sent(&self.marks, &rows);
        rows.truncate(count);
        self.go_behind(rows);
    }

    /// Moves the cursor after these rows, which were sent; of the last one's pair all up to its mark was.
    fn go_behind(&mut self, mut rows: Vec<Letter>)
        ensures behind { StaysOrJumps (marks_of self.old) (place_behind self.old.behind rows.items) self.new.behind }
        ensures marks { self.new.marks ≡ self.old.marks }
        ensures rows { self.new.rows ≡ self.old.rows }
    {
        if let Some(last) = rows.pop() {
            // Earlier fillings may have sent more of this pair than the page has: they needn't be read again.
            let mark = find(&self.marks, &last.pair);
            self.behind = Some(LetterPlace {
                number: greater(last.number, mark),
                pair: last.pair,
            });
        }
    }
}

/// Whether a place comes after another, or there is no other.
fn is_ahead(place: &LetterPlace, behind: &Option<LetterPlace>) -> bool
    ensures { result ≡ true → (x : LetterPlace) → IsAfter (Some place.now) x → IsAfter behind.now x }
{
    match behind {
        Some(here) => match here.cmp(place) {
            Ordering::Less => true,
            _ => false,
        },
        None => true,
    }
}

/// Whether a place doesn't come after another.
fn is_upto(place: &LetterPlace, reach: &LetterPlace) -> bool
    ensures { result ≡ true → place_cmp place.now reach.now ≢ Greater }
{
    match place.cmp(reach) {
        Ordering::Less => true,
        Ordering::Equal => true,
        Ordering::Greater => false,
    }
}

/// The greater one of a letter's number and a mark.
fn greater(number: Number, mark: u64) -> Number
    ensures least { number ≤ result }
    ensures which { (result ≡ number) ⊎ (result ≡ mark) }
{
    if mark <= number.get() {
        return number;
    }
    match Number::new(mark) {
        Some(marked) => marked,
        None => number,
    }
}
