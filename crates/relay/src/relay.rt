//! What was sent of each pair on a connection.

ghost use Rattle.std.specs.Prelude.{◌≡◌, ℕ, false, OnOk, OnErr, IfErr, IfSome, None, Ok, ⊤, []};
ghost use Rattle.std.specs.Prelude.{◌∷◌};
ghost use Rattle.base.specs.declared.pair.Pair.{Pair};
ghost use Rattle.keep.specs.Law.{Reads};
ghost use Rattle.endpoint.specs.Calls.{Stays};
ghost use Rattle.endpoint.specs.Matches.{AllMatch};
ghost use Rattle.keep.specs.Tables.{Messages};
ghost use Rattle.stomp_client.specs.declared.session.Stage.TheVariants.{Connected};
ghost use Rattle.relay.specs.Filling.{marks_of, send_state, SendsLetters, StopsSending};
ghost use Rattle.relay.specs.Knowing.{KnowsRows, KnowsAll};
ghost use Rattle.relay.specs.Calls.{idle_answer, FillsLetters, Fills, store_end};

use crate::RelayFault;
use crate::marks::{find, prepare, set};
use activities::Handler;
use base::Pair;
use endpoint::Endpoint;
use envelope::{Letter, letter_to_send};
use keep::{Keep, LetterPlace};
use std::alloc::Global;
use std::collections::BTreeMap;
use stomp_client::{ClientFault, ClientSession, Stage};

/// What was sent of each pair on a connection: contracts see the last number of each pair, 0 where nothing was sent.
/// And a cursor: up to a place all that was in the outbox was sent, when the journal had so many rows.
pub struct Relay {
    pub(crate) alloc: Global,
    // The truth: what isn't above its pair's mark was sent, and isn't sent again.
    // One place for all pairs wouldn't do: a later commit may bring a row before it.
    pub(crate) marks: BTreeMap<Pair, u64>,
    // A hint, which saves reads: without it a filling reads more rows, and sends the same.
    // From the first row on a filling took 13.0 million instructions at 10,000 pairs.
    pub(crate) behind: Option<LetterPlace>,
    // To ask for the journal's length reads nothing, and no row comes into the outbox without it rising.
    pub(crate) rows: u64,
}

/// Written by hand, so that a crate that owns a relay doesn't prove anew how its marks are dropped.
impl Drop for Relay {
    fn drop(self) {
        let Relay {
            alloc: _,
            marks: _marks,
            behind: _behind,
            rows: _,
        } = self;
    }
}

impl Relay {
    /// Nothing was sent. It allocates nothing.
    #[tactic(auto, using(crate::proofs::Knowing::knows_start))]
    pub fn new(alloc: Global) -> Relay
        ensures marks { (p : Pair) → marks_of result p ≡ 0 }
        ensures knows { (rows : ℕ) (messages : Messages) → KnowsRows result rows messages }
    {
        Relay {
            alloc,
            marks: BTreeMap::new(alloc),
            behind: None,
            rows: 0,
        }
    }

    /// The last number that was sent of a pair on this connection, and 0 where nothing was.
    pub fn sent(&self, pair: &Pair) -> u64
        ensures { result ≡ marks_of self.now pair.now }
    {
        find(&self.marks, pair)
    }

    /// Makes all rows of the outbox due again, as on a connection on which nothing was sent. It allocates nothing.
    #[tactic(auto, using(crate::proofs::Knowing::knows_start))]
    pub fn forget(&mut self)
        ensures marks { (p : Pair) → marks_of self.new p ≡ 0 }
        ensures knows { (rows : ℕ) (messages : Messages) → KnowsRows self.new rows messages }
    {
        self.marks.clear();
        self.behind = None;
        self.rows = 0;
    }

    /// Lets the next [`Relay::resume`] look from the first row of the outbox on, as [`Relay::fill`] does, for whichever
    /// service it is. What was sent stays known, so that nothing is sent twice. It allocates nothing.
    #[tactic(auto, using(crate::proofs::Knowing::knows_start))]
    pub fn look_anew(&mut self)
        ensures behind { self.new.behind ≡ None }
        ensures marks { self.new.marks ≡ self.old.marks }
        ensures knows { (rows : ℕ) (messages : Messages) → KnowsRows self.new rows messages }
    {
        self.behind = None;
        self.rows = 0;
    }

    /// Sends one letter, or changes nothing.
    #[tactic(auto, using(crate::proofs::Marking::marks_same))]
    fn send_letter(
        &mut self,
        client: &mut ClientSession<u64>,
        letter: &Letter,
    ) -> Result<(), RelayFault>
        requires { client.old.client.stage ≡ Connected }
        ensures sends { OnOk result (SendsLetters (letter.now ∷ []) (send_state self.old client.old)
            (send_state self.new client.new)) }
        ensures same { OnErr result (send_state self.new client.new ≡ send_state self.old client.old) }
        ensures fault { IfErr result (StopsSending client.old.client.receipts.last) }
        ensures behind { self.new.behind ≡ self.old.behind }
        ensures rows { self.new.rows ≡ self.old.rows }
    {
        // Tested before anything allocates, so that no failed allocation hides a fault that stays.
        if client.receipts() == u64::MAX {
            return Err(RelayFault::Client(ClientFault::NumbersUsed));
        }
        let frame = letter_to_send(self.alloc, letter)?;
        // A mark that found no place after the SEND would have the letter sent again, so its place is made before.
        prepare(self.alloc, &mut self.marks, &letter.pair)?;
        client.send_with_receipt(frame, letter.number.get())?;
        // Last: a letter whose SEND was refused has to stay due.
        set(&mut self.marks, &letter.pair, letter.number);
        Ok(())
    }

    /// Sends of these letters, in their order, those that are above what was sent of their pairs on this connection, at
    /// most `limit`, and answers how many. Each SEND has the next receipt number, with the letter's number as its tag.
    /// Before CONNECTED it sends none. The cursor stays where it is.
    ///
    /// # Errors
    /// `Closed` after the end of the session, and nothing is sent. Where a letter is due: `NumbersUsed` where the last
    /// receipt number is 2^64 - 1; else `Memory` of the client or of the envelope if an allocation fails. The letters
    /// before that one were sent.
    pub fn fill_rows(
        &mut self,
        client: &mut ClientSession<u64>,
        letters: &[Letter],
        limit: usize,
    ) -> Result<usize, RelayFault>
        ensures idle { IfSome (idle_answer client.old.client.stage)
            (λ answer. (result ≡ answer) × (send_state self.new client.new ≡ send_state self.old client.old)) }
        ensures fills { client.old.client.stage ≡ Connected
            → FillsLetters limit letters.now (send_state self.old client.old) (send_state self.new client.new) result }
        ensures knows { (rows : ℕ) (messages : Messages) → KnowsRows self.old rows messages
            → KnowsRows self.new rows messages }
        ensures cursor { (self.new.behind ≡ self.old.behind) × (self.new.rows ≡ self.old.rows) }
    {
        match client.stage() {
            Stage::Connected => self.fill_letters(client, letters, limit),
            Stage::Closed => Err(RelayFault::Client(ClientFault::Closed)),
            _ => Ok(0),
        }
    }

    /// Sends of these letters, on a connected session, those that are above what was sent of their pairs: see
    /// `fill_rows`.
    pub(crate) fn fill_letters(
        &mut self,
        client: &mut ClientSession<u64>,
        letters: &[Letter],
        limit: usize,
    ) -> Result<usize, RelayFault>
        requires { client.old.client.stage ≡ Connected }
        ensures fills { FillsLetters limit letters.now (send_state self.old client.old) (send_state self.new client.new)
            result }
        ensures behind { self.new.behind ≡ self.old.behind }
        ensures rows { self.new.rows ≡ self.old.rows }
    {
        let mut count = 0;
        for letter in letters {
            if count == limit {
                return Ok(count);
            }
            if find(&self.marks, &letter.pair) >= letter.number.get() {
                // Sent before on this connection: sent twice it would be a duplicate for its receiver.
                continue;
            }
            match self.send_letter(client, letter) {
                Ok(()) => count += 1,
                Err(fault) => return Err(fault),
            }
        }
        Ok(count)
    }

    /// Sends of the outbox's rows, by pair and then by number, those that are above what was sent of their pairs on
    /// this connection, at most `limit`, and answers how many. Each SEND has the next receipt number, with the letter's
    /// number as its tag. Before CONNECTED it sends none, and the store isn't called.
    ///
    /// It looks from the first row of the outbox on, so that no row is passed over whichever endpoint it is: another
    /// service's, or one over a store that was restored from a backup. [`Relay::resume`] reads less, where a relay serves
    /// one service alone. Calls of the store: `unsettled` for each page of 64 rows, once or more.
    ///
    /// # Errors
    /// `Closed` after the end of the session: nothing is sent, and the store isn't called. `StoreFailed`, `Memory` and
    /// `Unusable` of the endpoint, as every read. Where a row is due: `NumbersUsed` where the last receipt number is
    /// 2^64 - 1; else `Memory` of the client or of the envelope if an allocation fails. The rows that were sent are the
    /// first that were due, and stay sent.
    pub fn fill<H, K>(
        &mut self,
        client: &mut ClientSession<u64>,
        endpoint: &mut Endpoint<H, K>,
        limit: usize,
    ) -> Result<usize, RelayFault>
    where
        H: Handler,
        K: Keep<State = H::State, Command = H::Command> + Drop,
        ensures idle { IfSome (idle_answer client.old.client.stage) (λ answer. (result ≡ answer)
            × (endpoint.new ≡ endpoint.old)
            × (send_state self.new client.new ≡ send_state self.old client.old)) }
        ensures read { client.old.client.stage ≡ Connected
            → Reads K.seen endpoint.old endpoint.new (λ _ _. ⊤) (store_end result) }
        ensures stays { Stays K.seen endpoint.old endpoint.new }
        ensures fills { client.old.client.stage ≡ Connected
            → Fills ((K.seen endpoint.new).doubt ≡ 0) (K.seen endpoint.old).tables.unsettled limit
            (send_state self.old client.old) (send_state self.new client.new) result }
        ensures unused { (K.seen endpoint.old).usable ≡ false
            → send_state self.new client.new ≡ send_state self.old client.old }
        ensures knows { (K.seen endpoint.new).doubt ≡ 0 → AllMatch H.service (K.seen endpoint.old).may_leave
            → KnowsAll H.service self.new (K.seen endpoint.new).may_leave }
    {
        // What the cursor tells is so of the service that was filled last, and no call shows that it is this one.
        self.look_anew();
        self.resume(client, endpoint, limit)
    }

    /// Sends what [`Relay::fill`] does where the cursor is right, with fewer reads: it begins after the last row that
    /// was sent. For a relay that serves one service alone, whose journal only grows.
    ///
    /// Where the journal has grown since the last filling, it reads the new rows by one `journal`, and of what is before
    /// the cursor it looks at what their entities sent; where more than 256 rows came, it looks from the first row on.
    /// Then `unsettled` as `fill`. The cursor is right of each content of this service's store that it went over
    /// ([`each_deed_is_known`]); of another service rows may be passed over. Without a cursor, as of a new relay, none
    /// is.
    ///
    /// [`each_deed_is_known`]: crate::each_deed_is_known
    ///
    /// # Errors
    /// As [`Relay::fill`].
    pub fn resume<H, K>(
        &mut self,
        client: &mut ClientSession<u64>,
        endpoint: &mut Endpoint<H, K>,
        limit: usize,
    ) -> Result<usize, RelayFault>
    where
        H: Handler,
        K: Keep<State = H::State, Command = H::Command> + Drop,
        ensures idle { IfSome (idle_answer client.old.client.stage) (λ answer. (result ≡ answer)
            × (endpoint.new ≡ endpoint.old)
            × (send_state self.new client.new ≡ send_state self.old client.old)) }
        ensures read { client.old.client.stage ≡ Connected
            → Reads K.seen endpoint.old endpoint.new (λ _ _. ⊤) (store_end result) }
        ensures stays { Stays K.seen endpoint.old endpoint.new }
        ensures fills { client.old.client.stage ≡ Connected
            → Fills (((K.seen endpoint.new).doubt ≡ 0) × KnowsAll H.service self.old (K.seen endpoint.old).may_leave)
            (K.seen endpoint.old).tables.unsettled limit (send_state self.old client.old)
            (send_state self.new client.new) result }
        ensures anew { client.old.client.stage ≡ Connected → self.old.behind ≡ None
            → Fills ((K.seen endpoint.new).doubt ≡ 0) (K.seen endpoint.old).tables.unsettled limit
            (send_state self.old client.old) (send_state self.new client.new) result }
        ensures unused { (K.seen endpoint.old).usable ≡ false
            → send_state self.new client.new ≡ send_state self.old client.old }
        ensures knows { (K.seen endpoint.new).doubt ≡ 0 → KnowsAll H.service self.old (K.seen endpoint.old).may_leave
            → KnowsAll H.service self.new (K.seen endpoint.new).may_leave }
    {
        match client.stage() {
            Stage::Connected => self.fill_connected(client, endpoint, limit),
            Stage::Closed => Err(RelayFault::Client(ClientFault::Closed)),
            _ => Ok(0),
        }
    }
}
