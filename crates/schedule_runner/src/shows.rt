//! What is shown of the services, and whether the partners of all orders agree.

ghost use Rattle.schedule_runner.specs.Agreeing.{AsksAll, FindsAgreement, TellsAgreement, AgreesWhereGood};
ghost use Rattle.schedule_runner.specs.Agreeing.{agreement_told};
ghost use Rattle.schedule_runner.specs.Deeds.{Same};
ghost use Rattle.schedule_runner.specs.Passing.{Both, Passes};
ghost use Rattle.schedule_runner.specs.Shows.{TellsReading, RowOf, ListOf, MarkOf, MayShow, ReadsHandled, ReadsSettled};
ghost use Rattle.schedule_runner.specs.Shows.{ReadsPair, ShowsPair, line_of};
ghost use Rattle.std.specs.Prelude.{◌≡◌};

use crate::World;
use crate::looking::{Listing, Mark, PairTables, look_at_list, look_at_mark, look_at_row, shown};
use base::{Entity, Kind, Pair};
use billing::{Account, Accounts};
use endpoint::EndFault;
use keep::Keep;
use purchasing::{Order, Orders};
use schedule_audit::AuditFault;
use schedule_shows::show_marks;
use schedule_text::{Outcome, ServiceName};
use std::alloc::Global;
use trade::{AccountCommand, OrderCommand, StockCommand};
use warehouse::{Stock, Stocks};

/// The line of a pair's marks, or 64 where memory was refused.
fn show_pair(alloc: Global, pair: &Pair, tables: &PairTables) -> Outcome
    ensures { MayShow (line_of pair.now tables.now) result }
{
    match show_marks(alloc, pair, tables.sent, tables.settled, tables.handled) {
        Ok(lines) => Outcome::Shown(lines),
        // 64 as of the endpoint: out of memory in the read or in the printing, a line is refused alike.
        Err(_) => Outcome::Refused(64),
    }
}

/// The outcome of an agreement that was asked for, or of its fault.
fn agreement_told(answer: Result<bool, EndFault>) -> Outcome
    ensures { result ≡ agreement_told answer }
{
    match answer {
        Ok(agree) => Outcome::Agreement(agree),
        Err(fault) => Outcome::Refused(fault.number()),
    }
}

impl<KO, KS, KA> World<KO, KS, KA>
where
    KO: Keep<State = Option<Order>, Command = OrderCommand> + Drop,
    KS: Keep<State = Stock, Command = StockCommand> + Drop,
    KA: Keep<State = Account, Command = AccountCommand> + Drop,
{
    /// Reads a row in the service of its entity.
    fn row(&mut self, entity: &Entity) -> Result<Vec<u8>, Outcome>
        ensures { Passes KO.seen KS.seen KA.seen (RowOf KO.seen KS.seen KA.seen entity.now.kind entity.now result)
            (Both (RowOf KO.seen KS.seen KA.seen entity.now.kind entity.now result) Same) self.old self.new }
    {
        match entity.kind() {
            Kind::Order => look_at_row::<Orders, KO>(
                self.alloc,
                &mut self.purchasing,
                &mut self.mail,
                entity,
            ),
            Kind::Stock => look_at_row::<Stocks, KS>(
                self.alloc,
                &mut self.warehouse,
                &mut self.mail,
                entity,
            ),
            Kind::Account => look_at_row::<Accounts, KA>(
                self.alloc,
                &mut self.billing,
                &mut self.mail,
                entity,
            ),
        }
    }

    /// Reads a list in a service.
    fn list(&mut self, service: ServiceName, listing: Listing) -> Result<Vec<u8>, Outcome>
        ensures { Passes KO.seen KS.seen KA.seen (ListOf KO.seen KS.seen KA.seen service listing result)
            (Both (ListOf KO.seen KS.seen KA.seen service listing result) Same) self.old self.new }
    {
        match service {
            ServiceName::Purchasing => look_at_list::<Orders, KO>(
                self.alloc,
                &mut self.purchasing,
                &mut self.mail,
                listing,
            ),
            ServiceName::Warehouse => look_at_list::<Stocks, KS>(
                self.alloc,
                &mut self.warehouse,
                &mut self.mail,
                listing,
            ),
            ServiceName::Billing => look_at_list::<Accounts, KA>(
                self.alloc,
                &mut self.billing,
                &mut self.mail,
                listing,
            ),
        }
    }

    /// Reads a mark in the service of a kind.
    fn mark(&mut self, kind: Kind, mark: Mark, pair: &Pair) -> Result<u64, Outcome>
        ensures { Passes KO.seen KS.seen KA.seen (MarkOf KO.seen KS.seen KA.seen kind mark pair.now result)
            (Both (MarkOf KO.seen KS.seen KA.seen kind mark pair.now result) Same) self.old self.new }
    {
        match kind {
            Kind::Order => look_at_mark::<Orders, KO>(
                self.alloc,
                &mut self.purchasing,
                &mut self.mail,
                mark,
                pair,
            ),
            Kind::Stock => look_at_mark::<Stocks, KS>(
                self.alloc,
                &mut self.warehouse,
                &mut self.mail,
                mark,
                pair,
            ),
            Kind::Account => look_at_mark::<Accounts, KA>(
                self.alloc,
                &mut self.billing,
                &mut self.mail,
                mark,
                pair,
            ),
        }
    }

    /// How many letters of a pair were handled, of which so many were sent and so many are settled.
    fn tables_handled(
        &mut self,
        pair: &Pair,
        sent: u64,
        settled: u64,
    ) -> Result<PairTables, Outcome>
        ensures { Passes KO.seen KS.seen KA.seen (ReadsHandled KO.seen KS.seen KA.seen pair.now sent settled result)
            (Both (ReadsHandled KO.seen KS.seen KA.seen pair.now sent settled result) Same) self.old self.new }
    {
        // The receiver's own count: it may be above what the sender knows to be settled.
        match self.mark(pair.to.kind(), Mark::Handled, pair) {
            Ok(handled) => Ok(PairTables {
                sent,
                settled,
                handled,
            }),
            Err(told) => Err(told),
        }
    }

    /// How many letters of a pair are settled, and so on.
    fn tables_settled(&mut self, pair: &Pair, sent: u64) -> Result<PairTables, Outcome>
        ensures { Passes KO.seen KS.seen KA.seen (ReadsSettled KO.seen KS.seen KA.seen pair.now sent result)
            (Both (ReadsSettled KO.seen KS.seen KA.seen pair.now sent result) Same) self.old self.new }
    {
        // A function for each read: the search for a proof is limited, and so one goal has one call of a store.
        match self.mark(pair.from.kind(), Mark::Settled, pair) {
            Ok(settled) => self.tables_handled(pair, sent, settled),
            Err(told) => Err(told),
        }
    }

    /// What the tables of the sender's service and of the receiver's have of a pair, which `Event::Pair` prints. Three
    /// reads, each of one store: what was sent, what is settled, and what was handled. Nothing changes but what a read
    /// that fails leaves.
    ///
    /// # Errors
    /// The outcome of the first read that wasn't done: `Refused` with 63, and both connections of that service are cut,
    /// with 64 or with 65. The reads after it aren't made.
    pub fn tables(&mut self, pair: &Pair) -> Result<PairTables, Outcome>
        ensures { Passes KO.seen KS.seen KA.seen (ReadsPair KO.seen KS.seen KA.seen pair.now result)
            (Both (ReadsPair KO.seen KS.seen KA.seen pair.now result) Same) self.old self.new }
    {
        // The order of the three reads is promised, since `fail` counts them.
        match self.mark(pair.from.kind(), Mark::Sent, pair) {
            Ok(sent) => self.tables_settled(pair, sent),
            Err(told) => Err(told),
        }
    }

    /// The marks of a pair.
    pub(crate) fn pair(&mut self, pair: &Pair) -> Outcome
        ensures { Passes KO.seen KS.seen KA.seen (ShowsPair KO.seen KS.seen KA.seen pair.now result)
            (Both (ShowsPair KO.seen KS.seen KA.seen pair.now result) Same) self.old self.new }
    {
        match self.tables(pair) {
            Ok(tables) => show_pair(self.alloc, pair, &tables),
            Err(told) => told,
        }
    }

    /// The row of an entity.
    pub(crate) fn show(&mut self, entity: &Entity) -> Outcome
        ensures { Passes KO.seen KS.seen KA.seen (TellsReading (RowOf KO.seen KS.seen KA.seen entity.now.kind entity.now)
            result)
            (Both (TellsReading (RowOf KO.seen KS.seen KA.seen entity.now.kind entity.now) result) Same) self.old self.new }
    {
        shown(self.row(entity))
    }

    /// The frames that a service is to send.
    pub(crate) fn frames(&mut self, service: ServiceName) -> Outcome
        ensures { Passes KO.seen KS.seen KA.seen (TellsReading (ListOf KO.seen KS.seen KA.seen service Listing.Frames) result)
            (Both (TellsReading (ListOf KO.seen KS.seen KA.seen service Listing.Frames) result) Same) self.old self.new }
    {
        shown(self.list(service, Listing::Frames))
    }

    /// The journal of a service, a line for each row, as `Event::Journal` prints it.
    pub fn journal(&mut self, service: ServiceName) -> Outcome
        ensures { Passes KO.seen KS.seen KA.seen (TellsReading (ListOf KO.seen KS.seen KA.seen service Listing.Journal) result)
            (Both (TellsReading (ListOf KO.seen KS.seen KA.seen service Listing.Journal) result) Same) self.old self.new }
    {
        shown(self.list(service, Listing::Journal))
    }

    /// Asks all three stores.
    fn ask_all(&mut self) -> Result<bool, AuditFault>
        ensures { AsksAll KO.seen KS.seen KA.seen result self.old self.new }
    {
        schedule_audit::agreement(
            self.alloc,
            &mut self.purchasing.endpoint,
            &mut self.warehouse.endpoint,
            &mut self.billing.endpoint,
        )
    }

    /// Whether the partners of each order that has a row in purchasing's journal agree: of a confirmed one each has a
    /// line that is held, or shipped or billed; of another none has one that is shipped or billed. Nothing changes but
    /// what a read that fails leaves. In a good world the answer is true.
    ///
    /// # Errors
    /// Of the service whose read wasn't done: `StoreFailed`, whose connections are both cut then, `Memory` or
    /// `Unusable`.
    pub fn agreement(&mut self) -> Result<bool, EndFault>
        ensures passes { Passes KO.seen KS.seen KA.seen (FindsAgreement KO.seen KS.seen KA.seen result)
            (Both (FindsAgreement KO.seen KS.seen KA.seen result) Same) self.old self.new }
        ensures agrees { AgreesWhereGood KO.seen KS.seen KA.seen result self.old self.new }
    {
        match self.ask_all() {
            Ok(agree) => Ok(agree),
            Err(AuditFault::Purchasing(fault)) => {
                // Only its cuts are wanted: the caller makes the outcome. The other services keep their connections.
                self.purchasing.after(&mut self.mail, fault);
                Err(fault)
            }
            Err(AuditFault::Warehouse(fault)) => {
                self.warehouse.after(&mut self.mail, fault);
                Err(fault)
            }
            Err(AuditFault::Billing(fault)) => {
                self.billing.after(&mut self.mail, fault);
                Err(fault)
            }
        }
    }

    /// The same, as an outcome.
    pub(crate) fn tell_agreement(&mut self) -> Outcome
        ensures { Passes KO.seen KS.seen KA.seen (TellsAgreement KO.seen KS.seen KA.seen result)
            (Both (TellsAgreement KO.seen KS.seen KA.seen result) Same) self.old self.new }
    {
        agreement_told(self.agreement())
    }
}
