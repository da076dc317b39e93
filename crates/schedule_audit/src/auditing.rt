//! Whether the partners of all orders agree.

ghost use Rattle.std.specs.Prelude.{◌≡◌};
ghost use Rattle.base.specs.declared.entity.Kind.TheVariants.{Order as OrderKind};
ghost use Rattle.schedule_audit.specs.Agree.{phase_by, all_fit, order_agrees, row_agrees, rows_agree, partners_agree};
ghost use Rattle.schedule_audit.specs.Looks.{LooksAtPartners, Looks};

use crate::AuditFault;
use crate::looking::{fits, order_row, phase_at_account, phase_at_stock};
use activities::JournalRow;
use base::{Entity, Kind};
use billing::{Account, Accounts};
use endpoint::Endpoint;
use keep::Keep;
use purchasing::{Order, Orders};
use std::alloc::Global;
use trade::{AccountCommand, LinePhase, OrderCommand, StockCommand};
use warehouse::{Stock, Stocks};

/// How far the line of an order is at one of its partners, if it has one there. One read of the partner's store.
fn phase_at<KS, KA>(
    alloc: Global,
    warehouse: &mut Endpoint<Stocks, KS>,
    billing: &mut Endpoint<Accounts, KA>,
    partner: &Entity,
    order: &Entity,
) -> Result<Option<LinePhase>, AuditFault>
where
    KS: Keep<State = Stock, Command = StockCommand> + Drop,
    KA: Keep<State = Account, Command = AccountCommand> + Drop,
    ensures { LooksAtPartners KS.seen KA.seen (λ s a phase. phase ≡ phase_by s a order.now partner.now.kind partner.now)
        result
        warehouse.old warehouse.new billing.old billing.new }
{
    match partner.kind() {
        // No order is a partner of an order, but entities of all kinds have one type.
        Kind::Order => Ok(None),
        Kind::Stock => match phase_at_stock(alloc, warehouse, partner, order) {
            Ok(phase) => Ok(phase),
            Err(fault) => Err(AuditFault::Warehouse(fault)),
        },
        Kind::Account => match phase_at_account(alloc, billing, partner, order) {
            Ok(phase) => Ok(phase),
            Err(fault) => Err(AuditFault::Billing(fault)),
        },
    }
}

/// Whether the line of an order at each partner fits. One read for each partner.
fn lines_agree<KS, KA>(
    alloc: Global,
    warehouse: &mut Endpoint<Stocks, KS>,
    billing: &mut Endpoint<Accounts, KA>,
    order: &Entity,
    placed: &Order,
) -> Result<bool, AuditFault>
where
    KS: Keep<State = Stock, Command = StockCommand> + Drop,
    KA: Keep<State = Account, Command = AccountCommand> + Drop,
    ensures { LooksAtPartners KS.seen KA.seen (λ s a agree. agree
        ≡ all_fit s a order.now placed.now.status placed.now.partners) result
        warehouse.old warehouse.new billing.old billing.new }
{
    // No early end: how many reads an order costs doesn't depend on what its partners have.
    let mut agree = true;
    for index in 0..placed.partner_count() {
        let Some(partner) = placed.partner(index) else {
            // The prover shows that this isn't reached, since `index` is below the count.
            unreachable!()
        };
        let phase = phase_at(alloc, warehouse, billing, partner.entity(), order)?;
        agree &= fits(placed.status(), phase);
    }
    Ok(agree)
}

/// Whether the partners of an order agree. One read of purchasing's store, and one for each partner.
// The order is looked at too: partners alone would agree if all of them had lost their lines of a confirmed order.
fn order_agrees<KO, KS, KA>(
    alloc: Global,
    purchasing: &mut Endpoint<Orders, KO>,
    warehouse: &mut Endpoint<Stocks, KS>,
    billing: &mut Endpoint<Accounts, KA>,
    order: &Entity,
) -> Result<bool, AuditFault>
where
    KO: Keep<State = Option<Order>, Command = OrderCommand> + Drop,
    KS: Keep<State = Stock, Command = StockCommand> + Drop,
    KA: Keep<State = Account, Command = AccountCommand> + Drop,
    requires { order.now.kind ≡ OrderKind }
    ensures { Looks KO.seen KS.seen KA.seen (λ o s a agrees. agrees ≡ order_agrees s a order.now (o.entity order.now))
        result
        purchasing.old purchasing.new warehouse.old warehouse.new billing.old billing.new }
{
    match order_row(alloc, purchasing, order) {
        Ok(Some(Some(placed))) => lines_agree(alloc, warehouse, billing, order, &placed),
        // An order that wasn't placed has asked nobody.
        Ok(_) => Ok(true),
        Err(fault) => Err(AuditFault::Purchasing(fault)),
    }
}

/// Whether the partners of a row's entity agree, where it is an order.
fn row_agrees<KO, KS, KA>(
    alloc: Global,
    purchasing: &mut Endpoint<Orders, KO>,
    warehouse: &mut Endpoint<Stocks, KS>,
    billing: &mut Endpoint<Accounts, KA>,
    row: &JournalRow<OrderCommand>,
) -> Result<bool, AuditFault>
where
    KO: Keep<State = Option<Order>, Command = OrderCommand> + Drop,
    KS: Keep<State = Stock, Command = StockCommand> + Drop,
    KA: Keep<State = Account, Command = AccountCommand> + Drop,
    ensures { Looks KO.seen KS.seen KA.seen (λ o s a agrees. agrees ≡ row_agrees o s a row.now) result
        purchasing.old purchasing.new warehouse.old warehouse.new billing.old billing.new }
{
    // A read promises rows and not their kind: a file may be found to hold anything.
    if row.entity.kind() != Kind::Order {
        return Ok(true);
    }
    order_agrees(alloc, purchasing, warehouse, billing, &row.entity)
}

/// Whether the partners of each order that has one of these rows agree. What is read of an order is read again at each
/// of its rows.
fn rows_agree<KO, KS, KA>(
    alloc: Global,
    purchasing: &mut Endpoint<Orders, KO>,
    warehouse: &mut Endpoint<Stocks, KS>,
    billing: &mut Endpoint<Accounts, KA>,
    rows: &[JournalRow<OrderCommand>],
) -> Result<bool, AuditFault>
where
    KO: Keep<State = Option<Order>, Command = OrderCommand> + Drop,
    KS: Keep<State = Stock, Command = StockCommand> + Drop,
    KA: Keep<State = Account, Command = AccountCommand> + Drop,
    ensures { Looks KO.seen KS.seen KA.seen (λ o s a agree. agree ≡ rows_agree o s a rows.now) result
        purchasing.old purchasing.new warehouse.old warehouse.new billing.old billing.new }
{
    for row in rows {
        if !row_agrees(alloc, purchasing, warehouse, billing, row)? {
            // An early end: no later read can change the answer, and one that failed would hide it.
            return Ok(false);
        }
    }
    Ok(true)
}

/// Whether the partners of each order that has a row in purchasing's journal agree: of a confirmed one each has a line
/// that is held, or shipped or billed; of another none has one that is shipped or billed. Nothing changes.
///
/// It asks each store only reads: one of purchasing's journal, and for each of its rows one of the order and one at
/// each partner.
///
/// # Errors
/// Of the service whose read wasn't done: `Unusable`, `StoreFailed` or `Memory`, as its read tells it. The other stores
/// stay as they are.
pub fn agreement<KO, KS, KA>(
    alloc: Global,
    purchasing: &mut Endpoint<Orders, KO>,
    warehouse: &mut Endpoint<Stocks, KS>,
    billing: &mut Endpoint<Accounts, KA>,
) -> Result<bool, AuditFault>
where
    KO: Keep<State = Option<Order>, Command = OrderCommand> + Drop,
    KS: Keep<State = Stock, Command = StockCommand> + Drop,
    KA: Keep<State = Account, Command = AccountCommand> + Drop,
    ensures { Looks KO.seen KS.seen KA.seen (λ o s a agree. agree ≡ partners_agree o s a) result
        purchasing.old purchasing.new warehouse.old warehouse.new billing.old billing.new }
{
    // By purchasing's orders and not by lines: else all partners could have lost theirs of a confirmed order.
    match purchasing.journal(alloc, 1, usize::MAX) {
        Ok(rows) => rows_agree(alloc, purchasing, warehouse, billing, rows.as_slice()),
        Err(fault) => Err(AuditFault::Purchasing(fault)),
    }
}
