//! What is read of one entity.

ghost use Rattle.std.specs.Prelude.{◌≡◌};
ghost use Rattle.base.specs.declared.entity.Kind.TheVariants.{Order as OrderKind, Stock as StockKind};
ghost use Rattle.base.specs.declared.entity.Kind.TheVariants.{Account as AccountKind};
ghost use Rattle.keep.specs.Law.{Reads};
ghost use Rattle.endpoint.specs.Faults.{end_of};
ghost use Rattle.schedule_audit.specs.Agree.{phase_in, stock_lines, account_lines, fits};

use activities::Handler;
use base::Entity;
use billing::{Account, Accounts};
use endpoint::{EndFault, Endpoint};
use keep::Keep;
use purchasing::{Order, Orders};
use std::alloc::Global;
use trade::{AccountCommand, Holder, LinePhase, Lines, OrderCommand, Status, StockCommand};
use warehouse::{Stock, Stocks};

/// The row of an entity of this service. One read of the store.
pub(crate) fn row_at<H, K>(
    alloc: Global,
    endpoint: &mut Endpoint<H, K>,
    entity: &Entity,
) -> Result<Option<H::State>, EndFault>
where
    H: Handler,
    K: Keep<State = H::State, Command = H::Command> + Drop,
    requires { entity.now.kind ≡ H.service.kind }
    ensures { Reads K.seen endpoint.old endpoint.new (λ t row. row ≡ t.entity entity.now) (end_of result) }
{
    endpoint.view(alloc, entity)
}

/// How far the line of an order is, if it has one.
fn phase_among(lines: &Lines, order: &Entity) -> Option<LinePhase>
    ensures { result ≡ phase_in order.now lines.now }
{
    let line = lines.find(order)?;
    Some(line.phase())
}

/// How far the line of an order is at a stock, if it has one there. One read of the store.
pub(crate) fn phase_at_stock<K>(
    alloc: Global,
    warehouse: &mut Endpoint<Stocks, K>,
    stock: &Entity,
    order: &Entity,
) -> Result<Option<LinePhase>, EndFault>
where
    K: Keep<State = Stock, Command = StockCommand> + Drop,
    requires { stock.now.kind ≡ StockKind }
    ensures { Reads K.seen warehouse.old warehouse.new
        (λ t phase. phase ≡ phase_in order.now (stock_lines (t.entity stock.now))) (end_of result) }
{
    match row_at::<Stocks, K>(alloc, warehouse, stock)? {
        Some(row) => Ok(phase_among(row.lines(), order)),
        // A stock without a row is as at first, and has no line.
        None => Ok(None),
    }
}

/// How far the line of an order is at an account, if it has one there. One read of the store.
pub(crate) fn phase_at_account<K>(
    alloc: Global,
    billing: &mut Endpoint<Accounts, K>,
    account: &Entity,
    order: &Entity,
) -> Result<Option<LinePhase>, EndFault>
where
    K: Keep<State = Account, Command = AccountCommand> + Drop,
    requires { account.now.kind ≡ AccountKind }
    ensures { Reads K.seen billing.old billing.new
        (λ t phase. phase ≡ phase_in order.now (account_lines (t.entity account.now))) (end_of result) }
{
    match row_at::<Accounts, K>(alloc, billing, account)? {
        Some(row) => Ok(phase_among(row.lines(), order)),
        None => Ok(None),
    }
}

/// The row of an order. One read of the store.
pub(crate) fn order_row<K>(
    alloc: Global,
    purchasing: &mut Endpoint<Orders, K>,
    order: &Entity,
) -> Result<Option<Option<Order>>, EndFault>
where
    K: Keep<State = Option<Order>, Command = OrderCommand> + Drop,
    requires { order.now.kind ≡ OrderKind }
    ensures { Reads K.seen purchasing.old purchasing.new (λ t row. row ≡ t.entity order.now) (end_of result) }
{
    row_at::<Orders, K>(alloc, purchasing, order)
}

/// Whether a partner's line fits how far its order is: that of a confirmed one is held, or shipped or billed; that of
/// another isn't shipped or billed.
pub(crate) fn fits(status: Status, phase: Option<LinePhase>) -> bool
    ensures { result ≡ fits status phase }
{
    match status {
        // Held too: the confirm may be on its way.
        Status::Confirmed => matches!(phase, Some(LinePhase::Held | LinePhase::Done)),
        // Held is right here too: an open order waits for the others' answers, and a cancel may be on its way.
        Status::Open | Status::Cancelled => !matches!(phase, Some(LinePhase::Done)),
    }
}
