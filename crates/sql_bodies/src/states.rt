//! Partners of orders, and lines of stocks and accounts, as columns of their rows.

ghost use Rattle.std.specs.Prelude.{◌≡◌, Some, IfOk, OnErr};
ghost use Rattle.base.specs.declared.entity.Kind.TheVariants.{Stock, Account};
ghost use Rattle.envelope.specs.Reading.{as_number};
ghost use Rattle.sql_bodies.specs.LineRows.{line_from, lines_with};
ghost use Rattle.sql_bodies.specs.OrderRows.{partner_in, stocks_with, order_from, IsOrderRead};
ghost use Rattle.sql_bodies.specs.Steps.{IsMade};
ghost use Rattle.sql_bodies.specs.Words.{status_in, phase_in, stock_phase_in, account_phase_in};

use crate::members::as_key;
use activities::Phase;
use base::{Entity, Kind, Number};
use purchasing::{Order, Partner};
use std::alloc::{AllocError, Global};
use trade::{LinePhase, Lines, Status};

/// The number that a column has, if it is from 1 to 2^40.
fn as_number(number: u64) -> Option<Number>
    ensures { result ≡ as_number number }
{
    Number::new(number)
}

/// The status that a word tells, if it is one's.
fn status_in(word: &str) -> Option<Status>
    ensures { result ≡ status_in word.now }
{
    Status::of_word(word)
}

/// The phase that a word tells, if it is one's.
fn phase_in(word: &str) -> Option<Phase>
    ensures { result ≡ phase_in word.now }
{
    Phase::of_word(word)
}

/// The phase at a stock that a word tells, if it is one's.
fn stock_phase_in(word: &str) -> Option<LinePhase>
    ensures { result ≡ stock_phase_in word.now }
{
    LinePhase::of_stock_word(word)
}

/// The phase at an account that a word tells, if it is one's.
fn account_phase_in(word: &str) -> Option<LinePhase>
    ensures { result ≡ account_phase_in word.now }
{
    LinePhase::of_account_word(word)
}

/// The partner of an order, of this kind, by the columns that tell its key, its number and the word of its phase;
/// `None` where they are no partner's.
///
/// # Errors
/// If an allocation fails.
pub fn read_partner(
    alloc: Global,
    kind: Kind,
    key: &str,
    number: u64,
    phase: &str,
) -> Result<Option<Partner>, AllocError>
    ensures { IfOk result (λ found. found ≡ partner_in kind key.now number phase.now) }
{
    let Some(key) = as_key(alloc, key)? else {
        return Ok(None);
    };
    let Some(number) = as_number(number) else {
        return Ok(None);
    };
    let Some(phase) = phase_in(phase) else {
        return Ok(None);
    };
    let entity = Entity::new(alloc, kind, &key)?;
    Ok(Some(Partner::new(entity, number, phase)))
}

/// Puts a stock of an order after the others, by the columns of its row: its number among the order's lines, its key,
/// how much it was asked for, and the word of its phase. Whether it did: not where these are no partner's, or the
/// number isn't the next.
///
/// # Errors
/// If an allocation fails; the stocks are as they were then.
pub fn push_stock(
    alloc: Global,
    stocks: &mut Vec<Partner>,
    line: u64,
    stock: &str,
    number: u64,
    phase: &str,
) -> Result<bool, AllocError>
    ensures ok { IfOk result (IsMade (stocks_with line (partner_in Stock stock.now number phase.now) stocks.old.items)
        stocks.old.items stocks.new.items) }
    ensures err { OnErr result (stocks.new.items ≡ stocks.old.items) }
{
    // Lines are numbered from 1 without a gap: a row that is missing or doubled is no order's.
    if line.checked_sub(1) != Some(stocks.len() as u64) {
        return Ok(false);
    }
    let Some(partner) = read_partner(alloc, Kind::Stock, stock, number, phase)? else {
        return Ok(false);
    };
    stocks.push(partner)?;
    Ok(true)
}

/// The order with these stocks, by the columns of its own row: the key of its account, how much of it, the word of its
/// status, and that of the account's phase; `None` where they are no order's.
///
/// # Errors
/// If an allocation fails.
pub fn read_order(
    alloc: Global,
    stocks: Vec<Partner>,
    account: &str,
    amount: u64,
    status: &str,
    phase: &str,
) -> Result<Option<Order>, AllocError>
    ensures { IfOk result (IsOrderRead (order_from (status_in status.now) (Some stocks.items)
        (partner_in Account account.now amount phase.now))) }
{
    let Some(status) = status_in(status) else {
        return Ok(None);
    };
    let Some(account) = read_partner(alloc, Kind::Account, account, amount, phase)? else {
        return Ok(None);
    };
    let mut partners = stocks;
    partners.push(account)?;
    // It refuses what no order is: without stocks, with one twice, or with more than eight.
    Ok(Order::from_parts(status, partners))
}

/// Puts the line of an order among others, by the key, the number and the phase; whether it did: not where these are no
/// line's, or the order has a line.
fn put_line(
    alloc: Global,
    lines: &mut Lines,
    order: &str,
    number: u64,
    phase: Option<LinePhase>,
) -> Result<bool, AllocError>
    ensures ok { IfOk result (IsMade (lines_with (line_from phase order.now number) lines.old) lines.old lines.new) }
    ensures err { OnErr result (lines.new ≡ lines.old) }
{
    let Some(key) = as_key(alloc, order)? else {
        return Ok(false);
    };
    let Some(number) = as_number(number) else {
        return Ok(false);
    };
    let Some(phase) = phase else {
        return Ok(false);
    };
    let order = Entity::new(alloc, Kind::Order, &key)?;
    // `insert` is for an order that has no line.
    if lines.find(&order).is_some() {
        return Ok(false);
    }
    lines.insert(order, number, phase)?;
    Ok(true)
}

/// Puts a line of a stock among others, by the columns that tell the key of its order, its number and the word of its
/// phase; whether it did: not where these are no line's, or the order has a line.
///
/// # Errors
/// If an allocation fails; the lines are as they were then.
pub fn put_stock_line(
    alloc: Global,
    lines: &mut Lines,
    order: &str,
    number: u64,
    phase: &str,
) -> Result<bool, AllocError>
    ensures ok { IfOk result
        (IsMade (lines_with (line_from (stock_phase_in phase.now) order.now number) lines.old) lines.old lines.new) }
    ensures err { OnErr result (lines.new ≡ lines.old) }
{
    put_line(alloc, lines, order, number, stock_phase_in(phase))
}

/// Puts a line of an account among others, by the columns that tell the key of its order, its number and the word of
/// its phase; whether it did: not where these are no line's, or the order has a line.
///
/// # Errors
/// If an allocation fails; the lines are as they were then.
pub fn put_account_line(
    alloc: Global,
    lines: &mut Lines,
    order: &str,
    number: u64,
    phase: &str,
) -> Result<bool, AllocError>
    ensures ok { IfOk result
        (IsMade (lines_with (line_from (account_phase_in phase.now) order.now number) lines.old) lines.old lines.new) }
    ensures err { OnErr result (lines.new ≡ lines.old) }
{
    put_line(alloc, lines, order, number, account_phase_in(phase))
}
