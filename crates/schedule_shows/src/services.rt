//! The services, each with words for its rows and commands.

ghost use Rattle.std.specs.Prelude.{◌≡◌, ◌++◌, List, ℕ, OnOk, IfOk};
ghost use Rattle.schedule_shows.specs.Printed.{shown_or_none, show_line};

use crate::journals::{push_account_command, push_order_command, push_stock_command};
use crate::states::{push_account, push_order, push_stock};
use crate::words::{push_entity, push_text};
use activities::Handler;
use base::Entity;
use billing::{Account, Accounts};
use purchasing::{Order, Orders};
use std::alloc::{AllocError, Global};
use trade::{AccountCommand, OrderCommand, StockCommand};
use warehouse::{Stock, Stocks};

/// A service that has words for its rows and its commands.
pub trait Shown: Handler {
    /// The words of a row, behind its entity.
    ghost shown_state: { Self.State → List ℕ };

    /// The words of a command.
    ghost shown_command: { Self.Command → List ℕ };

    /// Appends the words of a row.
    ///
    /// # Errors
    /// Where a growth was refused; the line isn't whole then.
    fn push_state(line: &mut Vec<u8>, state: &Self::State) -> Result<(), AllocError>
        ensures { OnOk result (line.new.items ≡ line.old.items ++ shown_state state.now) };

    /// Appends the words of a command.
    ///
    /// # Errors
    /// Where a growth was refused; the line isn't whole then.
    fn push_command(line: &mut Vec<u8>, command: &Self::Command) -> Result<(), AllocError>
        ensures { OnOk result (line.new.items ≡ line.old.items ++ shown_command command.now) };
}

impl Shown for Orders {
    ghost use Rattle.schedule_shows.specs.Printed.{shown_or_none, shown_order, shown_order_command};

    ghost shown_state = { shown_or_none shown_order };

    ghost shown_command = { shown_order_command };

    fn push_state(line: &mut Vec<u8>, order: &Option<Order>) -> Result<(), AllocError> {
        push_order(line, order)
    }

    fn push_command(line: &mut Vec<u8>, command: &OrderCommand) -> Result<(), AllocError> {
        push_order_command(line, command)
    }
}

impl Shown for Stocks {
    ghost use Rattle.schedule_shows.specs.Printed.{shown_stock, shown_stock_command};

    ghost shown_state = { shown_stock };

    ghost shown_command = { shown_stock_command };

    fn push_state(line: &mut Vec<u8>, stock: &Stock) -> Result<(), AllocError> {
        push_stock(line, stock)
    }

    fn push_command(line: &mut Vec<u8>, command: &StockCommand) -> Result<(), AllocError> {
        push_stock_command(line, command)
    }
}

impl Shown for Accounts {
    ghost use Rattle.schedule_shows.specs.Printed.{shown_account, shown_account_command};

    ghost shown_state = { shown_account };

    ghost shown_command = { shown_account_command };

    fn push_state(line: &mut Vec<u8>, account: &Account) -> Result<(), AllocError> {
        push_account(line, account)
    }

    fn push_command(line: &mut Vec<u8>, command: &AccountCommand) -> Result<(), AllocError> {
        push_account_command(line, command)
    }
}

fn push_row<H: Shown>(line: &mut Vec<u8>, row: &Option<H::State>) -> Result<(), AllocError>
    ensures { OnOk result (line.new.items ≡ line.old.items ++ shown_or_none H.shown_state row.now) }
{
    match row {
        Some(state) => H::push_state(line, state),
        // With a space, as the words of every state begin with one.
        None => push_text(line, " none"),
    }
}

/// The line of `show`: an entity, and its row where there is one.
///
/// # Errors
/// Where a growth was refused.
#[tactic(auto, using(std::proofs::Common::append_assoc))]
pub fn show_row<H: Shown>(
    alloc: Global,
    entity: &Entity,
    row: &Option<H::State>,
) -> Result<Vec<u8>, AllocError>
    ensures { IfOk result (λ line. line.items ≡ show_line H.shown_state entity.now row.now) }
{
    let mut line = Vec::new(alloc);
    push_entity(&mut line, entity)?;
    push_row::<H>(&mut line, row)?;
    line.push(b'\n')?;
    Ok(line)
}
