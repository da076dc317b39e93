//! The rows of a journal: what entities took in.

ghost use Rattle.std.specs.Prelude.{◌≡◌, ◌++◌, ◌∷◌, [], OnOk, IfOk};
ghost use Rattle.std.specs.List.{flat_map};
ghost use Rattle.schedule_shows.specs.Printed.{shown_item, shown_order_command, shown_stock_command};
ghost use Rattle.schedule_shows.specs.Printed.{shown_account_command};
ghost use Rattle.schedule_shows.specs.Printed.{shown_message, shown_input, journal_line, journal_lines};

use crate::services::Shown;
use crate::words::{push_entity, push_escaped, push_numbered, push_text};
use activities::{Input, JournalRow};
use envelope::Message;
use std::alloc::{AllocError, Global};
use trade::{AccountCommand, Item, OrderCommand, StockCommand};

/// Appends so much of each stock.
fn push_items(line: &mut Vec<u8>, items: &[Item]) -> Result<(), AllocError>
    ensures { OnOk result (line.new.items ≡ line.old.items ++ flat_map shown_item items.now) }
{
    for item in items {
        push_item(line, item)?;
    }
    Ok(())
}

/// Appends so much of a stock.
#[tactic(auto, using(std::proofs::Common::append_assoc))]
fn push_item(line: &mut Vec<u8>, item: &Item) -> Result<(), AllocError>
    ensures { OnOk result (line.new.items ≡ line.old.items ++ shown_item item.now) }
{
    push_text(line, " ")?;
    push_escaped(line, item.stock.as_str())?;
    push_numbered(line, " ", item.quantity)
}

/// Appends an order's command.
#[tactic(auto, using(std::proofs::Common::append_assoc))]
pub(crate) fn push_order_command(
    line: &mut Vec<u8>,
    command: &OrderCommand,
) -> Result<(), AllocError>
    ensures { OnOk result (line.new.items ≡ line.old.items ++ shown_order_command command.now) }
{
    match command {
        OrderCommand::Place {
            lines,
            account,
            amount,
        } => {
            push_text(line, "place")?;
            push_items(line, lines.as_slice())?;
            push_text(line, " ")?;
            push_escaped(line, account.as_str())?;
            push_numbered(line, " ", *amount)
        }
        OrderCommand::CancelOrder => push_text(line, "cancel_order"),
    }
}

/// Appends a stock's command.
pub(crate) fn push_stock_command(
    line: &mut Vec<u8>,
    command: &StockCommand,
) -> Result<(), AllocError>
    ensures { OnOk result (line.new.items ≡ line.old.items ++ shown_stock_command command.now) }
{
    match command {
        // A match over one command: another that is added doesn't compile without words of its own.
        StockCommand::Receive(quantity) => push_numbered(line, "receive ", *quantity),
    }
}

/// Appends an account's command.
pub(crate) fn push_account_command(
    line: &mut Vec<u8>,
    command: &AccountCommand,
) -> Result<(), AllocError>
    ensures { OnOk result (line.new.items ≡ line.old.items ++ shown_account_command command.now) }
{
    match command {
        AccountCommand::SetLimit(limit) => push_numbered(line, "set_limit ", *limit),
    }
}

fn push_message(line: &mut Vec<u8>, message: &Message) -> Result<(), AllocError>
    ensures { OnOk result (line.new.items ≡ line.old.items ++ shown_message message.now) }
{
    match message {
        Message::Request(number) => push_numbered(line, "request ", number.get()),
        Message::Tentative => push_text(line, "tentative"),
        Message::Refused => push_text(line, "refused"),
        Message::Confirm => push_text(line, "confirm"),
        Message::Cancel => push_text(line, "cancel"),
    }
}

#[tactic(auto, using(std::proofs::Common::append_assoc))]
fn push_input<H: Shown>(line: &mut Vec<u8>, input: &Input<H::Command>) -> Result<(), AllocError>
    ensures { OnOk result (line.new.items ≡ line.old.items ++ shown_input H.shown_command input.now) }
{
    match input {
        Input::FromSeat(seat, command) => {
            push_numbered(line, "seat ", u64::from(*seat))?;
            push_text(line, " ")?;
            H::push_command(line, command)
        }
        Input::FromEntity(sender, number, message) => {
            push_text(line, "from ")?;
            push_entity(line, sender)?;
            push_numbered(line, " ", number.get())?;
            push_text(line, " ")?;
            push_message(line, message)
        }
    }
}

#[tactic(auto, using(std::proofs::Common::append_assoc))]
fn push_line<H: Shown>(
    lines: &mut Vec<u8>,
    pos: u64,
    row: &JournalRow<H::Command>,
) -> Result<(), AllocError>
    ensures { OnOk result (lines.new.items ≡ lines.old.items ++ journal_line H.shown_command pos row.now) }
{
    push_numbered(lines, "", pos)?;
    push_text(lines, " ")?;
    push_entity(lines, &row.entity)?;
    push_text(lines, " ")?;
    push_input::<H>(lines, &row.input)?;
    // The only LF of the line: texts of entities have theirs escaped, and so have keys in commands.
    lines.push(b'\n')?;
    Ok(())
}

/// The lines of `journal`: its rows, whose positions are 1, 2, ..
///
/// # Errors
/// Where a growth was refused.
#[tactic(auto, using(crate::proofs::Pieces::rows_more, std::proofs::Common::append_assoc))]
pub fn show_journal<H: Shown>(
    alloc: Global,
    rows: &[JournalRow<H::Command>],
) -> Result<Vec<u8>, AllocError>
    ensures { IfOk result (λ lines. lines.items ≡ journal_lines H.shown_command rows.now) }
{
    let mut lines = Vec::new(alloc);
    let mut pos: u64 = 0;
    for row in rows {
        // A row comes without its position. The reader asked from 1 on, and a journal has no gaps.
        pos += 1;
        push_line::<H>(&mut lines, pos, row)?;
    }
    Ok(lines)
}
