//! The commands of seats, read from words.

ghost use Rattle.schedule_text.specs.Commands.{item_of, placing_of, place_of, cancel_of, receive_of, limit_of};
ghost use Rattle.schedule_text.specs.Reading.{Reads};

use crate::arguments::{key_at, number_at, seat_at};
use crate::event::SeatCommand;
use crate::fault::LineFault;
use crate::words::Word;
use base::{Entity, Kind};
use std::alloc::Global;
use trade::{AccountCommand, Item, Items, OrderCommand, StockCommand};

/// The most words behind `SEAT KEY`: 16 pairs `STOCK N`, and `ACCOUNT AMOUNT`.
const MOST_WORDS: usize = 34;

/// `STOCK N`: so much of a stock.
fn read_item(alloc: Global, words: &[Word]) -> Result<Item, LineFault>
    ensures { Reads (λ item. item) result (item_of words.now) }
{
    let [stock, quantity] = words else {
        return Err(LineFault::Bad);
    };
    let stock = key_at(alloc, stock)?;
    let quantity = number_at(quantity)?;
    Ok(Item { stock, quantity })
}

/// `STOCK N .. ACCOUNT AMOUNT`: asks each stock, and the account.
fn read_placing(alloc: Global, words: &[Word]) -> Result<OrderCommand, LineFault>
    ensures { Reads (λ command. command) result (placing_of words.now) }
{
    // The rule itself, from which the limit on a line's words follows. Asked before a key is allocated.
    if words.len() > MOST_WORDS {
        return Err(LineFault::Bad);
    }
    let mut items = Vec::new(alloc);
    let mut rest = words;
    // ACCOUNT AMOUNT are the last two. Where the count of words is odd one is left, which makes the line faulty.
    while rest.len() > 2 {
        let (pair, others) = rest.split_at(2);
        items.push(read_item(alloc, pair)?)?;
        rest = others;
    }
    let [account, amount] = rest else {
        return Err(LineFault::Bad);
    };
    let account = key_at(alloc, account)?;
    let amount = number_at(amount)?;
    // No pair, more than eight, or a stock twice is a command all the same: the order refuses it, by 74.
    Ok(OrderCommand::Place {
        lines: Items::from_vec(items),
        account,
        amount,
    })
}

/// `SEAT KEY STOCK N .. ACCOUNT AMOUNT`: places an order.
pub(crate) fn read_place(
    alloc: Global,
    words: &[Word],
) -> Result<SeatCommand<OrderCommand>, LineFault>
    ensures { Reads (λ asked. asked) result (place_of words.now) }
{
    let [seat, key, arguments @ ..] = words else {
        return Err(LineFault::Bad);
    };
    let seat = seat_at(seat)?;
    let key = key_at(alloc, key)?;
    let command = read_placing(alloc, arguments)?;
    // A command's line has the key alone: the verb says of which kind the entity is.
    let entity = Entity::new(alloc, Kind::Order, &key)?;
    Ok(SeatCommand {
        seat,
        entity,
        command,
    })
}

/// `SEAT KEY`: cancels an order.
pub(crate) fn read_cancel(
    alloc: Global,
    words: &[Word],
) -> Result<SeatCommand<OrderCommand>, LineFault>
    ensures { Reads (λ asked. asked) result (cancel_of words.now) }
{
    let [seat, key] = words else {
        return Err(LineFault::Bad);
    };
    let seat = seat_at(seat)?;
    let key = key_at(alloc, key)?;
    let entity = Entity::new(alloc, Kind::Order, &key)?;
    Ok(SeatCommand {
        seat,
        entity,
        command: OrderCommand::CancelOrder,
    })
}

/// `SEAT KEY N`: so much came into a stock.
pub(crate) fn read_receive(
    alloc: Global,
    words: &[Word],
) -> Result<SeatCommand<StockCommand>, LineFault>
    ensures { Reads (λ asked. asked) result (receive_of words.now) }
{
    let [seat, key, quantity] = words else {
        return Err(LineFault::Bad);
    };
    let seat = seat_at(seat)?;
    let key = key_at(alloc, key)?;
    // Any `u64`: a quantity that is out of range is for the stock to refuse, by 72, and is no faulty line.
    let quantity = number_at(quantity)?;
    let entity = Entity::new(alloc, Kind::Stock, &key)?;
    Ok(SeatCommand {
        seat,
        entity,
        command: StockCommand::Receive(quantity),
    })
}

/// `SEAT KEY N`: sets the limit of an account.
pub(crate) fn read_limit(
    alloc: Global,
    words: &[Word],
) -> Result<SeatCommand<AccountCommand>, LineFault>
    ensures { Reads (λ asked. asked) result (limit_of words.now) }
{
    let [seat, key, limit] = words else {
        return Err(LineFault::Bad);
    };
    let seat = seat_at(seat)?;
    let key = key_at(alloc, key)?;
    // Any `u64`, as in `read_receive`: the account refuses what is out of range.
    let limit = number_at(limit)?;
    let entity = Entity::new(alloc, Kind::Account, &key)?;
    Ok(SeatCommand {
        seat,
        entity,
        command: AccountCommand::SetLimit(limit),
    })
}
