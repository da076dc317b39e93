//! What lines mean to each of the three services, and how their states are shown.

ghost use Rattle.std.specs.Prelude.{◌≡◌, drop, string_bytes, IfOk};
ghost use Rattle.outbox_service.specs.Commands.{fault_of};

use base::Entity;
use billing::{Account, Accounts};
use purchasing::{Order, Orders};
use schedule_shows::Shown;
use schedule_text::{Event, ScheduleFault, SeatCommand, read_schedule};
use service_program::{Business, LineFault, Texts};
use std::alloc::{AllocError, Global};
use trade::{AccountCommand, OrderCommand, StockCommand};
use warehouse::{Stock, Stocks};

/// What the program prints of itself.
pub const TEXTS: Texts<'static> = Texts {
    name: "outbox-service",
    version: "0.1.0",
    about: "A service of a transactional outbox, connected to a broker of STOMP 1.2.",
    usage: "outbox-service --service purchasing|warehouse|billing --port <PORT> [--file <PATH>] [OPTIONS]",
    commands: &[
        (
            "place KEY STOCK N .. ACCOUNT AMOUNT",
            "purchasing: an order asks for N of each of one to eight",
        ),
        ("", "stocks, and for AMOUNT of an account"),
        ("cancel KEY", "purchasing: cancels an order"),
        ("receive KEY N", "warehouse: N of a stock came in"),
        (
            "limit KEY N",
            "billing: the limit of an account is N from now on",
        ),
    ],
    refusals: &[
        (
            "refused 61 70",
            "AlreadyPlaced: the order was placed before",
        ),
        ("refused 61 71", "NotOpen: the order isn't open"),
        ("refused 61 72", "OutOfRange: a number is out of range"),
        (
            "refused 61 73",
            "BelowUse: the limit is below what is billed and held",
        ),
        (
            "refused 61 74",
            "BadLines: no line, more than eight, or one stock twice",
        ),
    ],
};

/// The three services: orders, stocks and accounts.
pub struct Trade;

/// The line as schedules have it, so that one reader serves both: seat 0 gives each command here.
fn add_seat(alloc: Global, line: &str) -> Result<String, AllocError> {
    match line.split_once(' ') {
        Some((verb, rest)) if matches!(verb, "place" | "cancel" | "receive" | "limit") => {
            format!(in alloc; "{verb} 0 {rest}")
        }
        // Any other line is read as it is: another event of schedules is refused by `fault_of`.
        _ => String::from_str(alloc, line),
    }
}

/// Reads a line that is one of a schedule's, but for the seat.
fn read_event(alloc: Global, line: &str) -> Result<Event, LineFault> {
    let line = add_seat(alloc, line)?;
    match read_schedule(alloc, line.as_bytes()) {
        // One line has one event at most, so the last is the only one.
        Ok(mut events) => match events.pop() {
            Some(event) => Ok(event),
            None => Err(LineFault::Unreadable),
        },
        // The number in the fault is that of a line of a schedule: here it is always 1.
        Err(ScheduleFault::BadEvent(_)) => Err(LineFault::Unreadable),
        Err(ScheduleFault::Memory) => Err(LineFault::Memory),
    }
}

/// Why an event is no command of a service: it's one of another, or an event of schedules alone.
fn fault_of(event: &Event) -> LineFault
    ensures { result ≡ fault_of event.now }
{
    match event {
        Event::Order(_) | Event::Stock(_) | Event::Account(_) => LineFault::NotMine,
        _ => LineFault::Unreadable,
    }
}

/// What a seat commands, without the seat: here it's always the first.
fn command_of<C: Drop>(asked: SeatCommand<C>) -> (Entity, C)
    ensures { (result.0 ≡ asked.entity) × (result.1 ≡ asked.command) }
{
    let SeatCommand {
        seat: _,
        entity,
        command,
    } = asked;
    (entity, command)
}

/// The words of a state, which schedules print with a space before the first.
fn show_words<S: Shown>(alloc: Global, state: &S::State) -> Result<String, AllocError>
    ensures { IfOk result (λ words. string_bytes words ≡ drop 1 (S.shown_state state.now)) }
{
    let mut octets = Vec::new(alloc);
    S::push_state(&mut octets, state)?;
    match octets.as_slice() {
        // Without that space: `service_program` puts one after the entity.
        [_, words @ ..] => text_of(alloc, words),
        [] => Ok(String::new(alloc)),
    }
}

/// A text whose octets these are. Those of words are ASCII, or keys, so that they are one.
fn text_of(alloc: Global, octets: &[u8]) -> Result<String, AllocError>
    ensures { IfOk result (λ text. string_bytes text ≡ octets.now) }
{
    match str::from_utf8(octets) {
        Ok(text) => String::from_str(alloc, text),
        Err(_) => Err(AllocError),
    }
}

impl Business<Orders> for Trade {
    fn read_command(alloc: Global, line: &str) -> Result<(Entity, OrderCommand), LineFault> {
        match read_event(alloc, line)? {
            Event::Order(asked) => Ok(command_of(asked)),
            event => Err(fault_of(&event)),
        }
    }

    fn show_state(alloc: Global, order: &Option<Order>) -> Result<String, AllocError> {
        show_words::<Orders>(alloc, order)
    }
}

impl Business<Stocks> for Trade {
    fn read_command(alloc: Global, line: &str) -> Result<(Entity, StockCommand), LineFault> {
        match read_event(alloc, line)? {
            Event::Stock(asked) => Ok(command_of(asked)),
            event => Err(fault_of(&event)),
        }
    }

    fn show_state(alloc: Global, stock: &Stock) -> Result<String, AllocError> {
        show_words::<Stocks>(alloc, stock)
    }
}

impl Business<Accounts> for Trade {
    fn read_command(alloc: Global, line: &str) -> Result<(Entity, AccountCommand), LineFault> {
        match read_event(alloc, line)? {
            Event::Account(asked) => Ok(command_of(asked)),
            event => Err(fault_of(&event)),
        }
    }

    fn show_state(alloc: Global, account: &Account) -> Result<String, AllocError> {
        show_words::<Accounts>(alloc, account)
    }
}
