//! The events of a schedule.

use crate::bounded::{Ordinal, Rounds, SeatNumber};
use base::{Entity, Pair};
use stomp_wire::Way;
use trade::{AccountCommand, OrderCommand, StockCommand};

/// A service of the world that a schedule runs.
#[derive(Clone, Copy, Debug, PartialEq, Eq)]
pub enum ServiceName {
    /// The service that has the orders.
    Purchasing,
    /// The service that has the stocks.
    Warehouse,
    /// The service that has the accounts.
    Billing,
}

/// Which of a service's two connections to the broker.
#[derive(Clone, Copy, Debug, PartialEq, Eq)]
pub enum ConnectionNumber {
    /// That of number 0.
    Zero,
    /// That of number 1.
    One,
}

/// A connection of a service to the broker.
#[derive(Clone, Copy, Debug, PartialEq, Eq)]
pub struct ConnectionName {
    /// Whose it is.
    pub service: ServiceName,
    /// Which of the two.
    pub number: ConnectionNumber,
}

/// Which tables a transaction leaves that a store fails.
#[derive(Clone, Copy, Debug, PartialEq, Eq)]
pub enum FailureLeaves {
    /// Those before it.
    Old,
    /// Those with its changes.
    New,
}

/// A seat's command to an entity.
#[derive(Debug, Drop)]
pub struct SeatCommand<C> {
    /// Which seat gives it.
    pub seat: SeatNumber,
    /// To which entity.
    pub entity: Entity,
    /// What it asks for.
    pub command: C,
}

/// What one line of a schedule lets happen.
#[derive(Debug, Drop)]
pub enum Event {
    /// A seat's command to an order.
    Order(SeatCommand<OrderCommand>),
    /// A seat's command to a stock.
    Stock(SeatCommand<StockCommand>),
    /// A seat's command to an account.
    Account(SeatCommand<AccountCommand>),
    /// Opens a connection, unless it's open.
    Open(ConnectionName),
    /// Cuts a connection: what is on its way is lost.
    Cut(ConnectionName),
    /// Sends unsettled rows that weren't sent on this connection, at most so many.
    Fill(ConnectionName, u64),
    /// Makes all unsettled rows due again.
    Resend(ConnectionName),
    /// Moves the first octets that wait on a way, `Up` to the broker or `Down` from it, at most so many.
    Carry(ConnectionName, Way, u64),
    /// Handles one frame that came.
    Take(ConnectionName),
    /// Handles the first held message that is next.
    Drain(ConnectionName),
    /// Sends again what was accepted at this place, counted over all brokers.
    Repeat(Ordinal),
    /// Lets the read or transaction at this place from now on fail, once.
    Fail(ServiceName, Ordinal, FailureLeaves),
    /// Opens the store of a service anew.
    Reopen(ServiceName),
    /// Stops a service and starts it again.
    Stop(ServiceName),
    /// Stops the broker and starts it again: all messages are lost.
    StopBroker,
    /// Runs so many rounds, in which each service sends, takes and drains.
    Pump(Rounds),
    /// Shows an entity's row.
    Show(Entity),
    /// Shows the marks of a pair.
    Pair(Pair),
    /// Shows the frames that a service is to send.
    Frames(ServiceName),
    /// Shows a service's journal.
    Journal(ServiceName),
    /// Shows whether the partners of each order agree.
    Agreement,
}
