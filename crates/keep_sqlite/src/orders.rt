//! Purchasing in files.

ghost use Rattle.std.specs.Prelude.{refl};
ghost use Rattle.keep_sqlite.specs.Migration.{first_orders};
ghost use Rattle.keep_sqlite.specs.Orders.{orders};

use crate::filed::Filed;
use crate::order_reads::find_order;
use crate::order_renewal::renew_orders;
use crate::order_writes::{set_order, write_order};
use crate::progress::Progress;
use activities::Handler;
use base::{Entity, Kind};
use purchasing::{Order, Orders};
use sql_rows::Service;
use sqlite::{Alter, Connection, Error, Transaction};
use std::alloc::{AllocError, Global};
use trade::OrderCommand;

impl Filed for Orders {
    type State = Option<Order>;

    type Command = OrderCommand;

    ghost filing = { orders };

    fn service() -> Service {
        Service::Purchasing
    }

    fn copy_state(alloc: Global, row: &Option<Order>) -> Result<Option<Order>, AllocError> {
        <Orders as Handler>::copy_state(alloc, row)
    }

    fn read_state<S: Alter>(
        alloc: Global,
        conn: &mut Connection<S>,
        entity: &Entity,
        count: u64,
    ) -> Result<Option<Option<Order>>, Error> {
        match entity.kind() {
            Kind::Order => match find_order(alloc, conn, entity.key(), count)? {
                // A row, and in it an order that was placed: one that wasn't has no row.
                Some(order) => Ok(Some(Some(order))),
                None => Ok(None),
            },
            // No row here is one of theirs.
            Kind::Stock | Kind::Account => Ok(None),
        }
    }

    fn write_state<S: Alter>(
        _alloc: Global,
        tx: &mut Transaction<'_, S>,
        entity: &Entity,
        row: &Option<Option<Order>>,
        count: u64,
    ) -> Result<u64, Error> {
        match entity.kind() {
            Kind::Order => write_order(tx, entity.key(), row, count),
            // They have no place here.
            Kind::Stock | Kind::Account => Err(Error::InvalidQuery),
        }
    }

    // An order is small: all of it is written.
    fn write_step<S: Alter>(
        _alloc: Global,
        tx: &mut Transaction<'_, S>,
        entity: &Entity,
        row: &Option<Order>,
        _sender: Option<&Entity>,
        count: u64,
    ) -> Result<u64, Error> {
        match entity.kind() {
            Kind::Order => set_order(tx, entity.key(), row, count),
            Kind::Stock | Kind::Account => Err(Error::InvalidQuery),
        }
    }

    ghost first = { first_orders };

    fn renew<S: Alter, P: Progress>(
        alloc: Global,
        tx: &mut Transaction<'_, S>,
        progress: &mut P,
    ) -> Result<(), Error> {
        renew_orders(alloc, tx, progress)
    }

    ghost commands = { λ body. refl };
}
