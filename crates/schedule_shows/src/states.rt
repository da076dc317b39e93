//! What is printed of orders, stocks and accounts.

ghost use Rattle.std.specs.Prelude.{◌≡◌, ◌++◌, OnOk, length};
ghost use Rattle.std.specs.List.{flat_map};
ghost use Rattle.schedule_shows.specs.Printed.{shown_partner, shown_order, shown_stock, shown_account, shown_or_none};

use crate::words::{push_entity, push_numbered, push_text};
use billing::Account;
use purchasing::{Order, Partner};
use std::alloc::AllocError;
use warehouse::Stock;

#[tactic(auto, using(std::proofs::Common::append_assoc))]
fn push_partner(line: &mut Vec<u8>, partner: &Partner) -> Result<(), AllocError>
    ensures { OnOk result (line.new.items ≡ line.old.items ++ shown_partner partner.now) }
{
    push_text(line, " ")?;
    push_entity(line, partner.entity())?;
    push_numbered(line, " ", partner.number().get())?;
    push_text(line, " ")?;
    push_text(line, partner.phase().word())
}

fn push_partners(line: &mut Vec<u8>, order: &Order) -> Result<(), AllocError>
    ensures { OnOk result (line.new.items ≡ line.old.items ++ flat_map shown_partner order.now.partners) }
{
    for at in 0..order.partner_count() {
        let Some(partner) = order.partner(at) else {
            // The prover shows that this isn't reached, since `at` is below the count.
            unreachable!();
        };
        push_partner(line, partner)?;
    }
    Ok(())
}

#[tactic(auto, using(std::proofs::Common::append_assoc))]
fn push_placed(line: &mut Vec<u8>, order: &Order) -> Result<(), AllocError>
    ensures { OnOk result (line.new.items ≡ line.old.items ++ shown_order order.now) }
{
    push_text(line, " ")?;
    push_text(line, order.status().word())?;
    push_partners(line, order)
}

/// Appends an order: its words where it was placed.
pub(crate) fn push_order(line: &mut Vec<u8>, order: &Option<Order>) -> Result<(), AllocError>
    ensures { OnOk result (line.new.items ≡ line.old.items ++ shown_or_none shown_order order.now) }
{
    match order {
        Some(order) => push_placed(line, order),
        // As an order without a row: a state that counts as none is the opening state.
        None => push_text(line, " none"),
    }
}

/// Appends the numbers of a stock.
#[tactic(auto, using(std::proofs::Common::append_assoc))]
pub(crate) fn push_stock(line: &mut Vec<u8>, stock: &Stock) -> Result<(), AllocError>
    ensures { OnOk result (line.new.items ≡ line.old.items ++ shown_stock stock.now) }
{
    push_numbered(line, " on_hand ", stock.on_hand())?;
    push_numbered(line, " held ", stock.held())?;
    push_numbered(line, " shipped ", stock.shipped())?;
    push_numbered(line, " received ", stock.received())
}

/// Appends the numbers of an account.
#[tactic(auto, using(std::proofs::Common::append_assoc))]
pub(crate) fn push_account(line: &mut Vec<u8>, account: &Account) -> Result<(), AllocError>
    ensures { OnOk result (line.new.items ≡ line.old.items ++ shown_account account.now) }
{
    push_numbered(line, " limit ", account.limit())?;
    push_numbered(line, " billed ", account.billed())?;
    push_numbered(line, " held ", account.held())
}
