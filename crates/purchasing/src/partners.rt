//! The partners of an order, one after another.

ghost use Rattle.std.specs.Prelude.{◌≡◌, ◌≢◌, [], ◌++◌, true, IfOk, OnOk, OnErr};
ghost use Rattle.trade.specs.Items.{are_numbers};
ghost use Rattle.trade.specs.Orders.{awaits, with_phase, all_tentative, all_in, to_all, to_others, requests};
ghost use Rattle.trade.specs.Orders.{partners_of};
ghost use Rattle.purchasing.specs.Parts.Partners.{names, stands_in, are_stocks_then_account, are_partners};

use crate::Partner;
use activities::{Outs, Phase};
use base::limits::MAX_LINES;
use base::{Entity, Key, Kind, Number};
use envelope::Message;
use std::alloc::{AllocError, Global};
use trade::Item;

/// Whether one of these partners is this entity.
fn stands_in(entity: &Entity, partners: &[Partner]) -> bool
    ensures { result ≡ stands_in entity.now (names partners.now) }
{
    for partner in partners {
        if partner.is(entity) {
            return true;
        }
    }
    false
}

/// Whether they are stocks, each once, and then one account.
fn are_stocks_then_account(partners: &[Partner]) -> bool
    ensures { result ≡ are_stocks_then_account (names partners.now) }
{
    let mut rest = partners;
    while let Some((first, others)) = rest.split_first() {
        if others.is_empty() {
            return first.entity().kind() == Kind::Account;
        }
        if first.entity().kind() != Kind::Stock || stands_in(first.entity(), others) {
            return false;
        }
        rest = others;
    }
    false
}

/// Whether they are one to eight stocks, each once, and then one account.
pub(crate) fn are_partners(partners: &[Partner]) -> bool
    ensures { result ≡ are_partners (names partners.now) }
{
    // One more than lines: the account.
    1 < partners.len() && partners.len() <= MAX_LINES + 1 && are_stocks_then_account(partners)
}

/// Equal partners, in the same order.
pub(crate) fn copy_all(alloc: Global, partners: &[Partner]) -> Result<Vec<Partner>, AllocError>
    ensures { IfOk result (λ l. l.items ≡ partners.now) }
{
    let mut copies = Vec::with_capacity(alloc, partners.len())?;
    for partner in partners {
        copies.push(partner.copy(alloc)?)?;
    }
    Ok(copies)
}

/// The partners that a new order is to ask: a stock for each item, and the account.
pub(crate) fn to_ask(
    alloc: Global,
    items: &[Item],
    account: &Key,
    amount: Number,
) -> Result<Vec<Partner>, AllocError>
    requires numbers { are_numbers items.now ≡ true }
    ensures { IfOk result (λ l. l.items ≡ partners_of items.now account.now amount) }
{
    let mut partners = Vec::new(alloc);
    for item in items {
        let Some(quantity) = Number::new(item.quantity) else {
            // `place` has tested all numbers.
            unreachable!()
        };
        let stock = Entity::new(alloc, Kind::Stock, &item.stock)?;
        partners.push(Partner::new(stock, quantity, Phase::Requested))?;
    }
    let account = Entity::new(alloc, Kind::Account, account)?;
    partners.push(Partner::new(account, amount, Phase::Requested))?;
    Ok(partners)
}

/// Whether the sender is a partner that was asked and hasn't answered.
pub(crate) fn awaits(partners: &[Partner], sender: &Entity) -> bool
    ensures { result ≡ awaits sender.now partners.now }
{
    for partner in partners {
        if partner.is(sender) {
            // Each partner is there once, so no other need be looked at.
            return partner.is_requested();
        }
    }
    false
}

/// Whether each is tentative once the sender is.
pub(crate) fn waits_for_no_other(partners: &[Partner], sender: &Entity) -> bool
    ensures { result ≡ all_tentative (with_phase sender.now Phase.Tentative partners.now) }
{
    let mut is_found = false;
    for partner in partners {
        // The sender's own phase isn't tentative yet: it's set only where others are waited for.
        if !is_found && partner.is(sender) {
            is_found = true;
        } else if !partner.is_tentative() {
            return false;
        }
    }
    true
}

/// Asks each for its number: all of them, or none if an allocation fails.
pub(crate) fn request(
    alloc: Global,
    partners: &[Partner],
    outs: &mut Outs,
) -> Result<(), AllocError>
    ensures ok { OnOk result (outs.new ≡ outs.old ++ requests partners.now) }
    ensures err { OnErr result (outs.new ≡ outs.old) }
{
    let before = outs.as_slice().len();
    for partner in partners {
        if let Err(refused) = outs.tell(
            alloc,
            partner.entity(),
            Message::Request(partner.number()),
        ) {
            // All or none: no partner may be asked for an order that isn't placed.
            outs.truncate(before);
            return Err(refused);
        }
    }
    Ok(())
}

/// Sends a message to each partner: to all of them, or to none if an allocation fails.
pub(crate) fn tell_all(
    alloc: Global,
    partners: &[Partner],
    message: &Message,
    outs: &mut Outs,
) -> Result<(), AllocError>
    ensures ok { OnOk result (outs.new ≡ outs.old ++ to_all message.now partners.now) }
    ensures err { OnErr result (outs.new ≡ outs.old) }
    ensures sends { OnErr result (to_all message.now partners.now ≢ []) }
{
    let before = outs.as_slice().len();
    for partner in partners {
        if let Err(refused) = outs.tell(alloc, partner.entity(), *message) {
            outs.truncate(before);
            return Err(refused);
        }
    }
    Ok(())
}

/// Sends a message to each partner but the sender: to all of them, or to none if an allocation fails.
pub(crate) fn tell_others(
    alloc: Global,
    partners: &[Partner],
    sender: &Entity,
    message: &Message,
    outs: &mut Outs,
) -> Result<(), AllocError>
    ensures ok { OnOk result (outs.new ≡ outs.old ++ to_others sender.now message.now partners.now) }
    ensures err { OnErr result (outs.new ≡ outs.old) }
    ensures sends { OnErr result (to_others sender.now message.now partners.now ≢ []) }
{
    let before = outs.as_slice().len();
    for partner in partners {
        if partner.is(sender) {
            continue;
        }
        if let Err(refused) = outs.tell(alloc, partner.entity(), *message) {
            outs.truncate(before);
            return Err(refused);
        }
    }
    Ok(())
}

/// The partner that sent something is in this phase from now on.
pub(crate) fn set_phase(partners: &mut [Partner], sender: &Entity, phase: Phase)
    ensures { partners.new ≡ with_phase sender.now phase partners.old }
{
    for index in 0..partners.len() {
        if partners[index].is(sender) {
            partners[index].set_phase(phase);
            return;
        }
    }
}

/// All are in this phase from now on.
pub(crate) fn set_all(partners: &mut [Partner], phase: Phase)
    ensures { partners.new ≡ all_in phase partners.old }
{
    for partner in partners.iter_mut() {
        partner.set_phase(phase);
    }
}
