//! The handler of the service purchasing.

ghost use Rattle.std.specs.Prelude.{◌≡◌, false, true, None, Ok, Err, IfOk, MatchOption};
ghost use Rattle.activities.specs.Applied.{IsApplied, IsAnswered, IsSending};
ghost use Rattle.base.specs.Number.{is_number};
ghost use Rattle.trade.specs.Orders.{order_reactions};
ghost use Rattle.activities.specs.Reaction.{react};

use crate::Order;
use activities::{Handler, HandlerFault, Input, Outs, Reacting, Refusal, take_in};
use base::{Entity, Key, Kind, Number};
use envelope::Message;
use std::alloc::{AllocError, Global};
use trade::{Items, OrderCommand};

/// What purchasing does with what its orders process.
///
/// An order is none until it is placed. Then it is open until all its partners hold what they were asked for, and is
/// confirmed, or until a partner refuses or a seat gives it up, and is cancelled. An input that sends nothing never
/// wants memory.
pub struct Orders;

impl Handler for Orders {
    ghost use Rattle.std.specs.Prelude.{is_none};
    ghost use Rattle.base.specs.declared.entity.Kind.TheVariants.{Order as OrderKind};
    ghost use Rattle.trade.specs.Orders.{order_reactions};
    ghost use Rattle.purchasing.specs.Parts.Opening.{none_is_none};

    type State = Option<Order>;

    type Command = OrderCommand;

    ghost service = { record { kind = OrderKind; reactions = order_reactions; is_none = is_none } };

    fn kind() -> Kind {
        Kind::Order
    }

    fn opening(_alloc: Global) -> Result<Option<Order>, AllocError>
        ensures { result ≡ Ok None }
    {
        Ok(None)
    }

    fn is_none(state: &Option<Order>) -> bool {
        state.is_none()
    }

    fn copy_state(alloc: Global, state: &Option<Order>) -> Result<Option<Order>, AllocError>
        ensures copy { IfOk result (λ s. s ≡ state.now) }
        ensures none { state.now ≡ None → result ≡ Ok None }
    {
        match state {
            Some(order) => Ok(Some(order.copy(alloc)?)),
            None => Ok(None),
        }
    }

    fn copy_command(alloc: Global, command: &OrderCommand) -> Result<OrderCommand, AllocError>
        ensures copy { IfOk result (λ c. c ≡ command.now) }
        ensures cancel { command.now ≡ OrderCommand.CancelOrder → result ≡ Ok OrderCommand.CancelOrder }
    {
        match command {
            OrderCommand::Place {
                lines,
                account,
                amount,
            } => Ok(OrderCommand::Place {
                lines: lines.copy(alloc)?,
                account: account.copy(alloc)?,
                amount: *amount,
            }),
            OrderCommand::CancelOrder => Ok(OrderCommand::CancelOrder),
        }
    }

    fn apply(
        alloc: Global,
        state: &mut Option<Order>,
        input: &Input<OrderCommand>,
        outs: &mut Outs,
    ) -> Result<(), HandlerFault>
        ensures applied { IsApplied order_reactions state.old input.now outs.old state.new outs.new result }
        ensures memory { result ≡ Err HandlerFault.Memory → IsSending (react order_reactions state.old input.now) }
    {
        take_in::<Orders>(alloc, state, input, outs)
    }

    ghost none_is_opening = { none_is_none };

    ghost follows = { λ old input done is. tt };
}

impl Reacting for Orders {
    ghost use Rattle.trade.specs.Orders.{order_reactions};

    type State = Option<Order>;

    type Command = OrderCommand;

    ghost reactions = { order_reactions };

    fn take_command(
        alloc: Global,
        state: &mut Option<Order>,
        command: &OrderCommand,
        outs: &mut Outs,
    ) -> Result<(), HandlerFault> {
        match command {
            OrderCommand::Place {
                lines,
                account,
                amount,
            } => place(alloc, state, lines, account, *amount, outs),
            OrderCommand::CancelOrder => cancel(alloc, state, outs),
        }
    }

    fn take_message(
        alloc: Global,
        state: &mut Option<Order>,
        sender: &Entity,
        message: Message,
        outs: &mut Outs,
    ) -> Result<(), AllocError> {
        // An order that wasn't placed has asked nobody.
        let Some(order) = state else {
            return Ok(());
        };
        match message {
            Message::Tentative => order.tentative(alloc, sender, outs),
            Message::Refused => order.refused(alloc, sender, outs),
            // No partner sends these. A message is never refused, so they change nothing.
            Message::Request(_) | Message::Confirm | Message::Cancel => Ok(()),
        }
    }
}

/// Places the order and asks its partners, if it wasn't placed before, has one to eight lines, each of another stock,
/// and its numbers are in range.
#[tactic(auto, using(crate::proofs::Lists::placing_sends))]
fn place(
    alloc: Global,
    state: &mut Option<Order>,
    lines: &Items,
    account: &Key,
    amount: u64,
    outs: &mut Outs,
) -> Result<(), HandlerFault>
    ensures { IsAnswered (order_reactions.on_command state.old (OrderCommand.Place lines.now account.now amount))
        state.old outs.old state.new outs.new result }
{
    if state.is_some() {
        return Err(HandlerFault::Business(Refusal::AlreadyPlaced));
    }
    // Before the numbers: that an order is sound follows from its lines alone.
    if !lines.are_lines() {
        return Err(HandlerFault::Business(Refusal::BadLines));
    }
    if !lines.are_numbers() {
        return Err(HandlerFault::Business(Refusal::OutOfRange));
    }
    let Some(amount) = number_in_range(amount) else {
        return Err(HandlerFault::Business(Refusal::OutOfRange));
    };
    let order = Order::open(alloc, lines, account, amount)?;
    order.request(alloc, outs)?;
    // Last: where an allocation fails, nothing is placed and nothing is sent.
    *state = Some(order);
    Ok(())
}

/// A quantity or amount, if it is one that can be asked for: from 1 to 2^40.
fn number_in_range(value: u64) -> Option<Number>
    ensures { MatchOption result (is_number value ≡ false) (λ n. (n ≡ value) × (is_number value ≡ true)) }
{
    Number::new(value)
}

/// Cancels the order and tells its partners, if it is open.
fn cancel(alloc: Global, state: &mut Option<Order>, outs: &mut Outs) -> Result<(), HandlerFault>
    ensures { IsAnswered (order_reactions.on_command state.old OrderCommand.CancelOrder) state.old outs.old state.new
        outs.new result }
{
    match state {
        Some(order) if order.is_open() => Ok(order.cancel(alloc, outs)?),
        // A confirmed order too: its partners were told to take what they hold, and nothing undoes that.
        _ => Err(HandlerFault::Business(Refusal::NotOpen)),
    }
}
