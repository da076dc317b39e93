//! What version 1 kept of orders: the body of a placing told its one line beside the account, and not in a list.

ghost use Rattle.std.specs.Prelude.{◌≡◌, IfOk, string_bytes};
ghost use Rattle.serde_json.specs.View.{view};
ghost use Rattle.sql_bodies.specs.FirstVersion.{first_order_body, first_order_data};
ghost use Rattle.sql_bodies.specs.FirstVersion.{first_place_in, first_order_in, read_first_order_command};

use crate::members::{key_at, number_at, parsed, text_at};
use crate::orders::line_of;
use serde_json::{Value, json};
use std::alloc::{AllocError, Global};
use trade::{Items, OrderCommand};

/// The object that stood for a command; `null` for a placing that version 1 didn't have.
fn first_order_value(alloc: Global, command: &OrderCommand) -> Result<Value, AllocError>
    ensures { IfOk result (λ v. view v ≡ first_order_data command.now) }
{
    match command {
        OrderCommand::Place {
            lines,
            account,
            amount,
        } => match lines.as_slice() {
            [line] => json!(in alloc; {
                "account": account.as_str(),
                "amount": *amount,
                "n": line.quantity,
                "op": "place",
                "stock": line.stock.as_str()
            }),
            // No command is read from `null`, so such a placing is no body's of version 1.
            _ => Ok(Value::Null),
        },
        OrderCommand::CancelOrder => json!(in alloc; {"op": "cancel_order"}),
    }
}

/// The text that stood for a command.
fn first_order_text(alloc: Global, command: &OrderCommand) -> Result<String, AllocError>
    ensures { IfOk result (λ s. string_bytes s ≡ first_order_body command.now) }
{
    first_order_value(alloc, command)?.to_string(alloc)
}

/// The placing that an object stood for.
fn first_place_of(alloc: Global, value: &Value) -> Result<Option<OrderCommand>, AllocError>
    ensures { IfOk result (λ found. found ≡ first_place_in (view value.now)) }
{
    let Some(amount) = number_at(value, "amount") else {
        return Ok(None);
    };
    let Some(account) = key_at(alloc, value, "account")? else {
        return Ok(None);
    };
    // The one line had its members beside the account: the object itself is read as a line.
    let Some(line) = line_of(alloc, value)? else {
        return Ok(None);
    };
    let lines = Items::of_one(alloc, line.stock, line.quantity)?;
    Ok(Some(OrderCommand::Place {
        lines,
        account,
        amount,
    }))
}

/// The command that an object stood for.
fn first_order_of(alloc: Global, value: &Value) -> Result<Option<OrderCommand>, AllocError>
    ensures { IfOk result (λ found. found ≡ first_order_in (view value.now)) }
{
    match text_at(value, "op") {
        Some("place") => first_place_of(alloc, value),
        Some("cancel_order") => Ok(Some(OrderCommand::CancelOrder)),
        _ => Ok(None),
    }
}

/// The command of an order whose body this was in version 1, a placing with one line; `None` where it was no command's,
/// as in another spelling of the same object or in today's form.
///
/// # Errors
/// If an allocation fails.
// `{"account":"ann","amount":500,"n":3,"op":"place","stock":"bolt"}` and `{"op":"cancel_order"}`.
pub fn read_first_order_command(
    alloc: Global,
    body: &str,
) -> Result<Option<OrderCommand>, AllocError>
    ensures { IfOk result (λ found. found ≡ read_first_order_command body.now) }
{
    let Some(value) = parsed(alloc, body)? else {
        return Ok(None);
    };
    let Some(command) = first_order_of(alloc, &value)? else {
        return Ok(None);
    };
    // Written again and compared: a further member, another spelling, and a body of today's form are refused.
    if first_order_text(alloc, &command)?.as_str() == body {
        Ok(Some(command))
    } else {
        Ok(None)
    }
}
