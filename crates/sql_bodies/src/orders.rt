//! What orders are asked for, as texts.

ghost use Rattle.std.specs.Prelude.{◌≡◌, Some, IfOk, codes, string_bytes};
ghost use Rattle.std.specs.List.{AllByRecursion};
ghost use Rattle.std.specs.Option.{option_and_then};
ghost use Rattle.serde_json.specs.Data.{array};
ghost use Rattle.serde_json.specs.Find.{as_array, get};
ghost use Rattle.serde_json.specs.View.{view, items_view};
ghost use Rattle.sql_bodies.specs.Bodies.{order_body, line_data, lines_data, order_data, IsLine, IsOrderCommand};
ghost use Rattle.sql_bodies.specs.Reading.{line_in, lines_in, place_in, order_in, read_order_command};

use crate::CommandBody;
use crate::members::{key_at, number_at, parsed, text_at};
use serde_json::{Value, json};
use std::alloc::{AllocError, Global};
use trade::{Item, Items, OrderCommand};

/// The object that stands for a line.
fn line_value(alloc: Global, line: &Item) -> Result<Value, AllocError>
    ensures value { IfOk result (λ v. view v ≡ line_data line.now) }
    ensures line { IfOk result (λ _. IsLine line.now) }
{
    json!(in alloc; {"n": line.quantity, "stock": line.stock.as_str()})
}

/// The array that stands for lines.
fn lines_value(alloc: Global, lines: &[Item]) -> Result<Value, AllocError>
    ensures value { IfOk result (λ v. view v ≡ array (lines_data lines.now)) }
    ensures lines { IfOk result (λ _. AllByRecursion IsLine lines.now) }
{
    let mut values = Vec::new(alloc);
    for line in lines {
        values.push(line_value(alloc, line)?)?;
    }
    Ok(Value::Array(values))
}

/// The object that stands for a command.
fn order_value(alloc: Global, command: &OrderCommand) -> Result<Value, AllocError>
    ensures value { IfOk result (λ v. view v ≡ order_data command.now) }
    ensures command { IfOk result (λ _. IsOrderCommand command.now) }
{
    match command {
        OrderCommand::Place {
            lines,
            account,
            amount,
        } => {
            let lines = lines_value(alloc, lines.as_slice())?;
            json!(in alloc; {"account": account.as_str(), "amount": *amount, "lines": lines, "op": "place"})
        }
        OrderCommand::CancelOrder => json!(in alloc; {"op": "cancel_order"}),
    }
}

/// The line that an object stands for.
pub(crate) fn line_of(alloc: Global, value: &Value) -> Result<Option<Item>, AllocError>
    ensures { IfOk result (λ found. found ≡ line_in (view value.now)) }
{
    let Some(quantity) = number_at(value, "n") else {
        return Ok(None);
    };
    let Some(stock) = key_at(alloc, value, "stock")? else {
        return Ok(None);
    };
    Ok(Some(Item { stock, quantity }))
}

/// The lines that an array's items stand for.
fn lines_of(alloc: Global, values: &[Value]) -> Result<Option<Items>, AllocError>
    ensures { IfOk result (λ found. found ≡ lines_in (items_view values.now)) }
{
    let mut lines = Vec::new(alloc);
    for value in values {
        let Some(line) = line_of(alloc, value)? else {
            return Ok(None);
        };
        lines.push(line)?;
    }
    // Any number of lines: a bad list is for the handler to refuse.
    Ok(Some(Items::from_vec(lines)))
}

/// The lines under the name `lines` of an object.
fn lines_at(alloc: Global, value: &Value) -> Result<Option<Items>, AllocError>
    ensures { IfOk result (λ found. found
        ≡ option_and_then lines_in (option_and_then as_array (get (codes "lines") (view value.now)))) }
{
    match value.get("lines").and_then(Value::as_array) {
        Some(values) => lines_of(alloc, values),
        None => Ok(None),
    }
}

/// The placing that an object stands for.
fn place_of(alloc: Global, value: &Value) -> Result<Option<OrderCommand>, AllocError>
    ensures { IfOk result (λ found. found ≡ place_in (view value.now)) }
{
    let Some(amount) = number_at(value, "amount") else {
        return Ok(None);
    };
    let Some(account) = key_at(alloc, value, "account")? else {
        return Ok(None);
    };
    let Some(lines) = lines_at(alloc, value)? else {
        return Ok(None);
    };
    Ok(Some(OrderCommand::Place {
        lines,
        account,
        amount,
    }))
}

/// The command that an object stands for.
fn order_of(alloc: Global, value: &Value) -> Result<Option<OrderCommand>, AllocError>
    ensures { IfOk result (λ found. found ≡ order_in (view value.now)) }
{
    match text_at(value, "op") {
        Some("place") => place_of(alloc, value),
        Some("cancel_order") => Ok(Some(OrderCommand::CancelOrder)),
        _ => Ok(None),
    }
}

/// The text that stands for a command.
fn order_text(alloc: Global, command: &OrderCommand) -> Result<String, AllocError>
    ensures text { IfOk result (λ s. string_bytes s ≡ order_body command.now) }
    ensures reads { IfOk result (λ s. read_order_command (string_bytes s) ≡ Some command.now) }
{
    order_value(alloc, command)?.to_string(alloc)
}

// `{"account":"ann","amount":500,"lines":[{"n":3,"stock":"bolt"}],"op":"place"}` and `{"op":"cancel_order"}`.
impl CommandBody for OrderCommand {
    ghost use Rattle.sql_bodies.specs.Bodies.{order_body};
    ghost use Rattle.sql_bodies.specs.Reading.{read_order_command};

    ghost written = { order_body };

    ghost read = { read_order_command };

    fn body(&self, alloc: Global) -> Result<String, AllocError> {
        order_text(alloc, self)
    }

    fn of_body(alloc: Global, body: &str) -> Result<Option<OrderCommand>, AllocError> {
        let Some(value) = parsed(alloc, body)? else {
            return Ok(None);
        };
        let Some(command) = order_of(alloc, &value)? else {
            return Ok(None);
        };
        // Written again and compared: a further member, or another spelling of the object, is no command's.
        if order_text(alloc, &command)?.as_str() == body {
            Ok(Some(command))
        } else {
            Ok(None)
        }
    }
}
