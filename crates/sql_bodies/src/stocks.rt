//! What stocks are asked for, as texts.

ghost use Rattle.std.specs.Prelude.{◌≡◌, Some, IfOk, string_bytes};
ghost use Rattle.serde_json.specs.View.{view};
ghost use Rattle.sql_bodies.specs.Bodies.{stock_body, stock_data, IsStockCommand};
ghost use Rattle.sql_bodies.specs.Reading.{read_stock_command};

use crate::CommandBody;
use crate::members::{numbered_in, parsed};
use serde_json::{Value, json};
use std::alloc::{AllocError, Global};
use trade::StockCommand;

/// The object that stands for a command.
fn stock_value(alloc: Global, command: &StockCommand) -> Result<Value, AllocError>
    ensures value { IfOk result (λ v. view v ≡ stock_data command.now) }
    ensures command { IsStockCommand command.now }
{
    match command {
        StockCommand::Receive(quantity) => json!(in alloc; {"n": *quantity, "op": "receive"}),
    }
}

/// The text that stands for a command.
fn stock_text(alloc: Global, command: &StockCommand) -> Result<String, AllocError>
    ensures text { IfOk result (λ s. string_bytes s ≡ stock_body command.now) }
    ensures reads { IfOk result (λ s. read_stock_command (string_bytes s) ≡ Some command.now) }
{
    stock_value(alloc, command)?.to_string(alloc)
}

// `{"n":10,"op":"receive"}`.
impl CommandBody for StockCommand {
    ghost use Rattle.sql_bodies.specs.Bodies.{stock_body};
    ghost use Rattle.sql_bodies.specs.Reading.{read_stock_command};

    ghost written = { stock_body };

    ghost read = { read_stock_command };

    fn body(&self, alloc: Global) -> Result<String, AllocError> {
        stock_text(alloc, self)
    }

    fn of_body(alloc: Global, body: &str) -> Result<Option<StockCommand>, AllocError> {
        let Some(value) = parsed(alloc, body)? else {
            return Ok(None);
        };
        let Some(quantity) = numbered_in(&value, "receive") else {
            return Ok(None);
        };
        let command = StockCommand::Receive(quantity);
        // Written again and compared: a further member, or another spelling of the object, is no command's.
        if stock_text(alloc, &command)?.as_str() == body {
            Ok(Some(command))
        } else {
            Ok(None)
        }
    }
}
