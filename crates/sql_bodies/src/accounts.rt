//! What accounts are asked for, as texts.

ghost use Rattle.std.specs.Prelude.{◌≡◌, Some, IfOk, string_bytes};
ghost use Rattle.serde_json.specs.View.{view};
ghost use Rattle.sql_bodies.specs.Bodies.{account_body, account_data, IsAccountCommand};
ghost use Rattle.sql_bodies.specs.Reading.{read_account_command};

use crate::CommandBody;
use crate::members::{numbered_in, parsed};
use serde_json::{Value, json};
use std::alloc::{AllocError, Global};
use trade::AccountCommand;

/// The object that stands for a command.
fn account_value(alloc: Global, command: &AccountCommand) -> Result<Value, AllocError>
    ensures value { IfOk result (λ v. view v ≡ account_data command.now) }
    ensures command { IsAccountCommand command.now }
{
    match command {
        AccountCommand::SetLimit(limit) => json!(in alloc; {"n": *limit, "op": "set_limit"}),
    }
}

/// The text that stands for a command.
fn account_text(alloc: Global, command: &AccountCommand) -> Result<String, AllocError>
    ensures text { IfOk result (λ s. string_bytes s ≡ account_body command.now) }
    ensures reads { IfOk result (λ s. read_account_command (string_bytes s) ≡ Some command.now) }
{
    account_value(alloc, command)?.to_string(alloc)
}

// `{"n":10,"op":"set_limit"}`.
impl CommandBody for AccountCommand {
    ghost use Rattle.sql_bodies.specs.Bodies.{account_body};
    ghost use Rattle.sql_bodies.specs.Reading.{read_account_command};

    ghost written = { account_body };

    ghost read = { read_account_command };

    fn body(&self, alloc: Global) -> Result<String, AllocError> {
        account_text(alloc, self)
    }

    fn of_body(alloc: Global, body: &str) -> Result<Option<AccountCommand>, AllocError> {
        let Some(value) = parsed(alloc, body)? else {
            return Ok(None);
        };
        let Some(limit) = numbered_in(&value, "set_limit") else {
            return Ok(None);
        };
        let command = AccountCommand::SetLimit(limit);
        // Written again and compared: a further member, or another spelling of the object, is no command's.
        if account_text(alloc, &command)?.as_str() == body {
            Ok(Some(command))
        } else {
            Ok(None)
        }
    }
}
