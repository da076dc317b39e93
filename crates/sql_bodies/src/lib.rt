//! What tables keep of commands, inputs and states, as texts and numbers.
//!
//! A command's body is JSON with its keys sorted and without spaces. What was written is read as the same command, and
//! what is read is exactly what is written for it: another spelling is nobody's body.
//!
//! ```rust
//! pub fn a_limit_is_written(alloc: Global) -> Result<bool, AllocError> {
//!     let body = AccountCommand::SetLimit(500).body(alloc)?;
//!     Ok(body.as_str() == r#"{"n":500,"op":"set_limit"}"#)
//! }
//! ```
//!
//! The answer is true.
#![tactic(auto)]

mod accounts;
mod columns;
mod command;
mod first_version;
mod laws;
mod members;
mod orders;
mod states;
mod stocks;

pub use columns::{read_entity, read_input, read_message};
pub use command::CommandBody;
pub use first_version::read_first_order_command;
pub use laws::{
    commands_are_read_as_written, first_orders_are_read_as_written, inputs_are_read_as_written,
    rows_are_read_in_any_order, states_are_read_as_written,
};
pub use states::{push_stock, put_account_line, put_stock_line, read_order, read_partner};
