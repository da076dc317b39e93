//! Accounts: what the service billing does with what they process.
//!
//! The code is the table of accounts' reactions: what an order asks for is held where the limit leaves as much, and
//! refused where not; a confirm bills what is held, and a cancel sets it free. Nothing of the limit is used twice,
//! whatever comes. After a refusal, or if an allocation fails, nothing has changed, and only what changes a line
//! allocates.
//!
//! ```rust
//! pub fn so_much_is_the_limit(alloc: Global, amount: u64) -> Result<u64, HandlerFault> {
//!     let mut account = Accounts::opening(alloc)?;
//!     let mut outs = Outs::new(alloc);
//!     let input = Input::FromSeat(0, AccountCommand::SetLimit(amount));
//!     Accounts::apply(alloc, &mut account, &input, &mut outs)?;
//!     Ok(account.limit())
//! }
//! ```
//!
//! The answer is the limit; or the refusal `OutOfRange` above 2^40.
#![tactic(auto)]

mod account;
mod accounts;

pub use account::Account;
pub use accounts::Accounts;
