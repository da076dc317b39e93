//! Stocks: what the service warehouse does with what they process.
//!
//! The code is the table of stocks' reactions: what an order asks for is held where enough is there and free, and
//! refused where not; a confirm ships what is held, and a cancel sets it free. Nothing that came in is lost or used
//! twice, whatever comes. After a refusal, or if an allocation fails, nothing has changed, and only what changes a line
//! allocates.
//!
//! ```rust
//! pub fn so_much_is_on_hand(alloc: Global, quantity: u64) -> Result<u64, HandlerFault> {
//!     let mut stock = Stocks::opening(alloc)?;
//!     let mut outs = Outs::new(alloc);
//!     let input = Input::FromSeat(0, StockCommand::Receive(quantity));
//!     Stocks::apply(alloc, &mut stock, &input, &mut outs)?;
//!     Ok(stock.on_hand())
//! }
//! ```
//!
//! The answer is what came in; or the refusal `OutOfRange` for 0 and for more than 2^40.
#![tactic(auto)]

mod stock;
mod stocks;

pub use stock::Stock;
pub use stocks::Stocks;
