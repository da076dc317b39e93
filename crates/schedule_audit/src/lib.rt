//! Whether the partners of all orders agree, read off the stores of three services.
//!
//! It goes over purchasing's journal. Of each order that has a row there it reads the order, and then its line at each
//! partner, at warehouse and billing: of a confirmed order each is held, or shipped or billed, and of another none is
//! shipped or billed. The answer is exactly that of the tables that the three stores have; no table changes; and where
//! a read isn't done it tells of which service, and why.
//!
//! ```rust
//! pub fn services_without_orders_agree(
//!     alloc: Global,
//!     purchasing: &mut Endpoint<Orders, PlainKeep<Orders>>,
//!     warehouse: &mut Endpoint<Stocks, PlainKeep<Stocks>>,
//!     billing: &mut Endpoint<Accounts, PlainKeep<Accounts>>,
//! ) -> bool {
//!     matches!(
//!         schedule_audit::agreement(alloc, purchasing, warehouse, billing),
//!         Ok(true)
//!     )
//! }
//! ```
//!
//! Where no order was placed the answer is true, unless a read wasn't done.
#![tactic(auto)]

mod auditing;
mod fault;
mod laws;
mod looking;

pub use auditing::agreement;
pub use fault::AuditFault;
pub use laws::lawful_services_agree;
