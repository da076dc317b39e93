//! Why the question wasn't answered.

use endpoint::EndFault;

/// A read wasn't done: at which service, and why.
#[derive(Clone, Copy, Debug, PartialEq, Eq)]
pub enum AuditFault {
    /// A read of the service that has the orders.
    Purchasing(EndFault),
    /// A read of the service that has the stocks.
    Warehouse(EndFault),
    /// A read of the service that has the accounts.
    Billing(EndFault),
}
