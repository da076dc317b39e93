//! The services that have tables.

ghost use Rattle.std.specs.Prelude.{◌≡◌};
ghost use Rattle.sql_rows.specs.Schema.{name_of};

/// Whose tables they are.
#[derive(Debug, Clone, Copy, PartialEq, Eq, Drop)]
pub enum Service {
    /// Orders, in heads and lines.
    Purchasing,
    /// Stocks, and the lines of orders at each.
    Warehouse,
    /// Accounts, and the lines of orders at each.
    Billing,
}

impl Service {
    /// The service's name in the table `about`.
    pub fn name(self) -> &'static str
        ensures { result.now ≡ name_of self }
    {
        match self {
            Service::Purchasing => "purchasing",
            Service::Warehouse => "warehouse",
            Service::Billing => "billing",
        }
    }
}
