//! How many letters, by the kind of their receiver.

ghost use Rattle.std.specs.Prelude.{◌≡◌};
ghost use Rattle.service_workers.specs.Counts.{count_of, with_count};

use base::Kind;

/// How many letters there are to receivers of each kind.
#[derive(Clone, Copy, Debug, PartialEq, Eq)]
pub(crate) struct Counts {
    // A field for each kind: to count allocates nothing.
    order: usize,
    stock: usize,
    account: usize,
}

impl Counts {
    /// No letters to anyone.
    pub(crate) fn none() -> Counts
        ensures { result ≡ record { order = 0; stock = 0; account = 0 } }
    {
        Counts {
            order: 0,
            stock: 0,
            account: 0,
        }
    }

    /// How many there are to receivers of a kind.
    pub(crate) fn of(&self, kind: Kind) -> usize
        ensures { result ≡ count_of kind self.now }
    {
        match kind {
            Kind::Order => self.order,
            Kind::Stock => self.stock,
            Kind::Account => self.account,
        }
    }

    /// There are so many to receivers of a kind.
    pub(crate) fn set(&mut self, kind: Kind, count: usize)
        ensures { self.new ≡ with_count kind count self.old }
    {
        match kind {
            Kind::Order => self.order = count,
            Kind::Stock => self.stock = count,
            Kind::Account => self.account = count,
        }
    }
}
