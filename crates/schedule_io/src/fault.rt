//! Why a schedule ended before its end.

ghost use Rattle.std.specs.Prelude.{◌≡◌};
ghost use Rattle.schedule_io.specs.StoresFaults.{fault_in, line_of, reason_of, service_of};

use keep::KeepFault;
use schedule_text::ScheduleFault;
use thiserror::Error;

/// A store couldn't be opened: of which service, and why not.
#[derive(Clone, Copy, Debug, PartialEq, Eq, Error)]
pub enum StoresFault {
    /// That of the service that has the orders.
    #[error("{}{}", self.service(), self.reason())]
    Purchasing(KeepFault),
    /// That of the service that has the stocks.
    #[error("{}{}", self.service(), self.reason())]
    Warehouse(KeepFault),
    /// That of the service that has the accounts.
    #[error("{}{}", self.service(), self.reason())]
    Billing(KeepFault),
}

impl StoresFault {
    /// Why not.
    fn fault(self) -> KeepFault
        ensures { result ≡ fault_in self }
    {
        let (StoresFault::Purchasing(fault)
        | StoresFault::Warehouse(fault)
        | StoresFault::Billing(fault)) = self;
        fault
    }

    /// Why not in words, as they follow the service's name.
    pub(crate) fn reason(self) -> &'static str
        ensures { result.now ≡ reason_of self }
    {
        match self.fault() {
            KeepFault::Failed => {
                ": the file can't be opened, is damaged, or another program has it"
            }
            KeepFault::Memory => ": out of memory at the opening of the file",
            KeepFault::WrongFile => ": the file is of another service or version, or no database",
        }
    }

    /// The fault's own line, and the end of the line of words above it.
    pub(crate) fn line(self) -> &'static str
        ensures { result.now ≡ line_of self }
    {
        match self.fault() {
            // Numbers of stores: `fault 2` is `Memory` here and `Device` of a stream, so the name belongs to the line.
            KeepFault::Failed => "\nfault 1 Failed\n",
            KeepFault::Memory => "\nfault 2 Memory\n",
            KeepFault::WrongFile => "\nfault 3 WrongFile\n",
        }
    }

    /// The service's name.
    pub(crate) fn service(self) -> &'static str
        ensures { result.now ≡ service_of self }
    {
        match self {
            StoresFault::Purchasing(_) => "purchasing",
            StoresFault::Warehouse(_) => "warehouse",
            StoresFault::Billing(_) => "billing",
        }
    }
}

/// Why a schedule ended before its end.
#[derive(Clone, Copy, Debug, PartialEq, Eq, Error)]
pub enum RunFault {
    /// The line of this number, counted from 1, is no event; it's the first such line, and nothing was run.
    #[error("line {0}: bad event")]
    BadEvent(u64),
    /// A growth was refused before the first line ran.
    #[error("fault 81 Memory")]
    Memory,
    /// The reader or a writer failed.
    #[error("fault 2 Device")]
    Device,
    /// A service's store couldn't be opened, and nothing was run.
    #[error(transparent)]
    Unopened(StoresFault),
}

impl From<ScheduleFault> for RunFault {
    ghost use Rattle.schedule_io.specs.RunFaults.{run_fault_of};

    ghost from_gives = { λ read fault. fault ≡ run_fault_of read };

    fn from(fault: ScheduleFault) -> RunFault {
        match fault {
            ScheduleFault::BadEvent(number) => RunFault::BadEvent(number),
            ScheduleFault::Memory => RunFault::Memory,
        }
    }
}

impl From<StoresFault> for RunFault {
    ghost use Rattle.schedule_io.specs.declared.fault.RunFault.TheVariants.{Unopened};

    ghost from_gives = { λ stores fault. fault ≡ Unopened stores };

    fn from(fault: StoresFault) -> RunFault {
        RunFault::Unopened(fault)
    }
}
