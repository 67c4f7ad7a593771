ghost use Rattle.std.specs.Prelude.{◌≡◌};
ghost use Rattle.fare_desk.specs.Faults.{named_billing, named_fault, of_bill, of_retiring, of_store};
ghost use Rattle.fare_desk.specs.declared.fault.DeskFault.TheVariants.{Memory};

use fare_owner::RetireFault;
use fare_record::DeviceId;
use fare_sessions::{BillingFault, RetiringFault};
use fare_store::{Fault, Refused};
use fare_world::BillFault;
use std::alloc::{AllocError, AllocFailed};
use thiserror::Error;

/// Why a question or an order of an operator came to nothing, in the order in which this is found. Its text is that of
/// the reply to the same event of a trace, where there is one.
#[derive(Clone, Copy, PartialEq, Eq, Debug, Error)]
pub enum DeskFault {
    /// The owner is not registered.
    #[error("refused UnknownOwner")]
    UnknownOwner,
    /// The device is not registered.
    #[error("refused UnknownDevice")]
    UnknownDevice,
    /// The day is before the scheme's first one.
    #[error("refused BeforeStart")]
    BeforeStart,
    /// Of this device not all taps of the day's week are held, the first such one in order of registration.
    #[error("refused Forgotten {}", .device.get())]
    Forgotten { device: DeviceId },
    /// The owner has neither closed the day of this device nor retired its lane, the first such one in order of
    /// registration.
    #[error("refused NotClosed {}", .device.get())]
    NotClosed { device: DeviceId },
    /// The owner has retired its lane of the device before.
    #[error("refused Retired")]
    Retired,
    /// There was no memory.
    #[error("no memory")]
    Memory,
    /// A store failed.
    #[error("store failed")]
    Store,
    /// The writer failed. How much it took is not said.
    #[error("write failed")]
    Write,
}

impl From<AllocError> for DeskFault {
    ghost from_gives = { λ _ e. e ≡ Memory };

    fn from(_error: AllocError) -> DeskFault {
        DeskFault::Memory
    }
}

impl<T: Drop> From<AllocFailed<T>> for DeskFault {
    ghost from_gives = { λ _ e. e ≡ Memory };

    fn from(_error: AllocFailed<T>) -> DeskFault {
        DeskFault::Memory
    }
}

impl From<Fault> for DeskFault {
    ghost from_gives = { λ fault e. e ≡ of_store fault };

    fn from(fault: Fault) -> DeskFault {
        match fault {
            Fault::Memory => DeskFault::Memory,
            Fault::Store => DeskFault::Store,
        }
    }
}

// The refusal of a bill, by its name.
fn of_name(why: BillFault) -> DeskFault
    ensures { result ≡ named_fault why }
{
    match why {
        BillFault::UnknownOwner => DeskFault::UnknownOwner,
        BillFault::BeforeStart => DeskFault::BeforeStart,
        BillFault::NotClosed { device } => DeskFault::NotClosed { device },
    }
}

// The same, and that taps of the week were let go.
fn of_billing(why: BillingFault) -> DeskFault
    ensures { result ≡ named_billing why }
{
    match why {
        BillingFault::Unbilled(why) => of_name(why),
        BillingFault::Forgotten { device } => DeskFault::Forgotten { device },
    }
}

// Why there is no bill.
impl From<Refused<BillingFault>> for DeskFault {
    ghost from_gives = { λ refused e. e ≡ of_bill refused };

    fn from(refused: Refused<BillingFault>) -> DeskFault {
        match refused {
            Refused::Because(why) => of_billing(why),
            Refused::Failed(fault) => DeskFault::from(fault),
        }
    }
}

// Why a lane wasn't retired. A ledger that doesn't know a device of the scheme is none of this scheme's: `Store`.
impl From<Refused<RetiringFault>> for DeskFault {
    ghost from_gives = { λ refused e. e ≡ of_retiring refused };

    fn from(refused: Refused<RetiringFault>) -> DeskFault {
        match refused {
            Refused::Because(RetiringFault::UnknownOwner) => DeskFault::UnknownOwner,
            Refused::Because(RetiringFault::Ledger(RetireFault::NotMine)) => DeskFault::Store,
            Refused::Because(RetiringFault::Ledger(RetireFault::Retired)) => DeskFault::Retired,
            Refused::Failed(fault) => DeskFault::from(fault),
        }
    }
}
