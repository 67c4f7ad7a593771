ghost use Rattle.std.specs.Prelude.{◌≡◌};
ghost use Rattle.fare_store.specs.declared.fault.Fault.TheVariants.{Memory};
ghost use Rattle.fare_store.specs.declared.fault.Refused.TheVariants.{Failed};

use std::alloc::{AllocError, AllocFailed};
use thiserror::Error;

/// Why a call of a store failed, in the order in which this is tested: after all refusals by name.
#[derive(Clone, Copy, PartialEq, Eq, Debug, Error)]
pub enum Fault {
    /// No memory is left for it.
    #[error("out of memory")]
    Memory,
    /// The store failed or refused. A store in memory never answers this.
    #[error("the store failed")]
    Store,
}

impl From<AllocError> for Fault {
    ghost from_gives = { λ _ fault. fault ≡ Memory };

    fn from(_: AllocError) -> Fault {
        Fault::Memory
    }
}

impl<T: Drop> From<AllocFailed<T>> for Fault {
    ghost from_gives = { λ _ fault. fault ≡ Memory };

    fn from(_: AllocFailed<T>) -> Fault {
        Fault::Memory
    }
}

/// Why a call didn't change a store: it was refused by name, or it failed.
#[derive(Clone, Copy, PartialEq, Eq, Debug)]
pub enum Refused<R> {
    /// It was refused for this reason, the first that applies.
    Because(R),
    /// It failed.
    Failed(Fault),
}

impl<R> From<Fault> for Refused<R> {
    ghost from_gives = { λ fault refused. refused ≡ Failed fault };

    fn from(fault: Fault) -> Refused<R> {
        Refused::Failed(fault)
    }
}

impl<R> From<AllocError> for Refused<R> {
    ghost from_gives = { λ _ refused. refused ≡ Failed Memory };

    fn from(_: AllocError) -> Refused<R> {
        Refused::Failed(Fault::Memory)
    }
}

/// Why an outbox doesn't store a tap, in the order in which this is tested.
#[derive(Clone, Copy, PartialEq, Eq, Debug, Error)]
pub enum StoreFault {
    /// The device's link was stored before.
    #[error("the link was stored before")]
    Duplicate,
    /// An earlier link of the device comes first.
    #[error("an earlier link comes first")]
    Gap,
    /// A row of that owner, device and lane number is held.
    #[error("a row of that lane number is held")]
    Conflict,
    /// As many rows are held as there may be, 1,000,000.
    #[error("the outbox is full")]
    OutboxFull,
}

/// Why an outbox doesn't store a statement, in the order in which this is tested.
#[derive(Clone, Copy, PartialEq, Eq, Debug, Error)]
pub enum StatedFault {
    /// It is held with this count.
    #[error("the statement was stored before")]
    Duplicate,
    /// It is held with another count.
    #[error("another count was stated")]
    Conflict,
    /// As many statements are held as there may be, 1,000,000.
    #[error("the outbox is full")]
    OutboxFull,
}

/// Why a ledger doesn't let what is of the days before one go, in the order in which this is tested.
#[derive(Clone, Copy, PartialEq, Eq, Debug, Error)]
pub enum ForgetFault {
    /// The device isn't the scheme's.
    #[error("the device isn't the scheme's")]
    UnknownDevice,
    /// A day before it isn't closed, and the lane isn't retired.
    #[error("an earlier day isn't closed")]
    NotClosed,
}

/// Why there is no plain ledger, in the order in which this is tested.
#[derive(Clone, Copy, PartialEq, Eq, Debug, Error)]
pub enum LedgerFault {
    /// The owner isn't registered.
    #[error("the owner isn't registered")]
    UnknownOwner,
    /// No memory is left for it.
    #[error("out of memory")]
    Memory,
}
