//! The close of an owner's day of a device, on the hub's ledgers.
ghost use Rattle.std.specs.Prelude.{◌≡◌, ◌≢◌, ◌↔◌, ◌<◌, ℕ, List, None, Err, IfOk, IfSome, IfNone};
ghost use Rattle.fare_record.specs.Values.{RecordValue};
ghost use Rattle.fare_scheme.specs.Words.{position_of_owner};
ghost use Rattle.fare_store.specs.declared.fault.Refused.TheVariants.{Because};
ghost use Rattle.fare_store.specs.Standing.{Reads, fault_of};
ghost use Rattle.fare_history.specs.Stores.{StoresValue};
ghost use Rattle.fare_agreement.specs.Agreeing.{AreNumberedLists};
ghost use Rattle.fare_sessions.specs.Billing.{ClosesDay, HasAsked, HasClosed, IsToClose, OnlyReads, day_behind};
ghost use Rattle.fare_sessions.specs.Stores.{HasLedgers, AreClean, AreSound, StoresFollow, MayStandAs, IsAgreed, HasGrown};

use crate::hub::Hub;
use fare_owner::CloseFault;
use fare_record::{Day, DeviceId, OwnerId};
use fare_store::{Fault, Ledger, Outbox, Refused};
use thiserror::Error;

/// Why a day wasn't closed, in the order in which this is tested.
#[derive(Clone, Copy, PartialEq, Eq, Debug, Error)]
pub enum ClosingFault {
    /// The owner is not registered.
    #[error("the owner isn't registered")]
    UnknownOwner,
    /// Its ledger refused the close.
    #[error("the owner's ledger refused the close")]
    Ledger(CloseFault),
}

/// The day behind the last closed one, which is an owner's next to close; the first one where none is closed. None
/// behind the greatest day that there is.
pub fn day_after(last: Option<Day>, start: Day) -> Option<Day>
    ensures day { IfSome result (λ day. day ≡ day_behind last start) }
    ensures none { IfNone result (100000 < day_behind last start) }
{
    match last {
        Some(last) => last.next_day(),
        None => Some(start),
    }
}

// The first day of a device that a ledger hasn't closed, where a statement of it is held.
fn next_stated<L: Ledger>(
    ledger: &mut L,
    start: Day,
    device: DeviceId,
) -> Result<Option<Day>, Fault>
    ensures { Reads (L.standing ledger.old) (L.standing ledger.new) (λ day. (L.standing ledger.old).value.start ≡ start → IsToClose (L.standing ledger.old).value device day) result }
{
    let last = ledger.closed_through(device)?;
    let Some(day) = day_after(last, start) else {
        return Ok(None);
    };
    let count = ledger.stated(device, day)?;
    if count.is_none() {
        return Ok(None);
    }
    Ok(Some(day))
}

impl<O: Outbox, L: Ledger> Hub<O, L> {
    /// The first day of a device that an owner hasn't closed, where a statement of it is held; `None` also where the
    /// owner isn't registered.
    ///
    /// `Memory` where there was none for it, and `Store` where the owner's ledger failed. The stores hold what they
    /// held.
    pub fn next_close(&mut self, owner: OwnerId, device: DeviceId) -> Result<Option<Day>, Fault>
        requires ledgers { HasLedgers self.old }
        ensures reads { OnlyReads O.standing L.standing self.old self.new }
        ensures unknown { position_of_owner self.old.scheme owner ≡ None → IfOk result (λ day. day ≡ None) }
        ensures cause { position_of_owner self.old.scheme owner ≢ None → HasAsked L.standing self.old self.new owner (fault_of result) }
        ensures answer { AreClean O.standing L.standing self.new → AreSound O.standing L.standing self.old → position_of_owner self.old.scheme owner ≢ None → IfOk result (λ day. (h : StoresValue) → MayStandAs O.standing L.standing self.old h → ((h.ledgers owner).start ≡ self.old.scheme.start) × IsToClose (h.ledgers owner) device day) }
    {
        let Some(at) = self.scheme.owner_position(owner) else {
            return Ok(None);
        };
        next_stated(&mut self.ledgers[at], self.scheme.start(), device)
    }

    /// Closes an owner's first day of a device that isn't closed, where the stated count is the count of that day's
    /// taps in its ledger.
    ///
    /// Refused by the first case of `ClosingFault` that applies; then `Memory` where there was none for it, and `Store`
    /// where the ledger failed. A close that failed may be committed.
    pub fn close(
        &mut self,
        owner: OwnerId,
        device: DeviceId,
        day: Day,
    ) -> Result<(), Refused<ClosingFault>>
        requires ledgers { HasLedgers self.old }
        ensures unknown { (result ≡ Err (Because ClosingFault.UnknownOwner)) ↔ (position_of_owner self.old.scheme owner ≡ None) }
        ensures unasked { position_of_owner self.old.scheme owner ≡ None → self.new ≡ self.old }
        ensures closes { position_of_owner self.old.scheme owner ≢ None → HasClosed L.standing self.old self.new owner device day result }
        ensures scheme { self.new.scheme ≡ self.old.scheme }
        ensures follow { StoresFollow O.standing L.standing self.old self.new }
        ensures sound { AreSound O.standing L.standing self.old → AreSound O.standing L.standing self.new }
        ensures agrees { AreClean O.standing L.standing self.new → AreSound O.standing L.standing self.old → (lists : ℕ → List RecordValue) → AreNumberedLists lists → IsAgreed O.standing L.standing lists self.old → IsAgreed O.standing L.standing lists self.new }
        ensures grows { AreClean O.standing L.standing self.new → AreSound O.standing L.standing self.old → (lists : ℕ → List RecordValue) → AreNumberedLists lists → IsAgreed O.standing L.standing lists self.old → HasGrown O.standing L.standing self.old self.new }
    {
        let Some(at) = self.scheme.owner_position(owner) else {
            return Err(Refused::Because(ClosingFault::UnknownOwner));
        };
        prove!(day.get() <= 100_000);
        close_day(&mut self.ledgers[at], device, day)
    }
}

// Asks a ledger to close a day of a device.
fn close_day<L: Ledger>(
    ledger: &mut L,
    device: DeviceId,
    day: Day,
) -> Result<(), Refused<ClosingFault>>
    ensures { ClosesDay L.standing ledger.old ledger.new device day result }
{
    match ledger.close(device, day) {
        Ok(()) => Ok(()),
        Err(Refused::Because(why)) => Err(Refused::Because(ClosingFault::Ledger(why))),
        Err(Refused::Failed(fault)) => Err(Refused::Failed(fault)),
    }
}
