//! The end of an owner's lane of a device, on the hub's ledgers.
ghost use Rattle.std.specs.Prelude.{◌≡◌, ◌≢◌, ◌↔◌, ℕ, List, None, Err};
ghost use Rattle.fare_record.specs.Values.{RecordValue};
ghost use Rattle.fare_scheme.specs.Words.{position_of_owner};
ghost use Rattle.fare_store.specs.declared.fault.Refused.TheVariants.{Because};
ghost use Rattle.fare_agreement.specs.Agreeing.{AreNumberedLists};
ghost use Rattle.fare_sessions.specs.Retiring.{EndsLane, HasRetired};
ghost use Rattle.fare_sessions.specs.Stores.{HasLedgers, AreClean, AreSound, StoresFollow, IsAgreed, HasGrown};

use crate::hub::Hub;
use fare_owner::RetireFault;
use fare_record::{DeviceId, OwnerId};
use fare_store::{Ledger, Outbox, Refused};
use thiserror::Error;

/// Why a lane wasn't retired, in the order in which this is tested.
#[derive(Clone, Copy, PartialEq, Eq, Debug, Error)]
pub enum RetiringFault {
    /// The owner is not registered.
    #[error("the owner isn't registered")]
    UnknownOwner,
    /// Its ledger refused it.
    #[error("the owner's ledger refused to retire the lane")]
    Ledger(RetireFault),
}

impl<O: Outbox, L: Ledger> Hub<O, L> {
    /// Retires an owner's lane of a device, for good: nothing more of the device is taken, and no day of it closed.
    ///
    /// Refused by the first case of `RetiringFault` that applies; then `Memory` where there was none for it, and `Store`
    /// where the ledger failed. A retire that failed may be committed.
    pub fn retire(&mut self, owner: OwnerId, device: DeviceId) -> Result<(), Refused<RetiringFault>>
        requires ledgers { HasLedgers self.old }
        ensures unknown { (result ≡ Err (Because RetiringFault.UnknownOwner)) ↔ (position_of_owner self.old.scheme owner ≡ None) }
        ensures unasked { position_of_owner self.old.scheme owner ≡ None → self.new ≡ self.old }
        ensures retires { position_of_owner self.old.scheme owner ≢ None → HasRetired L.standing self.old self.new owner device result }
        ensures scheme { self.new.scheme ≡ self.old.scheme }
        ensures follow { StoresFollow O.standing L.standing self.old self.new }
        ensures sound { AreSound O.standing L.standing self.old → AreSound O.standing L.standing self.new }
        ensures agrees { AreClean O.standing L.standing self.new → AreSound O.standing L.standing self.old → (lists : ℕ → List RecordValue) → AreNumberedLists lists → IsAgreed O.standing L.standing lists self.old → IsAgreed O.standing L.standing lists self.new }
        ensures grows { AreClean O.standing L.standing self.new → AreSound O.standing L.standing self.old → (lists : ℕ → List RecordValue) → AreNumberedLists lists → IsAgreed O.standing L.standing lists self.old → HasGrown O.standing L.standing self.old self.new }
    {
        let Some(at) = self.scheme.owner_position(owner) else {
            return Err(Refused::Because(RetiringFault::UnknownOwner));
        };
        end_lane(&mut self.ledgers[at], device)
    }
}

// Asks a ledger to retire its lane of a device.
fn end_lane<L: Ledger>(ledger: &mut L, device: DeviceId) -> Result<(), Refused<RetiringFault>>
    ensures { EndsLane L.standing ledger.old ledger.new device result }
{
    match ledger.retire(device) {
        Ok(()) => Ok(()),
        Err(Refused::Because(why)) => Err(Refused::Because(RetiringFault::Ledger(why))),
        Err(Refused::Failed(fault)) => Err(Refused::Failed(fault)),
    }
}
