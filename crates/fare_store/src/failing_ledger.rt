ghost use Rattle.std.specs.Prelude.{◌≡◌, ◌≤◌};
ghost use Rattle.std.proofs.Common.{refl};
ghost use Rattle.fare_store.specs.Standing.{plain};
ghost use Rattle.fare_store.specs.Failing.{failing};
ghost use Rattle.fare_store.specs.PlainLedgerWords.{plain_ledger};

use crate::failing::fails_now;
use crate::{Fault, ForgetFault, Ledger, PlainLedger, Refused};
use fare_owner::{CloseFault, RetireFault, StatementFault, TapFault};
use fare_record::{Day, DeviceId, OwnerId, Record, Statement};

/// A ledger in memory that fails at one of its calls, for tests: that call answers `Store` and does nothing, and all
/// others are passed on to the ledger inside. Every call of `Ledger` counts but `owner`, and those that ask nothing of a
/// store: of `take`, `state` and `retire` that are answered `NotMine`, of `forget` that are answered `UnknownDevice`.
///
/// Its count of failures is one once that call was made.
#[derive(Drop)]
pub struct FailingLedger {
    ledger: PlainLedger,
    // How many calls there are up to the one that fails, itself included.
    left: u64,
}

impl FailingLedger {
    /// One that fails at this call, counted from 1.
    pub fn new(ledger: PlainLedger, call: u64) -> FailingLedger
        requires { 1 ≤ call }
        ensures ledger { result.ledger ≡ ledger }
        ensures call { result.left ≡ call }
    {
        FailingLedger { ledger, left: call }
    }
}

impl Ledger for FailingLedger {
    ghost standing = { λ l. failing l.left (plain (plain_ledger l.ledger)) };

    ghost sound = { λ l. record { clean = λ h. h; settled = λ live lawful v e. e; lasting = λ live lawful. tt; some = λ clean. ∣ (plain_ledger l.ledger, refl) ∣₁ } };

    fn owner(&self) -> OwnerId {
        self.ledger.owner()
    }

    fn is_empty(&mut self) -> Result<bool, Fault> {
        if fails_now(&mut self.left) {
            return Err(Fault::Store);
        }
        self.ledger.is_empty()
    }

    fn count(&mut self, device: DeviceId) -> Result<u64, Fault> {
        if fails_now(&mut self.left) {
            return Err(Fault::Store);
        }
        self.ledger.count(device)
    }

    fn day_count(&mut self, device: DeviceId, day: Day) -> Result<u64, Fault> {
        if fails_now(&mut self.left) {
            return Err(Fault::Store);
        }
        self.ledger.day_count(device, day)
    }

    fn closed_through(&mut self, device: DeviceId) -> Result<Option<Day>, Fault> {
        if fails_now(&mut self.left) {
            return Err(Fault::Store);
        }
        self.ledger.closed_through(device)
    }

    fn stated(&mut self, device: DeviceId, day: Day) -> Result<Option<u64>, Fault> {
        if fails_now(&mut self.left) {
            return Err(Fault::Store);
        }
        self.ledger.stated(device, day)
    }

    fn retired(&mut self, device: DeviceId) -> Result<bool, Fault> {
        if fails_now(&mut self.left) {
            return Err(Fault::Store);
        }
        self.ledger.retired(device)
    }

    fn take(&mut self, row: &Record) -> Result<(), Refused<TapFault>> {
        if !self.ledger.is_mine(row.owner(), row.device()) {
            return self.ledger.take(row);
        }
        if fails_now(&mut self.left) {
            return Err(Refused::Failed(Fault::Store));
        }
        self.ledger.take(row)
    }

    fn take_all(&mut self, rows: &[Record]) -> Result<usize, Fault> {
        if fails_now(&mut self.left) {
            return Err(Fault::Store);
        }
        self.ledger.take_all(rows)
    }

    fn state(&mut self, statement: &Statement) -> Result<(), Refused<StatementFault>> {
        if !self.ledger.is_mine(statement.owner(), statement.device()) {
            return self.ledger.state(statement);
        }
        if fails_now(&mut self.left) {
            return Err(Refused::Failed(Fault::Store));
        }
        self.ledger.state(statement)
    }

    fn close(&mut self, device: DeviceId, day: Day) -> Result<(), Refused<CloseFault>> {
        if fails_now(&mut self.left) {
            return Err(Refused::Failed(Fault::Store));
        }
        self.ledger.close(device, day)
    }

    fn retire(&mut self, device: DeviceId) -> Result<(), Refused<RetireFault>> {
        if !self.ledger.knows(device) {
            return self.ledger.retire(device);
        }
        if fails_now(&mut self.left) {
            return Err(Refused::Failed(Fault::Store));
        }
        self.ledger.retire(device)
    }

    fn forget(&mut self, device: DeviceId, day: Day) -> Result<(), Refused<ForgetFault>> {
        if !self.ledger.knows(device) {
            return self.ledger.forget(device, day);
        }
        if fails_now(&mut self.left) {
            return Err(Refused::Failed(Fault::Store));
        }
        self.ledger.forget(device, day)
    }

    fn held_from(&mut self, device: DeviceId) -> Result<Day, Fault> {
        if fails_now(&mut self.left) {
            return Err(Fault::Store);
        }
        self.ledger.held_from(device)
    }

    fn gone(&mut self, device: DeviceId) -> Result<u64, Fault> {
        if fails_now(&mut self.left) {
            return Err(Fault::Store);
        }
        self.ledger.gone(device)
    }

    fn taps_between(&mut self, from: Day, to: Day) -> Result<Vec<Record>, Fault> {
        if fails_now(&mut self.left) {
            return Err(Fault::Store);
        }
        self.ledger.taps_between(from, to)
    }
}
