ghost use Rattle.std.proofs.Common.{refl};
ghost use Rattle.fare_store.specs.Standing.{plain};
ghost use Rattle.fare_store.specs.PlainLedgerWords.{plain_ledger};

use super::PlainLedger;
use crate::{Fault, ForgetFault, Ledger, Refused};
use fare_owner::{
    CloseFault, RetireFault, StatementFault, TapFault, judge_close, judge_retire, judge_statement,
    judge_tap,
};
use fare_record::{Day, DeviceId, OwnerId, Record, Statement};

impl Ledger for PlainLedger {
    ghost standing = { λ l. plain (plain_ledger l) };

    ghost sound = { λ l. record { clean = λ h. h; settled = λ live lawful v e. e; lasting = λ live lawful. tt; some = λ clean. ∣ (plain_ledger l, refl) ∣₁ } };

    fn owner(&self) -> OwnerId {
        self.owner
    }

    fn is_empty(&mut self) -> Result<bool, Fault> {
        Ok(self.holds_nothing())
    }

    fn count(&mut self, device: DeviceId) -> Result<u64, Fault> {
        Ok(self.held(device))
    }

    fn day_count(&mut self, device: DeviceId, day: Day) -> Result<u64, Fault> {
        Ok(self.held_of(device, day))
    }

    fn closed_through(&mut self, device: DeviceId) -> Result<Option<Day>, Fault> {
        Ok(self.last_closed(device))
    }

    fn stated(&mut self, device: DeviceId, day: Day) -> Result<Option<u64>, Fault> {
        Ok(self.stated_of(device, day))
    }

    fn retired(&mut self, device: DeviceId) -> Result<bool, Fault> {
        Ok(self.is_retired(device))
    }

    fn take(&mut self, row: &Record) -> Result<(), Refused<TapFault>> {
        let (device, day) = (row.device(), row.tap().day());
        let (mine, held) = self.lane_of(row.owner(), device);
        let closed = self.is_closed(device, day);
        let retired = self.is_retired(device);
        match judge_tap(mine, held, closed, row.lane(), retired) {
            Err(why) => Err(Refused::Because(why)),
            Ok(()) => Ok(self.write_tap(row)?),
        }
    }

    fn take_all(&mut self, rows: &[Record]) -> Result<usize, Fault> {
        Ok(self.take_each(rows)?)
    }

    fn state(&mut self, statement: &Statement) -> Result<(), Refused<StatementFault>> {
        let mine = self.is_mine(statement.owner(), statement.device());
        let held = self.stated_of(statement.device(), statement.day());
        let retired = self.is_retired(statement.device());
        match judge_statement(mine, held, statement.count(), retired) {
            Err(why) => Err(Refused::Because(why)),
            Ok(()) => Ok(self.write_statement(statement)?),
        }
    }

    fn close(&mut self, device: DeviceId, day: Day) -> Result<(), Refused<CloseFault>> {
        let stated = self.stated_of(device, day);
        let closed = self.is_closed(device, day);
        let next = self.is_next(device, day);
        let retired = self.is_retired(device);
        match judge_close(stated, closed, next, self.held_of(device, day), retired) {
            Err(why) => Err(Refused::Because(why)),
            Ok(()) => Ok(self.write_close(device, day)?),
        }
    }

    fn retire(&mut self, device: DeviceId) -> Result<(), Refused<RetireFault>> {
        match judge_retire(self.knows(device), self.is_retired(device)) {
            Err(why) => Err(Refused::Because(why)),
            Ok(()) => Ok(self.write_retired(device)?),
        }
    }

    fn forget(&mut self, device: DeviceId, day: Day) -> Result<(), Refused<ForgetFault>> {
        if !self.knows(device) {
            return Err(Refused::Because(ForgetFault::UnknownDevice));
        }
        if !self.is_over_before(device, day) {
            return Err(Refused::Because(ForgetFault::NotClosed));
        }
        Ok(self.let_go(device, day)?)
    }

    fn held_from(&mut self, device: DeviceId) -> Result<Day, Fault> {
        Ok(self.gone_of(device).from)
    }

    fn gone(&mut self, device: DeviceId) -> Result<u64, Fault> {
        Ok(self.gone_count(device))
    }

    fn taps_between(&mut self, from: Day, to: Day) -> Result<Vec<Record>, Fault> {
        Ok(self.between(from, to)?)
    }
}
