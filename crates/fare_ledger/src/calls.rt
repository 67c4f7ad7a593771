ghost use Rattle.std.proofs.Common.{refl, sym, ap, ◌∙◌};
ghost use Rattle.std.proofs.Math.Logic.{∥∥₁_map};
ghost use Rattle.sqlite.specs.Effect.{Database};
ghost use Rattle.fare_tables.specs.Tabled.{left_now};
ghost use Rattle.fare_ledger.specs.Known.{knows};
ghost use Rattle.fare_ledger.specs.Layouts.{schema_in};
ghost use Rattle.fare_ledger.specs.Words.{IsLawful, value_at, stands};

use crate::SqlLedger;
use crate::batching::run_of;
use crate::finding::are_nothing;
use crate::lane::count_before;
use fare_owner::{CloseFault, RetireFault, StatementFault, TapFault};
use fare_record::{Day, DeviceId, OwnerId, Record, Statement};
use fare_store::{Fault, ForgetFault, Ledger, Refused};
use sqlite::Alter;

impl<S: Alter> Ledger for SqlLedger<S> {
    ghost standing = { λ l. stands S.Store l };

    ghost sound = { λ l. record { clean = λ live. live.0; settled = λ live lawful v leaves. sym leaves.2 ∙ ap (value_at l.layout l.owner l.start (knows l.devices)) (S.Store.settled l.conn.store leaves.0 live.1 leaves.1 ∙ sym (ap (λ (d : Database). d.trees) lawful.fit.rest.settled)); lasting = λ live lawful. record { each = λ trees leaves. left_now (schema_in l.layout) (IsLawful l.layout l.owner l.start) (IsLawful l.layout l.owner l.start) _ (λ fits. fits) lawful trees (S.Store.settled l.conn.store trees live.1 leaves) }; some = λ clean. ∥∥₁_map (S.Store.survives l.conn.store clean) (λ left. (value_at l.layout l.owner l.start (knows l.devices) left.0, (left.0, left.1, refl))) } };

    fn owner(&self) -> OwnerId {
        self.owner
    }

    fn is_empty(&mut self) -> Result<bool, Fault> {
        self.begin()?;
        let unbegun = self.none_begun()?;
        let uncut = self.none_cut()?;
        let unstated = self.no_statements()?;
        let unretired = self.none_retired()?;
        Ok(are_nothing(unbegun, uncut, unstated, unretired))
    }

    fn count(&mut self, device: DeviceId) -> Result<u64, Fault> {
        self.begin()?;
        let lane = self.numbers_of(device)?;
        Ok(lane.taken)
    }

    fn day_count(&mut self, device: DeviceId, day: Day) -> Result<u64, Fault> {
        self.begin()?;
        self.count_of_day(device, day)
    }

    fn closed_through(&mut self, device: DeviceId) -> Result<Option<Day>, Fault> {
        self.begin()?;
        self.last_closed(device)
    }

    fn stated(&mut self, device: DeviceId, day: Day) -> Result<Option<u64>, Fault> {
        self.begin()?;
        self.stated_of(device, day)
    }

    fn retired(&mut self, device: DeviceId) -> Result<bool, Fault> {
        self.begin()?;
        self.retired_of(device)
    }

    fn take(&mut self, row: &Record) -> Result<(), Refused<TapFault>> {
        if !self.is_mine(row.owner(), row.device()) {
            return Err(Refused::Because(TapFault::NotMine));
        }
        match self.judge_take(row)? {
            Err(why) => Err(Refused::Because(why)),
            Ok(closed) => Ok(self.put_tap(row, closed)?),
        }
    }

    fn take_all(&mut self, rows: &[Record]) -> Result<usize, Fault> {
        if rows.is_empty() {
            self.begin()?;
            return Ok(0);
        }
        let start = self.start;
        let first = &rows[0];
        if !self.is_mine(first.owner(), first.device()) {
            self.begin()?;
            return Ok(0);
        }
        let Ok(closed) = self.judge_take(first)? else {
            return Ok(0);
        };
        let count = run_of(first, &rows[1..], start, closed) + 1;
        self.put_taps(&rows[..count], closed)?;
        Ok(count)
    }

    fn state(&mut self, statement: &Statement) -> Result<(), Refused<StatementFault>> {
        if !self.is_mine(statement.owner(), statement.device()) {
            return Err(Refused::Because(StatementFault::NotMine));
        }
        match self.judge_state(statement)? {
            Err(why) => Err(Refused::Because(why)),
            Ok(()) => Ok(self.put_statement(statement)?),
        }
    }

    fn close(&mut self, device: DeviceId, day: Day) -> Result<(), Refused<CloseFault>> {
        match self.judge_day(device, day)? {
            Err(why) => Err(Refused::Because(why)),
            Ok(lane) => Ok(self.put_close(device, &lane)?),
        }
    }

    fn retire(&mut self, device: DeviceId) -> Result<(), Refused<RetireFault>> {
        if !self.knows(device) {
            return Err(Refused::Because(RetireFault::NotMine));
        }
        match self.judge_lane(device)? {
            Err(why) => Err(Refused::Because(why)),
            Ok(()) => Ok(self.put_retired(device)?),
        }
    }

    fn forget(&mut self, device: DeviceId, day: Day) -> Result<(), Refused<ForgetFault>> {
        if !self.knows(device) {
            return Err(Refused::Because(ForgetFault::UnknownDevice));
        }
        match self.judge_forget(device, day)? {
            Err(why) => Err(Refused::Because(why)),
            Ok(cut) => Ok(self.put_forget(device, day, &cut)?),
        }
    }

    fn held_from(&mut self, device: DeviceId) -> Result<Day, Fault> {
        self.begin()?;
        self.held_since(device)
    }

    fn gone(&mut self, device: DeviceId) -> Result<u64, Fault> {
        self.begin()?;
        let lane = self.numbers_of(device)?;
        let kept = self.first_kept(device, Day::FIRST)?;
        Ok(count_before(kept, lane.taken))
    }

    fn taps_between(&mut self, from: Day, to: Day) -> Result<Vec<Record>, Fault> {
        self.begin()?;
        self.listed(from, to)
    }
}
