ghost use Rattle.std.specs.Prelude.{◌≡◌, ◌≢◌, ◌+◌, ◌≤◌, ◌&&◌, nat_lt, not, if◌then◌else◌, Ok, Err, IfOk, OnOk, IsTrue};
ghost use Rattle.sqlite.specs.Held.{state};
ghost use Rattle.fare_record.specs.Limits.{IsCount};
ghost use Rattle.fare_store.specs.Standing.{Reads};
ghost use Rattle.fare_store.specs.declared.fault.ForgetFault.TheVariants as forget_fault;
ghost use Rattle.fare_store.specs.LedgerWords.{is_mine, state_judged, retire_of};
ghost use Rattle.fare_tables.specs.Asking.{IsUp};
ghost use Rattle.fare_ledger.specs.Held.{IsWithin};
ghost use Rattle.fare_ledger.specs.Words.{stands, JudgesTap, JudgesDay, JudgesForget};

use crate::SqlLedger;
use crate::finding::{is_closed, is_next};
use crate::lane::{Cut, Lane, cut_of};
use fare_owner::{
    CloseFault, RetireFault, StatementFault, TapFault, judge_close, judge_retire, judge_statement,
    judge_tap,
};
use fare_record::{Day, DeviceId, Record, Statement};
use fare_store::{Fault, ForgetFault};
use sqlite::Alter;

// Whether what is of a known device's days before this one may go, where so many days are closed.
fn judge_days(retired: bool, start: Day, closed: u64, day: Day) -> Result<(), ForgetFault>
    requires { closed ≤ 100001 }
    ensures judged { result ≡ (if not retired && nat_lt (start + closed) day then Err forget_fault.NotClosed else Ok tt) }
    ensures known { result ≢ Err forget_fault.UnknownDevice }
{
    if !retired && u64::from(start.get()) + closed < u64::from(day.get()) {
        return Err(ForgetFault::NotClosed);
    }
    Ok(())
}

impl<S: Alter> SqlLedger<S> {
    // What is answered to one of the owner's taps before it is taken; if it may be, how many days of its device
    // are closed.
    pub(crate) fn judge_take(&mut self, row: &Record) -> Result<Result<u64, TapFault>, Fault>
        requires mine { IsTrue (is_mine (stands S.Store self.old).value row.now.owner row.now.device) }
        ensures does { Reads (stands S.Store self.old) (stands S.Store self.new) (JudgesTap (stands S.Store self.old).value row.now) result }
        ensures up { IfOk result (λ judged. OnOk judged (IsUp (state S.Store self.new.conn))) }
        ensures low { IfOk result (λ judged. IfOk judged (λ closed. closed ≤ 100001)) }
        ensures mine { result ≢ Ok (Err TapFault.NotMine) }
    {
        let start = self.start;
        self.begin()?;
        let lane = self.numbers_of(row.device())?;
        let retired = self.retired_of(row.device())?;
        let closed = is_closed(start, lane.closed, row.tap().day());
        match judge_tap(true, lane.taken, closed, row.lane(), retired) {
            Ok(()) => Ok(Ok(lane.closed)),
            Err(why) => Ok(Err(why)),
        }
    }

    // What is answered to one of the owner's statements before it is taken.
    pub(crate) fn judge_state(
        &mut self,
        statement: &Statement,
    ) -> Result<Result<(), StatementFault>, Fault>
        requires mine { IsTrue (is_mine (stands S.Store self.old).value statement.now.owner statement.now.device) }
        ensures does { Reads (stands S.Store self.old) (stands S.Store self.new) (λ judged. judged ≡ state_judged (stands S.Store self.old).value statement.now) result }
        ensures up { IfOk result (λ judged. OnOk judged (IsUp (state S.Store self.new.conn))) }
        ensures mine { result ≢ Ok (Err StatementFault.NotMine) }
    {
        self.begin()?;
        let held = self.stated_of(statement.device(), statement.day())?;
        let retired = self.retired_of(statement.device())?;
        Ok(judge_statement(true, held, statement.count(), retired))
    }

    // What is answered to a day before it is closed; if it may be, the numbers of its device.
    pub(crate) fn judge_day(
        &mut self,
        device: DeviceId,
        day: Day,
    ) -> Result<Result<Lane, CloseFault>, Fault>
        ensures does { Reads (stands S.Store self.old) (stands S.Store self.new) (JudgesDay (stands S.Store self.old).value device day) result }
        ensures up { OnOk result (IsUp (state S.Store self.new.conn)) }
        ensures within { IfOk result (λ judged. IfOk judged IsWithin) }
    {
        let start = self.start;
        self.begin()?;
        let stated = self.stated_of(device, day)?;
        let lane = self.numbers_of(device)?;
        let taken = self.count_of_day(device, day)?;
        let retired = self.retired_of(device)?;
        let closed = is_closed(start, lane.closed, day);
        let next = is_next(start, lane.closed, day);
        match judge_close(stated, closed, next, taken, retired) {
            Ok(()) => Ok(Ok(lane)),
            Err(why) => Ok(Err(why)),
        }
    }

    // What is answered to a day before which all of one of the scheme's devices is to go, and what goes.
    pub(crate) fn judge_forget(
        &mut self,
        device: DeviceId,
        day: Day,
    ) -> Result<Result<Cut, ForgetFault>, Fault>
        requires known { IsTrue ((stands S.Store self.old).value.knows device) }
        ensures does { Reads (stands S.Store self.old) (stands S.Store self.new) (JudgesForget (stands S.Store self.old).value device day) result }
        ensures up { OnOk result (IsUp (state S.Store self.new.conn)) }
        ensures within { IfOk result (λ judged. IfOk judged (λ cut. IsCount cut.upto)) }
        ensures known { result ≢ Ok (Err ForgetFault.UnknownDevice) }
    {
        let start = self.start;
        self.begin()?;
        let lane = self.numbers_of(device)?;
        let retired = self.retired_of(device)?;
        let since = self.held_since(device)?;
        let kept = self.first_kept(device, day)?;
        match judge_days(retired, start, lane.closed, day) {
            Ok(()) => Ok(Ok(cut_of(kept, lane.taken, since, day))),
            Err(why) => Ok(Err(why)),
        }
    }

    // What is answered where a lane of one of the scheme's devices is to be retired.
    pub(crate) fn judge_lane(&mut self, device: DeviceId) -> Result<Result<(), RetireFault>, Fault>
        requires mine { IsTrue ((stands S.Store self.old).value.knows device) }
        ensures does { Reads (stands S.Store self.old) (stands S.Store self.new) (λ judged. judged ≡ retire_of (stands S.Store self.old).value device) result }
        ensures up { IfOk result (λ judged. OnOk judged (IsUp (state S.Store self.new.conn))) }
        ensures mine { result ≢ Ok (Err RetireFault.NotMine) }
    {
        self.begin()?;
        let retired = self.retired_of(device)?;
        Ok(judge_retire(true, retired))
    }
}
