ghost use Rattle.std.specs.Prelude.{◌≡◌, ◌≤◌, None};
ghost use Rattle.fare_record.specs.Limits.{IsCount};
ghost use Rattle.sqlite.specs.Held.{state};
ghost use Rattle.fare_store.specs.Standing.{Calls, Makes, fault_of};
ghost use Rattle.fare_store.specs.LedgerWords.{took, with_statement, with_close, with_retired, forgotten};
ghost use Rattle.fare_tables.specs.Asking.{IsUp};
ghost use Rattle.fare_tables.specs.Tabled.{given};
ghost use Rattle.fare_ledger.specs.Held.{IsWithin};
ghost use Rattle.fare_ledger.specs.Words.{stands, MayTake, MayClose, MayForget};

use crate::SqlLedger;
use crate::forgetting::write_cut;
use crate::lane::{Cut, Lane};
use crate::writing::{write_numbers, write_retired, write_statement, write_tap};
use fare_record::{Day, DeviceId, Record, Statement};
use fare_store::Fault;
use fare_tables::noted;
use sqlite::Alter;

impl<S: Alter> SqlLedger<S> {
    // Takes a tap that may be taken, where so many days of its device are closed.
    pub(crate) fn put_tap(&mut self, row: &Record, closed: u64) -> Result<(), Fault>
        requires up { IsUp (state S.Store self.old.conn) }
        requires low { closed ≤ 100001 }
        ensures { Calls (given (MayTake (stands S.Store self.old).value row.now closed) (stands S.Store self.old)) (stands S.Store self.new) (fault_of result)
            (Makes (stands S.Store self.old).value (stands S.Store self.new).value (took row.now (stands S.Store self.old).value) result) (λ v. v ≡ took row.now (stands S.Store self.old).value) }
    {
        let answer = write_tap(&mut self.conn, &self.layout, row, closed);
        noted(&mut self.failures, answer)
    }

    // Takes a statement that may be taken.
    pub(crate) fn put_statement(&mut self, statement: &Statement) -> Result<(), Fault>
        requires up { IsUp (state S.Store self.old.conn) }
        ensures { Calls (given ((stands S.Store self.old).value.stated statement.now.device statement.now.day ≡ None) (stands S.Store self.old)) (stands S.Store self.new) (fault_of result)
            (Makes (stands S.Store self.old).value (stands S.Store self.new).value (with_statement statement.now (stands S.Store self.old).value) result) (λ v. v ≡ with_statement statement.now (stands S.Store self.old).value) }
    {
        let answer = write_statement(&mut self.conn, &self.layout, statement);
        noted(&mut self.failures, answer)
    }

    // Closes a device's first day that isn't closed, where it may be and these are the device's numbers.
    pub(crate) fn put_close(&mut self, device: DeviceId, lane: &Lane) -> Result<(), Fault>
        requires up { IsUp (state S.Store self.old.conn) }
        requires within { IsWithin lane.now }
        ensures { Calls (given (MayClose (stands S.Store self.old).value device lane.now) (stands S.Store self.old)) (stands S.Store self.new) (fault_of result)
            (Makes (stands S.Store self.old).value (stands S.Store self.new).value (with_close device (stands S.Store self.old).value) result) (λ v. v ≡ with_close device (stands S.Store self.old).value) }
    {
        let answer = write_numbers(
            &mut self.conn,
            &self.layout,
            device,
            lane.taken,
            lane.closed + 1,
        );
        noted(&mut self.failures, answer)
    }

    // Retires a lane.
    pub(crate) fn put_retired(&mut self, device: DeviceId) -> Result<(), Fault>
        requires up { IsUp (state S.Store self.old.conn) }
        ensures { Calls (stands S.Store self.old) (stands S.Store self.new) (fault_of result)
            (Makes (stands S.Store self.old).value (stands S.Store self.new).value (with_retired device (stands S.Store self.old).value) result) (λ v. v ≡ with_retired device (stands S.Store self.old).value) }
    {
        let answer = write_retired(&mut self.conn, &self.layout, device);
        noted(&mut self.failures, answer)
    }

    // Lets what is of a device's days before this one go, where it may and this is what goes.
    pub(crate) fn put_forget(&mut self, device: DeviceId, day: Day, cut: &Cut) -> Result<(), Fault>
        requires up { IsUp (state S.Store self.old.conn) }
        requires within { IsCount cut.now.upto }
        ensures { Calls (given (MayForget (stands S.Store self.old).value device day cut.now) (stands S.Store self.old)) (stands S.Store self.new) (fault_of result)
            (Makes (stands S.Store self.old).value (stands S.Store self.new).value (forgotten device day (stands S.Store self.old).value) result) (λ v. v ≡ forgotten device day (stands S.Store self.old).value) }
    {
        let answer = write_cut(
            &mut self.conn,
            &self.layout,
            device,
            cut.upto,
            day,
            cut.since,
        );
        noted(&mut self.failures, answer)
    }
}
