ghost use Rattle.std.specs.Prelude.{◌≡◌, None, ℕ, ◌<◌, ◌≤◌, ◌↔◌, ◌^◌, ◌⊎◌, IsTrue, IfOk, OnOk, is_some, min};
ghost use Rattle.sqlite.specs.Held.{state};
ghost use Rattle.fare_record.specs.Limits.{IsCount};
ghost use Rattle.fare_store.specs.Standing.{Calls, Makes, Reads, Removes, fault_of};
ghost use Rattle.fare_store.specs.OutboxWords.{store_judged, stored, stated_judged, stored_statement, IsNextRow, IsNextStatement, pruned, rows_upto};
ghost use Rattle.fare_tables.specs.Asking.{IsUp};
ghost use Rattle.fare_tables.specs.Tabled.{given};
ghost use Rattle.fare_outbox.specs.Words.{stands, MayStore};

use crate::SqlOutbox;
use crate::pruning::write_cut;
use crate::reading::{count_seen, read_link, read_next, read_statement};
use fare_outbox_rows::{write_row, write_statement};
use fare_record::{Day, DeviceId, LAST_NUMBER, OwnerId, Record, Statement};
use fare_store::{Fault, StatedFault, StoreFault};
use fare_tables::{note, noted, touch};
use sqlite::Alter;

// As many taps, and as many statements, may be held.
pub(crate) const MOST_ROWS: u64 = 1_000_000;

// The greatest integer of SQLite, which no lane number passes.
pub(crate) fn within(number: u64) -> u64
    ensures value { result ≡ min number 9223372036854775807 }
    ensures low { result ≤ number }
    ensures which { (result ≡ number) ⊎ (result ≡ 9223372036854775807) }
    ensures fits { result < 2 ^ 63 }
{
    if number > 9_223_372_036_854_775_807 {
        9_223_372_036_854_775_807
    } else {
        number
    }
}

// Whether all three are nothing.
pub(crate) fn is_nothing(none: bool, rows: u64, statements: u64) -> bool
    ensures { IsTrue result ↔ (IsTrue none × (rows ≡ 0) × (statements ≡ 0)) }
{
    none && rows == 0 && statements == 0
}

// Each step but the first asks that the connection is open if its disk is clean, as the one before left it.
impl<S: Alter> SqlOutbox<S> {
    // The first step of each call: the connection is open.
    pub(crate) fn begin(&mut self) -> Result<(), Fault>
        ensures does { Reads (stands S.Store self.old) (stands S.Store self.new) (λ _. Unit {0}) result }
        ensures up { OnOk result (IsUp (state S.Store self.new.conn)) }
        ensures rows { self.new.rows ≡ self.old.rows }
        ensures statements { self.new.statements ≡ self.old.statements }
    {
        noted(&mut self.failures, touch(&mut self.conn))
    }

    // The greatest link of a device.
    pub(crate) fn greatest_link(&mut self, device: DeviceId) -> Result<u64, Fault>
        requires { IsUp (state S.Store self.old.conn) }
        ensures does { Reads (stands S.Store self.old) (stands S.Store self.new) (λ upto. upto ≡ (stands S.Store self.old).value.upto device) result }
        ensures valid { IfOk result IsCount }
        ensures up { OnOk result (IsUp (state S.Store self.new.conn)) }
        ensures rows { self.new.rows ≡ self.old.rows }
        ensures statements { self.new.statements ≡ self.old.statements }
    {
        match read_link(&mut self.conn, &self.layout, device) {
            Ok(upto) => {
                if upto > LAST_NUMBER {
                    return Err(note(&mut self.failures, Fault::Store));
                }
                Ok(upto)
            }
            Err(fault) => Err(note(&mut self.failures, fault)),
        }
    }

    // Whether no device was seen.
    pub(crate) fn saw_none(&mut self) -> Result<bool, Fault>
        requires { IsUp (state S.Store self.old.conn) }
        ensures does { Reads (stands S.Store self.old) (stands S.Store self.new) (λ none. IsTrue none ↔ ((device : ℕ) → (stands S.Store self.old).value.upto device ≡ 0)) result }
        ensures rows { self.new.rows ≡ self.old.rows }
        ensures statements { self.new.statements ≡ self.old.statements }
    {
        match count_seen(&mut self.conn, &self.layout) {
            Ok(seen) => Ok(seen == 0),
            Err(fault) => Err(note(&mut self.failures, fault)),
        }
    }

    // The row of least lane number after one.
    pub(crate) fn row_after(
        &mut self,
        owner: OwnerId,
        device: DeviceId,
        after: u64,
    ) -> Result<Option<Record>, Fault>
        requires { IsUp (state S.Store self.old.conn) }
        ensures does { Reads (stands S.Store self.old) (stands S.Store self.new) (IsNextRow (stands S.Store self.old).value.rows owner device after) result }
        ensures up { OnOk result (IsUp (state S.Store self.new.conn)) }
        ensures rows { self.new.rows ≡ self.old.rows }
        ensures statements { self.new.statements ≡ self.old.statements }
    {
        let past = within(after);
        let answer = read_next(&mut self.conn, &self.layout, owner, device, past);
        noted(&mut self.failures, answer)
    }

    // The statement of least day from one on.
    pub(crate) fn statement_from(
        &mut self,
        owner: OwnerId,
        device: DeviceId,
        from: Day,
    ) -> Result<Option<Statement>, Fault>
        requires { IsUp (state S.Store self.old.conn) }
        ensures does { Reads (stands S.Store self.old) (stands S.Store self.new) (IsNextStatement (stands S.Store self.old).value.stated owner device from) result }
        ensures up { OnOk result (IsUp (state S.Store self.new.conn)) }
        ensures rows { self.new.rows ≡ self.old.rows }
        ensures statements { self.new.statements ≡ self.old.statements }
    {
        let answer = read_statement(
            &mut self.conn,
            &self.layout,
            owner,
            device,
            u64::from(from.get()),
        );
        noted(&mut self.failures, answer)
    }

    // Whether a row of the same owner, device and lane number is held.
    pub(crate) fn holds(&mut self, row: &Record) -> Result<bool, Fault>
        requires { IsUp (state S.Store self.old.conn) }
        ensures does { Reads (stands S.Store self.old) (stands S.Store self.new) (λ held. held ≡ is_some ((stands S.Store self.old).value.rows row.now.owner row.now.device row.now.lane)) result }
        ensures up { OnOk result (IsUp (state S.Store self.new.conn)) }
        ensures rows { self.new.rows ≡ self.old.rows }
        ensures statements { self.new.statements ≡ self.old.statements }
        ensures lane { row.now.lane ≤ 9223372036854775807 }
    {
        match self.row_after(row.owner(), row.device(), row.lane() - 1)? {
            Some(next) => Ok(next.lane() == row.lane()),
            None => Ok(false),
        }
    }

    // What is answered to a row before it is written.
    pub(crate) fn judge(&mut self, row: &Record) -> Result<Result<(), StoreFault>, Fault>
        ensures does { Reads (stands S.Store self.old) (stands S.Store self.new) (λ judged. judged ≡ store_judged (stands S.Store self.old).value row.now) result }
        ensures up { OnOk result (IsUp (state S.Store self.new.conn)) }
        ensures room { IfOk result (λ judged. OnOk judged (self.new.rows < 1000000)) }
        ensures lane { IfOk result (λ judged. OnOk judged (row.now.lane ≤ 9223372036854775807)) }
    {
        self.begin()?;
        let upto = self.greatest_link(row.device())?;
        let held = self.holds(row)?;
        if row.link() <= upto {
            return Ok(Err(StoreFault::Duplicate));
        }
        if row.link() - 1 > upto {
            return Ok(Err(StoreFault::Gap));
        }
        if held {
            return Ok(Err(StoreFault::Conflict));
        }
        if self.rows >= MOST_ROWS {
            return Ok(Err(StoreFault::OutboxFull));
        }
        Ok(Ok(()))
    }

    // The count that is held of the statement's owner, device and day.
    pub(crate) fn held_count(&mut self, statement: &Statement) -> Result<Option<u64>, Fault>
        requires { IsUp (state S.Store self.old.conn) }
        ensures does { Reads (stands S.Store self.old) (stands S.Store self.new) (λ held. held ≡ (stands S.Store self.old).value.stated statement.now.owner statement.now.device statement.now.day) result }
        ensures up { OnOk result (IsUp (state S.Store self.new.conn)) }
        ensures rows { self.new.rows ≡ self.old.rows }
        ensures statements { self.new.statements ≡ self.old.statements }
    {
        match self.statement_from(statement.owner(), statement.device(), statement.day())? {
            Some(next) => {
                if next.day().get() == statement.day().get() {
                    Ok(Some(next.count()))
                } else {
                    Ok(None)
                }
            }
            None => Ok(None),
        }
    }

    // What is answered to a statement before it is written.
    pub(crate) fn judge_statement(
        &mut self,
        statement: &Statement,
    ) -> Result<Result<(), StatedFault>, Fault>
        ensures does { Reads (stands S.Store self.old) (stands S.Store self.new) (λ judged. judged ≡ stated_judged (stands S.Store self.old).value statement.now) result }
        ensures up { OnOk result (IsUp (state S.Store self.new.conn)) }
        ensures room { IfOk result (λ judged. OnOk judged (self.new.statements < 1000000)) }
    {
        self.begin()?;
        match self.held_count(statement)? {
            Some(held) => {
                if held == statement.count() {
                    Ok(Err(StatedFault::Duplicate))
                } else {
                    Ok(Err(StatedFault::Conflict))
                }
            }
            None => {
                if self.statements >= MOST_ROWS {
                    return Ok(Err(StatedFault::OutboxFull));
                }
                Ok(Ok(()))
            }
        }
    }

    // Writes a row where none of its owner, device and lane number is held and its link comes next.
    pub(crate) fn put(&mut self, row: &Record) -> Result<(), Fault>
        requires up { IsUp (state S.Store self.old.conn) }
        requires room { self.old.rows < 1000000 }
        requires lane { row.now.lane ≤ 9223372036854775807 }
        ensures { Calls (given (MayStore (stands S.Store self.old).value row.now) (stands S.Store self.old)) (stands S.Store self.new) (fault_of result)
            (Makes (stands S.Store self.old).value (stands S.Store self.new).value (stored row.now (stands S.Store self.old).value) result) (λ v. v ≡ stored row.now (stands S.Store self.old).value) }
    {
        match write_row(&mut self.conn, &self.layout, row) {
            Ok(()) => {
                self.rows += 1;
                Ok(())
            }
            Err(fault) => Err(note(&mut self.failures, fault)),
        }
    }

    // Writes a statement where none of its owner, device and day is held.
    pub(crate) fn put_statement(&mut self, statement: &Statement) -> Result<(), Fault>
        requires up { IsUp (state S.Store self.old.conn) }
        requires room { self.old.statements < 1000000 }
        ensures { Calls (given ((stands S.Store self.old).value.stated statement.now.owner statement.now.device statement.now.day ≡ None) (stands S.Store self.old)) (stands S.Store self.new) (fault_of result)
            (Makes (stands S.Store self.old).value (stands S.Store self.new).value (stored_statement statement.now (stands S.Store self.old).value) result) (λ v. v ≡ stored_statement statement.now (stands S.Store self.old).value) }
    {
        match write_statement(&mut self.conn, &self.layout, statement) {
            Ok(()) => {
                self.statements += 1;
                Ok(())
            }
            Err(fault) => Err(note(&mut self.failures, fault)),
        }
    }

    // Removes the rows of a lane up to a lane number.
    pub(crate) fn cut(&mut self, owner: OwnerId, device: DeviceId, upto: u64) -> Result<u64, Fault>
        requires { IsUp (state S.Store self.old.conn) }
        ensures { Removes (stands S.Store self.old) (stands S.Store self.new) (pruned owner device upto (stands S.Store self.old).value) (rows_upto upto ((stands S.Store self.old).value.rows owner device)) result }
    {
        let last = within(upto);
        match write_cut(&mut self.conn, &self.layout, owner, device, last) {
            Ok(count) => {
                let count = count as u64;
                self.rows = self.rows.saturating_sub(count);
                Ok(count)
            }
            Err(fault) => Err(note(&mut self.failures, fault)),
        }
    }
}
