ghost use Rattle.std.specs.Prelude.{◌≡◌, None, ◌+◌, ◌<◌, ◌≤◌, false, IsTrue, IfOk, OnOk, length};
ghost use Rattle.std.specs.List.{AllByRecursion};
ghost use Rattle.sqlite.specs.Held.{state};
ghost use Rattle.fare_store.specs.Batches.{done_all};
ghost use Rattle.fare_store.specs.Standing.{Calls, Makes, Reads, fault_of};
ghost use Rattle.fare_store.specs.OutboxWords.{stored};
ghost use Rattle.fare_tables.specs.Asking.{IsUp};
ghost use Rattle.fare_tables.specs.Tabled.{given};
ghost use Rattle.fare_outbox.specs.Batches.{link_among, is_before, any_before, AreEnds, IsEnd, IsFreeOf, Follows, AreWelcome, IsWelcomePart};
ghost use Rattle.fare_outbox.specs.Words.{stands, tap_key, is_at};

use crate::SqlOutbox;
use crate::storing::MOST_ROWS;
use fare_outbox_rows::write_rows;
use fare_record::{DeviceId, Record};
use fare_store::Fault;
use fare_tables::note;
use sqlite::Alter;

// The link of the last of these rows that is of a device, if there is one.
fn last_link(rows: &[Record], device: DeviceId) -> Option<u64>
    ensures { result ≡ link_among None device rows.now }
{
    let mut last = None;
    for row in rows {
        if device == row.device() {
            last = Some(row.link());
        }
    }
    last
}

// Whether a row has the owner, device and lane number of another.
fn is_at(row: &Record, other: &Record) -> bool
    ensures { result ≡ is_at tap_key other.now.owner other.now.device other.now.lane row.now }
{
    row.owner() == other.owner() && row.device() == other.device() && row.lane() == other.lane()
}

// Whether none of these rows has the owner, device and lane number of another.
fn is_free(rows: &[Record], other: &Record) -> bool
    ensures { IsTrue result → IsFreeOf other.now rows.now }
{
    !rows.iter().any(|row| is_at(row, other))
}

// Whether a row is of the lane of another, and of no greater lane number.
fn is_before(row: &Record, other: &Record) -> bool
    ensures { result ≡ is_before other.now row.now }
{
    row.owner() == other.owner() && row.device() == other.device() && row.lane() <= other.lane()
}

// Whether one of these rows is.
fn any_before(rows: &[Record], other: &Record) -> bool
    ensures { result ≡ any_before other.now rows.now }
{
    rows.iter().any(|row| is_before(row, other))
}

// Whether a row comes behind these, by the greatest link of its device behind them, whether its lane ended before it,
// and how many rows were held before them.
fn comes_next(rows: &[Record], row: &Record, upto: u64, ends: bool, count: u64) -> bool
    ensures link { IsTrue result → row.now.link ≡ upto + 1 }
    ensures ends { IsTrue result → IsTrue ends }
    ensures free { IsTrue result → IsFreeOf row.now rows.now }
    ensures room { IsTrue result → count + length rows.now < 1000000 }
{
    row.link() - 1 == upto
        && ends
        && count.saturating_add(rows.len() as u64) < MOST_ROWS
        && is_free(rows, row)
}

// Each step asks that the connection is open if its disk is clean, as the one before left it.
impl<S: Alter> SqlOutbox<S> {
    // The greatest link of a device behind these rows.
    fn link_behind(&mut self, rows: &[Record], device: DeviceId) -> Result<u64, Fault>
        requires { IsUp (state S.Store self.old.conn) }
        ensures does { Reads (stands S.Store self.old) (stands S.Store self.new) (λ upto. upto ≡ (done_all stored rows.now (stands S.Store self.old).value).upto device) result }
        ensures up { OnOk result (IsUp (state S.Store self.new.conn)) }
        ensures rows { self.new.rows ≡ self.old.rows }
    {
        match last_link(rows, device) {
            Some(link) => Ok(link),
            None => self.greatest_link(device),
        }
    }

    // Whether no row is held from a row's place in its lane on. That is known of each of these, so one of them that
    // stands before it in its lane shows it without a question.
    fn ends(&mut self, rows: &[Record], row: &Record) -> Result<bool, Fault>
        requires { IsUp (state S.Store self.old.conn) }
        ensures does { Reads (stands S.Store self.old) (stands S.Store self.new) (λ ends. IsTrue ends → AllByRecursion (IsEnd (stands S.Store self.old).value) rows.now → IsEnd (stands S.Store self.old).value row.now) result }
        ensures up { OnOk result (IsUp (state S.Store self.new.conn)) }
        ensures rows { self.new.rows ≡ self.old.rows }
        ensures lane { row.now.lane ≤ 9223372036854775807 }
    {
        let before = row.lane() - 1;
        if any_before(rows, row) {
            return Ok(true);
        }
        match self.row_after(row.owner(), row.device(), before)? {
            Some(_) => Ok(false),
            None => Ok(true),
        }
    }

    // Whether a row may be stored behind these, which end their lanes, but maybe the first. It answers no where a row of
    // its lane number is among them, or a later one of its lane is held, too.
    fn follows(&mut self, rows: &[Record], row: &Record) -> Result<bool, Fault>
        requires some { 0 < length rows.now }
        requires up { IsUp (state S.Store self.old.conn) }
        ensures does { Reads (stands S.Store self.old) (stands S.Store self.new) (λ follows. IsTrue follows → AreEnds (stands S.Store self.old).value rows.now → Follows (stands S.Store self.old).value rows.now row.now × IsEnd (stands S.Store self.old).value row.now) result }
        ensures up { OnOk result (IsUp (state S.Store self.new.conn)) }
        ensures rows { self.new.rows ≡ self.old.rows }
    {
        let upto = self.link_behind(rows, row.device())?;
        let ends = self.ends(&rows[1..], row)?;
        Ok(comes_next(rows, row, upto, ends, self.rows))
    }

    // How many of the first of these may be stored one after the other: none only where the first is refused.
    pub(crate) fn judge_all(&mut self, rows: &[Record]) -> Result<usize, Fault>
        ensures does { Reads (stands S.Store self.old) (stands S.Store self.new) (IsWelcomePart (stands S.Store self.old).value rows.now) result }
        ensures up { OnOk result (IsUp (state S.Store self.new.conn)) }
        ensures few { IfOk result (λ n. n ≤ length rows.now) }
    {
        if rows.is_empty() {
            self.begin()?;
            return Ok(0);
        }
        if self.judge(&rows[0])?.is_err() {
            return Ok(0);
        }
        for place in 1..rows.len() {
            if !self.follows(&rows[..place], &rows[place])? {
                return Ok(place);
            }
        }
        Ok(rows.len())
    }

    // Writes rows that may be stored one after the other.
    pub(crate) fn put_all(&mut self, rows: &[Record]) -> Result<(), Fault>
        requires some { 0 < length rows.now }
        requires up { IsUp (state S.Store self.old.conn) }
        ensures { Calls (given (AreWelcome (stands S.Store self.old).value rows.now) (stands S.Store self.old)) (stands S.Store self.new) (fault_of result)
            (Makes (stands S.Store self.old).value (stands S.Store self.new).value (done_all stored rows.now (stands S.Store self.old).value) result) (λ v. v ≡ done_all stored rows.now (stands S.Store self.old).value) }
    {
        match write_rows(&mut self.conn, &self.layout, rows) {
            Ok(()) => {
                let held = self.rows;
                self.rows = held.saturating_add(rows.len() as u64);
                Ok(())
            }
            Err(fault) => Err(note(&mut self.failures, fault)),
        }
    }
}
