ghost use Rattle.std.specs.Prelude.{◌≡◌, ◌+◌, ◌<◌, ◌≤◌, None, IsTrue, length, take};
ghost use Rattle.sqlite.specs.Held.{state};
ghost use Rattle.fare_store.specs.Batches.{done_all};
ghost use Rattle.fare_store.specs.Standing.{Calls, Makes, fault_of};
ghost use Rattle.fare_store.specs.LedgerWords.{took};
ghost use Rattle.fare_tables.specs.Asking.{IsUp};
ghost use Rattle.fare_tables.specs.Tabled.{given};
ghost use Rattle.fare_ledger.specs.Batches.{FollowsIn, AreFollowing, AreTakable};
ghost use Rattle.fare_ledger.specs.Words.{stands};

use crate::SqlLedger;
use crate::finding::is_closed;
use crate::writing::write_taps;
use fare_record::{Day, Record};
use fare_store::Fault;
use fare_tables::noted;
use sqlite::Alter;

// Whether a tap stands so many places behind the first one in its lane, and its day isn't closed.
fn follows(first: &Record, place: usize, row: &Record, start: Day, closed: u64) -> bool
    requires { closed ≤ 100001 }
    ensures { IsTrue result → FollowsIn start closed first.now place row.now }
{
    row.owner() == first.owner()
        && row.device() == first.device()
        && row.lane() == first.lane().saturating_add(place as u64)
        && !is_closed(start, closed, row.tap().day())
}

// How many of these taps stand one behind the other in the lane of the first one, none behind it of a closed day.
pub(crate) fn run_of(first: &Record, rest: &[Record], start: Day, closed: u64) -> usize
    requires { closed ≤ 100001 }
    ensures run { AreFollowing start closed first.now 1 (take result rest.now) }
    ensures few { result ≤ length rest.now }
{
    for place in 0..rest.len() {
        if !follows(first, place + 1, &rest[place], start, closed) {
            return place;
        }
    }
    rest.len()
}

impl<S: Alter> SqlLedger<S> {
    // Takes taps that may be taken one after the other, where so many days of their device are closed.
    pub(crate) fn put_taps(&mut self, rows: &[Record], closed: u64) -> Result<(), Fault>
        requires some { 0 < length rows.now }
        requires up { IsUp (state S.Store self.old.conn) }
        requires low { closed ≤ 100001 }
        ensures { Calls (given (AreTakable (stands S.Store self.old).value closed rows.now) (stands S.Store self.old)) (stands S.Store self.new) (fault_of result)
            (Makes (stands S.Store self.old).value (stands S.Store self.new).value (done_all took rows.now (stands S.Store self.old).value) result) (λ v. v ≡ done_all took rows.now (stands S.Store self.old).value) }
    {
        let answer = write_taps(&mut self.conn, &self.layout, rows, closed);
        noted(&mut self.failures, answer)
    }
}
