ghost use Rattle.std.specs.Prelude.{◌≡◌, ◌+◌, ◌≤◌, ◌==◌, ◌&&◌, ◌↔◌, nat_le, nat_lt, IsTrue, IfOk, IfSome, OnOk};
ghost use Rattle.sqlite.specs.Held.{state};
ghost use Rattle.fare_record.specs.Lanes.{day_count};
ghost use Rattle.fare_record.specs.Limits.{IsCount};
ghost use Rattle.fare_store.specs.Standing.{Reads};
ghost use Rattle.fare_store.specs.LedgerWords.{is_mine, closed_through, AreTapsBetween};
ghost use Rattle.fare_tables.specs.Asking.{IsUp};
ghost use Rattle.fare_ledger.specs.Held.{IsWithin};
ghost use Rattle.fare_ledger.specs.Words.{stands, HasNumbers, IsFront, AreUnbegun, AreUnstated, AreUnretired, AreUncut};

use crate::SqlLedger;
use crate::lane::Lane;
use crate::listing::read_between;
use crate::reading::{
    count_begun, count_day, count_later, count_retired, count_statements, read_kept, read_lane,
    read_last, read_retired, read_since, read_stated,
};
use fare_record::{Day, DeviceId, OwnerId, Record};
use fare_store::Fault;
use fare_tables::{note, noted, touch};
use sqlite::Alter;

// Whether a day is one of the closed days, which are the first ones from a day on.
pub(crate) fn is_closed(start: Day, closed: u64, day: Day) -> bool
    requires { closed ≤ 100001 }
    ensures { result ≡ (nat_le start day && nat_lt day (start + closed)) }
{
    start.get() <= day.get() && u64::from(day.get()) < u64::from(start.get()) + closed
}

// Whether a day is the first that isn't closed.
pub(crate) fn is_next(start: Day, closed: u64, day: Day) -> bool
    requires { closed ≤ 100001 }
    ensures { result ≡ (day == start + closed) }
{
    u64::from(day.get()) == u64::from(start.get()) + closed
}

// Whether all four are nothing.
pub(crate) fn are_nothing(unbegun: bool, uncut: bool, unstated: bool, unretired: bool) -> bool
    ensures { IsTrue result ↔ (IsTrue unbegun × IsTrue uncut × IsTrue unstated × IsTrue unretired) }
{
    unbegun && uncut && unstated && unretired
}

// Each step but the first asks that the connection is open if its disk is clean, as the one before left it.
impl<S: Alter> SqlLedger<S> {
    // Whether something of an owner and a device is this owner's, and of a device of the scheme.
    pub(crate) fn is_mine(&self, owner: OwnerId, device: DeviceId) -> bool
        ensures { result ≡ is_mine (stands S.Store self.now).value owner device }
    {
        owner == self.owner && self.knows(device)
    }

    // Whether a device is the scheme's.
    pub(crate) fn knows(&self, device: DeviceId) -> bool
        ensures { result ≡ (stands S.Store self.now).value.knows device }
    {
        self.devices.contains(&device)
    }

    // The first step of each call: the connection is open.
    pub(crate) fn begin(&mut self) -> Result<(), Fault>
        ensures does { Reads (stands S.Store self.old) (stands S.Store self.new) (λ _. Unit {0}) result }
        ensures up { OnOk result (IsUp (state S.Store self.new.conn)) }
    {
        noted(&mut self.failures, touch(&mut self.conn))
    }

    // How many taps of a device are taken, and how many of its days closed.
    pub(crate) fn numbers_of(&mut self, device: DeviceId) -> Result<Lane, Fault>
        requires { IsUp (state S.Store self.old.conn) }
        ensures does { Reads (stands S.Store self.old) (stands S.Store self.new) (HasNumbers (stands S.Store self.old).value device) result }
        ensures within { IfOk result IsWithin }
        ensures up { OnOk result (IsUp (state S.Store self.new.conn)) }
    {
        let answer = read_lane(&mut self.conn, &self.layout, device);
        noted(&mut self.failures, answer)
    }

    // The stated count of a day.
    pub(crate) fn stated_of(&mut self, device: DeviceId, day: Day) -> Result<Option<u64>, Fault>
        requires { IsUp (state S.Store self.old.conn) }
        ensures does { Reads (stands S.Store self.old) (stands S.Store self.new) (λ held. held ≡ (stands S.Store self.old).value.stated device day) result }
        ensures up { OnOk result (IsUp (state S.Store self.new.conn)) }
    {
        let answer = read_stated(&mut self.conn, &self.layout, device, day);
        noted(&mut self.failures, answer)
    }

    // Whether a device's lane is retired.
    pub(crate) fn retired_of(&mut self, device: DeviceId) -> Result<bool, Fault>
        requires { IsUp (state S.Store self.old.conn) }
        ensures does { Reads (stands S.Store self.old) (stands S.Store self.new) (λ retired. retired ≡ (stands S.Store self.old).value.retired device) result }
        ensures up { OnOk result (IsUp (state S.Store self.new.conn)) }
    {
        let answer = read_retired(&mut self.conn, &self.layout, device);
        noted(&mut self.failures, answer)
    }

    // The day from which on all of a device is held.
    pub(crate) fn held_since(&mut self, device: DeviceId) -> Result<Day, Fault>
        requires { IsUp (state S.Store self.old.conn) }
        ensures does { Reads (stands S.Store self.old) (stands S.Store self.new) (λ day. day ≡ (stands S.Store self.old).value.from device) result }
        ensures up { OnOk result (IsUp (state S.Store self.new.conn)) }
    {
        let answer = read_since(&mut self.conn, &self.layout, device);
        noted(&mut self.failures, answer)
    }

    // The lane number of the first tap of a device of a day or a later one.
    pub(crate) fn first_kept(&mut self, device: DeviceId, day: Day) -> Result<Option<u64>, Fault>
        requires { IsUp (state S.Store self.old.conn) }
        ensures does { Reads (stands S.Store self.old) (stands S.Store self.new) (IsFront (stands S.Store self.old).value device day) result }
        ensures within { IfOk result (λ kept. IfSome kept IsCount) }
        ensures up { OnOk result (IsUp (state S.Store self.new.conn)) }
    {
        let answer = read_kept(&mut self.conn, &self.layout, device, day);
        noted(&mut self.failures, answer)
    }

    // How many taps of a device are of a day.
    pub(crate) fn count_of_day(&mut self, device: DeviceId, day: Day) -> Result<u64, Fault>
        requires { IsUp (state S.Store self.old.conn) }
        ensures does { Reads (stands S.Store self.old) (stands S.Store self.new) (λ count. count ≡ day_count ((stands S.Store self.old).value.taken device) day) result }
        ensures up { OnOk result (IsUp (state S.Store self.new.conn)) }
    {
        prove!(day.get() <= 100_000);
        let answer = count_day(&mut self.conn, &self.layout, device, day);
        noted(&mut self.failures, answer)
    }

    // The last closed day of a device. A day past the last one there is answers Store.
    pub(crate) fn last_closed(&mut self, device: DeviceId) -> Result<Option<Day>, Fault>
        requires { IsUp (state S.Store self.old.conn) }
        ensures does { Reads (stands S.Store self.old) (stands S.Store self.new) (λ day. day ≡ closed_through (stands S.Store self.old).value device) result }
        ensures up { OnOk result (IsUp (state S.Store self.new.conn)) }
    {
        let answer = read_last(&mut self.conn, &self.layout, device, self.start);
        noted(&mut self.failures, answer)
    }

    // Whether no tap of any device is taken and no day closed.
    pub(crate) fn none_begun(&mut self) -> Result<bool, Fault>
        requires { IsUp (state S.Store self.old.conn) }
        ensures does { Reads (stands S.Store self.old) (stands S.Store self.new) (λ none. IsTrue none ↔ AreUnbegun (stands S.Store self.old).value) result }
        ensures up { OnOk result (IsUp (state S.Store self.new.conn)) }
    {
        match count_begun(&mut self.conn, &self.layout) {
            Ok(begun) => Ok(begun == 0),
            Err(fault) => Err(note(&mut self.failures, fault)),
        }
    }

    // Whether all is held of every device.
    pub(crate) fn none_cut(&mut self) -> Result<bool, Fault>
        requires { IsUp (state S.Store self.old.conn) }
        ensures does { Reads (stands S.Store self.old) (stands S.Store self.new) (λ none. IsTrue none ↔ AreUncut (stands S.Store self.old).value) result }
        ensures up { OnOk result (IsUp (state S.Store self.new.conn)) }
    {
        match count_later(&mut self.conn, &self.layout) {
            Ok(later) => Ok(later == 0),
            Err(fault) => Err(note(&mut self.failures, fault)),
        }
    }

    // Whether there is no statement.
    pub(crate) fn no_statements(&mut self) -> Result<bool, Fault>
        requires { IsUp (state S.Store self.old.conn) }
        ensures does { Reads (stands S.Store self.old) (stands S.Store self.new) (λ none. IsTrue none ↔ AreUnstated (stands S.Store self.old).value) result }
        ensures up { OnOk result (IsUp (state S.Store self.new.conn)) }
    {
        match count_statements(&mut self.conn, &self.layout) {
            Ok(statements) => Ok(statements == 0),
            Err(fault) => Err(note(&mut self.failures, fault)),
        }
    }

    // Whether no lane is retired.
    pub(crate) fn none_retired(&mut self) -> Result<bool, Fault>
        requires { IsUp (state S.Store self.old.conn) }
        ensures does { Reads (stands S.Store self.old) (stands S.Store self.new) (λ none. IsTrue none ↔ AreUnretired (stands S.Store self.old).value) result }
        ensures up { OnOk result (IsUp (state S.Store self.new.conn)) }
    {
        match count_retired(&mut self.conn, &self.layout) {
            Ok(retired) => Ok(retired == 0),
            Err(fault) => Err(note(&mut self.failures, fault)),
        }
    }

    // The taps of the days from one to another, in their order.
    pub(crate) fn listed(&mut self, from: Day, to: Day) -> Result<Vec<Record>, Fault>
        requires { IsUp (state S.Store self.old.conn) }
        ensures does { Reads (stands S.Store self.old) (stands S.Store self.new) (λ taps. AreTapsBetween (stands S.Store self.old).value from to taps.items) result }
        ensures up { OnOk result (IsUp (state S.Store self.new.conn)) }
    {
        prove!(to.get() <= 100_000);
        let answer = read_between(
            self.alloc,
            &mut self.conn,
            &self.layout,
            self.owner,
            from,
            to,
        );
        noted(&mut self.failures, answer)
    }
}
