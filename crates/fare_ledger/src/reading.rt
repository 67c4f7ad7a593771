ghost use Rattle.std.specs.Prelude.{◌≡◌, ◌+◌, ◌-◌, ◌==◌, ◌<◌, ◌≤◌, false, None, Some, if◌then◌else◌, length, filter, IsTrue, IfOk, IfSome, OnOk};
ghost use Rattle.sqlite.specs.State.{HasCleanDisk, Survives};
ghost use Rattle.sqlite.specs.Held.{state};
ghost use Rattle.fare_record.specs.Limits.{IsCount};
ghost use Rattle.fare_tables.specs.Asking.{IsLive, IsAtRest, SameRows};
ghost use Rattle.sqlite_value.specs.Order.{column};
ghost use Rattle.fare_tables.specs.Cells.{int, counted};
ghost use Rattle.fare_ledger.specs.Layouts.{schema_in, ours};
ghost use Rattle.fare_ledger.specs.Held.{held_of, IsReady, stated_in, is_on, is_begun, is_later, IsLeastKept, IsWithin};
ghost use Rattle.fare_ledger.specs.Words.{AreApart};

use crate::Layout;
use crate::lane::Lane;
use crate::statements::{
    COUNT_ALL_RETIRED, COUNT_BEGUN, COUNT_DAY, COUNT_LATER, COUNT_RETIRED, COUNT_STATEMENTS,
    READ_KEPT, READ_LANE, READ_SINCE, READ_STATED,
};
use fare_opening::ask;
use fare_record::{Day, DeviceId};
use fare_store::Fault;
use fare_tables::{cell_count, cell_day, cell_number, cell_total, parameter};
use sqlite::{Alter, Connection, Row};

// As many days as there are may be closed.
const MOST_DAYS: u64 = 100_001;

// The numbers that a row shows. Numbers past their limits answer Store.
fn lane_in(row: &Row) -> Result<Lane, Fault>
    ensures taken { IfOk result (λ lane. column row.now 0 ≡ int lane.taken) }
    ensures closed { IfOk result (λ lane. column row.now 1 ≡ int lane.closed) }
    ensures within { IfOk result IsWithin }
{
    let taken = cell_count(row, 0)?;
    let closed = cell_number(row, 1)?;
    if closed > MOST_DAYS {
        return Err(Fault::Store);
    }
    Ok(Lane { taken, closed })
}

// How many taps of a device are taken, and how many of its days closed: none where it has no row.
pub(crate) fn read_lane<S: Alter>(
    conn: &mut Connection<S>,
    layout: &Layout,
    device: DeviceId,
) -> Result<Lane, Fault>
    ensures value { IsLive (state S.Store conn.new) → IsReady layout.now (state S.Store conn.old) → IfOk result (λ lane. lane ≡ (held_of (ours layout.now (state S.Store conn.old).now.trees)).lanes device) }
    ensures within { IfOk result IsWithin }
    ensures same { IsLive (state S.Store conn.new) → IsAtRest (schema_in layout.now) (state S.Store conn.old) → SameRows (state S.Store conn.old) (state S.Store conn.new) }
    ensures crash { Survives (state S.Store conn.old) (state S.Store conn.new) (λ _. ¬ IsAtRest (schema_in layout.now) (state S.Store conn.old)) }
    ensures live { IsLive (state S.Store conn.new) → IsLive (state S.Store conn.old) }
    ensures stays { HasCleanDisk (state S.Store conn.new) → OnOk result (IsTrue (state S.Store conn.new).is_open) }
    ensures mode { conn.old.in_transaction ≡ false → conn.new.in_transaction ≡ false }
{
    match ask(
        conn,
        &layout.schema,
        READ_LANE,
        &[parameter(u64::from(device.get()))],
    )? {
        Some(row) => lane_in(&row),
        None => Ok(Lane {
            taken: 0,
            closed: 0,
        }),
    }
}

// The last of the closed days, which are so many from a day on. A day past the last one there is answers Store.
fn last_day(start: Day, closed: u64) -> Result<Option<Day>, Fault>
    requires { closed ≤ 100001 }
    ensures { IfOk result (λ day. day ≡ (if closed == 0 then None else Some (start + closed - 1))) }
{
    if closed == 0 {
        return Ok(None);
    }
    match Day::new(u64::from(start.get()) + closed - 1) {
        Some(day) => Ok(Some(day)),
        None => Err(Fault::Store),
    }
}

// The last closed day of a device, where the days are closed from this one on.
pub(crate) fn read_last<S: Alter>(
    conn: &mut Connection<S>,
    layout: &Layout,
    device: DeviceId,
    start: Day,
) -> Result<Option<Day>, Fault>
    ensures value { IsLive (state S.Store conn.new) → IsReady layout.now (state S.Store conn.old) → IfOk result (λ day. day ≡ (if ((held_of (ours layout.now (state S.Store conn.old).now.trees)).lanes device).closed == 0 then None else Some (start + ((held_of (ours layout.now (state S.Store conn.old).now.trees)).lanes device).closed - 1))) }
    ensures same { IsLive (state S.Store conn.new) → IsAtRest (schema_in layout.now) (state S.Store conn.old) → SameRows (state S.Store conn.old) (state S.Store conn.new) }
    ensures crash { Survives (state S.Store conn.old) (state S.Store conn.new) (λ _. ¬ IsAtRest (schema_in layout.now) (state S.Store conn.old)) }
    ensures live { IsLive (state S.Store conn.new) → IsLive (state S.Store conn.old) }
    ensures stays { HasCleanDisk (state S.Store conn.new) → OnOk result (IsTrue (state S.Store conn.new).is_open) }
    ensures mode { conn.old.in_transaction ≡ false → conn.new.in_transaction ≡ false }
{
    let lane = read_lane(conn, layout, device)?;
    last_day(start, lane.closed)
}

// The stated count of a day.
pub(crate) fn read_stated<S: Alter>(
    conn: &mut Connection<S>,
    layout: &Layout,
    device: DeviceId,
    day: Day,
) -> Result<Option<u64>, Fault>
    ensures value { IsLive (state S.Store conn.new) → IsReady layout.now (state S.Store conn.old) → AreApart (held_of (ours layout.now (state S.Store conn.old).now.trees)).statements → IfOk result (λ held. held ≡ stated_in (held_of (ours layout.now (state S.Store conn.old).now.trees)).statements device day) }
    ensures same { IsLive (state S.Store conn.new) → IsAtRest (schema_in layout.now) (state S.Store conn.old) → SameRows (state S.Store conn.old) (state S.Store conn.new) }
    ensures crash { Survives (state S.Store conn.old) (state S.Store conn.new) (λ _. ¬ IsAtRest (schema_in layout.now) (state S.Store conn.old)) }
    ensures live { IsLive (state S.Store conn.new) → IsLive (state S.Store conn.old) }
    ensures stays { HasCleanDisk (state S.Store conn.new) → OnOk result (IsTrue (state S.Store conn.new).is_open) }
    ensures mode { conn.old.in_transaction ≡ false → conn.new.in_transaction ≡ false }
{
    let asked = [
        parameter(u64::from(device.get())),
        parameter(u64::from(day.get())),
    ];
    match ask(conn, &layout.schema, READ_STATED, &asked)? {
        Some(row) => Ok(Some(cell_count(&row, 0)?)),
        None => Ok(None),
    }
}

// The day from which on all of a device is held.
pub(crate) fn read_since<S: Alter>(
    conn: &mut Connection<S>,
    layout: &Layout,
    device: DeviceId,
) -> Result<Day, Fault>
    ensures value { IsLive (state S.Store conn.new) → IsReady layout.now (state S.Store conn.old) → IfOk result (λ day. day ≡ (held_of (ours layout.now (state S.Store conn.old).now.trees)).since device) }
    ensures same { IsLive (state S.Store conn.new) → IsAtRest (schema_in layout.now) (state S.Store conn.old) → SameRows (state S.Store conn.old) (state S.Store conn.new) }
    ensures crash { Survives (state S.Store conn.old) (state S.Store conn.new) (λ _. ¬ IsAtRest (schema_in layout.now) (state S.Store conn.old)) }
    ensures live { IsLive (state S.Store conn.new) → IsLive (state S.Store conn.old) }
    ensures stays { HasCleanDisk (state S.Store conn.new) → OnOk result (IsTrue (state S.Store conn.new).is_open) }
    ensures mode { conn.old.in_transaction ≡ false → conn.new.in_transaction ≡ false }
{
    match ask(
        conn,
        &layout.schema,
        READ_SINCE,
        &[parameter(u64::from(device.get()))],
    )? {
        Some(row) => cell_day(&row, 0),
        None => Ok(Day::FIRST),
    }
}

// The lane number of the first tap of a device of a day or a later one.
pub(crate) fn read_kept<S: Alter>(
    conn: &mut Connection<S>,
    layout: &Layout,
    device: DeviceId,
    day: Day,
) -> Result<Option<u64>, Fault>
    ensures value { IsLive (state S.Store conn.new) → IsReady layout.now (state S.Store conn.old) → IfOk result (λ kept. IsLeastKept (held_of (ours layout.now (state S.Store conn.old).now.trees)).taps device day kept) }
    ensures within { IfOk result (λ kept. IfSome kept IsCount) }
    ensures same { IsLive (state S.Store conn.new) → IsAtRest (schema_in layout.now) (state S.Store conn.old) → SameRows (state S.Store conn.old) (state S.Store conn.new) }
    ensures crash { Survives (state S.Store conn.old) (state S.Store conn.new) (λ _. ¬ IsAtRest (schema_in layout.now) (state S.Store conn.old)) }
    ensures live { IsLive (state S.Store conn.new) → IsLive (state S.Store conn.old) }
    ensures stays { HasCleanDisk (state S.Store conn.new) → OnOk result (IsTrue (state S.Store conn.new).is_open) }
    ensures mode { conn.old.in_transaction ≡ false → conn.new.in_transaction ≡ false }
{
    let asked = [
        parameter(u64::from(device.get())),
        parameter(u64::from(day.get())),
    ];
    match ask(conn, &layout.schema, READ_KEPT, &asked)? {
        Some(row) => Ok(Some(cell_count(&row, 0)?)),
        None => Ok(None),
    }
}

// How many taps of a device are of a day.
pub(crate) fn count_day<S: Alter>(
    conn: &mut Connection<S>,
    layout: &Layout,
    device: DeviceId,
    day: Day,
) -> Result<u64, Fault>
    ensures value { IsLive (state S.Store conn.new) → IsReady layout.now (state S.Store conn.old) → IfOk result (λ n. n ≡ length (filter (is_on device day) (held_of (ours layout.now (state S.Store conn.old).now.trees)).taps)) }
    ensures same { IsLive (state S.Store conn.new) → IsAtRest (schema_in layout.now) (state S.Store conn.old) → SameRows (state S.Store conn.old) (state S.Store conn.new) }
    ensures crash { Survives (state S.Store conn.old) (state S.Store conn.new) (λ _. ¬ IsAtRest (schema_in layout.now) (state S.Store conn.old)) }
    ensures live { IsLive (state S.Store conn.new) → IsLive (state S.Store conn.old) }
    ensures stays { HasCleanDisk (state S.Store conn.new) → OnOk result (IsTrue (state S.Store conn.new).is_open) }
    ensures mode { conn.old.in_transaction ≡ false → conn.new.in_transaction ≡ false }
{
    let asked = [
        parameter(u64::from(device.get())),
        parameter(u64::from(day.get())),
    ];
    match ask(conn, &layout.schema, COUNT_DAY, &asked)? {
        Some(row) => cell_total(&row, 0),
        None => Err(Fault::Store),
    }
}

// Whether the lane of a device is retired.
pub(crate) fn read_retired<S: Alter>(
    conn: &mut Connection<S>,
    layout: &Layout,
    device: DeviceId,
) -> Result<bool, Fault>
    ensures value { IsLive (state S.Store conn.new) → IsReady layout.now (state S.Store conn.old) → IfOk result (λ retired. retired ≡ (held_of (ours layout.now (state S.Store conn.old).now.trees)).retired device) }
    ensures same { IsLive (state S.Store conn.new) → IsAtRest (schema_in layout.now) (state S.Store conn.old) → SameRows (state S.Store conn.old) (state S.Store conn.new) }
    ensures crash { Survives (state S.Store conn.old) (state S.Store conn.new) (λ _. ¬ IsAtRest (schema_in layout.now) (state S.Store conn.old)) }
    ensures live { IsLive (state S.Store conn.new) → IsLive (state S.Store conn.old) }
    ensures stays { HasCleanDisk (state S.Store conn.new) → OnOk result (IsTrue (state S.Store conn.new).is_open) }
    ensures mode { conn.old.in_transaction ≡ false → conn.new.in_transaction ≡ false }
{
    let asked = [parameter(u64::from(device.get()))];
    match ask(conn, &layout.schema, COUNT_RETIRED, &asked)? {
        Some(row) => Ok(cell_number(&row, 0)? != 0),
        None => Err(Fault::Store),
    }
}

// How many devices have a tap taken or a day closed.
pub(crate) fn count_begun<S: Alter>(conn: &mut Connection<S>, layout: &Layout) -> Result<u64, Fault>
    ensures value { IsLive (state S.Store conn.new) → IsReady layout.now (state S.Store conn.old) → IfOk result (λ n. n ≡ counted (length (filter is_begun (ours layout.now (state S.Store conn.old).now.trees 1)))) }
    ensures same { IsLive (state S.Store conn.new) → IsAtRest (schema_in layout.now) (state S.Store conn.old) → SameRows (state S.Store conn.old) (state S.Store conn.new) }
    ensures crash { Survives (state S.Store conn.old) (state S.Store conn.new) (λ _. ¬ IsAtRest (schema_in layout.now) (state S.Store conn.old)) }
    ensures live { IsLive (state S.Store conn.new) → IsLive (state S.Store conn.old) }
    ensures stays { HasCleanDisk (state S.Store conn.new) → OnOk result (IsTrue (state S.Store conn.new).is_open) }
    ensures mode { conn.old.in_transaction ≡ false → conn.new.in_transaction ≡ false }
{
    match ask(conn, &layout.schema, COUNT_BEGUN, &[])? {
        Some(row) => cell_number(&row, 0),
        None => Err(Fault::Store),
    }
}

// How many devices have all held only from a later day than day 0 on.
pub(crate) fn count_later<S: Alter>(conn: &mut Connection<S>, layout: &Layout) -> Result<u64, Fault>
    ensures value { IsLive (state S.Store conn.new) → IsReady layout.now (state S.Store conn.old) → IfOk result (λ n. n ≡ counted (length (filter is_later (ours layout.now (state S.Store conn.old).now.trees 9)))) }
    ensures same { IsLive (state S.Store conn.new) → IsAtRest (schema_in layout.now) (state S.Store conn.old) → SameRows (state S.Store conn.old) (state S.Store conn.new) }
    ensures crash { Survives (state S.Store conn.old) (state S.Store conn.new) (λ _. ¬ IsAtRest (schema_in layout.now) (state S.Store conn.old)) }
    ensures live { IsLive (state S.Store conn.new) → IsLive (state S.Store conn.old) }
    ensures stays { HasCleanDisk (state S.Store conn.new) → OnOk result (IsTrue (state S.Store conn.new).is_open) }
    ensures mode { conn.old.in_transaction ≡ false → conn.new.in_transaction ≡ false }
{
    match ask(conn, &layout.schema, COUNT_LATER, &[])? {
        Some(row) => cell_number(&row, 0),
        None => Err(Fault::Store),
    }
}

// How many statements there are.
pub(crate) fn count_statements<S: Alter>(
    conn: &mut Connection<S>,
    layout: &Layout,
) -> Result<u64, Fault>
    ensures value { IsLive (state S.Store conn.new) → IsReady layout.now (state S.Store conn.old) → IfOk result (λ n. n ≡ counted (length (held_of (ours layout.now (state S.Store conn.old).now.trees)).statements)) }
    ensures same { IsLive (state S.Store conn.new) → IsAtRest (schema_in layout.now) (state S.Store conn.old) → SameRows (state S.Store conn.old) (state S.Store conn.new) }
    ensures crash { Survives (state S.Store conn.old) (state S.Store conn.new) (λ _. ¬ IsAtRest (schema_in layout.now) (state S.Store conn.old)) }
    ensures live { IsLive (state S.Store conn.new) → IsLive (state S.Store conn.old) }
    ensures stays { HasCleanDisk (state S.Store conn.new) → OnOk result (IsTrue (state S.Store conn.new).is_open) }
    ensures mode { conn.old.in_transaction ≡ false → conn.new.in_transaction ≡ false }
{
    match ask(conn, &layout.schema, COUNT_STATEMENTS, &[])? {
        Some(row) => cell_number(&row, 0),
        None => Err(Fault::Store),
    }
}

// How many lanes are retired.
pub(crate) fn count_retired<S: Alter>(
    conn: &mut Connection<S>,
    layout: &Layout,
) -> Result<u64, Fault>
    ensures value { IsLive (state S.Store conn.new) → IsReady layout.now (state S.Store conn.old) → IfOk result (λ n. n ≡ counted (length (ours layout.now (state S.Store conn.old).now.trees 6))) }
    ensures same { IsLive (state S.Store conn.new) → IsAtRest (schema_in layout.now) (state S.Store conn.old) → SameRows (state S.Store conn.old) (state S.Store conn.new) }
    ensures crash { Survives (state S.Store conn.old) (state S.Store conn.new) (λ _. ¬ IsAtRest (schema_in layout.now) (state S.Store conn.old)) }
    ensures live { IsLive (state S.Store conn.new) → IsLive (state S.Store conn.old) }
    ensures stays { HasCleanDisk (state S.Store conn.new) → OnOk result (IsTrue (state S.Store conn.new).is_open) }
    ensures mode { conn.old.in_transaction ≡ false → conn.new.in_transaction ≡ false }
{
    match ask(conn, &layout.schema, COUNT_ALL_RETIRED, &[])? {
        Some(row) => cell_number(&row, 0),
        None => Err(Fault::Store),
    }
}
