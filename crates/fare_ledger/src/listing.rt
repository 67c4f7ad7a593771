ghost use Rattle.std.specs.Prelude.{◌≡◌, false, IsTrue, IfOk, OnOk};
ghost use Rattle.sqlite.specs.State.{HasCleanDisk, Survives};
ghost use Rattle.sqlite.specs.Held.{state};
ghost use Rattle.sqlite_value.specs.Order.{column};
ghost use Rattle.fare_tables.specs.Cells.{int};
ghost use Rattle.fare_tables.specs.Asking.{IsLive, IsAtRest, SameRows};
ghost use Rattle.fare_ledger.specs.Layouts.{schema_in, ours};
ghost use Rattle.fare_ledger.specs.Held.{held_of, IsReady, IsListedOf};
ghost use Rattle.fare_ledger.specs.Shown.{ShowsRow, ShowRows};

use crate::Layout;
use crate::statements::READ_BETWEEN;
use fare_opening::ask_rows;
use fare_record::{Day, DeviceId, OwnerId, Record};
use fare_store::Fault;
use fare_tables::{cell_number, cell_tap_number, parameter, tap_in_cells};
use sqlite::{Alter, Connection, Row};
use std::alloc::Global;

// The device of a cell. A number that is no device's answers Store.
fn device_in(row: &Row, at: usize) -> Result<DeviceId, Fault>
    ensures { IfOk result (λ device. column row.now at ≡ int device) }
{
    match DeviceId::new(cell_number(row, at)?) {
        Some(device) => Ok(device),
        None => Err(Fault::Store),
    }
}

// The record of an owner that a row shows.
fn record_in(row: &Row, owner: OwnerId) -> Result<Record, Fault>
    ensures { IfOk result (ShowsRow row.now owner) }
{
    let device = device_in(row, 0)?;
    let lane = cell_tap_number(row, 1)?;
    let link = cell_tap_number(row, 2)?;
    let tap = tap_in_cells(row, 3)?;
    Ok(Record::new(device, link, owner, lane, tap))
}

// The records of an owner that the rows show, in their order.
fn records_in(alloc: Global, rows: &[Row], owner: OwnerId) -> Result<Vec<Record>, Fault>
    ensures { IfOk result (λ taps. ShowRows owner rows.now taps.items) }
{
    let mut taps = Vec::new(alloc);
    for row in rows {
        let record = record_in(row, owner)?;
        taps.push(record)?;
    }
    Ok(taps)
}

// The taps of the days from one to another, as an owner's, by day, moment, device and lane number.
pub(crate) fn read_between<S: Alter>(
    alloc: Global,
    conn: &mut Connection<S>,
    layout: &Layout,
    owner: OwnerId,
    from: Day,
    to: Day,
) -> Result<Vec<Record>, Fault>
    ensures value { IsLive (state S.Store conn.new) → IsReady layout.now (state S.Store conn.old) → IfOk result (λ taps. IsListedOf owner (held_of (ours layout.now (state S.Store conn.old).now.trees)).taps from to taps.items) }
    ensures same { IsLive (state S.Store conn.new) → IsAtRest (schema_in layout.now) (state S.Store conn.old) → SameRows (state S.Store conn.old) (state S.Store conn.new) }
    ensures crash { Survives (state S.Store conn.old) (state S.Store conn.new) (λ _. ¬ IsAtRest (schema_in layout.now) (state S.Store conn.old)) }
    ensures live { IsLive (state S.Store conn.new) → IsLive (state S.Store conn.old) }
    ensures stays { HasCleanDisk (state S.Store conn.new) → OnOk result (IsTrue (state S.Store conn.new).is_open) }
    ensures mode { conn.old.in_transaction ≡ false → conn.new.in_transaction ≡ false }
{
    let asked = [
        parameter(u64::from(from.get())),
        parameter(u64::from(to.get())),
    ];
    let rows = ask_rows(conn, &layout.schema, READ_BETWEEN, &asked)?;
    records_in(alloc, rows.as_slice(), owner)
}
