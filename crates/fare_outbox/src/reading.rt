ghost use Rattle.std.specs.Prelude.{◌≡◌, ◌<◌, ◌^◌, false, length, filter, IsTrue, IfOk, OnOk};
ghost use Rattle.sqlite.specs.State.{HasCleanDisk, Survives};
ghost use Rattle.sqlite.specs.Held.{state};
ghost use Rattle.fare_tables.specs.Asking.{IsLive, IsAtRest, SameRows};
ghost use Rattle.fare_tables.specs.Cells.{counted};
ghost use Rattle.fare_outbox_rows.specs.Layouts.{schema_in, ours};
ghost use Rattle.fare_outbox_rows.specs.Held.{held_of, IsReady, IsNext, IsNextStated, is_seen};
ghost use Rattle.fare_outbox_rows.specs.Shown.{ShowsRow, ShowsStatement};

use fare_outbox_rows::statements::{
    COUNT_ROWS, COUNT_SEEN, COUNT_STATEMENTS, READ_LINK, READ_NEXT, READ_STATEMENT,
};
use fare_outbox_rows::{Layout, ask};
use fare_record::{DeviceId, OwnerId, Record, Statement};
use fare_store::Fault;
use fare_tables::{
    cell_count, cell_day, cell_number, cell_tap_number, cell_total, parameter, tap_in_cells,
};
use sqlite::{Alter, Connection, Row};

// The greatest link of a device, 0 where it has no row.
pub(crate) fn read_link<S: Alter>(
    conn: &mut Connection<S>,
    layout: &Layout,
    device: DeviceId,
) -> Result<u64, Fault>
    ensures value { IsLive (state S.Store conn.new) → IsReady layout.now (state S.Store conn.old) → IfOk result (λ upto. upto ≡ (held_of (ours layout.now (state S.Store conn.old).now.trees)).upto device) }
    ensures same { IsLive (state S.Store conn.new) → IsAtRest (schema_in layout.now) (state S.Store conn.old) → SameRows (state S.Store conn.old) (state S.Store conn.new) }
    ensures crash { Survives (state S.Store conn.old) (state S.Store conn.new) (λ _. ¬ IsAtRest (schema_in layout.now) (state S.Store conn.old)) }
    ensures live { IsLive (state S.Store conn.new) → IsLive (state S.Store conn.old) }
    ensures stays { HasCleanDisk (state S.Store conn.new) → OnOk result (IsTrue (state S.Store conn.new).is_open) }
    ensures mode { conn.old.in_transaction ≡ false → conn.new.in_transaction ≡ false }
{
    match ask(
        conn,
        layout,
        READ_LINK,
        &[parameter(u64::from(device.get()))],
    )? {
        Some(row) => cell_number(&row, 0),
        None => Ok(0),
    }
}

// The record that a row of the lane shows.
fn row_in(row: &Row, owner: OwnerId, device: DeviceId) -> Result<Record, Fault>
    ensures { IfOk result (ShowsRow row.now owner device) }
{
    let lane = cell_tap_number(row, 0)?;
    let link = cell_tap_number(row, 1)?;
    let tap = tap_in_cells(row, 2)?;
    Ok(Record::new(device, link, owner, lane, tap))
}

// The row of least lane number past one.
pub(crate) fn read_next<S: Alter>(
    conn: &mut Connection<S>,
    layout: &Layout,
    owner: OwnerId,
    device: DeviceId,
    after: u64,
) -> Result<Option<Record>, Fault>
    requires { after < 2 ^ 63 }
    ensures value { IsLive (state S.Store conn.new) → IsReady layout.now (state S.Store conn.old) → IfOk result (IsNext (held_of (ours layout.now (state S.Store conn.old).now.trees)).taps owner device after) }
    ensures same { IsLive (state S.Store conn.new) → IsAtRest (schema_in layout.now) (state S.Store conn.old) → SameRows (state S.Store conn.old) (state S.Store conn.new) }
    ensures crash { Survives (state S.Store conn.old) (state S.Store conn.new) (λ _. ¬ IsAtRest (schema_in layout.now) (state S.Store conn.old)) }
    ensures live { IsLive (state S.Store conn.new) → IsLive (state S.Store conn.old) }
    ensures stays { HasCleanDisk (state S.Store conn.new) → OnOk result (IsTrue (state S.Store conn.new).is_open) }
    ensures mode { conn.old.in_transaction ≡ false → conn.new.in_transaction ≡ false }
{
    let asked = [
        parameter(u64::from(owner.get())),
        parameter(u64::from(device.get())),
        parameter(after),
    ];
    match ask(conn, layout, READ_NEXT, &asked)? {
        Some(row) => Ok(Some(row_in(&row, owner, device)?)),
        None => Ok(None),
    }
}

// The statement that a row shows.
fn statement_in(row: &Row, owner: OwnerId, device: DeviceId) -> Result<Statement, Fault>
    ensures { IfOk result (ShowsStatement row.now owner device) }
{
    let day = cell_day(row, 0)?;
    let total = cell_count(row, 1)?;
    Ok(Statement::new(device, day, owner, total))
}

// The statement of least day from one on.
pub(crate) fn read_statement<S: Alter>(
    conn: &mut Connection<S>,
    layout: &Layout,
    owner: OwnerId,
    device: DeviceId,
    from: u64,
) -> Result<Option<Statement>, Fault>
    requires { from < 2 ^ 63 }
    ensures value { IsLive (state S.Store conn.new) → IsReady layout.now (state S.Store conn.old) → IfOk result (IsNextStated (held_of (ours layout.now (state S.Store conn.old).now.trees)).statements owner device from) }
    ensures same { IsLive (state S.Store conn.new) → IsAtRest (schema_in layout.now) (state S.Store conn.old) → SameRows (state S.Store conn.old) (state S.Store conn.new) }
    ensures crash { Survives (state S.Store conn.old) (state S.Store conn.new) (λ _. ¬ IsAtRest (schema_in layout.now) (state S.Store conn.old)) }
    ensures live { IsLive (state S.Store conn.new) → IsLive (state S.Store conn.old) }
    ensures stays { HasCleanDisk (state S.Store conn.new) → OnOk result (IsTrue (state S.Store conn.new).is_open) }
    ensures mode { conn.old.in_transaction ≡ false → conn.new.in_transaction ≡ false }
{
    let asked = [
        parameter(u64::from(owner.get())),
        parameter(u64::from(device.get())),
        parameter(from),
    ];
    match ask(conn, layout, READ_STATEMENT, &asked)? {
        Some(row) => Ok(Some(statement_in(&row, owner, device)?)),
        None => Ok(None),
    }
}

// How many rows of taps there are.
pub(crate) fn count_rows<S: Alter>(conn: &mut Connection<S>, layout: &Layout) -> Result<u64, Fault>
    ensures value { IsLive (state S.Store conn.new) → IsReady layout.now (state S.Store conn.old) → IfOk result (λ n. n ≡ length (held_of (ours layout.now (state S.Store conn.old).now.trees)).taps) }
    ensures same { IsLive (state S.Store conn.new) → IsAtRest (schema_in layout.now) (state S.Store conn.old) → SameRows (state S.Store conn.old) (state S.Store conn.new) }
    ensures crash { Survives (state S.Store conn.old) (state S.Store conn.new) (λ _. ¬ IsAtRest (schema_in layout.now) (state S.Store conn.old)) }
    ensures live { IsLive (state S.Store conn.new) → IsLive (state S.Store conn.old) }
    ensures stays { HasCleanDisk (state S.Store conn.new) → OnOk result (IsTrue (state S.Store conn.new).is_open) }
    ensures mode { conn.old.in_transaction ≡ false → conn.new.in_transaction ≡ false }
{
    match ask(conn, layout, COUNT_ROWS, &[])? {
        Some(row) => cell_total(&row, 0),
        None => Err(Fault::Store),
    }
}

// How many statements there are.
pub(crate) fn count_statements<S: Alter>(
    conn: &mut Connection<S>,
    layout: &Layout,
) -> Result<u64, Fault>
    ensures value { IsLive (state S.Store conn.new) → IsReady layout.now (state S.Store conn.old) → IfOk result (λ n. n ≡ length (held_of (ours layout.now (state S.Store conn.old).now.trees)).statements) }
    ensures same { IsLive (state S.Store conn.new) → IsAtRest (schema_in layout.now) (state S.Store conn.old) → SameRows (state S.Store conn.old) (state S.Store conn.new) }
    ensures crash { Survives (state S.Store conn.old) (state S.Store conn.new) (λ _. ¬ IsAtRest (schema_in layout.now) (state S.Store conn.old)) }
    ensures live { IsLive (state S.Store conn.new) → IsLive (state S.Store conn.old) }
    ensures stays { HasCleanDisk (state S.Store conn.new) → OnOk result (IsTrue (state S.Store conn.new).is_open) }
    ensures mode { conn.old.in_transaction ≡ false → conn.new.in_transaction ≡ false }
{
    match ask(conn, layout, COUNT_STATEMENTS, &[])? {
        Some(row) => cell_total(&row, 0),
        None => Err(Fault::Store),
    }
}

// How many devices were seen.
pub(crate) fn count_seen<S: Alter>(conn: &mut Connection<S>, layout: &Layout) -> Result<u64, Fault>
    ensures value { IsLive (state S.Store conn.new) → IsReady layout.now (state S.Store conn.old) → IfOk result (λ n. n ≡ counted (length (filter is_seen (ours layout.now (state S.Store conn.old).now.trees 1)))) }
    ensures same { IsLive (state S.Store conn.new) → IsAtRest (schema_in layout.now) (state S.Store conn.old) → SameRows (state S.Store conn.old) (state S.Store conn.new) }
    ensures crash { Survives (state S.Store conn.old) (state S.Store conn.new) (λ _. ¬ IsAtRest (schema_in layout.now) (state S.Store conn.old)) }
    ensures live { IsLive (state S.Store conn.new) → IsLive (state S.Store conn.old) }
    ensures stays { HasCleanDisk (state S.Store conn.new) → OnOk result (IsTrue (state S.Store conn.new).is_open) }
    ensures mode { conn.old.in_transaction ≡ false → conn.new.in_transaction ≡ false }
{
    match ask(conn, layout, COUNT_SEEN, &[])? {
        Some(row) => cell_number(&row, 0),
        None => Err(Fault::Store),
    }
}
