ghost use Rattle.std.specs.Prelude.{◌≡◌, ◌<◌, ◌^◌, false, IsTrue, OnOk, OnErr, length};
ghost use Rattle.sqlite.specs.State.{HasCleanDisk, Survives};
ghost use Rattle.sqlite.specs.Held.{state};
ghost use Rattle.sqlite.specs.Values.{bound};
ghost use Rattle.fare_tables.specs.Asking.{IsLive, SameRows, Inside};
ghost use Rattle.fare_tables.specs.Cells.{AreRows};
ghost use Rattle.fare_ledger.specs.Layouts.{schema_in, ours};
ghost use Rattle.fare_ledger.specs.Batches.{goes_on, with_tap_if, with_taps};
ghost use Rattle.fare_ledger.specs.Held.{held_of, AreReadable, IsReady, IsLane, Becomes, MayBecome, PutsTap, PutsLane, tap_cells, stated_cells, row_of, row_stated, with_tap, with_stated, with_numbers, with_retired_lane};

use crate::Layout;
use crate::statements::{PUT_LANE, PUT_RETIRED, PUT_STATED, PUT_TAP};
use fare_record::{DeviceId, Record, Statement};
use fare_store::Fault;
use fare_tables::{change, commit, parameter};
use sqlite::types::ValueRef;
use sqlite::{Alter, Connection, Transaction};

fn cells_of(row: &Record) -> [ValueRef<'static>; 8]
    ensures { bound result ≡ tap_cells (row_of row.now) }
{
    let tap = row.tap();
    [
        parameter(u64::from(row.device().get())),
        parameter(row.lane()),
        parameter(row.link()),
        parameter(u64::from(tap.product().get())),
        parameter(tap.token().get()),
        parameter(tap.moment().get()),
        parameter(u64::from(tap.day().get())),
        parameter(u64::from(tap.route())),
    ]
}

fn put_tap<S: Alter>(
    tx: &mut Transaction<'_, S>,
    layout: &Layout,
    row: &Record,
) -> Result<(), Fault>
    ensures same_reference { tx.new.conn.ghost_name ≡ tx.old.conn.ghost_name }
    ensures puts { HasCleanDisk (state S.Store tx.new.conn.now) → IsTrue (state S.Store tx.old.conn.now).in_transaction → (state S.Store tx.old.conn.now).now.schema ≡ schema_in layout.now
        → OnOk result (PutsTap layout.now (state S.Store tx.old.conn.now).now (state S.Store tx.new.conn.now).now (row_of row.now) × IsTrue (state S.Store tx.new.conn.now).in_transaction) }
    ensures inside { HasCleanDisk (state S.Store tx.new.conn.now) → Inside (state S.Store tx.old.conn.now) (state S.Store tx.new.conn.now) }
    ensures survives { Survives (state S.Store tx.old.conn.now) (state S.Store tx.new.conn.now) (λ _. ⊥) }
{
    let cells = cells_of(row);
    change(tx, PUT_TAP, &cells)?;
    Ok(())
}

fn put_lane<S: Alter>(
    tx: &mut Transaction<'_, S>,
    layout: &Layout,
    device: DeviceId,
    taken: u64,
    closed: u64,
) -> Result<(), Fault>
    requires taken { taken < 2 ^ 63 }
    requires closed { closed < 2 ^ 63 }
    ensures same_reference { tx.new.conn.ghost_name ≡ tx.old.conn.ghost_name }
    ensures puts { HasCleanDisk (state S.Store tx.new.conn.now) → IsTrue (state S.Store tx.old.conn.now).in_transaction → (state S.Store tx.old.conn.now).now.schema ≡ schema_in layout.now → AreRows IsLane (ours layout.now (state S.Store tx.old.conn.now).now.trees 1)
        → OnOk result (PutsLane layout.now (state S.Store tx.old.conn.now).now (state S.Store tx.new.conn.now).now device taken closed × IsTrue (state S.Store tx.new.conn.now).in_transaction) }
    ensures inside { HasCleanDisk (state S.Store tx.new.conn.now) → Inside (state S.Store tx.old.conn.now) (state S.Store tx.new.conn.now) }
    ensures survives { Survives (state S.Store tx.old.conn.now) (state S.Store tx.new.conn.now) (λ _. ⊥) }
{
    let cells = [
        parameter(u64::from(device.get())),
        parameter(taken),
        parameter(closed),
    ];
    change(tx, PUT_LANE, &cells)?;
    Ok(())
}

// The tap and its device's numbers.
fn put_row<S: Alter>(
    tx: &mut Transaction<'_, S>,
    layout: &Layout,
    row: &Record,
    closed: u64,
) -> Result<(), Fault>
    requires { closed < 2 ^ 63 }
    ensures same_reference { tx.new.conn.ghost_name ≡ tx.old.conn.ghost_name }
    ensures puts { HasCleanDisk (state S.Store tx.new.conn.now) → IsTrue (state S.Store tx.old.conn.now).in_transaction → (state S.Store tx.old.conn.now).now.schema ≡ schema_in layout.now → AreReadable (ours layout.now (state S.Store tx.old.conn.now).now.trees)
        → OnOk result (Becomes layout.now (state S.Store tx.new.conn.now).now (with_tap (row_of row.now) closed (held_of (ours layout.now (state S.Store tx.old.conn.now).now.trees))) × IsTrue (state S.Store tx.new.conn.now).in_transaction) }
    ensures inside { HasCleanDisk (state S.Store tx.new.conn.now) → Inside (state S.Store tx.old.conn.now) (state S.Store tx.new.conn.now) }
    ensures survives { Survives (state S.Store tx.old.conn.now) (state S.Store tx.new.conn.now) (λ _. ⊥) }
{
    put_tap(tx, layout, row)?;
    put_lane(tx, layout, row.device(), row.lane(), closed)
}

// The tap and its device's numbers, of which the number of closed days is as before, in one transaction.
pub(crate) fn write_tap<S: Alter>(
    conn: &mut Connection<S>,
    layout: &Layout,
    row: &Record,
    closed: u64,
) -> Result<(), Fault>
    requires low { closed < 2 ^ 63 }
    requires idle { conn.old.in_transaction ≡ false }
    ensures value { IsLive (state S.Store conn.new) → IsReady layout.now (state S.Store conn.old) → OnOk result (Becomes layout.now (state S.Store conn.new).now (with_tap (row_of row.now) closed (held_of (ours layout.now (state S.Store conn.old).now.trees))) × ((state S.Store conn.new).now ≡ (state S.Store conn.new).committed)) }
    ensures same { IsLive (state S.Store conn.new) → IsReady layout.now (state S.Store conn.old) → OnErr result (SameRows (state S.Store conn.old) (state S.Store conn.new)) }
    ensures crash { Survives (state S.Store conn.old) (state S.Store conn.new) (λ trees. IsReady layout.now (state S.Store conn.old) → MayBecome layout.now (with_tap (row_of row.now) closed (held_of (ours layout.now (state S.Store conn.old).now.trees))) trees) }
    ensures live { IsLive (state S.Store conn.new) → IsLive (state S.Store conn.old) }
    ensures stays { HasCleanDisk (state S.Store conn.new) → OnOk result (IsTrue (state S.Store conn.new).is_open) }
    ensures idle { conn.new.in_transaction ≡ false }
{
    let mut tx = conn.transaction();
    put_row(&mut tx, layout, row, closed)?;
    commit(tx)
}

// The tap, and its device's numbers where the next tap is not of the device too.
fn put_next<S: Alter>(
    tx: &mut Transaction<'_, S>,
    layout: &Layout,
    row: &Record,
    closed: u64,
    last: bool,
) -> Result<(), Fault>
    requires { closed < 2 ^ 63 }
    ensures same_reference { tx.new.conn.ghost_name ≡ tx.old.conn.ghost_name }
    ensures puts { HasCleanDisk (state S.Store tx.new.conn.now) → IsTrue (state S.Store tx.old.conn.now).in_transaction → (state S.Store tx.old.conn.now).now.schema ≡ schema_in layout.now → AreReadable (ours layout.now (state S.Store tx.old.conn.now).now.trees)
        → OnOk result (Becomes layout.now (state S.Store tx.new.conn.now).now (with_tap_if last (row_of row.now) closed (held_of (ours layout.now (state S.Store tx.old.conn.now).now.trees))) × IsTrue (state S.Store tx.new.conn.now).in_transaction) }
    ensures inside { HasCleanDisk (state S.Store tx.new.conn.now) → Inside (state S.Store tx.old.conn.now) (state S.Store tx.new.conn.now) }
    ensures survives { Survives (state S.Store tx.old.conn.now) (state S.Store tx.new.conn.now) (λ _. ⊥) }
{
    if !last {
        return put_tap(tx, layout, row);
    }
    put_row(tx, layout, row, closed)
}

// Whether the first of these taps is of a device.
fn goes_on(rows: &[Record], device: DeviceId) -> bool
    ensures { result ≡ goes_on device rows.now }
{
    match rows.first() {
        Some(row) => row.device() == device,
        None => false,
    }
}

// The taps, and their device's numbers with the last of those that stand one behind the other.
fn put_rows<S: Alter>(
    tx: &mut Transaction<'_, S>,
    layout: &Layout,
    rows: &[Record],
    closed: u64,
) -> Result<(), Fault>
    requires some { 0 < length rows.now }
    requires low { closed < 2 ^ 63 }
    ensures same_reference { tx.new.conn.ghost_name ≡ tx.old.conn.ghost_name }
    ensures puts { HasCleanDisk (state S.Store tx.new.conn.now) → IsTrue (state S.Store tx.old.conn.now).in_transaction → (state S.Store tx.old.conn.now).now.schema ≡ schema_in layout.now → AreReadable (ours layout.now (state S.Store tx.old.conn.now).now.trees)
        → OnOk result (Becomes layout.now (state S.Store tx.new.conn.now).now (with_taps closed rows.now (held_of (ours layout.now (state S.Store tx.old.conn.now).now.trees))) × IsTrue (state S.Store tx.new.conn.now).in_transaction) }
    ensures inside { HasCleanDisk (state S.Store tx.new.conn.now) → Inside (state S.Store tx.old.conn.now) (state S.Store tx.new.conn.now) }
    ensures survives { Survives (state S.Store tx.old.conn.now) (state S.Store tx.new.conn.now) (λ _. ⊥) }
{
    for place in 0..rows.len() {
        let row = &rows[place];
        let last = !goes_on(&rows[place + 1..], row.device());
        put_next(tx, layout, row, closed, last)?;
    }
    Ok(())
}

// The taps and their device's numbers, in one transaction.
pub(crate) fn write_taps<S: Alter>(
    conn: &mut Connection<S>,
    layout: &Layout,
    rows: &[Record],
    closed: u64,
) -> Result<(), Fault>
    requires some { 0 < length rows.now }
    requires low { closed < 2 ^ 63 }
    requires idle { conn.old.in_transaction ≡ false }
    ensures value { IsLive (state S.Store conn.new) → IsReady layout.now (state S.Store conn.old) → OnOk result (Becomes layout.now (state S.Store conn.new).now (with_taps closed rows.now (held_of (ours layout.now (state S.Store conn.old).now.trees))) × ((state S.Store conn.new).now ≡ (state S.Store conn.new).committed)) }
    ensures same { IsLive (state S.Store conn.new) → IsReady layout.now (state S.Store conn.old) → OnErr result (SameRows (state S.Store conn.old) (state S.Store conn.new)) }
    ensures crash { Survives (state S.Store conn.old) (state S.Store conn.new) (λ trees. IsReady layout.now (state S.Store conn.old) → MayBecome layout.now (with_taps closed rows.now (held_of (ours layout.now (state S.Store conn.old).now.trees))) trees) }
    ensures live { IsLive (state S.Store conn.new) → IsLive (state S.Store conn.old) }
    ensures stays { HasCleanDisk (state S.Store conn.new) → OnOk result (IsTrue (state S.Store conn.new).is_open) }
    ensures idle { conn.new.in_transaction ≡ false }
{
    let mut tx = conn.transaction();
    put_rows(&mut tx, layout, rows, closed)?;
    commit(tx)
}

fn cells_stated(statement: &Statement) -> [ValueRef<'static>; 3]
    ensures { bound result ≡ stated_cells (row_stated statement.now) }
{
    [
        parameter(u64::from(statement.device().get())),
        parameter(u64::from(statement.day().get())),
        parameter(statement.count()),
    ]
}

fn put_statement<S: Alter>(
    tx: &mut Transaction<'_, S>,
    layout: &Layout,
    statement: &Statement,
) -> Result<(), Fault>
    ensures same_reference { tx.new.conn.ghost_name ≡ tx.old.conn.ghost_name }
    ensures puts { HasCleanDisk (state S.Store tx.new.conn.now) → IsTrue (state S.Store tx.old.conn.now).in_transaction → (state S.Store tx.old.conn.now).now.schema ≡ schema_in layout.now → AreReadable (ours layout.now (state S.Store tx.old.conn.now).now.trees)
        → OnOk result (Becomes layout.now (state S.Store tx.new.conn.now).now (with_stated (row_stated statement.now) (held_of (ours layout.now (state S.Store tx.old.conn.now).now.trees))) × IsTrue (state S.Store tx.new.conn.now).in_transaction) }
    ensures inside { HasCleanDisk (state S.Store tx.new.conn.now) → Inside (state S.Store tx.old.conn.now) (state S.Store tx.new.conn.now) }
    ensures survives { Survives (state S.Store tx.old.conn.now) (state S.Store tx.new.conn.now) (λ _. ⊥) }
{
    let cells = cells_stated(statement);
    change(tx, PUT_STATED, &cells)?;
    Ok(())
}

// The statement, in one transaction.
pub(crate) fn write_statement<S: Alter>(
    conn: &mut Connection<S>,
    layout: &Layout,
    statement: &Statement,
) -> Result<(), Fault>
    requires { conn.old.in_transaction ≡ false }
    ensures value { IsLive (state S.Store conn.new) → IsReady layout.now (state S.Store conn.old) → OnOk result (Becomes layout.now (state S.Store conn.new).now (with_stated (row_stated statement.now) (held_of (ours layout.now (state S.Store conn.old).now.trees))) × ((state S.Store conn.new).now ≡ (state S.Store conn.new).committed)) }
    ensures same { IsLive (state S.Store conn.new) → IsReady layout.now (state S.Store conn.old) → OnErr result (SameRows (state S.Store conn.old) (state S.Store conn.new)) }
    ensures crash { Survives (state S.Store conn.old) (state S.Store conn.new) (λ trees. IsReady layout.now (state S.Store conn.old) → MayBecome layout.now (with_stated (row_stated statement.now) (held_of (ours layout.now (state S.Store conn.old).now.trees))) trees) }
    ensures live { IsLive (state S.Store conn.new) → IsLive (state S.Store conn.old) }
    ensures stays { HasCleanDisk (state S.Store conn.new) → OnOk result (IsTrue (state S.Store conn.new).is_open) }
    ensures idle { conn.new.in_transaction ≡ false }
{
    let mut tx = conn.transaction();
    put_statement(&mut tx, layout, statement)?;
    commit(tx)
}

// A device's numbers.
fn put_numbers<S: Alter>(
    tx: &mut Transaction<'_, S>,
    layout: &Layout,
    device: DeviceId,
    taken: u64,
    closed: u64,
) -> Result<(), Fault>
    requires taken { taken < 2 ^ 63 }
    requires closed { closed < 2 ^ 63 }
    ensures same_reference { tx.new.conn.ghost_name ≡ tx.old.conn.ghost_name }
    ensures puts { HasCleanDisk (state S.Store tx.new.conn.now) → IsTrue (state S.Store tx.old.conn.now).in_transaction → (state S.Store tx.old.conn.now).now.schema ≡ schema_in layout.now → AreReadable (ours layout.now (state S.Store tx.old.conn.now).now.trees)
        → OnOk result (Becomes layout.now (state S.Store tx.new.conn.now).now (with_numbers device taken closed (held_of (ours layout.now (state S.Store tx.old.conn.now).now.trees))) × IsTrue (state S.Store tx.new.conn.now).in_transaction) }
    ensures inside { HasCleanDisk (state S.Store tx.new.conn.now) → Inside (state S.Store tx.old.conn.now) (state S.Store tx.new.conn.now) }
    ensures survives { Survives (state S.Store tx.old.conn.now) (state S.Store tx.new.conn.now) (λ _. ⊥) }
{
    put_lane(tx, layout, device, taken, closed)
}

// A device's numbers, in one transaction.
pub(crate) fn write_numbers<S: Alter>(
    conn: &mut Connection<S>,
    layout: &Layout,
    device: DeviceId,
    taken: u64,
    closed: u64,
) -> Result<(), Fault>
    requires taken { taken < 2 ^ 63 }
    requires closed { closed < 2 ^ 63 }
    requires idle { conn.old.in_transaction ≡ false }
    ensures value { IsLive (state S.Store conn.new) → IsReady layout.now (state S.Store conn.old) → OnOk result (Becomes layout.now (state S.Store conn.new).now (with_numbers device taken closed (held_of (ours layout.now (state S.Store conn.old).now.trees))) × ((state S.Store conn.new).now ≡ (state S.Store conn.new).committed)) }
    ensures same { IsLive (state S.Store conn.new) → IsReady layout.now (state S.Store conn.old) → OnErr result (SameRows (state S.Store conn.old) (state S.Store conn.new)) }
    ensures crash { Survives (state S.Store conn.old) (state S.Store conn.new) (λ trees. IsReady layout.now (state S.Store conn.old) → MayBecome layout.now (with_numbers device taken closed (held_of (ours layout.now (state S.Store conn.old).now.trees))) trees) }
    ensures live { IsLive (state S.Store conn.new) → IsLive (state S.Store conn.old) }
    ensures stays { HasCleanDisk (state S.Store conn.new) → OnOk result (IsTrue (state S.Store conn.new).is_open) }
    ensures idle { conn.new.in_transaction ≡ false }
{
    let mut tx = conn.transaction();
    put_numbers(&mut tx, layout, device, taken, closed)?;
    commit(tx)
}

fn put_retired<S: Alter>(
    tx: &mut Transaction<'_, S>,
    layout: &Layout,
    device: DeviceId,
) -> Result<(), Fault>
    ensures same_reference { tx.new.conn.ghost_name ≡ tx.old.conn.ghost_name }
    ensures puts { HasCleanDisk (state S.Store tx.new.conn.now) → IsTrue (state S.Store tx.old.conn.now).in_transaction → (state S.Store tx.old.conn.now).now.schema ≡ schema_in layout.now → AreReadable (ours layout.now (state S.Store tx.old.conn.now).now.trees)
        → OnOk result (Becomes layout.now (state S.Store tx.new.conn.now).now (with_retired_lane device (held_of (ours layout.now (state S.Store tx.old.conn.now).now.trees))) × IsTrue (state S.Store tx.new.conn.now).in_transaction) }
    ensures inside { HasCleanDisk (state S.Store tx.new.conn.now) → Inside (state S.Store tx.old.conn.now) (state S.Store tx.new.conn.now) }
    ensures survives { Survives (state S.Store tx.old.conn.now) (state S.Store tx.new.conn.now) (λ _. ⊥) }
{
    let cells = [parameter(u64::from(device.get()))];
    change(tx, PUT_RETIRED, &cells)?;
    Ok(())
}

// That a device's lane is retired, in one transaction.
pub(crate) fn write_retired<S: Alter>(
    conn: &mut Connection<S>,
    layout: &Layout,
    device: DeviceId,
) -> Result<(), Fault>
    requires { conn.old.in_transaction ≡ false }
    ensures value { IsLive (state S.Store conn.new) → IsReady layout.now (state S.Store conn.old) → OnOk result (Becomes layout.now (state S.Store conn.new).now (with_retired_lane device (held_of (ours layout.now (state S.Store conn.old).now.trees))) × ((state S.Store conn.new).now ≡ (state S.Store conn.new).committed)) }
    ensures same { IsLive (state S.Store conn.new) → IsReady layout.now (state S.Store conn.old) → OnErr result (SameRows (state S.Store conn.old) (state S.Store conn.new)) }
    ensures crash { Survives (state S.Store conn.old) (state S.Store conn.new) (λ trees. IsReady layout.now (state S.Store conn.old) → MayBecome layout.now (with_retired_lane device (held_of (ours layout.now (state S.Store conn.old).now.trees))) trees) }
    ensures live { IsLive (state S.Store conn.new) → IsLive (state S.Store conn.old) }
    ensures stays { HasCleanDisk (state S.Store conn.new) → OnOk result (IsTrue (state S.Store conn.new).is_open) }
    ensures idle { conn.new.in_transaction ≡ false }
{
    let mut tx = conn.transaction();
    put_retired(&mut tx, layout, device)?;
    commit(tx)
}
