ghost use Rattle.std.specs.Prelude.{◌≡◌, ◌<◌, ◌^◌, false, length, IsTrue, OnOk, OnErr};
ghost use Rattle.sqlite.specs.State.{HasCleanDisk, Survives};
ghost use Rattle.sqlite.specs.Held.{state};
ghost use Rattle.sqlite.specs.Values.{bound};
ghost use Rattle.fare_tables.specs.Asking.{IsLive, SameRows, Inside};
ghost use Rattle.fare_tables.specs.Cells.{AreRows};
ghost use Rattle.fare_outbox_rows.specs.Layouts.{schema_in, ours};
ghost use Rattle.fare_outbox_rows.specs.Batches.{names, with_tap_if, with_taps};
ghost use Rattle.fare_outbox_rows.specs.Held.{held_of, AreReadable, IsReady, IsDevice, Becomes, MayBecome, PutsTap, PutsLink, PutsStated, tap_cells, stated_cells, with_tap, with_statement};

use crate::Layout;
use crate::statements::{PUT_LINK, PUT_STATEMENT, PUT_TAP};
use fare_record::{DeviceId, Record, Statement};
use fare_store::Fault;
use fare_tables::{change, commit, parameter};
use sqlite::types::ValueRef;
use sqlite::{Alter, Connection, Transaction};

fn cells_of(row: &Record) -> [ValueRef<'static>; 9]
    ensures { bound result ≡ tap_cells row.now }
{
    let tap = row.tap();
    [
        parameter(u64::from(row.owner().get())),
        parameter(u64::from(row.device().get())),
        parameter(row.lane()),
        parameter(row.link()),
        parameter(u64::from(tap.product().get())),
        parameter(tap.token().get()),
        parameter(tap.moment().get()),
        parameter(u64::from(tap.day().get())),
        parameter(u64::from(tap.route())),
    ]
}

fn put_tap<S: Alter>(
    tx: &mut Transaction<'_, S>,
    layout: &Layout,
    row: &Record,
) -> Result<(), Fault>
    ensures same_reference { tx.new.conn.ghost_name ≡ tx.old.conn.ghost_name }
    ensures puts { HasCleanDisk (state S.Store tx.new.conn.now) → IsTrue (state S.Store tx.old.conn.now).in_transaction → (state S.Store tx.old.conn.now).now.schema ≡ schema_in layout.now
        → OnOk result (PutsTap layout.now (state S.Store tx.old.conn.now).now (state S.Store tx.new.conn.now).now row.now × IsTrue (state S.Store tx.new.conn.now).in_transaction) }
    ensures inside { HasCleanDisk (state S.Store tx.new.conn.now) → Inside (state S.Store tx.old.conn.now) (state S.Store tx.new.conn.now) }
    ensures survives { Survives (state S.Store tx.old.conn.now) (state S.Store tx.new.conn.now) (λ _. ⊥) }
{
    let cells = cells_of(row);
    change(tx, PUT_TAP, &cells)?;
    Ok(())
}

fn put_link<S: Alter>(
    tx: &mut Transaction<'_, S>,
    layout: &Layout,
    device: DeviceId,
    upto: u64,
) -> Result<(), Fault>
    requires { upto < 2 ^ 63 }
    ensures same_reference { tx.new.conn.ghost_name ≡ tx.old.conn.ghost_name }
    ensures puts { HasCleanDisk (state S.Store tx.new.conn.now) → IsTrue (state S.Store tx.old.conn.now).in_transaction → (state S.Store tx.old.conn.now).now.schema ≡ schema_in layout.now → AreRows IsDevice (ours layout.now (state S.Store tx.old.conn.now).now.trees 1)
        → OnOk result (PutsLink layout.now (state S.Store tx.old.conn.now).now (state S.Store tx.new.conn.now).now device upto × IsTrue (state S.Store tx.new.conn.now).in_transaction) }
    ensures inside { HasCleanDisk (state S.Store tx.new.conn.now) → Inside (state S.Store tx.old.conn.now) (state S.Store tx.new.conn.now) }
    ensures survives { Survives (state S.Store tx.old.conn.now) (state S.Store tx.new.conn.now) (λ _. ⊥) }
{
    let cells = [parameter(u64::from(device.get())), parameter(upto)];
    change(tx, PUT_LINK, &cells)?;
    Ok(())
}

// The row and the greatest link of its device.
fn put_row<S: Alter>(
    tx: &mut Transaction<'_, S>,
    layout: &Layout,
    row: &Record,
) -> Result<(), Fault>
    ensures same_reference { tx.new.conn.ghost_name ≡ tx.old.conn.ghost_name }
    ensures puts { HasCleanDisk (state S.Store tx.new.conn.now) → IsTrue (state S.Store tx.old.conn.now).in_transaction → (state S.Store tx.old.conn.now).now.schema ≡ schema_in layout.now → AreReadable (ours layout.now (state S.Store tx.old.conn.now).now.trees)
        → OnOk result (Becomes layout.now (state S.Store tx.new.conn.now).now (with_tap row.now (held_of (ours layout.now (state S.Store tx.old.conn.now).now.trees))) × IsTrue (state S.Store tx.new.conn.now).in_transaction) }
    ensures inside { HasCleanDisk (state S.Store tx.new.conn.now) → Inside (state S.Store tx.old.conn.now) (state S.Store tx.new.conn.now) }
    ensures survives { Survives (state S.Store tx.old.conn.now) (state S.Store tx.new.conn.now) (λ _. ⊥) }
{
    put_tap(tx, layout, row)?;
    put_link(tx, layout, row.device(), row.link())
}

/// Adds a row, with the greatest link of its device, in one transaction. Where it fails the rows are as before: Store for
/// a database that fails or is not as the tables ask, Memory for want of memory.
pub fn write_row<S: Alter>(
    conn: &mut Connection<S>,
    layout: &Layout,
    row: &Record,
) -> Result<(), Fault>
    requires { conn.old.in_transaction ≡ false }
    ensures value { IsLive (state S.Store conn.new) → IsReady layout.now (state S.Store conn.old) → OnOk result (Becomes layout.now (state S.Store conn.new).now (with_tap row.now (held_of (ours layout.now (state S.Store conn.old).now.trees))) × ((state S.Store conn.new).now ≡ (state S.Store conn.new).committed)) }
    ensures same { IsLive (state S.Store conn.new) → IsReady layout.now (state S.Store conn.old) → OnErr result (SameRows (state S.Store conn.old) (state S.Store conn.new)) }
    ensures crash { Survives (state S.Store conn.old) (state S.Store conn.new) (λ trees. IsReady layout.now (state S.Store conn.old) → MayBecome layout.now (with_tap row.now (held_of (ours layout.now (state S.Store conn.old).now.trees))) trees) }
    ensures live { IsLive (state S.Store conn.new) → IsLive (state S.Store conn.old) }
    ensures stays { HasCleanDisk (state S.Store conn.new) → OnOk result (IsTrue (state S.Store conn.new).is_open) }
    ensures idle { conn.new.in_transaction ≡ false }
{
    let mut tx = conn.transaction();
    put_row(&mut tx, layout, row)?;
    commit(tx)
}

// The row, and the greatest link of its device where no other row of the device is to come behind it.
fn put_next<S: Alter>(
    tx: &mut Transaction<'_, S>,
    layout: &Layout,
    row: &Record,
    last: bool,
) -> Result<(), Fault>
    ensures same_reference { tx.new.conn.ghost_name ≡ tx.old.conn.ghost_name }
    ensures puts { HasCleanDisk (state S.Store tx.new.conn.now) → IsTrue (state S.Store tx.old.conn.now).in_transaction → (state S.Store tx.old.conn.now).now.schema ≡ schema_in layout.now → AreReadable (ours layout.now (state S.Store tx.old.conn.now).now.trees)
        → OnOk result (Becomes layout.now (state S.Store tx.new.conn.now).now (with_tap_if last row.now (held_of (ours layout.now (state S.Store tx.old.conn.now).now.trees))) × IsTrue (state S.Store tx.new.conn.now).in_transaction) }
    ensures inside { HasCleanDisk (state S.Store tx.new.conn.now) → Inside (state S.Store tx.old.conn.now) (state S.Store tx.new.conn.now) }
    ensures survives { Survives (state S.Store tx.old.conn.now) (state S.Store tx.new.conn.now) (λ _. ⊥) }
{
    if !last {
        return put_tap(tx, layout, row);
    }
    put_row(tx, layout, row)
}

// Whether one of these rows is of a device.
fn names(rows: &[Record], device: DeviceId) -> bool
    ensures { result ≡ names device rows.now }
{
    rows.iter().any(|row| row.device() == device)
}

// The rows, and the greatest link of each of their devices once, with its last row.
fn put_rows<S: Alter>(
    tx: &mut Transaction<'_, S>,
    layout: &Layout,
    rows: &[Record],
) -> Result<(), Fault>
    requires { 0 < length rows.now }
    ensures same_reference { tx.new.conn.ghost_name ≡ tx.old.conn.ghost_name }
    ensures puts { HasCleanDisk (state S.Store tx.new.conn.now) → IsTrue (state S.Store tx.old.conn.now).in_transaction → (state S.Store tx.old.conn.now).now.schema ≡ schema_in layout.now → AreReadable (ours layout.now (state S.Store tx.old.conn.now).now.trees)
        → OnOk result (Becomes layout.now (state S.Store tx.new.conn.now).now (with_taps rows.now (held_of (ours layout.now (state S.Store tx.old.conn.now).now.trees))) × IsTrue (state S.Store tx.new.conn.now).in_transaction) }
    ensures inside { HasCleanDisk (state S.Store tx.new.conn.now) → Inside (state S.Store tx.old.conn.now) (state S.Store tx.new.conn.now) }
    ensures survives { Survives (state S.Store tx.old.conn.now) (state S.Store tx.new.conn.now) (λ _. ⊥) }
{
    for place in 0..rows.len() {
        let row = &rows[place];
        let last = !names(&rows[place + 1..], row.device());
        put_next(tx, layout, row, last)?;
    }
    Ok(())
}

/// Adds rows, of one at least, with the greatest link of each of their devices, in one transaction. Where it fails all
/// rows are as before, by the faults of `write_row`.
pub fn write_rows<S: Alter>(
    conn: &mut Connection<S>,
    layout: &Layout,
    rows: &[Record],
) -> Result<(), Fault>
    requires some { 0 < length rows.now }
    requires idle { conn.old.in_transaction ≡ false }
    ensures value { IsLive (state S.Store conn.new) → IsReady layout.now (state S.Store conn.old) → OnOk result (Becomes layout.now (state S.Store conn.new).now (with_taps rows.now (held_of (ours layout.now (state S.Store conn.old).now.trees))) × ((state S.Store conn.new).now ≡ (state S.Store conn.new).committed)) }
    ensures same { IsLive (state S.Store conn.new) → IsReady layout.now (state S.Store conn.old) → OnErr result (SameRows (state S.Store conn.old) (state S.Store conn.new)) }
    ensures crash { Survives (state S.Store conn.old) (state S.Store conn.new) (λ trees. IsReady layout.now (state S.Store conn.old) → MayBecome layout.now (with_taps rows.now (held_of (ours layout.now (state S.Store conn.old).now.trees))) trees) }
    ensures live { IsLive (state S.Store conn.new) → IsLive (state S.Store conn.old) }
    ensures stays { HasCleanDisk (state S.Store conn.new) → OnOk result (IsTrue (state S.Store conn.new).is_open) }
    ensures idle { conn.new.in_transaction ≡ false }
{
    let mut tx = conn.transaction();
    put_rows(&mut tx, layout, rows)?;
    commit(tx)
}

fn cells_stated(statement: &Statement) -> [ValueRef<'static>; 4]
    ensures { bound result ≡ stated_cells statement.now }
{
    [
        parameter(u64::from(statement.owner().get())),
        parameter(u64::from(statement.device().get())),
        parameter(u64::from(statement.day().get())),
        parameter(statement.count()),
    ]
}

fn put_statement<S: Alter>(
    tx: &mut Transaction<'_, S>,
    layout: &Layout,
    statement: &Statement,
) -> Result<(), Fault>
    ensures same_reference { tx.new.conn.ghost_name ≡ tx.old.conn.ghost_name }
    ensures puts { HasCleanDisk (state S.Store tx.new.conn.now) → IsTrue (state S.Store tx.old.conn.now).in_transaction → (state S.Store tx.old.conn.now).now.schema ≡ schema_in layout.now → AreReadable (ours layout.now (state S.Store tx.old.conn.now).now.trees)
        → OnOk result (Becomes layout.now (state S.Store tx.new.conn.now).now (with_statement statement.now (held_of (ours layout.now (state S.Store tx.old.conn.now).now.trees))) × IsTrue (state S.Store tx.new.conn.now).in_transaction) }
    ensures inside { HasCleanDisk (state S.Store tx.new.conn.now) → Inside (state S.Store tx.old.conn.now) (state S.Store tx.new.conn.now) }
    ensures survives { Survives (state S.Store tx.old.conn.now) (state S.Store tx.new.conn.now) (λ _. ⊥) }
{
    let cells = cells_stated(statement);
    change(tx, PUT_STATEMENT, &cells)?;
    Ok(())
}

/// Adds a statement in one transaction. Where it fails the rows are as before, by the faults of `write_row`.
pub fn write_statement<S: Alter>(
    conn: &mut Connection<S>,
    layout: &Layout,
    statement: &Statement,
) -> Result<(), Fault>
    requires { conn.old.in_transaction ≡ false }
    ensures value { IsLive (state S.Store conn.new) → IsReady layout.now (state S.Store conn.old) → OnOk result (Becomes layout.now (state S.Store conn.new).now (with_statement statement.now (held_of (ours layout.now (state S.Store conn.old).now.trees))) × ((state S.Store conn.new).now ≡ (state S.Store conn.new).committed)) }
    ensures same { IsLive (state S.Store conn.new) → IsReady layout.now (state S.Store conn.old) → OnErr result (SameRows (state S.Store conn.old) (state S.Store conn.new)) }
    ensures crash { Survives (state S.Store conn.old) (state S.Store conn.new) (λ trees. IsReady layout.now (state S.Store conn.old) → MayBecome layout.now (with_statement statement.now (held_of (ours layout.now (state S.Store conn.old).now.trees))) trees) }
    ensures live { IsLive (state S.Store conn.new) → IsLive (state S.Store conn.old) }
    ensures stays { HasCleanDisk (state S.Store conn.new) → OnOk result (IsTrue (state S.Store conn.new).is_open) }
    ensures idle { conn.new.in_transaction ≡ false }
{
    let mut tx = conn.transaction();
    put_statement(&mut tx, layout, statement)?;
    commit(tx)
}
