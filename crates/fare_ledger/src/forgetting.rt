ghost use Rattle.std.specs.Prelude.{◌≡◌, ◌<◌, ◌^◌, false, IsTrue, OnOk, OnErr};
ghost use Rattle.sqlite.specs.State.{HasCleanDisk, Survives};
ghost use Rattle.sqlite.specs.Held.{state};
ghost use Rattle.fare_tables.specs.Asking.{IsLive, SameRows, Inside};
ghost use Rattle.fare_ledger.specs.Layouts.{schema_in, ours};
ghost use Rattle.fare_ledger.specs.Held.{held_of, AreReadable, IsReady, Becomes, MayBecome, with_since, without_taps, without_statements, forgot};

use crate::Layout;
use crate::statements::{CUT_STATED, CUT_TAPS, PUT_SINCE};
use fare_record::{Day, DeviceId};
use fare_store::Fault;
use fare_tables::{change, commit, parameter};
use sqlite::{Alter, Connection, Transaction};

// Removes a device's taps up to a lane number.
fn cut_taps<S: Alter>(
    tx: &mut Transaction<'_, S>,
    layout: &Layout,
    device: DeviceId,
    upto: u64,
) -> Result<(), Fault>
    requires { upto < 2 ^ 63 }
    ensures same_reference { tx.new.conn.ghost_name ≡ tx.old.conn.ghost_name }
    ensures puts { HasCleanDisk (state S.Store tx.new.conn.now) → IsTrue (state S.Store tx.old.conn.now).in_transaction → (state S.Store tx.old.conn.now).now.schema ≡ schema_in layout.now → AreReadable (ours layout.now (state S.Store tx.old.conn.now).now.trees)
        → OnOk result (Becomes layout.now (state S.Store tx.new.conn.now).now (without_taps device upto (held_of (ours layout.now (state S.Store tx.old.conn.now).now.trees))) × IsTrue (state S.Store tx.new.conn.now).in_transaction) }
    ensures inside { HasCleanDisk (state S.Store tx.new.conn.now) → Inside (state S.Store tx.old.conn.now) (state S.Store tx.new.conn.now) }
    ensures survives { Survives (state S.Store tx.old.conn.now) (state S.Store tx.new.conn.now) (λ _. ⊥) }
{
    let asked = [parameter(u64::from(device.get())), parameter(upto)];
    change(tx, CUT_TAPS, &asked)?;
    Ok(())
}

// Removes a device's statements of the days before this one.
fn cut_statements<S: Alter>(
    tx: &mut Transaction<'_, S>,
    layout: &Layout,
    device: DeviceId,
    day: Day,
) -> Result<(), Fault>
    ensures same_reference { tx.new.conn.ghost_name ≡ tx.old.conn.ghost_name }
    ensures puts { HasCleanDisk (state S.Store tx.new.conn.now) → IsTrue (state S.Store tx.old.conn.now).in_transaction → (state S.Store tx.old.conn.now).now.schema ≡ schema_in layout.now → AreReadable (ours layout.now (state S.Store tx.old.conn.now).now.trees)
        → OnOk result (Becomes layout.now (state S.Store tx.new.conn.now).now (without_statements device day (held_of (ours layout.now (state S.Store tx.old.conn.now).now.trees))) × IsTrue (state S.Store tx.new.conn.now).in_transaction) }
    ensures inside { HasCleanDisk (state S.Store tx.new.conn.now) → Inside (state S.Store tx.old.conn.now) (state S.Store tx.new.conn.now) }
    ensures survives { Survives (state S.Store tx.old.conn.now) (state S.Store tx.new.conn.now) (λ _. ⊥) }
{
    let asked = [
        parameter(u64::from(device.get())),
        parameter(u64::from(day.get())),
    ];
    change(tx, CUT_STATED, &asked)?;
    Ok(())
}

// All of a device is held from this day on.
fn put_since<S: Alter>(
    tx: &mut Transaction<'_, S>,
    layout: &Layout,
    device: DeviceId,
    since: Day,
) -> Result<(), Fault>
    ensures same_reference { tx.new.conn.ghost_name ≡ tx.old.conn.ghost_name }
    ensures puts { HasCleanDisk (state S.Store tx.new.conn.now) → IsTrue (state S.Store tx.old.conn.now).in_transaction → (state S.Store tx.old.conn.now).now.schema ≡ schema_in layout.now → AreReadable (ours layout.now (state S.Store tx.old.conn.now).now.trees)
        → OnOk result (Becomes layout.now (state S.Store tx.new.conn.now).now (with_since device since (held_of (ours layout.now (state S.Store tx.old.conn.now).now.trees))) × IsTrue (state S.Store tx.new.conn.now).in_transaction) }
    ensures inside { HasCleanDisk (state S.Store tx.new.conn.now) → Inside (state S.Store tx.old.conn.now) (state S.Store tx.new.conn.now) }
    ensures survives { Survives (state S.Store tx.old.conn.now) (state S.Store tx.new.conn.now) (λ _. ⊥) }
{
    let cells = [
        parameter(u64::from(device.get())),
        parameter(u64::from(since.get())),
    ];
    change(tx, PUT_SINCE, &cells)?;
    Ok(())
}

// A device's taps up to a lane number and its statements before a day go, and all of it is held from another day on.
fn cut_all<S: Alter>(
    tx: &mut Transaction<'_, S>,
    layout: &Layout,
    device: DeviceId,
    upto: u64,
    day: Day,
    since: Day,
) -> Result<(), Fault>
    requires { upto < 2 ^ 63 }
    ensures same_reference { tx.new.conn.ghost_name ≡ tx.old.conn.ghost_name }
    ensures puts { HasCleanDisk (state S.Store tx.new.conn.now) → IsTrue (state S.Store tx.old.conn.now).in_transaction → (state S.Store tx.old.conn.now).now.schema ≡ schema_in layout.now → AreReadable (ours layout.now (state S.Store tx.old.conn.now).now.trees)
        → OnOk result (Becomes layout.now (state S.Store tx.new.conn.now).now (forgot device upto day since (held_of (ours layout.now (state S.Store tx.old.conn.now).now.trees))) × IsTrue (state S.Store tx.new.conn.now).in_transaction) }
    ensures inside { HasCleanDisk (state S.Store tx.new.conn.now) → Inside (state S.Store tx.old.conn.now) (state S.Store tx.new.conn.now) }
    ensures survives { Survives (state S.Store tx.old.conn.now) (state S.Store tx.new.conn.now) (λ _. ⊥) }
{
    cut_taps(tx, layout, device, upto)?;
    cut_statements(tx, layout, device, day)?;
    put_since(tx, layout, device, since)
}

// The same, in one transaction.
pub(crate) fn write_cut<S: Alter>(
    conn: &mut Connection<S>,
    layout: &Layout,
    device: DeviceId,
    upto: u64,
    day: Day,
    since: Day,
) -> Result<(), Fault>
    requires upto { upto < 2 ^ 63 }
    requires idle { conn.old.in_transaction ≡ false }
    ensures value { IsLive (state S.Store conn.new) → IsReady layout.now (state S.Store conn.old) → OnOk result (Becomes layout.now (state S.Store conn.new).now (forgot device upto day since (held_of (ours layout.now (state S.Store conn.old).now.trees))) × ((state S.Store conn.new).now ≡ (state S.Store conn.new).committed)) }
    ensures same { IsLive (state S.Store conn.new) → IsReady layout.now (state S.Store conn.old) → OnErr result (SameRows (state S.Store conn.old) (state S.Store conn.new)) }
    ensures crash { Survives (state S.Store conn.old) (state S.Store conn.new) (λ trees. IsReady layout.now (state S.Store conn.old) → MayBecome layout.now (forgot device upto day since (held_of (ours layout.now (state S.Store conn.old).now.trees))) trees) }
    ensures live { IsLive (state S.Store conn.new) → IsLive (state S.Store conn.old) }
    ensures stays { HasCleanDisk (state S.Store conn.new) → OnOk result (IsTrue (state S.Store conn.new).is_open) }
    ensures idle { conn.new.in_transaction ≡ false }
{
    let mut tx = conn.transaction();
    cut_all(&mut tx, layout, device, upto, day, since)?;
    commit(tx)
}
