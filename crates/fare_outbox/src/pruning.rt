//! The rows of a lane, or of several lanes, go in one transaction.
ghost use Rattle.std.specs.Prelude.{◌≡◌, ◌<◌, ◌^◌, false, length, filter, IsTrue, IfOk, OnOk, OnErr};
ghost use Rattle.sqlite.specs.State.{HasCleanDisk, Survives};
ghost use Rattle.sqlite.specs.Held.{state};
ghost use Rattle.fare_store.specs.Standing.{Changes};
ghost use Rattle.fare_store.specs.OutboxWords.{pruned_all};
ghost use Rattle.fare_tables.specs.Asking.{IsLive, IsUp, SameRows, Inside};
ghost use Rattle.fare_outbox_rows.specs.Layouts.{schema_in, ours};
ghost use Rattle.fare_outbox_rows.specs.Held.{held_of, AreReadable, IsReady, Becomes, MayBecome, without_lane, without_lanes, is_cut};
ghost use Rattle.fare_outbox.specs.Words.{stands};

use crate::SqlOutbox;
use crate::storing::within;
use fare_outbox_rows::Layout;
use fare_outbox_rows::statements::CUT_ROWS;
use fare_record::{DeviceId, OwnerId};
use fare_store::Fault;
use fare_tables::{change, commit, note, parameter};
use sqlite::{Alter, Connection, Transaction};

// Removes the rows of a lane up to a lane number.
fn cut_rows<S: Alter>(
    tx: &mut Transaction<'_, S>,
    layout: &Layout,
    owner: OwnerId,
    device: DeviceId,
    upto: u64,
) -> Result<usize, Fault>
    requires { upto < 2 ^ 63 }
    ensures same_reference { tx.new.conn.ghost_name ≡ tx.old.conn.ghost_name }
    ensures puts { HasCleanDisk (state S.Store tx.new.conn.now) → IsTrue (state S.Store tx.old.conn.now).in_transaction → (state S.Store tx.old.conn.now).now.schema ≡ schema_in layout.now → AreReadable (ours layout.now (state S.Store tx.old.conn.now).now.trees)
        → OnOk result (Becomes layout.now (state S.Store tx.new.conn.now).now (without_lane owner device upto (held_of (ours layout.now (state S.Store tx.old.conn.now).now.trees))) × IsTrue (state S.Store tx.new.conn.now).in_transaction) }
    ensures inside { HasCleanDisk (state S.Store tx.new.conn.now) → Inside (state S.Store tx.old.conn.now) (state S.Store tx.new.conn.now) }
    ensures survives { Survives (state S.Store tx.old.conn.now) (state S.Store tx.new.conn.now) (λ _. ⊥) }
    ensures count { HasCleanDisk (state S.Store tx.new.conn.now) → IsTrue (state S.Store tx.old.conn.now).in_transaction → (state S.Store tx.old.conn.now).now.schema ≡ schema_in layout.now → AreReadable (ours layout.now (state S.Store tx.old.conn.now).now.trees)
        → IfOk result (λ n. n ≡ length (filter (is_cut owner device upto) (held_of (ours layout.now (state S.Store tx.old.conn.now).now.trees)).taps)) }
{
    let asked = [
        parameter(u64::from(owner.get())),
        parameter(u64::from(device.get())),
        parameter(upto),
    ];
    change(tx, CUT_ROWS, &asked)
}

// Removes the rows of a lane up to a lane number, in one transaction, and answers how many.
pub(crate) fn write_cut<S: Alter>(
    conn: &mut Connection<S>,
    layout: &Layout,
    owner: OwnerId,
    device: DeviceId,
    upto: u64,
) -> Result<usize, Fault>
    requires low { upto < 2 ^ 63 }
    requires idle { conn.old.in_transaction ≡ false }
    ensures value { IsLive (state S.Store conn.new) → IsReady layout.now (state S.Store conn.old) → OnOk result (Becomes layout.now (state S.Store conn.new).now (without_lane owner device upto (held_of (ours layout.now (state S.Store conn.old).now.trees))) × ((state S.Store conn.new).now ≡ (state S.Store conn.new).committed)) }
    ensures same { IsLive (state S.Store conn.new) → IsReady layout.now (state S.Store conn.old) → OnErr result (SameRows (state S.Store conn.old) (state S.Store conn.new)) }
    ensures crash { Survives (state S.Store conn.old) (state S.Store conn.new) (λ trees. IsReady layout.now (state S.Store conn.old) → MayBecome layout.now (without_lane owner device upto (held_of (ours layout.now (state S.Store conn.old).now.trees))) trees) }
    ensures live { IsLive (state S.Store conn.new) → IsLive (state S.Store conn.old) }
    ensures stays { HasCleanDisk (state S.Store conn.new) → OnOk result (IsTrue (state S.Store conn.new).is_open) }
    ensures idle { conn.new.in_transaction ≡ false }
    ensures count { IsLive (state S.Store conn.new) → IsReady layout.now (state S.Store conn.old) → IfOk result (λ n. n ≡ length (filter (is_cut owner device upto) (held_of (ours layout.now (state S.Store conn.old).now.trees)).taps)) }
{
    let mut tx = conn.transaction();
    let count = cut_rows(&mut tx, layout, owner, device, upto)?;
    commit(tx)?;
    Ok(count)
}

// Removes the rows of an owner's lanes, and answers how many rows are left of so many.
fn cut_lanes<S: Alter>(
    tx: &mut Transaction<'_, S>,
    layout: &Layout,
    owner: OwnerId,
    lanes: &[(DeviceId, u64)],
    rows: u64,
) -> Result<u64, Fault>
    requires { 0 < length lanes.now }
    ensures same_reference { tx.new.conn.ghost_name ≡ tx.old.conn.ghost_name }
    ensures puts { HasCleanDisk (state S.Store tx.new.conn.now) → IsTrue (state S.Store tx.old.conn.now).in_transaction → (state S.Store tx.old.conn.now).now.schema ≡ schema_in layout.now → AreReadable (ours layout.now (state S.Store tx.old.conn.now).now.trees)
        → OnOk result (Becomes layout.now (state S.Store tx.new.conn.now).now (without_lanes owner lanes.now (held_of (ours layout.now (state S.Store tx.old.conn.now).now.trees))) × IsTrue (state S.Store tx.new.conn.now).in_transaction) }
    ensures inside { HasCleanDisk (state S.Store tx.new.conn.now) → Inside (state S.Store tx.old.conn.now) (state S.Store tx.new.conn.now) }
    ensures survives { Survives (state S.Store tx.old.conn.now) (state S.Store tx.new.conn.now) (λ _. ⊥) }
    ensures left { HasCleanDisk (state S.Store tx.new.conn.now) → IsTrue (state S.Store tx.old.conn.now).in_transaction → (state S.Store tx.old.conn.now).now.schema ≡ schema_in layout.now → AreReadable (ours layout.now (state S.Store tx.old.conn.now).now.trees)
        → rows ≡ length (held_of (ours layout.now (state S.Store tx.old.conn.now).now.trees)).taps → IfOk result (λ n. n ≡ length (without_lanes owner lanes.now (held_of (ours layout.now (state S.Store tx.old.conn.now).now.trees))).taps) }
{
    let mut left = rows;
    for lane in lanes {
        let gone = cut_rows(tx, layout, owner, lane.0, within(lane.1))?;
        left = left.saturating_sub(gone as u64);
    }
    Ok(left)
}

// The same in one transaction.
fn write_cuts<S: Alter>(
    conn: &mut Connection<S>,
    layout: &Layout,
    owner: OwnerId,
    lanes: &[(DeviceId, u64)],
    rows: u64,
) -> Result<u64, Fault>
    requires some { 0 < length lanes.now }
    requires idle { conn.old.in_transaction ≡ false }
    ensures value { IsLive (state S.Store conn.new) → IsReady layout.now (state S.Store conn.old) → OnOk result (Becomes layout.now (state S.Store conn.new).now (without_lanes owner lanes.now (held_of (ours layout.now (state S.Store conn.old).now.trees))) × ((state S.Store conn.new).now ≡ (state S.Store conn.new).committed)) }
    ensures same { IsLive (state S.Store conn.new) → IsReady layout.now (state S.Store conn.old) → OnErr result (SameRows (state S.Store conn.old) (state S.Store conn.new)) }
    ensures crash { Survives (state S.Store conn.old) (state S.Store conn.new) (λ trees. IsReady layout.now (state S.Store conn.old) → MayBecome layout.now (without_lanes owner lanes.now (held_of (ours layout.now (state S.Store conn.old).now.trees))) trees) }
    ensures live { IsLive (state S.Store conn.new) → IsLive (state S.Store conn.old) }
    ensures stays { HasCleanDisk (state S.Store conn.new) → OnOk result (IsTrue (state S.Store conn.new).is_open) }
    ensures idle { conn.new.in_transaction ≡ false }
    ensures left { IsLive (state S.Store conn.new) → IsReady layout.now (state S.Store conn.old) → rows ≡ length (held_of (ours layout.now (state S.Store conn.old).now.trees)).taps → IfOk result (λ n. n ≡ length (without_lanes owner lanes.now (held_of (ours layout.now (state S.Store conn.old).now.trees))).taps) }
{
    let mut tx = conn.transaction();
    let left = cut_lanes(&mut tx, layout, owner, lanes, rows)?;
    commit(tx)?;
    Ok(left)
}

impl<S: Alter> SqlOutbox<S> {
    // Removes the rows of an owner's lanes, of one at least.
    pub(crate) fn cut_all(&mut self, owner: OwnerId, lanes: &[(DeviceId, u64)]) -> Result<(), Fault>
        requires some { 0 < length lanes.now }
        requires up { IsUp (state S.Store self.old.conn) }
        ensures { Changes (stands S.Store self.old) (stands S.Store self.new) (pruned_all owner lanes.now (stands S.Store self.old).value) result }
    {
        match write_cuts(&mut self.conn, &self.layout, owner, lanes, self.rows) {
            Ok(left) => {
                self.rows = left;
                Ok(())
            }
            Err(fault) => Err(note(&mut self.failures, fault)),
        }
    }
}
