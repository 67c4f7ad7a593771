//! The statements of an owner and a device of the days before one go in one transaction.
ghost use Rattle.std.specs.Prelude.{◌≡◌, false, length, filter, IsTrue, IfOk, OnOk, OnErr};
ghost use Rattle.sqlite.specs.State.{HasCleanDisk, Survives};
ghost use Rattle.sqlite.specs.Held.{state};
ghost use Rattle.fare_store.specs.Standing.{Removes};
ghost use Rattle.fare_store.specs.OutboxWords.{without_statements, stated_before};
ghost use Rattle.fare_tables.specs.Asking.{IsLive, IsUp, SameRows, Inside};
ghost use Rattle.fare_outbox_rows.specs.Layouts.{schema_in, ours};
ghost use Rattle.fare_outbox_rows.specs.Held.{held_of, AreReadable, IsReady, Becomes, MayBecome, without_told, is_told};
ghost use Rattle.fare_outbox.specs.Words.{stands};

use crate::SqlOutbox;
use fare_outbox_rows::Layout;
use fare_outbox_rows::statements::CUT_STATED;
use fare_record::{Day, DeviceId, OwnerId};
use fare_store::Fault;
use fare_tables::{change, commit, note, parameter};
use sqlite::{Alter, Connection, Transaction};

// Removes the statements of an owner and a device of the days before this one.
fn cut_stated<S: Alter>(
    tx: &mut Transaction<'_, S>,
    layout: &Layout,
    owner: OwnerId,
    device: DeviceId,
    day: Day,
) -> Result<usize, Fault>
    ensures same_reference { tx.new.conn.ghost_name ≡ tx.old.conn.ghost_name }
    ensures puts { HasCleanDisk (state S.Store tx.new.conn.now) → IsTrue (state S.Store tx.old.conn.now).in_transaction → (state S.Store tx.old.conn.now).now.schema ≡ schema_in layout.now → AreReadable (ours layout.now (state S.Store tx.old.conn.now).now.trees)
        → OnOk result (Becomes layout.now (state S.Store tx.new.conn.now).now (without_told owner device day (held_of (ours layout.now (state S.Store tx.old.conn.now).now.trees))) × IsTrue (state S.Store tx.new.conn.now).in_transaction) }
    ensures inside { HasCleanDisk (state S.Store tx.new.conn.now) → Inside (state S.Store tx.old.conn.now) (state S.Store tx.new.conn.now) }
    ensures survives { Survives (state S.Store tx.old.conn.now) (state S.Store tx.new.conn.now) (λ _. ⊥) }
    ensures count { HasCleanDisk (state S.Store tx.new.conn.now) → IsTrue (state S.Store tx.old.conn.now).in_transaction → (state S.Store tx.old.conn.now).now.schema ≡ schema_in layout.now → AreReadable (ours layout.now (state S.Store tx.old.conn.now).now.trees)
        → IfOk result (λ n. n ≡ length (filter (is_told owner device day) (held_of (ours layout.now (state S.Store tx.old.conn.now).now.trees)).statements)) }
{
    let asked = [
        parameter(u64::from(owner.get())),
        parameter(u64::from(device.get())),
        parameter(u64::from(day.get())),
    ];
    change(tx, CUT_STATED, &asked)
}

// The same in one transaction, and how many went.
fn write_untold<S: Alter>(
    conn: &mut Connection<S>,
    layout: &Layout,
    owner: OwnerId,
    device: DeviceId,
    day: Day,
) -> Result<usize, Fault>
    requires { conn.old.in_transaction ≡ false }
    ensures value { IsLive (state S.Store conn.new) → IsReady layout.now (state S.Store conn.old) → OnOk result (Becomes layout.now (state S.Store conn.new).now (without_told owner device day (held_of (ours layout.now (state S.Store conn.old).now.trees))) × ((state S.Store conn.new).now ≡ (state S.Store conn.new).committed)) }
    ensures same { IsLive (state S.Store conn.new) → IsReady layout.now (state S.Store conn.old) → OnErr result (SameRows (state S.Store conn.old) (state S.Store conn.new)) }
    ensures crash { Survives (state S.Store conn.old) (state S.Store conn.new) (λ trees. IsReady layout.now (state S.Store conn.old) → MayBecome layout.now (without_told owner device day (held_of (ours layout.now (state S.Store conn.old).now.trees))) trees) }
    ensures live { IsLive (state S.Store conn.new) → IsLive (state S.Store conn.old) }
    ensures stays { HasCleanDisk (state S.Store conn.new) → OnOk result (IsTrue (state S.Store conn.new).is_open) }
    ensures idle { conn.new.in_transaction ≡ false }
    ensures count { IsLive (state S.Store conn.new) → IsReady layout.now (state S.Store conn.old) → IfOk result (λ n. n ≡ length (filter (is_told owner device day) (held_of (ours layout.now (state S.Store conn.old).now.trees)).statements)) }
{
    let mut tx = conn.transaction();
    let count = cut_stated(&mut tx, layout, owner, device, day)?;
    commit(tx)?;
    Ok(count)
}

impl<S: Alter> SqlOutbox<S> {
    // Removes the statements of an owner and a device of the days before this one.
    pub(crate) fn cut_statements(
        &mut self,
        owner: OwnerId,
        device: DeviceId,
        day: Day,
    ) -> Result<u64, Fault>
        requires { IsUp (state S.Store self.old.conn) }
        ensures { Removes (stands S.Store self.old) (stands S.Store self.new) (without_statements owner device day (stands S.Store self.old).value) (stated_before day ((stands S.Store self.old).value.stated owner device)) result }
    {
        match write_untold(&mut self.conn, &self.layout, owner, device, day) {
            Ok(count) => {
                let count = count as u64;
                self.statements = self.statements.saturating_sub(count);
                Ok(count)
            }
            Err(fault) => Err(note(&mut self.failures, fault)),
        }
    }
}
