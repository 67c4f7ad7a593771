ghost use Rattle.std.specs.Prelude.{◌≡◌, ◌≤◌, ℕ, ◌↔◌, IfOk, IsTrue, length};
ghost use Rattle.fare_record.specs.Limits.{IsCount};
ghost use Rattle.fare_store.specs.Standing.{Standing, IsSound, Reads, Writes, Removes, Changes};
ghost use Rattle.fare_store.specs.Batches.{WritesFirst};
ghost use Rattle.fare_store.specs.OutboxWords.{OutboxValue, IsEmptyOutbox, store_judged, stored, stated_judged, stored_statement, IsNextRow, IsNextStatement, pruned, rows_upto, pruned_all, without_statements, stated_before};

use crate::{Fault, Refused, StatedFault, StoreFault};
use fare_record::{Day, DeviceId, OwnerId, Record, Statement};

/// The outbox of the hub: the taps and statements that it has stored for owners, and how far it has had each
/// device's taps. Each call may want memory, and may find that the store fails; then nothing has changed.
pub trait Outbox {
    /// What it holds, and how it stands.
    ghost standing: { Self → Standing OutboxValue };

    /// Whether it has no tap and no statement, and never had a tap.
    fn is_empty(&mut self) -> Result<bool, Fault>
        ensures { Reads (standing self.old) (standing self.new) (λ empty. IsTrue empty ↔ IsEmptyOutbox (standing self.old).value) result };

    /// The greatest link that it has had of a device, 0 where it never saw the device.
    fn upto(&mut self, device: DeviceId) -> Result<u64, Fault>
        ensures read { Reads (standing self.old) (standing self.new) (λ upto. upto ≡ (standing self.old).value.upto device) result }
        ensures valid { IfOk result IsCount };

    /// Stores the device's next tap.
    ///
    /// Refused by the first case of `StoreFault` that applies.
    fn store(&mut self, row: &Record) -> Result<(), Refused<StoreFault>>
        ensures { Writes (standing self.old) (standing self.new) (store_judged (standing self.old).value row.now) (stored row.now (standing self.old).value) result };

    /// Stores the first of these taps, in their order and all at once, and answers how many.
    ///
    /// None of them would be refused by `store`, each behind the ones before it. None is stored only where the first
    /// one would be refused, or where there is none.
    fn store_all(&mut self, rows: &[Record]) -> Result<usize, Fault>
        ensures does { WritesFirst store_judged stored (standing self.old) (standing self.new) rows.now result }
        ensures few { IfOk result (λ n. n ≤ length rows.now) };

    /// Stores a device's statement of a day for an owner.
    ///
    /// Refused by the first case of `StatedFault` that applies.
    fn store_statement(&mut self, statement: &Statement) -> Result<(), Refused<StatedFault>>
        ensures { Writes (standing self.old) (standing self.new) (stated_judged (standing self.old).value statement.now) (stored_statement statement.now (standing self.old).value) result };

    /// The row of least lane number after this one, of an owner's lane of a device.
    fn next_row(
        &mut self,
        owner: OwnerId,
        device: DeviceId,
        after: u64,
    ) -> Result<Option<Record>, Fault>
        ensures { Reads (standing self.old) (standing self.new) (IsNextRow (standing self.old).value.rows owner device after) result };

    /// The statement of least day from this one on, of an owner and a device.
    fn next_statement(
        &mut self,
        owner: OwnerId,
        device: DeviceId,
        from: Day,
    ) -> Result<Option<Statement>, Fault>
        ensures { Reads (standing self.old) (standing self.new) (IsNextStatement (standing self.old).value.stated owner device from) result };

    /// Removes the rows of an owner's lane of a device up to a lane number, and answers how many.
    fn prune(&mut self, owner: OwnerId, device: DeviceId, upto: u64) -> Result<u64, Fault>
        ensures { Removes (standing self.old) (standing self.new) (pruned owner device upto (standing self.old).value) (rows_upto upto ((standing self.old).value.rows owner device)) result };

    /// Removes the rows of an owner's lanes, each of a device up to a lane number, all at once.
    fn prune_all(&mut self, owner: OwnerId, lanes: &[(DeviceId, u64)]) -> Result<(), Fault>
        ensures { Changes (standing self.old) (standing self.new) (pruned_all owner lanes.now (standing self.old).value) result };

    /// Removes the statements of an owner and a device of the days before this one, and answers how many.
    fn forget_statements(
        &mut self,
        owner: OwnerId,
        device: DeviceId,
        day: Day,
    ) -> Result<u64, Fault>
        ensures { Removes (standing self.old) (standing self.new) (without_statements owner device day (standing self.old).value) (stated_before day ((standing self.old).value.stated owner device)) result };

    /// While it is live it is clean, and a stop leaves what it holds, which fits together where it is lawful; while it
    /// is clean, a stop leaves something.
    ghost sound: { (s : Self) → IsSound (standing s) };
}
