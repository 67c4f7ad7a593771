ghost use Rattle.std.specs.Prelude.{◌≡◌, ◌≤◌, ℕ, ◌↔◌, IsTrue, IsFalse, IfOk, Err, length};
ghost use Rattle.fare_owner.specs.declared.tap.TapFault.TheVariants as tap_fault;
ghost use Rattle.fare_owner.specs.declared.statement.StatementFault.TheVariants as statement_fault;
ghost use Rattle.fare_owner.specs.declared.retiring.RetireFault.TheVariants as retire_fault;
ghost use Rattle.fare_store.specs.declared.fault.ForgetFault.TheVariants as forget_fault;
ghost use Rattle.fare_store.specs.declared.fault.Refused.TheVariants.{Because};
ghost use Rattle.fare_record.specs.Lanes.{day_count};
ghost use Rattle.fare_store.specs.Standing.{Standing, IsSound, Reads, Writes};
ghost use Rattle.fare_store.specs.Batches.{WritesFirst};
ghost use Rattle.fare_store.specs.LedgerWords.{LedgerValue, IsEmptyLedger, closed_through, is_mine, take_judged, took, state_judged, with_statement, close_of, with_close, retire_of, with_retired, forget_judged, forgotten, gone_of, AreTapsBetween};

use crate::{Fault, ForgetFault, Refused};
use fare_owner::{CloseFault, RetireFault, StatementFault, TapFault};
use fare_record::{Day, DeviceId, OwnerId, Record, Statement};

/// The ledger of an owner: by device, the taps that it has taken, the statements, the closed days, and whether its
/// lane is retired. Each call but `owner` may want memory, and may find that the store fails; then nothing has changed.
pub trait Ledger {
    /// What it holds, and how it stands.
    ghost standing: { Self → Standing LedgerValue };

    /// Whose it is.
    fn owner(&self) -> OwnerId
        ensures { result ≡ (standing self.now).value.owner };

    /// Whether it has no tap, no statement, no closed day and no retired lane.
    fn is_empty(&mut self) -> Result<bool, Fault>
        ensures { Reads (standing self.old) (standing self.new) (λ empty. IsTrue empty ↔ IsEmptyLedger (standing self.old).value) result };

    /// How many taps of a device it has taken.
    fn count(&mut self, device: DeviceId) -> Result<u64, Fault>
        ensures { Reads (standing self.old) (standing self.new) (λ count. count ≡ length ((standing self.old).value.taken device)) result };

    /// How many of these are of a day.
    fn day_count(&mut self, device: DeviceId, day: Day) -> Result<u64, Fault>
        ensures { Reads (standing self.old) (standing self.new) (λ count. count ≡ day_count ((standing self.old).value.taken device) day) result };

    /// The last closed day of a device, if one is closed.
    fn closed_through(&mut self, device: DeviceId) -> Result<Option<Day>, Fault>
        ensures { Reads (standing self.old) (standing self.new) (λ day. day ≡ closed_through (standing self.old).value device) result };

    /// The stated count of a device's day, if it is stated.
    fn stated(&mut self, device: DeviceId, day: Day) -> Result<Option<u64>, Fault>
        ensures { Reads (standing self.old) (standing self.new) (λ count. count ≡ (standing self.old).value.stated device day) result };

    /// Whether its lane of a device is retired.
    fn retired(&mut self, device: DeviceId) -> Result<bool, Fault>
        ensures { Reads (standing self.old) (standing self.new) (λ retired. retired ≡ (standing self.old).value.retired device) result };

    /// Takes the owner's next tap of a device.
    ///
    /// Refused by the first case of `TapFault` that applies. `NotMine` is decided by the ledger's owner and scheme
    /// alone: then nothing is asked of the store, so a ledger that a failure has shut answers it too, and no fault
    /// stands in its place.
    fn take(&mut self, row: &Record) -> Result<(), Refused<TapFault>>
        ensures not_mine { (result ≡ Err (Because tap_fault.NotMine)) ↔ IsFalse (is_mine (standing self.old).value row.now.owner row.now.device) }
        ensures unasked { result ≡ Err (Because tap_fault.NotMine) → self.new ≡ self.old }
        ensures does { IsTrue (is_mine (standing self.old).value row.now.owner row.now.device) → Writes (standing self.old) (standing self.new) (take_judged (standing self.old).value row.now) (took row.now (standing self.old).value) result };

    /// Takes the first of these taps, in their order and all at once, and answers how many.
    ///
    /// None of them would be refused by `take`, each behind the ones before it. None is taken only where the first
    /// one would be refused, or where there is none.
    fn take_all(&mut self, rows: &[Record]) -> Result<usize, Fault>
        ensures does { WritesFirst take_judged took (standing self.old) (standing self.new) rows.now result }
        ensures few { IfOk result (λ n. n ≤ length rows.now) };

    /// Takes a statement.
    ///
    /// Refused by the first case of `StatementFault` that applies; `NotMine` as in `take`.
    fn state(&mut self, statement: &Statement) -> Result<(), Refused<StatementFault>>
        ensures not_mine { (result ≡ Err (Because statement_fault.NotMine)) ↔ IsFalse (is_mine (standing self.old).value statement.now.owner statement.now.device) }
        ensures unasked { result ≡ Err (Because statement_fault.NotMine) → self.new ≡ self.old }
        ensures does { IsTrue (is_mine (standing self.old).value statement.now.owner statement.now.device) → Writes (standing self.old) (standing self.new) (state_judged (standing self.old).value statement.now) (with_statement statement.now (standing self.old).value) result };

    /// Closes a device's first day that isn't closed, where the stated count is the count of that day's taps.
    ///
    /// Refused by the first case of `CloseFault` that applies.
    fn close(&mut self, device: DeviceId, day: Day) -> Result<(), Refused<CloseFault>>
        ensures { Writes (standing self.old) (standing self.new) (close_of (standing self.old).value device day) (with_close device (standing self.old).value) result };

    /// Retires the owner's lane of a device that will never be read out: from then on nothing of it is taken, stated or
    /// closed, for good.
    ///
    /// Refused by the first case of `RetireFault` that applies; `NotMine` as in `take`.
    fn retire(&mut self, device: DeviceId) -> Result<(), Refused<RetireFault>>
        ensures not_mine { (result ≡ Err (Because retire_fault.NotMine)) ↔ IsFalse ((standing self.old).value.knows device) }
        ensures unasked { result ≡ Err (Because retire_fault.NotMine) → self.new ≡ self.old }
        ensures does { IsTrue ((standing self.old).value.knows device) → Writes (standing self.old) (standing self.new) (retire_of (standing self.old).value device) (with_retired device (standing self.old).value) result };

    /// Lets go what is of a device's days before this one: its first taps, up to the first that is of this day or a
    /// later one, and the statements. How many taps it has taken, and which lane number comes next, stays.
    ///
    /// Refused by the first case of `ForgetFault` that applies; `UnknownDevice` is decided as `NotMine` is in `take`.
    fn forget(&mut self, device: DeviceId, day: Day) -> Result<(), Refused<ForgetFault>>
        ensures unknown { (result ≡ Err (Because forget_fault.UnknownDevice)) ↔ IsFalse ((standing self.old).value.knows device) }
        ensures unasked { result ≡ Err (Because forget_fault.UnknownDevice) → self.new ≡ self.old }
        ensures does { IsTrue ((standing self.old).value.knows device) → Writes (standing self.old) (standing self.new) (forget_judged (standing self.old).value device day) (forgotten device day (standing self.old).value) result };

    /// The first day of which a device's taps and statements are all held: nothing of it or of a later day was let go.
    fn held_from(&mut self, device: DeviceId) -> Result<Day, Fault>
        ensures { Reads (standing self.old) (standing self.new) (λ day. day ≡ (standing self.old).value.from device) result };

    /// How many of a device's taps were let go.
    fn gone(&mut self, device: DeviceId) -> Result<u64, Fault>
        ensures { Reads (standing self.old) (standing self.new) (λ n. n ≡ gone_of ((standing self.old).value.taken device)) result };

    /// The taps of the days from one to another, by day, moment, device and lane number.
    fn taps_between(&mut self, from: Day, to: Day) -> Result<Vec<Record>, Fault>
        ensures { Reads (standing self.old) (standing self.new) (λ taps. AreTapsBetween (standing self.old).value from to taps.items) result };

    /// While it is live it is clean, and a stop leaves what it holds, which fits together where it is lawful; while it
    /// is clean, a stop leaves something.
    ghost sound: { (s : Self) → IsSound (standing s) };
}
