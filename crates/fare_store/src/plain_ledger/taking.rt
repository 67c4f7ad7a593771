ghost use Rattle.std.specs.Prelude.{◌≡◌, ◌<◌, ◌≤◌, ◌+◌, ℕ, nat_eq, ◌∷◌, ◌++◌, [], OnOk, OnErr, IsTrue, IfOk, IfSome, IsSome, is_some, length, slice_get};
ghost use Rattle.std.specs.HashMap.{get};
ghost use Rattle.std.specs.Vec.{vec_len, vec_capacity};
ghost use Rattle.fare_store.specs.Tables.{put};
ghost use Rattle.fare_store.specs.Batches.{DoesFirst};
ghost use Rattle.fare_store.specs.LedgerWords.{take_judged, took, AreTapsBetween};
ghost use Rattle.fare_store.specs.TapPlaces.{items_of, marks_of, gone_in, at_place, rows_at};
ghost use Rattle.fare_store.specs.PlainLedgerWords.{plain_ledger};

use super::{Mark, PlainLedger};
use fare_owner::{TapFault, judge_tap};
use fare_record::{Day, Days, DeviceId, Record};
use std::alloc::{AllocError, Global};
use std::collections::HashMap;

impl PlainLedger {
    // Writes down a device's next tap. At an error nothing changes.
    pub(super) fn write_tap(&mut self, row: &Record) -> Result<(), AllocError>
        requires known { IsTrue ((plain_ledger self.old).knows row.now.device) }
        requires next { row.now.lane ≡ length ((plain_ledger self.old).taken row.now.device) + 1 }
        ensures ok { OnOk result (plain_ledger self.new ≡ took row.now (plain_ledger self.old)) }
        ensures err { OnErr result (plain_ledger self.new ≡ plain_ledger self.old) }
    {
        let device = row.device();
        make_room(&mut self.taken, device)?;
        let mark = (device, row.lane() - 1);
        note(&mut self.days, self.alloc, row.tap().day(), mark)?;
        append(&mut self.taken, row);
        self.begun = Some(device);
        Ok(())
    }

    // Why a tap isn't taken, if it isn't.
    fn judge(&self, row: &Record) -> Result<(), TapFault>
        ensures judged { result ≡ take_judged (plain_ledger self.now) row.now }
        ensures known { OnOk result (IsTrue ((plain_ledger self.now).knows row.now.device)) }
        ensures next { OnOk result (row.now.lane ≡ length ((plain_ledger self.now).taken row.now.device) + 1) }
    {
        let (device, day) = (row.device(), row.tap().day());
        let (mine, held) = self.lane_of(row.owner(), device);
        let closed = self.is_closed(device, day);
        let retired = self.is_retired(device);
        judge_tap(mine, held, closed, row.lane(), retired)
    }

    // Takes the first of these taps, and answers how many. Want of memory ends them, and is answered where there are
    // none; then nothing changes.
    pub(super) fn take_each(&mut self, rows: &[Record]) -> Result<usize, AllocError>
        ensures ok { IfOk result (DoesFirst take_judged took (plain_ledger self.old) (plain_ledger self.new) rows.now) }
        ensures err { OnErr result (plain_ledger self.new ≡ plain_ledger self.old) }
        ensures few { IfOk result (λ n. n ≤ length rows.now) }
    {
        for place in 0..rows.len() {
            let row = &rows[place];
            if self.judge(row).is_err() {
                return Ok(place);
            }
            if let Err(error) = self.write_tap(row) {
                if place == 0 {
                    return Err(error);
                }
                return Ok(place);
            }
        }
        Ok(rows.len())
    }

    // The taps of the days from one to another, in their order.
    pub(super) fn between(&self, from: Day, to: Day) -> Result<Vec<Record>, AllocError>
        ensures { IfOk result (λ taps. AreTapsBetween (plain_ledger self.now) from to taps.items) }
    {
        let mut taps = Vec::new(self.alloc);
        for day in Days::through(from, to) {
            self.add_taps_of(day, &mut taps)?;
        }
        taps.sort_by_key(|r| (r.tap().day(), r.tap().moment(), r.device(), r.lane()))?;
        Ok(taps)
    }

    // Puts the taps of a day behind these, in the order of taking.
    fn add_taps_of(&self, day: Day, taps: &mut Vec<Record>) -> Result<(), AllocError>
        ensures { OnOk result (taps.new.items ≡ taps.old.items ++ rows_at (at_place (λ device. gone_in (get nat_eq self.now.gone device)) (λ device. items_of (get nat_eq self.now.taken device))) (marks_of (get nat_eq self.now.days day))) }
    {
        let Some(marks) = self.days.get(&day) else {
            return Ok(());
        };
        for mark in marks {
            if let Some(row) = self.row_at(*mark) {
                taps.push(row)?;
            }
        }
        Ok(())
    }

    // The tap of a mark, if it is held.
    fn row_at(&self, mark: Mark) -> Option<Record>
        ensures { result ≡ at_place (λ device. gone_in (get nat_eq self.now.gone device)) (λ device. items_of (get nat_eq self.now.taken device)) mark.0 mark.1 }
    {
        let gone = self.gone_of(mark.0).count;
        if mark.1 < gone {
            return None;
        }
        self.taken
            .get(&mark.0)?
            .get((mark.1 - gone) as usize)
            .copied()
    }
}

// Notes a tap of a day, behind those that the day has. At an error nothing changes.
fn note(
    days: &mut HashMap<Day, Vec<Mark>>,
    alloc: Global,
    day: Day,
    mark: Mark,
) -> Result<(), AllocError>
    ensures ok { OnOk result ((other : ℕ) → marks_of (get nat_eq days.new other) ≡ put (λ d. marks_of (get nat_eq days.old d)) day (marks_of (get nat_eq days.old day) ++ mark ∷ []) other) }
    ensures err { OnErr result ((other : ℕ) → marks_of (get nat_eq days.new other) ≡ marks_of (get nat_eq days.old other)) }
{
    if let Some(marks) = days.get_mut(&day) {
        marks.push(mark)?;
        return Ok(());
    }
    let mut marks = Vec::new(alloc);
    marks.push(mark)?;
    days.insert(day, marks)?;
    Ok(())
}

// Makes room for one tap more of a device.
fn make_room(taken: &mut HashMap<DeviceId, Vec<Record>>, device: DeviceId) -> Result<(), AllocError>
    ensures same { (other : ℕ) → items_of (get nat_eq taken.new other) ≡ items_of (get nat_eq taken.old other) }
    ensures known { (other : ℕ) → is_some (get nat_eq taken.new other) ≡ is_some (get nat_eq taken.old other) }
    ensures room { OnOk result (IfSome (get nat_eq taken.new device) (λ rows. vec_len rows < vec_capacity rows)) }
{
    if let Some(rows) = taken.get_mut(&device) {
        rows.reserve(1)?;
    }
    Ok(())
}

// Puts a tap at the end of its device's, where there is room.
fn append(taken: &mut HashMap<DeviceId, Vec<Record>>, row: &Record)
    requires known { IsSome (get nat_eq taken.old row.now.device) }
    requires room { IfSome (get nat_eq taken.old row.now.device) (λ rows. vec_len rows < vec_capacity rows) }
    ensures known { (other : ℕ) → is_some (get nat_eq taken.new other) ≡ is_some (get nat_eq taken.old other) }
    ensures appended { (other : ℕ) → items_of (get nat_eq taken.new other) ≡ put (λ d. items_of (get nat_eq taken.old d)) row.now.device (items_of (get nat_eq taken.old row.now.device) ++ row.now ∷ []) other }
{
    if let Some(rows) = taken.get_mut(&row.device()) {
        let Ok(()) = rows.push(*row) else {
            unreachable!()
        };
    }
}
