ghost use Rattle.std.specs.Prelude.{◌≡◌, ◌+◌, ◌≤◌, ◌||◌, ℕ, nat_eq, nat_le, OnOk, OnErr, drop, length, is_some};
ghost use Rattle.std.specs.Vec.{vec_len};
ghost use Rattle.std.specs.HashMap.{get};
ghost use Rattle.fare_store.specs.Tables.{put};
ghost use Rattle.fare_store.specs.TapPlaces.{items_of, gone_in, same_day};
ghost use Rattle.fare_store.specs.LedgerWords.{is_past, front, stated_from, forgotten};
ghost use Rattle.fare_store.specs.PlainLedgerWords.{plain_ledger};

use super::{Gone, PlainLedger};
use fare_record::{Day, Days, DeviceId, Record};
use std::alloc::AllocError;
use std::collections::HashMap;

impl PlainLedger {
    // Whether all days of a device before this one are closed, or its lane is retired.
    pub(super) fn is_over_before(&self, device: DeviceId, day: Day) -> bool
        ensures { result ≡ ((plain_ledger self.now).retired device || nat_le day ((plain_ledger self.now).start + (plain_ledger self.now).closed device)) }
    {
        self.is_retired(device) || self.is_closed_before(device, day)
    }

    // Whether all days of a device before this one are closed.
    fn is_closed_before(&self, device: DeviceId, day: Day) -> bool
        ensures { result ≡ nat_le day ((plain_ledger self.now).start + (plain_ledger self.now).closed device) }
    {
        match self.closed.get(&device) {
            Some(last) => day.get() <= last.get() + 1,
            None => day <= self.start,
        }
    }

    // Lets go what is of a device's days before this one. At an error nothing changes.
    pub(super) fn let_go(&mut self, device: DeviceId, day: Day) -> Result<(), AllocError>
        ensures ok { OnOk result (plain_ledger self.new ≡ forgotten device day (plain_ledger self.old)) }
        ensures err { OnErr result (plain_ledger self.new ≡ plain_ledger self.old) }
    {
        if day.get() == 0 {
            return Ok(());
        }
        let gone = self.gone_of(device);
        let more = self.front_of(device, day);
        let count = self.lane_behind(device, gone.count, more);
        let from = if gone.from < day { day } else { gone.from };
        self.gone.insert(device, Gone { count, from })?;
        cut(&mut self.taken, device, more);
        remove_before(&mut self.stated, device, day);
        Ok(())
    }

    // How many of the held taps of a device stand before the first that isn't of an earlier day.
    fn front_of(&self, device: DeviceId, day: Day) -> usize
        ensures { result ≡ front day (items_of (get nat_eq self.now.taken device)) }
    {
        match self.taken.get(&device) {
            Some(rows) => front_in(rows, day),
            None => 0,
        }
    }

    // The lane number of the last of so many held taps of a device, the first ones, or of those before it that went.
    fn lane_behind(&self, device: DeviceId, gone: u64, more: usize) -> u64
        requires gone { gone ≡ gone_in (get nat_eq self.now.gone device) }
        requires held { more ≤ length (items_of (get nat_eq self.now.taken device)) }
        requires few { gone ≤ 1099511627775 }
        ensures lane { result ≡ gone + more }
        ensures few { result ≤ 1099511627775 }
    {
        if more == 0 {
            return gone;
        }
        let Some(rows) = self.taken.get(&device) else {
            unreachable!()
        };
        let Some(row) = rows.get(more - 1) else {
            unreachable!()
        };
        row.lane()
    }
}

// Whether a tap is of an earlier day.
fn is_past(row: &Record, day: Day) -> bool
    ensures { result ≡ is_past day row.now }
{
    row.tap().day() < day || row.lane() == 0
}

// How many of these taps stand before the first that isn't of an earlier day.
fn front_in(rows: &[Record], day: Day) -> usize
    ensures { result ≡ front day rows.now }
{
    let mut count: usize = 0;
    for row in rows {
        if !is_past(row, day) {
            return count;
        }
        count += 1;
    }
    count
}

// The first taps of a device go.
fn cut(taken: &mut HashMap<DeviceId, Vec<Record>>, device: DeviceId, count: usize)
    requires held { count ≤ length (items_of (get nat_eq taken.old device)) }
    ensures known { (other : ℕ) → is_some (get nat_eq taken.new other) ≡ is_some (get nat_eq taken.old other) }
    ensures cut { (other : ℕ) → items_of (get nat_eq taken.new other) ≡ put (λ d. items_of (get nat_eq taken.old d)) device (drop count (items_of (get nat_eq taken.old device))) other }
{
    if let Some(rows) = taken.get_mut(&device) {
        cut_rows(rows, count);
    }
}

// The first of these taps go.
fn cut_rows(rows: &mut Vec<Record>, count: usize)
    requires { count ≤ vec_len rows.old }
    ensures { rows.new.items ≡ drop count rows.old.items }
{
    drop(rows.drain(..count));
}

// The statements of a device's days before one go.
fn remove_before(stated: &mut HashMap<(DeviceId, Day), u64>, device: DeviceId, day: Day)
    ensures { (d e : ℕ) → get same_day stated.new (d, e) ≡ put (λ x y. get same_day stated.old (x, y)) device (stated_from day (λ y. get same_day stated.old (device, y))) d e }
{
    for earlier in Days::until(Day::FIRST, day) {
        stated.remove(&(device, earlier));
    }
}
