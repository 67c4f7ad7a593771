ghost use Rattle.std.specs.Prelude.{◌≡◌, ◌≤◌, ◌&&◌, ◌||◌, not};
ghost use Rattle.fare_store.specs.Standing.{Calls, Reads, fault_in};
ghost use Rattle.fare_side.specs.Answering.{Answered};
ghost use Rattle.fare_side.specs.OpenDays.{reaches as reaches_day};
ghost use Rattle.fare_side.specs.Weeks.{open_of, short_of, IsWeekOf};

use crate::{BillFault, WeekTaps};
use fare_cap::week_start;
use fare_record::{Day, DeviceId};
use fare_scheme::Scheme;
use fare_store::{Fault, Ledger, Refused};
use std::alloc::Global;

// Whether a last closed day is this day or a later one.
fn reaches(last: Option<Day>, day: Day) -> bool
    ensures { result ≡ reaches_day last day }
{
    match last {
        Some(last) => day <= last,
        None => false,
    }
}

// Whether a bill of a day waits for a device no more: its day is closed, or its lane retired.
fn is_settled(last: Option<Day>, retired: bool, day: Day) -> bool
    ensures { result ≡ (reaches_day last day || retired) }
{
    reaches(last, day) || retired
}

// Whether a bill of a day is short of a device: its lane is retired, and its day not closed.
fn is_short(last: Option<Day>, retired: bool, day: Day) -> bool
    ensures { result ≡ (retired && not (reaches_day last day)) }
{
    retired && !reaches(last, day)
}

// The first device of which a ledger has neither closed a day nor retired the lane, if there is one.
fn first_open<L: Ledger>(
    scheme: &Scheme,
    ledger: &mut L,
    day: Day,
) -> Result<Option<DeviceId>, Fault>
    ensures { Reads (L.standing ledger.old) (L.standing ledger.new) (λ found. (L.standing ledger.old).value.start ≤ day → found ≡ open_of (L.standing ledger.old).value day scheme.now) result }
{
    for device in scheme.devices() {
        let last = ledger.closed_through(*device)?;
        let retired = ledger.retired(*device)?;
        if !is_settled(last, retired, day) {
            return Ok(Some(*device));
        }
    }
    Ok(None)
}

// The devices whose lanes a ledger has retired and of which it has not closed a day, in order of registration.
fn short_devices<L: Ledger>(
    alloc: Global,
    scheme: &Scheme,
    ledger: &mut L,
    day: Day,
) -> Result<Vec<DeviceId>, Fault>
    ensures { Reads (L.standing ledger.old) (L.standing ledger.new) (λ short. (L.standing ledger.old).value.start ≤ day → short.items ≡ short_of (L.standing ledger.old).value day scheme.now) result }
{
    let mut short = Vec::new(alloc);
    for device in scheme.devices() {
        let last = ledger.closed_through(*device)?;
        let retired = ledger.retired(*device)?;
        if is_short(last, retired, day) {
            short.push(*device)?;
        }
    }
    Ok(short)
}

/// The taps that a ledger holds from where the week of a day begins to the day, by day, moment, device and lane
/// number, where of each device of the scheme it has closed the day or retired the lane; and the devices of which they
/// are short.
///
/// `NotClosed` with the first device, in order of registration, whose day the ledger has not closed and whose lane it
/// has not retired; then `Memory` where there was none for it, and `Store` where the ledger failed.
pub fn taps_of_week<L: Ledger>(
    alloc: Global,
    scheme: &Scheme,
    ledger: &mut L,
    day: Day,
) -> Result<WeekTaps, Refused<BillFault>>
    ensures { Calls (L.standing ledger.old) (L.standing ledger.new) (fault_in result) (((L.standing ledger.new).value ≡ (L.standing ledger.old).value) × ((L.standing ledger.old).value.start ≤ day → Answered (IsWeekOf scheme.now (L.standing ledger.old).value day) result)) (λ v. ⊥) }
{
    if let Some(device) = first_open(scheme, ledger, day)? {
        return Err(Refused::Because(BillFault::NotClosed { device }));
    }
    let short = short_devices(alloc, scheme, ledger, day)?;
    let taps = ledger.taps_between(week_start(scheme, day), day)?;
    Ok(WeekTaps { taps, short })
}
