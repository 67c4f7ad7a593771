ghost use Rattle.std.specs.Prelude.{nat_eq};
ghost use Rattle.std.specs.HashMap.{get};
ghost use Rattle.fare_store.specs.TapPlaces.{items_of, marks_of, gone_in, at_place, AreNumbered, AreMarked, AreLetGo, IsBegunAt, AreClosed};

mod calls;
mod forgetting;
mod keeping;
mod taking;

use fare_record::{Day, DeviceId, OwnerId, Record};
use std::alloc::Global;
use std::collections::{HashMap, HashSet};

// A tap, by its device and its place among all that were taken of the device.
type Mark = (DeviceId, u64);

// What was let go of a device: how many taps, and the first day of which all is held.
#[derive(Clone, Copy)]
struct Gone {
    count: u64,
    from: Day,
}

/// The ledger of an owner, in memory. It never answers `Store`.
pub struct PlainLedger {
    alloc: Global,
    owner: OwnerId,
    // The scheme's first day.
    start: Day,
    // A device of which a tap was taken, once there is one.
    begun: Option<DeviceId>,
    // The taps of each device of the scheme that are held, by lane number.
    taken: HashMap<DeviceId, Vec<Record>>,
    // What was let go, of each device of which something was.
    gone: HashMap<DeviceId, Gone>,
    // The taps of each day, in the order of taking, with those that were let go.
    days: HashMap<Day, Vec<Mark>>,
    // The stated counts.
    stated: HashMap<(DeviceId, Day), u64>,
    // The last closed day of each device that has one.
    closed: HashMap<DeviceId, Day>,
    // The devices whose lanes are retired.
    retired: HashSet<DeviceId>,
    ghost numbered: { AreNumbered (at_place (λ device. gone_in (get nat_eq gone device)) (λ device. items_of (get nat_eq taken device))) },
    ghost marked: { AreMarked (λ device. gone_in (get nat_eq gone device)) (at_place (λ device. gone_in (get nat_eq gone device)) (λ device. items_of (get nat_eq taken device))) (λ day. marks_of (get nat_eq days day)) },
    ghost let_go: { AreLetGo (get nat_eq gone) },
    ghost begun_at: { IsBegunAt begun (λ device. gone_in (get nat_eq gone device)) (λ device. items_of (get nat_eq taken device)) },
    ghost ends: { AreClosed start (get nat_eq closed) },
}

impl Drop for PlainLedger {
    // Derived, it would stand map by map in the proof of each function that may let a ledger go.
    fn drop(self) {
        let PlainLedger {
            alloc: _,
            owner: _,
            start: _,
            begun: _,
            taken,
            gone,
            days,
            stated,
            closed,
            retired,
        } = self;
        drop(taken);
        drop(gone);
        drop(days);
        drop(stated);
        drop(closed);
        drop(retired);
    }
}
