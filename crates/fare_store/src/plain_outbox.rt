ghost use Rattle.std.specs.Prelude.{nat_eq};
ghost use Rattle.std.specs.HashMap.{get};
ghost use Rattle.fare_store.specs.Keys.{same_lane};
ghost use Rattle.fare_store.specs.PlacedRows.{rows_in, ArePlaced, AreKnown, AreCounts, AreLinks};

mod calls;
mod forgetting;
mod holding;
mod lanes;
mod reverse;

use fare_record::{Day, DeviceId, OwnerId, Record};
use reverse::Reverse;
use std::alloc::Global;
use std::collections::{BTreeMap, HashMap};

// An owner's lane of a device.
type Lane = (OwnerId, DeviceId);

/// The outbox of the hub, in memory. It never answers `Store`.
pub struct PlainOutbox {
    alloc: Global,
    // The greatest link that it has had of each device that it saw.
    upto: HashMap<DeviceId, u64>,
    // The rows of each lane that has had one, by lane number, the newest first: a map is searched from the front, and
    // new rows come there.
    lanes: HashMap<Lane, BTreeMap<Reverse, Record>>,
    // How many rows these are.
    row_count: usize,
    // The counts of the statements by owner, device and day.
    statements: BTreeMap<(OwnerId, DeviceId, Day), u64>,
    ghost seen: { AreLinks (get nat_eq upto) },
    ghost placed: { ArePlaced (rows_in (get same_lane lanes)) },
    ghost known: { AreKnown (get nat_eq upto) (rows_in (get same_lane lanes)) },
    ghost counts: { AreCounts statements },
}

impl Drop for PlainOutbox {
    // Derived, it would stand map by map in the proof of each function that may let an outbox go.
    fn drop(self) {
        let PlainOutbox {
            alloc: _,
            upto,
            lanes,
            row_count: _,
            statements,
        } = self;
        drop(upto);
        drop(lanes);
        drop(statements);
    }
}
