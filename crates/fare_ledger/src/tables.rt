ghost use Rattle.std.specs.Prelude.{◌≡◌, false};

use crate::Layout;
use fare_record::{Day, DeviceId, OwnerId};
use sqlite::{Alter, Connection};
use std::alloc::Global;
use std::collections::HashSet;

/// The ledger of an owner in tables, over the connection that it was opened with.
pub struct SqlLedger<S: Alter> {
    pub(crate) alloc: Global,
    pub(crate) conn: Connection<S>,
    // Where its tables stand.
    pub(crate) layout: Layout,
    pub(crate) owner: OwnerId,
    // The scheme's first day, and its devices.
    pub(crate) start: Day,
    pub(crate) devices: HashSet<DeviceId>,
    // How many calls have answered Store.
    pub(crate) failures: u64,
    ghost idle: { conn.in_transaction ≡ false },
}

impl<S: Alter> SqlLedger<S> {
    // What it is made of.
    pub(crate) fn into_parts(self) -> Connection<S>
        ensures { result ≡ self.conn }
    {
        let SqlLedger {
            alloc: _,
            conn,
            layout: _,
            owner: _,
            start: _,
            devices,
            failures: _,
        } = self;
        drop(devices);
        conn
    }
}

// It is written out, so that a caller doesn't prove again how each part is let go.
impl<S: Alter + Drop> Drop for SqlLedger<S> {
    fn drop(self) {
        let SqlLedger {
            alloc: _,
            conn: _,
            layout: _,
            owner: _,
            start: _,
            devices: _,
            failures: _,
        } = self;
    }
}
