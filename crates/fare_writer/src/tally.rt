ghost use Rattle.std.specs.Prelude.{◌≡◌, ◌+◌, [], min, IfOk};
ghost use Rattle.fare_writer.specs.Entries.{item_of};
ghost use Rattle.fare_writer.specs.Noting.{noting};

use fare_inbox_queue::Arrived;
use fare_record::{Day, DeviceId};
use fare_scheme::Scheme;
use std::alloc::{AllocError, Global};
use std::collections::BTreeSet;

/// What the writer has done.
pub struct Tally {
    /// How many items it stored; it stays at 2^64 - 1.
    pub stored: u64,
    /// The days that the statements among its items name, of each registered device, behind the device's place in the
    /// order of registration.
    pub days: BTreeSet<(usize, DeviceId, Day)>,
}

impl Drop for Tally {
    fn drop(self) {
        let Tally { stored: _, days } = self;
        drop(days);
    }
}

impl Tally {
    /// Nothing was done yet.
    pub fn new(alloc: Global) -> Tally
        ensures stored { result.stored ≡ 0 }
        ensures days { result.days.keys ≡ [] }
    {
        Tally {
            stored: 0,
            days: BTreeSet::new(alloc),
        }
    }

    // Notes the day of a statement. The one error is want of memory.
    pub(crate) fn note(&mut self, scheme: &Scheme, item: &Arrived) -> Result<(), AllocError>
        ensures ok { IfOk result (λ _. self.new.days.keys ≡ noting scheme.now self.old.days.keys (item_of item.now)) }
        ensures stored { self.new.stored ≡ self.old.stored }
    {
        match item {
            Arrived::Tap(_, _) => Ok(()),
            Arrived::Stated(_, statement) => {
                let device = statement.device();
                if let Some(place) = scheme.device_position(device) {
                    self.days.insert((place, device, statement.day()))?;
                }
                Ok(())
            }
        }
    }

    // One item more was stored.
    pub(crate) fn count(&mut self)
        ensures stored { self.new.stored ≡ min (self.old.stored + 1) 18446744073709551615 }
        ensures days { self.new.days ≡ self.old.days }
    {
        self.stored = self.stored.saturating_add(1);
    }
    // So many items more were stored.
    pub(crate) fn count_all(&mut self, count: usize)
        ensures stored { self.new.stored ≡ min (self.old.stored + count) 18446744073709551615 }
        ensures days { self.new.days ≡ self.old.days }
    {
        self.stored = self.stored.saturating_add(count as u64);
    }
}
