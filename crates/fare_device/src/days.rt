ghost use Rattle.std.specs.Prelude.{◌≡◌, ◌↔◌, ◌<◌, ◌≤◌, [], ◌∷◌, ◌++◌, ℕ, IfOk, IfSome, IsSome, IsTrue, length, slice_get};
ghost use Rattle.fare_record.specs.Limits.{IsCount};
ghost use Rattle.fare_device.specs.DeviceWords.{AreWithin};
ghost use Rattle.fare_device.specs.Turning.{count_on, is_waiting, without};

use fare_record::Day;
use fare_scheme::MOST_OWNERS;
use std::alloc::{AllocError, Global};
use std::marker::Model;

/// How many days may wait.
const MOST_DAYS: usize = 8;

/// How many taps of a day each owner has, by the owner's place in the order of registration.
pub(crate) type Counts = [u64; MOST_OWNERS];

/// A day whose statements wait, with what they say.
#[derive(Clone, Copy, Debug)]
struct DayCounts {
    day: Day,
    counts: Counts,
}

impl Model for DayCounts {
    ghost use Rattle.std.specs.Prelude.{ℕ, List};
    ghost use Rattle.fare_device.specs.DeviceWords.{AreCounts};

    ghost Value = { ℕ × List ℕ };

    ghost view = { λ a. (a.day, a.counts) };

    ghost invariant = { λ a. AreCounts a.counts };

    ghost inverse = { λ v. record { day = v.0; counts = v.1 } };
}

impl DayCounts {
    // The count for the owner at a place.
    fn count(&self, place: usize) -> Option<u64>
        ensures { result ≡ slice_get self.now.1 place }
    {
        self.counts.get(place).copied()
    }
}

/// The days of a device whose statements wait for their acknowledgement, in the order in which they were
/// turned: at most eight, whose room is taken once.
#[derive(Debug, Drop)]
pub(crate) struct WaitingDays {
    days: Vec<DayCounts>,
}

impl Model for WaitingDays {
    ghost use Rattle.std.specs.Prelude.{ℕ, ◌≤◌, List, length, vec_capacity};

    ghost Value = { List (ℕ × List ℕ) };

    ghost view = { λ a. a.days.items };

    ghost invariant = { λ a. (length a.days.items ≤ 8) × (8 ≤ vec_capacity a.days) };
}

impl WaitingDays {
    /// Room for the days, none of which waits.
    pub(crate) fn new(alloc: Global) -> Result<WaitingDays, AllocError>
        ensures { IfOk result (λ days. days ≡ []) }
    {
        let days = Vec::with_capacity(alloc, MOST_DAYS)?;
        Ok(WaitingDays { days })
    }

    /// Whether there is no room for a further day.
    pub(crate) fn is_full(&self) -> bool
        ensures full { IsTrue result ↔ (8 ≤ length self.now) }
        ensures valid { length self.now ≤ 8 }
    {
        self.days.len() >= MOST_DAYS
    }

    /// Lets a day wait behind the others.
    pub(crate) fn push(&mut self, day: Day, counts: Counts)
        requires room { length self.old < 8 }
        requires counted { AreWithin 1099511627775 counts }
        ensures { self.new ≡ self.old ++ (day, counts) ∷ [] }
    {
        if self.days.push(DayCounts { day, counts }).is_err() {
            unreachable!()
        }
    }

    /// The count of a day for the owner at a place; None where the day doesn't wait, or there is no such
    /// place.
    pub(crate) fn count(&self, day: Day, place: usize) -> Option<u64>
        ensures value { result ≡ count_on self.now day place }
        ensures found { place < 16 → IsSome result ↔ IsTrue (is_waiting self.now day) }
        ensures valid { IfSome result IsCount }
    {
        for kept in &self.days {
            if kept.day == day {
                return kept.count(place);
            }
        }
        None
    }

    /// Lets a day go, and says whether it waited.
    pub(crate) fn remove(&mut self, day: Day) -> bool
        ensures value { result ≡ is_waiting self.old day }
        ensures gone { self.new ≡ without self.old day }
    {
        let before = self.days.len();
        self.days.retain(|kept| kept.day != day);
        self.days.len() < before
    }
}
