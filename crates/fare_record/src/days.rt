ghost use Rattle.std.specs.Prelude.{◌≡◌, ◌+◌};

use crate::Day;
use std::marker::Model;

/// Some days, one after the other.
#[derive(Drop)]
pub struct Days {
    // The next one.
    next: u32,
    // The first behind them.
    end: u32,
}

impl Model for Days {
    ghost use Rattle.std.specs.Prelude.{◌≤◌};
    ghost use Rattle.fare_record.specs.Counting.{Span};

    ghost Value = { Span };

    ghost view = { λ d. record { next = d.next; end = d.end } };

    ghost invariant = { λ d. d.end ≤ 100001 };
}

impl Days {
    /// The days from one on that are before another: none where that isn't later.
    pub fn until(from: Day, end: Day) -> Self
        ensures from { result.next ≡ from }
        ensures end { result.end ≡ end }
    {
        Days {
            next: from.get(),
            end: end.get(),
        }
    }

    /// The days from one to another, both among them: none where that is earlier.
    pub fn through(from: Day, last: Day) -> Self
        ensures from { result.next ≡ from }
        ensures end { result.end ≡ last + 1 }
    {
        Days {
            next: from.get(),
            end: last.get() + 1,
        }
    }
}

impl Iterator for Days {
    ghost use Rattle.std.specs.Prelude.{◌-◌};
    ghost use Rattle.std.specs.Iterator.{at_most};
    ghost use Rattle.fare_record.specs.Counting.{NextOf};

    type Item = Day;

    ghost next_gives = { NextOf };

    ghost remaining = { λ s. at_most (s.end - s.next) };

    fn next(&mut self) -> Option<Day> {
        if self.next >= self.end {
            return None;
        }
        let day = Day::new(u64::from(self.next))?;
        self.next += 1;
        Some(day)
    }
}
