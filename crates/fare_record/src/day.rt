ghost use Rattle.std.specs.Prelude.{◌≡◌, ◌↔◌, ◌+◌, ℕ, IsSome, IfSome};
ghost use Rattle.fare_record.specs.Limits.{IsDay};

use std::marker::Model;

/// A day, counted from 1970-01-01 = 0: 0 to 100,000.
#[derive(Clone, Copy, PartialEq, Eq, PartialOrd, Ord, Hash, Debug)]
pub struct Day {
    number: u32,
}

impl Model for Day {
    ghost Value = { ℕ };

    ghost view = { λ a. a.number };

    ghost invariant = { λ a. IsDay a.number };

    ghost inverse = { λ n. record { number = n } };
}

impl Day {
    const LAST: u64 = 100_000;

    /// The first day there is, 1970-01-01.
    pub const FIRST: Self = Self { number: 0 };

    /// The value of this number, if it is within the limits.
    pub fn new(number: u64) -> Option<Self>
        ensures valid { IsSome result ↔ IsDay number }
        ensures value { IfSome result (λ made. made ≡ number) }
    {
        if number > Day::LAST {
            return None;
        }
        Some(Day {
            number: number as u32,
        })
    }

    /// The day after it; None after the last day there is.
    pub fn next_day(self) -> Option<Self>
        ensures valid { IsSome result ↔ IsDay (self + 1) }
        ensures value { IfSome result (λ next. next ≡ self + 1) }
    {
        Day::new(u64::from(self.number) + 1)
    }

    /// Its number.
    pub fn get(self) -> u32
        ensures value { result ≡ self }
        ensures valid { IsDay result }
    {
        self.number
    }
}
