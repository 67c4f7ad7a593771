ghost use Rattle.std.specs.Prelude.{◌≡◌, ◌↔◌, ℕ, IsSome, IfSome};
ghost use Rattle.fare_record.specs.Limits.{IsMoment};

use std::marker::Model;

/// A moment in whole seconds since 1970-01-01T00:00:00Z: 0 to 8,640,200,000.
#[derive(Clone, Copy, PartialEq, Eq, PartialOrd, Ord, Hash, Debug)]
pub struct Moment {
    number: u64,
}

impl Model for Moment {
    ghost Value = { ℕ };

    ghost view = { λ a. a.number };

    ghost invariant = { λ a. IsMoment a.number };

    ghost inverse = { λ n. record { number = n } };
}

impl Moment {
    const LAST: u64 = 8_640_200_000;

    /// The value of this number, if it is within the limits.
    pub fn new(number: u64) -> Option<Self>
        ensures valid { IsSome result ↔ IsMoment number }
        ensures value { IfSome result (λ made. made ≡ number) }
    {
        if number > Moment::LAST {
            return None;
        }
        Some(Moment { number })
    }

    /// Its number.
    pub fn get(self) -> u64
        ensures value { result ≡ self }
        ensures valid { IsMoment result }
    {
        self.number
    }
}
