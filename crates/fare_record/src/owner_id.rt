ghost use Rattle.std.specs.Prelude.{◌≡◌, ◌↔◌, ℕ, IsSome, IfSome};
ghost use Rattle.fare_record.specs.Limits.{IsOwnerId};

use std::marker::Model;

/// A product owner in the sense of ISO 24014-1, who bills the taps on its products: 1 to 65,535.
#[derive(Clone, Copy, PartialEq, Eq, PartialOrd, Ord, Hash, Debug)]
pub struct OwnerId {
    number: u16,
}

impl Model for OwnerId {
    ghost Value = { ℕ };

    ghost view = { λ a. a.number };

    ghost invariant = { λ a. IsOwnerId a.number };

    ghost inverse = { λ n. record { number = n } };
}

impl OwnerId {
    const LAST: u64 = 65_535;

    /// The value of this number, if it is within the limits.
    pub fn new(number: u64) -> Option<Self>
        ensures valid { IsSome result ↔ IsOwnerId number }
        ensures value { IfSome result (λ made. made ≡ number) }
    {
        if number == 0 || number > OwnerId::LAST {
            return None;
        }
        Some(OwnerId {
            number: number as u16,
        })
    }

    /// Its number.
    pub fn get(self) -> u16
        ensures value { result ≡ self }
        ensures valid { IsOwnerId result }
    {
        self.number
    }
}
