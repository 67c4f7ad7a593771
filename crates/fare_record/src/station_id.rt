ghost use Rattle.std.specs.Prelude.{◌≡◌, ◌↔◌, ℕ, IsSome, IfSome};
ghost use Rattle.fare_record.specs.Limits.{IsStationId};

use std::marker::Model;

/// A station, which collects what its devices send: 1 to 65,535.
#[derive(Clone, Copy, PartialEq, Eq, PartialOrd, Ord, Hash, Debug)]
pub struct StationId {
    number: u16,
}

impl Model for StationId {
    ghost Value = { ℕ };

    ghost view = { λ a. a.number };

    ghost invariant = { λ a. IsStationId a.number };

    ghost inverse = { λ n. record { number = n } };
}

impl StationId {
    const LAST: u64 = 65_535;

    /// The value of this number, if it is within the limits.
    pub fn new(number: u64) -> Option<Self>
        ensures valid { IsSome result ↔ IsStationId number }
        ensures value { IfSome result (λ made. made ≡ number) }
    {
        if number == 0 || number > StationId::LAST {
            return None;
        }
        Some(StationId {
            number: number as u16,
        })
    }

    /// Its number.
    pub fn get(self) -> u16
        ensures value { result ≡ self }
        ensures valid { IsStationId result }
    {
        self.number
    }
}
