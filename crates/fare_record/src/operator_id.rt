ghost use Rattle.std.specs.Prelude.{◌≡◌, ◌↔◌, ℕ, IsSome, IfSome};
ghost use Rattle.fare_record.specs.Limits.{IsOperatorId};

use std::marker::Model;

/// A service operator in the sense of ISO 24014-1: 1 to 65,535.
#[derive(Clone, Copy, PartialEq, Eq, PartialOrd, Ord, Hash, Debug)]
pub struct OperatorId {
    number: u16,
}

impl Model for OperatorId {
    ghost Value = { ℕ };

    ghost view = { λ a. a.number };

    ghost invariant = { λ a. IsOperatorId a.number };

    ghost inverse = { λ n. record { number = n } };
}

impl OperatorId {
    const LAST: u64 = 65_535;

    /// The value of this number, if it is within the limits.
    pub fn new(number: u64) -> Option<Self>
        ensures valid { IsSome result ↔ IsOperatorId number }
        ensures value { IfSome result (λ made. made ≡ number) }
    {
        if number == 0 || number > OperatorId::LAST {
            return None;
        }
        Some(OperatorId {
            number: number as u16,
        })
    }

    /// Its number.
    pub fn get(self) -> u16
        ensures value { result ≡ self }
        ensures valid { IsOperatorId result }
    {
        self.number
    }
}
