ghost use Rattle.std.specs.Prelude.{◌≡◌, ◌↔◌, ℕ, IsSome, IfSome};
ghost use Rattle.fare_record.specs.Limits.{IsDeviceId};

use std::marker::Model;

/// A device (a validator at a gate or on a vehicle), by the number that the registrar gave out: 1 to 2^32 - 1.
#[derive(Clone, Copy, PartialEq, Eq, PartialOrd, Ord, Hash, Debug)]
pub struct DeviceId {
    number: u32,
}

impl Model for DeviceId {
    ghost Value = { ℕ };

    ghost view = { λ a. a.number };

    ghost invariant = { λ a. IsDeviceId a.number };

    ghost inverse = { λ n. record { number = n } };
}

impl DeviceId {
    const LAST: u64 = 4_294_967_295;

    /// The value of this number, if it is within the limits.
    pub fn new(number: u64) -> Option<Self>
        ensures valid { IsSome result ↔ IsDeviceId number }
        ensures value { IfSome result (λ made. made ≡ number) }
    {
        if number == 0 || number > DeviceId::LAST {
            return None;
        }
        Some(DeviceId {
            number: number as u32,
        })
    }

    /// Its number.
    pub fn get(self) -> u32
        ensures value { result ≡ self }
        ensures valid { IsDeviceId result }
    {
        self.number
    }
}
