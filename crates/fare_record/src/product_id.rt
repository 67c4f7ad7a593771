ghost use Rattle.std.specs.Prelude.{◌≡◌, ◌↔◌, ℕ, IsSome, IfSome};
ghost use Rattle.fare_record.specs.Limits.{IsProductId};

use std::marker::Model;

/// A fare product: 1 to 2^32 - 1.
#[derive(Clone, Copy, PartialEq, Eq, PartialOrd, Ord, Hash, Debug)]
pub struct ProductId {
    number: u32,
}

impl Model for ProductId {
    ghost Value = { ℕ };

    ghost view = { λ a. a.number };

    ghost invariant = { λ a. IsProductId a.number };

    ghost inverse = { λ n. record { number = n } };
}

impl ProductId {
    const LAST: u64 = 4_294_967_295;

    /// The value of this number, if it is within the limits.
    pub fn new(number: u64) -> Option<Self>
        ensures valid { IsSome result ↔ IsProductId number }
        ensures value { IfSome result (λ made. made ≡ number) }
    {
        if number == 0 || number > ProductId::LAST {
            return None;
        }
        Some(ProductId {
            number: number as u32,
        })
    }

    /// Its number.
    pub fn get(self) -> u32
        ensures value { result ≡ self }
        ensures valid { IsProductId result }
    {
        self.number
    }
}
