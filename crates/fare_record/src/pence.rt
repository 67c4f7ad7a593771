ghost use Rattle.std.specs.Prelude.{◌≡◌, ℕ};

use std::marker::Model;

/// An amount of money in whole pence: any number of 64 bits.
#[derive(Clone, Copy, PartialEq, Eq, PartialOrd, Ord, Hash, Debug)]
pub struct Pence {
    number: u64,
}

impl Model for Pence {
    ghost Value = { ℕ };

    ghost view = { λ a. a.number };

    ghost inverse = { λ n. record { number = n } };
}

impl Pence {
    /// So many pence.
    pub fn new(number: u64) -> Self
        ensures { result ≡ number }
    {
        Pence { number }
    }

    /// How many pence it is.
    pub fn get(self) -> u64
        ensures { result ≡ self }
    {
        self.number
    }
}
