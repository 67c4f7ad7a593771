ghost use Rattle.std.specs.Prelude.{◌≡◌, ◌↔◌, ℕ, IsSome, IfSome};
ghost use Rattle.fare_record.specs.Limits.{IsToken};

use std::marker::Model;

/// What a traveller taps with, as a number that stands for the card or phone: 1 to 2^63 - 1.
#[derive(Clone, Copy, PartialEq, Eq, PartialOrd, Ord, Hash, Debug)]
pub struct Token {
    number: u64,
}

impl Model for Token {
    ghost Value = { ℕ };

    ghost view = { λ a. a.number };

    ghost invariant = { λ a. IsToken a.number };

    ghost inverse = { λ n. record { number = n } };
}

impl Token {
    const LAST: u64 = 9_223_372_036_854_775_807;

    /// The value of this number, if it is within the limits.
    pub fn new(number: u64) -> Option<Self>
        ensures valid { IsSome result ↔ IsToken number }
        ensures value { IfSome result (λ made. made ≡ number) }
    {
        if number == 0 || number > Token::LAST {
            return None;
        }
        Some(Token { number })
    }

    /// Its number.
    pub fn get(self) -> u64
        ensures value { result ≡ self }
        ensures valid { IsToken result }
    {
        self.number
    }
}
