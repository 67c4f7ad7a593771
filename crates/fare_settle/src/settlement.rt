ghost use Rattle.std.specs.Prelude.{◌≡◌};
ghost use Rattle.std.specs.Cmp.{partial_equiv_from_equiv};
ghost use Rattle.fare_settle.specs.Same.{same_settlement, same_settlement_equiv};

use crate::Settled;
use std::marker::Model;

/// What each operator gets for a day, in order of registration.
#[derive(Debug, Drop)]
pub struct Settlement {
    shares: Vec<Settled>,
}

impl Model for Settlement {
    ghost use Rattle.std.specs.Prelude.{List};
    ghost use Rattle.fare_settle.specs.Values.{SettledValue};

    ghost Value = { List SettledValue };

    ghost view = { λ s. s.shares.items };
}

impl PartialEq for Settlement {
    ghost eq = { same_settlement };

    ghost laws = { partial_equiv_from_equiv same_settlement_equiv };

    fn eq(&self, other: &Settlement) -> bool {
        self.shares == other.shares
    }
}

impl Eq for Settlement {
    ghost laws = { same_settlement_equiv };
}

impl Settlement {
    /// The settlement of these shares.
    pub(crate) fn new(shares: Vec<Settled>) -> Settlement
        ensures { result ≡ shares.items }
    {
        Settlement { shares }
    }

    /// The share of each operator, in order of registration.
    pub fn shares(&self) -> &[Settled]
        ensures { result.now ≡ self.now }
    {
        &self.shares
    }
}
