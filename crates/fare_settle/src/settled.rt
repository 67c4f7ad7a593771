ghost use Rattle.std.specs.Prelude.{◌≡◌};
ghost use Rattle.std.specs.Cmp.{partial_equiv_from_equiv};
ghost use Rattle.fare_settle.specs.Same.{same_share, same_share_equiv};

use crate::RouteShare;
use fare_record::OperatorId;
use std::marker::Model;

/// What an operator gets for a day.
#[derive(Debug, Drop)]
pub struct Settled {
    pub(crate) operator: OperatorId,
    pub(crate) taps: u64,
    pub(crate) amount: u128,
    pub(crate) routes: Vec<RouteShare>,
}

impl Model for Settled {
    ghost use Rattle.fare_settle.specs.Values.{SettledValue};

    ghost Value = { SettledValue };

    ghost view = { λ s. record { operator = s.operator; taps = s.taps; amount = s.amount; routes = s.routes.items } };
}

impl PartialEq for Settled {
    ghost eq = { same_share };

    ghost laws = { partial_equiv_from_equiv same_share_equiv };

    fn eq(&self, other: &Settled) -> bool {
        self.operator == other.operator
            && self.taps == other.taps
            && self.amount == other.amount
            && self.routes == other.routes
    }
}

impl Eq for Settled {
    ghost laws = { same_share_equiv };
}

impl Settled {
    /// The operator.
    pub fn operator(&self) -> OperatorId
        ensures { result ≡ self.now.operator }
    {
        self.operator
    }

    /// How many taps of the day its devices took.
    pub fn taps(&self) -> u64
        ensures { result ≡ self.now.taps }
    {
        self.taps
    }

    /// The sum of their charges, in pence.
    pub fn amount(&self) -> u128
        ensures { result ≡ self.now.amount }
    {
        self.amount
    }

    /// The same by route: of each that the taps have, ascending, 0 for those whose route is not known.
    pub fn routes(&self) -> &[RouteShare]
        ensures { result.now ≡ self.now.routes }
    {
        &self.routes
    }
}
