ghost use Rattle.std.specs.Prelude.{◌≡◌, ◌≤◌, All};
ghost use Rattle.fare_settle.specs.Routes.{sum_of};

use fare_record::{OperatorId, Pence};

/// What a tap is charged.
#[derive(Clone, Copy, PartialEq, Eq, Debug)]
pub struct Charge {
    /// The operator of the tap's device.
    pub operator: OperatorId,
    /// The route of the tap, or 0 where none is known.
    pub route: u16,
    /// By how much the tap raises what its account pays.
    pub amount: Pence,
}

// The sum of charges.
pub(crate) fn sum(charges: &[Charge]) -> u128
    requires { All (λ (c : Charge). c.amount ≤ 10000000) charges.now }
    ensures { result ≡ sum_of charges.now }
{
    let mut sum = 0;
    for charge in charges {
        sum += charge.amount.get() as u128;
    }
    sum
}
