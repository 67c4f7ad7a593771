ghost use Rattle.std.specs.Prelude.{◌≡◌, ◌≤◌, IfOk, All};
ghost use Rattle.fare_settle.specs.Settling.{charges_at as own_charges, share_of, settlement_of};

use crate::charge::sum;
use crate::routes::shares_by_route;
use crate::{Charge, Settled, Settlement, charges};
use fare_record::{Day, OperatorId, Record};
use fare_scheme::Scheme;
use std::alloc::{AllocError, Global};

// An operator's charges.
fn charges_at(
    alloc: Global,
    charges: &[Charge],
    operator: OperatorId,
) -> Result<Vec<Charge>, AllocError>
    requires { All (λ (c : Charge). c.amount ≤ 10000000) charges.now }
    ensures value { IfOk result (λ own. own.items ≡ own_charges charges.now operator) }
    ensures capped { IfOk result (λ own. All (λ (c : Charge). c.amount ≤ 10000000) own.items) }
{
    let mut own = Vec::new(alloc);
    for charge in charges {
        if charge.operator == operator {
            own.push(*charge)?;
        }
    }
    Ok(own)
}

// An operator with the number of its charges, their sum, and the same by route.
fn share(alloc: Global, charges: &[Charge], operator: OperatorId) -> Result<Settled, AllocError>
    requires { All (λ (c : Charge). c.amount ≤ 10000000) charges.now }
    ensures { IfOk result (λ share. share ≡ share_of charges.now operator) }
{
    let own = charges_at(alloc, charges, operator)?;
    Ok(Settled {
        operator,
        taps: own.len() as u64,
        amount: sum(&own),
        routes: shares_by_route(alloc, &own)?,
    })
}

/// What each operator gets for the day by these records, in order of registration: how many taps its devices took,
/// and the sum of their charges, in pence, and the same of each route. A tap of an unknown product or device, or of a day
/// before the scheme's first one, counts nowhere. The one error is want of memory.
pub fn settle(
    alloc: Global,
    scheme: &Scheme,
    taps: &[Record],
    day: Day,
) -> Result<Settlement, AllocError>
    ensures { IfOk result (λ settlement. settlement ≡ settlement_of scheme.now taps.now day) }
{
    let charges = charges(alloc, scheme, taps, day)?;
    let mut shares = Vec::new(alloc);
    for operator in scheme.operators() {
        shares.push(share(alloc, &charges, *operator)?)?;
    }
    Ok(Settlement::new(shares))
}
