ghost use Rattle.std.specs.Prelude.{◌≡◌, ◌≤◌, IfOk, All};
ghost use Rattle.fare_settle.specs.Routes.{routes_of, shares_by_route as by_route};

use crate::tally::Tally;
use crate::{Charge, RouteShare};
use std::alloc::{AllocError, Global};
use std::collections::BTreeSet;

// The routes of charges, ascending.
fn routes(alloc: Global, charges: &[Charge]) -> Result<BTreeSet<u16>, AllocError>
    ensures { IfOk result (λ routes. routes.keys ≡ routes_of charges.now) }
{
    let mut routes = BTreeSet::new(alloc);
    for charge in charges {
        routes.insert(charge.route)?;
    }
    Ok(routes)
}

// What the charges of each route come to, ascending by route.
pub(crate) fn shares_by_route(
    alloc: Global,
    charges: &[Charge],
) -> Result<Vec<RouteShare>, AllocError>
    requires { All (λ (c : Charge). c.amount ≤ 10000000) charges.now }
    ensures { IfOk result (λ shares. shares.items ≡ by_route charges.now) }
{
    let tally = Tally::count(alloc, charges)?;
    let routes = routes(alloc, charges)?;
    let mut shares = Vec::new(alloc);
    for route in &routes {
        shares.push(tally.get(*route))?;
    }
    Ok(shares)
}
