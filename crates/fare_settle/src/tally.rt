ghost use Rattle.std.specs.Prelude.{◌≡◌, ◌≤◌, ◌+◌, ◌<◌, ◌^◌, ◌==◌, ℕ, OnOk, OnErr, IfOk, All, if◌then◌else◌};
ghost use Rattle.fare_settle.specs.Routes.{no_share, with_charge, route_share_of};

use crate::{Charge, RouteShare};
use std::alloc::{AllocError, Global};
use std::collections::HashMap;

// What the charges of each route come to.
#[derive(Drop)]
pub(crate) struct Tally {
    shares: HashMap<u16, RouteShare>,
}

impl Tally {
    ghost use Rattle.fare_settle.specs.Tallies.{tallied};

    // Of no charge.
    fn new(alloc: Global) -> Tally
        ensures { (route : ℕ) → tallied result route ≡ no_share route }
    {
        Tally {
            shares: HashMap::new(alloc),
        }
    }

    // What those of a route come to.
    pub(crate) fn get(&self, route: u16) -> RouteShare
        ensures { result ≡ tallied self.now route }
    {
        match self.shares.get(&route) {
            Some(share) => *share,
            None => RouteShare {
                route,
                taps: 0,
                amount: 0,
            },
        }
    }

    // One more charge.
    fn add(&mut self, charge: Charge) -> Result<(), AllocError>
        requires taps { (tallied self.old charge.route).taps + 1 < 2 ^ 64 }
        requires amount { (tallied self.old charge.route).amount + charge.amount < 2 ^ 128 }
        ensures { OnOk result ((route : ℕ) → tallied self.new route ≡ (if charge.route == route then with_charge (tallied self.old route) charge else tallied self.old route)) }
    {
        let share = self.get(charge.route);
        let more = RouteShare {
            route: share.route,
            taps: share.taps + 1,
            amount: share.amount + charge.amount.get() as u128,
        };
        self.shares.insert(charge.route, more)?;
        Ok(())
    }

    // Of these charges.
    pub(crate) fn count(alloc: Global, charges: &[Charge]) -> Result<Tally, AllocError>
        requires { All (λ (c : Charge). c.amount ≤ 10000000) charges.now }
        ensures { IfOk result (λ tally. (route : ℕ) → tallied tally route ≡ route_share_of charges.now route) }
    {
        let mut tally = Tally::new(alloc);
        for charge in charges {
            tally.add(*charge)?;
        }
        Ok(tally)
    }
}
