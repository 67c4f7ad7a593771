ghost use Rattle.std.specs.Prelude.{◌≡◌, ℕ, ◌+◌, ◌<◌, ◌^◌, ◌&&◌, ◌==◌, OnOk, OnErr, IfOk, if◌then◌else◌};
ghost use Rattle.fare_cap.specs.Accounts.{account_of, same_account};
ghost use Rattle.fare_cap.specs.Windows.{no_rides, one_more};

use crate::counting::counted_hop;
use crate::{Account, DayRides};
use fare_record::{Day, Record};
use fare_scheme::Scheme;
use std::alloc::{AllocError, Global};
use std::collections::HashMap;

/// The taps of each account on each day: how many count, and how many of these are paid.
#[derive(Drop)]
pub struct Rides {
    days: HashMap<(Account, Day), DayRides>,
}

impl Rides {
    ghost use Rattle.fare_cap.specs.Values.{AccountValue};
    ghost use Rattle.fare_cap.specs.RidesWords.{rides_by, rides_on};

    /// No tap is counted.
    pub fn new(alloc: Global) -> Rides
        ensures { (account : AccountValue) (day : ℕ) → rides_by result account day ≡ no_rides }
    {
        Rides {
            days: HashMap::new(alloc),
        }
    }

    /// The taps of an account on a day.
    pub fn get(&self, account: Account, day: Day) -> DayRides
        ensures { result ≡ rides_by self.now account day }
    {
        match self.days.get(&(account, day)) {
            Some(rides) => *rides,
            None => DayRides::none(),
        }
    }

    /// One more tap of its account on its day, behind those that the table has, where a paid tap of the account makes
    /// further ones free for `hop` seconds. An error leaves the table as it was.
    pub fn add(&mut self, tap: Record, hop: u32) -> Result<(), AllocError>
        requires taps { (rides_by self.old (account_of tap) tap.tap.day).taps + 1 < 2 ^ 64 }
        requires paid { (rides_by self.old (account_of tap) tap.tap.day).paid + 1 < 2 ^ 64 }
        ensures ok { OnOk result ((other : AccountValue) (on : ℕ) → rides_by self.new other on ≡ (if same_account (account_of tap) other && tap.tap.day == on then one_more hop (rides_by self.old other on) tap.tap.moment else rides_by self.old other on)) }
        ensures err { OnErr result ((other : AccountValue) (on : ℕ) → rides_by self.new other on ≡ rides_by self.old other on) }
    {
        let account = Account::of(tap);
        let day = tap.tap().day();
        let rides = self.get(account, day).with_tap(hop, tap.tap().moment());
        self.days.insert((account, day), rides)?;
        Ok(())
    }

    /// The taps of these records that count, which stand in order.
    pub fn count(alloc: Global, scheme: &Scheme, ordered: &[Record]) -> Result<Rides, AllocError>
        ensures { IfOk result (λ rides. (account : AccountValue) (day : ℕ) → rides_by rides account day ≡ rides_on scheme.now ordered.now account day) }
    {
        let mut rides = Rides::new(alloc);
        for tap in ordered {
            if let Some(hop) = counted_hop(scheme, *tap) {
                rides.add(*tap, hop)?;
            }
        }
        Ok(rides)
    }
}
