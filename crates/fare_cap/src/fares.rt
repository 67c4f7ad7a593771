ghost use Rattle.std.specs.Prelude.{◌≡◌, ◌≤◌, ℕ};
ghost use Rattle.fare_scheme.specs.Facts.{IsTariff};
ghost use Rattle.fare_cap.specs.Fares.{day_fare as fare_of_day, week_start as start_of_week, fares_before as fares_of_week, hop_of as window_of, amount_by};
ghost use Rattle.fare_cap.specs.RidesWords.{paid_by};

use crate::{Account, Rides};
use fare_day::monday_of;
use fare_record::{Day, Days, Pence};
use fare_scheme::{Scheme, Tariff};

/// The fare of a day with so many paid taps: the flat fare of each, at most the daily cap.
pub fn day_fare(tariff: &Tariff, taps: u64) -> Pence
    requires { IsTariff tariff.now }
    ensures value { result ≡ fare_of_day tariff.now taps }
    ensures capped { result ≤ 1000000 }
{
    let daily = tariff.daily.get() as u128;
    let rides = tariff.fare.get() as u128 * taps as u128;
    Pence::new(daily.min(rides) as u64)
}

/// For how many seconds after a paid tap further taps of an account are free on a traffic day: 0 to 7,200, and 0 for an
/// account of a product that isn't registered.
pub fn hop_of(scheme: &Scheme, account: Account) -> u32
    ensures value { result ≡ window_of scheme.now account }
    ensures small { result ≤ 7200 }
{
    match scheme.tariff_of(account.product()) {
        Some(tariff) => tariff.hop,
        None => 0,
    }
}

/// The day on which the week of a day begins: its Monday, or the scheme's first day where that is later.
pub fn week_start(scheme: &Scheme, day: Day) -> Day
    ensures { result ≡ start_of_week scheme.now day }
{
    let start = scheme.start();
    monday_of(day).map_or(start, |monday| monday.max(start))
}

/// The day fares of an account with this tariff, of its paid taps, summed over the days of the week before the day.
pub fn fares_before(
    scheme: &Scheme,
    rides: &Rides,
    tariff: &Tariff,
    account: Account,
    day: Day,
) -> Pence
    requires { IsTariff tariff.now }
    ensures value { result ≡ fares_of_week scheme.now tariff.now (paid_by rides.now account) day }
    ensures small { result ≤ 100000000000 }
{
    let mut fares: u64 = 0;
    for earlier in Days::until(week_start(scheme, day), day) {
        fares += day_fare(tariff, rides.get(account, earlier).paid).get();
    }
    Pence::new(fares)
}

/// What an account pays for the day: by how much the day's fare raises what its week comes to under the
/// weekly cap. Nothing for an account of a product that isn't registered.
pub fn amount(scheme: &Scheme, rides: &Rides, account: Account, day: Day) -> Pence
    ensures value { result ≡ amount_by scheme.now account (paid_by rides.now account) day }
    ensures capped { result ≤ 10000000 }
{
    let Some(tariff) = scheme.tariff_of(account.product()) else {
        return Pence::new(0);
    };
    let before = fares_before(scheme, rides, &tariff, account, day).get();
    let after = before + day_fare(&tariff, rides.get(account, day).paid).get();
    let weekly = tariff.weekly.get();
    Pence::new(weekly.min(after) - weekly.min(before))
}
