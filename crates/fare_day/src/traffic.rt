ghost use Rattle.std.specs.Prelude.{◌≡◌, ◌↔◌, ℤ, pos, ◌-ℤ◌, Some, None, IsOk, IfOk, MatchResult};
ghost use Rattle.std.specs.Int.{int_div_euclid};
ghost use Rattle.jiff_core.specs.Calendar.{IsWithin};
ghost use Rattle.fare_day.specs.Clock.{local_time};
ghost use Rattle.fare_day.specs.TrafficDay.{date_by_clock as clock_date, traffic_day, traffic_day_in_range, IsDayNumber};

use crate::Zone;
use fare_record::{Day, Moment};
use thiserror::Error;

/// A moment whose traffic day isn't one of the scheme: before day 0, or past day 100,000.
#[derive(Clone, Copy, PartialEq, Eq, Debug, Error)]
#[error("the traffic day is out of range")]
pub struct BadMoment;

// Seconds from midnight to 04:30:00, where one traffic day ends and the next begins.
const TURN: i64 = 16_200;

// Seconds of a day.
const DAY: i64 = 86_400;

// The date of a traffic day by the seconds from 1970-01-01T00:00:00 on the clock.
fn date_by_clock(local: i64) -> i64
    requires { IsWithin 10000000000 local }
    ensures { result ≡ clock_date local }
{
    (local - TURN).div_euclid(DAY)
}

/// The traffic day of a moment: the civil date on the zone's clock where it shows 04:30:00 or later, else the
/// date before.
///
/// `BadMoment` where that day is before 1970-01-01 or more than 100,000 days after it.
pub fn traffic_day(zone: &Zone, moment: Moment) -> Result<Day, BadMoment>
    ensures day { IfOk result (λ day. pos day ≡ traffic_day zone.now moment) }
    ensures in_range { IsOk result ↔ IsDayNumber (traffic_day zone.now moment) }

    // The same as one word that computes.
    ensures answer { MatchResult result
        (λ day. traffic_day_in_range zone.now moment ≡ Some day)
        (λ _. traffic_day_in_range zone.now moment ≡ None) }

    // In whole days of seconds: the days since the first 04:30:00 on the clock, rounded down.
    ensures whole_days { traffic_day zone.now moment ≡ int_div_euclid (local_time zone.now moment -ℤ pos 16200) (pos 86400) }
{
    let local = moment.get() as i64 + zone.offset(moment) as i64;
    let Ok(day) = u64::try_from(date_by_clock(local)) else {
        return Err(BadMoment);
    };
    let Some(day) = Day::new(day) else {
        return Err(BadMoment);
    };
    Ok(day)
}
