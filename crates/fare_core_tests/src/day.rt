use crate::checking::same;
use fare_day::{BadMoment, BadZone, Zone, is_monday, monday_of, traffic_day};
use fare_record::{Day, Moment};
use std::process::Abort;

fn day_of(zone: &Zone, seconds: u64) -> Option<Result<u32, BadMoment>> {
    let moment = Moment::new(seconds)?;
    Some(traffic_day(zone, moment).map(Day::get))
}

// By the clock with this rule these moments have these traffic days.
fn has_days(rt: &impl Abort, rule: &str, days: &[(u64, Result<u32, BadMoment>)]) {
    let zone = Zone::read(rule).expect(rt, "rule");
    for (seconds, day) in days {
        same(
            rt,
            &(seconds, day_of(&zone, *seconds)),
            &(seconds, Some(*day)),
        );
    }
}

#[test]
fn turns_at_half_past_four(rt: HostRuntime) {
    const DAYS: [(u64, Result<u32, BadMoment>); 6] = [
        (1_704_083_399, Ok(19_722)),
        (1_704_083_400, Ok(19_723)),
        (1_711_855_799, Ok(19_812)),
        (1_711_855_800, Ok(19_813)),
        (16_200, Ok(0)),
        (0, Err(BadMoment)),
    ];
    has_days(&rt, "GMT0BST,M3.5.0/1,M10.5.0", &DAYS);
}

// By `date` with this rule as its `TZ`: 04:29:59 and 04:30:00 on 6 and 7 April 2024. Summer time ended there on
// 7 April at 03:00:00.
#[test]
fn follows_the_clock_south_of_the_equator(rt: HostRuntime) {
    const DAYS: [(u64, Result<u32, BadMoment>); 4] = [
        (1_712_338_199, Ok(19_818)),
        (1_712_338_200, Ok(19_819)),
        (1_712_428_199, Ok(19_819)),
        (1_712_428_200, Ok(19_820)),
    ];
    has_days(&rt, "AEST-10AEDT,M10.1.0,M4.1.0/3", &DAYS);
}

#[test]
fn follows_a_clock_without_summer_time(rt: HostRuntime) {
    const DAYS: [(u64, Result<u32, BadMoment>); 2] = [
        (1_704_050_999, Ok(19_722)),
        (1_704_051_000, Ok(19_723)),
    ];
    has_days(&rt, "JST-9", &DAYS);
}

#[test]
fn refuses_what_is_no_rule(rt: HostRuntime) {
    same(&rt, &Zone::read("x").err(), &Some(BadZone));
}

// The Monday of a day's week, and whether the day is one.
fn week_of(number: u64) -> Option<(Option<u32>, bool)> {
    let day = Day::new(number)?;
    Some((monday_of(day).map(Day::get), is_monday(day)))
}

#[test]
fn finds_mondays(rt: HostRuntime) {
    const WEEKS: [(u64, (Option<u32>, bool)); 6] = [
        (0, (None, false)),
        (1, (None, false)),
        (2, (None, false)),
        (3, (None, false)),
        (19_723, (Some(19_723), true)),
        (19_728, (Some(19_723), false)),
    ];
    for &(number, week) in &WEEKS {
        same(&rt, &(number, week_of(number)), &(number, Some(week)));
    }
}
