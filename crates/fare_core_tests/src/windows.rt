use crate::bills::{TOKENS, add_device, capped, counted, record, row};
use crate::checking::same;
use fare_cap::{Bill, day_bill, in_order};
use fare_day::Zone;
use fare_record::{Day, Record};
use fare_samples::{self as samples, FIRST, Numbers};
use fare_scheme::{Draft, Scheme};
use fare_settle::{Charge, charges};
use std::alloc::Global;
use std::process::Abort;

// A product of 175 pence, at most so many a day and a week, with a window of so many seconds.
fn add_product(draft: &mut Draft, caps: (u32, u32), seconds: u32) -> Option<()> {
    draft.add_owner(1, 4).ok()?;
    draft.add_product(1, 1, 175).ok()?;
    draft.set_hop(1, seconds).ok()?;
    draft.set_caps(1, caps.0, caps.1).ok()
}

// A scheme of such a product, two devices and London's clock.
fn scheme(alloc: Global, caps: (u32, u32), seconds: u32) -> Option<Scheme> {
    let zone = Zone::read("GMT0BST,M3.5.0/1,M10.5.0").ok()?;
    let mut draft = Draft::new(alloc);
    draft.set_zone(zone);
    draft.set_start(19_723).ok()?;
    add_product(&mut draft, caps, seconds)?;
    add_device(&mut draft)?;
    draft.add_device(2, 1, 4).ok()?;
    draft.seal().ok()
}

// The caps of a product without any: the greatest ones.
const NO_CAPS: (u32, u32) = (1_000_000, 10_000_000);

// The tap of one account at a moment of a day.
fn tap_at(number: u64, moment: u64, day: u64) -> Option<Record> {
    samples::record(Numbers {
        link: number,
        lane: number,
        moment,
        day,
        ..FIRST
    })
}

// The taps of one account at these moments of these days.
fn taps_at(alloc: Global, taps: &[(u64, u64)]) -> Option<Vec<Record>> {
    let mut records = Vec::new(alloc);
    let mut number = 0_u64;
    for (moment, day) in taps {
        number = number.saturating_add(1);
        records.push(tap_at(number, *moment, *day)?).ok()?;
    }
    Some(records)
}

// Whether these charges, one after the other, are of these amounts.
fn are_of(charges: &[Charge], amounts: &[u64]) -> bool {
    if charges.len() != amounts.len() {
        return false;
    }
    for (charge, amount) in charges.iter().zip(amounts) {
        if charge.amount.get() != *amount {
            return false;
        }
    }
    true
}

// Whether the taps of a day are charged these amounts, one after the other.
fn are_charged(
    alloc: Global,
    scheme: &Scheme,
    taps: &[Record],
    day: u64,
    amounts: &[u64],
) -> Option<bool> {
    let charges = charges(alloc, scheme, taps, Day::new(day)?).ok()?;
    Some(are_of(&charges, amounts))
}

// By a window of so many seconds one account's taps at these moments of day 19723 are charged these amounts, where it
// pays at most 525 a day and 2,470 a week.
fn is_charged(
    alloc: Global,
    seconds: u32,
    moments: &[(u64, u64)],
    amounts: &[u64],
) -> Option<bool> {
    let scheme = scheme(alloc, (525, 2_470), seconds)?;
    let taps = taps_at(alloc, moments)?;
    are_charged(alloc, &scheme, &taps, 19_723, amounts)
}

// Five taps within two hours and a second.
const FIVE: [(u64, u64); 5] = [
    (1_704_100_000, 19_723),
    (1_704_101_800, 19_723),
    (1_704_103_600, 19_723),
    (1_704_103_601, 19_723),
    (1_704_107_201, 19_723),
];

// Two taps of one second.
const TWO_AT_ONCE: [(u64, u64); 2] = [(1_704_100_000, 19_723), (1_704_100_000, 19_723)];

// The last tap of one traffic day, and the first of the next, a hundred seconds later.
const OVER_THE_END: [(u64, u64); 2] = [(1_704_169_700, 19_723), (1_704_169_800, 19_724)];

#[test]
fn a_paid_ride_makes_others_free_for_a_while(rt: HostRuntime) {
    const CASES: [(u32, &[(u64, u64)], &[u64]); 7] = [
        (3_600, &FIVE, &[175, 0, 0, 175, 0]),
        (7_200, &FIVE, &[175, 0, 0, 0, 175]),
        (3_599, &FIVE, &[175, 0, 175, 0, 175]),
        (1, &FIVE, &[175, 175, 175, 0, 0]),
        (0, &FIVE, &[175, 175, 175, 0, 0]),
        (0, &TWO_AT_ONCE, &[175, 175]),
        (1, &TWO_AT_ONCE, &[175, 0]),
    ];
    for (place, (seconds, moments, amounts)) in CASES.iter().enumerate() {
        let charged = is_charged(rt.alloc(), *seconds, moments, amounts);
        same(&rt, &(place, charged), &(place, Some(true)));
    }
}

// The bill of a day.
fn bill(alloc: Global, scheme: &Scheme, taps: &[Record], day: u64) -> Option<Bill> {
    day_bill(alloc, scheme, taps, Day::new(day)?).ok()
}

// The first row of the bill of a day of these taps, by a window of an hour: product, token, rides and amount.
fn first_row(alloc: Global, moments: &[(u64, u64)], day: u64) -> Option<(u32, u64, u64, u64)> {
    let scheme = scheme(alloc, (525, 2_470), 3_600)?;
    let taps = taps_at(alloc, moments)?;
    row(&bill(alloc, &scheme, &taps, day)?, 0)
}

#[test]
fn free_rides_are_rides(rt: HostRuntime) {
    let rows = [
        first_row(rt.alloc(), &FIVE, 19_723),
        first_row(rt.alloc(), &OVER_THE_END, 19_723),
        first_row(rt.alloc(), &OVER_THE_END, 19_724),
    ];
    let paid = Some((1, 77, 1, 175));
    same(&rt, &rows, &[Some((1, 77, 5, 350)), paid, paid]);
}

// Six thousand taps on two devices, a thousand on each day of a week, in the hour after noon, at moments as they come.
fn scattered(alloc: Global) -> Option<Vec<Record>> {
    let mut records = Vec::new(alloc);
    let mut number = 7_u64;
    for place in 0..6_000_u64 {
        number = number
            .wrapping_mul(6_364_136_223_846_793_005)
            .wrapping_add(1);
        let token = (number >> 33) % TOKENS + 1;
        let seconds = (number >> 20) % 3_600;
        let tapped = (place % 2 + 1, 1, token, 19_723 + place / 1_000);
        records.push(record(tapped, place + 1, seconds)?).ok()?;
    }
    Some(records)
}

// What the taps of a day, which stand in order, are charged by a window of 600 seconds and with no caps: for each token
// it is kept up to where its last window goes.
fn plain_charges(alloc: Global, ordered: &[Record], day: u64) -> Option<Vec<u64>> {
    let mut ends = vec![in alloc; 0_u64; 332].ok()?;
    let mut amounts = Vec::new(alloc);
    for tap in ordered {
        if u64::from(tap.tap().day().get()) == day {
            let moment = tap.tap().moment().get();
            let end = ends.get_mut(tap.tap().token().get() as usize)?;
            if moment <= *end {
                amounts.push(0).ok()?;
            } else {
                *end = moment + 600;
                amounts.push(175).ok()?;
            }
        }
    }
    Some(amounts)
}

// Whether the taps of a day are charged so.
fn are_charged_plainly(alloc: Global, scheme: &Scheme, taps: &[Record], day: u64) -> Option<bool> {
    let ordered = in_order(alloc, taps).ok()?;
    let amounts = plain_charges(alloc, &ordered, day)?;
    are_charged(alloc, scheme, taps, day, &amounts)
}

#[test]
fn a_scattered_list_is_charged_tap_by_tap(rt: HostRuntime) {
    let scheme = scheme(rt.alloc(), NO_CAPS, 600).expect(&rt, "scheme");
    let taps = scattered(rt.alloc()).expect(&rt, "taps");
    let plain = [
        are_charged_plainly(rt.alloc(), &scheme, &taps, 19_723),
        are_charged_plainly(rt.alloc(), &scheme, &taps, 19_728),
    ];
    same(&rt, &plain, &[Some(true); 2]);
}

// The moment of the first tap of a token on a day, from a moment on.
fn first_from(taps: &[Record], token: u64, day: u64, from: u64) -> Option<u64> {
    let mut first = None;
    for tap in taps {
        let moment = tap.tap().moment().get();
        let is_its = tap.tap().token().get() == token && u64::from(tap.tap().day().get()) == day;
        if is_its && from <= moment {
            first = Some(first.unwrap_or(moment).min(moment));
        }
    }
    first
}

// How many taps of a token are paid on a day: the first one, and then each first one behind a window of 600 seconds.
fn paid(taps: &[Record], token: u64, day: u64) -> u64 {
    let mut paid = 0_u64;
    let mut from = 0_u64;
    for _ in 0..taps.len() {
        let Some(first) = first_from(taps, token, day, from) else {
            return paid;
        };
        paid = paid.saturating_add(1);
        from = first.saturating_add(601);
    }
    paid
}

// The fare of a token's day.
fn fare(taps: &[Record], token: u64, day: u64) -> u64 {
    paid(taps, token, day).saturating_mul(175).min(525)
}

// The row of a token that has taps on a day: those of its week are paid up to the day.
fn plain_row(taps: &[Record], token: u64, day: u64) -> Option<(u32, u64, u64, u64)> {
    let mut before = 0_u64;
    for earlier in 19_723..day {
        before = before.saturating_add(fare(taps, token, earlier));
    }
    let after = before.saturating_add(fare(taps, token, day));
    let amount = capped(after).saturating_sub(capped(before));
    Some((1, token, counted(taps, token, day), amount))
}

// Whether a bill's rows are these, one for each token with a tap on the day.
fn is_plain(bill: &Bill, taps: &[Record], day: u64) -> bool {
    let mut place = 0_usize;
    for token in 1..=TOKENS {
        if counted(taps, token, day) > 0 {
            if row(bill, place) != plain_row(taps, token, day) {
                return false;
            }
            place = place.saturating_add(1);
        }
    }
    bill.rows().len() == place
}

// Whether a day is billed so.
fn is_billed_plainly(alloc: Global, scheme: &Scheme, taps: &[Record], day: u64) -> Option<bool> {
    let bill = bill(alloc, scheme, taps, day)?;
    Some(is_plain(&bill, taps, day))
}

#[test]
fn a_scattered_list_is_billed_by_its_windows(rt: HostRuntime) {
    let scheme = scheme(rt.alloc(), (525, 2_470), 600).expect(&rt, "scheme");
    let taps = scattered(rt.alloc()).expect(&rt, "taps");
    let plain = [
        is_billed_plainly(rt.alloc(), &scheme, &taps, 19_723),
        is_billed_plainly(rt.alloc(), &scheme, &taps, 19_727),
    ];
    same(&rt, &plain, &[Some(true); 2]);
}
