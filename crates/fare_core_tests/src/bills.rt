use crate::checking::same;
use fare_cap::{Bill, day_bill};
use fare_day::Zone;
use fare_record::{Day, Record};
use fare_samples::{self as samples, FIRST, Numbers};
use fare_scheme::{DemoSize, Draft, Scheme};
use std::alloc::Global;
use std::process::Abort;

/// A tap: its device, its product, its token and its day.
pub(crate) type Tapped = (u64, u64, u64, u64);

/// The record of a tap with this link and lane number, so many seconds after noon of its day.
pub(crate) fn record(tapped: Tapped, number: u64, seconds: u64) -> Option<Record> {
    let (device, product, token, day) = tapped;
    let noon = day.saturating_mul(86_400).saturating_add(43_200);
    samples::record(Numbers {
        device,
        link: number,
        lane: number,
        product,
        token,
        moment: noon.saturating_add(seconds),
        day,
        ..FIRST
    })
}

/// The records of these taps, one second after the other.
pub(crate) fn records(alloc: Global, taps: &[Tapped]) -> Option<Vec<Record>> {
    let mut records = Vec::new(alloc);
    let mut number = 0_u64;
    for tapped in taps {
        number = number.saturating_add(1);
        records.push(record(*tapped, number, number)?).ok()?;
    }
    Some(records)
}

// Five taps of one account on a day.
fn push_day(records: &mut Vec<Record>, day: u64) -> Option<()> {
    for number in 1..=5 {
        records.push(record((1, 1, 77, day), number, number)?).ok()?;
    }
    Some(())
}

/// Five taps of one account on each day from Monday, 19723, to before a day.
pub(crate) fn week(alloc: Global, end: u64) -> Option<Vec<Record>> {
    let mut records = Vec::new(alloc);
    for day in 19_723..end {
        push_day(&mut records, day)?;
    }
    Some(records)
}

/// The demonstration scheme of two devices: product 1 costs 175, at most 525 a day and 2,470 a week, from day 19723 on.
pub(crate) fn demo(alloc: Global) -> Option<Scheme> {
    Scheme::demo(alloc, DemoSize::TwoDevices, 4, 4, 4).ok()
}

// The bill of a day, by its number.
fn bill(alloc: Global, scheme: &Scheme, records: &[Record], day: u64) -> Option<Bill> {
    day_bill(alloc, scheme, records, Day::new(day)?).ok()
}

// The rows of a bill: product, token, rides and amount. No row after the fourth is read.
fn rows(bill: &Bill) -> [Option<(u32, u64, u64, u64)>; 4] {
    [row(bill, 0), row(bill, 1), row(bill, 2), row(bill, 3)]
}

/// The row at a place: product, token, rides and amount.
pub(crate) fn row(bill: &Bill, place: usize) -> Option<(u32, u64, u64, u64)> {
    let row = bill.rows().get(place)?;
    Some((
        row.account.product().get(),
        row.account.token().get(),
        row.rides,
        row.amount.get(),
    ))
}

// The rides and the amount of the one account of a bill, and the bill's total.
fn only_account(bill: Option<Bill>) -> Option<(u64, u64, u128)> {
    let bill = bill?;
    let row = match bill.rows() {
        [row] => *row,
        _ => return None,
    };
    Some((row.rides, row.amount.get(), bill.total()))
}

// By this scheme the one account of these taps is billed so, day by day.
fn are_billed(
    rt: &impl Abort,
    alloc: Global,
    scheme: &Scheme,
    taps: &[Record],
    days: &[(u64, Option<(u64, u64, u128)>)],
) {
    for (day, billed) in days {
        let bill = bill(alloc, scheme, taps, *day);
        same(rt, &(day, only_account(bill)), &(day, *billed));
    }
}

#[test]
fn caps_a_day_and_a_week(rt: HostRuntime) {
    let scheme = demo(rt.alloc()).expect(&rt, "scheme");
    let taps = week(rt.alloc(), 19_729).expect(&rt, "taps");
    const DAYS: [(u64, Option<(u64, u64, u128)>); 6] = [
        (19_723, Some((5, 525, 525))),
        (19_724, Some((5, 525, 525))),
        (19_725, Some((5, 525, 525))),
        (19_726, Some((5, 525, 525))),
        (19_727, Some((5, 370, 370))),
        (19_728, Some((5, 0, 0))),
    ];
    are_billed(&rt, rt.alloc(), &scheme, &taps, &DAYS);
}

// How many rows the bill of a day has, and its total.
fn size(alloc: Global, scheme: &Scheme, taps: &[Record], day: u64) -> Option<(usize, u128)> {
    let bill = bill(alloc, scheme, taps, day)?;
    Some((bill.rows().len(), bill.total()))
}

#[test]
fn a_day_without_taps_has_no_rows(rt: HostRuntime) {
    let scheme = demo(rt.alloc()).expect(&rt, "scheme");
    let taps = week(rt.alloc(), 19_729).expect(&rt, "taps");
    for day in [0, 19_722, 19_729, 100_000] {
        same(&rt, &size(rt.alloc(), &scheme, &taps, day), &Some((0, 0)));
    }
}

// Two products, the second one registered first, at a fare of 100; product 1 costs 175, at most 525 a day and 600 a
// week.
fn add_products(draft: &mut Draft) -> Option<()> {
    draft.add_owner(1, 4).ok()?;
    draft.add_product(2, 1, 100).ok()?;
    draft.add_product(1, 1, 175).ok()?;
    draft.set_caps(1, 525, 600).ok()
}

/// Registers device 1 at station 1 of operator 1.
pub(crate) fn add_device(draft: &mut Draft) -> Option<()> {
    draft.add_operator(1).ok()?;
    draft.add_station(1, 1).ok()?;
    draft.add_device(1, 1, 4).ok()
}

// A draft of these products and a device, whose first day is a Wednesday.
fn from_wednesday(alloc: Global) -> Option<Scheme> {
    let zone = Zone::read("GMT0BST,M3.5.0/1,M10.5.0").ok()?;
    let mut draft = Draft::new(alloc);
    draft.set_zone(zone);
    add_products(&mut draft)?;
    add_device(&mut draft)?;
    draft.set_start(19_725).ok()?;
    draft.seal().ok()
}

// An unknown device, an unknown product and the days before the first one count nowhere, so the week begins with the
// one tap of Wednesday: 175, and then at most 600 of it.
const UNCOUNTED: [Tapped; 12] = [
    (1, 1, 77, 19_723),
    (1, 1, 77, 19_723),
    (1, 1, 77, 19_724),
    (1, 1, 77, 19_724),
    (9, 1, 77, 19_725),
    (1, 9, 77, 19_725),
    (1, 1, 77, 19_725),
    (9, 1, 77, 19_726),
    (1, 1, 77, 19_726),
    (1, 1, 77, 19_726),
    (1, 9, 77, 19_726),
    (1, 1, 77, 19_726),
];

#[test]
fn counts_registered_taps_from_the_first_day_on(rt: HostRuntime) {
    let scheme = from_wednesday(rt.alloc()).expect(&rt, "scheme");
    let taps = records(rt.alloc(), &UNCOUNTED).expect(&rt, "taps");
    const DAYS: [(u64, Option<(u64, u64, u128)>); 4] = [
        (19_723, None),
        (19_724, None),
        (19_725, Some((1, 175, 175))),
        (19_726, Some((3, 425, 425))),
    ];
    are_billed(&rt, rt.alloc(), &scheme, &taps, &DAYS);
}

// Three accounts, of which two have the token 78.
const MIXED: [Tapped; 6] = [
    (1, 2, 78, 19_726),
    (1, 1, 78, 19_726),
    (1, 2, 78, 19_726),
    (1, 1, 77, 19_726),
    (1, 1, 78, 19_726),
    (1, 2, 78, 19_727),
];

// The rows of the bill of the day of these three, and its total.
fn mixed_bill(alloc: Global) -> Option<([Option<(u32, u64, u64, u64)>; 4], u128)> {
    let scheme = from_wednesday(alloc)?;
    let taps = records(alloc, &MIXED)?;
    let bill = bill(alloc, &scheme, &taps, 19_726)?;
    Some((rows(&bill), bill.total()))
}

#[test]
fn accounts_stand_by_product_then_token(rt: HostRuntime) {
    let billed = [
        Some((1, 77, 1, 175)),
        Some((1, 78, 2, 350)),
        Some((2, 78, 2, 200)),
        None,
    ];
    same(&rt, &mixed_bill(rt.alloc()), &Some((billed, 725)));
}

/// How many tokens a long list has.
pub(crate) const TOKENS: u64 = 331;

/// A list of six thousand taps on two devices, a thousand on each day of a week, of which some tokens have many and
/// some have few.
pub(crate) fn long_list(alloc: Global) -> Option<Vec<Record>> {
    let mut records = Vec::new(alloc);
    for number in 0..6_000_u64 {
        let token = number.saturating_mul(number) % TOKENS + 1;
        let tapped = (number % 2 + 1, 1, token, 19_723 + number / 1_000);
        records.push(record(tapped, number + 1, number)?).ok()?;
    }
    Some(records)
}

/// How many of these taps a token has on a day, counted one by one.
pub(crate) fn counted(taps: &[Record], token: u64, day: u64) -> u64 {
    let mut rides = 0_u64;
    for tap in taps {
        if tap.tap().token().get() == token && u64::from(tap.tap().day().get()) == day {
            rides = rides.saturating_add(1);
        }
    }
    rides
}

/// The fare of a day with so many rides, by the demonstration scheme.
pub(crate) fn fare(rides: u64) -> u64 {
    rides.saturating_mul(175).min(525)
}

/// The fares of a token from Monday, 19723, to before a day.
pub(crate) fn fares_before(taps: &[Record], token: u64, day: u64) -> u64 {
    let mut fares = 0_u64;
    for earlier in 19_723..day {
        fares = fares.saturating_add(fare(counted(taps, token, earlier)));
    }
    fares
}

/// What a week with these fares comes to.
pub(crate) fn capped(fares: u64) -> u64 {
    fares.min(2_470)
}

// The row of a token as the formula has it: none where it has no tap on the day.
fn plain_row(taps: &[Record], token: u64, day: u64) -> Option<(u32, u64, u64, u64)> {
    let rides = counted(taps, token, day);
    if rides == 0 {
        return None;
    }
    let before = fares_before(taps, token, day);
    let after = before.saturating_add(fare(rides));
    let amount = capped(after).saturating_sub(capped(before));
    Some((1, token, rides, amount))
}

// Whether a bill's rows are those of the formula, and no others, and its total is their sum.
fn is_plain(bill: &Bill, taps: &[Record], day: u64) -> bool {
    let mut place = 0_usize;
    let mut total = 0_u128;
    for token in 1..=TOKENS {
        if let Some(plain) = plain_row(taps, token, day) {
            if row(bill, place) != Some(plain) {
                return false;
            }
            place = place.saturating_add(1);
            total = total.saturating_add(plain.3 as u128);
        }
    }
    (bill.rows().len(), bill.total()) == (place, total)
}

// Whether a day is billed by the formula.
fn is_billed_plainly(alloc: Global, scheme: &Scheme, taps: &[Record], day: u64) -> Option<bool> {
    let bill = bill(alloc, scheme, taps, day)?;
    Some(is_plain(&bill, taps, day))
}

#[test]
fn a_long_list_is_billed_by_the_formula(rt: HostRuntime) {
    let scheme = demo(rt.alloc()).expect(&rt, "scheme");
    let taps = long_list(rt.alloc()).expect(&rt, "taps");
    let plain = [
        is_billed_plainly(rt.alloc(), &scheme, &taps, 19_723),
        is_billed_plainly(rt.alloc(), &scheme, &taps, 19_727),
        is_billed_plainly(rt.alloc(), &scheme, &taps, 19_728),
    ];
    same(&rt, &plain, &[Some(true); 3]);
}
