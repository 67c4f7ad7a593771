use crate::bills::{
    Tapped, capped, counted, demo, fare, fares_before, long_list, record, records, week,
};
use crate::checking::same;
use fare_cap::day_bill;
use fare_record::{Day, Record};
use fare_scheme::Scheme;
use fare_settle::{Settled, Settlement, charges, settle};
use std::alloc::Global;
use std::process::Abort;

// The settlement of a day, by its number.
fn settlement(alloc: Global, scheme: &Scheme, taps: &[Record], day: u64) -> Option<Settlement> {
    settle(alloc, scheme, taps, Day::new(day)?).ok()
}

// The total of the bill of a day.
fn billed(alloc: Global, scheme: &Scheme, taps: &[Record], day: u64) -> Option<u128> {
    Some(day_bill(alloc, scheme, taps, Day::new(day)?).ok()?.total())
}

// The share of the operator at a place: operator, taps and amount.
fn share(shares: &[Settled], place: usize) -> Option<(u16, u64, u128)> {
    let settled = shares.get(place)?;
    Some((settled.operator().get(), settled.taps(), settled.amount()))
}

// The shares of the two operators and of no third.
fn shares(settlement: &Settlement) -> [Option<(u16, u64, u128)>; 3] {
    let shares = settlement.shares();
    [share(shares, 0), share(shares, 1), share(shares, 2)]
}

// The shares of a day.
fn shared(
    alloc: Global,
    scheme: &Scheme,
    taps: &[Record],
    day: u64,
) -> Option<[Option<(u16, u64, u128)>; 3]> {
    let settlement = settlement(alloc, scheme, taps, day)?;
    Some(shares(&settlement))
}

// The amount of the charge at a place, and its operator.
fn charged(
    alloc: Global,
    scheme: &Scheme,
    taps: &[Record],
    day: u64,
    place: usize,
) -> Option<(u16, u64)> {
    let charges = charges(alloc, scheme, taps, Day::new(day)?).ok()?;
    let charge = charges.get(place)?;
    Some((charge.operator.get(), charge.amount.get()))
}

// The charges of a day are these, one after the other.
fn are_charged(
    rt: &impl Abort,
    alloc: Global,
    scheme: &Scheme,
    taps: &[Record],
    day: u64,
    charges: &[Option<(u16, u64)>],
) {
    for (place, charge) in charges.iter().enumerate() {
        same(rt, &charged(alloc, scheme, taps, day, place), charge);
    }
}

// Five taps a day from Monday to Thursday, and four on Friday, on the devices of two operators in turn.
fn capped_week(alloc: Global) -> Option<Vec<Record>> {
    let mut records = week(alloc, 19_727)?;
    for (number, device) in [(6, 1), (7, 2), (8, 1), (9, 2)] {
        records
            .push(record((device, 1, 77, 19_727), number, number)?)
            .ok()?;
    }
    Some(records)
}

#[test]
fn operators_share_a_capped_day(rt: HostRuntime) {
    let scheme = demo(rt.alloc()).expect(&rt, "scheme");
    let taps = capped_week(rt.alloc()).expect(&rt, "taps");
    let friday = (
        shared(rt.alloc(), &scheme, &taps, 19_727),
        billed(rt.alloc(), &scheme, &taps, 19_727),
    );
    let parts = [Some((1, 2, 195)), Some((2, 2, 175)), None];
    same(&rt, &friday, &(Some(parts), Some(370)));
    const ONE_BY_ONE: [Option<(u16, u64)>; 5] = [
        Some((1, 175)),
        Some((2, 175)),
        Some((1, 20)),
        Some((2, 0)),
        None,
    ];
    are_charged(&rt, rt.alloc(), &scheme, &taps, 19_727, &ONE_BY_ONE);
}

// An unknown device, an unknown product and a day before the first one, and one tap that counts.
const UNCOUNTED: [Tapped; 4] = [
    (9, 1, 77, 19_723),
    (2, 9, 77, 19_723),
    (1, 1, 77, 19_722),
    (2, 1, 77, 19_723),
];

#[test]
fn settles_registered_taps_alone(rt: HostRuntime) {
    let scheme = demo(rt.alloc()).expect(&rt, "scheme");
    let taps = records(rt.alloc(), &UNCOUNTED).expect(&rt, "taps");
    let days = [
        shared(rt.alloc(), &scheme, &taps, 19_722),
        shared(rt.alloc(), &scheme, &taps, 19_723),
        shared(rt.alloc(), &scheme, &taps, 19_724),
    ];
    let none = Some([Some((1, 0, 0)), Some((2, 0, 0)), None]);
    let one = Some([Some((1, 0, 0)), Some((2, 1, 175)), None]);
    same(&rt, &days, &[none, one, none]);
}

// Four taps of one account, of which the list has the latest first and two tie in moment: the order is that of
// moment, then device, then lane number, so the fourth, which is free, is the one with the greatest of these.
fn tied(alloc: Global) -> Option<Vec<Record>> {
    let mut records = Vec::new(alloc);
    for (device, number, seconds) in [(2, 1, 30), (1, 4, 20), (2, 3, 20), (1, 3, 20)] {
        records
            .push(record((device, 1, 77, 19_723), number, seconds)?)
            .ok()?;
    }
    Some(records)
}

#[test]
fn charges_by_moment_device_and_lane(rt: HostRuntime) {
    let scheme = demo(rt.alloc()).expect(&rt, "scheme");
    let taps = tied(rt.alloc()).expect(&rt, "taps");
    const ONE_BY_ONE: [Option<(u16, u64)>; 5] = [
        Some((1, 175)),
        Some((1, 175)),
        Some((2, 175)),
        Some((2, 0)),
        None,
    ];
    are_charged(&rt, rt.alloc(), &scheme, &taps, 19_723, &ONE_BY_ONE);
}

// The charge of the tap at a place of a list in order, as the formula has it.
pub(crate) fn plain_charge(taps: &[Record], place: usize, tap: Record, day: u64) -> u64 {
    let token = tap.tap().token().get();
    let earlier = match taps.get(..place) {
        Some(front) => counted(front, token, day),
        None => 0,
    };
    let before = fares_before(taps, token, day);
    let from = before.saturating_add(fare(earlier));
    let to = before.saturating_add(fare(earlier.saturating_add(1)));
    capped(to).saturating_sub(capped(from))
}

// The share of an operator, whose one device has its number, as the formula has it.
fn plain_share(taps: &[Record], operator: u16, day: u64) -> Option<(u16, u64, u128)> {
    let mut count = 0_u64;
    let mut amount = 0_u128;
    for (place, tap) in taps.iter().enumerate() {
        let here = tap.device().get() == u32::from(operator);
        if here && u64::from(tap.tap().day().get()) == day {
            count = count.saturating_add(1);
            amount = amount.saturating_add(plain_charge(taps, place, *tap, day) as u128);
        }
    }
    Some((operator, count, amount))
}

// Whether a day is settled by the formula.
fn is_settled_plainly(alloc: Global, scheme: &Scheme, taps: &[Record], day: u64) -> bool {
    let plain = [plain_share(taps, 1, day), plain_share(taps, 2, day), None];
    shared(alloc, scheme, taps, day) == Some(plain)
}

#[test]
fn a_long_list_is_settled_by_the_formula(rt: HostRuntime) {
    let scheme = demo(rt.alloc()).expect(&rt, "scheme");
    let taps = long_list(rt.alloc()).expect(&rt, "taps");
    let plain = [
        is_settled_plainly(rt.alloc(), &scheme, &taps, 19_723),
        is_settled_plainly(rt.alloc(), &scheme, &taps, 19_727),
    ];
    same(&rt, &plain, &[true; 2]);
}
