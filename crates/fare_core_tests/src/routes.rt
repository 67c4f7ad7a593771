use crate::bills::record;
use crate::checking::same;
use crate::settlements::plain_charge;
use fare_day::Zone;
use fare_record::{Day, Record};
use fare_samples::{self as samples, FIRST, Numbers};
use fare_scheme::{Draft, Scheme};
use fare_settle::{RouteShare, Settlement, settle};
use std::alloc::Global;

// A device of an operator of its own, all of one number.
fn add_operator(draft: &mut Draft, number: u16) -> Option<()> {
    draft.add_operator(number).ok()?;
    draft.add_station(number, number).ok()?;
    draft.add_device(u32::from(number), number, 4).ok()
}

// A scheme of three operators, with the product of the demonstration scheme.
fn three_operators(alloc: Global) -> Option<Scheme> {
    let mut draft = Draft::new(alloc);
    draft.set_zone(Zone::read("GMT0BST,M3.5.0/1,M10.5.0").ok()?);
    draft.add_owner(1, 4).ok()?;
    draft.add_product(1, 1, 175).ok()?;
    draft.set_caps(1, 525, 2_470).ok()?;
    add_operator(&mut draft, 1)?;
    add_operator(&mut draft, 2)?;
    add_operator(&mut draft, 3)?;
    draft.set_start(19_723).ok()?;
    draft.seal().ok()
}

// A tap on a route.
fn on_route(tap: Record, route: u16) -> Option<Record> {
    samples::record(Numbers {
        device: u64::from(tap.device().get()),
        link: tap.link(),
        lane: tap.lane(),
        token: tap.tap().token().get(),
        moment: tap.tap().moment().get(),
        day: u64::from(tap.tap().day().get()),
        route,
        ..FIRST
    })
}

// Six hundred taps of a day on the three devices in turn, of tokens of which some have many and some have few, on
// these routes in turn.
fn routed_list(alloc: Global) -> Option<Vec<Record>> {
    const ROUTES: [u16; 5] = [8, 0, 65_535, 7, 8];
    let mut records = Vec::new(alloc);
    for number in 0..600_u64 {
        let token = number.saturating_mul(number) % 97 + 1;
        let tap = record((number % 3 + 1, 1, token, 19_723), number + 1, number)?;
        let route = ROUTES[(number % 5) as usize];
        records.push(on_route(tap, route)?).ok()?;
    }
    Some(records)
}

// What the taps of an operator, whose one device has its number, come to on a route, one by one.
fn plain_route(taps: &[Record], operator: u16, route: u16) -> RouteShare {
    let mut count = 0_u64;
    let mut amount = 0_u128;
    for (place, tap) in taps.iter().enumerate() {
        if tap.device().get() == u32::from(operator) && tap.tap().route() == route {
            count = count.saturating_add(1);
            amount = amount.saturating_add(plain_charge(taps, place, *tap, 19_723) as u128);
        }
    }
    RouteShare {
        route,
        taps: count,
        amount,
    }
}

// The settlement of these taps' day.
fn settlement(alloc: Global, scheme: &Scheme, taps: &[Record]) -> Option<Settlement> {
    settle(alloc, scheme, taps, Day::new(19_723)?).ok()
}

// The shares of the routes of the operator at a place.
fn routes_at(settlement: &Settlement, place: usize) -> Option<&[RouteShare]> {
    Some(settlement.shares().get(place)?.routes())
}

#[test]
fn three_operators_share_by_route(rt: HostRuntime) {
    let scheme = three_operators(rt.alloc()).expect(&rt, "scheme");
    let taps = routed_list(rt.alloc()).expect(&rt, "taps");
    let settlement = settlement(rt.alloc(), &scheme, &taps).expect(&rt, "settlement");
    same(&rt, &settlement.shares().len(), &3);
    for (place, operator) in [1, 2, 3].iter().enumerate() {
        let want = [0, 7, 8, 65_535].map(|route| plain_route(&taps, *operator, route));
        let routes = routes_at(&settlement, place).expect(&rt, "routes");
        same(&rt, &(*operator, routes), &(*operator, &want[..]));
    }
}

// A tap of operator 1 on each of four thousand routes, the greatest first.
fn many_routes(alloc: Global) -> Option<Vec<Record>> {
    let mut records = Vec::new(alloc);
    for number in 0..4_000_u64 {
        let tap = record((1, 1, number + 1, 19_723), number + 1, number)?;
        let route = u16::try_from(4_000 - number).ok()?;
        records.push(on_route(tap, route)?).ok()?;
    }
    Some(records)
}

#[test]
fn routes_stand_in_their_order(rt: HostRuntime) {
    let scheme = three_operators(rt.alloc()).expect(&rt, "scheme");
    let taps = many_routes(rt.alloc()).expect(&rt, "taps");
    let settlement = settlement(rt.alloc(), &scheme, &taps).expect(&rt, "settlement");
    let routes = routes_at(&settlement, 0).expect(&rt, "routes");
    same(&rt, &routes.len(), &4_000);
    let mut number = 0_u16;
    for share in routes {
        number = number.wrapping_add(1);
        let want = RouteShare {
            route: number,
            taps: 1,
            amount: 175,
        };
        same(&rt, share, &want);
    }
}
