use crate::checking::same;
use crate::world::{PlainWorld, many_journeys, small_world};
use fare_cap::{Bill, Row};
use fare_event::Event;
use fare_record::{Day, DeviceId, OwnerId};
use fare_settle::Settlement;
use fare_store::Refused;
use fare_world::BillFault;
use std::alloc::Global;

// What states the first day of device 1 to owner 1, and closes it, behind these journeys.
fn closing() -> Option<[Event; 9]> {
    let device = DeviceId::new(1)?;
    let owner = OwnerId::new(1)?;
    let day = Day::new(19_723)?;
    Some([
        Event::Turn { device },
        Event::State { device, day, owner },
        Event::Arrive { packet: 901 },
        Event::Draw,
        Event::Store,
        Event::Forward { owner, device },
        Event::Fetch { owner },
        Event::Take { owner },
        Event::Close { owner, device, day },
    ])
}

// A world to which these events happened.
fn behind(world: PlainWorld, events: &[Event]) -> Option<PlainWorld> {
    let (world, _replies) = world.run(events).ok()?;
    Some(world)
}

// A world of one device, whose owner has 450 taps of the first day.
fn busy_world(alloc: Global) -> Option<PlainWorld> {
    let journeys = many_journeys(alloc)?;
    behind(small_world(alloc)?, &journeys)
}

// The same, and the day is closed.
fn closed_world(alloc: Global) -> Option<PlainWorld> {
    let events = closing()?;
    behind(busy_world(alloc)?, &events)
}

/// A bill, and the devices of which it is short, or why there is none.
type Told = Result<(Bill, Vec<DeviceId>), Refused<BillFault>>;

// An owner's bill of a day.
fn bill(world: &mut PlainWorld, owner: u64, day: u64) -> Option<Told> {
    Some(world.bill(OwnerId::new(owner)?, Day::new(day)?))
}

// How many accounts a bill has, the rides and the amount of the first, and the total, and of how many devices it is short.
type Read = (usize, u64, u64, u128, usize);

fn read(told: &(Bill, Vec<DeviceId>)) -> Option<Read> {
    let (bill, short) = told;
    let row: &Row = bill.rows().first()?;
    Some((
        bill.rows().len(),
        row.rides,
        row.amount.get(),
        bill.total(),
        short.len(),
    ))
}

// The one share of a settlement: operator, taps and amount.
fn share(settlement: &Settlement) -> Option<(u16, u64, u128)> {
    let [share] = settlement.shares() else {
        return None;
    };
    Some((share.operator().get(), share.taps(), share.amount()))
}

// The bill of the day.
fn bill_of_the_day(world: &mut PlainWorld) -> Option<Read> {
    read(&bill(world, 1, 19_723)?.ok()?)
}

// The share in the settlement of the day, and how many devices it lacks.
fn share_of_the_day(world: &mut PlainWorld) -> Option<((u16, u64, u128), usize)> {
    let (owner, day) = (OwnerId::new(1)?, Day::new(19_723)?);
    let (settlement, short) = world.settlement(owner, day).ok()?;
    Some((share(&settlement)?, short.len()))
}

#[test]
fn a_closed_day_has_a_bill(rt: HostRuntime) {
    let mut world = closed_world(rt.alloc()).expect(&rt, "world");
    for _ in 0..2 {
        same(
            &rt,
            &bill_of_the_day(&mut world),
            &Some((1, 450, 525, 525, 0)),
        );
    }
    same(
        &rt,
        &share_of_the_day(&mut world),
        &Some(((1, 450, 525), 0)),
    );
}

// The lane of device 1 is retired with all its taps taken and no day closed.
fn retired_world(alloc: Global) -> Option<PlainWorld> {
    let retire = Event::Retire {
        owner: OwnerId::new(1)?,
        device: DeviceId::new(1)?,
    };
    behind(busy_world(alloc)?, &[retire])
}

#[test]
fn a_retired_lane_is_billed_with_what_was_taken(rt: HostRuntime) {
    let mut world = retired_world(rt.alloc()).expect(&rt, "world");
    same(
        &rt,
        &bill_of_the_day(&mut world),
        &Some((1, 450, 525, 525, 1)),
    );
    same(
        &rt,
        &share_of_the_day(&mut world),
        &Some(((1, 450, 525), 1)),
    );
}
