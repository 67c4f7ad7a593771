use crate::checking::same;
use fare_day::Zone;
use fare_event::{Event, Reply};
use fare_record::{DeviceId, Moment, OwnerId, ProductId, StationId, Token};
use fare_samples::{FIRST, record};
use fare_scheme::{DemoSize, Draft, Scheme};
use fare_store::{FailingOutbox, Fault, Outbox, PlainLedger, PlainOutbox};
use fare_world::{World, WorldFault};
use std::alloc::Global;

// A world whose stores are in memory.
pub type PlainWorld = World<PlainOutbox, PlainLedger>;

// An empty ledger for each owner of a scheme.
fn ledgers_of(alloc: Global, scheme: &Scheme) -> Option<Vec<PlainLedger>> {
    let mut ledgers = Vec::new(alloc);
    for place in 0..scheme.owner_count() {
        let ledger = PlainLedger::new(alloc, scheme, scheme.owner_at(place)?).ok()?;
        ledgers.push(ledger).ok()?;
    }
    Some(ledgers)
}

fn world_over(alloc: Global, scheme: Scheme) -> Option<PlainWorld> {
    let ledgers = ledgers_of(alloc, &scheme)?;
    World::new(alloc, scheme, PlainOutbox::new(alloc), ledgers).ok()
}

// What brings the first tap of a device to the ledger of the owner of a product with the owner's number.
pub(crate) fn journey(device: u64, product: u64, packet: u64) -> Option<[Event; 10]> {
    let device = DeviceId::new(device)?;
    let owner = OwnerId::new(product)?;
    Some([
        Event::Tap {
            device,
            product: ProductId::new(product)?,
            token: Token::new(77)?,
            moment: Moment::new(1_704_100_000)?,
            route: None,
        },
        Event::Send { device },
        Event::Arrive { packet },
        Event::Draw,
        Event::Store,
        Event::Forward { owner, device },
        Event::Fetch { owner },
        Event::Take { owner },
        Event::Upto { device },
        Event::Count { owner, device },
    ])
}

// The replies to that.
fn answers(device: u64, packet: u64) -> Option<[Reply; 10]> {
    let device = DeviceId::new(device)?;
    Some([
        Reply::Recorded { link: 1, lane: 1 },
        Reply::Sent { packet, link: 1 },
        Reply::Accepted,
        Reply::Drawn { device, link: 1 },
        Reply::Stored { device, link: 1 },
        Reply::Forwarded { lane: 1 },
        Reply::Fetched { device, lane: 1 },
        Reply::Taken { device, lane: 1 },
        Reply::Upto(1),
        Reply::Count(1),
    ])
}

pub(crate) fn small_world(alloc: Global) -> Option<PlainWorld> {
    let scheme = Scheme::demo(alloc, DemoSize::OneDevice, 4, 4, 4).ok()?;
    world_over(alloc, scheme)
}

// The replies of a run.
fn run(world: PlainWorld, events: &[Event]) -> Option<Vec<Reply>> {
    let (_world, replies) = world.run(events).ok()?;
    Some(replies)
}

// Whether the world answers these events so, one after the other.
fn answers_so(world: &mut PlainWorld, events: &[Event], answers: &[Reply]) -> bool {
    for (event, answer) in events.iter().zip(answers) {
        if !world.apply(event).is_ok_and(|reply| reply == *answer) {
            return false;
        }
    }
    true
}

// Whether a device's first tap comes to its owner's ledger.
fn reaches_its_owner(world: &mut PlainWorld, device: u64, product: u64) -> Option<bool> {
    let answers = answers(device, device)?;
    let events = journey(device, product, device)?;
    Some(answers_so(world, &events, &answers))
}

// An owner with a product, and an operator with a station.
fn add_part(draft: &mut Draft, part: u16) -> Option<()> {
    draft.add_owner(part, 4).ok()?;
    draft.add_product(u32::from(part), part, 175).ok()?;
    draft.add_operator(part).ok()?;
    draft.add_station(part, part).ok()
}

fn add_parts(draft: &mut Draft) -> Option<()> {
    for part in 1..=16 {
        add_part(draft, part)?;
    }
    Some(())
}

fn add_devices(draft: &mut Draft) -> Option<()> {
    for device in 1..=256u32 {
        draft.add_device(device, (device % 16 + 1) as u16, 4).ok()?;
    }
    Some(())
}

fn seal(mut draft: Draft) -> Option<Scheme> {
    draft.set_start(19_723).ok()?;
    draft.set_zone(Zone::read("GMT0BST,M3.5.0/1,M10.5.0").ok()?);
    draft.seal().ok()
}

// 16 owners with a product each, 16 operators with a station each, and 256 devices.
fn wide_world(alloc: Global) -> Option<PlainWorld> {
    let mut draft = Draft::new(alloc);
    add_parts(&mut draft)?;
    add_devices(&mut draft)?;
    world_over(alloc, seal(draft)?)
}

// What brings 450 taps of device 1 to the ledger of owner 1, one after the other, each acknowledged.
pub(crate) fn many_journeys(alloc: Global) -> Option<Vec<Event>> {
    let device = DeviceId::new(1)?;
    let station = StationId::new(1)?;
    let mut events = Vec::new(alloc);
    for tap in 1..=450u64 {
        events.extend_from_slice(&journey(1, 1, 2 * tap - 1)?).ok()?;
        events.push(Event::Ack { device }).ok()?;
        events.push(Event::Answer { station }).ok()?;
        events.push(Event::Arrive { packet: 2 * tap }).ok()?;
    }
    Some(events)
}

// The replies of a run of the small world.
fn replies_to(alloc: Global, events: &[Event]) -> Option<Vec<Reply>> {
    run(small_world(alloc)?, events)
}

#[test]
fn a_tap_reaches_the_ledger(rt: HostRuntime) {
    let events = journey(1, 1, 1).expect(&rt, "journey");
    let answers = answers(1, 1).expect(&rt, "answers");
    let replies = replies_to(rt.alloc(), &events).expect(&rt, "run");
    same(&rt, &replies.as_slice(), &answers.as_slice());
}

#[test]
fn each_of_256_devices_reaches_its_owner(rt: HostRuntime) {
    let mut world = wide_world(rt.alloc()).expect(&rt, "world");
    for device in 1..=256 {
        let reached = reaches_its_owner(&mut world, device, device % 16 + 1);
        same(&rt, &reached, &Some(true));
    }
}

// How many replies there are to these journeys, and whether these are the last ones.
fn ends_with(alloc: Global, last: &[Reply]) -> Option<(usize, bool)> {
    let events = many_journeys(alloc)?;
    let replies = replies_to(alloc, &events)?;
    Some((replies.len(), replies.ends_with(last)))
}

#[test]
fn a_long_run_answers_each_event(rt: HostRuntime) {
    let device = DeviceId::new(1).expect(&rt, "device");
    let last = [
        Reply::Count(450),
        Reply::Acknowledged(450),
        Reply::Answered {
            packet: 900,
            device,
            upto: 450,
        },
        Reply::Dropped(1),
    ];
    same(&rt, &ends_with(rt.alloc(), &last), &Some((5_850, true)));
}

// A world whose outbox fails once.
type FailingWorld = World<FailingOutbox<PlainOutbox>, PlainLedger>;

// A world of one device, whose outbox fails at its second call. Making the world asks it once, whether it is
// empty.
fn failing_world(alloc: Global) -> Option<FailingWorld> {
    let scheme = Scheme::demo(alloc, DemoSize::OneDevice, 4, 4, 4).ok()?;
    let ledgers = ledgers_of(alloc, &scheme)?;
    let outbox = FailingOutbox::new(PlainOutbox::new(alloc), 2);
    World::new(alloc, scheme, outbox, ledgers).ok()
}

// Brings a tap to the writer's hand.
fn to_the_hand(world: &mut FailingWorld) -> Option<()> {
    for event in &journey(1, 1, 1)?[..4] {
        world.apply(event).ok()?;
    }
    Some(())
}

// The answers to a store that the outbox fails, and to the same once more.
fn stored_twice(alloc: Global) -> Option<[Result<Reply, Fault>; 2]> {
    let mut world = failing_world(alloc)?;
    to_the_hand(&mut world)?;
    Some([world.apply(&Event::Store), world.apply(&Event::Store)])
}

#[test]
fn a_failing_store_leaves_the_hand(rt: HostRuntime) {
    let device = DeviceId::new(1).expect(&rt, "device");
    let answers = stored_twice(rt.alloc()).expect(&rt, "answers");
    let stored = Reply::Stored { device, link: 1 };
    same(&rt, &answers, &[Err(Fault::Store), Ok(stored)]);
}

// An outbox with a row or none.
fn outbox_with(alloc: Global, has_row: bool) -> Option<PlainOutbox> {
    let mut outbox = PlainOutbox::new(alloc);
    if has_row {
        outbox.store(&record(FIRST)?).ok()?;
    }
    Some(outbox)
}

// Why there is no world of one owner over this many ledgers and an outbox with a row or none; None where
// there is one.
fn fault_over(alloc: Global, ledgers: usize, has_row: bool) -> Option<WorldFault> {
    let outbox = outbox_with(alloc, has_row)?;
    let scheme = Scheme::demo(alloc, DemoSize::OneDevice, 4, 4, 4).ok()?;
    let mut owned = ledgers_of(alloc, &scheme)?;
    owned.truncate(ledgers);
    let (_parts, fault) = World::new(alloc, scheme, outbox, owned).err()?;
    Some(fault)
}

#[test]
fn a_world_asks_for_its_ledgers_and_for_empty_stores(rt: HostRuntime) {
    let faults = [
        fault_over(rt.alloc(), 0, false),
        fault_over(rt.alloc(), 0, true),
        fault_over(rt.alloc(), 1, true),
        fault_over(rt.alloc(), 1, false),
    ];
    let wrong = Some(WorldFault::WrongLedgers);
    same(
        &rt,
        &faults,
        &[wrong, wrong, Some(WorldFault::NotEmpty), None],
    );
}
