use crate::checking::same;
use fare_collector::{CollectRefusal, Collector, CollectorFault, StatementRefusal};
use fare_record::{DeviceId, LAST_NUMBER, StationId};
use fare_samples::{FIRST, Numbers, record, statement};
use fare_scheme::{DemoSize, Scheme};
use std::alloc::Global;
use std::process::Abort;

/// A call on a collector.
#[derive(Clone, Copy)]
enum Call {
    /// A tap of a device comes, with this link, for product 1 of owner 1.
    Accept(u64, u64),
    /// A tap of a device comes, with this link, for a product, numbered for an owner.
    AcceptFor(u64, u64, u64, u64),
    /// The last accept of a device is undone.
    GoBack { device: u64 },
    /// A device goes on after a link.
    Resume { device: u64, upto: u64 },
}

// What a collector answers to a tap of a device with this link, for a product, numbered for an owner.
fn accepted(
    collector: &mut Collector,
    scheme: &Scheme,
    (device, link, product, owner): (u64, u64, u64, u64),
) -> Option<Result<(), CollectRefusal>> {
    let record = record(Numbers {
        device,
        link,
        owner,
        lane: link,
        product,
        ..FIRST
    })?;
    Some(collector.accept(scheme, &record))
}

fn answer(
    collector: &mut Collector,
    scheme: &Scheme,
    call: Call,
) -> Option<Result<(), CollectRefusal>> {
    match call {
        Call::Accept(device, link) => return accepted(collector, scheme, (device, link, 1, 1)),
        Call::AcceptFor(device, link, product, owner) => {
            return accepted(collector, scheme, (device, link, product, owner));
        }
        Call::GoBack { device } => collector.unaccept(DeviceId::new(device)?),
        Call::Resume { device, upto } => {
            if upto <= LAST_NUMBER {
                collector.resume(DeviceId::new(device)?, upto);
            }
        }
    }
    Some(Ok(()))
}

// Device 1 stands at station 1, device 2 at station 2, and owner 1 has product 1.
fn two_devices(alloc: Global) -> Option<Scheme> {
    Scheme::demo(alloc, DemoSize::TwoDevices, 4, 4, 4).ok()
}

fn collector_of(alloc: Global, scheme: &Scheme, station: u64) -> Option<Collector> {
    Collector::new(alloc, scheme, StationId::new(station)?).ok()
}

// A new collector of a station answers these calls so, one after the other.
fn answers(
    rt: &impl Abort,
    alloc: Global,
    station: u64,
    calls: &[(Call, Result<(), CollectRefusal>)],
) {
    let scheme = two_devices(alloc).expect(rt, "scheme");
    let mut collector = collector_of(alloc, &scheme, station).expect(rt, "collector");
    for (call, judged) in calls {
        same(rt, &answer(&mut collector, &scheme, *call), &Some(*judged));
    }
}

#[test]
fn accepts_the_next_link_alone(rt: HostRuntime) {
    const CALLS: [(Call, Result<(), CollectRefusal>); 4] = [
        (Call::Accept(1, 2), Err(CollectRefusal::Ahead)),
        (Call::Accept(1, 1), Ok(())),
        (Call::Accept(1, 1), Err(CollectRefusal::Old)),
        (Call::Accept(1, 2), Ok(())),
    ];
    answers(&rt, rt.alloc(), 1, &CALLS);
}

#[test]
fn refuses_strangers_and_other_owners(rt: HostRuntime) {
    const CALLS: [(Call, Result<(), CollectRefusal>); 7] = [
        (Call::Accept(2, 1), Err(CollectRefusal::Stranger)),
        (Call::Accept(3, 1), Err(CollectRefusal::Stranger)),
        (Call::AcceptFor(2, 1, 1, 2), Err(CollectRefusal::Stranger)),
        (Call::AcceptFor(1, 1, 1, 2), Err(CollectRefusal::Misrouted)),
        (Call::AcceptFor(1, 1, 2, 1), Err(CollectRefusal::Misrouted)),
        (Call::AcceptFor(1, 2, 1, 2), Err(CollectRefusal::Misrouted)),
        (Call::Accept(1, 1), Ok(())),
    ];
    answers(&rt, rt.alloc(), 1, &CALLS);
}

#[test]
fn goes_back_and_resumes(rt: HostRuntime) {
    const CALLS: [(Call, Result<(), CollectRefusal>); 9] = [
        (Call::GoBack { device: 1 }, Ok(())),
        (Call::Accept(1, 1), Ok(())),
        (Call::GoBack { device: 1 }, Ok(())),
        (Call::Accept(1, 1), Ok(())),
        (Call::Resume { device: 1, upto: 3 }, Ok(())),
        (Call::Accept(1, 4), Ok(())),
        (Call::Resume { device: 2, upto: 3 }, Ok(())),
        (Call::Accept(2, 4), Err(CollectRefusal::Stranger)),
        (Call::Accept(1, 5), Ok(())),
    ];
    answers(&rt, rt.alloc(), 1, &CALLS);
}

#[test]
fn each_station_has_its_devices(rt: HostRuntime) {
    const CALLS: [(Call, Result<(), CollectRefusal>); 2] = [
        (Call::Accept(1, 1), Err(CollectRefusal::Stranger)),
        (Call::Accept(2, 1), Ok(())),
    ];
    answers(&rt, rt.alloc(), 2, &CALLS);
}

// What a collector of station 1 answers to the statement of a device and an owner.
fn stated(
    collector: &Collector,
    scheme: &Scheme,
    device: u64,
    owner: u64,
) -> Option<Result<(), StatementRefusal>> {
    let statement = statement(device, 19_723, owner, 3)?;
    Some(collector.accept_statement(scheme, &statement))
}

#[test]
fn accepts_statements_of_its_devices(rt: HostRuntime) {
    let scheme = two_devices(rt.alloc()).expect(&rt, "scheme");
    let collector = collector_of(rt.alloc(), &scheme, 1).expect(&rt, "collector");
    const CASES: [(u64, u64, Result<(), StatementRefusal>); 5] = [
        (1, 1, Ok(())),
        (1, 1, Ok(())),
        (2, 1, Err(StatementRefusal::Stranger)),
        (2, 2, Err(StatementRefusal::Stranger)),
        (1, 2, Err(StatementRefusal::Misrouted)),
    ];
    for &(device, owner, answer) in &CASES {
        same(
            &rt,
            &stated(&collector, &scheme, device, owner),
            &Some(answer),
        );
    }
}

// Why there is no collector of a station.
fn fault_of(alloc: Global, station: u64) -> Option<CollectorFault> {
    let scheme = two_devices(alloc)?;
    Collector::new(alloc, &scheme, StationId::new(station)?).err()
}

#[test]
fn stands_at_a_registered_station(rt: HostRuntime) {
    same(&rt, &fault_of(rt.alloc(), 2), &None);
    same(
        &rt,
        &fault_of(rt.alloc(), 3),
        &Some(CollectorFault::UnknownStation),
    );
}
