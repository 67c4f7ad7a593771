use crate::checking::same;
use fare_day::Zone;
use fare_record::{DeviceId, OwnerId, Pence, ProductId};
use fare_scheme::{
    AddFault, CapsFault, DemoFault, DemoSize, Draft, HopFault, Scheme, SealFault, Tariff,
};
use std::alloc::Global;
use std::process::Abort;

/// A call on a draft, with its numbers.
#[derive(Clone, Copy)]
enum Call {
    Owner(u16, u32),
    Operator(u16),
    Station(u16, u16),
    Product(u32, u16, u32),
    Caps(u32, u32, u32),
    Hop(u32, u32),
    Device(u32, u16, u32),
    Inbox(u32),
    Start(u32),
}

fn made(draft: &mut Draft, call: Call) -> Result<(), AddFault> {
    match call {
        Call::Owner(owner, lane) => draft.add_owner(owner, lane),
        Call::Operator(operator) => draft.add_operator(operator),
        Call::Station(station, operator) => draft.add_station(station, operator),
        Call::Product(product, owner, fare) => draft.add_product(product, owner, fare),
        Call::Caps(product, daily, weekly) => capped(draft.set_caps(product, daily, weekly)),
        Call::Hop(product, seconds) => windowed(draft.set_hop(product, seconds)),
        Call::Device(device, station, buffer) => draft.add_device(device, station, buffer),
        Call::Inbox(capacity) => ranged(draft.set_inbox(capacity).is_ok()),
        Call::Start(day) => ranged(draft.set_start(day).is_ok()),
    }
}

// The answer of a call that is refused for its range alone.
fn ranged(is_taken: bool) -> Result<(), AddFault> {
    if is_taken {
        Ok(())
    } else {
        Err(AddFault::Range)
    }
}

fn capped(answer: Result<(), CapsFault>) -> Result<(), AddFault> {
    match answer {
        Ok(()) => Ok(()),
        Err(CapsFault::UnknownParent) => Err(AddFault::UnknownParent),
        Err(CapsFault::Range) => Err(AddFault::Range),
    }
}

fn windowed(answer: Result<(), HopFault>) -> Result<(), AddFault> {
    match answer {
        Ok(()) => Ok(()),
        Err(HopFault::UnknownParent) => Err(AddFault::UnknownParent),
        Err(HopFault::Range) => Err(AddFault::Range),
    }
}

// One of each kind, with neither start nor zone.
const SMALL: [Call; 5] = [
    Call::Owner(1, 4),
    Call::Operator(1),
    Call::Station(1, 1),
    Call::Product(1, 1, 175),
    Call::Device(1, 1, 4),
];

// The same with a start.
const STARTED: [Call; 6] = [
    Call::Owner(1, 4),
    Call::Operator(1),
    Call::Station(1, 1),
    Call::Product(1, 1, 175),
    Call::Device(1, 1, 4),
    Call::Start(19_723),
];

// The draft answers these calls so, one after the other.
fn answers(rt: &impl Abort, draft: &mut Draft, calls: &[(Call, Result<(), AddFault>)]) {
    for (call, answer) in calls {
        same(rt, &made(draft, *call), answer);
    }
}

// The draft takes these calls.
fn takes(rt: &impl Abort, draft: &mut Draft, calls: &[Call]) {
    for call in calls {
        same(rt, &made(draft, *call), &Ok(()));
    }
}

// Why a draft with these registrations, and London's clock if it is to have one, is not sealed.
fn seal_fault(
    rt: &impl Abort,
    alloc: Global,
    calls: &[Call],
    has_clock: bool,
) -> Option<SealFault> {
    let mut draft = Draft::new(alloc);
    takes(rt, &mut draft, calls);
    if has_clock {
        set_london(&mut draft)?;
    }
    let (_, fault) = draft.seal().err()?;
    Some(fault)
}

fn set_london(draft: &mut Draft) -> Option<()> {
    draft.set_zone(Zone::read("GMT0BST,M3.5.0/1,M10.5.0").ok()?);
    Some(())
}

// The scheme of the small registrations, with their start, caps and clock.
fn small_scheme(rt: &impl Abort, alloc: Global) -> Option<Scheme> {
    let mut draft = Draft::new(alloc);
    takes(rt, &mut draft, &SMALL);
    takes(
        rt,
        &mut draft,
        &[Call::Start(19_723), Call::Caps(1, 525, 2_470)],
    );
    set_london(&mut draft)?;
    draft.seal().ok()
}

#[test]
fn refuses_by_the_first_case(rt: HostRuntime) {
    const CALLS: [(Call, Result<(), AddFault>); 18] = [
        (Call::Owner(0, 4), Err(AddFault::ZeroId)),
        (Call::Owner(1, 4), Ok(())),
        (Call::Owner(1, 4), Err(AddFault::Taken)),
        (Call::Owner(1, 0), Err(AddFault::Taken)),
        (Call::Product(1, 2, 175), Err(AddFault::UnknownParent)),
        (Call::Product(1, 0, 100_001), Err(AddFault::UnknownParent)),
        (Call::Product(1, 1, 100_001), Err(AddFault::Range)),
        (Call::Caps(1, 525, 2_470), Err(AddFault::UnknownParent)),
        (Call::Operator(0), Err(AddFault::ZeroId)),
        (Call::Station(1, 1), Err(AddFault::UnknownParent)),
        (Call::Device(1, 1, 4), Err(AddFault::UnknownParent)),
        (Call::Inbox(1_025), Err(AddFault::Range)),
        (Call::Start(100_001), Err(AddFault::Range)),
        (Call::Product(1, 1, 175), Ok(())),
        (Call::Product(1, 1, 100_001), Err(AddFault::Taken)),
        (Call::Caps(1, 1_000_001, 2_470), Err(AddFault::Range)),
        (Call::Operator(1), Ok(())),
        (Call::Operator(1), Err(AddFault::Taken)),
    ];
    answers(&rt, &mut Draft::new(rt.alloc()), &CALLS);
}

#[test]
fn refuses_windows_by_the_first_case(rt: HostRuntime) {
    const CALLS: [(Call, Result<(), AddFault>); 9] = [
        (Call::Owner(1, 4), Ok(())),
        (Call::Product(1, 1, 175), Ok(())),
        (Call::Hop(1, 7_201), Err(AddFault::Range)),
        (Call::Hop(9, 60), Err(AddFault::UnknownParent)),
        (Call::Hop(9, 7_201), Err(AddFault::UnknownParent)),
        (Call::Hop(0, 0), Err(AddFault::UnknownParent)),
        (Call::Hop(1, 3_600), Ok(())),
        (Call::Hop(1, 7_200), Ok(())),
        (Call::Hop(1, 0), Ok(())),
    ];
    answers(&rt, &mut Draft::new(rt.alloc()), &CALLS);
}

#[test]
fn seals_what_is_whole(rt: HostRuntime) {
    let cases: [(&[Call], bool, Option<SealFault>); 6] = [
        (&[], true, Some(SealFault::NothingRegistered)),
        (&SMALL[..4], true, Some(SealFault::NothingRegistered)),
        (&SMALL, false, Some(SealFault::NoStart)),
        (&SMALL, true, Some(SealFault::NoStart)),
        (&STARTED, false, Some(SealFault::NoZone)),
        (&STARTED, true, None),
    ];
    for (calls, has_clock, fault) in cases {
        same(&rt, &seal_fault(&rt, rt.alloc(), calls, has_clock), &fault);
    }
}

#[test]
fn a_sealed_scheme_answers_what_was_registered(rt: HostRuntime) {
    let scheme = small_scheme(&rt, rt.alloc()).expect(&rt, "scheme");
    assert!(rt; reads_back(&scheme));
}

// Whether the small scheme answers what was registered.
fn reads_back(scheme: &Scheme) -> bool {
    let Some(owner) = OwnerId::new(1) else {
        return false;
    };
    scheme.lane_capacity(owner) == Some(4)
        && scheme.owner_position(owner) == Some(0)
        && scheme.inbox_capacity() == 1_024
        && scheme.start().get() == 19_723
        && reads_product_back(scheme, owner)
        && reads_device_back(scheme)
}

fn reads_product_back(scheme: &Scheme, owner: OwnerId) -> bool {
    let Some(product) = ProductId::new(1) else {
        return false;
    };
    let tariff = Tariff {
        fare: Pence::new(175),
        daily: Pence::new(525),
        weekly: Pence::new(2_470),
        hop: 0,
    };
    scheme.owner_of(product) == Some(owner) && scheme.tariff_of(product) == Some(tariff)
}

fn reads_device_back(scheme: &Scheme) -> bool {
    let Some(device) = DeviceId::new(1) else {
        return false;
    };
    scheme.buffer_of(device) == Some(4)
        && scheme.station_of(device) == scheme.station_at(0)
        && scheme.operator_of(device) == scheme.operator_at(0)
        && scheme.device_at(0) == Some(device)
        && scheme.device_at(1).is_none()
        && scheme.device_position(device) == Some(0)
}

// One of each kind, and then as many owners and devices as there may be.
fn fill(rt: &impl Abort, draft: &mut Draft) {
    takes(rt, draft, &SMALL);
    for owner in 2..17 {
        same(rt, &made(draft, Call::Owner(owner, 4)), &Ok(()));
    }
    for device in 2..257 {
        same(rt, &made(draft, Call::Device(device, 1, 4_096)), &Ok(()));
    }
}

#[test]
fn takes_as_many_as_there_may_be(rt: HostRuntime) {
    const CALLS: [(Call, Result<(), AddFault>); 3] = [
        (Call::Owner(17, 4), Err(AddFault::TooMany)),
        (Call::Device(257, 1, 4_096), Err(AddFault::TooMany)),
        (Call::Device(257, 1, 4_097), Err(AddFault::Range)),
    ];
    let mut draft = Draft::new(rt.alloc());
    fill(&rt, &mut draft);
    answers(&rt, &mut draft, &CALLS);
}

fn demo_devices(alloc: Global, size: DemoSize, buffer: u32) -> Result<usize, DemoFault> {
    let scheme = Scheme::demo(alloc, size, buffer, 4, 4)?;
    Ok(scheme.device_count())
}

#[test]
fn makes_small_schemes(rt: HostRuntime) {
    same(
        &rt,
        &demo_devices(rt.alloc(), DemoSize::OneDevice, 4),
        &Ok(1),
    );
    same(
        &rt,
        &demo_devices(rt.alloc(), DemoSize::TwoDevices, 4),
        &Ok(2),
    );
    same(
        &rt,
        &demo_devices(rt.alloc(), DemoSize::TwoDevices, 0),
        &Err(DemoFault::Range),
    );
}

// Whether the parts of the demonstration scheme of this number stand at this position.
fn stand_at(scheme: &Scheme, number: u64, position: usize) -> bool {
    let Some(device) = DeviceId::new(number) else {
        return false;
    };
    let Some(station) = scheme.station_of(device) else {
        return false;
    };
    let Some(operator) = scheme.operator_of(device) else {
        return false;
    };
    scheme.device_position(device) == Some(position)
        && scheme.device_at(position) == Some(device)
        && scheme.station_position(station) == Some(position)
        && scheme.station_at(position) == Some(station)
        && scheme.operator_position(operator) == Some(position)
        && scheme.operator_at(position) == Some(operator)
        && scheme.devices().get(position).copied() == Some(device)
        && scheme.stations().get(position).copied() == Some(station)
        && scheme.operators().get(position).copied() == Some(operator)
}

#[test]
fn positions_are_in_order_of_registration(rt: HostRuntime) {
    let scheme = Scheme::demo(rt.alloc(), DemoSize::TwoDevices, 4, 4, 4).expect(&rt, "scheme");
    assert!(rt; stand_at(&scheme, 1, 0));
    assert!(rt; stand_at(&scheme, 2, 1));
    same(&rt, &scheme.devices().len(), &2);
    same(&rt, &scheme.stations().len(), &2);
    same(&rt, &scheme.operators().len(), &2);
    same(&rt, &scheme.owners().first().copied(), &scheme.owner_at(0));
    same(&rt, &scheme.owners().len(), &1);
    same(&rt, &scheme.product_at(0), &ProductId::new(1));
    same(&rt, &scheme.product_at(1), &None);
    let other = ProductId::new(2).expect(&rt, "product");
    same(&rt, &scheme.product_position(other), &None);
}
