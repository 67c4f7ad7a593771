use crate::checking::same;
use fare_record::{Day, DeviceId, Item, OwnerId, Record};
use fare_route::{Forwarder, StartFault, UnknownDevice};
use fare_samples::{FIRST, Numbers, record, statement};
use fare_scheme::{DemoSize, Scheme};
use fare_store::{FailingOutbox, Fault, Outbox, PlainOutbox, Refused};
use std::alloc::Global;
use std::process::Abort;

// What a forwarder of the demonstration scheme with two devices answers, for these counts of a ledger.
fn started(
    alloc: Global,
    owner: u64,
    counts: &[(u64, Option<Day>)],
) -> Option<Result<Forwarder, StartFault>> {
    let scheme = Scheme::demo(alloc, DemoSize::TwoDevices, 4, 4, 4).ok()?;
    Some(Forwarder::start(alloc, &scheme, OwnerId::new(owner)?, counts))
}

fn tapped(number: u64) -> Option<Record> {
    record(Numbers {
        link: number,
        lane: number,
        ..FIRST
    })
}

fn store<O: Outbox>(outbox: &mut O, number: u64) -> Option<bool> {
    Some(outbox.store(&tapped(number)?).is_ok())
}

fn state<O: Outbox>(outbox: &mut O, day: u64) -> Option<bool> {
    Some(outbox.store_statement(&statement(1, day, 1, 0)?).is_ok())
}

/// A call on a forwarder or its outbox.
#[derive(Clone, Copy)]
enum Call {
    /// The outbox stores the tap of this number.
    Store(u64),
    /// The outbox stores a statement of this day.
    State(u64),
    /// The forwarder hands on the tap of this number next.
    HandsTap(u64),
    /// It hands on the statement of this day next.
    HandsDay(u64),
    /// It has nothing to hand on of this device.
    HandsNothing(u64),
    /// It refuses this device.
    Refuses(u64),
    /// It fails, as its outbox does.
    Fails,
    /// The last step of device 1 is undone.
    PutBack,
}

fn hands<O: Outbox>(forwarder: &mut Forwarder, outbox: &mut O, item: Item) -> Option<bool> {
    Some(forwarder.next(outbox, DeviceId::new(1)?) == Ok(Some(item)))
}

fn hands_nothing<O: Outbox>(
    forwarder: &mut Forwarder,
    outbox: &mut O,
    device: u64,
) -> Option<bool> {
    Some(forwarder.next(outbox, DeviceId::new(device)?) == Ok(None))
}

fn stops<O: Outbox>(
    forwarder: &mut Forwarder,
    outbox: &mut O,
    device: u64,
    why: Refused<UnknownDevice>,
) -> Option<bool> {
    Some(forwarder.next(outbox, DeviceId::new(device)?) == Err(why))
}

fn put_back(forwarder: &mut Forwarder) -> Option<bool> {
    forwarder.put_back(DeviceId::new(1)?);
    Some(true)
}

// Whether the call does what it says.
fn does<O: Outbox>(forwarder: &mut Forwarder, outbox: &mut O, call: Call) -> Option<bool> {
    match call {
        Call::Store(number) => store(outbox, number),
        Call::State(day) => state(outbox, day),
        Call::HandsTap(number) => hands(forwarder, outbox, Item::Tap(tapped(number)?)),
        Call::HandsDay(day) => hands(forwarder, outbox, Item::Stated(statement(1, day, 1, 0)?)),
        Call::HandsNothing(device) => hands_nothing(forwarder, outbox, device),
        Call::Refuses(device) => {
            stops(forwarder, outbox, device, Refused::Because(UnknownDevice))
        }
        Call::Fails => stops(forwarder, outbox, 1, Refused::Failed(Fault::Store)),
        Call::PutBack => put_back(forwarder),
    }
}

// A forwarder that starts at these counts does all this, one after the other.
fn does_all<O: Outbox>(
    rt: &impl Abort,
    alloc: Global,
    counts: &[(u64, Option<Day>)],
    outbox: &mut O,
    calls: &[Call],
) {
    let started = started(alloc, 1, counts).expect(rt, "scheme");
    let mut forwarder = started.expect(rt, "forwarder");
    for call in calls {
        same(rt, &does(&mut forwarder, outbox, *call), &Some(true));
    }
}

// Why there is no forwarder of an owner with these counts.
fn fault_of(alloc: Global, owner: u64, counts: &[(u64, Option<Day>)]) -> Option<StartFault> {
    started(alloc, owner, counts)?.err()
}

#[test]
fn starts_with_a_count_for_each_device(rt: HostRuntime) {
    let one = [(0, None)];
    same(
        &rt,
        &fault_of(rt.alloc(), 1, &one),
        &Some(StartFault::Range),
    );
    same(
        &rt,
        &fault_of(rt.alloc(), 9, &one),
        &Some(StartFault::UnknownOwner),
    );
}

#[test]
fn hands_on_rows_and_then_statements(rt: HostRuntime) {
    const CALLS: [Call; 14] = [
        Call::HandsNothing(1),
        Call::State(19_723),
        Call::State(19_724),
        Call::Store(1),
        Call::Store(2),
        Call::HandsTap(1),
        Call::HandsTap(2),
        Call::HandsDay(19_723),
        Call::Store(3),
        Call::HandsTap(3),
        Call::HandsDay(19_724),
        Call::HandsNothing(1),
        Call::HandsNothing(2),
        Call::Refuses(3),
    ];
    let counts = [(0, None), (0, None)];
    let mut outbox = PlainOutbox::new(rt.alloc());
    does_all(&rt, rt.alloc(), &counts, &mut outbox, &CALLS);
}

#[test]
fn puts_back_what_it_handed_on(rt: HostRuntime) {
    const CALLS: [Call; 11] = [
        Call::Store(1),
        Call::Store(2),
        Call::PutBack,
        Call::Fails,
        Call::HandsTap(1),
        Call::PutBack,
        Call::PutBack,
        Call::HandsTap(1),
        Call::HandsTap(2),
        Call::PutBack,
        Call::HandsTap(2),
    ];
    let counts = [(0, None), (0, None)];
    let mut outbox = FailingOutbox::new(PlainOutbox::new(rt.alloc()), 3);
    does_all(&rt, rt.alloc(), &counts, &mut outbox, &CALLS);
}

#[test]
fn starts_behind_what_the_ledger_has(rt: HostRuntime) {
    const CALLS: [Call; 6] = [
        Call::Store(1),
        Call::Store(2),
        Call::State(19_723),
        Call::State(19_724),
        Call::HandsTap(2),
        Call::HandsDay(19_724),
    ];
    let counts = [(1, Day::new(19_723)), (0, None)];
    let mut outbox = PlainOutbox::new(rt.alloc());
    does_all(&rt, rt.alloc(), &counts, &mut outbox, &CALLS);
}
