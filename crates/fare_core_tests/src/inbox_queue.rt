ghost use Rattle.std.specs.Prelude.{◌≡◌, ◌++◌, ◌∷◌, [], ◌≤◌, All};
ghost use Rattle.fare_record.specs.Limits.{IsNumber};
ghost use Rattle.fare_inbox_queue.specs.InboxPasses.{station_of, stations_of, IsStationOf, IsWriterOf, IsInboxEnded};
ghost use Rattle.fare_inbox_queue.specs.LinePasses.{IsAckOf, IsHearOf};

use crate::checking::same;
use fare_inbox_queue::{
    AckLine, AckPass, Arrived, Full, HearPass, Inbox, InboxEnded, QueueFault, StationPass,
    WriterPass,
};
use fare_record::{Ack, AckItem, DeviceId, Record, StationId};
use fare_samples::{FIRST, Numbers, record};
use std::alloc::Global;
use std::process::Abort;
use std::sync::Wait;
use std::thread;
use std::thread::Threads;

fn station(rt: &impl Abort, number: u64) -> StationId {
    StationId::new(number).expect(rt, "station")
}

fn device(rt: &impl Abort, number: u64) -> DeviceId {
    DeviceId::new(number).expect(rt, "device")
}

// Why there is no inbox for so many items of the stations with these numbers, if there is none.
fn fault(rt: &impl Abort, alloc: Global, capacity: u32, numbers: &[u64]) -> Option<QueueFault> {
    let mut stations = Vec::new(alloc);
    for number in numbers {
        stations.push(station(rt, *number)).expect(rt, "stations");
    }
    Inbox::new(alloc, capacity, &stations).err()
}

#[test]
fn an_inbox_has_room_for_1_to_1024_items_of_1_to_16_stations(rt: HostRuntime) {
    let many = [1, 2, 3, 4, 5, 6, 7, 8, 9, 10, 11, 12, 13, 14, 15, 16, 17];
    let range = Some(QueueFault::Range);
    let cases = [
        (0, &many[..1], range),
        (1025, &many[..1], range),
        (1024, &many[..1], None),
        (4, &[], range),
        (4, &[1, 2, 1], range),
        (4, &many, range),
        (4, &many[..16], None),
    ];
    for (capacity, numbers, want) in cases {
        same(&rt, &fault(&rt, rt.alloc(), capacity, numbers), &want);
    }
}

// A tap of a device.
fn tapped(rt: &impl Abort, device: DeviceId, link: u64) -> Record {
    let tapped = record(Numbers {
        device: u64::from(device.get()),
        link,
        lane: link,
        ..FIRST
    });
    tapped.expect(rt, "record")
}

// The last of the passes.
#[tactic(auto, using(crate::proofs::Passes::popped))]
fn last(rt: &impl Abort, inbox: &Inbox, passes: &mut Vec<StationPass>) -> StationPass
    requires { All (IsStationOf inbox.now) passes.old.items }
    ensures others { All (IsStationOf inbox.now) passes.new.items }
    ensures pass { IsStationOf inbox.now result }
    ensures items { passes.old.items ≡ passes.new.items ++ result ∷ [] }
{
    passes.pop().expect(rt, "pass")
}

// An inbox for the stations 1 and 2, with its passes.
fn two_stations(
    rt: &impl Abort,
    alloc: Global,
    capacity: u32,
) -> (Inbox, StationPass, StationPass, WriterPass)
    ensures passes { IsStationOf result.0 result.1 × IsStationOf result.0 result.2 × IsWriterOf result.0 result.3 }
    ensures stations { stations_of result.3 ≡ station_of result.1 ∷ station_of result.2 ∷ [] }
{
    let stations = [station(rt, 1), station(rt, 2)];
    let (inbox, mut passes, writer) = Inbox::new(alloc, capacity, &stations).expect(rt, "inbox");
    let second = last(rt, &inbox, &mut passes);
    let first = last(rt, &inbox, &mut passes);
    (inbox, first, second, writer)
}

fn finish<R: Wait + Abort>(
    rt: &R,
    alloc: Global,
    inbox: Inbox,
    first: StationPass,
    second: StationPass,
    writer: WriterPass,
) -> InboxEnded
    requires passes { IsStationOf inbox first × IsStationOf inbox second × IsWriterOf inbox writer }
    requires stations { stations_of writer ≡ station_of first ∷ station_of second ∷ [] }
    ensures { IsInboxEnded result }
{
    let passes = vec![in alloc; first, second].expect(rt, "passes");
    inbox.finish(rt, passes, writer)
}

fn put_link<R: Wait + Abort>(
    rt: &R,
    inbox: &Inbox,
    pass: &mut StationPass,
    device: DeviceId,
    link: u64,
) -> Result<(), Full<Arrived>>
    requires queue { IsStationOf inbox.now pass.old }
    requires link { IsNumber link }
    ensures queue { IsStationOf inbox.now pass.new }
    ensures station { station_of pass.new ≡ station_of pass.old }
{
    let item = Arrived::Tap(pass.station(), tapped(rt, device, link));
    inbox.put(rt, pass, item)
}

// What a station's pass puts for device 7.
fn arrived(rt: &impl Abort, number: u64, link: u64) -> Arrived
    requires { IsNumber link }
{
    Arrived::Tap(station(rt, number), tapped(rt, device(rt, 7), link))
}

// Links 1 to 4 of device 7, in turn from the two passes.
fn put_in_turn<R: Wait + Abort>(
    rt: &R,
    inbox: &Inbox,
    first: &mut StationPass,
    second: &mut StationPass,
) -> [Result<(), Full<Arrived>>; 4]
    requires queue { IsStationOf inbox.now first.old × IsStationOf inbox.now second.old }
    ensures queue { IsStationOf inbox.now first.new × IsStationOf inbox.now second.new }
    ensures stations { (station_of first.new ≡ station_of first.old) × (station_of second.new ≡ station_of second.old) }
{
    let seven = device(rt, 7);
    [
        put_link(rt, inbox, first, seven, 1),
        put_link(rt, inbox, second, seven, 2),
        put_link(rt, inbox, first, seven, 3),
        put_link(rt, inbox, second, seven, 4),
    ]
}

// How many items were taken and how many are left, and the next three of these.
fn rest<R: Wait>(rt: &R, mut ended: InboxEnded) -> ((u64, u64), [Option<Arrived>; 3])
    requires { IsInboxEnded ended }
{
    let counts = (ended.taken, ended.left);
    (counts, [ended.next(rt), ended.next(rt), ended.next(rt)])
}

#[test]
fn an_inbox_of_three_gives_them_in_order(rt: HostRuntime) {
    let (inbox, mut first, mut second, mut writer) = two_stations(&rt, rt.alloc(), 3);
    let put = put_in_turn(&rt, &inbox, &mut first, &mut second);
    let taken = inbox.take(&rt, &mut writer);
    let ended = finish(&rt, rt.alloc(), inbox, first, second, writer);
    let rest = rest(&rt, ended);
    let full = Err(Full(arrived(&rt, 2, 4)));
    same(&rt, &put, &[Ok(()), Ok(()), Ok(()), full]);
    let left = [Some(arrived(&rt, 2, 2)), Some(arrived(&rt, 1, 3)), None];
    same(
        &rt,
        &(taken, rest),
        &(Some(arrived(&rt, 1, 1)), ((1, 2), left)),
    );
}

const LINKS: u64 = 100;

// Puts links 1 to 100, again where the inbox is full.
fn put_all<R: Wait + Abort>(
    rt: &R,
    inbox: &Inbox,
    mut pass: StationPass,
    device: DeviceId,
) -> StationPass
    requires { IsStationOf inbox.now pass }
    ensures { IsStationOf inbox.now result × (station_of result ≡ station_of pass) }
{
    let mut link = 1;
    for _ in rt.forever() {
        if link > LINKS {
            break;
        }
        if put_link(rt, inbox, &mut pass, device, link).is_ok() {
            link += 1;
        } else {
            thread::yield_now();
        }
    }
    pass
}

const ITEMS: usize = 200;

// Takes items, again where the inbox is empty, until it has all.
fn take_all<R: Wait + Abort>(
    rt: &R,
    inbox: &Inbox,
    mut writer: WriterPass,
    mut kept: Vec<Arrived>,
) -> (WriterPass, Vec<Arrived>)
    requires { IsWriterOf inbox.now writer }
    ensures { IsWriterOf inbox.now result.0 × (stations_of result.0 ≡ stations_of writer) }
{
    for _ in rt.forever() {
        if kept.len() >= ITEMS {
            break;
        }
        match inbox.take(rt, &mut writer) {
            Some(item) => kept.push(item).expect(rt, "room"),
            None => thread::yield_now(),
        }
    }
    (writer, kept)
}

// One station's thread, and the writer's.
fn put_and_take<R: Threads + Wait + Abort + Sync>(
    rt: &R,
    inbox: &Inbox,
    pass: StationPass,
    device: DeviceId,
    writer: WriterPass,
    kept: Vec<Arrived>,
) -> (StationPass, WriterPass, Vec<Arrived>)
    requires { IsStationOf inbox.now pass × IsWriterOf inbox.now writer }
    ensures station { IsStationOf inbox.now result.0 × (station_of result.0 ≡ station_of pass) }
    ensures writer { IsWriterOf inbox.now result.1 × (stations_of result.1 ≡ stations_of writer) }
{
    let (pass, (writer, kept)) = thread::join(
        rt,
        move || -> StationPass
            requires { IsStationOf inbox.now pass }
            ensures { IsStationOf inbox.entry.now result × (station_of result ≡ station_of pass) }
        { put_all(rt, inbox, pass, device) },
        move || -> (WriterPass, Vec<Arrived>)
            requires { IsWriterOf inbox.now writer }
            ensures { IsWriterOf inbox.entry.now result.0 × (stations_of result.0 ≡ stations_of writer) }
        { take_all(rt, inbox, writer, kept) },
    );
    (pass, writer, kept)
}

struct Ran {
    first: StationPass,
    second: StationPass,
    writer: WriterPass,
    kept: Vec<Arrived>,
}

// Two stations' threads, and the writer's.
fn run<R: Threads + Wait + Abort + Sync>(
    rt: &R,
    inbox: &Inbox,
    first: StationPass,
    second: StationPass,
    writer: WriterPass,
    devices: (DeviceId, DeviceId),
    kept: Vec<Arrived>,
) -> Ran
    requires { IsStationOf inbox.now first × IsStationOf inbox.now second × IsWriterOf inbox.now writer }
    ensures passes { IsStationOf inbox.now result.first × IsStationOf inbox.now result.second × IsWriterOf inbox.now result.writer }
    ensures stations { (station_of result.first ≡ station_of first) × (station_of result.second ≡ station_of second) × (stations_of result.writer ≡ stations_of writer) }
{
    let (first, (second, writer, kept)) = thread::join(
        rt,
        move || -> StationPass
            requires { IsStationOf inbox.now first }
            ensures { IsStationOf inbox.entry.now result × (station_of result ≡ station_of first) }
        { put_all(rt, inbox, first, devices.0) },
        move || -> (StationPass, WriterPass, Vec<Arrived>)
            requires { IsStationOf inbox.now second × IsWriterOf inbox.now writer }
            ensures { IsStationOf inbox.entry.now result.0 × (station_of result.0 ≡ station_of second) × IsWriterOf inbox.entry.now result.1 × (stations_of result.1 ≡ stations_of writer) }
        { put_and_take(rt, inbox, second, devices.1, writer, kept) },
    );
    Ran {
        first,
        second,
        writer,
        kept,
    }
}

// Whether the links of a station come from 1 to 100, in order.
fn in_order(kept: &[Arrived], station: StationId) -> bool {
    let mut last = 0u64;
    for item in kept {
        if let Arrived::Tap(at, tapped) = *item {
            if at == station {
                if tapped.link() != last.saturating_add(1) {
                    return false;
                }
                last = tapped.link();
            }
        }
    }
    last == LINKS
}

#[test]
fn each_stations_links_come_in_its_order(rt: HostRuntime) {
    let (inbox, first, second, writer) = two_stations(&rt, rt.alloc(), 4);
    let devices = (device(&rt, 7), device(&rt, 8));
    let kept = Vec::new(rt.alloc());
    let Ran {
        first,
        second,
        writer,
        kept,
    } = run(&rt, &inbox, first, second, writer, devices, kept);
    let ended = finish(&rt, rt.alloc(), inbox, first, second, writer);
    same(&rt, &rest(&rt, ended), &((200, 0), [None; 3]));
    let ordered = (
        in_order(&kept, station(&rt, 1)),
        in_order(&kept, station(&rt, 2)),
    );
    same(&rt, &(kept.len(), ordered), &(ITEMS, (true, true)));
}

// Why no line is made, if none is.
fn line_fault(alloc: Global, capacity: u32) -> Option<QueueFault> {
    AckLine::new(alloc, capacity).err()
}

#[test]
fn a_line_has_room_for_1_to_1024_items(rt: HostRuntime) {
    let range = Some(QueueFault::Range);
    for (capacity, want) in [(0, range), (1025, range), (1024, None)] {
        same(&rt, &line_fault(rt.alloc(), capacity), &want);
    }
}

// All taps of device 7 up to the second.
fn two(rt: &impl Abort) -> Ack
    ensures { result.upto ≡ 2 }
{
    Ack::new(device(rt, 7), 2)
}

fn put_two<R: Wait>(
    rt: &R,
    line: &AckLine,
    pass: &mut AckPass,
    acked: Ack,
    stored: u64,
) -> Result<(), Full<AckItem>>
    requires queue { IsAckOf line.now pass.old }
    requires stored { acked.upto ≤ stored }
    ensures { IsAckOf line.now pass.new }
{
    line.put(rt, pass, AckItem::Upto(acked), stored)
}

fn take_twice<R: Wait>(rt: &R, line: &AckLine, pass: &mut HearPass) -> [Option<AckItem>; 2]
    requires { IsHearOf line.now pass.old }
    ensures { IsHearOf line.now pass.new }
{
    [line.take(rt, pass), line.take(rt, pass)]
}

// How many items were taken and how many are left, and the next two of these.
fn ending<R: Wait>(
    rt: &R,
    line: AckLine,
    ack: AckPass,
    hear: HearPass,
) -> ((u64, u64), [Option<AckItem>; 2])
    requires { IsAckOf line ack × IsHearOf line hear }
{
    let mut ended = line.finish(rt, ack, hear);
    let counts = (ended.taken, ended.left);
    (counts, [ended.next(rt), ended.next(rt)])
}

#[test]
fn a_line_of_one_holds_one(rt: HostRuntime) {
    let acked = two(&rt);
    let (line, mut ack, mut hear) = AckLine::new(rt.alloc(), 1).expect(&rt, "line");
    let first = put_two(&rt, &line, &mut ack, acked, 2);
    let second = put_two(&rt, &line, &mut ack, acked, 2);
    let taken = take_twice(&rt, &line, &mut hear);
    let third = put_two(&rt, &line, &mut ack, acked, 3);
    let end = ending(&rt, line, ack, hear);
    let full = Err(Full(AckItem::Upto(acked)));
    same(&rt, &[first, second, third], &[Ok(()), full, Ok(())]);
    let want = [Some(AckItem::Upto(acked)), None];
    same(&rt, &taken, &want);
    same(&rt, &end, &((1, 1), want));
}
