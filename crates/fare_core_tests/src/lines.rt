use crate::checking::same;
use fare_event::{Event, Refusal, Reply};
use fare_lines::{Line, ParseFault, SchemeLine, parse, print_reply};
use fare_record::{DeviceId, OwnerId, StationId};
use fare_scheme::DemoSize;
use std::alloc::Global;
use std::process::Abort;

fn device(rt: &impl Abort, number: u64) -> DeviceId {
    DeviceId::new(number).expect(rt, "device")
}

fn station(rt: &impl Abort, number: u64) -> StationId {
    StationId::new(number).expect(rt, "station")
}

// Whether these are lines of these events, in order.
fn are_events(lines: &[Line], want: &[Event]) -> bool {
    if lines.len() != want.len() {
        return false;
    }
    for (line, event) in lines.iter().zip(want) {
        if !matches!(line, Line::Step(line) if line == event) {
            return false;
        }
    }
    true
}

// Whether the text has lines of these events.
fn has_events(alloc: Global, text: &[u8], want: &[Event]) -> Result<bool, ParseFault> {
    Ok(are_events(&parse(alloc, text)?, want))
}

// The text is refused at this line.
fn is_refused(rt: &impl Abort, alloc: Global, text: &[u8], line: u64) {
    let fault = parse(alloc, text).err();
    same(
        rt,
        &(line, fault),
        &(line, Some(ParseFault::BadLine { line })),
    );
}

// The replies are printed so.
fn are_printed(rt: &impl Abort, alloc: Global, replies: &[Reply], want: &[u8]) {
    let mut text = Vec::new(alloc);
    for reply in replies {
        print_reply(reply, &mut text).expect(rt, "reply");
    }
    same(rt, &text.as_slice(), &want);
}

#[test]
fn parses_event_lines(rt: HostRuntime) {
    let packet = 18446744073709551615;
    let want = [Event::Arrive { packet }, Event::Draw];
    let text = b"arrive 18446744073709551615\ndraw";
    same(&rt, &has_events(rt.alloc(), text, &want), &Ok(true));
}

#[test]
fn parses_acknowledging_lines(rt: HostRuntime) {
    let device = device(&rt, 4294967295);
    let station = station(&rt, 65535);
    let want = [
        Event::Rewind { device },
        Event::Ack { device },
        Event::Answer { station },
        Event::Resume { device },
    ];
    let text = b"rewind 4294967295\nack 4294967295\nanswer 65535\nresume 4294967295\n";
    same(&rt, &has_events(rt.alloc(), text, &want), &Ok(true));
}

#[test]
fn parses_restart_lines(rt: HostRuntime) {
    let device = device(&rt, 7);
    let station = station(&rt, 9);
    let want = [
        Event::RestartDevice { device },
        Event::RestartStation { station },
        Event::RestartWriter,
    ];
    let text = b"restart device 7\nrestart station 9\nrestart writer\n";
    same(&rt, &has_events(rt.alloc(), text, &want), &Ok(true));
}

#[test]
fn parses_retire_lines(rt: HostRuntime) {
    let want = [Event::Retire {
        owner: OwnerId::new(65535).expect(&rt, "owner"),
        device: device(&rt, 4294967295),
    }];
    let text = b"retire 65535 4294967295\n";
    same(&rt, &has_events(rt.alloc(), text, &want), &Ok(true));
}

// Whether these are lines of these registrations, in order.
fn are_setups(lines: &[Line], want: &[SchemeLine]) -> bool {
    if lines.len() != want.len() {
        return false;
    }
    for (line, setup) in lines.iter().zip(want) {
        if !matches!(line, Line::Setup(line) if line == setup) {
            return false;
        }
    }
    true
}

// Whether the text has lines of these registrations.
fn has_setups(alloc: Global, text: &[u8], want: &[SchemeLine]) -> Result<bool, ParseFault> {
    Ok(are_setups(&parse(alloc, text)?, want))
}

#[test]
fn parses_scheme_lines(rt: HostRuntime) {
    let text = b"owner 65535 4294967295
operator 65534
station 1 0
product 4294967295 2 100001
caps 3 4 5
hop 4294967295 4294967294
device 6 7 8
inbox 0
start 4294967295
seal
demo 1 0 4294967295 7
demo 2 1 2 3";
    let want = [
        SchemeLine::Owner {
            owner: 65535,
            lane: 4294967295,
        },
        SchemeLine::Operator { operator: 65534 },
        SchemeLine::Station {
            station: 1,
            operator: 0,
        },
        SchemeLine::Product {
            product: 4294967295,
            owner: 2,
            fare: 100001,
        },
        SchemeLine::Caps {
            product: 3,
            daily: 4,
            weekly: 5,
        },
        SchemeLine::Hop {
            product: 4294967295,
            seconds: 4294967294,
        },
        SchemeLine::Device {
            device: 6,
            station: 7,
            buffer: 8,
        },
        SchemeLine::Inbox { capacity: 0 },
        SchemeLine::Start { day: 4294967295 },
        SchemeLine::Seal,
        SchemeLine::Demo {
            size: DemoSize::OneDevice,
            buffer: 0,
            inbox: 4294967295,
            lane: 7,
        },
        SchemeLine::Demo {
            size: DemoSize::TwoDevices,
            buffer: 1,
            inbox: 2,
            lane: 3,
        },
    ];
    same(&rt, &has_setups(rt.alloc(), text, &want), &Ok(true));
}

// Whether it is a zone line with this rule.
fn has_rule(line: &Line, want: &str) -> bool {
    matches!(line, Line::Setup(SchemeLine::Zone { rule }) if rule.as_str() == want)
}

// Whether these are zone lines with these rules, in order.
fn are_zones(lines: &[Line], wants: &[&str]) -> bool {
    if lines.len() != wants.len() {
        return false;
    }
    for (line, want) in lines.iter().zip(wants) {
        if !has_rule(line, want) {
            return false;
        }
    }
    true
}

// Whether the text has zone lines with these rules.
fn has_zones(alloc: Global, text: &[u8], wants: &[&str]) -> Result<bool, ParseFault> {
    Ok(are_zones(&parse(alloc, text)?, wants))
}

#[test]
fn parses_a_zone_line(rt: HostRuntime) {
    let text = b"zone GMT0BST,M3.5.0/1,M10.5.0\nzone !~\n";
    let wants = ["GMT0BST,M3.5.0/1,M10.5.0", "!~"];
    same(&rt, &has_zones(rt.alloc(), text, &wants), &Ok(true));
}

#[test]
fn reads_the_greatest_numbers(rt: HostRuntime) {
    let text = b"tap 4294967295 4294967295 9223372036854775807 8640200000
tap 1 1 1 0
tap 1 1 1 0 0
tap 1 1 1 0 65535
send 4294967295
arrive 0
forward 65535 1
fetch 65535
take 65535
upto 4294967295
count 65535 4294967295
";
    let lines = parse(rt.alloc(), text).expect(&rt, "lines");
    same(&rt, &lines.len(), &11);
}

// Texts, and the bad line in each.
const BAD_LINES: [(&[u8], u64); 42] = [
    (b"\n", 1),
    (b"draw\n\n", 2),
    (b"draw ", 1),
    (b" draw", 1),
    (b"draw\r\n", 1),
    (b"Draw", 1),
    (b"draw 1", 1),
    (b"tap 1", 1),
    (b"send  1", 1),
    (b"send 1 ", 1),
    (b"send +1", 1),
    (b"send 01", 1),
    (b"send 0", 1),
    (b"send 4294967296", 1),
    (b"store\nforward 65536 1", 2),
    (b"arrive 18446744073709551616", 1),
    (b"tap 1 1 0 0", 1),
    (b"tap 1 1 9223372036854775808 0", 1),
    (b"tap 1 1 1 8640200001", 1),
    (b"tap 1 1 1 0 65536", 1),
    (b"tap 1 1 1 0 7 7", 1),
    (b"tap 1 1 1 0 ", 1),
    (b"demo 0 1 1 1", 1),
    (b"demo 3 1 1 1", 1),
    (b"demo 1 4 4 4294967296", 1),
    (b"owner 65536 4", 1),
    (b"owner 1 4294967296", 1),
    (b"owner 1", 1),
    (b"operator 65536", 1),
    (b"station 1 65536", 1),
    (b"product 4294967296 1 1", 1),
    (b"caps 1 1 4294967296", 1),
    (b"device 1 65536 1", 1),
    (b"inbox 4294967296", 1),
    (b"start -1", 1),
    (b"seal 1", 1),
    (b"zone", 1),
    (b"zone ", 1),
    (b"zone a b", 1),
    (b"zone a ", 1),
    (b"zone \x7f", 1),
    (b"zone\tGMT0", 1),
];

#[test]
fn refuses_bad_lines(rt: HostRuntime) {
    for (text, number) in BAD_LINES {
        is_refused(&rt, rt.alloc(), text, number);
    }
}

#[test]
fn refuses_bad_acknowledging_lines(rt: HostRuntime) {
    const CASES: [&[u8]; 10] = [
        b"rewind",
        b"rewind 1 1",
        b"rewind 0",
        b"ack 4294967296",
        b"ack 01",
        b"answer",
        b"answer 0",
        b"answer 65536",
        b"resume 0",
        b"resume  1",
    ];
    for &text in &CASES {
        is_refused(&rt, rt.alloc(), text, 1);
    }
}

#[test]
fn refuses_bad_retire_lines(rt: HostRuntime) {
    const CASES: [&[u8]; 7] = [
        b"retire",
        b"retire 1",
        b"retire 0 1",
        b"retire 1 0",
        b"retire 65536 1",
        b"retire 1 4294967296",
        b"retire 1 1 1",
    ];
    for &text in &CASES {
        is_refused(&rt, rt.alloc(), text, 1);
    }
}

#[test]
fn refuses_bad_restart_lines(rt: HostRuntime) {
    const CASES: [&[u8]; 11] = [
        b"restart",
        b"restart ",
        b"restart device",
        b"restart device 0",
        b"restart device  1",
        b"restart station 65536",
        b"restart hub 1",
        b"restart 1",
        b"restart  writer",
        b"restart writer ",
        b"restart writer 1",
    ];
    for &text in &CASES {
        is_refused(&rt, rt.alloc(), text, 1);
    }
}

#[test]
fn prints_replies(rt: HostRuntime) {
    let device = device(&rt, 4294967295);
    let replies = [
        Reply::Done,
        Reply::Idle,
        Reply::Empty,
        Reply::Refused(Refusal::UnknownDevice),
        Reply::Recorded { link: 5, lane: 4 },
        Reply::Sent { packet: 9, link: 5 },
        Reply::Accepted,
        Reply::Drawn { device, link: 5 },
        Reply::Stored { device, link: 5 },
        Reply::Forwarded { lane: 4 },
        Reply::Fetched { device, lane: 4 },
        Reply::Taken { device, lane: 4 },
        Reply::Upto(18446744073709551615),
        Reply::Count(0),
    ];
    let want: &[u8] = b"ok
idle
empty
refused UnknownDevice
record 5 4
packet 9 link 5
accepted
drawn 4294967295 link 5
stored 4294967295 link 5
forwarded lane 4
fetched 4294967295 lane 4
taken 4294967295 lane 4
upto 18446744073709551615
count 0
";
    are_printed(&rt, rt.alloc(), &replies, want);
}

#[test]
fn prints_replies_of_acknowledging_and_restarts(rt: HostRuntime) {
    let device = device(&rt, 4294967295);
    let replies = [
        Reply::Rewound,
        Reply::Dropped(3),
        Reply::Acknowledged(5),
        Reply::Answered {
            packet: 9,
            device,
            upto: 5,
        },
        Reply::Resumed(0),
        Reply::Restarted,
        Reply::Refused(Refusal::UnknownStation),
        Reply::Refused(Refusal::Stranger),
        Reply::Refused(Refusal::Misrouted),
        Reply::Refused(Refusal::AckAhead),
    ];
    let want: &[u8] = b"rewound
acked 3
ack 5
packet 9 ack 4294967295 5
resumed 0
restarted
refused UnknownStation
refused Stranger
refused Misrouted
refused AckAhead
";
    are_printed(&rt, rt.alloc(), &replies, want);
}

#[test]
fn prints_replies_of_retired_lanes(rt: HostRuntime) {
    let replies = [
        Reply::Retired(device(&rt, 4294967295)),
        Reply::Refused(Refusal::Retired),
    ];
    are_printed(
        &rt,
        rt.alloc(),
        &replies,
        b"retired 4294967295\nrefused Retired\n",
    );
}
