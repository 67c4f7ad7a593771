use crate::checking::same;
use crate::given::{ack, day_ack, sixteen};
use fare_collect::{StationsFault, collect, stations_of};
use fare_frame::Frame;
use fare_record::{DeviceId, Hello, LAST_NUMBER, StationId};
use fare_samples::{FIRST, Numbers, record, statement};
use fare_scheme::{DemoSize, Scheme};
use fare_scripts::{Script, narrow, scripts_of, source_of, sources_of, tapped};
use fare_session::{Gate, Pace, Point, SessionFault};
use fare_store::{FailingOutbox, Outbox, PlainOutbox};
use std::alloc::Global;
use std::sync::Wait;
use std::sync::atomic::{AtomicBool, AtomicU64, Ordering};
use std::thread::{self, Threads};
use std::time::Clock;

/// A gate that counts what passes, and holds the first put of a station until another and a store passed if it is asked
/// to.
#[derive(Drop)]
struct Hold {
    puts: AtomicU64,
    stores: AtomicU64,
    missed: AtomicBool,
    holds: bool,
}

impl Gate for Hold {
    fn pass(&self, point: Point) {
        match point {
            Point::StationPut => {
                let first = self.puts.fetch_add(1, Ordering::SeqCst) == 0;
                if first && self.holds {
                    self.wait_for_others();
                }
            }
            Point::WriterStored => {
                self.stores.fetch_add(1, Ordering::SeqCst);
            }
            Point::ForwardPut | Point::OwnerTook | Point::OwnerCommitted => {}
            Point::StationRead(_) | Point::WriterCommitted => {}
        }
    }
}

impl Hold {
    fn new(holds: bool) -> Hold {
        Hold {
            puts: AtomicU64::new(0),
            stores: AtomicU64::new(0),
            missed: AtomicBool::new(false),
            holds,
        }
    }

    // Lets others go first until they passed, and notes a miss where they don't for long.
    fn wait_for_others(&self) {
        for _ in 0..10_000_000 {
            let others = self.puts.load(Ordering::SeqCst) > 1;
            if others && self.stores.load(Ordering::SeqCst) > 0 {
                return;
            }
            thread::yield_now();
        }
        self.missed.store(true, Ordering::SeqCst);
    }
}

// A source of each of the two devices' taps with these links.
fn scripts(alloc: Global, links: &[u64]) -> Option<Vec<Script>> {
    scripts_of(alloc, 2, links)
}

/// What is to be seen after a session.
#[derive(Clone, Copy, PartialEq, Eq, Debug)]
struct Seen {
    stored: u64,
    left: u64,
    // The first fault, if there is one.
    fault: Option<SessionFault>,
}

/// A session over these sources, what is to be seen then, and the sources again.
fn gathered<O: Outbox + Send, R: Threads + Wait + Clock + Sync>(
    rt: &R,
    alloc: Global,
    scheme: &Scheme,
    sources: Vec<Script>,
    outbox: &mut O,
    gate: &Hold,
    turns: u64,
) -> Option<(Seen, Vec<Script>)> {
    let mut stations = stations_of(alloc, scheme, sources).ok()?;
    if stations.len() > 16 {
        return None;
    }
    let pace = Pace { rt, gate, turns };
    let report = collect(&pace, alloc, scheme, &mut stations, outbox).ok()?;
    let seen = Seen {
        stored: report.stored,
        left: report.left,
        fault: report.faults.first().copied(),
    };
    Some((seen, sources_of(alloc, stations)?))
}

fn outcome(stored: u64, fault: Option<SessionFault>) -> Seen {
    Seen {
        stored,
        left: 0,
        fault,
    }
}

// The last frame that each source was answered.
fn last_of(sources: &[Script], place: usize) -> Option<Frame> {
    sources.get(place)?.answered.last().copied()
}

// A session over two stations' sources with these links, and their last answers.
fn two_stations<R: Threads + Wait + Clock + Sync>(
    rt: &R,
    alloc: Global,
    links: &[u64],
    gate: &Hold,
    turns: u64,
) -> Option<(Seen, [Option<Frame>; 2])> {
    let scheme = narrow(alloc)?;
    let mut outbox = PlainOutbox::new(alloc);
    let sources = scripts(alloc, links)?;
    let (seen, sources) = gathered(rt, alloc, &scheme, sources, &mut outbox, gate, turns)?;
    Some((seen, [last_of(&sources, 0), last_of(&sources, 1)]))
}

// The first put waits for another station's and for a store: no session on one thread, nor one with a lock round each
// turn, gets through.
#[test]
fn stations_and_a_writer_take_turns(rt: HostRuntime) {
    let gate = Hold::new(true);
    let got = two_stations(&rt, rt.alloc(), &[1, 2], &gate, 1_000_000).expect(&rt, "stations");
    same(&rt, &got, &(outcome(4, None), [ack(1, 2), ack(2, 2)]));
    same(&rt, &gate.missed.load(Ordering::SeqCst), &false);
    same(&rt, &gate.stores.load(Ordering::SeqCst), &4);
}

// Each link is accepted once and in its order, with any number of turns.
#[test]
fn stations_accept_link_by_link(rt: HostRuntime) {
    const CASES: [(&[u64], u64, u64); 5] = [
        (&[], 0, 0),
        (&[LAST_NUMBER], 0, 0),
        (&[1, 2], 4, 2),
        (&[2, 1, 1, 2], 4, 2),
        (&[2, 1, 1], 2, 1),
    ];
    for &(links, stored, upto) in &CASES {
        for turns in [0, 1, 1_000_000] {
            let gate = Hold::new(false);
            let got = two_stations(&rt, rt.alloc(), links, &gate, turns).expect(&rt, "stations");
            same(
                &rt,
                &got,
                &(outcome(stored, None), [ack(1, upto), ack(2, upto)]),
            );
        }
    }
}

// A source that gives one statement of its device.
fn stating(alloc: Global) -> Option<Script> {
    let mut source = source_of(alloc, 1, &[])?;
    source
        .frames
        .push(Frame::Stated(statement(1, 19_723, 1, 0)?))
        .ok()?;
    Some(source)
}

// Such a source is answered the day's acknowledgement at the end, and then the number of its taps, also where no thread
// had a turn in which to answer.
#[test]
fn a_statement_is_acknowledged(rt: HostRuntime) {
    let alloc = rt.alloc();
    let scheme = Scheme::demo(alloc, DemoSize::OneDevice, 4, 4, 4).expect(&rt, "scheme");
    for turns in [0, 1_000_000] {
        let mut sources = Vec::new(alloc);
        sources
            .push(stating(alloc).expect(&rt, "source"))
            .expect(&rt, "room");
        let mut outbox = PlainOutbox::new(alloc);
        let gate = Hold::new(false);
        let (got, sources) = gathered(
            &rt,
            alloc,
            &scheme,
            sources,
            &mut outbox,
            &gate,
            turns,
        ).expect(&rt, "stations");
        same(&rt, &got, &outcome(1, None));
        let answers = sources.first().expect(&rt, "source").last_two();
        same(&rt, &answers, &(day_ack(1, 19_723), ack(1, 0)));
    }
}

// Whether each source was answered this number of its device last.
fn end_with(sources: &[Script], upto: u64) -> bool {
    for place in 0..sources.len() {
        if last_of(sources, place) != ack(place as u64 + 1, upto) {
            return false;
        }
    }
    true
}

#[test]
fn sixteen_stations_at_once(rt: HostRuntime) {
    let alloc = rt.alloc();
    let scheme = sixteen(alloc).expect(&rt, "scheme");
    let sources = scripts_of(alloc, 16, &[1, 2]).expect(&rt, "sources");
    let mut outbox = PlainOutbox::new(alloc);
    let gate = Hold::new(false);
    let (got, sources) = gathered(
        &rt,
        alloc,
        &scheme,
        sources,
        &mut outbox,
        &gate,
        1_000_000,
    ).expect(&rt, "stations");
    same(&rt, &(got, sources.len()), &(outcome(32, None), 16));
    assert!(rt; end_with(&sources, 2));
}

// The frames that no device sends in a session.
fn strange(place: u64) -> Option<Frame> {
    match place {
        0 => ack(1, 1),
        1 => day_ack(1, 19_723),
        _ => Some(Frame::Greeted(Hello::new(DeviceId::new(1)?, 1))),
    }
}

// A source of two taps with such a frame between them, and one of the other device's taps.
fn strange_sources(alloc: Global, place: u64) -> Option<Vec<Script>> {
    let frames = [tapped(1, 2)?, strange(place)?, tapped(1, 1)?];
    let mut sources = scripts(alloc, &[])?;
    let [first, second] = sources.as_mut_slice() else {
        return None;
    };
    first.frames.extend_from_slice(&frames).ok()?;
    let taps = [tapped(2, 2)?, tapped(2, 1)?];
    second.frames.extend_from_slice(&taps).ok()?;
    Some(sources)
}

// Each of them ends its station, what came before it is stored, and the other station goes on.
#[test]
fn frames_that_no_device_sends(rt: HostRuntime) {
    let alloc = rt.alloc();
    let scheme = narrow(alloc).expect(&rt, "scheme");
    let station = StationId::new(1).expect(&rt, "station");
    for place in 0..3 {
        let sources = strange_sources(alloc, place).expect(&rt, "sources");
        let mut outbox = PlainOutbox::new(alloc);
        let gate = Hold::new(false);
        let (got, sources) = gathered(
            &rt,
            alloc,
            &scheme,
            sources,
            &mut outbox,
            &gate,
            1_000_000,
        ).expect(&rt, "stations");
        same(
            &rt,
            &got,
            &outcome(3, Some(SessionFault::Unexpected(station))),
        );
        same(
            &rt,
            &(last_of(&sources, 0), last_of(&sources, 1)),
            &(ack(1, 1), ack(2, 2)),
        );
    }
}

// A source that is ready at each tenth ask alone, with a hundred turns: the call reads the rest.
#[test]
fn a_source_may_be_seldom_ready(rt: HostRuntime) {
    let alloc = rt.alloc();
    let scheme = narrow(alloc).expect(&rt, "scheme");
    for turns in [1, 100, 1_000_000] {
        let mut sources = scripts(alloc, &[1, 2, 3]).expect(&rt, "sources");
        for place in 0..sources.len() {
            sources[place].every = 10;
        }
        let mut outbox = PlainOutbox::new(alloc);
        let gate = Hold::new(false);
        let (got, sources) = gathered(
            &rt,
            alloc,
            &scheme,
            sources,
            &mut outbox,
            &gate,
            turns,
        ).expect(&rt, "stations");
        same(
            &rt,
            &(got, last_of(&sources, 1)),
            &(outcome(6, None), ack(2, 3)),
        );
    }
}

// A source that fails at each of its calls in turn, up to one that is never made: the other is served, and nothing that
// it gave before is lost.
#[test]
fn a_source_may_fail_at_any_call(rt: HostRuntime) {
    let alloc = rt.alloc();
    let scheme = narrow(alloc).expect(&rt, "scheme");
    let mut failed = 0_u64;
    for call in 1..40 {
        let mut sources = scripts(alloc, &[1, 2]).expect(&rt, "sources");
        if let Some(source) = sources.first_mut() {
            source.left = call;
        }
        let mut outbox = PlainOutbox::new(alloc);
        let gate = Hold::new(false);
        let (got, sources) = gathered(
            &rt,
            alloc,
            &scheme,
            sources,
            &mut outbox,
            &gate,
            1_000_000,
        ).expect(&rt, "stations");
        same(&rt, &last_of(&sources, 1), &ack(2, 2));
        if got.fault.is_none() {
            same(&rt, &got, &outcome(4, None));
            break;
        }
        failed = failed.saturating_add(1);
        let of_first = sources.first().expect(&rt, "source").given.len() as u64;
        same(&rt, &got, &outcome(of_first.saturating_add(2), got.fault));
    }
    // At least each frame was asked for, the end, and the last answer was handed.
    assert!(rt; failed >= 4 && failed < 39);
}

// An outbox that fails at each of its calls in turn, up to one that is never made: Store, and a second session stores
// the rest.
#[test]
fn an_outbox_may_fail_at_any_call_of_stations(rt: HostRuntime) {
    let alloc = rt.alloc();
    let scheme = narrow(alloc).expect(&rt, "scheme");
    let mut failed = 0_u64;
    for call in 1..40 {
        let mut outbox = FailingOutbox::new(PlainOutbox::new(alloc), call);
        let sources = scripts(alloc, &[1, 2]).expect(&rt, "sources");
        let gate = Hold::new(false);
        let (got, _) = gathered(&rt, alloc, &scheme, sources, &mut outbox, &gate, 1_000_000).expect(
            &rt, "stations",
        );
        if got.fault.is_none() {
            same(&rt, &got, &outcome(4, None));
            break;
        }
        failed = failed.saturating_add(1);
        same(&rt, &got.fault, &Some(SessionFault::Store));
        let sources = scripts(alloc, &[1, 2]).expect(&rt, "sources");
        let (again, sources) = gathered(
            &rt,
            alloc,
            &scheme,
            sources,
            &mut outbox,
            &gate,
            1_000_000,
        ).expect(&rt, "stations");
        same(
            &rt,
            &again,
            &outcome(4_u64.saturating_sub(got.stored), None),
        );
        same(
            &rt,
            &(last_of(&sources, 0), last_of(&sources, 1)),
            &(ack(1, 2), ack(2, 2)),
        );
    }
    // At least each device was asked for twice, and each tap stored.
    assert!(rt; failed >= 8 && failed < 39);
}

#[test]
fn there_are_no_more_sources_than_stations(rt: HostRuntime) {
    let alloc = rt.alloc();
    let scheme = Scheme::demo(alloc, DemoSize::OneDevice, 4, 4, 4).expect(&rt, "scheme");
    let sources = scripts(alloc, &[]).expect(&rt, "sources");
    same(
        &rt,
        &stations_of(alloc, &scheme, sources).err(),
        &Some(StationsFault::Range),
    );
}

// An outbox that has no room for one tap more: 1,000,000 of device 1.
fn full(alloc: Global) -> Option<PlainOutbox> {
    let mut outbox = PlainOutbox::new(alloc);
    for link in 1..=1_000_000 {
        let row = record(Numbers {
            link,
            lane: link,
            ..FIRST
        })?;
        outbox.store(&row).ok()?;
    }
    Some(outbox)
}

// What it refuses is Refused, and no want of memory, by which a hub would end; the tap stays in the writer's hand, and each
// device is answered what was stored of its taps.
#[test]
fn a_full_outbox_refuses_a_session(rt: HostRuntime) {
    let alloc = rt.alloc();
    let mut outbox = full(alloc).expect(&rt, "an outbox");
    let scheme = narrow(alloc).expect(&rt, "a scheme");
    let mut sources = scripts(alloc, &[]).expect(&rt, "sources");
    let tap = tapped(2, 1).expect(&rt, "a tap");
    if let Some(source) = sources.get_mut(1) {
        source.frames.push(tap).expect(&rt, "room");
    }
    let gate = Hold::new(false);
    let (seen, _) = gathered(&rt, alloc, &scheme, sources, &mut outbox, &gate, 1_000_000).expect(
        &rt,
        "a session",
    );
    let want = Seen {
        stored: 0,
        left: 1,
        fault: Some(SessionFault::Refused),
    };
    same(&rt, &seen, &want);
    same(
        &rt,
        &outbox.upto(DeviceId::new(2).expect(&rt, "a device")),
        &Ok(0),
    );
}
