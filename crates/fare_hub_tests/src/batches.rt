//! Sessions whose queues hold many items, which the writer stores and the owner takes several at once.
use crate::checking::same;
use crate::given::{ack, close_day, day_ack, ledger_of};
use fare_collect::{CollectReport, collect, stations_of};
use fare_frame::Frame;
use fare_record::{DeviceId, OwnerId, Record};
use fare_samples::{FIRST, Numbers, record, statement};
use fare_scheme::{DemoSize, Scheme};
use fare_scripts::{Script, source_of, sources_of};
use fare_session::{Gate, OwnerReport, Pace, Point, SessionFault, serve_owner};
use fare_source::Shift;
use fare_store::{FailingLedger, FailingOutbox, Ledger, Outbox, PlainLedger, PlainOutbox};
use std::alloc::Global;
use std::sync::Wait;
use std::sync::atomic::{AtomicU64, Ordering};
use std::thread::Threads;
use std::time::Clock;

// How often a thread may find nothing to do.
const TURNS: u64 = 1_000_000;

// The first traffic day of the scheme, and the day behind it.
const FIRST_DAY: u64 = 19_723;

const NEXT_DAY: u64 = 19_724;

// The same hour of that day as that of the first tap.
const NEXT_MOMENT: u64 = 1_704_186_400;

/// A gate that all pass.
#[derive(Drop)]
struct Free;

impl Gate for Free {
    fn pass(&self, _point: Point) {}
}

// A tap of device 1 on a day, whose lane number is its link.
fn tap(link: u64, day: u64) -> Option<Record> {
    record(Numbers {
        link,
        lane: link,
        day,
        moment: if day == FIRST_DAY {
            FIRST.moment
        } else {
            NEXT_MOMENT
        },
        ..FIRST
    })
}

// Adds taps of device 1 on a day behind what a source gives, the last first: a source gives its last frame first.
fn add_taps(source: &mut Script, first: u64, last: u64, day: u64) -> Option<()> {
    for before in 0..last.saturating_sub(first).saturating_add(1) {
        let link = last.saturating_sub(before);
        source.frames.push(Frame::Tapped(tap(link, day)?)).ok()?;
    }
    Some(())
}

// Adds 300 taps, the statement of their day, and 300 taps of the next day.
fn add_days(source: &mut Script) -> Option<()> {
    add_taps(source, 301, 600, NEXT_DAY)?;
    let stated = Frame::Stated(statement(1, FIRST_DAY, 1, 300)?);
    source.frames.push(stated).ok()?;
    add_taps(source, 1, 300, FIRST_DAY)
}

// A source that gives them.
fn two_days(alloc: Global) -> Option<Script> {
    let mut source = source_of(alloc, 1, &[])?;
    add_days(&mut source)?;
    Some(source)
}

// A source that gives the taps of device 1 from a link to another.
fn taps_of(alloc: Global, first: u64, last: u64) -> Option<Script> {
    let mut source = source_of(alloc, 1, &[])?;
    add_taps(&mut source, first, last, FIRST_DAY)?;
    Some(source)
}

// A session of one station over a source: its report, and the source again.
fn gathered_in<O: Outbox + Send, R: Threads + Wait + Clock + Sync>(
    rt: &R,
    alloc: Global,
    scheme: &Scheme,
    source: Script,
    outbox: &mut O,
    turns: u64,
) -> Option<(CollectReport, Script)> {
    let mut sources = Vec::new(alloc);
    sources.push(source).ok()?;
    let mut stations = stations_of(alloc, scheme, sources).ok()?;
    if stations.len() > 16 {
        return None;
    }
    let pace = Pace {
        rt,
        gate: &Free,
        turns,
    };
    let report = collect(&pace, alloc, scheme, &mut stations, outbox).ok()?;
    let mut sources = sources_of(alloc, stations)?;
    Some((report, sources.pop()?))
}

// The same with an inbox for so many items.
fn gathered<O: Outbox + Send, R: Threads + Wait + Clock + Sync>(
    rt: &R,
    alloc: Global,
    inbox: u32,
    source: Script,
    outbox: &mut O,
) -> Option<(CollectReport, Script)> {
    let scheme = Scheme::demo(alloc, DemoSize::OneDevice, 4, inbox, 4).ok()?;
    gathered_in(rt, alloc, &scheme, source, outbox, TURNS)
}

// How many items were stored, the first fault, the last answer, and how far the outbox has had the device's taps.
fn came_to<O: Outbox>(
    report: &CollectReport,
    source: &Script,
    outbox: &mut O,
) -> Option<(u64, Option<SessionFault>, Option<Frame>, u64)> {
    let upto = outbox.upto(DeviceId::new(1)?).ok()?;
    let last = source.answered.last().copied();
    Some((report.stored, report.faults.first().copied(), last, upto))
}

// Inboxes for one item up to the most: batches of one up to 256.
#[test]
fn taps_and_a_statement_come_through_any_inbox(rt: HostRuntime) {
    for inbox in [1, 2, 256, 1_024] {
        let source = two_days(rt.alloc()).expect(&rt, "a source");
        let mut outbox = PlainOutbox::new(rt.alloc());
        let (report, source) = gathered(&rt, rt.alloc(), inbox, source, &mut outbox).expect(
            &rt,
            "a session",
        );
        let got = came_to(&report, &source, &mut outbox);
        same(&rt, &got, &Some((601, None, ack(1, 600), 600)));
        same(&rt, &report.left, &0);
        let answers = source.last_two();
        same(&rt, &answers, &(day_ack(1, FIRST_DAY), ack(1, 600)));
    }
}

// The writer's thread ends where it first finds nothing to do: what the inbox then has is stored behind the joins.
#[test]
fn what_the_threads_left_comes_through_too(rt: HostRuntime) {
    let scheme = Scheme::demo(rt.alloc(), DemoSize::OneDevice, 4, 1_024, 4).expect(&rt, "a scheme");
    for turns in [0, 1, 2] {
        let source = two_days(rt.alloc()).expect(&rt, "a source");
        let mut outbox = PlainOutbox::new(rt.alloc());
        let (report, source) = gathered_in(
            &rt,
            rt.alloc(),
            &scheme,
            source,
            &mut outbox,
            turns,
        ).expect(&rt, "a session");
        let got = came_to(&report, &source, &mut outbox);
        same(&rt, &got, &Some((601, None, ack(1, 600), 600)));
        same(&rt, &report.left, &0);
    }
}

/// A gate that ends a session of the stations once so many items were put into the inbox.
#[derive(Drop)]
struct EndsAfter {
    put: AtomicU64,
    most: u64,
}

impl Gate for EndsAfter {
    fn pass(&self, point: Point) {
        if point == Point::StationPut {
            self.put.fetch_add(1, Ordering::SeqCst);
        }
    }

    fn is_over(&self) -> bool {
        self.put.load(Ordering::SeqCst) >= self.most
    }
}

// A session of one station over a shift of a source, up to so many items: its report, and the source again.
fn gathered_up_to<R: Threads + Wait + Clock + Sync>(
    rt: &R,
    alloc: Global,
    scheme: &Scheme,
    source: Script,
    outbox: &mut PlainOutbox,
    most: u64,
) -> Option<(CollectReport, Script)> {
    let gate = EndsAfter {
        put: AtomicU64::new(0),
        most,
    };
    let mut shifts = Vec::new(alloc);
    shifts.push(Shift::new(source, 10, 65_536)).ok()?;
    let mut stations = stations_of(alloc, scheme, shifts).ok()?;
    if stations.len() > 16 {
        return None;
    }
    let pace = Pace {
        rt,
        gate: &gate,
        turns: TURNS,
    };
    let report = collect(&pace, alloc, scheme, &mut stations, outbox).ok()?;
    let (_, shift) = stations.pop()?.into_parts();
    Some((report, shift.into_source()))
}

// A session that is over reads no more of a shift than one frame, and stores and answers what it read; the next goes
// on from there.
#[test]
fn a_session_that_is_over_leaves_the_rest_to_the_next(rt: HostRuntime) {
    let scheme = Scheme::demo(rt.alloc(), DemoSize::OneDevice, 4, 256, 4).expect(&rt, "a scheme");
    let mut outbox = PlainOutbox::new(rt.alloc());
    let mut source = two_days(rt.alloc()).expect(&rt, "a source");
    for (most, stored, last) in [
        (0, 1, 1),
        (100, 100, 101),
        (150, 150, 251),
        (1_000, 350, 600),
    ] {
        let (report, read) = gathered_up_to(
            &rt,
            rt.alloc(),
            &scheme,
            source,
            &mut outbox,
            most,
        ).expect(&rt, "a session");
        source = read;
        let got = came_to(&report, &source, &mut outbox);
        same(&rt, &got, &Some((stored, None, ack(1, last), last)));
        same(&rt, &report.left, &0);
    }
    same(
        &rt,
        &source.last_two(),
        &(day_ack(1, FIRST_DAY), ack(1, 600)),
    );
    same(&rt, &(source.given.len(), source.frames.len()), &(601, 0));
}

// An outbox that holds a row of lane number 5 already, as that of link 1.
fn with_row_5(alloc: Global) -> Option<PlainOutbox> {
    let mut outbox = PlainOutbox::new(alloc);
    let row = record(Numbers {
        link: 1,
        lane: 5,
        ..FIRST
    })?;
    outbox.store(&row).ok()?;
    Some(outbox)
}

// The tap of link 5 is refused: those before it are stored, and no more than these is acknowledged.
#[test]
fn a_refused_tap_ends_a_batch(rt: HostRuntime) {
    for inbox in [1, 2, 256] {
        let source = taps_of(rt.alloc(), 2, 40).expect(&rt, "a source");
        let mut outbox = with_row_5(rt.alloc()).expect(&rt, "an outbox");
        let (report, source) = gathered(&rt, rt.alloc(), inbox, source, &mut outbox).expect(
            &rt,
            "a session",
        );
        let (stored, fault, last, upto) = came_to(&report, &source, &mut outbox).expect(
            &rt,
            "an outcome",
        );
        same(
            &rt,
            &(stored, fault, upto),
            &(3, Some(SessionFault::Refused), 4),
        );
        assert!(rt; last.is_none() || (2..=4).any(|link| last == ack(1, link)));
        assert!(rt; report.left >= 1, "nothing in the writer's hand");
    }
}

// An outbox that fails at each of its calls in turn, up to one that is never made: nothing that was acknowledged is
// missing, and a second session stores the rest.
#[test]
fn an_outbox_may_fail_at_any_call_with_several(rt: HostRuntime) {
    let mut failed = 0_u64;
    for call in 1..80 {
        let mut outbox = FailingOutbox::new(PlainOutbox::new(rt.alloc()), call);
        let source = taps_of(rt.alloc(), 1, 20).expect(&rt, "a source");
        let (first, _) = gathered(&rt, rt.alloc(), 256, source, &mut outbox).expect(
            &rt,
            "a session",
        );
        if first.faults.is_empty() {
            assert!(rt; failed > 0 && first.stored == 20);
            return;
        }
        let source = taps_of(rt.alloc(), 1, 20).expect(&rt, "a source");
        let (second, source) = gathered(&rt, rt.alloc(), 256, source, &mut outbox).expect(
            &rt,
            "a session",
        );
        let got = came_to(&second, &source, &mut outbox);
        let rest = 20_u64.saturating_sub(first.stored);
        same(&rt, &got, &Some((rest, None, ack(1, 20), 20)));
        failed = failed.saturating_add(1);
        same(
            &rt,
            &first.faults.first().copied(),
            &Some(SessionFault::Store),
        );
    }
    assert!(rt; false, "each call failed");
}

// The threads have no turns, so nearly all of a line's 601 items are stored behind the joins: in less than 40 calls of the
// outbox, of which each fails in turn. A second session stores what the failure left.
#[test]
fn an_outbox_may_fail_at_any_call_behind_the_joins(rt: HostRuntime) {
    let scheme = Scheme::demo(rt.alloc(), DemoSize::OneDevice, 4, 1_024, 4).expect(&rt, "a scheme");
    let mut failed = 0_u64;
    for call in 1..40 {
        let mut outbox = FailingOutbox::new(PlainOutbox::new(rt.alloc()), call);
        let source = two_days(rt.alloc()).expect(&rt, "a source");
        let (first, _) = gathered_in(&rt, rt.alloc(), &scheme, source, &mut outbox, 0).expect(
            &rt,
            "a session",
        );
        if first.faults.is_empty() {
            assert!(rt; failed > 0 && first.stored == 601);
            return;
        }
        let source = two_days(rt.alloc()).expect(&rt, "a source");
        let (second, source) = gathered_in(&rt, rt.alloc(), &scheme, source, &mut outbox, 0).expect(
            &rt,
            "a session",
        );
        let got = came_to(&second, &source, &mut outbox);
        let rest = 601_u64.saturating_sub(first.stored);
        same(&rt, &got, &Some((rest, None, ack(1, 600), 600)));
        failed = failed.saturating_add(1);
    }
    assert!(rt; false, "each call failed");
}

// Stores so many rows of each of two days, and the statement of the first.
fn store_days<O: Outbox>(outbox: &mut O, each: u64) -> Option<()> {
    for link in 1..=each.saturating_mul(2) {
        let day = if link <= each { FIRST_DAY } else { NEXT_DAY };
        outbox.store(&tap(link, day)?).ok()?;
    }
    let first = statement(1, FIRST_DAY, 1, each)?;
    outbox.store_statement(&first).ok()
}

// An outbox with so many rows of each of two days, and the statement of the first.
fn two_days_stored(alloc: Global, each: u64) -> Option<PlainOutbox> {
    let mut outbox = PlainOutbox::new(alloc);
    store_days(&mut outbox, each)?;
    Some(outbox)
}

// A session of owner 1, with a lane queue for so many items: its report, how many taps the ledger has then, and the lane
// number of the first row that the outbox holds.
fn served<O: Outbox + Send, L: Ledger + Send, R: Threads + Wait + Clock + Sync>(
    rt: &R,
    alloc: Global,
    lane: u32,
    outbox: &mut O,
    ledger: &mut L,
) -> Option<(OwnerReport, u64, Option<u64>)> {
    let scheme = Scheme::demo(alloc, DemoSize::OneDevice, 4, 4, lane).ok()?;
    let (owner, device) = (OwnerId::new(1)?, DeviceId::new(1)?);
    if scheme.lane_capacity(owner).is_none() {
        return None;
    }
    let pace = Pace {
        rt,
        gate: &Free,
        turns: TURNS,
    };
    let report = serve_owner(&pace, alloc, &scheme, outbox, ledger, owner);
    let next = outbox.next_row(owner, device, 0).ok()?;
    Some((report, ledger.count(device).ok()?, next.map(Record::lane)))
}

fn ledger(alloc: Global) -> Option<PlainLedger> {
    let scheme = Scheme::demo(alloc, DemoSize::OneDevice, 4, 4, 4).ok()?;
    ledger_of(alloc, &scheme)
}

fn reported(taken: u64, left: u64, fault: Option<SessionFault>) -> OwnerReport {
    OwnerReport { taken, left, fault }
}

// Lane queues for one item up to the most.
#[test]
fn taps_and_a_statement_come_through_any_lane_queue(rt: HostRuntime) {
    for lane in [1, 2, 256, 1_024] {
        let mut outbox = two_days_stored(rt.alloc(), 300).expect(&rt, "an outbox");
        let mut ledger = ledger(rt.alloc()).expect(&rt, "a ledger");
        let got = served(&rt, rt.alloc(), lane, &mut outbox, &mut ledger);
        same(&rt, &got, &Some((reported(601, 0, None), 600, None)));
    }
}

// An outbox with three rows of the next day, and then one of the first day, which the ledger has closed, and one more.
fn late(alloc: Global) -> Option<PlainOutbox> {
    let mut outbox = PlainOutbox::new(alloc);
    for link in 1..=5 {
        let day = if link == 4 { FIRST_DAY } else { NEXT_DAY };
        outbox.store(&tap(link, day)?).ok()?;
    }
    Some(outbox)
}

fn closed(alloc: Global) -> Option<PlainLedger> {
    let mut ledger = ledger(alloc)?;
    close_day(&mut ledger, 1, FIRST_DAY, 0)?;
    Some(ledger)
}

// The row of the closed day is refused: those before it are taken, and nothing is pruned.
#[test]
fn a_tap_of_a_closed_day_ends_a_batch(rt: HostRuntime) {
    for lane in [1, 2, 256] {
        let mut outbox = late(rt.alloc()).expect(&rt, "an outbox");
        let mut ledger = closed(rt.alloc()).expect(&rt, "a ledger");
        let got = served(&rt, rt.alloc(), lane, &mut outbox, &mut ledger).expect(&rt, "a session");
        let left = got.0.left;
        let want = reported(3, left, Some(SessionFault::Refused));
        same(&rt, &got, &(want, 3, Some(1)));
        assert!(rt; left == 1 || left == 2);
    }
}

// A ledger that fails at each of its calls in turn, up to one that a session doesn't make: a second session takes the
// rest.
#[test]
fn a_ledger_may_fail_at_any_call_with_several(rt: HostRuntime) {
    let mut failed = 0_u64;
    for call in 1..200 {
        let mut outbox = two_days_stored(rt.alloc(), 20).expect(&rt, "an outbox");
        let plain = ledger(rt.alloc()).expect(&rt, "a ledger");
        let mut ledger = FailingLedger::new(plain, call);
        let Some((first, _, _)) = served(&rt, rt.alloc(), 256, &mut outbox, &mut ledger) else {
            assert!(rt; failed > 0, "no call of a session failed");
            return;
        };
        if first.fault.is_none() {
            assert!(rt; failed > 0, "no call of a session failed");
            return;
        }
        failed = failed.saturating_add(1);
        same(&rt, &first.fault, &Some(SessionFault::Store));
        let second = served(&rt, rt.alloc(), 256, &mut outbox, &mut ledger);
        let rest = 41_u64.saturating_sub(first.taken);
        same(&rt, &second, &Some((reported(rest, 0, None), 40, None)));
    }
    assert!(rt; false, "each call failed");
}
