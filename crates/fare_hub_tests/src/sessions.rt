use crate::checking::same;
use fare_record::{Day, DeviceId, OwnerId, Record};
use fare_samples::{FIRST, Numbers, record, statement};
use fare_scheme::{DemoSize, Scheme};
use fare_session::{Gate, OwnerReport, Pace, Point, SessionFault, serve_owner};
use fare_store::{FailingLedger, FailingOutbox, Ledger, Outbox, PlainLedger, PlainOutbox};
use std::alloc::Global;
use std::sync::Wait;
use std::sync::atomic::{AtomicBool, AtomicU64, Ordering};
use std::thread::{self, Threads};
use std::time::Clock;

/// A gate that counts what passes, and holds the first put until an item was taken if it is asked to.
#[derive(Drop)]
struct Hold {
    puts: AtomicU64,
    takes: AtomicU64,
    missed: AtomicBool,
    holds: bool,
    naps: bool,
}

impl Gate for Hold {
    fn pass(&self, point: Point) {
        match point {
            Point::OwnerTook => {
                self.takes.fetch_add(1, Ordering::SeqCst);
            }
            Point::ForwardPut => {
                let first = self.puts.fetch_add(1, Ordering::SeqCst) == 0;
                if first && self.holds {
                    self.wait_for_a_take();
                }
            }
            Point::StationPut | Point::WriterStored | Point::WriterCommitted => {}
            Point::StationRead(_) | Point::OwnerCommitted => {}
        }
    }

    fn naps(&self) -> bool {
        self.naps
    }
}

impl Hold {
    fn new(holds: bool, naps: bool) -> Hold {
        Hold {
            puts: AtomicU64::new(0),
            takes: AtomicU64::new(0),
            missed: AtomicBool::new(false),
            holds,
            naps,
        }
    }

    // Lets others go first until an item was taken, and notes a miss where none is for long.
    fn wait_for_a_take(&self) {
        for _ in 0..10_000_000 {
            if self.takes.load(Ordering::SeqCst) > 0 {
                return;
            }
            thread::yield_now();
        }
        self.missed.store(true, Ordering::SeqCst);
    }
}

// What an outbox and a ledger hold when a session begins.
#[derive(Clone, Copy)]
struct Opening {
    // Taps 1 to this of device 1.
    last: u64,
    // From this link on the lane numbers are one more than the links; 0 for no gap.
    gap: u64,
    // The stated count of the taps' day in the outbox.
    stated: Option<u64>,
    // That in the ledger.
    held: Option<u64>,
    // Whether the day is closed in the ledger.
    closed: bool,
}

const THREE_ROWS: Opening = Opening {
    last: 3,
    gap: 0,
    stated: None,
    held: None,
    closed: false,
};

const WITH_STATEMENT: Opening = Opening {
    stated: Some(3),
    ..THREE_ROWS
};

// Owner 1, device 1 and the day of its taps.
fn names() -> Option<(OwnerId, DeviceId, Day)> {
    Some((OwnerId::new(1)?, DeviceId::new(1)?, Day::new(19_723)?))
}

fn tapped(link: u64, lane: u64) -> Option<Record> {
    record(Numbers {
        link,
        lane,
        ..FIRST
    })
}

// Stores what an outbox opens with.
fn store_all<O: Outbox>(outbox: &mut O, opening: Opening) -> Option<()> {
    for link in 1..=opening.last {
        let behind = opening.gap != 0 && link >= opening.gap;
        let lane = if behind { link.saturating_add(1) } else { link };
        outbox.store(&tapped(link, lane)?).ok()?;
    }
    if let Some(count) = opening.stated {
        let stated = statement(1, 19_723, 1, count)?;
        outbox.store_statement(&stated).ok()?;
    }
    Some(())
}

fn filled(alloc: Global, opening: Opening) -> Option<PlainOutbox> {
    let mut outbox = PlainOutbox::new(alloc);
    store_all(&mut outbox, opening)?;
    Some(outbox)
}

// States and closes what a ledger opens with.
fn state_and_close<L: Ledger>(ledger: &mut L, opening: Opening) -> Option<()> {
    let (_, device, day) = names()?;
    if let Some(count) = opening.held {
        ledger.state(&statement(1, 19_723, 1, count)?).ok()?;
    }
    if opening.closed {
        ledger.close(device, day).ok()?;
    }
    Some(())
}

fn kept(alloc: Global, scheme: &Scheme, opening: Opening) -> Option<PlainLedger> {
    let mut ledger = PlainLedger::new(alloc, scheme, OwnerId::new(1)?).ok()?;
    state_and_close(&mut ledger, opening)?;
    Some(ledger)
}

// The demonstration scheme of two devices, with a lane queue of one item.
fn narrow(alloc: Global) -> Option<Scheme> {
    Scheme::demo(alloc, DemoSize::TwoDevices, 4, 4, 1).ok()
}

/// What is to be seen after a session.
#[derive(Clone, Copy, PartialEq, Eq, Debug)]
struct Seen {
    report: OwnerReport,
    // How many taps of device 1 the ledger has, and what it has stated of their day.
    count: u64,
    stated: Option<u64>,
    // The lane number of the first row that the outbox holds.
    next: Option<u64>,
}

/// A session of owner 1, and what is to be seen then, if the stores tell.
fn served<O: Outbox + Send, L: Ledger + Send, R: Threads + Wait + Clock + Sync>(
    rt: &R,
    alloc: Global,
    outbox: &mut O,
    ledger: &mut L,
    gate: &Hold,
    turns: u64,
) -> Option<Seen> {
    let scheme = narrow(alloc)?;
    let (owner, device, day) = names()?;
    if scheme.lane_capacity(owner).is_none() {
        return None;
    }
    let pace = Pace { rt, gate, turns };
    let report = serve_owner(&pace, alloc, &scheme, outbox, ledger, owner);
    Some(Seen {
        report,
        count: ledger.count(device).ok()?,
        stated: ledger.stated(device, day).ok()?,
        next: outbox.next_row(owner, device, 0).ok()?.map(Record::lane),
    })
}

fn report(taken: u64, left: u64, fault: Option<SessionFault>) -> OwnerReport {
    OwnerReport { taken, left, fault }
}

// A session over plain stores, and one more after it.
fn sessions<R: Threads + Wait + Clock + Sync>(
    rt: &R,
    alloc: Global,
    opening: Opening,
    gate: &Hold,
    turns: u64,
) -> Option<(Seen, Seen)> {
    let scheme = narrow(alloc)?;
    let mut outbox = filled(alloc, opening)?;
    let mut ledger = kept(alloc, &scheme, opening)?;
    let first = served(rt, alloc, &mut outbox, &mut ledger, gate, turns)?;
    let again = Hold::new(false, false);
    let second = served(rt, alloc, &mut outbox, &mut ledger, &again, turns)?;
    Some((first, second))
}

// One put waits until the owner took: no session on one thread, nor one with a lock round each turn, gets through.
#[test]
fn a_forwarder_and_an_owner_take_turns(rt: HostRuntime) {
    for naps in [false, true] {
        let gate = Hold::new(true, naps);
        let (seen, again) = sessions(&rt, rt.alloc(), THREE_ROWS, &gate, 1_000_000).expect(
            &rt, "stores",
        );
        let want = Seen {
            report: report(3, 0, None),
            count: 3,
            stated: None,
            next: None,
        };
        same(&rt, &seen, &want);
        same(&rt, &gate.missed.load(Ordering::SeqCst), &false);
        same(&rt, &gate.takes.load(Ordering::SeqCst), &3);
        same(&rt, &again.report, &report(0, 0, None));
    }
}

// With one turn the threads may give up at once, and the call takes the rest.
#[test]
fn a_session_of_one_turn_takes_all(rt: HostRuntime) {
    for turns in [0, 1, 2] {
        let gate = Hold::new(false, false);
        let (seen, again) = sessions(&rt, rt.alloc(), THREE_ROWS, &gate, turns).expect(
            &rt, "stores",
        );
        same(
            &rt,
            &(seen.report, seen.count, seen.next),
            &(report(3, 0, None), 3, None),
        );
        same(&rt, &again.report, &report(0, 0, None));
    }
}

// Statements come behind taps, and one that the ledger holds already is no item that it took.
#[test]
fn a_session_takes_statements_behind_taps(rt: HostRuntime) {
    let stated_before = Opening {
        held: Some(3),
        ..WITH_STATEMENT
    };
    for (opening, taken) in [(WITH_STATEMENT, 4), (stated_before, 3)] {
        let gate = Hold::new(true, false);
        let (seen, again) = sessions(&rt, rt.alloc(), opening, &gate, 1_000_000).expect(
            &rt, "stores",
        );
        let want = Seen {
            report: report(taken, 0, None),
            count: 3,
            stated: Some(3),
            next: None,
        };
        same(&rt, &(seen, again.report), &(want, report(0, 0, None)));
        same(&rt, &gate.missed.load(Ordering::SeqCst), &false);
    }
}

// Whether a session ended so, but for an item more that may be left in the queue.
fn ended_as(seen: &Seen, want: &Seen) -> bool {
    let left = seen.report.left;
    let least = want.report.left;
    let report = report(want.report.taken, left, want.report.fault);
    *seen == Seen { report, ..*want } && (left == least || left == least.saturating_add(1))
}

// Whether a session was refused at its first item.
fn is_refused_at_once(seen: &Seen) -> bool {
    seen.report.taken == 0 && seen.report.fault == Some(SessionFault::Refused)
}

fn refused(taken: u64, left: u64, stated: Option<u64>) -> Seen {
    Seen {
        report: report(taken, left, Some(SessionFault::Refused)),
        count: taken,
        stated,
        next: Some(1),
    }
}

// A lane with a gap, a row of a closed day, and a statement of which the ledger has another count.
#[test]
fn a_session_is_refused_for_a_cause(rt: HostRuntime) {
    let gap = Opening {
        gap: 2,
        ..THREE_ROWS
    };
    let late = Opening {
        held: Some(0),
        closed: true,
        ..THREE_ROWS
    };
    let other_count = Opening {
        held: Some(2),
        ..WITH_STATEMENT
    };
    let cases = [
        (gap, refused(1, 0, None)),
        (late, refused(0, 1, Some(0))),
        (other_count, refused(3, 1, Some(2))),
    ];
    for (opening, want) in cases {
        let gate = Hold::new(false, false);
        let (seen, again) = sessions(&rt, rt.alloc(), opening, &gate, 1_000_000).expect(
            &rt, "stores",
        );
        assert!(rt; ended_as(&seen, &want));
        assert!(rt; is_refused_at_once(&again));
    }
}

/// How a session ended of which a store may fail at one call.
#[derive(Clone, Copy, PartialEq, Eq, Debug)]
enum Ended {
    /// No call failed, and all was taken.
    Whole,
    /// It reported Store, and the ledger had what it reported; a second session took the rest.
    Failed,
    /// The call that failed was one that looked at the stores afterwards.
    Unseen,
}

// A session over stores that opened with three rows and a statement, if it ended in one of these ways.
fn session_over<O: Outbox + Send, L: Ledger + Send, R: Threads + Wait + Clock + Sync>(
    rt: &R,
    alloc: Global,
    outbox: &mut O,
    ledger: &mut L,
    most_left: u64,
) -> Option<Ended> {
    let gate = Hold::new(false, false);
    let Some(seen) = served(rt, alloc, outbox, ledger, &gate, 1_000_000) else {
        return Some(Ended::Unseen);
    };
    let stated = if seen.stated.is_some() { 1 } else { 0 };
    let held = seen.count.saturating_add(stated);
    if seen.report.taken != held || seen.report.left > most_left {
        return None;
    }
    match seen.report.fault {
        None if (held, seen.report.left) == (4, 0) => Some(Ended::Whole),
        Some(SessionFault::Store) => {
            let last = served(rt, alloc, outbox, ledger, &gate, 1)?;
            let want = Seen {
                report: report(4_u64.saturating_sub(held), 0, None),
                count: 3,
                stated: Some(3),
                next: None,
            };
            if last == want {
                Some(Ended::Failed)
            } else {
                None
            }
        }
        _ => None,
    }
}

// An outbox that fails at each of its calls in turn, up to one that is never made: nothing is in the hand or the queue.
#[test]
fn an_outbox_may_fail_at_any_call_of_a_session(rt: HostRuntime) {
    let alloc = rt.alloc();
    let scheme = narrow(alloc).expect(&rt, "scheme");
    let mut failed = 0_u64;
    for call in 1..100 {
        let plain = filled(alloc, WITH_STATEMENT).expect(&rt, "outbox");
        let mut outbox = FailingOutbox::new(plain, call);
        let mut ledger = kept(alloc, &scheme, WITH_STATEMENT).expect(&rt, "ledger");
        match session_over(&rt, alloc, &mut outbox, &mut ledger, 0).expect(&rt, "an end") {
            Ended::Whole => break,
            Ended::Failed => failed = failed.saturating_add(1),
            Ended::Unseen => {}
        }
    }
    // At least each item was read, and the rows were pruned.
    assert!(rt; failed >= 5);
    assert!(rt; failed < 90);
}

// A ledger that fails so: an item is in the hand, and one may be in the queue.
#[test]
fn a_ledger_may_fail_at_any_call_of_a_session(rt: HostRuntime) {
    let alloc = rt.alloc();
    let scheme = narrow(alloc).expect(&rt, "scheme");
    let mut failed = 0_u64;
    for call in 1..100 {
        let mut outbox = filled(alloc, WITH_STATEMENT).expect(&rt, "outbox");
        let plain = kept(alloc, &scheme, WITH_STATEMENT).expect(&rt, "ledger");
        let mut ledger = FailingLedger::new(plain, call);
        match session_over(&rt, alloc, &mut outbox, &mut ledger, 2).expect(&rt, "an end") {
            Ended::Whole => break,
            Ended::Failed => failed = failed.saturating_add(1),
            Ended::Unseen => {}
        }
    }
    // At least each item was taken, and the rows were counted.
    assert!(rt; failed >= 5);
    assert!(rt; failed < 90);
}
