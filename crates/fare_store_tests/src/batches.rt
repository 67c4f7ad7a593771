//! Several taps, or several lanes, in one call, over stores in memory and in tables, and what a failure in it leaves.
use crate::checking::same;
use crate::disks::{Trial, reopened, tried};
use crate::ledger_tables::{ledger as ledger_in_tables, scheme};
use crate::outbox_tables::outbox as outbox_in_tables;
use crate::stops::ledger_in;
use fare_outbox::SqlOutbox;
use fare_record::{Day, DeviceId, OwnerId, Record};
use fare_samples::{FIRST, Numbers, record};
use fare_store::{FailingOutbox, Fault, Ledger, Outbox, PlainLedger, PlainOutbox};
use sqlite::{Alter, Connection};
use sqlite_trees::store::Reopen;
use std::alloc::Global;
use std::process::Abort;

/// What a call with several taps answered, and how many taps of device 1 the store has had then.
type Done = Option<(Result<usize, Fault>, u64)>;

/// A device's lane numbers, of the first row of device 1 and of device 2.
type Firsts = Option<(Option<u64>, Option<u64>)>;

// Taps of a device for owner 1, each by its link and its lane number.
fn taps(alloc: Global, device: u64, numbers: &[(u64, u64)]) -> Option<Vec<Record>> {
    let mut rows = Vec::new(alloc);
    for (link, lane) in numbers {
        let row = record(Numbers {
            device,
            link: *link,
            lane: *lane,
            ..FIRST
        })?;
        rows.push(row).ok()?;
    }
    Some(rows)
}

// The first so many taps of device 1.
fn first_taps(alloc: Global, count: u64) -> Option<Vec<Record>> {
    let mut rows = Vec::new(alloc);
    for number in 1..=count {
        let row = record(Numbers {
            link: number,
            lane: number,
            ..FIRST
        })?;
        rows.push(row).ok()?;
    }
    Some(rows)
}

fn store<O: Outbox>(alloc: Global, outbox: &mut O, numbers: &[(u64, u64)]) -> Done {
    let rows = taps(alloc, 1, numbers)?;
    let answer = outbox.store_all(&rows);
    Some((answer, outbox.upto(DeviceId::new(1)?).ok()?))
}

// An outbox stores the taps in front of the first that it refuses: a gap, a link that it had, a lane number that comes
// twice or is held.
fn stores_the_first<O: Outbox>(rt: &impl Abort, alloc: Global, outbox: &mut O) {
    same(rt, &store(alloc, outbox, &[]), &Some((Ok(0), 0)));
    let three = [(1, 1), (2, 2), (3, 3)];
    same(rt, &store(alloc, outbox, &three), &Some((Ok(3), 3)));
    let gap = [(4, 4), (5, 5), (7, 7), (8, 8)];
    same(rt, &store(alloc, outbox, &gap), &Some((Ok(2), 5)));
    same(rt, &store(alloc, outbox, &[(7, 7)]), &Some((Ok(0), 5)));
    let had = [(5, 5), (6, 6)];
    same(rt, &store(alloc, outbox, &had), &Some((Ok(0), 5)));
    let twice = [(6, 6), (7, 6), (8, 8)];
    same(rt, &store(alloc, outbox, &twice), &Some((Ok(1), 6)));
    let held = [(7, 7), (8, 3)];
    same(rt, &store(alloc, outbox, &held), &Some((Ok(1), 7)));
}

fn take<L: Ledger>(alloc: Global, ledger: &mut L, numbers: &[(u64, u64)]) -> Done {
    let rows = taps(alloc, 1, numbers)?;
    let answer = ledger.take_all(&rows);
    Some((answer, ledger.count(DeviceId::new(1)?).ok()?))
}

// A ledger takes the taps in front of the first that it refuses.
fn takes_the_first<L: Ledger>(rt: &impl Abort, alloc: Global, ledger: &mut L) {
    same(rt, &take(alloc, ledger, &[]), &Some((Ok(0), 0)));
    let three = [(1, 1), (2, 2), (3, 3)];
    same(rt, &take(alloc, ledger, &three), &Some((Ok(3), 3)));
    let gap = [(4, 4), (5, 5), (7, 7)];
    same(rt, &take(alloc, ledger, &gap), &Some((Ok(2), 5)));
    same(rt, &take(alloc, ledger, &[(7, 7)]), &Some((Ok(0), 5)));
    same(rt, &take(alloc, ledger, &[(5, 5)]), &Some((Ok(0), 5)));
}

#[test]
fn taps_at_once_are_stored_up_to_the_first_that_is_refused(rt: HostRuntime) {
    stores_the_first(&rt, rt.alloc(), &mut PlainOutbox::new(rt.alloc()));
    let mut outbox = outbox_in_tables(rt.alloc(), &[]).expect(&rt, "outbox");
    stores_the_first(&rt, rt.alloc(), &mut outbox);
}

#[test]
fn taps_at_once_are_taken_up_to_the_first_that_is_refused(rt: HostRuntime) {
    let mut plain = plain_ledger(rt.alloc()).expect(&rt, "ledger");
    takes_the_first(&rt, rt.alloc(), &mut plain);
    let mut ledger = ledger_in_tables(rt.alloc(), &[]).expect(&rt, "ledger");
    takes_the_first(&rt, rt.alloc(), &mut ledger);
}

fn plain_ledger(alloc: Global) -> Option<PlainLedger> {
    PlainLedger::new(alloc, &scheme(alloc)?, OwnerId::new(1)?).ok()
}

// The lane numbers of the first rows of two devices.
fn firsts<O: Outbox>(outbox: &mut O) -> Firsts {
    let owner = OwnerId::new(1)?;
    let first = outbox.next_row(owner, DeviceId::new(1)?, 0).ok()?;
    let second = outbox.next_row(owner, DeviceId::new(2)?, 0).ok()?;
    Some((first.map(Record::lane), second.map(Record::lane)))
}

// The first rows of two devices once lanes were pruned, each of a device up to a lane number, and the answer to that.
fn prune<O: Outbox>(outbox: &mut O, lanes: [(u64, u64); 2]) -> Option<(Result<(), Fault>, Firsts)> {
    let [(first, one), (second, two)] = lanes;
    let lanes = [(DeviceId::new(first)?, one), (DeviceId::new(second)?, two)];
    let answer = outbox.prune_all(OwnerId::new(1)?, &lanes);
    Some((answer, firsts(outbox)))
}

// Several lanes go up to their numbers, one of them twice, and where no row goes all stays.
fn prunes_lanes<O: Outbox>(rt: &impl Abort, alloc: Global, outbox: &mut O) -> Option<()> {
    outbox.store_all(&first_taps(alloc, 300)?).ok()?;
    outbox
        .store_all(&taps(alloc, 2, &[(1, 1), (2, 2), (3, 4)])?)
        .ok()?;
    let owner = OwnerId::new(1)?;
    same(rt, &outbox.prune_all(owner, &[]), &Ok(()));
    let done = |one, two| Some((Ok(()), Some((one, two))));
    same(
        rt,
        &prune(outbox, [(1, 0), (2, 0)]),
        &done(Some(1), Some(1)),
    );
    same(
        rt,
        &prune(outbox, [(1, 200), (2, 3)]),
        &done(Some(201), Some(4)),
    );
    same(
        rt,
        &prune(outbox, [(1, 10), (1, 250)]),
        &done(Some(251), Some(4)),
    );
    same(
        rt,
        &prune(outbox, [(2, u64::MAX), (3, 9)]),
        &done(Some(251), None),
    );
    Some(())
}

#[test]
fn lanes_are_pruned_at_once(rt: HostRuntime) {
    let mut plain = PlainOutbox::new(rt.alloc());
    same(&rt, &prunes_lanes(&rt, rt.alloc(), &mut plain), &Some(()));
    let mut outbox = outbox_in_tables(rt.alloc(), &[]).expect(&rt, "outbox");
    same(&rt, &prunes_lanes(&rt, rt.alloc(), &mut outbox), &Some(()));
}

// What an outbox that fails at this call answers to three taps and to the removal of their rows.
fn failed(alloc: Global, call: u64) -> Option<(Result<usize, Fault>, Result<(), Fault>)> {
    let mut outbox = FailingOutbox::new(PlainOutbox::new(alloc), call.max(1));
    let stored = outbox.store_all(&first_taps(alloc, 3)?);
    let pruned = outbox.prune_all(OwnerId::new(1)?, &[(DeviceId::new(1)?, 3)]);
    Some((stored, pruned))
}

#[test]
fn an_outbox_fails_at_one_call_with_several(rt: HostRuntime) {
    let first = (Err(Fault::Store), Ok(()));
    let second = (Ok(3), Err(Fault::Store));
    same(&rt, &failed(rt.alloc(), 1), &Some(first));
    same(&rt, &failed(rt.alloc(), 2), &Some(second));
}

/// How far two calls came over disks that fail.
#[derive(Clone, Copy, PartialEq, Eq, Debug)]
enum Stage {
    /// The store wasn't open.
    Unopened,
    /// One of them failed.
    Failed,
    /// Both were done.
    Whole,
}

fn reached(calls: bool) -> Stage {
    if calls { Stage::Whole } else { Stage::Failed }
}

// Whether the outbox holds the rows from this lane number to its greatest link, and no other.
fn holds_from<O: Outbox>(outbox: &mut O, from: u64) -> Option<bool> {
    let (owner, device) = (OwnerId::new(1)?, DeviceId::new(1)?);
    let upto = outbox.upto(device).ok()?;
    for lane in from..=upto {
        let next = outbox.next_row(owner, device, lane.saturating_sub(1)).ok()?;
        if next.map(Record::lane) != Some(lane) {
            return Some(false);
        }
    }
    let first = outbox.next_row(owner, device, 0).ok()?;
    let behind = outbox.next_row(owner, device, upto).ok()?;
    Some(behind.is_none() && first.map_or(upto < from, |row| row.lane() == from))
}

/// What storing several taps answered, and removing the rows of several lanes.
type Answers = (Result<usize, Fault>, Result<(), Fault>);

// Stores forty taps at once and lets thirty rows go at once.
fn store_and_prune<O: Outbox>(alloc: Global, outbox: &mut O) -> Option<Answers> {
    let taps = first_taps(alloc, 40)?;
    let (owner, device) = (OwnerId::new(1)?, DeviceId::new(1)?);
    let stored = outbox.store_all(&taps);
    Some((stored, outbox.prune_all(owner, &[(device, 30)])))
}

// Whether an outbox has what it answered so.
fn has_stored<O: Outbox>(
    outbox: &mut O,
    stored: Result<usize, Fault>,
    pruned: Result<(), Fault>,
) -> Option<bool> {
    let upto = outbox.upto(DeviceId::new(1)?).ok()?;
    let whole = holds_from(outbox, 1)?;
    let cut = holds_from(outbox, 31)?;
    Some(match (stored, pruned) {
        (Ok(count), Ok(())) => count == 40 && upto == 40 && cut,
        (Ok(count), Err(Fault::Store)) => count == 40 && upto == 40 && (whole || cut),
        (Err(Fault::Store), _) => upto <= 40 && (whole || upto == 0 && cut),
        _ => false,
    })
}

// Forty taps are stored at once and thirty rows go at once; then the machine stops and comes back. Whether the outbox
// has what it answered: the first of the taps, and of the rows all that went or none.
fn outbox_stopped<S: Alter + Reopen + Drop>(
    alloc: Global,
    conn: Connection<S>,
) -> Option<(Stage, bool)> {
    let Ok(mut outbox) = SqlOutbox::open(alloc, conn) else {
        return Some((Stage::Unopened, true));
    };
    let (stored, pruned) = store_and_prune(alloc, &mut outbox)?;
    let conn = reopened(alloc, outbox.into_connection())?;
    let mut again = SqlOutbox::open(alloc, conn).ok()?;
    let kept = has_stored(&mut again, stored, pruned)?;
    Some((reached(stored.is_ok() && pruned.is_ok()), kept))
}

// Takes forty taps at once.
fn take_forty<L: Ledger>(alloc: Global, ledger: &mut L) -> Option<Result<usize, Fault>> {
    let taps = first_taps(alloc, 40)?;
    Some(ledger.take_all(&taps))
}

// Whether a ledger has what it answered so, and as many rows of it.
fn has_taken<L: Ledger>(ledger: &mut L, taken: Result<usize, Fault>) -> Option<bool> {
    let (device, day) = (DeviceId::new(1)?, Day::new(FIRST.day)?);
    let count = ledger.count(device).ok()?;
    let rows = ledger.taps_between(day, day).ok()?.len() as u64;
    let kept = match taken {
        Ok(all) => all == 40 && count == 40,
        Err(Fault::Store) => count <= 40,
        Err(Fault::Memory) => false,
    };
    Some(kept && rows == count)
}

// Forty taps are taken at once, and then the machine stops and comes back. Whether the ledger has what it answered.
fn ledger_stopped<S: Alter + Reopen + Drop>(
    alloc: Global,
    conn: Connection<S>,
) -> Option<(Stage, bool)> {
    let Some(mut ledger) = ledger_in(alloc, conn) else {
        return Some((Stage::Unopened, true));
    };
    let taken = take_forty(alloc, &mut ledger)?;
    let conn = reopened(alloc, ledger.into_connection())?;
    let mut again = ledger_in(alloc, conn)?;
    let kept = has_taken(&mut again, taken)?;
    Some((reached(taken.is_ok()), kept))
}

// Many taps are stored at once, and many rows go at once.
struct StoringMany;

impl Trial for StoringMany {
    type Seen = (Stage, bool);

    fn run<S: Alter + Reopen + Drop>(
        &self,
        alloc: Global,
        conn: Connection<S>,
    ) -> Option<(Stage, bool)> {
        outbox_stopped(alloc, conn)
    }
}

// Many taps are taken at once.
struct TakingMany;

impl Trial for TakingMany {
    type Seen = (Stage, bool);

    fn run<S: Alter + Reopen + Drop>(
        &self,
        alloc: Global,
        conn: Connection<S>,
    ) -> Option<(Stage, bool)> {
        ledger_stopped(alloc, conn)
    }
}

// Over disks in memory that fail after so many calls.
fn stopped_after(alloc: Global, calls: u64) -> Option<[(Stage, bool); 2]> {
    Some([
        tried(alloc, calls, &StoringMany)?.unwrap_or((Stage::Unopened, true)),
        tried(alloc, calls, &TakingMany)?.unwrap_or((Stage::Unopened, true)),
    ])
}

// The disks fail at each of their calls in turn, from the first on until both stores do all.
#[test]
fn a_failure_at_any_call_of_a_batch_leaves_a_first_part(rt: HostRuntime) {
    let mut failed = 0_u64;
    for calls in 0..1_000 {
        let stops = stopped_after(rt.alloc(), calls).expect(&rt, "a failing store");
        for (_, kept) in stops {
            same(&rt, &(calls, kept), &(calls, true));
        }
        let [(stored, _), (taken, _)] = stops;
        if (stored, taken) == (Stage::Whole, Stage::Whole) {
            assert!(rt; failed > 0, "no call of a batch failed");
            return;
        }
        if stored == Stage::Failed || taken == Stage::Failed {
            failed = failed.saturating_add(1);
        }
    }
    assert!(rt; false, "neither store did all");
}
