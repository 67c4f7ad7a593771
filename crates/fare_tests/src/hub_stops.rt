//! Lists of sessions over stores in files that stop, and over the same stores once they are opened again.
use crate::bills_after_stops::billed;
use crate::disks::{database, reopened};
use fare_frame::Frame;
use fare_ledger::SqlLedger;
use fare_outbox::SqlOutbox;
use fare_record::{DeviceId, OwnerId};
use fare_scheme::{DemoSize, Scheme};
use fare_scripts::{Placed, Script, Seen, collected_and_served, hub_of, scripts_of, whole};
use fare_session::SessionFault;
use fare_sessions::Hub;
use fare_store::{Ledger, Outbox};
use sqlite::{Alter, Connection, Files};
use sqlite_disk::{Crash, Fuse, Memory};
use sqlite_trees::store::Reopen;
use std::alloc::Global;
use std::sync::Wait;
use std::thread::Threads;
use std::time::Clock;

/// What two sessions over stores that may stop came to, and the same sessions over what they left.
#[derive(Clone, Copy)]
struct Course {
    // Whether each store was opened at once.
    opened: bool,
    first: Seen,
    // Whether each number that a source was answered is there once the stores are opened again, and how many taps the
    // outbox has had and the ledger has taken then.
    covered: bool,
    had: u64,
    held: u64,
    second: Seen,
}

// As many items are in a commit at most: half of what the queues of this scheme hold.
const BATCH: u64 = 2;

// The demonstration scheme of two devices, with an inbox and a lane queue of four items.
fn scheme(alloc: Global) -> Option<Scheme> {
    Scheme::demo(alloc, DemoSize::TwoDevices, 4, 4, 4).ok()
}

// How many taps of the two devices an outbox has had.
fn had_by<O: Outbox>(outbox: &mut O) -> Option<u64> {
    let mut had = 0_u64;
    for device in 1..=2 {
        had = had.saturating_add(outbox.upto(DeviceId::new(device)?).ok()?);
    }
    Some(had)
}

// How many taps of the two devices a ledger has taken.
fn held_by<L: Ledger>(ledger: &mut L) -> Option<u64> {
    let mut held = 0_u64;
    for device in 1..=2 {
        held = held.saturating_add(ledger.count(DeviceId::new(device)?).ok()?);
    }
    Some(held)
}

// Whether an outbox has had each number that these frames acknowledge.
fn has_had<O: Outbox>(outbox: &mut O, frames: &[Frame]) -> Option<bool> {
    for frame in frames {
        let Frame::Acked(ack) = frame else {
            return None;
        };
        if ack.upto() > outbox.upto(ack.device()).ok()? {
            return Some(false);
        }
    }
    Some(true)
}

// Whether it has had each number that the two sources were answered.
fn covers<O: Outbox>(outbox: &mut O, sources: &[Script]) -> Option<bool> {
    let [first, second] = sources else {
        return None;
    };
    Some(has_had(outbox, &first.answered)? && has_had(outbox, &second.answered)?)
}

// The two sessions over these stores, whose supervisor answers each fault with a restart: what is to be seen, and the
// sources and the stores again.
fn run<O: Outbox + Send + Drop, L: Ledger + Send + Drop, R: Threads + Wait + Clock + Sync>(
    rt: &R,
    alloc: Global,
    outbox: O,
    ledger: L,
) -> Option<(Seen, Vec<Script>, O, L)> {
    let mut hub = hub_of(alloc, scheme(alloc)?, outbox, ledger)?;
    let sources = scripts_of(alloc, 2, &[1, 2])?;
    let (got, sources) = collected_and_served(rt, alloc, &mut hub, sources, 9)?;
    let Hub {
        scheme,
        outbox,
        mut ledgers,
    } = hub;
    drop(scheme);
    Some((got, sources, outbox, ledgers.pop()?))
}

// What a stop left, and the same sessions over it.
fn go_on<O: Outbox + Send + Drop, L: Ledger + Send + Drop, R: Threads + Wait + Clock + Sync>(
    rt: &R,
    alloc: Global,
    first: Seen,
    sources: &[Script],
    outbox: O,
    ledger: L,
) -> Option<Course> {
    let (mut outbox, mut ledger) = (outbox, ledger);
    let covered = covers(&mut outbox, sources)?;
    let (had, held) = (had_by(&mut outbox)?, held_by(&mut ledger)?);
    let (second, _, _, _) = run(rt, alloc, outbox, ledger)?;
    Some(Course {
        opened: true,
        first,
        covered,
        had,
        held,
        second,
    })
}

// An outbox in a database, and whether it was opened before its disks failed; else it is opened once they are back.
fn outbox_in<S: Alter + Reopen + Drop>(
    alloc: Global,
    conn: Connection<S>,
) -> Option<(SqlOutbox<S>, bool)> {
    match SqlOutbox::open(alloc, conn) {
        Ok(outbox) => Some((outbox, true)),
        Err((conn, _)) => {
            let conn = reopened(alloc, conn)?;
            Some((SqlOutbox::open(alloc, conn).ok()?, false))
        }
    }
}

// The same of owner 1's ledger.
fn ledger_in<S: Alter + Reopen + Drop>(
    alloc: Global,
    conn: Connection<S>,
) -> Option<(SqlLedger<S>, bool)> {
    let (scheme, owner) = (scheme(alloc)?, OwnerId::new(1)?);
    match SqlLedger::open(alloc, &scheme, owner, conn) {
        Ok(ledger) => Some((ledger, true)),
        Err((conn, _)) => {
            let conn = reopened(alloc, conn)?;
            let ledger = SqlLedger::open(alloc, &scheme, owner, conn).ok()?;
            Some((ledger, false))
        }
    }
}

// The two stores in their databases, and whether both were opened before their disks failed.
fn both_in<S: Alter + Reopen + Drop>(
    alloc: Global,
    outbox: Connection<S>,
    ledger: Connection<S>,
) -> Option<(SqlOutbox<S>, SqlLedger<S>, bool)> {
    let (outbox, at_once) = outbox_in(alloc, outbox)?;
    let (ledger, ledger_at_once) = ledger_in(alloc, ledger)?;
    Some((outbox, ledger, at_once && ledger_at_once))
}

// The two stores after the machine stopped and came back, which have to be opened at once.
fn both_again<S: Alter + Reopen + Drop>(
    alloc: Global,
    outbox: SqlOutbox<S>,
    ledger: SqlLedger<S>,
) -> Option<(SqlOutbox<S>, SqlLedger<S>)> {
    let outbox = reopened(alloc, outbox.into_connection())?;
    let ledger = reopened(alloc, ledger.into_connection())?;
    let (outbox, ledger, at_once) = both_in(alloc, outbox, ledger)?;
    if !at_once {
        return None;
    }
    Some((outbox, ledger))
}

/// How sessions over databases ended of which one may fail.
#[derive(Clone, Copy)]
enum Ended {
    /// Its disks failed before it was open.
    Unopened,
    /// They ran.
    Ran(Course),
}

// The two sessions over an outbox and a ledger in these databases, if they are open, and over the same once the machine
// stopped and came back.
fn stopped<S: Alter + Reopen + Drop + Send, R: Threads + Wait + Clock + Sync>(
    rt: &R,
    alloc: Global,
    outbox: Option<Connection<S>>,
    ledger: Option<Connection<S>>,
) -> Option<Ended> {
    let (Some(outbox), Some(ledger)) = (outbox, ledger) else {
        return Some(Ended::Unopened);
    };
    let (outbox, ledger, opened) = both_in(alloc, outbox, ledger)?;
    let (first, sources, outbox, ledger) = run(rt, alloc, outbox, ledger)?;
    let (outbox, ledger) = both_again(alloc, outbox, ledger)?;
    let course = go_on(rt, alloc, first, &sources, outbox, ledger)?;
    Some(Ended::Ran(Course { opened, ..course }))
}

// Whether a count is another one or up to a batch more.
fn is_or_follows(count: u64, other: u64) -> bool {
    other <= count && count <= other.saturating_add(BATCH)
}

// Whether each fault is one of a store.
fn are_of_stores(faults: &[Placed]) -> bool {
    for fault in faults {
        match fault {
            None | Some((_, SessionFault::Store)) => {}
            Some(_) => return false,
        }
    }
    true
}

// Whether the stop left what was reported, and at most a batch more, and the sessions after it did the rest.
fn is_kept(course: &Course) -> bool {
    let rest = whole(
        4_u64.saturating_sub(course.had),
        4_u64.saturating_sub(course.held),
    );
    course.covered
        && are_of_stores(&course.first.faults)
        && is_or_follows(course.had, course.first.stored)
        && is_or_follows(course.held, course.first.taken)
        && course.second == rest
}

/// How far a walk over the calls of a file is, of which each has failed in its turn with all after it.
#[derive(Clone, Copy)]
pub(crate) enum Step {
    /// The file failed before its database was open.
    Before,
    /// They stopped, or a store did as it was opened.
    Stopped,
    /// That call was not made.
    Behind,
}

// Where a walk is whose sessions ended so, if all was kept.
fn step_of(ended: Ended) -> Option<Step> {
    let Ended::Ran(course) = ended else {
        return Some(Step::Before);
    };
    if !is_kept(&course) {
        return None;
    }
    match (course.opened, course.first == whole(4, 4)) {
        (true, true) => Some(Step::Behind),
        _ => Some(Step::Stopped),
    }
}

/// What runs over the files of a walk.
#[derive(Clone, Copy)]
pub(crate) enum Over {
    /// Two sessions.
    Sessions,
    /// The hub serves, closes a day and writes its bill.
    Bills,
}

// Where a walk is whose runs are over databases in these files, if all was kept.
fn walked<D: Crash + Drop + Send, R: Threads + Wait + Clock + Sync>(
    rt: &R,
    alloc: Global,
    over: Over,
    outbox: Files<D>,
    ledger: Files<D>,
) -> Option<Step> {
    let (outbox, ledger) = (database(alloc, outbox), database(alloc, ledger));
    match over {
        Over::Sessions => step_of(stopped(rt, alloc, outbox, ledger)?),
        Over::Bills => billed(rt, alloc, outbox, ledger),
    }
}

// A file in memory that fails after so many calls.
fn file(alloc: Global, calls: u64) -> Fuse<Memory> {
    Fuse::new(Memory::new(alloc), calls)
}

// How many calls each file lasts where one of the four fails after so many.
fn lasting(place: usize, calls: u64) -> Option<[u64; 4]> {
    let mut lasting = [u64::MAX; 4];
    *lasting.get_mut(place)? = calls;
    Some(lasting)
}

// How many calls of one of the files made what runs stop, of which each failed in its turn with all after it, up to
// one that is not made. The files are the outbox's data and its journal, and the ledger's.
pub(crate) fn walk<R: Threads + Wait + Clock + Sync>(
    rt: &R,
    alloc: Global,
    over: Over,
    place: usize,
) -> Option<u64> {
    let mut stops = 0_u64;
    for call in 0..100_000 {
        let [data, journal, other_data, other_journal] = lasting(place, call)?;
        let outbox = Files {
            log: file(alloc, journal),
            db: file(alloc, data),
        };
        let ledger = Files {
            log: file(alloc, other_journal),
            db: file(alloc, other_data),
        };
        match walked(rt, alloc, over, outbox, ledger)? {
            Step::Before => {}
            Step::Stopped => stops = stops.saturating_add(1),
            Step::Behind => return Some(stops),
        }
    }
    None
}

// At least two commits of four stored taps, and two of as many takes, stop at two calls each of their journal, a write and
// a flush.
#[test]
fn a_stop_at_any_call_leaves_what_was_answered(rt: HostRuntime) {
    for (place, least) in [(0, 0), (1, 4), (2, 0), (3, 4)] {
        let stops = walk(&rt, rt.alloc(), Over::Sessions, place).expect(
            &rt,
            "all that was answered",
        );
        assert!(rt; stops >= least, "{stops} stops of file {place}");
    }
}
