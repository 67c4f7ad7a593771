//! Serving, closing and billing over databases that stop, and over the same once they are opened again: a bill is of all
//! taps, or there is none.
use crate::databases::asked_of;
use crate::disks::reopened;
use crate::hub_stops::{Over, Step, walk};
use fare_command::Question;
use fare_databases::{Databases, close_hub, open_hub};
use fare_desk::DeskFault;
use fare_frame::Frame;
use fare_record::{Day, OwnerId};
use fare_run::{AskFailure, ServeFailure};
use fare_samples::{FIRST, statement};
use fare_scripts::{Script, collected_and_served, narrow, scripts_of};
use sqlite::{Alter, Connection};
use sqlite_trees::store::Reopen;
use std::alloc::Global;
use std::sync::Wait;
use std::thread::Threads;
use std::time::Clock;

// The bill of all taps: four rides of 175 pence each on one account, at most 525 a day.
const BILL: &[u8] = b"bill 1 19723 1 525\naccount 1 77 4 525\n";

// What is written where both devices' days are closed at once.
const CLOSED: &[u8] = b"close 1 1 19723: closed 1 19723\nclose 1 2 19723: closed 2 19723\n";

/// What came of serving, closing and asking for the bill.
#[derive(Drop)]
struct Came {
    // Whether the sessions met no fault, and both days were closed at once.
    whole: bool,
    billed: Result<(), AskFailure>,
    said: Vec<u8>,
}

// The two devices' sources: two taps of each, and then how many they were on the day.
fn sources(alloc: Global) -> Option<Vec<Script>> {
    let mut sources = scripts_of(alloc, 2, &[1, 2])?;
    for (place, device) in [(0, 1), (1, 2)] {
        let stated = Frame::Stated(statement(device, FIRST.day, FIRST.owner, 2)?);
        sources.get_mut(place)?.frames.insert(0, stated).ok()?;
    }
    Some(sources)
}

// Serves the two devices over these databases, if they can be opened: whether no fault was met, and the databases again.
fn served<S: Alter + Drop + Send, R: Threads + Wait + Clock + Sync>(
    rt: &R,
    alloc: Global,
    databases: Databases<S>,
) -> Option<(bool, Databases<S>)> {
    let scheme = narrow(alloc)?;
    if databases.ledgers.len() != scheme.owner_count() {
        return None;
    }
    let mut opened = match open_hub(alloc, scheme, databases) {
        Ok(opened) => opened,
        Err((databases, _)) => return Some((false, databases)),
    };
    let sources = sources(alloc)?;
    let (seen, _) = collected_and_served(rt, alloc, &mut opened.hub, sources, 9)?;
    if opened.hub.ledgers.len() > opened.room.capacity() {
        return None;
    }
    let [first, _, _] = seen.faults;
    Some((first.is_none(), close_hub(opened)))
}

fn day_bill() -> Option<Question> {
    Some(Question::Bill {
        owner: OwnerId::new(FIRST.owner)?,
        day: Day::new(FIRST.day)?,
    })
}

// Serves, closes and asks for the bill, over these databases.
fn pass<S: Alter + Drop + Send, R: Threads + Wait + Clock + Sync>(
    rt: &R,
    alloc: Global,
    databases: Databases<S>,
) -> Option<(Came, Databases<S>)> {
    let (whole, databases) = served(rt, alloc, databases)?;
    let (_, closed, databases) = asked_of(alloc, narrow(alloc)?, databases, Question::Close)?;
    let (billed, said, databases) = asked_of(alloc, narrow(alloc)?, databases, day_bill()?)?;
    let came = Came {
        whole: whole && closed.as_slice() == CLOSED,
        billed,
        said,
    };
    Some((came, databases))
}

// Whether a bill is of all taps; or there is none, since a store failed or a day was not closed.
fn is_right(came: &Came) -> bool {
    match &came.billed {
        Ok(()) => came.said.as_slice() == BILL,
        Err(AskFailure::Stores(ServeFailure::Store)) => came.said.is_empty(),
        Err(AskFailure::Desk(DeskFault::Store | DeskFault::NotClosed { .. })) => {
            came.said.is_empty()
        }
        Err(_) => false,
    }
}

// The databases of a scheme of one owner.
fn in_both<S: Alter + Drop>(
    alloc: Global,
    outbox: Connection<S>,
    ledger: Connection<S>,
) -> Option<Databases<S>> {
    let mut ledgers = Vec::new(alloc);
    ledgers.push(ledger).ok()?;
    Some(Databases { outbox, ledgers })
}

// These databases after the machine stopped and came back.
fn all_reopened<S: Alter + Reopen + Drop>(
    alloc: Global,
    databases: Databases<S>,
) -> Option<Databases<S>> {
    let Databases {
        outbox,
        mut ledgers,
    } = databases;
    let ledger = reopened(alloc, ledgers.pop()?)?;
    in_both(alloc, reopened(alloc, outbox)?, ledger)
}

// Where a walk is that serves, closes and bills over these databases, and again once the machine stopped and came back;
// if each bill was right, and there was one behind the stop.
pub(crate) fn billed<S: Alter + Reopen + Drop + Send, R: Threads + Wait + Clock + Sync>(
    rt: &R,
    alloc: Global,
    outbox: Option<Connection<S>>,
    ledger: Option<Connection<S>>,
) -> Option<Step> {
    let (Some(outbox), Some(ledger)) = (outbox, ledger) else {
        return Some(Step::Before);
    };
    let (first, databases) = pass(rt, alloc, in_both(alloc, outbox, ledger)?)?;
    let (second, _) = pass(rt, alloc, all_reopened(alloc, databases)?)?;
    if !is_right(&first) || second.billed.is_err() || second.said.as_slice() != BILL {
        return None;
    }
    if first.whole && first.billed.is_ok() {
        Some(Step::Behind)
    } else {
        Some(Step::Stopped)
    }
}

// At least each store of a tap or a count, each take and each close stops at two calls of its journal, a write and a flush.
#[test]
fn a_bill_after_a_stop_at_any_call_is_of_all_taps(rt: HostRuntime) {
    for (place, least) in [(0, 0), (1, 12), (2, 0), (3, 16)] {
        let stops = walk(&rt, rt.alloc(), Over::Bills, place).expect(&rt, "the bill of all taps");
        assert!(rt; stops >= least, "{stops} stops of file {place}");
    }
}
