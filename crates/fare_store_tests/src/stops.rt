use crate::checking::same;
use crate::disks::{Trial, reopened, tried};
use crate::stores::{Answer, Asked, Call, Said, answer_to, ask};
use fare_ledger::SqlLedger;
use fare_outbox::SqlOutbox;
use fare_record::{Day, OwnerId};
use fare_scheme::{DemoSize, Scheme};
use fare_store::{Fault, Ledger, Outbox, Refused};
use sqlite::{Alter, Connection};
use sqlite_trees::store::Reopen;
use std::alloc::Global;

/// How many steps were acknowledged before the disks failed, how many an open then finds, and whether each of these is
/// there whole.
type Stopped = (u64, u64, bool);

// What an outbox is asked, and what it answers.
const STORED: [(Asked, Said); 5] = [
    (Asked::Store(1, 1), Said::Stored(Ok(()))),
    (Asked::Store(2, 2), Said::Stored(Ok(()))),
    (Asked::State(2), Said::Stated(Ok(()))),
    (Asked::Prune(1), Said::Number(Ok(1))),
    (Asked::Forget(19_724), Said::Number(Ok(1))),
];

// What a ledger is asked, and what it answers.
const TAKEN: [(Call, Answer); 6] = [
    (Call::Take(1), Answer::Taken(Ok(()))),
    (Call::Take(2), Answer::Taken(Ok(()))),
    (Call::State(2), Answer::Stated(Ok(()))),
    (Call::Close, Answer::Closed(Ok(()))),
    (Call::Forget(19_724), Answer::Forgotten(Ok(()))),
    (Call::Retire(1), Answer::Ended(Ok(()))),
];

// How many steps an outbox acknowledges until one fails, which has to answer Store.
fn stored_in<O: Outbox>(outbox: &mut O) -> Option<u64> {
    let mut done = 0_u64;
    for (asked, want) in STORED {
        let said = ask(outbox, asked)?;
        if said != want {
            return match said {
                Said::Stored(Err(Refused::Failed(Fault::Store)))
                | Said::Stated(Err(Refused::Failed(Fault::Store)))
                | Said::Number(Err(Fault::Store)) => Some(done),
                _ => None,
            };
        }
        done = done.saturating_add(1);
    }
    Some(done)
}

// How many steps an outbox holds, of which a statement that is missing where rows were pruned went at the last one, and
// whether the rows from the first that isn't pruned to that of the greatest link, and no later one, are there.
fn found_in<O: Outbox>(outbox: &mut O) -> Option<(u64, bool)> {
    let Said::Number(Ok(upto)) = ask(outbox, Asked::Upto)? else {
        return None;
    };
    let first = ask(outbox, Asked::NextRow(0))?;
    let last = ask(outbox, Asked::NextRow(upto.saturating_sub(1)))?;
    let next = ask(outbox, Asked::NextRow(upto))?;
    let (pruned, ends) = match (upto, first) {
        (0, Said::Found(Ok(None))) => (0, None),
        (1 | 2, Said::Found(Ok(Some(1)))) => (0, Some(upto)),
        (2, Said::Found(Ok(Some(2)))) => (1, Some(upto)),
        _ => return None,
    };
    let stated = match (pruned, ask(outbox, Asked::NextStatement(0))?) {
        (0, Said::Found(Ok(None))) => 0,
        (_, Said::Found(Ok(Some(2)))) => 1,
        (_, Said::Found(Ok(None))) => 2,
        _ => return None,
    };
    let found = upto.saturating_add(stated).saturating_add(pruned);
    let whole = last == Said::Found(Ok(ends)) && next == Said::Found(Ok(None));
    Some((found, whole))
}

// How many steps a ledger acknowledges until one fails, which has to answer Store.
fn taken_in<L: Ledger>(ledger: &mut L) -> Option<u64> {
    let mut done = 0_u64;
    for (call, want) in TAKEN {
        let answer = answer_to(ledger, call)?;
        if answer != want {
            return match answer {
                Answer::Taken(Err(Refused::Failed(Fault::Store)))
                | Answer::Stated(Err(Refused::Failed(Fault::Store)))
                | Answer::Closed(Err(Refused::Failed(Fault::Store)))
                | Answer::Ended(Err(Refused::Failed(Fault::Store)))
                | Answer::Forgotten(Err(Refused::Failed(Fault::Store))) => Some(done),
                _ => None,
            };
        }
        done = done.saturating_add(1);
    }
    Some(done)
}

// One where there is such a number, and nothing where there is none.
fn is_there(answer: Answer, number: u64) -> Option<u64> {
    match answer {
        Answer::Maybe(Ok(None)) => Some(0),
        Answer::Maybe(Ok(Some(found))) if found == number => Some(1),
        _ => None,
    }
}

// How many steps a ledger holds, and whether it has as many rows as the device's number says, or, where the day was let
// go, none of these and no statement.
fn held_in<L: Ledger>(ledger: &mut L) -> Option<(u64, bool)> {
    let Answer::Number(Ok(count)) = answer_to(ledger, Call::Count)? else {
        return None;
    };
    let day = Day::new(19_723)?;
    let rows = ledger.taps_between(day, day).ok()?.len() as u64;
    let held_from = answer_to(ledger, Call::HeldFrom)?;
    let gone = held_from == Answer::Number(Ok(19_724));
    let told = is_there(answer_to(ledger, Call::Stated)?, 2)?;
    let stated = if gone { 1 } else { told };
    let closed = is_there(answer_to(ledger, Call::ClosedThrough)?, 19_723)?;
    let retired = match answer_to(ledger, Call::Retired)? {
        Answer::Holds(Ok(retired)) => u64::from(retired),
        _ => return None,
    };
    let days = stated.saturating_add(closed);
    let ended = retired.saturating_add(u64::from(gone));
    let held = count.saturating_add(days).saturating_add(ended);
    let left = if gone { 0 } else { count };
    Some((held, rows == left && (!gone || told == 0)))
}

// An outbox in a database, stopped where its disks fail.
fn outbox_stopped<S: Alter + Reopen + Drop>(alloc: Global, conn: Connection<S>) -> Option<Stopped> {
    let Ok(mut outbox) = SqlOutbox::open(alloc, conn) else {
        return Some((0, 0, true));
    };
    let done = stored_in(&mut outbox)?;
    let conn = reopened(alloc, outbox.into_connection())?;
    let mut outbox = SqlOutbox::open(alloc, conn).ok()?;
    let (found, whole) = found_in(&mut outbox)?;
    Some((done, found, whole))
}

// Owner 1's ledger in a database, by the demonstration scheme.
pub(crate) fn ledger_in<S: Alter + Drop>(
    alloc: Global,
    conn: Connection<S>,
) -> Option<SqlLedger<S>> {
    let scheme = Scheme::demo(alloc, DemoSize::OneDevice, 4, 4, 4).ok()?;
    SqlLedger::open(alloc, &scheme, OwnerId::new(1)?, conn).ok()
}

// A ledger in a database, stopped where its disks fail.
fn ledger_stopped<S: Alter + Reopen + Drop>(alloc: Global, conn: Connection<S>) -> Option<Stopped> {
    let Some(mut ledger) = ledger_in(alloc, conn) else {
        return Some((0, 0, true));
    };
    let done = taken_in(&mut ledger)?;
    let conn = reopened(alloc, ledger.into_connection())?;
    let (found, whole) = held_in(&mut ledger_in(alloc, conn)?)?;
    Some((done, found, whole))
}

// The steps of an outbox.
struct Storing;

impl Trial for Storing {
    type Seen = Stopped;

    fn run<S: Alter + Reopen + Drop>(&self, alloc: Global, conn: Connection<S>) -> Option<Stopped> {
        outbox_stopped(alloc, conn)
    }
}

// The steps of a ledger.
struct Taking;

impl Trial for Taking {
    type Seen = Stopped;

    fn run<S: Alter + Reopen + Drop>(&self, alloc: Global, conn: Connection<S>) -> Option<Stopped> {
        ledger_stopped(alloc, conn)
    }
}

// An outbox and a ledger, each in a database of its own; no step if it fails before it is open.
fn stopped_after(alloc: Global, calls: u64) -> Option<[Stopped; 2]> {
    Some([
        tried(alloc, calls, &Storing)?.unwrap_or((0, 0, true)),
        tried(alloc, calls, &Taking)?.unwrap_or((0, 0, true)),
    ])
}

// The disks fail at each of their calls in turn, from the first on until all steps are acknowledged. The step at which
// they fail is kept whole or not at all, and those before it are kept.
#[test]
fn a_failure_at_any_call_leaves_each_step_whole_or_not_at_all(rt: HostRuntime) {
    let mut early = 0u64;
    let mut full = false;
    for calls in 0..1_000 {
        let stops = stopped_after(rt.alloc(), calls).expect(&rt, "a failing store");
        for (done, found, whole) in stops {
            let kept = found == done || found == done.saturating_add(1);
            same(&rt, &(calls, (kept, whole)), &(calls, (true, true)));
        }
        let [(stored, _, _), (taken, _, _)] = stops;
        if (stored, taken) == (5, 6) {
            full = true;
            break;
        }
        early = early.saturating_add(stored.min(taken));
    }
    same(&rt, &(early > 0, full), &(true, true));
}
