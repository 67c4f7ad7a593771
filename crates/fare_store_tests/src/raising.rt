use crate::checking::same;
use crate::disks::{Trial, reopened, tried};
use crate::shelf::{OldShelf, Shelf};
use fare_opening::{Design, Opened, open_tables};
use sqlite::{Alter, Connection, MemStore};
use sqlite_trees::store::Reopen;
use std::alloc::Global;

/// What an open found in a database.
#[derive(Clone, Copy, PartialEq, Eq, Debug)]
enum Found {
    /// The store, of this format.
    Kept,
    /// No table of its names; it made them.
    Made,
    /// The store of the older format; it raised it.
    Raised,
    /// Something else.
    Other,
    /// A database that failed.
    Failed,
}

// The owner whose store it is.
const OWNER: u16 = 7;

// What an open finds.
fn found_as<D: Design, S: Alter>(alloc: Global, conn: &mut Connection<S>) -> Option<Found> {
    if !conn.is_autocommit() {
        return None;
    }
    Some(match open_tables::<D, S>(alloc, conn, OWNER) {
        Ok(Some(Opened::Kept(_))) => Found::Kept,
        Ok(Some(Opened::Made(_))) => Found::Made,
        Ok(Some(Opened::Raised(_))) => Found::Raised,
        Ok(None) => Found::Other,
        Err(_) => Found::Failed,
    })
}

// The number that a question answers.
pub(crate) fn number<S: Alter>(conn: &mut Connection<S>, question: &str) -> Option<i64> {
    conn.query_row(question, &[]).ok()?.get(0).ok()
}

// A store of the first format, with three books, beside another table with a row.
fn old_store(alloc: Global) -> Option<Connection<MemStore>> {
    let mut conn = Connection::open_in_memory(alloc).ok()?;
    conn.execute_batch(
        "CREATE TABLE rider (name TEXT NOT NULL) STRICT; INSERT INTO rider (name) VALUES ('a')",
    ).ok()?;
    if found_as::<OldShelf, MemStore>(alloc, &mut conn)? != Found::Made {
        return None;
    }
    conn.execute_batch("INSERT INTO book (number) VALUES (1), (2), (3)")
        .ok()?;
    Some(conn)
}

#[test]
fn an_older_format_is_raised_and_keeps_its_rows(rt: HostRuntime) {
    const NUMBERS: [(&str, i64); 7] = [
        ("SELECT count(*) FROM book", 3),
        ("SELECT sum(number) FROM book", 6),
        ("SELECT count(*) FROM loan", 0),
        ("SELECT count(*) FROM rider", 1),
        ("SELECT count(*) FROM meta", 1),
        ("SELECT format FROM meta", 2),
        ("SELECT owner FROM meta", 7),
    ];
    let mut conn = old_store(rt.alloc()).expect(&rt, "a store of the first format");
    let alloc = rt.alloc();
    let opens = [
        found_as::<OldShelf, MemStore>(alloc, &mut conn),
        found_as::<Shelf, MemStore>(alloc, &mut conn),
        found_as::<Shelf, MemStore>(alloc, &mut conn),
        found_as::<OldShelf, MemStore>(alloc, &mut conn),
    ];
    let wanted = [Found::Kept, Found::Raised, Found::Kept, Found::Other].map(Some);
    same(&rt, &opens, &wanted);
    for &(question, answer) in &NUMBERS {
        same(
            &rt,
            &(question, number(&mut conn, question)),
            &(question, Some(answer)),
        );
    }
}

// What is found in a database, and whether it has as many tables, indexes and views then, and no row of the newest format.
fn found_there<S: Alter>(alloc: Global, conn: &mut Connection<S>) -> Option<(Found, bool)> {
    const OBJECTS: &str = "SELECT count(*) FROM sqlite_schema";
    const FORMATS: &str = "SELECT count(*) FROM meta WHERE format = 2";
    let before = number(conn, OBJECTS)?;
    let seen = found_as::<Shelf, S>(alloc, conn)?;
    let after = number(conn, OBJECTS)?;
    let raised = number(conn, FORMATS)?;
    Some((seen, after == before && raised == 0))
}

// The same of a store of the first format in which a statement was run.
fn changed(alloc: Global, statement: &str) -> Option<(Found, bool)> {
    let mut conn = old_store(alloc)?;
    conn.execute_batch(statement).ok()?;
    found_there(alloc, &mut conn)
}

#[test]
fn what_is_no_older_store_is_refused_and_stays(rt: HostRuntime) {
    const CHANGES: [&str; 8] = [
        "CREATE TABLE loan (number INTEGER NOT NULL, reader INTEGER NOT NULL) STRICT",
        "CREATE VIEW loan AS SELECT number FROM book",
        "CREATE INDEX loan ON book (number)",
        "UPDATE meta SET format = 9",
        "UPDATE meta SET owner = 8",
        "INSERT INTO meta (format, owner) VALUES (1, 7)",
        "DELETE FROM meta",
        "DROP TABLE book",
    ];
    for &change in &CHANGES {
        same(
            &rt,
            &(change, changed(rt.alloc(), change)),
            &(change, Some((Found::Other, true))),
        );
    }
}

/// How many steps were acknowledged before the disks failed (the store of the first format made, its books written,
/// the store raised), what an open then finds, and how many books.
type Stopped = (u64, Found, i64);

// How many steps are acknowledged until one fails.
fn steps<S: Alter>(alloc: Global, conn: &mut Connection<S>) -> Option<u64> {
    if found_as::<OldShelf, S>(alloc, conn)? != Found::Made {
        return Some(0);
    }
    if conn
        .execute_batch("INSERT INTO book (number) VALUES (1), (2)")
        .is_err()
    {
        return Some(1);
    }
    match found_as::<Shelf, S>(alloc, conn)? {
        Found::Raised => Some(3),
        Found::Failed => Some(2),
        _ => None,
    }
}

// A database whose disks fail, after the machine stopped and came back.
fn stopped<S: Alter + Reopen + Drop>(alloc: Global, conn: Connection<S>) -> Option<Stopped> {
    let mut conn = conn;
    let done = steps(alloc, &mut conn)?;
    let mut conn = reopened(alloc, conn)?;
    let seen = found_as::<Shelf, S>(alloc, &mut conn)?;
    let books = number(&mut conn, "SELECT count(*) FROM book")?;
    Some((done, seen, books))
}

// A store of the older format is made, and raised.
struct Raising;

impl Trial for Raising {
    type Seen = Stopped;

    fn run<S: Alter + Reopen + Drop>(&self, alloc: Global, conn: Connection<S>) -> Option<Stopped> {
        stopped(alloc, conn)
    }
}

// Whether an open finds what was acknowledged, and of the step that failed all or nothing.
fn is_whole(stop: Stopped) -> bool {
    match stop {
        (0, Found::Made | Found::Raised, 0) => true,
        (1, Found::Raised, 0 | 2) => true,
        (2, Found::Raised | Found::Kept, 2) => true,
        (3, Found::Kept, 2) => true,
        _ => false,
    }
}

// The disks fail at each of their calls in turn, from the first on until the store is raised.
#[test]
fn a_failure_at_any_call_of_a_raising_leaves_the_old_format_or_the_new(rt: HostRuntime) {
    let mut raised_halfway = false;
    let mut full = false;
    for calls in 0..1_000 {
        let stop = tried(rt.alloc(), calls, &Raising).expect(&rt, "a failing store");
        let Some(stop) = stop else {
            continue;
        };
        same(&rt, &(calls, is_whole(stop)), &(calls, true));
        if stop.0 == 3 {
            full = true;
            break;
        }
        if stop.0 == 2 {
            raised_halfway = true;
        }
    }
    same(&rt, &(raised_halfway, full), &(true, true));
}
