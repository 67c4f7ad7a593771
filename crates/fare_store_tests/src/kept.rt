use crate::checking::same;
use crate::disks::{Trial, reopened, tried};
use fare_kept::{kept_lists, open_kept};
use fare_lists::{List, lists_fit, read_lists, replace_lists};
use fare_outbox::{OutboxDesign, SqlOutbox};
use fare_store::Fault;
use sqlite::{Alter, Connection, MemStore};
use sqlite_trees::store::Reopen;
use std::alloc::Global;

/// The number that a question answers.
pub(crate) fn number<S: Alter>(conn: &mut Connection<S>, question: &str) -> Option<i64> {
    conn.query_row(question, &[]).ok()?.get(0).ok()
}

// The lists that the tables hold, where they can be told as numbers, of a database in which they stand or are made.
fn kept_in<S: Alter>(alloc: Global, conn: &mut Connection<S>) -> Option<Option<Vec<List>>> {
    if !conn.is_autocommit() {
        return None;
    }
    let Ok(Some(opened)) = open_kept::<OutboxDesign, S>(alloc, conn) else {
        return None;
    };
    let site = opened.into_site();
    let tables = kept_lists();
    read_lists(alloc, conn, &site, tables).ok()
}

// Puts these lists in their place, if they are as wide as the tables.
fn keep<S: Alter>(
    alloc: Global,
    conn: &mut Connection<S>,
    lists: &[List],
) -> Option<Result<(), Fault>> {
    let tables = kept_lists();
    if !conn.is_autocommit() || !lists_fit(tables, lists) {
        return None;
    }
    Some(replace_lists(alloc, conn, tables, lists))
}

// A list of so many rows of a table with so many columns. Its numbers are told by their places.
fn list(alloc: Global, columns: u32, rows: u32, salt: u32) -> Option<List> {
    let mut list = Vec::new(alloc);
    for row in 0..rows {
        let mut numbers = Vec::new(alloc);
        for column in 0..columns {
            let number = row.wrapping_mul(16).wrapping_add(column);
            numbers.push(number.wrapping_add(salt)).ok()?;
        }
        list.push(numbers).ok()?;
    }
    Some(list)
}

// Lists for all tables, as many rows each as the table of a largest scheme has, or at most so many.
fn lists(alloc: Global, salt: u32, most: u32) -> Option<Vec<List>> {
    const SIZES: [(u32, u32); 7] = [
        (2, 1),
        (1, 24),
        (2, 16),
        (1, 16),
        (2, 16),
        (6, 256),
        (3, 256),
    ];
    let mut lists = Vec::new(alloc);
    for &(columns, rows) in &SIZES {
        lists
            .push(list(alloc, columns, rows.min(most), salt)?)
            .ok()?;
    }
    Some(lists)
}

// What a database holds once it was opened, after lists were put there, after others were, and after the machine stopped.
fn kept_twice<S: Alter + Reopen + Drop>(
    alloc: Global,
    conn: Connection<S>,
    one: &[List],
    other: &[List],
) -> Option<[Option<Vec<List>>; 4]> {
    let mut conn = conn;
    let first = kept_in(alloc, &mut conn)?;
    keep(alloc, &mut conn, one)?.ok()?;
    let second = kept_in(alloc, &mut conn)?;
    keep(alloc, &mut conn, other)?.ok()?;
    let third = kept_in(alloc, &mut conn)?;
    let mut conn = reopened(alloc, conn)?;
    let fourth = kept_in(alloc, &mut conn)?;
    Some([first, second, third, fourth])
}

#[test]
fn lists_are_kept_and_replaced(rt: HostRuntime) {
    let alloc = rt.alloc();
    let one = lists(alloc, 0, 256).expect(&rt, "lists");
    let other = lists(alloc, 4_294_000_000, 256).expect(&rt, "lists");
    let conn = Connection::open_in_memory(alloc).ok();
    let conn = conn.expect(&rt, "a database");
    let kept = kept_twice::<MemStore>(alloc, conn, &one, &other).expect(&rt, "kept lists");
    let [first, second, third, fourth] = kept;
    let first = first.expect(&rt, "empty lists");
    same(
        &rt,
        &(first.len(), first.iter().all(Vec::is_empty)),
        &(7, true),
    );
    same(&rt, &second, &Some(one));
    same(&rt, &third, &fourth);
    same(&rt, &third, &Some(other));
}

// A database with an outbox, another table with a row, and kept lists.
fn beside(alloc: Global, lists: &[List]) -> Option<Connection<MemStore>> {
    let conn = Connection::open_in_memory(alloc).ok()?;
    let mut conn = SqlOutbox::open(alloc, conn).ok()?.into_connection();
    conn.execute_batch(
        "CREATE TABLE rider (name TEXT NOT NULL) STRICT; INSERT INTO rider (name) VALUES ('a')",
    ).ok()?;
    kept_in(alloc, &mut conn)?;
    keep(alloc, &mut conn, lists)?.ok()?;
    Some(conn)
}

#[test]
fn kept_lists_stand_beside_an_outbox_and_can_be_asked(rt: HostRuntime) {
    const NUMBERS: [(&str, i64); 8] = [
        ("SELECT count(*) FROM rider", 1),
        ("SELECT format FROM meta", 2),
        ("SELECT format FROM kept", 1),
        ("SELECT count(*) FROM kept_zone", 24),
        ("SELECT inbox - start FROM kept_scheme", 1),
        (
            "SELECT lane FROM kept_owner ORDER BY rowid DESC LIMIT 1",
            248,
        ),
        ("SELECT hop FROM kept_product WHERE rowid = 2", 28),
        ("SELECT sum(buffer - device) FROM kept_device", 512),
    ];
    let alloc = rt.alloc();
    let lists = lists(alloc, 7, 256).expect(&rt, "lists");
    let mut conn = beside(alloc, &lists).expect(&rt, "a database");
    for &(question, answer) in &NUMBERS {
        same(
            &rt,
            &(question, number(&mut conn, question)),
            &(question, Some(answer)),
        );
    }
    let outbox = SqlOutbox::open(alloc, conn).ok();
    let mut conn = outbox.expect(&rt, "an outbox").into_connection();
    same(&rt, &kept_in(alloc, &mut conn), &Some(Some(lists)));
}

// Whether the lists can't be told after a statement was run.
fn untold(alloc: Global, lists: &[List], statement: &str) -> Option<bool> {
    let mut conn = beside(alloc, lists)?;
    conn.execute_batch(statement).ok()?;
    Some(kept_in(alloc, &mut conn)?.is_none())
}

#[test]
fn cells_that_are_no_such_numbers_are_told_apart(rt: HostRuntime) {
    const STATEMENTS: [(&str, bool); 4] = [
        ("UPDATE kept_owner SET lane = -1 WHERE rowid = 16", true),
        ("UPDATE kept_product SET fare = 4294967296", true),
        ("UPDATE kept_product SET fare = 4294967295", false),
        ("DELETE FROM kept_device", false),
    ];
    let alloc = rt.alloc();
    let lists = lists(alloc, 7, 256).expect(&rt, "lists");
    for &(statement, want) in &STATEMENTS {
        same(
            &rt,
            &(statement, untold(alloc, &lists, statement)),
            &(statement, Some(want)),
        );
    }
}

/// What was done before the disks failed: nothing, the first lists put, the others too.
type Done = u64;

// How much is done until something fails.
fn done_in<S: Alter>(
    alloc: Global,
    conn: &mut Connection<S>,
    one: &[List],
    other: &[List],
) -> Done {
    if kept_in(alloc, conn).is_none() || keep(alloc, conn, one) != Some(Ok(())) {
        return 0;
    }
    if keep(alloc, conn, other) != Some(Ok(())) {
        return 1;
    }
    2
}

// How much was done in a database whose disks fail, and which lists are found then: none, the first (1), the others (2),
// or any (9).
fn stopped<S: Alter + Reopen + Drop>(
    alloc: Global,
    conn: Connection<S>,
    one: &[List],
    other: &[List],
) -> Option<(Done, u64)> {
    let mut conn = conn;
    let done = done_in(alloc, &mut conn, one, other);
    let mut conn = reopened(alloc, conn)?;
    let found = kept_in(alloc, &mut conn)??;
    if found.iter().all(Vec::is_empty) {
        return Some((done, 0));
    }
    if found.as_slice() == one {
        return Some((done, 1));
    }
    Some((done, if found.as_slice() == other { 2 } else { 9 }))
}

// Lists are put, and then others in their place.
#[derive(Drop)]
struct Replacing<'a> {
    one: &'a [List],
    other: &'a [List],
}

impl Trial for Replacing<'_> {
    type Seen = (Done, u64);

    fn run<S: Alter + Reopen + Drop>(
        &self,
        alloc: Global,
        conn: Connection<S>,
    ) -> Option<(Done, u64)> {
        stopped(alloc, conn, self.one, self.other)
    }
}

// The disks fail at each of their calls in turn, until all is done. The lists are then those before or those after.
#[test]
fn a_failure_at_any_call_leaves_the_old_lists_or_the_new(rt: HostRuntime) {
    let alloc = rt.alloc();
    let one = lists(alloc, 0, 40).expect(&rt, "lists");
    let other = lists(alloc, 9, 40).expect(&rt, "lists");
    let replacing = Replacing {
        one: &one,
        other: &other,
    };
    let mut halfway = false;
    let mut full = false;
    for calls in 0..2_000 {
        let stop = tried(alloc, calls, &replacing).expect(&rt, "a failing store");
        let Some((done, found)) = stop else {
            continue;
        };
        let kept = found == done || found == done.saturating_add(1);
        same(&rt, &(calls, kept), &(calls, true));
        halfway = halfway || done == 1;
        if done == 2 {
            full = true;
            break;
        }
    }
    same(&rt, &(halfway, full), &(true, true));
}
