use crate::checking::same;
use crate::keeping::{keep, kept_text, said, taps, with_outbox};
use crate::kept::number;
use crate::texts::{GROWN, later_scheme, text_of};
use fare_trace::ZonedScheme;
use sqlite::{Alter, Connection, MemStore};
use std::alloc::Global;

// An outbox of the first format with a tap, byte for byte as a program made it that knew no other.
const OLD: &str = "CREATE TABLE meta (format INTEGER NOT NULL, owner INTEGER NOT NULL) STRICT;
INSERT INTO meta VALUES (1, 0);
CREATE TABLE device (id INTEGER PRIMARY KEY, upto INTEGER NOT NULL CHECK (upto >= 0)) STRICT;
CREATE TABLE tap (owner INTEGER NOT NULL, device INTEGER NOT NULL, lane INTEGER NOT NULL,
  link INTEGER NOT NULL, product INTEGER NOT NULL, token INTEGER NOT NULL,
  moment INTEGER NOT NULL, day INTEGER NOT NULL,
  PRIMARY KEY (owner, device, lane), UNIQUE (device, link)) STRICT;
CREATE TABLE stated (owner INTEGER NOT NULL, device INTEGER NOT NULL, day INTEGER NOT NULL,
  total INTEGER NOT NULL, PRIMARY KEY (owner, device, day)) STRICT;
INSERT INTO device VALUES (1, 2);
INSERT INTO tap VALUES (1, 1, 2, 2, 1, 77, 1704100000, 19723)";

// Another table with a row.
const RIDERS: &str =
    "CREATE TABLE rider (name TEXT NOT NULL) STRICT; INSERT INTO rider (name) VALUES ('a')";

// How many tables and indexes a database has.
const OBJECTS: &str = "SELECT count(*) FROM sqlite_schema";

// A database in memory in which these statements were run.
fn database(alloc: Global, sql: &str) -> Option<Connection<MemStore>> {
    let mut conn = Connection::open_in_memory(alloc).ok()?;
    conn.execute_batch(sql).ok()?;
    Some(conn)
}

// What is kept, as `said` tells it where it can't be asked.
fn told<S: Alter>(
    alloc: Global,
    conn: &mut Connection<S>,
) -> Option<Result<Option<Vec<u8>>, String>> {
    match kept_text(alloc, conn)? {
        Ok(kept) => Some(Ok(kept)),
        Err(fault) => Some(Err(said(alloc, Err(fault))?)),
    }
}

#[test]
fn nothing_is_kept_where_there_are_no_such_tables(rt: HostRuntime) {
    let alloc = rt.alloc();
    for sql in ["", RIDERS, OLD] {
        let mut conn = database(alloc, sql).expect(&rt, "a database");
        let before = number(&mut conn, OBJECTS);
        let kept = kept_text(alloc, &mut conn).expect(&rt, "a reading");
        same(&rt, &kept, &Ok(None));
        same(&rt, &number(&mut conn, OBJECTS), &before);
    }
}

// What keeping two schemes is answered, and how many taps the outbox has then.
fn kept_twice<S: Alter + Drop>(
    alloc: Global,
    conn: Connection<S>,
    first: &ZonedScheme,
    later: &ZonedScheme,
) -> Option<(Option<Vec<u8>>, i64, Option<Vec<u8>>)> {
    let mut conn = conn;
    keep(alloc, &mut conn, first).ok()?;
    keep(alloc, &mut conn, later).ok()?;
    let before = kept_text(alloc, &mut conn)?.ok()?;
    let (mut conn, taps) = taps(alloc, conn)?;
    let after = kept_text(alloc, &mut conn)?.ok()?;
    Some((before, taps, after))
}

// The outbox of the first format is raised when it is opened later, and has its tap; what is kept stays.
#[test]
fn schemes_are_kept_beside_an_outbox_of_the_first_format(rt: HostRuntime) {
    let alloc = rt.alloc();
    let first = later_scheme(alloc, &[]).expect(&rt, "a scheme");
    let later = later_scheme(alloc, GROWN).expect(&rt, "a later scheme");
    let conn = database(alloc, OLD).expect(&rt, "a database");
    let kept = kept_twice(alloc, conn, &first, &later);
    let (before, taps, after) = kept.expect(&rt, "kept schemes");
    same(&rt, &taps, &1);
    same(&rt, &before, &text_of(alloc, GROWN));
    same(&rt, &after, &before);
}

// An outbox that is made where a scheme is kept already stands beside it.
#[test]
fn an_outbox_is_made_beside_what_is_kept(rt: HostRuntime) {
    let alloc = rt.alloc();
    let first = later_scheme(alloc, &[]).expect(&rt, "a scheme");
    let later = later_scheme(alloc, GROWN).expect(&rt, "a later scheme");
    let conn = database(alloc, RIDERS).expect(&rt, "a database");
    let kept = kept_twice(alloc, conn, &first, &later);
    let (before, taps, after) = kept.expect(&rt, "kept schemes");
    same(&rt, &taps, &0);
    same(&rt, &before, &text_of(alloc, GROWN));
    same(&rt, &after, &before);
}

// Keeps the first scheme, and runs this statement then.
fn spoil<S: Alter>(
    alloc: Global,
    conn: &mut Connection<S>,
    first: &ZonedScheme,
    statement: &str,
) -> Option<()> {
    keep(alloc, conn, first).ok()?;
    conn.execute_batch(statement).ok()
}

// The first scheme kept in a database in memory beside an outbox with a tap, and this statement run then.
fn spoilt(alloc: Global, first: &ZonedScheme, statement: &str) -> Option<Connection<MemStore>> {
    let mut conn = with_outbox(alloc, database(alloc, "")?)?;
    spoil(alloc, &mut conn, first, statement)?;
    Some(conn)
}

// What keeping a scheme is answered, and how many taps the outbox has then.
fn answer_in<S: Alter + Drop>(
    alloc: Global,
    conn: Connection<S>,
    made: &ZonedScheme,
) -> Option<(String, i64)> {
    let mut conn = conn;
    let answer = keep(alloc, &mut conn, made);
    let (_, taps) = taps(alloc, conn)?;
    Some((said(alloc, answer)?, taps))
}

#[test]
fn what_tells_no_scheme_is_unreadable(rt: HostRuntime) {
    const CASES: [(&str, &str); 8] = [
        (
            "UPDATE kept_owner SET lane = -1",
            "refused SchemeUnreadable",
        ),
        (
            "UPDATE kept_owner SET lane = 4294967296",
            "refused SchemeUnreadable",
        ),
        ("UPDATE kept_owner SET lane = 0", "refused SchemeUnreadable"),
        (
            "UPDATE kept_station SET operator = 3",
            "refused SchemeUnreadable",
        ),
        ("DELETE FROM kept_device", "refused SchemeUnreadable"),
        ("DELETE FROM kept_scheme", "refused SchemeUnreadable"),
        (
            "UPDATE kept_zone SET byte = 200",
            "refused SchemeUnreadable",
        ),
        ("UPDATE kept_owner SET lane = 1024", "ok"),
    ];
    let alloc = rt.alloc();
    let first = later_scheme(alloc, &[]).expect(&rt, "a scheme");
    for &(statement, want) in &CASES {
        let conn = spoilt(alloc, &first, statement).expect(&rt, "a database");
        let (said, taps) = answer_in(alloc, conn, &first).expect(&rt, "an answer");
        same(
            &rt,
            &(statement, said.as_str(), taps),
            &(statement, want, 1),
        );
    }
}

// What is asked of the kept lines where cells were changed: lines that make no scheme are told too.
#[test]
fn what_is_no_lines_is_not_told(rt: HostRuntime) {
    const CASES: [(&str, bool); 4] = [
        ("UPDATE kept_owner SET lane = -1", false),
        ("UPDATE kept_owner SET owner = 65536", false),
        ("DELETE FROM kept_scheme", false),
        ("DELETE FROM kept_device", true),
    ];
    let alloc = rt.alloc();
    let first = later_scheme(alloc, &[]).expect(&rt, "a scheme");
    for &(statement, want) in &CASES {
        let mut conn = spoilt(alloc, &first, statement).expect(&rt, "a database");
        let told = told(alloc, &mut conn).expect(&rt, "a reading");
        let wanted = if want {
            Ok(text_of(alloc, &[(4, b"")]))
        } else {
            Err(format!(in alloc; "refused SchemeUnreadable").expect(&rt, "a text"))
        };
        same(&rt, &(statement, told), &(statement, wanted));
    }
}

#[test]
fn another_database_is_foreign_and_stays(rt: HostRuntime) {
    const CASES: [&str; 4] = [
        "CREATE TABLE kept_owner (a INTEGER NOT NULL) STRICT; INSERT INTO kept_owner VALUES (5)",
        "CREATE TABLE kept (a INTEGER NOT NULL) STRICT; INSERT INTO kept VALUES (5)",
        "CREATE TABLE a (b INTEGER); CREATE VIEW kept_zone AS SELECT 1",
        "CREATE TABLE a (b INTEGER); CREATE INDEX kept_device ON a (b)",
    ];
    let alloc = rt.alloc();
    let first = later_scheme(alloc, &[]).expect(&rt, "a scheme");
    for &sql in &CASES {
        let mut conn = database(alloc, sql).expect(&rt, "a database");
        let before = number(&mut conn, OBJECTS);
        let answer = keep(alloc, &mut conn, &first);
        let said = said(alloc, answer).expect(&rt, "its text");
        same(&rt, &(sql, said.as_str()), &(sql, "refused SchemeForeign"));
        same(&rt, &number(&mut conn, OBJECTS), &before);
        let kept = kept_text(alloc, &mut conn).expect(&rt, "a reading");
        same(&rt, &kept, &Ok(None));
    }
}

#[test]
fn half_the_tables_are_foreign(rt: HostRuntime) {
    let alloc = rt.alloc();
    let first = later_scheme(alloc, &[]).expect(&rt, "a scheme");
    for statement in [
        "DROP TABLE kept_device",
        "DELETE FROM kept",
        "UPDATE kept SET format = 2",
        "UPDATE kept SET owner = 1",
    ] {
        let conn = spoilt(alloc, &first, statement).expect(&rt, "a database");
        let (said, taps) = answer_in(alloc, conn, &first).expect(&rt, "an answer");
        same(
            &rt,
            &(statement, said.as_str(), taps),
            &(statement, "refused SchemeForeign", 1),
        );
    }
}
