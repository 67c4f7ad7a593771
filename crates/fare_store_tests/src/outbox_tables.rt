use crate::checking::same;
use crate::raising::number;
use crate::stores::{Asked, FORGETS, Said, ask, forgets_one_lane, says};
use fare_outbox::SqlOutbox;
use fare_record::{DeviceId, OwnerId};
use fare_store::Refused::Because;
use fare_store::{Fault, Outbox, StatedFault, StoreFault};
use fare_tables::OpenFault;
use sqlite::{Connection, MemStore};
use std::alloc::Global;

// The tables of an outbox, and the row that says so.
const TABLES: &str = "CREATE TABLE meta (format INTEGER NOT NULL, owner INTEGER NOT NULL) STRICT;
CREATE TABLE device (id INTEGER PRIMARY KEY, upto INTEGER NOT NULL CHECK (upto >= 0)) STRICT;
CREATE TABLE tap (owner INTEGER NOT NULL, device INTEGER NOT NULL, lane INTEGER NOT NULL,
  link INTEGER NOT NULL, product INTEGER NOT NULL, token INTEGER NOT NULL,
  moment INTEGER NOT NULL, day INTEGER NOT NULL,
  PRIMARY KEY (owner, device, lane), UNIQUE (device, link)) STRICT;
CREATE TABLE stated (owner INTEGER NOT NULL, device INTEGER NOT NULL, day INTEGER NOT NULL,
  total INTEGER NOT NULL, PRIMARY KEY (owner, device, day)) STRICT;";

// A database in memory in which these statements were run.
fn database(alloc: Global, sql: &[&str]) -> Option<Connection<MemStore>> {
    let mut conn = Connection::open_in_memory(alloc).ok()?;
    for text in sql {
        conn.execute_batch(*text).ok()?;
    }
    Some(conn)
}

pub(crate) fn outbox(alloc: Global, sql: &[&str]) -> Option<SqlOutbox<MemStore>> {
    SqlOutbox::open(alloc, database(alloc, sql)?).ok()
}

// Why the database isn't opened, and what this question then answers.
fn refusal(alloc: Global, sql: &[&str], question: &str) -> Option<(OpenFault, i64)> {
    let (mut conn, fault) = SqlOutbox::open(alloc, database(alloc, sql)?).err()?;
    Some((fault, number(&mut conn, question)?))
}

#[test]
fn an_outbox_in_tables_stores_each_next_tap(rt: HostRuntime) {
    const CALLS: [(Asked, Said); 18] = [
        (Asked::Empty, Said::Empty(Ok(true))),
        (Asked::Upto, Said::Number(Ok(0))),
        (Asked::StoreAll(300), Said::Stored(Ok(()))),
        (Asked::Upto, Said::Number(Ok(300))),
        (Asked::Empty, Said::Empty(Ok(false))),
        (
            Asked::Store(300, 301),
            Said::Stored(Err(Because(StoreFault::Duplicate))),
        ),
        (
            Asked::Store(302, 301),
            Said::Stored(Err(Because(StoreFault::Gap))),
        ),
        (
            Asked::Store(301, 300),
            Said::Stored(Err(Because(StoreFault::Conflict))),
        ),
        (Asked::Store(301, 303), Said::Stored(Ok(()))),
        (Asked::NextRow(0), Said::Found(Ok(Some(1)))),
        (Asked::NextRow(300), Said::Found(Ok(Some(303)))),
        (Asked::NextRow(303), Said::Found(Ok(None))),
        (Asked::NextRow(u64::MAX), Said::Found(Ok(None))),
        (Asked::Prune(302), Said::Number(Ok(300))),
        (Asked::NextRow(0), Said::Found(Ok(Some(303)))),
        (Asked::Prune(u64::MAX), Said::Number(Ok(1))),
        (Asked::Empty, Said::Empty(Ok(false))),
        (Asked::Upto, Said::Number(Ok(301))),
    ];
    let mut outbox = outbox(rt.alloc(), &[]).expect(&rt, "outbox");
    says(&rt, &mut outbox, &CALLS);
}

#[test]
fn an_outbox_in_tables_removes_statements_of_earlier_days(rt: HostRuntime) {
    let alloc = rt.alloc();
    let mut tables = outbox(alloc, &[]).expect(&rt, "outbox");
    says(&rt, &mut tables, &FORGETS);
    let mut other = outbox(alloc, &[]).expect(&rt, "another outbox");
    forgets_one_lane(&rt, &mut other);
}

#[test]
fn an_outbox_in_tables_holds_a_statement_once(rt: HostRuntime) {
    const CALLS: [(Asked, Said); 6] = [
        (Asked::State(3), Said::Stated(Ok(()))),
        (
            Asked::State(3),
            Said::Stated(Err(Because(StatedFault::Duplicate))),
        ),
        (
            Asked::State(4),
            Said::Stated(Err(Because(StatedFault::Conflict))),
        ),
        (Asked::NextStatement(0), Said::Found(Ok(Some(3)))),
        (Asked::NextStatement(19_724), Said::Found(Ok(None))),
        (Asked::Empty, Said::Empty(Ok(false))),
    ];
    let mut outbox = outbox(rt.alloc(), &[]).expect(&rt, "outbox");
    says(&rt, &mut outbox, &CALLS);
}

#[test]
fn an_outbox_takes_its_own_tables(rt: HostRuntime) {
    const CALLS: [(Asked, Said); 4] = [
        (Asked::Upto, Said::Number(Ok(2))),
        (Asked::NextRow(0), Said::Found(Ok(Some(2)))),
        (Asked::Store(3, 3), Said::Stored(Ok(()))),
        (Asked::Prune(3), Said::Number(Ok(2))),
    ];
    const CASES: [&[&str]; 2] = [
        &[META, OTHERS, ROWS],
        &[META, OTHERS, ROUTED, NEWEST, ROUTED_ROWS],
    ];
    for &sql in &CASES {
        let mut outbox = outbox(rt.alloc(), sql).expect(&rt, "outbox");
        says(&rt, &mut outbox, &CALLS);
    }
}

// The route of the first row that an outbox has.
fn route(alloc: Global, sql: &[&str]) -> Option<u16> {
    let mut outbox = outbox(alloc, sql)?;
    let row = outbox
        .next_row(OwnerId::new(1)?, DeviceId::new(1)?, 0)
        .ok()??;
    Some(row.tap().route())
}

#[test]
fn an_outbox_in_tables_keeps_routes(rt: HostRuntime) {
    same(&rt, &route(rt.alloc(), &[META, OTHERS, ROWS]), &Some(0));
    let routed = [META, OTHERS, ROUTED, NEWEST, ROUTED_ROWS];
    same(&rt, &route(rt.alloc(), &routed), &Some(7));
}

// Its taps and statements are counted when it opens, whatever else its tables say.
#[test]
fn an_outbox_of_one_row_is_not_empty(rt: HostRuntime) {
    const CALLS: [(Asked, Said); 1] = [(Asked::Empty, Said::Empty(Ok(false)))];
    let made = "INSERT INTO meta VALUES (1, 0)";
    for row in [
        "INSERT INTO tap VALUES (1, 1, 2, 2, 1, 77, 1704100000, 19723)",
        "INSERT INTO stated VALUES (1, 1, 19723, 3)",
    ] {
        let mut outbox = outbox(rt.alloc(), &[TABLES, made, row]).expect(&rt, "outbox");
        says(&rt, &mut outbox, &CALLS);
    }
}

#[test]
fn a_row_past_its_limits_is_a_failure(rt: HostRuntime) {
    const CALLS: [(Asked, Said); 3] = [
        (Asked::Upto, Said::Number(Err(Fault::Store))),
        (Asked::NextRow(0), Said::Found(Err(Fault::Store))),
        (Asked::NextStatement(0), Said::Found(Err(Fault::Store))),
    ];
    let rows = "INSERT INTO meta VALUES (1, 0); INSERT INTO device VALUES (1, 1099511627776);
INSERT INTO tap VALUES (1, 1, 2, 2, 1, 0, 1704100000, 19723); INSERT INTO stated VALUES (1, 1, 100001, 3)";
    let mut outbox = outbox(rt.alloc(), &[TABLES, rows]).expect(&rt, "outbox");
    says(&rt, &mut outbox, &CALLS);
}

// The same tables, each made by one text.
const META: &str = "CREATE TABLE meta (format INTEGER NOT NULL, owner INTEGER NOT NULL) STRICT;
INSERT INTO meta VALUES (1, 0);";

// All but `meta`, the last one first.
const OTHERS: &str = "CREATE TABLE stated (owner INTEGER NOT NULL, device INTEGER NOT NULL,
  day INTEGER NOT NULL, total INTEGER NOT NULL, PRIMARY KEY (owner, device, day)) STRICT;
CREATE TABLE tap (owner INTEGER NOT NULL, device INTEGER NOT NULL, lane INTEGER NOT NULL,
  link INTEGER NOT NULL, product INTEGER NOT NULL, token INTEGER NOT NULL,
  moment INTEGER NOT NULL, day INTEGER NOT NULL,
  PRIMARY KEY (owner, device, lane), UNIQUE (device, link)) STRICT;
CREATE TABLE device (id INTEGER PRIMARY KEY, upto INTEGER NOT NULL CHECK (upto >= 0)) STRICT;";

// The table that the newest format has besides, and its number.
const ROUTED: &str = "CREATE TABLE tap2 (owner INTEGER NOT NULL, device INTEGER NOT NULL,
  lane INTEGER NOT NULL, link INTEGER NOT NULL, product INTEGER NOT NULL, token INTEGER NOT NULL,
  moment INTEGER NOT NULL, day INTEGER NOT NULL, route INTEGER NOT NULL,
  PRIMARY KEY (owner, device, lane), UNIQUE (device, link)) STRICT;";

const NEWEST: &str = "UPDATE meta SET format = 2";

// A tap of the first format, and the same on route 7 in the newest.
const ROWS: &str = "INSERT INTO device VALUES (1, 2);
INSERT INTO tap VALUES (1, 1, 2, 2, 1, 77, 1704100000, 19723)";

const ROUTED_ROWS: &str = "INSERT INTO device VALUES (1, 2);
INSERT INTO tap2 VALUES (1, 1, 2, 2, 1, 77, 1704100000, 19723, 7)";

// Other tables, with an index, a view, a count of rows and a reference among themselves.
const RIDERS: &str =
    "CREATE TABLE rider (id INTEGER PRIMARY KEY AUTOINCREMENT, name TEXT NOT NULL UNIQUE);
CREATE TABLE pass (rider INTEGER NOT NULL REFERENCES rider (id), day INTEGER);
CREATE INDEX pass_day ON pass (day);
CREATE VIEW names AS SELECT name FROM rider;
INSERT INTO rider (name) VALUES ('a'), ('b'); INSERT INTO pass VALUES (1, 5), (2, 6);";

#[test]
fn an_outbox_opens_wherever_its_tables_stand(rt: HostRuntime) {
    const CALLS: [(Asked, Said); 8] = [
        (Asked::Empty, Said::Empty(Ok(true))),
        (Asked::StoreAll(3), Said::Stored(Ok(()))),
        (Asked::Upto, Said::Number(Ok(3))),
        (Asked::NextRow(1), Said::Found(Ok(Some(2)))),
        (Asked::Prune(2), Said::Number(Ok(2))),
        (Asked::NextRow(0), Said::Found(Ok(Some(3)))),
        (Asked::State(3), Said::Stated(Ok(()))),
        (Asked::NextStatement(0), Said::Found(Ok(Some(3)))),
    ];
    const CASES: [&[&str]; 9] = [
        &[OTHERS, META, ROUTED, NEWEST],
        &[ROUTED, META, OTHERS, NEWEST],
        &[META, RIDERS, ROUTED, OTHERS, NEWEST],
        &[OTHERS, META],
        &[META, OTHERS],
        &[RIDERS],
        &[RIDERS, META, OTHERS],
        &[META, RIDERS, OTHERS],
        &[OTHERS, META, RIDERS],
    ];
    for &sql in &CASES {
        let mut outbox = outbox(rt.alloc(), sql).expect(&rt, "outbox");
        says(&rt, &mut outbox, &CALLS);
    }
}

// What is left of the other tables where an outbox was made beside them, and what it says opened again.
fn beside(alloc: Global) -> Option<(i64, Said)> {
    let mut first = outbox(alloc, &[RIDERS])?;
    ask(&mut first, Asked::StoreAll(3))?;
    let mut conn = first.into_connection();
    let others = number(&mut conn, "SELECT sum(day) FROM pass")?;
    let mut again = SqlOutbox::open(alloc, conn).ok()?;
    Some((others, ask(&mut again, Asked::Upto)?))
}

#[test]
fn other_tables_stay_beside_an_outbox(rt: HostRuntime) {
    same(&rt, &beside(rt.alloc()), &Some((11, Said::Number(Ok(3)))));
}

#[test]
fn another_database_is_foreign_and_stays(rt: HostRuntime) {
    const OTHER: &str = "CREATE TABLE tap (a INTEGER NOT NULL) STRICT; INSERT INTO tap VALUES (5)";
    const WHOLE: &str =
        "CREATE TABLE meta (format INTEGER NOT NULL, owner INTEGER NOT NULL) STRICT";
    const TAPS: &str = "SELECT count(*) FROM tap";
    const METAS: &str = "SELECT count(*) + 10 * coalesce(sum(format), 0) FROM meta";
    const CHILD: &str = "CREATE TABLE child (o INTEGER, d INTEGER, l INTEGER,
FOREIGN KEY (o, d, l) REFERENCES tap (owner, device, lane) ON DELETE CASCADE)";
    const BY_ROWID: &str = "CREATE UNIQUE INDEX again ON device (id)";
    const VIEW: &str = "CREATE VIEW tap2 AS SELECT 1";
    const INDEX: &str = "CREATE INDEX tap2 ON tap (day)";
    const CASES: [(&[&str], &str, i64); 17] = [
        (&[META, OTHERS, ROUTED], METAS, 11),
        (&[META, OTHERS, VIEW], METAS, 11),
        (&[META, OTHERS, INDEX], METAS, 11),
        (&[META, OTHERS, NEWEST], METAS, 21),
        (&[META, OTHERS, ROUTED, NEWEST, ROWS], METAS, 21),
        (&[META, OTHERS, ROUTED, NEWEST, CHILD], METAS, 21),
        (&[TABLES, "INSERT INTO meta VALUES (9, 0)"], METAS, 91),
        (&[TABLES, "INSERT INTO meta VALUES (1, 3)"], METAS, 11),
        (
            &[TABLES, "INSERT INTO meta VALUES (1, 0), (1, 0)"],
            METAS,
            22,
        ),
        (&[TABLES], METAS, 0),
        (
            &[TABLES, "INSERT INTO meta VALUES (1, 0); DROP TABLE stated"],
            METAS,
            11,
        ),
        (&[OTHER], TAPS, 1),
        (&[WHOLE, OTHER], TAPS, 1),
        (&[RIDERS, OTHER], TAPS, 1),
        (&[RIDERS, "CREATE VIEW stated AS SELECT 1"], "SELECT 1", 1),
        (&[META, OTHERS, CHILD], METAS, 11),
        (&[META, OTHERS, BY_ROWID], METAS, 11),
    ];
    for &(sql, question, rows) in &CASES {
        same(
            &rt,
            &refusal(rt.alloc(), sql, question),
            &Some((OpenFault::Foreign, rows)),
        );
    }
}

// What the database of an outbox answers to a question once the outbox was open.
fn left(alloc: Global, sql: &[&str], question: &str) -> Option<i64> {
    let mut conn = outbox(alloc, sql)?.into_connection();
    conn.query_row(question, &[]).ok()?.get(0).ok()
}

// An outbox of the first format gets the table and the number of the newest, and its taps stand in that table, by the
// numbers that they had; what stands beside it stays.
#[test]
fn an_outbox_of_the_first_format_is_raised(rt: HostRuntime) {
    const FORMAT: &str = "SELECT format * 10 + owner FROM meta";
    const LEFT: &str = "SELECT count(*) FROM tap";
    const TAPS: &str = "SELECT count(*) + 10 * sum(rowid) + 100 * sum(route) FROM tap2";
    const BESIDE: &str = "SELECT count(*) FROM names";
    const CASES: [(&[&str], &str, i64); 6] = [
        (&[], FORMAT, 20),
        (&[META, OTHERS], FORMAT, 20),
        (&[META, OTHERS, ROWS], LEFT, 0),
        (&[META, OTHERS, ROWS], TAPS, 11),
        (&[OTHERS, RIDERS, META, ROWS], FORMAT, 20),
        (&[OTHERS, RIDERS, META, ROWS], BESIDE, 2),
    ];
    for &(sql, question, answer) in &CASES {
        same(&rt, &left(rt.alloc(), sql, question), &Some(answer));
    }
}
