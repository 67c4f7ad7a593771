use crate::checking::same;
use crate::raising::number;
use crate::stores::{
    Answer, Call, FORGETTING, FORGOTTEN_ALONE, RETIRED_ALONE, RETIRING, answer_to, ends_between,
};
use fare_ledger::{LedgerOpenFault, SqlLedger};
use fare_owner::{CloseFault, StatementFault, TapFault};
use fare_record::{Day, OwnerId};
use fare_scheme::{DemoSize, Scheme};
use fare_store::Refused::Because;
use fare_store::{Fault, Ledger, Refused};
use sqlite::{Connection, MemStore};
use std::alloc::Global;

// The tables of a ledger of the first format.
const TABLES: &str = "CREATE TABLE meta (format INTEGER NOT NULL, owner INTEGER NOT NULL) STRICT;
CREATE TABLE lane (device INTEGER PRIMARY KEY, taken INTEGER NOT NULL CHECK (taken >= 0),
  closed INTEGER NOT NULL CHECK (closed >= 0)) STRICT;
CREATE TABLE tap (device INTEGER NOT NULL, lane INTEGER NOT NULL, link INTEGER NOT NULL,
  product INTEGER NOT NULL, token INTEGER NOT NULL, moment INTEGER NOT NULL,
  day INTEGER NOT NULL, PRIMARY KEY (device, lane)) STRICT;
CREATE TABLE stated (device INTEGER NOT NULL, day INTEGER NOT NULL, total INTEGER NOT NULL,
  PRIMARY KEY (device, day)) STRICT;";

// The demonstration scheme, with one device and owner 1.
pub(crate) fn scheme(alloc: Global) -> Option<Scheme> {
    Scheme::demo(alloc, DemoSize::OneDevice, 4, 4, 4).ok()
}

// A database in memory in which these statements were run.
fn database(alloc: Global, sql: &[&str]) -> Option<Connection<MemStore>> {
    let mut conn = Connection::open_in_memory(alloc).ok()?;
    for text in sql {
        conn.execute_batch(*text).ok()?;
    }
    Some(conn)
}

pub(crate) fn ledger(alloc: Global, sql: &[&str]) -> Option<SqlLedger<MemStore>> {
    SqlLedger::open(
        alloc,
        &scheme(alloc)?,
        OwnerId::new(1)?,
        database(alloc, sql)?,
    )
    .ok()
}

// Why the database isn't opened for an owner, and what this question then answers.
fn refusal(
    alloc: Global,
    owner: u64,
    sql: &[&str],
    question: &str,
) -> Option<(LedgerOpenFault, i64)> {
    let (scheme, owner) = (scheme(alloc)?, OwnerId::new(owner)?);
    let (mut conn, fault) = SqlLedger::open(alloc, &scheme, owner, database(alloc, sql)?).err()?;
    Some((fault, number(&mut conn, question)?))
}

// Whether the ledger answers these calls so, one after the other.
fn says(ledger: &mut SqlLedger<MemStore>, calls: &[(Call, Answer)]) -> bool {
    for (call, want) in calls {
        if answer_to(ledger, *call) != Some(*want) {
            return false;
        }
    }
    true
}

#[test]
fn a_ledger_in_tables_takes_each_next_tap(rt: HostRuntime) {
    const CALLS: [(Call, Answer); 7] = [
        (Call::Empty, Answer::Holds(Ok(true))),
        (Call::Take(2), Answer::Taken(Err(Because(TapFault::Gap)))),
        (Call::TakeAll(300), Answer::Taken(Ok(()))),
        (
            Call::Take(300),
            Answer::Taken(Err(Because(TapFault::Duplicate))),
        ),
        (Call::Count, Answer::Number(Ok(300))),
        (Call::DayCount, Answer::Number(Ok(300))),
        (Call::Empty, Answer::Holds(Ok(false))),
    ];
    let mut ledger = ledger(rt.alloc(), &[]).expect(&rt, "ledger");
    same(&rt, &says(&mut ledger, &CALLS), &true);
    same(&rt, &Some(ledger.owner()), &OwnerId::new(1));
}

#[test]
fn a_ledger_in_tables_closes_a_day_where_the_counts_agree(rt: HostRuntime) {
    const SHORT: CloseFault = CloseFault::CountsShort {
        stated: 1,
        taken: 0,
    };
    const REPEATED: Answer = Answer::Stated(Err(Because(StatementFault::Repeated)));
    const CONFLICT: Answer = Answer::Stated(Err(Because(StatementFault::Conflict)));
    const CALLS: [(Call, Answer); 14] = [
        (
            Call::Close,
            Answer::Closed(Err(Because(CloseFault::Unstated))),
        ),
        (Call::State(1), Answer::Stated(Ok(()))),
        (Call::Stated, Answer::Maybe(Ok(Some(1)))),
        (Call::State(1), REPEATED),
        (Call::State(2), CONFLICT),
        (Call::Empty, Answer::Holds(Ok(false))),
        (Call::Close, Answer::Closed(Err(Because(SHORT)))),
        (Call::ClosedThrough, Answer::Maybe(Ok(None))),
        (Call::Take(1), Answer::Taken(Ok(()))),
        (Call::Close, Answer::Closed(Ok(()))),
        (Call::ClosedThrough, Answer::Maybe(Ok(Some(19_723)))),
        (
            Call::Take(2),
            Answer::Taken(Err(Because(TapFault::AfterClose))),
        ),
        (
            Call::Close,
            Answer::Closed(Err(Because(CloseFault::AlreadyClosed))),
        ),
        (Call::Count, Answer::Number(Ok(1))),
    ];
    let mut ledger = ledger(rt.alloc(), &[]).expect(&rt, "ledger");
    same(&rt, &says(&mut ledger, &CALLS), &true);
}

// The first and the last lane number of the taps of some days, in their order, and how many these are.
fn between(alloc: Global, from: u64, to: u64) -> Option<(Option<u64>, Option<u64>, usize)> {
    let mut ledger = ledger(alloc, &[])?;
    answer_to(&mut ledger, Call::TakeAll(3))?;
    ends_between(&mut ledger, from, to)
}

#[test]
fn a_ledger_in_tables_orders_the_taps_of_some_days(rt: HostRuntime) {
    const CASES: [((u64, u64), (Option<u64>, Option<u64>, usize)); 3] = [
        ((19_723, 19_723), (Some(3), Some(1), 3)),
        ((19_724, 19_730), (None, None, 0)),
        ((19_724, 19_723), (None, None, 0)),
    ];
    for &((from, to), want) in &CASES {
        same(&rt, &between(rt.alloc(), from, to), &Some(want));
    }
}

#[test]
fn a_ledger_takes_its_own_tables(rt: HostRuntime) {
    const CALLS: [(Call, Answer); 6] = [
        (Call::Count, Answer::Number(Ok(2))),
        (Call::DayCount, Answer::Number(Ok(1))),
        (Call::ClosedThrough, Answer::Maybe(Ok(Some(19_723)))),
        (Call::Stated, Answer::Maybe(Ok(Some(1)))),
        (
            Call::Close,
            Answer::Closed(Err(Because(CloseFault::AlreadyClosed))),
        ),
        (
            Call::Take(3),
            Answer::Taken(Err(Because(TapFault::AfterClose))),
        ),
    ];
    const CASES: [&[&str]; 4] = [
        &[META, OTHERS, ROWS],
        &[META, OTHERS, RETIRED, SECOND, ROWS],
        &[META, OTHERS, RETIRED, ROUTED, THIRD, ROUTED_ROWS],
        &[META, OTHERS, RETIRED, ROUTED, HELD, NEWEST, ROUTED_ROWS],
    ];
    for &sql in &CASES {
        let mut ledger = ledger(rt.alloc(), sql).expect(&rt, "ledger");
        same(&rt, &says(&mut ledger, &CALLS), &true);
    }
}

// The routes of the first and the last tap of a ledger.
fn routes_of<L: Ledger>(ledger: &mut L) -> Option<(u16, u16)> {
    let (from, to) = (Day::new(19_723)?, Day::new(19_724)?);
    let taps = ledger.taps_between(from, to).ok()?;
    Some((taps.first()?.tap().route(), taps.last()?.tap().route()))
}

// The same of the ledger that these statements make.
fn routes(alloc: Global, sql: &[&str]) -> Option<(u16, u16)> {
    let mut ledger = ledger(alloc, sql)?;
    routes_of(&mut ledger)
}

#[test]
fn a_ledger_in_tables_keeps_routes(rt: HostRuntime) {
    const CASES: [(&[&str], (u16, u16)); 4] = [
        (&[META, OTHERS, ROWS], (0, 0)),
        (&[META, OTHERS, RETIRED, SECOND, ROWS], (0, 0)),
        (&[META, OTHERS, RETIRED, ROUTED, THIRD, ROUTED_ROWS], (7, 0)),
        (
            &[META, OTHERS, RETIRED, ROUTED, HELD, NEWEST, ROUTED_ROWS],
            (7, 0),
        ),
    ];
    for &(sql, want) in &CASES {
        same(&rt, &routes(rt.alloc(), sql), &Some(want));
    }
}

// The same tables, each made by one text.
const META: &str = "CREATE TABLE meta (format INTEGER NOT NULL, owner INTEGER NOT NULL) STRICT;
INSERT INTO meta VALUES (1, 1);";

// All but `meta`, the last one first.
const OTHERS: &str = "CREATE TABLE stated (device INTEGER NOT NULL, day INTEGER NOT NULL,
  total INTEGER NOT NULL, PRIMARY KEY (device, day)) STRICT;
CREATE TABLE tap (device INTEGER NOT NULL, lane INTEGER NOT NULL, link INTEGER NOT NULL,
  product INTEGER NOT NULL, token INTEGER NOT NULL, moment INTEGER NOT NULL,
  day INTEGER NOT NULL, PRIMARY KEY (device, lane)) STRICT;
CREATE TABLE lane (device INTEGER PRIMARY KEY, taken INTEGER NOT NULL CHECK (taken >= 0),
  closed INTEGER NOT NULL CHECK (closed >= 0)) STRICT;";

// The table that the second format has besides, and its number.
const RETIRED: &str = "CREATE TABLE retired (device INTEGER PRIMARY KEY) STRICT;";

const SECOND: &str = "UPDATE meta SET format = 2";

// The one that the third has besides, and its number.
const ROUTED: &str = "CREATE TABLE tap2 (device INTEGER NOT NULL, lane INTEGER NOT NULL,
  link INTEGER NOT NULL, product INTEGER NOT NULL, token INTEGER NOT NULL,
  moment INTEGER NOT NULL, day INTEGER NOT NULL, route INTEGER NOT NULL,
  PRIMARY KEY (device, lane)) STRICT;";

const THIRD: &str = "UPDATE meta SET format = 3";

// The one that the newest has besides, and its number.
const HELD: &str = "CREATE TABLE held (device INTEGER PRIMARY KEY,
  since INTEGER NOT NULL CHECK (since >= 0)) STRICT;";

const NEWEST: &str = "UPDATE meta SET format = 4";

// Two taps of the older formats, of device 1, whose first day is closed.
const ROWS: &str = "INSERT INTO lane VALUES (1, 2, 1); INSERT INTO stated VALUES (1, 19723, 1);
INSERT INTO tap VALUES (1, 1, 1, 1, 77, 1704100000, 19723), (1, 2, 2, 1, 77, 1704186400, 19724)";

// The same in the third and the newest, the first on route 7.
const ROUTED_ROWS: &str =
    "INSERT INTO lane VALUES (1, 2, 1); INSERT INTO stated VALUES (1, 19723, 1);
INSERT INTO tap2 VALUES (1, 1, 1, 1, 77, 1704100000, 19723, 7), (1, 2, 2, 1, 77, 1704186400, 19724, 0)";

// Other tables, with an index, a view, a count of rows and a reference among themselves.
const RIDERS: &str =
    "CREATE TABLE rider (id INTEGER PRIMARY KEY AUTOINCREMENT, name TEXT NOT NULL UNIQUE);
CREATE TABLE pass (rider INTEGER NOT NULL REFERENCES rider (id), day INTEGER);
CREATE INDEX pass_day ON pass (day);
CREATE VIEW names AS SELECT name FROM rider;
INSERT INTO rider (name) VALUES ('a'), ('b'); INSERT INTO pass VALUES (1, 5), (2, 6);";

#[test]
fn a_ledger_opens_wherever_its_tables_stand(rt: HostRuntime) {
    const CALLS: [(Call, Answer); 7] = [
        (Call::Empty, Answer::Holds(Ok(true))),
        (Call::TakeAll(3), Answer::Taken(Ok(()))),
        (
            Call::Take(3),
            Answer::Taken(Err(Because(TapFault::Duplicate))),
        ),
        (Call::State(3), Answer::Stated(Ok(()))),
        (Call::Close, Answer::Closed(Ok(()))),
        (Call::ClosedThrough, Answer::Maybe(Ok(Some(19_723)))),
        (Call::Count, Answer::Number(Ok(3))),
    ];
    const CASES: [&[&str]; 15] = [
        &[OTHERS, META, RETIRED, ROUTED, HELD, NEWEST],
        &[HELD, ROUTED, RETIRED, META, OTHERS, NEWEST],
        &[META, ROUTED, RIDERS, RETIRED, HELD, OTHERS, NEWEST],
        &[OTHERS, META, RETIRED, ROUTED, THIRD],
        &[ROUTED, RETIRED, META, OTHERS, THIRD],
        &[META, ROUTED, RIDERS, RETIRED, OTHERS, THIRD],
        &[OTHERS, META, RETIRED, SECOND],
        &[RETIRED, META, OTHERS, SECOND],
        &[META, RETIRED, RIDERS, OTHERS, SECOND],
        &[OTHERS, META],
        &[META, OTHERS],
        &[RIDERS],
        &[RIDERS, META, OTHERS],
        &[META, RIDERS, OTHERS],
        &[OTHERS, META, RIDERS],
    ];
    for &sql in &CASES {
        let mut ledger = ledger(rt.alloc(), sql).expect(&rt, "ledger");
        same(&rt, &says(&mut ledger, &CALLS), &true);
    }
}

#[test]
fn a_row_past_its_limits_fails_a_ledger(rt: HostRuntime) {
    const CALLS: [(Call, Answer); 4] = [
        (Call::Count, Answer::Number(Err(Fault::Store))),
        (Call::ClosedThrough, Answer::Maybe(Err(Fault::Store))),
        (Call::Stated, Answer::Maybe(Err(Fault::Store))),
        (
            Call::Take(1),
            Answer::Taken(Err(Refused::Failed(Fault::Store))),
        ),
    ];
    let rows = "INSERT INTO meta VALUES (1, 1); INSERT INTO lane VALUES (1, 1099511627776, 0);
INSERT INTO stated VALUES (1, 19723, 1099511627776)";
    let mut ledger = ledger(rt.alloc(), &[TABLES, rows]).expect(&rt, "ledger");
    same(&rt, &says(&mut ledger, &CALLS), &true);
}

#[test]
fn another_database_is_foreign_to_a_ledger_and_stays(rt: HostRuntime) {
    const OTHER: &str = "CREATE TABLE tap (a INTEGER NOT NULL) STRICT; INSERT INTO tap VALUES (5)";
    const WHOLE: &str =
        "CREATE TABLE meta (format INTEGER NOT NULL, owner INTEGER NOT NULL) STRICT";
    const TAPS: &str = "SELECT count(*) FROM tap";
    const METAS: &str = "SELECT count(*) + 10 * coalesce(sum(format), 0) FROM meta";
    const CHILD: &str = "CREATE TABLE child (d INTEGER, l INTEGER,
FOREIGN KEY (d, l) REFERENCES tap (device, lane) ON DELETE CASCADE)";
    const BY_ROWID: &str = "CREATE UNIQUE INDEX again ON lane (device)";
    const VIEW: &str = "CREATE VIEW retired AS SELECT 1";
    const INDEX: &str = "CREATE INDEX retired ON tap (day)";
    const TAP: &str = "INSERT INTO tap VALUES (1, 1, 1, 1, 77, 1704100000, 19723)";
    const VIEW_2: &str = "CREATE VIEW tap2 AS SELECT 1";
    const VIEW_3: &str = "CREATE VIEW held AS SELECT 1";
    const CASES: [(&[&str], &str, i64); 25] = [
        (&[META, OTHERS, RETIRED], METAS, 11),
        (&[META, OTHERS, ROUTED], METAS, 11),
        (&[META, OTHERS, VIEW_2], METAS, 11),
        (&[META, OTHERS, RETIRED, ROUTED, SECOND], METAS, 21),
        (&[META, OTHERS, RETIRED, THIRD], METAS, 31),
        (&[META, OTHERS, RETIRED, ROUTED, HELD, THIRD], METAS, 31),
        (&[META, OTHERS, RETIRED, ROUTED, VIEW_3, THIRD], METAS, 31),
        (&[META, OTHERS, RETIRED, ROUTED, THIRD, TAP], METAS, 31),
        (&[META, OTHERS, RETIRED, ROUTED, NEWEST], METAS, 41),
        (
            &[META, OTHERS, RETIRED, ROUTED, HELD, NEWEST, TAP],
            METAS,
            41,
        ),
        (&[META, OTHERS, RETIRED, SECOND, CHILD], METAS, 21),
        (&[META, OTHERS, VIEW], METAS, 11),
        (&[META, OTHERS, INDEX], METAS, 11),
        (&[TABLES, "INSERT INTO meta VALUES (2, 1)"], METAS, 21),
        (&[TABLES, "INSERT INTO meta VALUES (9, 1)"], METAS, 91),
        (&[TABLES, "INSERT INTO meta VALUES (1, 0)"], METAS, 11),
        (&[TABLES, "INSERT INTO meta VALUES (1, 2)"], METAS, 11),
        (
            &[TABLES, "INSERT INTO meta VALUES (1, 1), (1, 1)"],
            METAS,
            22,
        ),
        (&[TABLES], METAS, 0),
        (
            &[TABLES, "INSERT INTO meta VALUES (1, 1); DROP TABLE stated"],
            METAS,
            11,
        ),
        (&[OTHER], TAPS, 1),
        (&[WHOLE, OTHER], TAPS, 1),
        (&[RIDERS, "CREATE VIEW stated AS SELECT 1"], "SELECT 1", 1),
        (&[META, OTHERS, CHILD], METAS, 11),
        (&[META, OTHERS, BY_ROWID], METAS, 11),
    ];
    for &(sql, question, rows) in &CASES {
        same(
            &rt,
            &refusal(rt.alloc(), 1, sql, question),
            &Some((LedgerOpenFault::Foreign, rows)),
        );
    }
}

#[test]
fn a_ledger_in_tables_is_of_an_owner_of_the_scheme(rt: HostRuntime) {
    let tables = "SELECT count(*) FROM sqlite_schema";
    same(
        &rt,
        &refusal(rt.alloc(), 9, &[], tables),
        &Some((LedgerOpenFault::UnknownOwner, 0)),
    );
    let ours = "INSERT INTO meta VALUES (1, 1)";
    same(
        &rt,
        &refusal(rt.alloc(), 9, &[TABLES, ours], "SELECT owner FROM meta"),
        &Some((LedgerOpenFault::UnknownOwner, 1)),
    );
}

#[test]
fn a_ledger_in_tables_takes_nothing_more_of_a_retired_lane(rt: HostRuntime) {
    for sql in [&[] as &[&str], &[META, OTHERS], &[RIDERS]] {
        let mut retiring = ledger(rt.alloc(), sql).expect(&rt, "ledger");
        same(&rt, &says(&mut retiring, &RETIRING), &true);
        let mut alone = ledger(rt.alloc(), sql).expect(&rt, "ledger");
        same(&rt, &says(&mut alone, &RETIRED_ALONE), &true);
    }
}

#[test]
fn a_ledger_in_tables_lets_closed_days_go(rt: HostRuntime) {
    for sql in [&[] as &[&str], &[META, OTHERS], &[RIDERS]] {
        let mut forgetting = ledger(rt.alloc(), sql).expect(&rt, "ledger");
        same(&rt, &says(&mut forgetting, &FORGETTING), &true);
        let mut alone = ledger(rt.alloc(), sql).expect(&rt, "ledger");
        same(&rt, &says(&mut alone, &FORGOTTEN_ALONE), &true);
    }
}

// What the database of a ledger answers to a question once the ledger was open.
fn left(alloc: Global, sql: &[&str], question: &str) -> Option<i64> {
    let mut conn = ledger(alloc, sql)?.into_connection();
    conn.query_row(question, &[]).ok()?.get(0).ok()
}

// A ledger of an older format gets the tables and the number of the newest, and its taps stand in the one of taps with
// routes, by the numbers that they had; what stands beside it stays.
#[test]
fn a_ledger_of_an_older_format_is_raised(rt: HostRuntime) {
    const FORMAT: &str = "SELECT format * 10 + owner FROM meta";
    const LANES: &str = "SELECT count(*) FROM retired";
    const BESIDE: &str = "SELECT count(*) FROM names";
    const LEFT: &str = "SELECT count(*) FROM tap";
    const TAPS: &str = "SELECT count(*) + 10 * sum(rowid) + 100 * sum(route) FROM tap2";
    const HELDS: &str = "SELECT count(*) FROM held";
    const CASES: [(&[&str], &str, i64); 16] = [
        (&[], FORMAT, 41),
        (&[], HELDS, 0),
        (&[META, OTHERS, RETIRED, ROUTED, THIRD], FORMAT, 41),
        (&[META, OTHERS, RETIRED, ROUTED, THIRD], HELDS, 0),
        (
            &[META, OTHERS, RETIRED, ROUTED, THIRD, ROUTED_ROWS],
            TAPS,
            732,
        ),
        (&[META, OTHERS], FORMAT, 41),
        (&[META, OTHERS], HELDS, 0),
        (&[META, OTHERS], LANES, 0),
        (&[META, OTHERS, ROWS], LEFT, 0),
        (&[META, OTHERS, ROWS], TAPS, 32),
        (&[META, OTHERS, RETIRED, SECOND], FORMAT, 41),
        (&[META, OTHERS, RETIRED, SECOND, ROWS], LEFT, 0),
        (&[META, OTHERS, RETIRED, SECOND, ROWS], TAPS, 32),
        (&[OTHERS, RIDERS, META], FORMAT, 41),
        (&[OTHERS, RIDERS, META], BESIDE, 2),
        (&[RIDERS], BESIDE, 2),
    ];
    for &(sql, question, answer) in &CASES {
        same(&rt, &left(rt.alloc(), sql, question), &Some(answer));
    }
}
