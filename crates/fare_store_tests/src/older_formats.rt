//! Stores of each older format, made by the definition of its tables, and what becomes of them where they are opened.
use crate::checking::same;
use crate::disks::{Trial, reopened, tried};
use crate::stores::{Answer, Asked, Call, Said, answer_to, ask};
use fare_ledger::{LedgerOpenFault, SqlLedger};
use fare_outbox::SqlOutbox;
use fare_record::{Day, OwnerId};
use fare_scheme::{DemoSize, Scheme};
use fare_store::Ledger;
use fare_tables::OpenFault;
use sqlite::{Alter, Connection, MemStore};
use sqlite_trees::store::Reopen;
use std::alloc::Global;

// An outbox of the first format, which has two taps of device 1.
const FIRST_OUTBOX: &str =
    "BEGIN; CREATE TABLE meta (format INTEGER NOT NULL, owner INTEGER NOT NULL) STRICT;
INSERT INTO meta VALUES (1, 0);
CREATE TABLE device (id INTEGER PRIMARY KEY, upto INTEGER NOT NULL CHECK (upto >= 0)) STRICT;
CREATE TABLE tap (owner INTEGER NOT NULL, device INTEGER NOT NULL, lane INTEGER NOT NULL,
  link INTEGER NOT NULL, product INTEGER NOT NULL, token INTEGER NOT NULL,
  moment INTEGER NOT NULL, day INTEGER NOT NULL,
  PRIMARY KEY (owner, device, lane), UNIQUE (device, link)) STRICT;
CREATE TABLE stated (owner INTEGER NOT NULL, device INTEGER NOT NULL, day INTEGER NOT NULL,
  total INTEGER NOT NULL, PRIMARY KEY (owner, device, day)) STRICT;
INSERT INTO device VALUES (1, 2); INSERT INTO stated VALUES (1, 1, 19723, 2);
INSERT INTO tap VALUES (1, 1, 1, 1, 1, 77, 1704100000, 19723), (1, 1, 2, 2, 1, 77, 1704100001, 19723);
COMMIT";

// A ledger of the first format, which has two taps of device 1 and their statement.
const FIRST_LEDGER: &str =
    "BEGIN; CREATE TABLE meta (format INTEGER NOT NULL, owner INTEGER NOT NULL) STRICT;
INSERT INTO meta VALUES (1, 1);
CREATE TABLE lane (device INTEGER PRIMARY KEY, taken INTEGER NOT NULL CHECK (taken >= 0),
  closed INTEGER NOT NULL CHECK (closed >= 0)) STRICT;
CREATE TABLE tap (device INTEGER NOT NULL, lane INTEGER NOT NULL, link INTEGER NOT NULL,
  product INTEGER NOT NULL, token INTEGER NOT NULL, moment INTEGER NOT NULL,
  day INTEGER NOT NULL, PRIMARY KEY (device, lane)) STRICT;
CREATE TABLE stated (device INTEGER NOT NULL, day INTEGER NOT NULL, total INTEGER NOT NULL,
  PRIMARY KEY (device, day)) STRICT;
INSERT INTO lane VALUES (1, 2, 0); INSERT INTO stated VALUES (1, 19723, 2);
INSERT INTO tap VALUES (1, 1, 1, 1, 77, 1704100000, 19723), (1, 2, 2, 1, 77, 1704100001, 19723);
COMMIT";

// The same of the second, whose lane isn't retired.
const SECOND_LEDGER: &str =
    "BEGIN; CREATE TABLE meta (format INTEGER NOT NULL, owner INTEGER NOT NULL) STRICT;
INSERT INTO meta VALUES (2, 1);
CREATE TABLE lane (device INTEGER PRIMARY KEY, taken INTEGER NOT NULL CHECK (taken >= 0),
  closed INTEGER NOT NULL CHECK (closed >= 0)) STRICT;
CREATE TABLE tap (device INTEGER NOT NULL, lane INTEGER NOT NULL, link INTEGER NOT NULL,
  product INTEGER NOT NULL, token INTEGER NOT NULL, moment INTEGER NOT NULL,
  day INTEGER NOT NULL, PRIMARY KEY (device, lane)) STRICT;
CREATE TABLE stated (device INTEGER NOT NULL, day INTEGER NOT NULL, total INTEGER NOT NULL,
  PRIMARY KEY (device, day)) STRICT;
CREATE TABLE retired (device INTEGER PRIMARY KEY) STRICT;
INSERT INTO lane VALUES (1, 2, 0); INSERT INTO stated VALUES (1, 19723, 2);
INSERT INTO tap VALUES (1, 1, 1, 1, 77, 1704100000, 19723), (1, 2, 2, 1, 77, 1704100001, 19723);
COMMIT";

// The same of the third, whose taps have routes.
const THIRD_LEDGER: &str =
    "BEGIN; CREATE TABLE meta (format INTEGER NOT NULL, owner INTEGER NOT NULL) STRICT;
INSERT INTO meta VALUES (3, 1);
CREATE TABLE lane (device INTEGER PRIMARY KEY, taken INTEGER NOT NULL CHECK (taken >= 0),
  closed INTEGER NOT NULL CHECK (closed >= 0)) STRICT;
CREATE TABLE tap (device INTEGER NOT NULL, lane INTEGER NOT NULL, link INTEGER NOT NULL,
  product INTEGER NOT NULL, token INTEGER NOT NULL, moment INTEGER NOT NULL,
  day INTEGER NOT NULL, PRIMARY KEY (device, lane)) STRICT;
CREATE TABLE stated (device INTEGER NOT NULL, day INTEGER NOT NULL, total INTEGER NOT NULL,
  PRIMARY KEY (device, day)) STRICT;
CREATE TABLE retired (device INTEGER PRIMARY KEY) STRICT;
CREATE TABLE tap2 (device INTEGER NOT NULL, lane INTEGER NOT NULL, link INTEGER NOT NULL,
  product INTEGER NOT NULL, token INTEGER NOT NULL, moment INTEGER NOT NULL,
  day INTEGER NOT NULL, route INTEGER NOT NULL, PRIMARY KEY (device, lane)) STRICT;
INSERT INTO lane VALUES (1, 2, 0); INSERT INTO stated VALUES (1, 19723, 2);
INSERT INTO tap2 VALUES (1, 1, 1, 1, 77, 1704100000, 19723, 7), (1, 2, 2, 1, 77, 1704100001, 19723, 0);
COMMIT";

// The format that a database says, and how many taps stand in the table of the older formats. No table is there where
// the disks failed before the store was made.
fn format_of<S: Alter>(conn: &mut Connection<S>) -> Option<(i64, i64)> {
    const TABLES: &str = "SELECT count(*) FROM sqlite_schema WHERE name = 'meta'";
    const FORMAT: &str = "SELECT format FROM meta";
    const TAPS: &str = "SELECT count(*) FROM tap";
    let tables: i64 = conn.query_row(TABLES, &[]).ok()?.get(0).ok()?;
    if tables == 0 {
        return Some((0, 0));
    }
    let format = conn.query_row(FORMAT, &[]).ok()?.get(0).ok()?;
    Some((format, conn.query_row(TAPS, &[]).ok()?.get(0).ok()?))
}

/// How a store of an older format ended whose disks may fail.
#[derive(Clone, Copy, PartialEq, Eq, Debug)]
enum Ended {
    /// Before it was made.
    Unmade,
    /// While it was opened, and it was of the older format, or of the newest, with all its rows.
    Stopped(i64),
    /// It was open, with all its rows.
    Opened,
}

// Whether an outbox has its two taps and their statement.
fn has_all<S: Alter + Drop>(outbox: SqlOutbox<S>) -> Option<bool> {
    const ALL: [(Asked, Said); 5] = [
        (Asked::Upto, Said::Number(Ok(2))),
        (Asked::NextRow(0), Said::Found(Ok(Some(1)))),
        (Asked::NextRow(1), Said::Found(Ok(Some(2)))),
        (Asked::NextRow(2), Said::Found(Ok(None))),
        (Asked::NextStatement(0), Said::Found(Ok(Some(2)))),
    ];
    let mut outbox = outbox;
    for (asked, want) in ALL {
        if ask(&mut outbox, asked)? != want {
            return Some(false);
        }
    }
    Some(true)
}

// Whether a ledger has its two taps and their statement.
fn lists_all<S: Alter + Drop>(ledger: SqlLedger<S>) -> Option<bool> {
    const ALL: [(Call, Answer); 3] = [
        (Call::Count, Answer::Number(Ok(2))),
        (Call::DayCount, Answer::Number(Ok(2))),
        (Call::Stated, Answer::Maybe(Ok(Some(2)))),
    ];
    let mut ledger = ledger;
    for (call, want) in ALL {
        if answer_to(&mut ledger, call)? != want {
            return Some(false);
        }
    }
    Some(true)
}

// Owner 1's ledger in a database, by the demonstration scheme.
fn ledger_in<S: Alter + Drop>(
    alloc: Global,
    conn: Connection<S>,
) -> Result<SqlLedger<S>, Option<(Connection<S>, LedgerOpenFault)>> {
    let Ok(scheme) = Scheme::demo(alloc, DemoSize::OneDevice, 4, 4, 4) else {
        return Err(None);
    };
    let Some(owner) = OwnerId::new(1) else {
        return Err(None);
    };
    match SqlLedger::open(alloc, &scheme, owner, conn) {
        Ok(ledger) => Ok(ledger),
        Err(refused) => Err(Some(refused)),
    }
}

// What is left of an older store after a failure: its format, where as many taps stand in the oldest table as that format
// has there.
fn left<S: Alter>(conn: &mut Connection<S>, older: (i64, i64), newest: i64) -> Option<i64> {
    let found = format_of(conn)?;
    let whole = found == older || found == (newest, 0);
    whole.then_some(found.0)
}

// How an outbox of the first format ended that failed while it was opened.
fn outbox_again<S: Alter + Reopen + Drop>(alloc: Global, conn: Connection<S>) -> Option<Ended> {
    let mut conn = reopened(alloc, conn)?;
    let format = left(&mut conn, (1, 2), 2)?;
    let outbox = SqlOutbox::open(alloc, conn).ok()?;
    has_all(outbox)?.then_some(Ended::Stopped(format))
}

// How an outbox of the first format ended.
fn outbox_ended<S: Alter + Reopen + Drop>(alloc: Global, conn: Connection<S>) -> Option<Ended> {
    let mut conn = conn;
    if conn.execute_batch(FIRST_OUTBOX).is_err() {
        return Some(Ended::Unmade);
    }
    match SqlOutbox::open(alloc, conn) {
        Ok(outbox) => has_all(outbox)?.then_some(Ended::Opened),
        Err((conn, OpenFault::Store)) => outbox_again(alloc, conn),
        Err(_) => None,
    }
}

// How a ledger of an older format ended that failed while it was opened.
fn ledger_again<S: Alter + Reopen + Drop>(
    alloc: Global,
    conn: Connection<S>,
    older: (i64, i64),
) -> Option<Ended> {
    let mut conn = reopened(alloc, conn)?;
    let format = left(&mut conn, older, 4)?;
    let ledger = ledger_in(alloc, conn).ok()?;
    lists_all(ledger)?.then_some(Ended::Stopped(format))
}

// How a ledger of a format ended that these statements make.
fn ledger_ended<S: Alter + Reopen + Drop>(
    alloc: Global,
    conn: Connection<S>,
    sql: &str,
    older: (i64, i64),
) -> Option<Ended> {
    let mut conn = conn;
    if conn.execute_batch(sql).is_err() {
        return Some(Ended::Unmade);
    }
    match ledger_in(alloc, conn) {
        Ok(ledger) => lists_all(ledger)?.then_some(Ended::Opened),
        Err(Some((conn, LedgerOpenFault::Store))) => ledger_again(alloc, conn, older),
        Err(_) => None,
    }
}

// The outbox of the first format is opened.
struct OlderOutbox;

impl Trial for OlderOutbox {
    type Seen = Ended;

    fn run<S: Alter + Reopen + Drop>(&self, alloc: Global, conn: Connection<S>) -> Option<Ended> {
        outbox_ended(alloc, conn)
    }
}

// A ledger of an older format is opened, which these statements make, with how many taps stand in the oldest table.
struct OlderLedger {
    sql: &'static str,
    older: (i64, i64),
}

impl Trial for OlderLedger {
    type Seen = Ended;

    fn run<S: Alter + Reopen + Drop>(&self, alloc: Global, conn: Connection<S>) -> Option<Ended> {
        ledger_ended(alloc, conn, self.sql, self.older)
    }
}

const FIRST: OlderLedger = OlderLedger {
    sql: FIRST_LEDGER,
    older: (1, 2),
};

const SECOND: OlderLedger = OlderLedger {
    sql: SECOND_LEDGER,
    older: (2, 2),
};

const THIRD: OlderLedger = OlderLedger {
    sql: THIRD_LEDGER,
    older: (3, 0),
};

// How the four ended, each in a database of its own, in disks that fail after so many calls.
fn ended_after(alloc: Global, calls: u64) -> Option<[Ended; 4]> {
    Some([
        tried(alloc, calls, &OlderOutbox)?.unwrap_or(Ended::Unmade),
        tried(alloc, calls, &FIRST)?.unwrap_or(Ended::Unmade),
        tried(alloc, calls, &SECOND)?.unwrap_or(Ended::Unmade),
        tried(alloc, calls, &THIRD)?.unwrap_or(Ended::Unmade),
    ])
}

// The disks fail at each of their calls in turn, from the first on until all four stores are open.
#[test]
fn a_failure_at_any_call_leaves_an_older_store_or_the_newest(rt: HostRuntime) {
    let mut stops = [0u64; 4];
    let mut whole = false;
    for calls in 0..1_000 {
        let ends = ended_after(rt.alloc(), calls).expect(&rt, "stores");
        for (place, end) in ends.iter().enumerate() {
            if matches!(end, Ended::Stopped(_)) && place < 4 {
                stops[place] = stops[place].saturating_add(1);
            }
        }
        if ends == [Ended::Opened; 4] {
            whole = true;
            break;
        }
    }
    let seen = stops.map(|count| count > 0);
    same(&rt, &(seen, whole), &([true; 4], true));
}

// What makes a ledger, or an outbox, of the newest format one of an older.
const TO_SECOND: &str = "INSERT INTO tap (rowid, device, lane, link, product, token, moment, day)
  SELECT rowid, device, lane, link, product, token, moment, day FROM tap2 ORDER BY rowid;
DROP TABLE tap2; DROP TABLE held; UPDATE meta SET format = 2";

const TO_THIRD: &str = "DROP TABLE held; UPDATE meta SET format = 3";

const TO_FIRST: &str = "INSERT INTO tap (rowid, device, lane, link, product, token, moment, day)
  SELECT rowid, device, lane, link, product, token, moment, day FROM tap2 ORDER BY rowid;
DROP TABLE tap2; DROP TABLE retired; DROP TABLE held; UPDATE meta SET format = 1";

const OUTBOX_TO_FIRST: &str =
    "INSERT INTO tap (rowid, owner, device, lane, link, product, token, moment, day)
  SELECT rowid, owner, device, lane, link, product, token, moment, day FROM tap2 ORDER BY rowid;
DROP TABLE tap2; UPDATE meta SET format = 1";

// How many taps a ledger has, how many of a day it lists, and the greatest of their routes.
fn told_by<L: Ledger>(ledger: &mut L) -> Option<(Answer, usize, u16)> {
    let day = Day::new(19_723)?;
    let taps = ledger.taps_between(day, day).ok()?;
    let mut greatest = 0;
    for tap in &taps {
        greatest = tap.tap().route().max(greatest);
    }
    Some((answer_to(ledger, Call::Count)?, taps.len(), greatest))
}

// What a ledger of 300 taps tells that was of an older format.
fn raised_ledger(alloc: Global, older: &str) -> Option<(Answer, usize, u16)> {
    let conn: Connection<MemStore> = Connection::open_in_memory(alloc).ok()?;
    let mut ledger = ledger_in(alloc, conn).ok()?;
    answer_to(&mut ledger, Call::TakeAll(300))?;
    let mut conn = ledger.into_connection();
    conn.execute_batch(older).ok()?;
    let mut ledger = ledger_in(alloc, conn).ok()?;
    told_by(&mut ledger)
}

// The same of an outbox: its greatest link, and the lane numbers of its first and its last row.
fn raised_outbox(alloc: Global) -> Option<[Said; 3]> {
    let conn: Connection<MemStore> = Connection::open_in_memory(alloc).ok()?;
    let mut outbox = SqlOutbox::open(alloc, conn).ok()?;
    ask(&mut outbox, Asked::StoreAll(300))?;
    let mut conn = outbox.into_connection();
    conn.execute_batch(OUTBOX_TO_FIRST).ok()?;
    let mut outbox = SqlOutbox::open(alloc, conn).ok()?;
    Some([
        ask(&mut outbox, Asked::Upto)?,
        ask(&mut outbox, Asked::NextRow(0))?,
        ask(&mut outbox, Asked::NextRow(299))?,
    ])
}

#[test]
fn many_taps_go_to_the_newest_format(rt: HostRuntime) {
    let all = Some((Answer::Number(Ok(300)), 300, 0));
    same(&rt, &raised_ledger(rt.alloc(), TO_FIRST), &all);
    same(&rt, &raised_ledger(rt.alloc(), TO_SECOND), &all);
    same(&rt, &raised_ledger(rt.alloc(), TO_THIRD), &all);
    let ends = [
        Said::Number(Ok(300)),
        Said::Found(Ok(Some(1))),
        Said::Found(Ok(Some(300))),
    ];
    same(&rt, &raised_outbox(rt.alloc()), &Some(ends));
}
