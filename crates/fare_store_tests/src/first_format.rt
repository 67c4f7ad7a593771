//! A ledger of the first format, byte for byte as a program made it that knew no other, and what becomes of it.
use crate::checking::same;
use crate::disks::{Trial, reopened, tried_over};
use fare_ledger::SqlLedger;
use fare_lines::parse;
use fare_record::{Day, DeviceId, OwnerId};
use fare_scheme::Scheme;
use fare_store::Ledger;
use fare_trace::scheme_of;
use sqlite::{Alter, Connection};
use sqlite_disk::{Disk, Memory};
use sqlite_trees::store::Reopen;
use std::alloc::Global;

// The bytes of the file that are not 0, with where they stand. It is what the program left that served the validators
// of three devices: of device 1 two taps of day 19723 and their statement, of device 2 one tap, of device 3 three taps
// and their statement.
const RUNS: [(usize, &[u8]); 64] = [
    (
        0,
        b"SQLite format 3\0\x04\0\x02\x02\0@  \0\0\0\x02\0\0\0\x07",
    ),
    (43, b"\x02\0\0\0\x04"),
    (59, b"\x01"),
    (
        95,
        b"\x02\0.c\x01\x0d\0\0\0\x06\x01\x1b\0\x03\x9f\x02\xfa\x02\x08\x01\xe1\x01H\x01\x1b",
    ),
    (
        283,
        b"+\x06\x06\x17?\x19\x01\0indexsqlite_autoindex_stated_1stated\x07\x81\x16\x05\x07\x17\x19\x19\x01\x82\x07tablestat",
    ),
    (
        347,
        b"edstated\x06CREATE TABLE stated (device INTEGER NOT NULL, day INTEG",
    ),
    (
        411,
        b"ER NOT NULL, total INTEGER NOT NULL, PRIMARY KEY (device, day)) ",
    ),
    (
        475,
        b"STRICT%\x04\x06\x179\x13\x01\0indexsqlite_autoindex_tap_1tap\x05\x81o\x03\x07\x17\x13\x13\x01\x83Etabletapt",
    ),
    (
        539,
        b"ap\x04CREATE TABLE tap (device INTEGER NOT NULL, lane INTEGER NOT N",
    ),
    (
        603,
        b"ULL, link INTEGER NOT NULL, product INTEGER NOT NULL, token INTE",
    ),
    (
        667,
        b"GER NOT NULL, moment INTEGER NOT NULL, day INTEGER NOT NULL, PRI",
    ),
    (
        731,
        b"MARY KEY (device, lane)) STRICT\x81\"\x02\x07\x17\x15\x15\x01\x82'tablelanelane\x03CREATE TA",
    ),
    (
        795,
        b"BLE lane (device INTEGER PRIMARY KEY, taken INTEGER NOT NULL CHE",
    ),
    (
        859,
        b"CK (taken >= 0), closed INTEGER NOT NULL CHECK (closed >= 0)) ST",
    ),
    (
        923,
        b"RICT_\x01\x07\x17\x15\x15\x01\x81!tablemetameta\x02CREATE TABLE meta (format INTEGER NOT",
    ),
    (
        987,
        b" NULL, owner INTEGER NOT NULL) STRICT\x0d\0\0\0\x01\x03\xfb\0\x03\xfb",
    ),
    (
        2043,
        b"\x03\x01\x03\x09\x09\x0d\0\0\0\x03\x03\xec\0\x03\xf9\x03\xf3\x03\xec3\0\x04\0\x01\x01\0@  \0\0\0\x01\0\0\0\x01",
    ),
    (2091, b"\x01"),
    (2143, b"\x01\0.c\x01\x0d\0\0\0\x01\x03\x9f\0\x03\x9f"),
    (
        2975,
        b"_\x01\x07\x17\x15\x15\x01\x81!tablemetameta\x02CREATE TABLE meta (format INTEGER NOT NUL",
    ),
    (
        3039,
        b"L, owner INTE\x05\x03\x04\0\x01\x08\x03\x04\x02\x04\0\x09\x08\x05\x01\x04\0\x01\x08\x02\x0d\0\0\0\x06\x03\x90\0\x03\xef\x03\xdc\x03\xca\x03\xb8\x03\xa4\x03\x90\0@  \0\0\0\x01\0\0\0",
    ),
    (3103, b"\x01"),
    (3115, b"\x01"),
    (
        3167,
        b"\x01\0.c\x01\x0d\0\0\0\x02\x02\xfa\0\x03\x9f\x02\xfa",
    ),
    (
        3834,
        b"\x81\"\x02\x07\x17\x15\x15\x01\x82'tablelanelane\x03CREATE TABLE lane (device INTEGER PRIMAR",
    ),
    (
        3898,
        b"Y KEY, taken INTEGER NOT NULL CHECK (taken >= 0), closed INTEGER",
    ),
    (
        3962,
        b" NOT NULL CHECK (close\x12\x06\x08\x01\x01\x01\x09\x01\x04\x02\x03\x03\x03Me\x92\x80\xa0M\x0b\x12\x05\x08\x01\x01\x01\x09\x01\x04\x02\x03\x02\x02Me\x92\x80\xa0M\x0b\x10\x04",
    ),
    (
        4026,
        b"\x08\x01\x09\x09\x09\x01\x04\x02\x03Me\x92\x80\xa0M\x0b\x10\x03\x08\x01\x09\x09\x09\x01\x04\x02\x02Me\x92\x80\xa0M\x0b\x11\x02\x08\x09\x01\x01\x09\x01\x04\x02\x02\x02Me\x92\x80\xa0M\x0b\x0f\x01\x08\x09\x09\x09\x09\x01\x04\x02M",
    ),
    (
        4090,
        b"e\x92\x80\xa0M\x0b\n\0\0\0\x06\x03\xd6\0\x03\xfb\x03\xf4\x03\xed\x03\xe6\x03\xde\x03\xd6\0@  \0\0\0\x01\0\0\0\x01",
    ),
    (4139, b"\x01"),
    (
        4191,
        b"\x01\0.c\x01\x0d\0\0\0\x03\x02\x08\0\x03\x9f\x02\xfa\x02\x08",
    ),
    (
        4616,
        b"\x81o\x03\x07\x17\x13\x13\x01\x83Etabletaptap\x04CREATE TABLE tap (device INTEGER NOT NULL,",
    ),
    (
        4680,
        b" lane INTEGER NOT NULL, link INTEGER NOT NULL, product INTEGER N",
    ),
    (
        4744,
        b"OT NULL, token INTEGER NOT NULL, moment INTEGER NOT NULL, day IN",
    ),
    (
        4808,
        b"TEGER NOT NULL, PRIMARY KEY (device, lane)) STRICT\x81\"\x02\x07\x17\x15\x15\x01\x82'tabl",
    ),
    (
        4872,
        b"elanelane\x03CREATE TABLE lane (device INTEGER PRIMARY KEY, taken I",
    ),
    (
        4936,
        b"NTEGER NOT NULL CHECK (taken >= 0), closed INTEGER NOT NULL CHEC",
    ),
    (
        5000,
        b"K (closed >= 0)) STRICT_\x01\x07\x17\x15\x15\x01\x81!tablemetameta\x02CREATE TABLE meta ",
    ),
    (
        5064,
        b"(format INTEGE\x07\x04\x01\x01\x01\x03\x03\x06\x07\x04\x01\x01\x01\x03\x02\x05\x06\x04\x01\x09\x01\x03\x04\x06\x04\x01\x09\x01\x02\x03\x06\x04\x09\x01\x01\x02\x02\x04\x04\x09\x09\x09\x0d\0\0\0\x02\x03\xed\0",
    ),
    (
        5128,
        b"\x03\xf7\x03\xedt 3\0\x04\0\x01\x01\0@  \0\0\0\x01\0\0\0\x01",
    ),
    (5163, b"\x01"),
    (
        5215,
        b"\x01\0.c\x01\x0d\0\0\0\x04\x01\xe1\0\x03\x9f\x02\xfa\x02\x08\x01\xe1",
    ),
    (
        5601,
        b"%\x04\x06\x179\x13\x01\0indexsqlite_autoindex_tap_1tap\x05\x81o\x03\x07\x17\x13\x13\x01\x83Etabletaptap\x04CRE",
    ),
    (
        5665,
        b"ATE TABLE tap (device INTEGER NOT NULL, lane INTEGER NOT NULL, l",
    ),
    (
        5729,
        b"ink INTEGER NOT NULL, product INTEGER NOT NULL, token INTEGER NO",
    ),
    (
        5793,
        b"T NULL, moment INTEGER NOT NULL, day INTEGER NOT NULL, PRIMARY K",
    ),
    (
        5857,
        b"EY (device, lane)) STRICT\x81\"\x02\x07\x17\x15\x15\x01\x82'tablelanelane\x03CREATE TABLE la",
    ),
    (
        5921,
        b"ne (device INTEGER PRIMARY KEY, taken INTEGER NOT NULL CHECK (ta",
    ),
    (
        5985,
        b"ken >= 0), closed INTEGER NOT NULL CHECK (closed >= 0)) STRICT_\x01",
    ),
    (
        6049,
        b"\x07\x17\x15\x15\x01\x81!tablemetameta\x02CREATE TABLE meta (format INTEGER NOT NULL,",
    ),
    (
        6113,
        b" owner INTEG\x08\x02\x04\x01\x02\x01\x03M\x0b\x03\x07\x01\x04\x09\x02\x01M\x0b\x02\n\0\0\0\x02\x03\xf0\0\x03\xf9\x03\xf0t 3\0\x04\0\x01\x01\0@  \0\0\0\x01\0\0\0\x01",
    ),
    (6187, b"\x01"),
    (
        6239,
        b"\x01\0.c\x01\x0d\0\0\0\x05\x01H\0\x03\x9f\x02\xfa\x02\x08\x01\xe1\x01H",
    ),
    (
        6472,
        b"\x81\x16\x05\x07\x17\x19\x19\x01\x82\x07tablestatedstated\x06CREATE TABLE stated (device INTEGER ",
    ),
    (
        6536,
        b"NOT NULL, day INTEGER NOT NULL, total INTEGER NOT NULL, PRIMARY ",
    ),
    (
        6600,
        b"KEY (device, day)) STRICT%\x04\x06\x179\x13\x01\0indexsqlite_autoindex_tap_1tap\x05",
    ),
    (
        6664,
        b"\x81o\x03\x07\x17\x13\x13\x01\x83Etabletaptap\x04CREATE TABLE tap (device INTEGER NOT NULL,",
    ),
    (
        6728,
        b" lane INTEGER NOT NULL, link INTEGER NOT NULL, product INTEGER N",
    ),
    (
        6792,
        b"OT NULL, token INTEGER NOT NULL, moment INTEGER NOT NULL, day IN",
    ),
    (
        6856,
        b"TEGER NOT NULL, PRIMARY KEY (device, lane)) STRICT\x81\"\x02\x07\x17\x15\x15\x01\x82'tabl",
    ),
    (
        6920,
        b"elanelane\x03CREATE TABLE lane (device INTEGER PRIMARY KEY, taken I",
    ),
    (
        6984,
        b"NTEGER NOT NULL CHECK (taken >= 0), closed INTEGER NOT NULL CHEC",
    ),
    (
        7048,
        b"K (closed >= 0)) STRICT_\x01\x07\x17\x15\x15\x01\x81!tablemetameta\x02CREATE TABLE meta ",
    ),
    (
        7112,
        b"(format INTEGER NOT NULL, owner INTEGER \x08\x04\x01\x02\x01\x03M\x0b\x02\x06\x04\x09\x02\x09M\x0b",
    ),
];

// How long the file is.
const LENGTH: usize = 7_168;

// The day of the taps.
const DAY: u64 = 19_723;

// The file.
fn file(alloc: Global) -> Option<Memory> {
    let mut disk = Memory::new(alloc);
    if !disk.may_be_used() {
        return None;
    }
    disk.set_len(LENGTH).ok()?;
    for &(at, bytes) in &RUNS {
        if !disk.may_be_used() {
            return None;
        }
        disk.write_at(at, bytes).ok()?;
    }
    if !disk.may_be_used() {
        return None;
    }
    disk.sync().ok()?;
    Some(disk)
}

// The lines of the ledger's scheme.
const SCHEME: &[u8] = b"owner 1 64
operator 1
station 1 1
station 2 1
station 3 1
product 1 1 175
device 1 1 64
device 2 2 64
device 3 3 64
start 19723
zone GMT0BST,M3.5.0/1,M10.5.0
seal
";

// The scheme of the ledger.
fn scheme(alloc: Global) -> Option<Scheme> {
    scheme_of(alloc, &parse(alloc, SCHEME).ok()?).ok()
}

fn ledger_in<S: Alter + Drop>(
    alloc: Global,
    conn: Connection<S>,
) -> Result<SqlLedger<S>, Option<Connection<S>>> {
    let (Some(scheme), Some(owner)) = (scheme(alloc), OwnerId::new(1)) else {
        return Err(None);
    };
    match SqlLedger::open(alloc, &scheme, owner, conn) {
        Ok(ledger) => Ok(ledger),
        Err((conn, _)) => Err(Some(conn)),
    }
}

/// What a ledger tells of a device: how many taps it has taken, the stated count of their day, and whether its lane is
/// retired.
type Told = (u64, Option<u64>, bool);

fn told_of<L: Ledger>(ledger: &mut L, number: u64) -> Option<Told> {
    let device = DeviceId::new(number)?;
    let taken = ledger.count(device).ok()?;
    let stated = ledger.stated(device, Day::new(DAY)?).ok()?;
    Some((taken, stated, ledger.retired(device).ok()?))
}

// What it tells of the three devices, and how many taps of the day it lists, with the device and lane of the last.
fn listed<L: Ledger>(ledger: &mut L) -> Option<([Told; 3], usize, (u32, u64))> {
    let all = [
        told_of(ledger, 1)?,
        told_of(ledger, 2)?,
        told_of(ledger, 3)?,
    ];
    let day = Day::new(DAY)?;
    let taps = ledger.taps_between(day, day).ok()?;
    let last = taps.last()?;
    Some((all, taps.len(), (last.device().get(), last.lane())))
}

// The lists of the file, where the lane of device 2 is retired or not.
fn lists(retired: bool) -> ([Told; 3], usize, (u32, u64)) {
    let all = [(2, Some(2), false), (1, None, retired), (3, Some(3), false)];
    (all, 6, (3, 3))
}

// The format that a database says, and how many tables it has of the names that the first format lacks.
fn format_of<S: Alter>(conn: &mut Connection<S>) -> Option<(i64, i64)> {
    if !conn.is_autocommit() {
        return None;
    }
    let format = conn
        .query_row("SELECT format FROM meta", &[])
        .ok()?
        .get(0)
        .ok()?;
    let tables = conn
        .query_row(
            "SELECT count(*) FROM sqlite_schema WHERE name IN ('retired', 'tap2', 'held')",
            &[],
        )
        .ok()?
        .get(0)
        .ok()?;
    Some((format, tables))
}

/// How an open of the file ended whose disks may fail.
#[derive(Clone, Copy, PartialEq, Eq, Debug)]
enum Ended {
    /// Before its database was there.
    Unopened,
    /// In the midst, and all was there once the disks were back.
    Stopped,
    /// It was open, and all was there.
    Opened,
    /// The same, and its lane of device 2 was retired, and was so after the machine stopped and came back.
    Retired,
}

// How it went on behind the retiring of a lane, once the machine stopped and came back.
fn retired_again<S: Alter + Reopen + Drop>(alloc: Global, conn: Connection<S>) -> Option<Ended> {
    let mut conn = reopened(alloc, conn)?;
    if format_of(&mut conn)? != (4, 3) {
        return None;
    }
    let mut ledger = ledger_in(alloc, conn).ok()?;
    (listed(&mut ledger)? == lists(true)).then_some(Ended::Retired)
}

// How it went on with a ledger that is open.
fn retired<S: Alter + Reopen + Drop>(alloc: Global, ledger: SqlLedger<S>) -> Option<Ended> {
    let mut ledger = ledger;
    if listed(&mut ledger)? != lists(false) {
        return None;
    }
    if ledger.retire(DeviceId::new(2)?).is_err() {
        return Some(Ended::Opened);
    }
    retired_again(alloc, ledger.into_connection())
}

// How it went on behind a failure, if what is left is a ledger of one of the two formats with the same lists.
fn stopped<S: Alter + Reopen + Drop>(alloc: Global, conn: Connection<S>) -> Option<Ended> {
    let mut conn = reopened(alloc, conn)?;
    if !matches!(format_of(&mut conn)?, (1, 0) | (3, 2)) {
        return None;
    }
    let mut ledger = ledger_in(alloc, conn).ok()?;
    (listed(&mut ledger)? == lists(false)).then_some(Ended::Stopped)
}

// How an open of a database ended, if all was there.
fn course_of<S: Alter + Reopen + Drop>(alloc: Global, conn: Connection<S>) -> Option<Ended> {
    match ledger_in(alloc, conn) {
        Ok(ledger) => retired(alloc, ledger),
        Err(conn) => stopped(alloc, conn?),
    }
}

// The ledger is opened, and its lane of device 2 retired.
struct Opening;

impl Trial for Opening {
    type Seen = Ended;

    fn run<S: Alter + Reopen + Drop>(&self, alloc: Global, conn: Connection<S>) -> Option<Ended> {
        course_of(alloc, conn)
    }
}

// How an open of the file ended whose disks fail after so many calls.
fn ended_after(alloc: Global, calls: u64) -> Option<Ended> {
    let seen = tried_over(alloc, file(alloc)?, calls, &Opening)?;
    Some(seen.unwrap_or(Ended::Unopened))
}

#[test]
fn a_ledger_of_the_first_format_keeps_its_lists(rt: HostRuntime) {
    same(
        &rt,
        &ended_after(rt.alloc(), u64::MAX),
        &Some(Ended::Retired),
    );
}

// The disks fail at each of their calls in turn, from the first on until the lane is retired.
#[test]
fn a_failure_at_any_call_leaves_one_format_whole(rt: HostRuntime) {
    let (mut stops, mut opens) = (0_u64, 0_u64);
    let mut whole = false;
    for calls in 0..1_000 {
        match ended_after(rt.alloc(), calls).expect(&rt, "a ledger") {
            Ended::Unopened => {}
            Ended::Stopped => stops = stops.saturating_add(1),
            Ended::Opened => opens = opens.saturating_add(1),
            Ended::Retired => {
                whole = true;
                break;
            }
        }
    }
    same(&rt, &(stops > 0, opens > 0, whole), &(true, true, true));
}
