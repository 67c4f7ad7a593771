use fare_layout::TableNumber;
use fare_opening::{DEVICE, META, META_TABLE, PUT_META, READ_META, SET_META, STATED, TAP};

/// The table of the retired lanes, which no other store has.
pub(crate) const RETIRED: TableNumber = TableNumber { number: 4 };

/// The table of the taps, each with its route. `TAP`, where older formats have them, holds no row.
pub(crate) const ROUTED: TableNumber = TableNumber { number: 5 };

/// The table of the days from which on all of a device is held.
pub(crate) const SINCE: TableNumber = TableNumber { number: 6 };

// The texts that make the tables behind that of `meta`, each with the name of its table.
const LANE_TABLE: (&str, &str) = (
    "lane",
    "CREATE TABLE lane (device INTEGER PRIMARY KEY, taken INTEGER NOT NULL CHECK (taken >= 0), closed INTEGER NOT NULL CHECK (closed >= 0)) STRICT",
);

const TAP_TABLE: (&str, &str) = (
    "tap",
    "CREATE TABLE tap (device INTEGER NOT NULL, lane INTEGER NOT NULL, link INTEGER NOT NULL, product INTEGER NOT NULL, token INTEGER NOT NULL, moment INTEGER NOT NULL, day INTEGER NOT NULL, PRIMARY KEY (device, lane)) STRICT",
);

const STATED_TABLE: (&str, &str) = (
    "stated",
    "CREATE TABLE stated (device INTEGER NOT NULL, day INTEGER NOT NULL, total INTEGER NOT NULL, PRIMARY KEY (device, day)) STRICT",
);

const RETIRED_TABLE: (&str, &str) = (
    "retired",
    "CREATE TABLE retired (device INTEGER PRIMARY KEY) STRICT",
);

const ROUTED_TABLE: (&str, &str) = (
    "tap2",
    "CREATE TABLE tap2 (device INTEGER NOT NULL, lane INTEGER NOT NULL, link INTEGER NOT NULL, product INTEGER NOT NULL, token INTEGER NOT NULL, moment INTEGER NOT NULL, day INTEGER NOT NULL, route INTEGER NOT NULL, PRIMARY KEY (device, lane)) STRICT",
);

const HELD_TABLE: (&str, &str) = (
    "held",
    "CREATE TABLE held (device INTEGER PRIMARY KEY, since INTEGER NOT NULL CHECK (since >= 0)) STRICT",
);

/// The texts that make the tables, each with the name of its table.
pub(crate) const TABLES: [(&str, &str); 7] = [
    META_TABLE,
    LANE_TABLE,
    TAP_TABLE,
    STATED_TABLE,
    RETIRED_TABLE,
    ROUTED_TABLE,
    HELD_TABLE,
];

/// Those that make the tables of the first format.
pub(crate) const FIRST_TABLES: [(&str, &str); 4] = [
    META_TABLE,
    LANE_TABLE,
    TAP_TABLE,
    STATED_TABLE,
];

/// Those that make the tables which it lacks.
pub(crate) const FIRST_MISSING: [(&str, &str); 3] = [RETIRED_TABLE, ROUTED_TABLE, HELD_TABLE];

/// Those that make the tables of the second format.
pub(crate) const SECOND_TABLES: [(&str, &str); 5] = [
    META_TABLE,
    LANE_TABLE,
    TAP_TABLE,
    STATED_TABLE,
    RETIRED_TABLE,
];

/// Those that make the tables which it lacks.
pub(crate) const SECOND_MISSING: [(&str, &str); 2] = [ROUTED_TABLE, HELD_TABLE];

/// Those that make the tables of the third format.
pub(crate) const THIRD_TABLES: [(&str, &str); 6] = [
    META_TABLE,
    LANE_TABLE,
    TAP_TABLE,
    STATED_TABLE,
    RETIRED_TABLE,
    ROUTED_TABLE,
];

/// The one that makes the table which it lacks.
pub(crate) const THIRD_MISSING: [(&str, &str); 1] = [HELD_TABLE];

/// How many taps of a device are taken, and how many of its days closed.
pub(crate) const READ_LANE: &str = "SELECT taken, closed FROM lane WHERE device = ?1";

/// The stated count of a day.
pub(crate) const READ_STATED: &str = "SELECT total FROM stated WHERE device = ?1 AND day = ?2";

/// How many taps of a device are of a day.
pub(crate) const COUNT_DAY: &str = "SELECT count(*) FROM tap2 WHERE device = ?1 AND day = ?2";

/// The taps of the days from one to another, by day, moment, device and lane number.
pub(crate) const READ_BETWEEN: &str =
    "SELECT device, lane, link, product, token, moment, day, route FROM tap2 WHERE day >= ?1 AND day <= ?2 ORDER BY day, moment, device, lane";

/// How many devices have a tap taken or a day closed.
pub(crate) const COUNT_BEGUN: &str = "SELECT count(*) FROM lane WHERE taken > 0 OR closed > 0";

/// How many devices have all held only from a later day than day 0 on.
pub(crate) const COUNT_LATER: &str = "SELECT count(*) FROM held WHERE since > 0";

/// How many statements there are.
pub(crate) const COUNT_STATEMENTS: &str = "SELECT count(*) FROM stated";

/// A device's numbers.
pub(crate) const PUT_LANE: &str =
    "INSERT INTO lane (device, taken, closed) VALUES (?1, ?2, ?3) ON CONFLICT (device) DO UPDATE SET taken = excluded.taken, closed = excluded.closed";

/// A tap.
pub(crate) const PUT_TAP: &str =
    "INSERT INTO tap2 (device, lane, link, product, token, moment, day, route) VALUES (?1, ?2, ?3, ?4, ?5, ?6, ?7, ?8)";

/// A statement.
pub(crate) const PUT_STATED: &str = "INSERT INTO stated (device, day, total) VALUES (?1, ?2, ?3)";

/// How many rows say that a device's lane is retired: one or none.
pub(crate) const COUNT_RETIRED: &str = "SELECT count(*) FROM retired WHERE device = ?1";

/// A retired lane.
pub(crate) const PUT_RETIRED: &str = "INSERT INTO retired (device) VALUES (?1)";

/// How many lanes are retired.
pub(crate) const COUNT_ALL_RETIRED: &str = "SELECT count(*) FROM retired";

/// How many rows the table has in which older formats have the taps: none in the newest and in the third.
pub(crate) const COUNT_UNUSED: &str = "SELECT count(*) FROM tap";

/// The taps of an older format, each with its row's number.
pub(crate) const READ_OLDER: &str =
    "SELECT rowid, device, lane, link, product, token, moment, day FROM tap ORDER BY rowid";

/// A tap of an older format, with a row's number and a route.
pub(crate) const PUT_OLDER: &str =
    "INSERT INTO tap2 (rowid, device, lane, link, product, token, moment, day, route) VALUES (?1, ?2, ?3, ?4, ?5, ?6, ?7, ?8, ?9)";

/// No tap is left where older formats have them.
pub(crate) const CLEAR_OLDER: &str = "DELETE FROM tap";

/// The day from which on all of a device is held.
pub(crate) const READ_SINCE: &str = "SELECT since FROM held WHERE device = ?1";

/// All of a device is held from this day on.
pub(crate) const PUT_SINCE: &str =
    "INSERT INTO held (device, since) VALUES (?1, ?2) ON CONFLICT (device) DO UPDATE SET since = excluded.since";

/// The least lane number of a device's taps of a day or a later one.
pub(crate) const READ_KEPT: &str =
    "SELECT lane FROM tap2 WHERE device = ?1 AND day >= ?2 ORDER BY lane LIMIT 1";

/// A device's taps up to a lane number go.
pub(crate) const CUT_TAPS: &str = "DELETE FROM tap2 WHERE device = ?1 AND lane <= ?2";

/// A device's statements of the days before one go.
pub(crate) const CUT_STATED: &str = "DELETE FROM stated WHERE device = ?1 AND day < ?2";

/// All statements of a ledger, each with its table: `DEVICE` is `lane` here.
pub(crate) const TEXTS: [(TableNumber, &str); 24] = [
    (DEVICE, READ_LANE),
    (STATED, READ_STATED),
    (ROUTED, COUNT_DAY),
    (ROUTED, READ_BETWEEN),
    (DEVICE, COUNT_BEGUN),
    (SINCE, COUNT_LATER),
    (STATED, COUNT_STATEMENTS),
    (META, READ_META),
    (META, PUT_META),
    (META, SET_META),
    (DEVICE, PUT_LANE),
    (ROUTED, PUT_TAP),
    (STATED, PUT_STATED),
    (RETIRED, COUNT_RETIRED),
    (RETIRED, PUT_RETIRED),
    (RETIRED, COUNT_ALL_RETIRED),
    (TAP, COUNT_UNUSED),
    (ROUTED, PUT_OLDER),
    (TAP, CLEAR_OLDER),
    (SINCE, READ_SINCE),
    (SINCE, PUT_SINCE),
    (ROUTED, READ_KEPT),
    (ROUTED, CUT_TAPS),
    (STATED, CUT_STATED),
];

/// Those that an open needs of a ledger of an older format that has the taps in `TAP`.
pub(crate) const OLDER_TEXTS: [(TableNumber, &str); 4] = [
    (META, READ_META),
    (META, PUT_META),
    (META, SET_META),
    (TAP, READ_OLDER),
];

/// Those that it needs of a ledger of the third format.
pub(crate) const THIRD_TEXTS: [(TableNumber, &str); 4] = [
    (META, READ_META),
    (META, PUT_META),
    (META, SET_META),
    (TAP, COUNT_UNUSED),
];
