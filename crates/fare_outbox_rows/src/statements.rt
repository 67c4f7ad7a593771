use fare_layout::TableNumber;
use fare_opening::{DEVICE, META, META_TABLE, PUT_META, READ_META, SET_META, STATED, TAP};

/// The table of the taps, each with its route. `TAP`, where the first format has them, holds no row.
pub const ROUTED: TableNumber = TableNumber { number: 4 };

// The texts that make the tables behind that of `meta`, each with the name of its table.
const DEVICE_TABLE: (&str, &str) = (
    "device",
    "CREATE TABLE device (id INTEGER PRIMARY KEY, upto INTEGER NOT NULL CHECK (upto >= 0)) STRICT",
);

const TAP_TABLE: (&str, &str) = (
    "tap",
    "CREATE TABLE tap (owner INTEGER NOT NULL, device INTEGER NOT NULL, lane INTEGER NOT NULL, link INTEGER NOT NULL, product INTEGER NOT NULL, token INTEGER NOT NULL, moment INTEGER NOT NULL, day INTEGER NOT NULL, PRIMARY KEY (owner, device, lane), UNIQUE (device, link)) STRICT",
);

const STATED_TABLE: (&str, &str) = (
    "stated",
    "CREATE TABLE stated (owner INTEGER NOT NULL, device INTEGER NOT NULL, day INTEGER NOT NULL, total INTEGER NOT NULL, PRIMARY KEY (owner, device, day)) STRICT",
);

const ROUTED_TABLE: (&str, &str) = (
    "tap2",
    "CREATE TABLE tap2 (owner INTEGER NOT NULL, device INTEGER NOT NULL, lane INTEGER NOT NULL, link INTEGER NOT NULL, product INTEGER NOT NULL, token INTEGER NOT NULL, moment INTEGER NOT NULL, day INTEGER NOT NULL, route INTEGER NOT NULL, PRIMARY KEY (owner, device, lane), UNIQUE (device, link)) STRICT",
);

/// The texts that make the tables, each with the name of its table.
pub const TABLES: [(&str, &str); 5] = [
    META_TABLE,
    DEVICE_TABLE,
    TAP_TABLE,
    STATED_TABLE,
    ROUTED_TABLE,
];

/// Those that make the tables of the first format.
pub const FIRST_TABLES: [(&str, &str); 4] = [META_TABLE, DEVICE_TABLE, TAP_TABLE, STATED_TABLE];

/// The one that makes the table which it lacks.
pub const FIRST_MISSING: [(&str, &str); 1] = [ROUTED_TABLE];

/// The greatest link of a device.
pub const READ_LINK: &str = "SELECT upto FROM device WHERE id = ?1";

/// The row of least lane number past one.
pub const READ_NEXT: &str =
    "SELECT lane, link, product, token, moment, day, route FROM tap2 WHERE owner = ?1 AND device = ?2 AND lane > ?3 ORDER BY lane LIMIT 1";

/// The statement of least day from one on.
pub const READ_STATEMENT: &str =
    "SELECT day, total FROM stated WHERE owner = ?1 AND device = ?2 AND day >= ?3 ORDER BY day LIMIT 1";

/// How many taps there are.
pub const COUNT_ROWS: &str = "SELECT count(*) FROM tap2";

/// How many statements there are.
pub const COUNT_STATEMENTS: &str = "SELECT count(*) FROM stated";

/// How many devices were seen.
pub const COUNT_SEEN: &str = "SELECT count(*) FROM device WHERE upto > 0";

/// A device's greatest link.
pub const PUT_LINK: &str =
    "INSERT INTO device (id, upto) VALUES (?1, ?2) ON CONFLICT (id) DO UPDATE SET upto = excluded.upto";

/// A tap.
pub const PUT_TAP: &str =
    "INSERT INTO tap2 (owner, device, lane, link, product, token, moment, day, route) VALUES (?1, ?2, ?3, ?4, ?5, ?6, ?7, ?8, ?9)";

/// A statement.
pub const PUT_STATEMENT: &str =
    "INSERT INTO stated (owner, device, day, total) VALUES (?1, ?2, ?3, ?4)";

/// The rows of a lane up to a number go.
pub const CUT_ROWS: &str = "DELETE FROM tap2 WHERE owner = ?1 AND device = ?2 AND lane <= ?3";

/// The statements of an owner and a device of the days before one go.
pub const CUT_STATED: &str = "DELETE FROM stated WHERE owner = ?1 AND device = ?2 AND day < ?3";

/// How many taps stand where the first format has them: none.
pub const COUNT_UNUSED: &str = "SELECT count(*) FROM tap";

/// The taps of the first format, in the order of their rowids.
pub const READ_FIRST: &str =
    "SELECT rowid, owner, device, lane, link, product, token, moment, day FROM tap ORDER BY rowid";

/// A tap of the first format, where the newest has it, with its rowid and route 0.
pub const PUT_FIRST: &str =
    "INSERT INTO tap2 (rowid, owner, device, lane, link, product, token, moment, day, route) VALUES (?1, ?2, ?3, ?4, ?5, ?6, ?7, ?8, ?9, ?10)";

/// The taps of the first format go from where it has them.
pub const CLEAR_FIRST: &str = "DELETE FROM tap";

/// All statements of an outbox, each with its table.
pub const TEXTS: [(TableNumber, &str); 17] = [
    (DEVICE, READ_LINK),
    (ROUTED, READ_NEXT),
    (STATED, READ_STATEMENT),
    (ROUTED, COUNT_ROWS),
    (STATED, COUNT_STATEMENTS),
    (DEVICE, COUNT_SEEN),
    (META, READ_META),
    (META, PUT_META),
    (META, SET_META),
    (DEVICE, PUT_LINK),
    (ROUTED, PUT_TAP),
    (STATED, PUT_STATEMENT),
    (ROUTED, CUT_ROWS),
    (TAP, COUNT_UNUSED),
    (ROUTED, PUT_FIRST),
    (TAP, CLEAR_FIRST),
    (STATED, CUT_STATED),
];

/// What an open needs of the tables of the first format.
pub const FIRST_TEXTS: [(TableNumber, &str); 4] = [
    (META, READ_META),
    (META, PUT_META),
    (META, SET_META),
    (TAP, READ_FIRST),
];
