use fare_layout::TableNumber;
use fare_lists::ListTable;
use fare_opening::{META, MetaTexts};

// The text that makes the table that says whose tables these are, behind its name.
const META_TABLE: (&str, &str) = (
    "kept",
    "CREATE TABLE kept (format INTEGER NOT NULL, owner INTEGER NOT NULL) STRICT",
);

const READ_META: &str = "SELECT rowid, format, owner FROM kept";

const PUT_META: &str = "INSERT INTO kept (format, owner) VALUES (?1, ?2)";

const SET_META: &str = "UPDATE kept SET format = ?1";

/// What is asked of that table, and written to it.
pub(crate) static META_TEXTS: MetaTexts = MetaTexts {
    table: META_TABLE,
    read: READ_META,
    put: PUT_META,
    set: SET_META,
};

// The first traffic day, in days since 1970-01-01, and the capacity of the inbox: one row.
const SCHEME: TableNumber = TableNumber { number: 1 };

const SCHEME_TABLE: (&str, &str) = (
    "kept_scheme",
    "CREATE TABLE kept_scheme (start INTEGER NOT NULL, inbox INTEGER NOT NULL) STRICT",
);

const READ_SCHEME: &str = "SELECT rowid, start, inbox FROM kept_scheme ORDER BY rowid";

const PUT_SCHEME: &str = "INSERT INTO kept_scheme (rowid, start, inbox) VALUES (?1, ?2, ?3)";

const CLEAR_SCHEME: &str = "DELETE FROM kept_scheme";

// The text of the zone's rule, a row for each of its bytes.
const ZONE: TableNumber = TableNumber { number: 2 };

const ZONE_TABLE: (&str, &str) = (
    "kept_zone",
    "CREATE TABLE kept_zone (byte INTEGER NOT NULL) STRICT",
);

const READ_ZONE: &str = "SELECT rowid, byte FROM kept_zone ORDER BY rowid";

const PUT_ZONE: &str = "INSERT INTO kept_zone (rowid, byte) VALUES (?1, ?2)";

const CLEAR_ZONE: &str = "DELETE FROM kept_zone";

// The owners, each with the capacity of its lane queue.
const OWNER: TableNumber = TableNumber { number: 3 };

const OWNER_TABLE: (&str, &str) = (
    "kept_owner",
    "CREATE TABLE kept_owner (owner INTEGER NOT NULL, lane INTEGER NOT NULL) STRICT",
);

const READ_OWNER: &str = "SELECT rowid, owner, lane FROM kept_owner ORDER BY rowid";

const PUT_OWNER: &str = "INSERT INTO kept_owner (rowid, owner, lane) VALUES (?1, ?2, ?3)";

const CLEAR_OWNER: &str = "DELETE FROM kept_owner";

// The operators.
const OPERATOR: TableNumber = TableNumber { number: 4 };

const OPERATOR_TABLE: (&str, &str) = (
    "kept_operator",
    "CREATE TABLE kept_operator (operator INTEGER NOT NULL) STRICT",
);

const READ_OPERATOR: &str = "SELECT rowid, operator FROM kept_operator ORDER BY rowid";

const PUT_OPERATOR: &str = "INSERT INTO kept_operator (rowid, operator) VALUES (?1, ?2)";

const CLEAR_OPERATOR: &str = "DELETE FROM kept_operator";

// The stations, each with its operator.
const STATION: TableNumber = TableNumber { number: 5 };

const STATION_TABLE: (&str, &str) = (
    "kept_station",
    "CREATE TABLE kept_station (station INTEGER NOT NULL, operator INTEGER NOT NULL) STRICT",
);

const READ_STATION: &str = "SELECT rowid, station, operator FROM kept_station ORDER BY rowid";

const PUT_STATION: &str = "INSERT INTO kept_station (rowid, station, operator) VALUES (?1, ?2, ?3)";

const CLEAR_STATION: &str = "DELETE FROM kept_station";

// The products, each with its owner, its fare, its daily and its weekly cap in pence, and its window in seconds.
const PRODUCT: TableNumber = TableNumber { number: 6 };

const PRODUCT_TABLE: (&str, &str) = (
    "kept_product",
    "CREATE TABLE kept_product (product INTEGER NOT NULL, owner INTEGER NOT NULL, fare INTEGER NOT NULL, daily INTEGER NOT NULL, weekly INTEGER NOT NULL, hop INTEGER NOT NULL) STRICT",
);

const READ_PRODUCT: &str =
    "SELECT rowid, product, owner, fare, daily, weekly, hop FROM kept_product ORDER BY rowid";

const PUT_PRODUCT: &str =
    "INSERT INTO kept_product (rowid, product, owner, fare, daily, weekly, hop) VALUES (?1, ?2, ?3, ?4, ?5, ?6, ?7)";

const CLEAR_PRODUCT: &str = "DELETE FROM kept_product";

// The devices, each with its station and the capacity of its buffer.
const DEVICE: TableNumber = TableNumber { number: 7 };

const DEVICE_TABLE: (&str, &str) = (
    "kept_device",
    "CREATE TABLE kept_device (device INTEGER NOT NULL, station INTEGER NOT NULL, buffer INTEGER NOT NULL) STRICT",
);

const READ_DEVICE: &str = "SELECT rowid, device, station, buffer FROM kept_device ORDER BY rowid";

const PUT_DEVICE: &str =
    "INSERT INTO kept_device (rowid, device, station, buffer) VALUES (?1, ?2, ?3, ?4)";

const CLEAR_DEVICE: &str = "DELETE FROM kept_device";

/// The texts that make the tables, each with the name of its table.
pub(crate) const TABLES: [(&str, &str); 8] = [
    META_TABLE,
    SCHEME_TABLE,
    ZONE_TABLE,
    OWNER_TABLE,
    OPERATOR_TABLE,
    STATION_TABLE,
    PRODUCT_TABLE,
    DEVICE_TABLE,
];

/// All statements, each with its table.
pub(crate) const TEXTS: [(TableNumber, &str); 24] = [
    (META, READ_META),
    (META, PUT_META),
    (META, SET_META),
    (SCHEME, READ_SCHEME),
    (SCHEME, PUT_SCHEME),
    (SCHEME, CLEAR_SCHEME),
    (ZONE, READ_ZONE),
    (ZONE, PUT_ZONE),
    (ZONE, CLEAR_ZONE),
    (OWNER, READ_OWNER),
    (OWNER, PUT_OWNER),
    (OWNER, CLEAR_OWNER),
    (OPERATOR, READ_OPERATOR),
    (OPERATOR, PUT_OPERATOR),
    (OPERATOR, CLEAR_OPERATOR),
    (STATION, READ_STATION),
    (STATION, PUT_STATION),
    (STATION, CLEAR_STATION),
    (PRODUCT, READ_PRODUCT),
    (PRODUCT, PUT_PRODUCT),
    (PRODUCT, CLEAR_PRODUCT),
    (DEVICE, READ_DEVICE),
    (DEVICE, PUT_DEVICE),
    (DEVICE, CLEAR_DEVICE),
];

/// The tables that hold lists.
pub(crate) static LISTS: [ListTable; 7] = [
    ListTable {
        number: SCHEME,
        columns: 2,
        read: READ_SCHEME,
        put: PUT_SCHEME,
        clear: CLEAR_SCHEME,
    },
    ListTable {
        number: ZONE,
        columns: 1,
        read: READ_ZONE,
        put: PUT_ZONE,
        clear: CLEAR_ZONE,
    },
    ListTable {
        number: OWNER,
        columns: 2,
        read: READ_OWNER,
        put: PUT_OWNER,
        clear: CLEAR_OWNER,
    },
    ListTable {
        number: OPERATOR,
        columns: 1,
        read: READ_OPERATOR,
        put: PUT_OPERATOR,
        clear: CLEAR_OPERATOR,
    },
    ListTable {
        number: STATION,
        columns: 2,
        read: READ_STATION,
        put: PUT_STATION,
        clear: CLEAR_STATION,
    },
    ListTable {
        number: PRODUCT,
        columns: 6,
        read: READ_PRODUCT,
        put: PUT_PRODUCT,
        clear: CLEAR_PRODUCT,
    },
    ListTable {
        number: DEVICE,
        columns: 3,
        read: READ_DEVICE,
        put: PUT_DEVICE,
        clear: CLEAR_DEVICE,
    },
];
