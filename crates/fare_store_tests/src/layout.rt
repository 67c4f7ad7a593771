use crate::checking::same;
use fare_layout::{Places, TableNumber, are_last, find_places, grow_by, has_none};
use fare_opening::{DEVICE, META, STATED, TAP};
use sqlite_schema::schema::Schema;
use std::alloc::Global;

// The tables of a small store, each with its name.
const TABLES: [(&str, &str); 4] = [
    ("meta", "CREATE TABLE meta (format INTEGER NOT NULL) STRICT"),
    (
        "device",
        "CREATE TABLE device (id INTEGER PRIMARY KEY, upto INTEGER NOT NULL) STRICT",
    ),
    (
        "tap",
        "CREATE TABLE tap (device INTEGER NOT NULL, lane INTEGER NOT NULL, PRIMARY KEY (device, lane)) STRICT",
    ),
    (
        "stated",
        "CREATE TABLE stated (day INTEGER NOT NULL) STRICT",
    ),
];

// Its statements, each with the table that it is over.
const TEXTS: [(TableNumber, &str); 5] = [
    (META, "SELECT format FROM meta"),
    (
        DEVICE,
        "INSERT INTO device (id, upto) VALUES (?1, ?2) ON CONFLICT (id) DO UPDATE SET upto = excluded.upto",
    ),
    (
        TAP,
        "SELECT lane FROM tap WHERE device = ?1 AND lane > ?2 ORDER BY lane LIMIT 1",
    ),
    (TAP, "DELETE FROM tap WHERE device = ?1 AND lane <= ?2"),
    (STATED, "SELECT count(*) FROM stated"),
];

// A table that no store has.
const RIDER: [(&str, &str); 1] = [("rider", "CREATE TABLE rider (name TEXT NOT NULL) STRICT")];

// A table of taps with a column more, and the other three.
const OTHER_TAPS: [(&str, &str); 4] = [
    ("meta", "CREATE TABLE meta (format INTEGER NOT NULL) STRICT"),
    (
        "device",
        "CREATE TABLE device (id INTEGER PRIMARY KEY, upto INTEGER NOT NULL) STRICT",
    ),
    (
        "tap",
        "CREATE TABLE tap (device INTEGER NOT NULL, day INTEGER NOT NULL, lane INTEGER NOT NULL, PRIMARY KEY (device, lane)) STRICT",
    ),
    (
        "stated",
        "CREATE TABLE stated (day INTEGER NOT NULL) STRICT",
    ),
];

// The schema of a database in which these tables were made.
fn made(alloc: Global, tables: &[(&str, &str)]) -> Option<Schema> {
    grow_by(alloc, &Schema::new(alloc), tables).ok()?
}

// The schema after these tables were made too.
fn grown(alloc: Global, schema: &Schema, tables: &[(&str, &str)]) -> Option<Schema> {
    grow_by(alloc, schema, tables).ok()?
}

// Where the small store stands in a schema.
fn places_in(alloc: Global, schema: &Schema) -> Option<Places> {
    let own = made(alloc, &TABLES)?;
    find_places(alloc, &own, schema, &TEXTS).ok()?
}

// The places among the tables at which the four stand behind one other, and whether they are its last there, and
// were if there were no other.
fn behind_one(alloc: Global) -> Option<([usize; 4], bool, bool)> {
    let other = made(alloc, &RIDER)?;
    let places = places_behind(alloc, &other)?;
    let at = [META, DEVICE, TAP, STATED].map(|table| places.of(table).at);
    let all = places.all.as_slice();
    Some((
        at,
        are_last(&other, all),
        are_last(&Schema::new(alloc), all),
    ))
}

fn places_behind(alloc: Global, schema: &Schema) -> Option<Places> {
    places_in(alloc, &grown(alloc, schema, &TABLES)?)
}

#[test]
fn a_store_is_found_behind_other_tables(rt: HostRuntime) {
    same(
        &rt,
        &behind_one(rt.alloc()),
        &Some(([1, 2, 3, 4], true, false)),
    );
}

// Whether a schema of these tables is free of the store's names, and whether the store's tables can be made there.
fn has_room(alloc: Global, tables: &[(&str, &str)]) -> Option<(bool, bool)> {
    let schema = made(alloc, tables)?;
    Some((
        has_none(&schema, &TABLES),
        grown(alloc, &schema, &TABLES).is_some(),
    ))
}

#[test]
fn tables_are_made_where_their_names_are_free(rt: HostRuntime) {
    let rooms = [&RIDER[..], &TABLES[..], &OTHER_TAPS[..1]].map(|it| has_room(rt.alloc(), it));
    same(
        &rt,
        &rooms,
        &[
            Some((true, true)),
            Some((false, false)),
            Some((false, false)),
        ],
    );
}

#[test]
fn a_store_is_not_found_where_a_table_is_another(rt: HostRuntime) {
    let alloc = rt.alloc();
    let found = [&RIDER[..], &OTHER_TAPS[..], &TABLES[..3], &TABLES[..]].map(|it| made(
        alloc, it,
    ).is_some_and(|schema| places_in(alloc, &schema).is_some()));
    same(&rt, &found, &[false, false, false, true]);
}
