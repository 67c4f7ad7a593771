ghost use Rattle.fare_store_tests.specs.Shelves.{old_parts, new_parts};

use fare_layout::TableNumber;
use fare_opening::{
    Design, META, META_TABLE, META_TEXTS, MetaTexts, Older, PUT_META, READ_META, SET_META,
};

// The table of books, with its name, and that of loans.
const BOOKS: (&str, &str) = ("book", "CREATE TABLE book (number INTEGER NOT NULL) STRICT");

const LOANS: (&str, &str) = (
    "loan",
    "CREATE TABLE loan (number INTEGER NOT NULL, reader INTEGER NOT NULL) STRICT",
);

const OLD_TABLES: [(&str, &str); 2] = [META_TABLE, BOOKS];

const MISSING: [(&str, &str); 1] = [LOANS];

const TABLES: [(&str, &str); 3] = [META_TABLE, BOOKS, LOANS];

const TEXTS: [(TableNumber, &str); 3] = [(META, READ_META), (META, PUT_META), (META, SET_META)];

static TEXTS_OF_META: MetaTexts = META_TEXTS;

static OLDER: [Older; 1] = [Older {
    meta: META_TEXTS,
    format: 1,
    tables: &OLD_TABLES,
    missing: &MISSING,
    texts: &TEXTS,
    moving: None,
    unused: None,
}];

/// A store of books, of format 1.
pub struct OldShelf;

impl Design for OldShelf {
    ghost parts = { old_parts };

    fn meta() -> &'static MetaTexts {
        &TEXTS_OF_META
    }

    fn tables() -> &'static [(&'static str, &'static str)] {
        &OLD_TABLES
    }

    fn texts() -> &'static [(TableNumber, &'static str)] {
        &TEXTS
    }

    fn format() -> u8 {
        1
    }

    fn older() -> &'static [Older] {
        &[]
    }

    fn unused() -> Option<(TableNumber, &'static str)> {
        None
    }

    fn sound() {}
}

/// A store of books and their loans, of format 2, to which one of format 1 is raised.
pub struct Shelf;

impl Design for Shelf {
    ghost parts = { new_parts };

    fn meta() -> &'static MetaTexts {
        &TEXTS_OF_META
    }

    fn tables() -> &'static [(&'static str, &'static str)] {
        &TABLES
    }

    fn texts() -> &'static [(TableNumber, &'static str)] {
        &TEXTS
    }

    fn format() -> u8 {
        2
    }

    fn older() -> &'static [Older] {
        &OLDER
    }

    fn unused() -> Option<(TableNumber, &'static str)> {
        None
    }

    fn sound() {}
}
