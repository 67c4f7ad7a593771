ghost use Rattle.fare_ledger.specs.Statements.{ledger_parts};

use crate::statements::{
    CLEAR_OLDER, COUNT_UNUSED, FIRST_MISSING, FIRST_TABLES, OLDER_TEXTS, PUT_OLDER, READ_OLDER,
    ROUTED, SECOND_MISSING, SECOND_TABLES, TABLES, TEXTS, THIRD_MISSING, THIRD_TABLES, THIRD_TEXTS,
};
use fare_layout::TableNumber;
use fare_opening::{Design, META_TEXTS, MetaTexts, Moving, Older, TAP};

// How the taps of an older format move to the table that has their routes, each with route 0.
const MOVED_TAPS: Moving = Moving {
    from: TAP,
    to: ROUTED,
    read: READ_OLDER,
    put: PUT_OLDER,
    clear: CLEAR_OLDER,
};

// What is asked of `meta`, and written to it.
static TEXTS_OF_META: MetaTexts = META_TEXTS;

// The first format, which knew of no retired lanes, the second, whose taps had no route, and the third, of which
// nothing was let go: as in the newest, the table in which the first two have the taps holds no row.
static OLDER: [Older; 3] = [
    Older {
        meta: META_TEXTS,
        format: 1,
        tables: &FIRST_TABLES,
        missing: &FIRST_MISSING,
        texts: &OLDER_TEXTS,
        moving: Some(MOVED_TAPS),
        unused: None,
    },
    Older {
        meta: META_TEXTS,
        format: 2,
        tables: &SECOND_TABLES,
        missing: &SECOND_MISSING,
        texts: &OLDER_TEXTS,
        moving: Some(MOVED_TAPS),
        unused: None,
    },
    Older {
        meta: META_TEXTS,
        format: 3,
        tables: &THIRD_TABLES,
        missing: &THIRD_MISSING,
        texts: &THIRD_TEXTS,
        moving: None,
        unused: Some((TAP, COUNT_UNUSED)),
    },
];

// What a ledger is made of: an owner's, of format 4.
pub(crate) struct LedgerDesign;

impl Design for LedgerDesign {
    ghost parts = { ledger_parts };

    fn meta() -> &'static MetaTexts {
        &TEXTS_OF_META
    }

    fn tables() -> &'static [(&'static str, &'static str)] {
        &TABLES
    }

    fn texts() -> &'static [(TableNumber, &'static str)] {
        &TEXTS
    }

    fn format() -> u8 {
        4
    }

    fn older() -> &'static [Older] {
        &OLDER
    }

    fn unused() -> Option<(TableNumber, &'static str)> {
        Some((TAP, COUNT_UNUSED))
    }

    fn sound() {}
}
