ghost use Rattle.fare_outbox_rows.specs.Statements.{outbox_parts};

use fare_layout::TableNumber;
use fare_opening::{Design, META_TEXTS, MetaTexts, Moving, Older, TAP};
use fare_outbox_rows::statements::{
    CLEAR_FIRST, COUNT_UNUSED, FIRST_MISSING, FIRST_TABLES, FIRST_TEXTS, PUT_FIRST, READ_FIRST,
    ROUTED, TABLES, TEXTS,
};

// What is asked of `meta`, and written to it.
static TEXTS_OF_META: MetaTexts = META_TEXTS;

// The first format, whose taps had no route: they move to the table that has them, each with route 0.
static OLDER: [Older; 1] = [Older {
    meta: META_TEXTS,
    format: 1,
    tables: &FIRST_TABLES,
    missing: &FIRST_MISSING,
    texts: &FIRST_TEXTS,
    moving: Some(Moving {
        from: TAP,
        to: ROUTED,
        read: READ_FIRST,
        put: PUT_FIRST,
        clear: CLEAR_FIRST,
    }),
    unused: None,
}];

/// What an outbox is made of: no owner's, of format 2.
pub struct OutboxDesign;

impl Design for OutboxDesign {
    ghost parts = { outbox_parts };

    fn meta() -> &'static MetaTexts {
        &TEXTS_OF_META
    }

    fn tables() -> &'static [(&'static str, &'static str)] {
        &TABLES
    }

    fn texts() -> &'static [(TableNumber, &'static str)] {
        &TEXTS
    }

    fn format() -> u8 {
        2
    }

    fn older() -> &'static [Older] {
        &OLDER
    }

    fn unused() -> Option<(TableNumber, &'static str)> {
        Some((TAP, COUNT_UNUSED))
    }

    fn sound() {}
}
