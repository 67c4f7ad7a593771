ghost use Rattle.fare_kept.specs.Statements.{kept_parts};

use crate::statements::{META_TEXTS, TABLES, TEXTS};
use fare_layout::TableNumber;
use fare_opening::{Design, MetaTexts, Older};

/// What the tables of a kept scheme are made of: no owner's, of format 1. They stand in a database beside those of a
/// store.
pub struct KeptDesign;

impl Design for KeptDesign {
    ghost parts = { kept_parts };

    fn meta() -> &'static MetaTexts {
        &META_TEXTS
    }

    fn tables() -> &'static [(&'static str, &'static str)] {
        &TABLES
    }

    fn texts() -> &'static [(TableNumber, &'static str)] {
        &TEXTS
    }

    fn format() -> u8 {
        1
    }

    fn older() -> &'static [Older] {
        &[]
    }

    fn unused() -> Option<(TableNumber, &'static str)> {
        None
    }

    fn sound() {}
}
