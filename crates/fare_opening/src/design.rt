ghost use Rattle.std.specs.Prelude.{◌≡◌, map, option_map};
ghost use Rattle.std.specs.List.{AllByRecursion, AllZip};
ghost use Rattle.fare_opening.specs.Parts.{Parts, IsDesign, IsOlder, IsTold, meta_told};

use crate::Moving;
use fare_layout::TableNumber;

/// What is asked of the table that says whose tables these are, and written to it. Each store has it first, and has one
/// of its own: two stores in one database have it by two names.
pub struct MetaTexts {
    /// The text that makes it, behind its name.
    pub table: (&'static str, &'static str),
    /// Whose tables these are, and of what format, with the row's number.
    pub read: &'static str,
    /// They are of this format, and this owner's.
    pub put: &'static str,
    /// They are of this format now.
    pub set: &'static str,
}

/// The text that makes the table `meta`, which says whose tables these are, behind its name. A store that stands beside
/// another one has such a table by another name.
pub const META_TABLE: (&str, &str) = (
    "meta",
    "CREATE TABLE meta (format INTEGER NOT NULL, owner INTEGER NOT NULL) STRICT",
);

/// Whose tables these are, and of what format, with the row's number.
pub const READ_META: &str = "SELECT rowid, format, owner FROM meta";

/// They are of this format, and this owner's.
pub const PUT_META: &str = "INSERT INTO meta (format, owner) VALUES (?1, ?2)";

/// They are of this format now.
pub const SET_META: &str = "UPDATE meta SET format = ?1";

/// What is asked of a table named `meta`, and written to it.
pub const META_TEXTS: MetaTexts = MetaTexts {
    table: META_TABLE,
    read: READ_META,
    put: PUT_META,
    set: SET_META,
};

/// An older format of a store, which has the first of its tables.
pub struct Older {
    /// The first of its tables, which has one row.
    pub meta: MetaTexts,
    /// The format, which that row has.
    pub format: u8,
    /// The texts that make its tables, each with the name of its table.
    pub tables: &'static [(&'static str, &'static str)],
    /// Those that make the tables which it lacks.
    pub missing: &'static [(&'static str, &'static str)],
    /// The texts of its statements, each with the table that it is of: those of `meta` among them, the `read` of its
    /// moving, and what counts the rows of the unused table.
    pub texts: &'static [(TableNumber, &'static str)],
    /// How the rows of one of its tables move to one that it lacks, if they do.
    pub moving: Option<Moving>,
    /// A table that it keeps with no row, since a format before it used it, with the text that counts its rows. A store
    /// in which that table holds a row isn't of this format.
    pub unused: Option<(TableNumber, &'static str)>,
}

/// What a store in tables is made of.
pub trait Design {
    /// Its schema in a database of its own, its tables, its statements, its format and its older ones.
    ghost parts: { Parts };

    /// The first of its tables, which has one row: its format, and its owner.
    fn meta() -> &'static MetaTexts
        ensures { meta_told result.now ≡ parts.meta };

    /// The texts that make its tables, each with the name of its table, in the order in which they are made: first that
    /// of `meta`.
    fn tables() -> &'static [(&'static str, &'static str)]
        ensures { map (λ t. (t.0.now, t.1.now)) result.now ≡ parts.tables };

    /// The texts of its statements, each with the table that it is of: those of `meta` among them, the `put` and
    /// `clear` of each moving, and what counts the rows of the unused table.
    fn texts() -> &'static [(TableNumber, &'static str)]
        ensures { map (λ t. (t.0, t.1.now)) result.now ≡ parts.texts };

    /// Its format, which the row of `meta` has.
    fn format() -> u8
        ensures { result ≡ parts.format };

    /// A table that it keeps with no row, since an older format used it, with the text that counts its rows.
    fn unused() -> Option<(TableNumber, &'static str)>
        ensures { option_map (λ u. (u.0, u.1.now)) result ≡ parts.unused };

    /// Its older formats, which an open raises to this one.
    fn older() -> &'static [Older]
        ensures { AllZip IsTold result.now parts.older };

    /// Its tables can be made, its statements mean what they should where they are, and no text needs another table;
    /// so it is of each older format too, the tables that this one lacks are the last of them, and rows move as its
    /// moving says. This does nothing, and its contract says it.
    fn sound()
        ensures design { IsDesign parts }
        ensures older { AllByRecursion (IsOlder parts) parts.older };
}
