ghost use Rattle.std.specs.Prelude.{◌≡◌};
ghost use Rattle.fare_layout.specs.Layouts.{Fits-prop};
ghost use Rattle.fare_outbox_rows.specs.Statements.{FitsOutbox, texts};
ghost use Rattle.fare_outbox_rows.specs.Tables.{outbox_schema};

use fare_layout::Places;
use fare_opening::Site;
use sqlite_schema::schema::Schema;

/// Where the tables of an outbox stand in a database, which may hold others too: each statement of the outbox
/// means there what it means in a database of an outbox alone.
pub struct Layout {
    // The schema of the database.
    pub(crate) schema: Schema,
    pub(crate) places: Places,
    ghost fits: { FitsOutbox schema places } by { Fits-prop outbox_schema texts schema places },
}

impl Layout {
    /// Where they stand.
    pub fn at(site: Site) -> Layout
        requires { FitsOutbox site.schema site.places }
        ensures schema { result.schema ≡ site.schema }
        ensures places { result.places ≡ site.places }
    {
        let (schema, places) = site.into_parts();
        Layout { schema, places }
    }
}

// It is written out, so that a caller doesn't prove again how each part is let go.
impl Drop for Layout {
    fn drop(self) {
        let Layout {
            schema: _,
            places: _,
        } = self;
    }
}
