ghost use Rattle.std.specs.Prelude.{◌≡◌};

use fare_layout::Places;
use sqlite_schema::schema::Schema;

/// Where a store's tables stand in a database, which may hold others too.
pub struct Site {
    // The schema of the database.
    pub(crate) schema: Schema,
    pub(crate) places: Places,
}

impl Site {
    /// The schema of the database, and where the tables stand in it.
    pub fn into_parts(self) -> (Schema, Places)
        ensures schema { result.0 ≡ self.schema }
        ensures places { result.1 ≡ self.places }
    {
        let Site { schema, places } = self;
        (schema, places)
    }
}

// It is written out, so that a caller doesn't prove again how each part is let go.
impl Drop for Site {
    fn drop(self) {
        let Site {
            schema: _,
            places: _,
        } = self;
    }
}
