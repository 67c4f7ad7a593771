ghost use Rattle.std.specs.Prelude.{◌≡◌, false};

use fare_outbox_rows::Layout;
use sqlite::{Alter, Connection};

/// An outbox in tables, over the connection that it was opened with.
pub struct SqlOutbox<S: Alter> {
    pub(crate) conn: Connection<S>,
    // Where its tables stand.
    pub(crate) layout: Layout,
    // How many taps and how many statements it holds.
    pub(crate) rows: u64,
    pub(crate) statements: u64,
    // How many calls have answered Store.
    pub(crate) failures: u64,
    ghost idle: { conn.in_transaction ≡ false },
}

impl<S: Alter> SqlOutbox<S> {
    // What it is made of.
    pub(crate) fn into_parts(self) -> Connection<S>
        ensures { result ≡ self.conn }
    {
        let SqlOutbox {
            conn,
            layout: _,
            rows: _,
            statements: _,
            failures: _,
        } = self;
        conn
    }
}

// It is written out, so that a caller doesn't prove again how each part is let go.
impl<S: Alter + Drop> Drop for SqlOutbox<S> {
    fn drop(self) {
        let SqlOutbox {
            conn: _,
            layout: _,
            rows: _,
            statements: _,
            failures: _,
        } = self;
    }
}
