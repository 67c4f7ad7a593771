//! The rows of an outbox in tables of SQLite: where its tables stand in a database, the texts by which they are made,
//! asked and written, and each way to add to them as one transaction, of a tap, of several taps and of a statement. A
//! write that is answered stays, and one that fails leaves the rows as they were; where the machine stops in between,
//! either all of it is there or nothing. What may be added is the outbox's to judge, which stands on this crate.
#![tactic(auto)]

mod asking;
mod layout;
pub mod statements;
mod writing;

pub use asking::ask;
pub use layout::Layout;
pub use writing::{write_row, write_rows, write_statement};
