//! Where the file of a store is made: an empty database of SQLite with pages of 1,024 bytes. A tap changes four or
//! five pages, each of which a commit writes and sums whole, so it costs little more than half of what it costs in
//! pages of 4,096, which a new file gets from the port. It promises that what it writes is that database, byte for
//! byte; that a file which is there is left alone, and that a new one is whole at once, is the system's doing.
#![tactic(auto)]

mod empty;
mod making;

pub use empty::write_empty;
pub use making::make_file;
