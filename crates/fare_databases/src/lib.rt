//! Where the stores of a hub lie: its outbox in a database at a path, and the ledger of each owner in one at that
//! path, a dot and the owner's number. It promises that a hub is made only with one ledger for each owner of its
//! scheme, in the scheme's order, each of which is that owner's and made with that scheme; and that each store holds
//! what its database held: nothing where it had none of the store's tables, and what a lawful one held. A store of an
//! older format is raised to the newest, and keeps its lists. Where a hub can't be opened its databases come back, and
//! hold what they held; and a hub that is closed is its databases again, with all that its stores hold. A file that
//! isn't there is made, or refused; one that holds something else is left alone; a connection to one is new, and shows
//! the database that the file held.
#![tactic(auto)]

mod closing;
mod databases;
mod files;
mod laws;
mod opening;

pub use closing::close_hub;
pub use databases::Databases;
pub use files::{
    Absent, FileDatabase, FileDatabases, close_file, close_files, connect_file, connect_files,
};
pub use laws::added_schemes_keep_stores;
pub use opening::{OpenHub, open_hub};
