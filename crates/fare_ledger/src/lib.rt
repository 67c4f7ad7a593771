//! The ledger of an owner in tables of SQLite: what the owner has taken outlives the program. It meets the contract
//! of a ledger as the plain one does, for as long as the disk has kept what was committed and no failure has shut
//! the connection. Each write is one transaction, a tap with its device's numbers. The value alone holds its
//! connection. Its tables are of format 4: a ledger of the first format, which knows of no retired lanes, of the
//! second, whose taps have no route, or of the third, of which nothing was let go, is raised to it where it is opened,
//! in one transaction; taps without a route have route 0 then. A tap that was let go has no row: how many they are is
//! the number of taps taken less that of the rows.
#![tactic(auto)]

mod batching;
mod calls;
mod design;
mod devices;
mod finding;
mod forgetting;
mod judging;
mod lane;
pub mod laws;
mod layout;
mod listing;
mod opening;
mod reading;
mod statements;
mod storing;
mod tables;
mod writing;

pub use layout::Layout;
pub use opening::LedgerOpenFault;
pub use tables::SqlLedger;
