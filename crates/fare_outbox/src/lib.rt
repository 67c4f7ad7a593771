//! The outbox of the hub in tables of SQLite: what was acknowledged outlives the program. It meets the contract of
//! the outbox as the plain one does, for as long as the disk has kept what was committed and no failure has shut
//! the connection. Each write is one transaction: also where the rows of a lane go up to a lane number, and where the
//! statements of an owner and a device go of the days before one. The value alone holds its connection. An outbox of the
//! first format, whose taps have no route, is raised when it is opened.
#![tactic(auto)]

mod batching;
mod calls;
mod design;
mod forgetting;
pub mod laws;
mod opening;
mod pruning;
mod reading;
mod storing;
mod tables;

pub use design::OutboxDesign;
pub use tables::SqlOutbox;
