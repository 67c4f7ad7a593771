//! Decides what follows a fault of a part of the hub: a restart of that part, as long as the number of faults
//! stays within a limit, and to give up from then on. No call takes memory.
#![tactic(auto)]

mod decision;
mod supervisor;

pub use decision::{Action, Fault};
pub use supervisor::Supervisor;
