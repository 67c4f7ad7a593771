//! Sessions of the hub on running threads. `serve_owner` is a session of one owner: a forwarder's thread reads the
//! outbox and an owner's thread writes the ledger, with one lane queue between them. The owner takes what the queue
//! holds at once, and taps that stand together in such a batch go to the ledger in one commit; so do the prunes at the
//! end to the outbox. Whatever the schedule, what a session did is told by a service, a value in the words of the
//! stores alone: what the owner took, what is in its hand and in its queue, and which lanes were pruned. By it the
//! contract says what both stores may hold afterwards, also where a call of a store failed and where a stop comes, and
//! what the report says.
#![tactic(auto)]

mod asking;
mod batching;
mod ending;
mod fault;
mod forwarding;
mod gate;
mod laws;
mod pace;
mod pruning;
mod report;
mod rest;
mod serving;
mod taking;
mod turns;
mod working;

pub use fault::SessionFault;
pub use gate::{Gate, Point};
pub use laws::a_session_says_plainly;
pub use pace::Pace;
pub use report::OwnerReport;
pub use serving::serve_owner;
pub use turns::Turns;
