//! What goes to an owner next. A forwarder reads an outbox and hands on, device by device, the tap rows of one
//! owner's lanes in the order of their lane numbers, and where a lane has no more of them, the statements of its
//! days in their order; it starts where the owner's ledger stands. Of each device it keeps how far it has come,
//! and the last step can be undone, as where the queue that it feeds is full. It takes memory only while it is
//! made. And before a day is acknowledged, the outbox is asked for its statements of all owners.
#![tactic(auto)]

mod cursor;
mod fault;
mod forwarder;
mod stating;

pub use fault::{StartFault, UnknownDevice};
pub use forwarder::Forwarder;
pub use stating::are_stated;
