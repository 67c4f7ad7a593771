//! What may happen to a scheme's parts, one atomic step at a time, and what each event, or each line of a trace, is
//! answered. They are values alone: what an event does is said where the parts are, and how both are spelled where
//! traces are read and written.
#![tactic(auto)]

mod event;
mod reply;
mod short;

pub use event::Event;
pub use reply::{Refusal, Reply};
pub use short::Short;
