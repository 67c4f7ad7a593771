//! The lane queue: what a forwarder hands on to one owner, over a bounded queue that two threads share. The
//! forwarder puts with its pass and the owner takes with its own; a pass shows the list of what was put, or
//! taken, with it. In any schedule what was taken and then what the queue holds is what was put, and each
//! device's taps have the lane numbers that follow its base, without a gap. Only `LaneQueue::new` takes
//! memory.
#![tactic(auto)]

mod bases;
mod ended;
mod fault;
mod laws;
mod passes;
mod queue;
mod rule;

pub use ended::Ended;
pub use fault::{Full, LaneQueueFault};
pub use laws::each_step_keeps_the_rule;
pub use passes::{ForwardPass, OwnerPass};
pub use queue::LaneQueue;
