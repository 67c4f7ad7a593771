//! The link between a device and its station by its numbers alone, as go-back-N: a sender numbers what it
//! sends from 1, keeps what is unacknowledged and may send it again from there; a receiver accepts the next
//! number and no other, and acknowledges cumulatively. What the numbers stand for, the callers keep. No call
//! takes memory.
#![tactic(auto)]

mod receiver;
mod sender;

pub use receiver::{Receiver, Verdict};
pub use sender::{AckAhead, Sender};
