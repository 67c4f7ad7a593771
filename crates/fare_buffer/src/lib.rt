//! The buffer of a device: the taps that wait for their acknowledgement, in the order in which they were
//! numbered. Its room is taken once, when it is made; from then on a tap is kept at the end or handed back,
//! acknowledged taps leave at the front, and nothing is ever overwritten.
#![tactic(auto)]

mod waiting;

pub use waiting::{Full, Waiting, WaitingFault};
