//! Traces, replayed from a stream to another. It promises that `replay` and `replay_sql`, which keep what is stored in
//! lists and in tables, write the replies to the lines of their input and nothing else, once all of it is read.
#![tactic(auto)]

pub mod laws;
mod stream;

pub use stream::{ReplayFault, read_lines, replay, replay_sql};
