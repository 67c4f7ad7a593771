//! What an owner decides about a tap, a statement, the closing of a day or the end of a lane, from counts and flags
//! alone: a product owner in the sense of ISO 24014-1, who takes each lane's taps in order, closes a device's day
//! where the stated count and the taken count agree, and retires its lane of a device that will never be read out:
//! then nothing more of it is taken, stated or closed. Each call names the first refusal that applies, in the
//! order of its error's variants, and takes no memory.
#![tactic(auto)]

mod closing;
mod retiring;
mod statement;
mod tap;

pub use closing::{CloseFault, judge_close};
pub use retiring::{RetireFault, judge_retire};
pub use statement::{StatementFault, judge_statement};
pub use tap::{TapFault, judge_tap};
