//! What the tests begin with: records and statements of small numbers, each kind of frame with its bytes, and readers and
//! writers that give little or fail. It has no test, so that it is proved once. It promises what each contract says.
#![tactic(auto)]

mod readers;
mod samples;
mod vectors;

pub use readers::{Bytewise, Closed, Lossy, Zeros};
pub use samples::{FIRST, Numbers, record, statement};
pub use vectors::{
    ACKED, DAY_ACKED, GREETED, ROUTED, STATED, TAPPED, acked, day_acked, greeted, routed, stated,
    tapped,
};
