//! Sources: where the frames of a station's devices come from, and where the station's answers go. Who reads one
//! needs no more than the trait; what stands behind it, a line or a list, keeps to its clauses.
#![tactic(auto)]

mod fault;
mod shift;
mod source;

pub use fault::SourceFault;
pub use shift::Shift;
pub use source::Source;
