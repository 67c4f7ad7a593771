//! What was registered is kept beside a store, in tables of its own, and a later scheme may only add to it. `keep_scheme`
//! keeps a scheme with the rule of its clock, where nothing is kept or the scheme adds to the kept one, in one transaction;
//! else it answers by name what the scheme contradicts first, and nothing changes. It promises that what is kept is read back
//! as the lines of the scheme, that a stop leaves the old lists or the new ones, and that the store beside which they stand
//! stays as it is, whatever came of it.
#![tactic(auto)]

mod asking;
mod fault;
mod keeping;
pub mod laws;
mod scheming;
mod telling;
mod text;

pub use asking::kept_lines;
pub use fault::KeepFault;
pub use keeping::keep_scheme;
pub use scheming::kept_scheme;
