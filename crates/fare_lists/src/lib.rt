//! Several tables of a store in tables, each of which holds a list: rows of so many numbers below 2^32, in the order of
//! their rowids. All of them are read together, and all are replaced together, in one transaction. It promises that what
//! is read is what stands there, that a stop leaves all old lists or all new ones, and that the other tables of the
//! database keep their rows.
#![tactic(auto)]

mod fitting;
pub mod laws;
mod reading;
mod table;
mod writing;

pub use fitting::lists_fit;
pub use reading::read_lists;
pub use table::{List, ListTable};
pub use writing::replace_lists;
