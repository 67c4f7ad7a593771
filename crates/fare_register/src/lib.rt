//! What is registered of a scheme, as lists of numbers: one for the first traffic day with the capacity of the inbox, one
//! for the bytes of the zone's rule, and one for each kind of entries, in the order of registration. It promises that the
//! lists of a scheme give again the lines that make it, and that lists give lines only where they are such lists.
#![tactic(auto)]

pub mod laws;
mod listing;
mod reading;
mod rows;

pub use listing::register_of;
pub use reading::lines_of;
