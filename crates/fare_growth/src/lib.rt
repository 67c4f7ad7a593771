//! A fare scheme that was registered is kept, and a later one may only add to it: owners, operators, stations,
//! products and devices at the end of their lists, and other capacities. This crate tells whether it does, and else by
//! name what of the kept scheme the later one contradicts first. `first_contradiction` answers none exactly where the
//! later scheme adds to the kept one. Then each look-up by id that the kept scheme answers, but for capacities, is
//! answered alike by the later one, and their traffic days are the same. It takes time in proportion to the entries of
//! the kept scheme, and no memory.
#![tactic(auto)]

mod entry;
mod growth;
mod laws;
mod registered;

pub use entry::{Contradiction, Entry};
pub use growth::first_contradiction;
pub use laws::{added_schemes_keep_days, added_schemes_keep_look_ups, adding_goes_on};
