//! The tables in which what was registered is kept beside a store: the first traffic day, the zone, the owners, the
//! operators, the stations, the products with their tariffs and the devices, each kind in a table of its own, in the order
//! of registration. It promises that they are a store that can be opened in a database beside another one, and that each
//! of them holds a list.
#![tactic(auto)]

mod design;
mod finding;
mod lists;
mod opening;
mod statements;

pub use design::KeptDesign;
pub use finding::find_kept;
pub use lists::kept_lists;
pub use opening::open_kept;
