//! Where a store's tables stand in a database that may hold others too, and whether the store's statements mean
//! there what they mean over its tables alone. It promises that a place is found exactly where the database's
//! schema fits: each table is there under its name, no other table or index reaches into it, and each statement
//! means the same.
#![tactic(auto)]

mod commands;
mod growing;
mod layout;
mod meaning;
mod new_table;
mod place;
mod places;
mod plans;
mod schemas;
mod statement;

pub use growing::{grow_by, has_none};
pub use layout::{are_last, find_places, go_on};
pub use place::{Place, Places, TableNumber, is_apart};
