//! The registrar in the sense of ISO 24014-1: gives the parts of a fare scheme their unique identifiers. A
//! `Draft` is a list of accepted registrations, each refused by name where it doesn't fit the ones before it;
//! `seal` makes a `Scheme` of it, which never changes. In a scheme ids are unique, parents exist and numbers
//! are in range, and each look-up by id or position takes the same time however many entries there are.
#![tactic(auto)]

mod demo;
mod draft;
mod entry;
mod fault;
mod laws;
mod scheme;

pub use demo::{DemoFault, DemoSize};
pub use draft::{Draft, MOST_OWNERS};
pub use entry::{Placement, Product, Tariff};
pub use fault::{AddFault, CapsFault, HopFault, OutOfRange, SealFault};
pub use laws::registered_ids_have_positions;
pub use scheme::Scheme;
