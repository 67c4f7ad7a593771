//! The registry of a hub: what was registered is kept beside its outbox. `register_scheme` keeps a scheme there, as
//! `fare_keeping::keep_scheme` does, `registered_scheme` tells it, and `scheme_of_run` is the scheme that a run is over: the kept
//! one, or one that adds to it and is kept from then on. All of them promise that the outbox holds just what it held, whatever
//! came of it and whatever a stop leaves of it: also where it has no tables yet, or is of the first format.
#![tactic(auto)]

mod files;
mod registering;
mod running;

pub use files::scheme_in_file;
pub use registering::{register_scheme, registered_scheme};
pub use running::scheme_of_run;
