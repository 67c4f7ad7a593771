//! The hub over its stores: an outbox, and a ledger for each owner. It runs a list of sessions, one after the other,
//! each of the stations and the writer or of one owner, and asks a supervisor after each fault whether to go on.
//! Whatever ends a session, and whatever a stop would leave of the stores, the promise is the same: where the rows
//! agreed with the lists of taps that the devices numbered, they do afterwards, no number fell, and all that a
//! session was answered, a tap taken as well as an acknowledgement, is in the stores. Whatever a stop would leave of
//! them fits together, and the stores that are opened over it stand as they might have stood.
#![tactic(auto)]

mod billing;
mod closing;
mod course;
mod forgetting;
mod hub;
mod reopening;
mod report;
mod retiring;
mod running;
mod session;

pub use billing::BillingFault;
pub use closing::{ClosingFault, day_after};
pub use forgetting::ForgettingFault;
pub use hub::Hub;
pub use reopening::{clean_stores_may_hold_something, stores_stand_again};
pub use report::SessionsReport;
pub use retiring::RetiringFault;
pub use session::Session;
