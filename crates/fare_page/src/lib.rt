//! The hub's page, and what an operator asks over HTTP while it serves: a service over a hub at rest. It promises that a
//! request is answered with what it asks for: the very text that the same question of stores in files gets, the closes in
//! their order with what came of each, the end of a lane, how far serving has come and what waits for each owner; or with
//! those lines in JSON, where it wants that; that a question leaves what the stores hold as it was, that days are closed
//! and a lane is retired only by a request that orders it, that it says that a store failed only where one did (of an order
//! over stores which keep what was committed), and that whatever comes keeps the rows in agreement with the lists of taps
//! that the devices numbered.
#![tactic(auto)]

mod advancing;
mod answering;
mod caller;
mod callers;
mod desk;
mod filling;
mod forms;
mod gauges;
mod metrics;
mod mistakes;
mod page;
mod pausing;
mod responding;
mod seen;
mod told;

pub use callers::Callers;
pub use desk::Desk;
