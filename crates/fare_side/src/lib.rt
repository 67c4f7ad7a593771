//! The two sides of the hub that a step works at: a station's, with its collector and its acknowledgement line, and
//! an owner's, with its forwarder, lane queue, hand and ledger. What a device is acknowledged is what the outbox has
//! had of it; what the outbox loses is what the owner's ledger has taken; where a side starts again, it goes on behind
//! what the stores have; and the taps of a week are told once the day of each device is closed or its lane retired.
#![tactic(auto)]

mod bill_fault;
mod billing;
mod owner;
mod station;
mod week_taps;

pub use bill_fault::BillFault;
pub use billing::taps_of_week;
pub use owner::Owner;
pub use station::Station;
pub use week_taps::WeekTaps;
