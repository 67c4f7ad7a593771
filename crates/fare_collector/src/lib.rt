//! The station: takes in the numbered taps of its own devices, each device's in link order with none left out
//! and none twice. A collector keeps for each device of its station the link that it accepts next; it accepts
//! that link alone, where the tap's owner is the owner of its product, and names the reason for which it
//! refuses any other. A statement of one of its devices it accepts at any time, where the owner is registered. A
//! refusal changes nothing. A collector takes memory only while it is made.
#![tactic(auto)]

mod collector;
mod fault;
mod laws;

pub use collector::Collector;
pub use fault::{CollectRefusal, CollectorFault, StatementRefusal};
pub use laws::unaccept_undoes_accept;
