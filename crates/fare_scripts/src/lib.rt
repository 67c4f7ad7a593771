//! Sources of frames that are written down, and hubs of one owner over any stores with what is to be seen of their
//! sessions: what the tests of sessions, and those of stores that stop, begin with. It has no test, so that it is proved
//! once. It promises what each contract says.
#![tactic(auto)]

mod hubs;
mod scripts;

pub use hubs::{Open, Placed, Seen, collected_and_served, hub_of, seen_in, sources_in, whole};
pub use scripts::{Script, narrow, scripts_of, source_of, sources_of, tapped};
