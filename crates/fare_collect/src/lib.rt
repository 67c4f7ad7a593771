//! A session of the hub's stations on running threads: one thread for each station, which reads the frames of its
//! source and puts what its collector accepts into the inbox, and one writer's, which stores that in the outbox and only
//! then tells the station's line what its source may be acknowledged.
#![tactic(auto)]

mod answering;
mod collecting;
mod ended;
mod ending;
mod fault;
mod making;
mod opening;
mod pacing;
mod placing;
mod putting;
mod reading;
mod resting;
mod serving;
mod station;
mod threads;
mod writing;

pub use collecting::{CollectReport, collect};
pub use making::{StationsFault, stations_of};
pub use station::Station;
