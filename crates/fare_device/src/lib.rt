//! Devices: each numbers its taps, once over all of them and once for each owner, keeps those that are not
//! acknowledged in a buffer of bounded room, and sends them as frames. Numbers start at 1 and leave no gap,
//! and a tap that finds the buffer full gets none. A device counts the taps of its open day by owner; when it
//! turns the day, the counts wait, and are stated, until the day is acknowledged.
#![tactic(auto)]

mod days;
mod device;
mod laws;

pub use device::{Device, DeviceFault, NotWaiting, NumbersFault, TapRefusal, TurnRefusal};
pub use laws::a_device_counts_what_it_numbered;
