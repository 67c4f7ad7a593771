//! What an operator asks of a hub and orders of it between its sessions: bills and settlements of a day, the closes of
//! all days that can be closed, the end of an owner's lane of a device that will never be read out, the letting go of what
//! is of days that are over, and where each lane stands. It promises that what is written is the spelling of what the stores' rows make: of a bill of exactly the taps
//! that the owner's ledger holds of the week, with the devices of which it is short, of the closes in their order with
//! what came of each, of the numbers that the stores hold. A question changes nothing; a close, the end of a lane and
//! a letting go keep the rows in agreement with the lists of taps that the devices numbered.
#![tactic(auto)]

mod billing;
mod closing;
mod fault;
mod forgetting;
mod retiring;
mod standing;
mod waiting;
mod writing;

pub use billing::{write_bill, write_settlement};
pub use closing::close_days;
pub use fault::DeskFault;
pub use forgetting::forget_days;
pub use retiring::retire_lane;
pub use standing::write_standing;
pub use waiting::{OwnerWaits, Waiting, what_waits};
