//! What the parts of a fare scheme speak of: ids, tokens, days, moments and amounts, each within its limits, a tap,
//! its numbered record, and the other bodies that travel between a device and its station. A value of one
//! of these types is always within its limits, so no later crate tests them again. `decode` accepts exactly
//! what `encode` gives. No call here takes memory.
#![tactic(auto)]

mod ack;
mod ack_item;
mod day;
mod day_ack;
mod days;
mod device_id;
mod fault;
mod fields;
mod hello;
mod item;
mod laws;
mod moment;
mod operator_id;
mod owner_id;
mod pence;
mod product_id;
mod record;
mod statement;
mod station_id;
mod tap;
mod token;

pub use ack::Ack;
pub use ack_item::AckItem;
pub use day::Day;
pub use day_ack::DayAck;
pub use days::Days;
pub use device_id::DeviceId;
pub use fault::RecordFault;
pub use hello::Hello;
pub use item::Item;
pub use laws::bodies_read_back;
pub use moment::Moment;
pub use operator_id::OperatorId;
pub use owner_id::OwnerId;
pub use pence::Pence;
pub use product_id::ProductId;
pub use record::{LAST_NUMBER, Record};
pub use statement::Statement;
pub use station_id::StationId;
pub use tap::Tap;
pub use token::Token;
