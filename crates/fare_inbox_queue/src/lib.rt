//! The queues between the stations and the writer of the outbox, over bounded queues that threads share: the
//! inbox, into which each station puts what arrives there and from which the writer takes, and for each
//! station an acknowledgement line back. A pass shows the list of what was put, or taken, with it. In any
//! schedule what was taken of a station and then what the inbox holds of it is what that station put, in its
//! order; and no number in an acknowledgement line is above what was shown as stored. Only `Inbox::new` and
//! `AckLine::new` take memory.
#![tactic(auto)]

mod ack_ended;
mod ack_line;
mod ack_passes;
mod ack_rule;
mod arrived;
mod fault;
mod inbox;
mod inbox_ended;
mod inbox_passes;
mod inbox_rule;
mod laws;
mod stations;

pub use ack_ended::AckLineEnded;
pub use ack_line::AckLine;
pub use ack_passes::{AckPass, HearPass};
pub use arrived::Arrived;
pub use fault::{Full, QueueFault};
pub use inbox::Inbox;
pub use inbox_ended::InboxEnded;
pub use inbox_passes::{StationPass, WriterPass};
pub use laws::{each_inbox_step_keeps_the_rule, each_line_step_keeps_the_rule};
