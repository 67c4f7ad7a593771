//! What the writer of a session does with the items of its inbox: whether the collector of its station accepts one,
//! storing it in the outbox, taps that stand together in one commit, and only then telling the station's line what may
//! be acknowledged. Over an outbox that keeps what was committed and whose rows fit together, an item was stored, or had
//! been before, or it is in the hand of the writer, which it ended; and what a line was told is to the item's own device,
//! and true of the outbox then: the greatest link that it has had, or a day of which it holds the statements of all
//! owners.
#![tactic(auto)]

mod batching;
mod fault;
mod floor;
mod halt;
mod handling;
mod judging;
mod keeping;
mod leading;
mod storing;
mod tally;
mod teller;

pub use batching::{BATCH, batch_of, handle_batch};
pub use fault::WriterFault;
pub use floor::Floor;
pub use halt::Halt;
pub use handling::handle;
pub use judging::{UnexpectedFrame, judge};
pub use keeping::{keep, keep_all, keep_batch};
pub use tally::Tally;
pub use teller::Teller;
