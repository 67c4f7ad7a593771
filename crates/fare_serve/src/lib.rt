//! The hub serves its stations over sockets, in rounds: it takes the lines that came, collects what they send into the
//! outbox, hands each owner what is theirs, and at the end writes what came of all rounds. It promises that each line
//! which a session of the stations is held over has greeted as a device of its station, and goes on from one round to the
//! next as it was left; and that nothing is written before all of it is done: what is written are then the sums of the
//! sessions' reports, and where a report tells of want of memory or of a store that failed, nothing is. However it ended,
//! where the stores agreed with the lists of taps that the devices numbered, they do, and they cover all that each line was
//! answered from its greeting on. That accepting never waits for one guest, and that a station for which no validator came,
//! or whose line was lost, keeps no other from being served, is tested.
#![tactic(auto)]

mod counts;
mod fault;
mod gate;
mod gathering;
mod guest;
mod laws;
mod lending;
mod limits;
mod line;
mod marks;
mod pause;
mod progress;
mod reasons;
mod rounds;
mod seats;
mod seen;
mod serving;
mod sessions;
mod telling;

pub use counts::{Counts, Taken, write_counts};
pub use fault::ServeFault;
pub use laws::rest_does_nothing;
pub use limits::Limits;
pub use line::{Line, LineSource};
pub use pause::{Pause, Rest};
pub use progress::Progress;
pub use reasons::{BrokenLines, RefusedLines};
pub use rounds::serve_round;
pub use seen::{LineSeen, Seen};
pub use serving::serve_rounds;
