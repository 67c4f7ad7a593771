//! Stations on streams of bytes that nobody vouches for, as sockets are. `station_turn` is one read of a validator's
//! line, and `station_answer` one frame sent to it. A `NetSource` is a line as a source: it tells the station of the
//! device that greets it, then gives the frames that follow in the bytes read, one at a call, those before a fault first,
//! and is at its end only where its reader is and all of them were given. However long a line stands, it takes memory
//! once, when it is made, and reads no oftener than it may. `listen` is a whole line, from the greeting to the end.
#![tactic(auto)]

mod answer;
mod fault;
mod intake;
mod listening;
mod source;
mod turn;

pub use answer::station_answer;
pub use fault::{AnswerFault, HelloFault, ListenFault, NetFault};
pub use listening::{Heard, listen};
pub use source::NetSource;
pub use turn::{MOST_BYTES, Turn, station_turn};
