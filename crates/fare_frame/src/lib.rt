//! Frames on a byte stream: what a device and its station say to each other, each frame a length, a type and
//! a body. `Frame::put` writes the one spelling of a frame, and a `Reader` takes the stream in whatever pieces
//! it comes: it hands out the only frames of which the stream so far is the spellings, up to a rest that is
//! less than one frame, and it stops at the first place where none can stand.
#![tactic(auto)]

mod fault;
mod frame;
mod kind;
mod laws;
mod place;
mod reader;

pub use fault::ReadFault;
pub use frame::{Frame, LONGEST_FRAME};
pub use laws::{
    a_place_holds_one_thing, a_stream_has_one_reading, no_spelling_begins_another,
    pieces_are_one_stream,
};
pub use reader::Reader;
