//! The lines that an operator is answered with, as JSON: an array with an object for each line, in order, whose members
//! are the line's words by their places. It promises which JSON a text is, by one table of what each line's words are; that
//! what it writes is that JSON with no space in it, and reads back as it; and that any text has one, so that nothing is
//! refused but for want of memory.
#![tactic(auto)]

mod document;
mod name;
mod object;
mod part;
mod pieces;
mod value;

pub use document::json_of;
