//! The command line of the hub: what the words after the program's name ask for. It promises that `read_words`
//! answers the job of the words where clap takes them, and otherwise the text that says why there is none, or
//! the help or version that they ask for.
#![tactic(auto)]

mod command;
mod words;

pub use words::{Job, Question, SchemeSource, WordsFault, read_words};
