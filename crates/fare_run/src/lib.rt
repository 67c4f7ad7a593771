//! What the program does for the words after its name: it replays a trace from a reader to a writer, shows the
//! help or the version, serves stations over sockets, closes days and answers questions of the stores, prints the scheme
//! that is kept beside them, or says why it did none of it. It promises how each run ends: well only where the replies to
//! the trace's lines are written, a text is shown, the counts of a hub that served are written, the answer to a question or
//! the lines of a scheme, refused only where the words are no job, and then nothing was read or written. What standard
//! error gets is no part of the promise, nor what a file keeps: a run over stores is over the scheme that
//! `fare_registry::scheme_in_file` gives. Serving may wait and starts threads, and a question opens files, so each is a
//! call of its own, for which `run` answers the options; `carry_out` calls one behind the other, and promises of any words
//! that what came of them is what they ask for.
#![tactic(auto)]

mod ask_failure;
mod ask_job;
mod asking;
mod carrying;
mod failure;
mod laws;
mod left;
mod replaying;
mod running;
mod scheming;
mod serve_failure;
mod serve_job;
mod serving;
mod showing;
mod telling;

pub use ask_failure::AskFailure;
pub use ask_job::{ask, ask_databases};
pub use asking::answer_over;
pub use carrying::carry_out;
pub use failure::Failure;
pub use laws::runs_keep_stores;
pub use left::{AskOptions, Left, ServeOptions};
pub use running::run;
pub use scheming::read_scheme;
pub use serve_failure::ServeFailure;
pub use serve_job::{serve, serve_databases};
pub use serving::serve_over;
pub use showing::{show_scheme, write_scheme};
pub use telling::tell;
