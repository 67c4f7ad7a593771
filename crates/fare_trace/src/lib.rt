//! Traces, answered: the lines of a text set a scheme up and let events happen, and each is answered. It promises
//! that `answer_text`, which keeps what is stored in lists or in tables, gives the replies to the lines of its text and
//! nothing else.
#![tactic(auto)]

mod answers;
pub mod laws;
mod plain_run;
mod registering;
mod running;
mod schemes;
mod sql_run;

pub use answers::{StoreKind, answer_text};
pub use running::RunFault;
pub use schemes::{SchemeFault, ZonedScheme, scheme_of, zoned_scheme_of};
