//! What opens a store in tables, whatever the store is: the store is told by its `Design`, its tables' texts, its
//! statements' texts, its format and its older ones. It promises that a database in which the tables stand, with their
//! one row of `meta`, is found and stays as it is; that one in which nothing has a name of theirs gets them in one
//! transaction, past what it holds, which stays; that a store of an older format gets the tables that it lacks, and the
//! newest format, in one transaction, and keeps its rows, of which those of one table may move to a new one, each with
//! one column more; and that anything else is told apart from these and stays, also where a table that a format, the
//! newest or an older one, doesn't use holds a row. A store can be opened beside another one, which stays where it stands,
//! and shares no table with it; and it can be looked for, which makes nothing.
#![tactic(auto)]

mod ascent;
mod asking;
mod beside;
mod design;
mod finding;
mod listing;
mod looking;
mod making;
mod meta;
mod moving;
mod numbers;
mod older;
mod opening;
mod ours;
mod raising;
mod site;

pub use asking::{ask, ask_rows};
pub use beside::open_beside;
pub use design::{Design, META_TABLE, META_TEXTS, MetaTexts, Older, PUT_META, READ_META, SET_META};
pub use finding::find_tables;
pub use listing::{clear_rows, put_row, read_rows};
pub use moving::Moving;
pub use numbers::{DEVICE, META, STATED, TAP};
pub use opening::{Opened, open_tables};
pub use site::Site;
