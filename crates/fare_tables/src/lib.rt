//! What a store in tables of SQLite asks of its connection, over the kit's port: a question that has at most one
//! row or several, a statement in a transaction, and numbers in cells. Each call says what it leaves of the rows, what a stop at that moment may leave, and
//! whether the connection stays open. Want of memory is told apart from all other failures, and these are counted.
#![tactic(auto)]

mod asking;
mod cells;
mod changing;
mod faults;
mod opening;
mod records;

pub use asking::{ask, ask_all, touch};
pub use cells::{cell_number, cell_total, parameter};
pub use changing::{change, commit};
pub use faults::{fault_of, note, noted};
pub use opening::{OpenFault, make_table, open_fault};
pub use records::{cell_count, cell_day, cell_tap_number, tap_in_cells};
