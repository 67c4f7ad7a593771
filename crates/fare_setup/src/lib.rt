//! A sealed scheme as the lines that make it: its owners, operators, stations, products and devices, each in their
//! order, its settings, and the seal. It promises that what is printed of them is read again as exactly these lines, and
//! that an empty draft refuses none of them and ends with the scheme's own lists and settings.
#![tactic(auto)]

mod entry;
pub mod laws;
mod lines;
mod print;

pub use entry::{line_of_device, line_of_owner, line_of_station, product_entry};
pub use lines::{copy_zone, setup_lines};
pub use print::{append_setup, print_setup};
