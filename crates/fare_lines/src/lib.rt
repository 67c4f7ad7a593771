//! The text of a trace: lines that set a scheme up or let one event happen, and the lines of their replies. It
//! promises that `parse` reads exactly the spelled lines, that `Lines` reads them one by one, and that
//! `print_reply` writes a reply's one spelling.
#![tactic(auto)]

mod build;
mod cut;
mod keyword;
pub mod laws;
mod line;
mod lines;
mod number;
mod print;
mod print_rows;
mod text;
mod zone_text;

pub use line::{Line, SchemeLine};
pub use lines::Lines;
pub use print::print_reply;
pub use text::{ParseFault, parse};
pub use zone_text::ZoneText;
