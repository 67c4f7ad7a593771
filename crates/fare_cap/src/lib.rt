//! Day bills: what each account, a product with a token that used it, pays for a traffic day. An account pays a flat
//! fare for each paid tap, at most the daily cap on a traffic day, and at most the weekly cap from Monday to Sunday. A
//! paid tap opens a window of as many seconds as the product's tariff says, in which further taps of the account on
//! that day are free; without a window each tap is paid. A bill is told by the records handed in alone: for every list
//! of them it is the closed formula of its definition, whatever else was billed before. Sums are whole pence, and none
//! is cut; the one error is want of memory.
#![tactic(auto)]

mod account;
mod bill;
mod counting;
mod day_rides;
mod fares;
mod laws;
mod order;
mod rides;
mod row;

pub use account::Account;
pub use bill::{Bill, day_bill};
pub use counting::counts_on;
pub use day_rides::DayRides;
pub use fares::{day_fare, fares_before, hop_of, week_start};
pub use laws::{bills_are_of_a_week, taps_fall_into_windows};
pub use order::in_order;
pub use rides::Rides;
pub use row::Row;
