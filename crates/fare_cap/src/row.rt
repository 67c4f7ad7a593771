use crate::Account;
use fare_record::Pence;

/// What an account pays for a day.
#[derive(Clone, Copy, PartialEq, Eq, Debug)]
pub struct Row {
    /// The account.
    pub account: Account,
    /// How many of its taps count on the day, paid and free.
    pub rides: u64,
    /// At most the product's weekly cap.
    pub amount: Pence,
}
