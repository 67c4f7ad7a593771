//! When the rows of a hub's stores agree with the lists of taps that its devices numbered, and that sessions, stops and
//! schemes that add to the one before keep it. The laws say so of values: nothing that was answered is lost, no store refuses an item of the lists but
//! for want of room, and the bill of what a ledger holds is the bill of what the devices numbered.
#![tactic(auto)]

mod laws;
mod worked;

pub use laws::{
    a_stop_keeps_agreement, added_schemes_keep_agreement, bills_are_of_the_lists,
    empty_stores_agree, no_item_of_the_lists_is_refused, no_tap_is_lost, sessions_add_what_was_new,
    sessions_keep_agreement, statements_may_go, stops_keep_agreement, stores_of_a_system_agree,
    the_order_of_commits_matters, what_a_stop_leaves_says_plainly,
};
pub use worked::a_stop_between_take_and_prune;
