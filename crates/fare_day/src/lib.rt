//! The traffic day of a moment, and the Mondays of the weeks in which caps count. Days are counted from
//! 1970-01-01 = 0, moments in seconds since 1970-01-01T00:00:00Z. A traffic day runs from 04:30:00 on the
//! scheme's clock to the next 04:30:00; the clock follows a rule as POSIX writes it in `TZ`, read by `jiff_tz`.
//! No call takes memory.
#![tactic(auto)]

mod laws;
mod traffic;
mod week;
mod zone;

pub use laws::one_rule_tells_one_time;
pub use traffic::{BadMoment, traffic_day};
pub use week::{is_monday, monday_of};
pub use zone::{BadZone, Zone};
