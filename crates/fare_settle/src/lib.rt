//! Settlement: what each operator gets for a traffic day. Each tap of the day is charged by how much it raises what
//! its account pays for its week, under the daily and the weekly cap, in the order of moment, device and lane
//! number; an operator gets the charges of the taps on its devices. So the operators share the day's bill: their
//! amounts add up to its total, for every list of records; and the shares of an operator's routes add up to its own.
#![tactic(auto)]

mod charge;
mod charging;
mod laws;
mod route_share;
mod routes;
mod settled;
mod settlement;
mod settling;
mod tally;

pub use charge::Charge;
pub use charging::charges;
pub use laws::{operators_share_the_bill, routes_add_up, settlements_are_of_a_week};
pub use route_share::RouteShare;
pub use settled::Settled;
pub use settlement::Settlement;
pub use settling::settle;
