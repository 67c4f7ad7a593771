//! Traces of taps with routes, and their replies.

/// A day of two taps, the first of them on route 7.
pub const A_DAY_WITH_ROUTE: &[u8] = b"demo 1 4 4 4
tap 1 1 77 1704100000 7
tap 1 1 77 1704100000
turn 1
send 1
send 1
state 1 19723 1
arrive 1
arrive 2
arrive 3
draw
store
draw
store
draw
store
forward 1 1
forward 1 1
forward 1 1
fetch 1
take 1
fetch 1
take 1
fetch 1
take 1
close 1 1 19723
bill 1 19723
settle 1 19723
";

/// The replies to it.
pub const A_DAY_WITH_ROUTE_ANSWERED: &[u8] = b"ok
record 1 1
record 2 2
open 19724
packet 1 link 1
packet 2 link 2
packet 3 day 19723 owner 1
accepted
accepted
accepted
drawn 1 link 1
stored 1 link 1
drawn 1 link 2
stored 1 link 2
drawn 1 day 19723 owner 1
stored 1 day 19723 owner 1
forwarded lane 1
forwarded lane 2
forwarded day 19723
fetched 1 lane 1
taken 1 lane 1
fetched 1 lane 2
taken 1 lane 2
fetched 1 day 19723
stated 1 day 19723 count 2
closed 1 19723
bill 1 19723 1 350
account 1 77 2 350
settlement 1 19723 1
operator 1 2 350
route 7 1 175
";
