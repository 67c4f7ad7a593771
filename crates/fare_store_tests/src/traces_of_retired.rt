//! Traces of devices that are retired, with their replies, for the tests.

pub const RETIRED_DEVICE: &[u8] = b"demo 2 4 4 4
tap 2 1 78 1704100000
turn 1
state 1 19723 1
arrive 1
draw
store
forward 1 1
fetch 1
take 1
close 1 1 19723
bill 1 19723
retire 1 2
retire 1 2
bill 1 19723
settle 1 19723
send 2
arrive 2
draw
store
forward 1 2
count 1 2
";

pub const RETIRED_DEVICE_ANSWERED: &[u8] = b"ok
record 1 1
open 19724
packet 1 day 19723 owner 1
accepted
drawn 1 day 19723 owner 1
stored 1 day 19723 owner 1
forwarded day 19723
fetched 1 day 19723
stated 1 day 19723 count 0
closed 1 19723
refused NotClosed 2
retired 2
refused Retired
bill 1 19723 0 0
short 2
settlement 1 19723 2
operator 1 0 0
operator 2 0 0
short 2
packet 2 link 1
accepted
drawn 2 link 1
stored 2 link 1
refused Retired
count 0
";

// The tap is in the owner's hand when its lane is retired.
pub const RETIRED_WITH_A_TAP_IN_HAND: &[u8] = b"demo 2 4 4 4
tap 2 1 78 1704100000
send 2
arrive 1
draw
store
forward 1 2
fetch 1
retire 1 2
take 1
take 1
forward 1 2
count 1 2
";

pub const RETIRED_WITH_A_TAP_IN_HAND_ANSWERED: &[u8] = b"ok
record 1 1
packet 1 link 1
accepted
drawn 2 link 1
stored 2 link 1
forwarded lane 1
fetched 2 lane 1
retired 2
refused Retired
idle
refused Retired
count 0
";

// Two taps are in the lane queue when their lane is retired.
pub const RETIRED_WITH_TAPS_ON_THEIR_WAY: &[u8] = b"demo 2 4 4 4
tap 2 1 78 1704100000
tap 2 1 78 1704100000
send 2
send 2
arrive 1
arrive 2
draw
store
draw
store
forward 1 2
forward 1 2
retire 1 2
fetch 1
take 1
fetch 1
take 1
fetch 1
count 1 2
";

pub const RETIRED_WITH_TAPS_ON_THEIR_WAY_ANSWERED: &[u8] = b"ok
record 1 1
record 2 2
packet 1 link 1
packet 2 link 2
accepted
accepted
drawn 2 link 1
stored 2 link 1
drawn 2 link 2
stored 2 link 2
forwarded lane 1
forwarded lane 2
retired 2
fetched 2 lane 1
refused Retired
fetched 2 lane 2
refused Retired
empty
count 0
";

// What is taken of a lane is billed after it is retired, and stays so where the outbox is pruned and the hub starts again.
pub const RETIRED_WITH_A_TAP_TAKEN: &[u8] = b"demo 1 4 4 4
tap 1 1 77 1704100000
tap 1 1 77 1704100000
send 1
send 1
arrive 1
arrive 2
draw
store
draw
store
forward 1 1
fetch 1
take 1
bill 1 19723
retire 9 9
retire 1 9
retire 1 1
retire 1 1
close 1 1 19723
forward 1 9
forward 1 1
prune 1 1
restart hub
retire 1 1
forward 1 1
bill 1 19723
settle 1 19723
bill 1 19722
";

pub const RETIRED_WITH_A_TAP_TAKEN_ANSWERED: &[u8] = b"ok
record 1 1
record 2 2
packet 1 link 1
packet 2 link 2
accepted
accepted
drawn 1 link 1
stored 1 link 1
drawn 1 link 2
stored 1 link 2
forwarded lane 1
fetched 1 lane 1
taken 1 lane 1
refused NotClosed 1
refused UnknownOwner
refused UnknownDevice
retired 1
refused Retired
refused Retired
refused UnknownDevice
refused Retired
pruned 1
restarted
refused Retired
refused Retired
bill 1 19723 1 175
account 1 77 1 175
short 1
settlement 1 19723 1
operator 1 1 175
short 1
refused BeforeStart
";

// Of three devices the second is retired and the third is open; then the third is retired too, and the first with it.
pub const THREE_DEVICES: &[u8] = b"zone GMT0BST,M3.5.0/1,M10.5.0
start 19723
owner 1 4
operator 1
station 1 1
product 1 1 175
device 1 1 4
device 2 1 4
device 3 1 4
inbox 4
seal
turn 1
state 1 19723 1
arrive 1
draw
store
forward 1 1
fetch 1
take 1
close 1 1 19723
retire 1 2
bill 1 19723
settle 1 19723
retire 1 3
bill 1 19723
retire 1 1
bill 1 19723
bill 1 19724
";

pub const THREE_DEVICES_ANSWERED: &[u8] = b"ok
ok
ok
ok
ok
ok
ok
ok
ok
ok
ok
open 19724
packet 1 day 19723 owner 1
accepted
drawn 1 day 19723 owner 1
stored 1 day 19723 owner 1
forwarded day 19723
fetched 1 day 19723
stated 1 day 19723 count 0
closed 1 19723
retired 2
refused NotClosed 3
refused NotClosed 3
retired 3
bill 1 19723 0 0
short 2
short 3
retired 1
bill 1 19723 0 0
short 2
short 3
bill 1 19724 0 0
short 1
short 2
short 3
";
