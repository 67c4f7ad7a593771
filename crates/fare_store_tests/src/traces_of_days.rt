//! Traces of days, statements and closes, with their replies, for the tests.

pub const SHORT_COUNT_THEN_CLOSE: &[u8] = b"demo 1 4 4 4
tap 1 1 77 1704100000
tap 1 1 77 1704100000
tap 1 1 77 1704100000
turn 1
send 1
send 1
send 1
state 1 19723 1
arrive 1
arrive 2
arrive 4
draw
store
draw
store
draw
store
forward 1 1
forward 1 1
forward 1 1
fetch 1
take 1
fetch 1
take 1
fetch 1
take 1
close 1 1 19723
arrive 3
draw
store
forward 1 1
fetch 1
take 1
close 1 1 19723
close 1 1 19723
close 1 1 19724
bill 1 19723
";

pub const SHORT_COUNT_THEN_CLOSE_ANSWERED: &[u8] = b"ok
record 1 1
record 2 2
record 3 3
open 19724
packet 1 link 1
packet 2 link 2
packet 3 link 3
packet 4 day 19723 owner 1
accepted
accepted
accepted
drawn 1 link 1
stored 1 link 1
drawn 1 link 2
stored 1 link 2
drawn 1 day 19723 owner 1
stored 1 day 19723 owner 1
forwarded lane 1
forwarded lane 2
forwarded day 19723
fetched 1 lane 1
taken 1 lane 1
fetched 1 lane 2
taken 1 lane 2
fetched 1 day 19723
stated 1 day 19723 count 3
refused CountsShort 3 2
accepted
drawn 1 link 3
stored 1 link 3
forwarded lane 3
fetched 1 lane 3
taken 1 lane 3
closed 1 19723
refused AlreadyClosed
refused Unstated
bill 1 19723 1 525
account 1 77 3 525
";

pub const DAYS_IN_ORDER: &[u8] = b"demo 1 4 4 4
tap 1 1 77 1704186400
turn 1
tap 1 1 77 1704100000
tap 1 1 77 1704186400
";

pub const DAYS_IN_ORDER_ANSWERED: &[u8] = b"ok
refused DayAhead
open 19724
refused DayClosed
record 1 1
";

pub const EIGHT_WAITING_DAYS: &[u8] = b"demo 1 4 4 4
turn 1
turn 1
turn 1
turn 1
turn 1
turn 1
turn 1
turn 1
turn 1
";

pub const EIGHT_WAITING_DAYS_ANSWERED: &[u8] = b"ok
open 19724
open 19725
open 19726
open 19727
open 19728
open 19729
open 19730
open 19731
refused StatementsFull
";

pub const TWO_DEVICES_CLOSE: &[u8] = b"demo 2 4 4 4
turn 1
turn 2
state 1 19723 1
dayack 1 19723
state 2 19723 1
arrive 1
arrive 2
draw
store
draw
store
dayack 1 19723
answer 1
arrive 3
arrive 3
forward 1 1
forward 1 2
fetch 1
take 1
fetch 1
take 1
close 1 1 19723
bill 1 19723
close 1 2 19723
bill 1 19723
settle 1 19723
bill 1 19722
";

pub const TWO_DEVICES_CLOSE_ANSWERED: &[u8] = b"ok
open 19724
open 19724
packet 1 day 19723 owner 1
refused Unstated
packet 2 day 19723 owner 1
accepted
accepted
drawn 1 day 19723 owner 1
stored 1 day 19723 owner 1
drawn 2 day 19723 owner 1
stored 2 day 19723 owner 1
dayack 19723
packet 3 dayack 1 19723
acked day 19723
idle
forwarded day 19723
forwarded day 19723
fetched 1 day 19723
stated 1 day 19723 count 0
fetched 2 day 19723
stated 2 day 19723 count 0
closed 1 19723
refused NotClosed 2
closed 2 19723
bill 1 19723 0 0
settlement 1 19723 2
operator 1 0 0
operator 2 0 0
refused BeforeStart
";

pub const A_DAY_WITH_BILL: &[u8] = b"demo 1 4 4 4
tap 1 1 77 1704100000
tap 1 1 77 1704100000
turn 1
send 1
send 1
state 1 19723 1
arrive 1
arrive 2
arrive 3
draw
store
draw
store
draw
store
forward 1 1
forward 1 1
forward 1 1
fetch 1
take 1
fetch 1
take 1
fetch 1
take 1
close 1 1 19723
bill 1 19723
settle 1 19723
";

pub const A_DAY_WITH_BILL_ANSWERED: &[u8] = b"ok
record 1 1
record 2 2
open 19724
packet 1 link 1
packet 2 link 2
packet 3 day 19723 owner 1
accepted
accepted
accepted
drawn 1 link 1
stored 1 link 1
drawn 1 link 2
stored 1 link 2
drawn 1 day 19723 owner 1
stored 1 day 19723 owner 1
forwarded lane 1
forwarded lane 2
forwarded day 19723
fetched 1 lane 1
taken 1 lane 1
fetched 1 lane 2
taken 1 lane 2
fetched 1 day 19723
stated 1 day 19723 count 2
closed 1 19723
bill 1 19723 1 350
account 1 77 2 350
settlement 1 19723 1
operator 1 2 350
";

pub const A_STATEMENT_GOES_ONCE: &[u8] = b"demo 1 4 4 4
turn 1
state 1 19724 1
state 1 19723 1
arrive 1
draw
store
forward 1 1
forward 1 1
restart owner 1
fetch 1
forward 1 1
fetch 1
take 1
forward 1 1
restart owner 1
forward 1 1
fetch 1
take 1
take 1
close 1 1 19723
restart owner 1
forward 1 1
arrive 1
draw
store
store
";

pub const A_STATEMENT_GOES_ONCE_ANSWERED: &[u8] = b"ok
open 19724
refused NotWaiting
packet 1 day 19723 owner 1
accepted
drawn 1 day 19723 owner 1
stored 1 day 19723 owner 1
forwarded day 19723
idle
restarted
empty
forwarded day 19723
fetched 1 day 19723
stated 1 day 19723 count 0
idle
restarted
forwarded day 19723
fetched 1 day 19723
refused Repeated
idle
closed 1 19723
restarted
idle
accepted
drawn 1 day 19723 owner 1
refused Duplicate
idle
";

pub const SMALL_ROOMS: &[u8] = b"demo 1 4 1 1
turn 1
turn 1
state 1 19723 1
state 1 19724 1
arrive 1
arrive 2
draw
draw
store
arrive 2
draw
store
forward 1 1
forward 1 1
ack 1
ack 1
dayack 1 19725
dayack 1 19723
restart hub
answer 1
fetch 1
dayack 1 19723
forward 1 1
fetch 1
forward 1 1
forward 1 1
fetch 1
close 1 1 19723
take 1
close 1 1 19724
fetch 1
take 1
close 1 1 19724
";

pub const SMALL_ROOMS_ANSWERED: &[u8] = b"ok
open 19724
open 19725
packet 1 day 19723 owner 1
packet 2 day 19724 owner 1
accepted
refused Busy
drawn 1 day 19723 owner 1
refused HandFull
stored 1 day 19723 owner 1
accepted
drawn 1 day 19724 owner 1
stored 1 day 19724 owner 1
forwarded day 19723
refused Busy
ack 0
refused Busy
refused Unstated
refused Busy
restarted
empty
empty
dayack 19723
forwarded day 19723
fetched 1 day 19723
forwarded day 19724
idle
refused HandFull
refused Unstated
stated 1 day 19723 count 0
refused Unstated
fetched 1 day 19724
stated 1 day 19724 count 0
refused OutOfOrder
";

pub const TWO_OWNERS_A_DAY: &[u8] = b"owner 7 2
owner 9 2
operator 3
station 4 3
product 11 7 175
caps 11 300 1000
product 22 9 120
device 5 4 8
inbox 8
zone GMT0BST,M3.5.0/1,M10.5.0
start 19723
seal
tap 5 11 77 1704100000
tap 5 22 77 1704100060
tap 5 11 77 1704100120
tap 5 11 88 1704100180
tap 5 22 99 1704083400
send 5
send 5
send 5
send 5
send 5
arrive 1
arrive 2
arrive 3
arrive 4
arrive 5
turn 5
state 5 19723 7
state 5 19723 9
draw
store
draw
store
draw
store
forward 7 5
forward 7 5
forward 7 5
fetch 7
take 7
prune 7 5
restart hub
upto 5
count 7 5
rewind 5
send 5
send 5
send 5
send 5
send 5
arrive 8
arrive 11
arrive 12
arrive 6
arrive 7
draw
store
draw
store
draw
store
dayack 5 19723
draw
store
dayack 5 19723
ack 5
answer 4
answer 4
arrive 13
arrive 13
arrive 14
forward 7 5
forward 7 5
forward 7 5
fetch 7
take 7
fetch 7
take 7
close 7 5 19723
forward 7 5
fetch 7
take 7
close 7 5 19723
bill 7 19723
settle 7 19723
bill 9 19723
forward 9 5
forward 9 5
forward 9 5
fetch 9
take 9
forward 9 5
fetch 9
take 9
close 9 5 19723
fetch 9
take 9
close 9 5 19723
close 9 5 19723
bill 9 19723
settle 9 19723
prune 7 5
prune 9 5
forward 7 5
restart owner 9
forward 9 5
";

pub const TWO_OWNERS_A_DAY_ANSWERED: &[u8] = b"ok
ok
ok
ok
ok
ok
ok
ok
ok
ok
ok
ok
record 1 1
record 2 1
record 3 2
record 4 3
record 5 2
packet 1 link 1
packet 2 link 2
packet 3 link 3
packet 4 link 4
packet 5 link 5
accepted
accepted
accepted
accepted
accepted
open 19724
packet 6 day 19723 owner 7
packet 7 day 19723 owner 9
drawn 5 link 1
stored 5 link 1
drawn 5 link 2
stored 5 link 2
drawn 5 link 3
stored 5 link 3
forwarded lane 1
forwarded lane 2
idle
fetched 5 lane 1
taken 5 lane 1
pruned 1
restarted
upto 3
count 1
rewound
packet 8 link 1
packet 9 link 2
packet 10 link 3
packet 11 link 4
packet 12 link 5
refused Old
accepted
accepted
accepted
accepted
drawn 5 link 4
stored 5 link 4
drawn 5 link 5
stored 5 link 5
drawn 5 day 19723 owner 7
stored 5 day 19723 owner 7
refused Unstated
drawn 5 day 19723 owner 9
stored 5 day 19723 owner 9
dayack 19723
ack 5
packet 13 dayack 5 19723
packet 14 ack 5 5
acked day 19723
idle
acked 5
forwarded lane 2
forwarded lane 3
refused Busy
fetched 5 lane 2
taken 5 lane 2
fetched 5 lane 3
taken 5 lane 3
refused Unstated
forwarded day 19723
fetched 5 day 19723
stated 5 day 19723 count 3
closed 5 19723
bill 7 19723 2 475
account 11 77 2 300
account 11 88 1 175
settlement 7 19723 1
operator 3 3 475
refused NotClosed 5
forwarded lane 1
forwarded lane 2
refused Busy
fetched 5 lane 1
taken 5 lane 1
forwarded day 19723
fetched 5 lane 2
taken 5 lane 2
refused Unstated
fetched 5 day 19723
stated 5 day 19723 count 2
closed 5 19723
refused AlreadyClosed
bill 9 19723 2 240
account 22 77 1 120
account 22 99 1 120
settlement 9 19723 1
operator 3 2 240
pruned 2
pruned 2
idle
restarted
idle
";

pub const A_STATEMENT_OUTLIVES_A_RESTART: &[u8] = b"demo 1 4 4 4
tap 1 1 77 1704100000
turn 1
send 1
state 1 19723 1
arrive 1
arrive 2
draw
store
draw
store
forward 1 1
forward 1 1
restart hub
fetch 1
forward 1 1
forward 1 1
fetch 1
take 1
close 1 1 19723
fetch 1
take 1
close 1 1 19723
restart hub
forward 1 1
dayack 1 19723
answer 1
arrive 3
state 1 19723 1
";

pub const A_STATEMENT_OUTLIVES_A_RESTART_ANSWERED: &[u8] = b"ok
record 1 1
open 19724
packet 1 link 1
packet 2 day 19723 owner 1
accepted
accepted
drawn 1 link 1
stored 1 link 1
drawn 1 day 19723 owner 1
stored 1 day 19723 owner 1
forwarded lane 1
forwarded day 19723
restarted
empty
forwarded lane 1
forwarded day 19723
fetched 1 lane 1
taken 1 lane 1
refused Unstated
fetched 1 day 19723
stated 1 day 19723 count 1
closed 1 19723
restarted
idle
dayack 19723
packet 3 dayack 1 19723
acked day 19723
refused NotWaiting
";

pub const A_DAY_OF_WINDOWS: &[u8] = b"hop 1 60
owner 1 8
operator 1
station 1 1
product 1 1 175
caps 1 525 2470
hop 1 3600
device 1 1 8
zone GMT0BST,M3.5.0/1,M10.5.0
start 19723
seal
hop 1 60
tap 1 1 77 1704100000
tap 1 1 77 1704101800
tap 1 1 77 1704103600
tap 1 1 77 1704103601
tap 1 1 77 1704107201
turn 1
send 1
send 1
send 1
send 1
send 1
state 1 19723 1
arrive 1
arrive 2
arrive 3
arrive 4
arrive 5
arrive 6
draw
store
draw
store
draw
store
draw
store
draw
store
draw
store
forward 1 1
forward 1 1
forward 1 1
forward 1 1
forward 1 1
forward 1 1
fetch 1
take 1
fetch 1
take 1
fetch 1
take 1
fetch 1
take 1
fetch 1
take 1
fetch 1
take 1
close 1 1 19723
bill 1 19723
settle 1 19723
bill 1 19724
";

pub const A_DAY_OF_WINDOWS_ANSWERED: &[u8] = b"refused UnknownParent
ok
ok
ok
ok
ok
ok
ok
ok
ok
ok
refused Sealed
record 1 1
record 2 2
record 3 3
record 4 4
record 5 5
open 19724
packet 1 link 1
packet 2 link 2
packet 3 link 3
packet 4 link 4
packet 5 link 5
packet 6 day 19723 owner 1
accepted
accepted
accepted
accepted
accepted
accepted
drawn 1 link 1
stored 1 link 1
drawn 1 link 2
stored 1 link 2
drawn 1 link 3
stored 1 link 3
drawn 1 link 4
stored 1 link 4
drawn 1 link 5
stored 1 link 5
drawn 1 day 19723 owner 1
stored 1 day 19723 owner 1
forwarded lane 1
forwarded lane 2
forwarded lane 3
forwarded lane 4
forwarded lane 5
forwarded day 19723
fetched 1 lane 1
taken 1 lane 1
fetched 1 lane 2
taken 1 lane 2
fetched 1 lane 3
taken 1 lane 3
fetched 1 lane 4
taken 1 lane 4
fetched 1 lane 5
taken 1 lane 5
fetched 1 day 19723
stated 1 day 19723 count 5
closed 1 19723
bill 1 19723 1 350
account 1 77 5 350
settlement 1 19723 1
operator 1 5 350
refused NotClosed 1
";
