//! Traces and their replies, for the tests.

pub const ONE_TAP: &[u8] = b"demo 1 4 4 4
tap 1 1 77 1704100000
send 1
arrive 1
draw
store
forward 1 1
fetch 1
take 1
upto 1
count 1 1
";

pub const ONE_TAP_ANSWERED: &[u8] = b"ok
record 1 1
packet 1 link 1
accepted
drawn 1 link 1
stored 1 link 1
forwarded lane 1
fetched 1 lane 1
taken 1 lane 1
upto 1
count 1
";

pub const FULL_BUFFER: &[u8] = b"demo 1 2 4 4
tap 1 1 77 1704100000
tap 1 1 77 1704100000
tap 1 1 77 1704100000
send 1
arrive 1
draw
store
ack 1
answer 1
arrive 2
tap 1 1 77 1704100000
arrive 2
";

pub const FULL_BUFFER_ANSWERED: &[u8] = b"ok
record 1 1
record 2 2
refused BufferFull
packet 1 link 1
accepted
drawn 1 link 1
stored 1 link 1
ack 1
packet 2 ack 1 1
acked 1
record 3 3
acked 0
";

pub const OUT_OF_ORDER_AND_REPEAT: &[u8] = b"demo 1 4 4 4
tap 1 1 77 1704100000
tap 1 1 77 1704100000
send 1
send 1
arrive 2
arrive 1
arrive 1
arrive 2
";

pub const OUT_OF_ORDER_AND_REPEAT_ANSWERED: &[u8] = b"ok
record 1 1
record 2 2
packet 1 link 1
packet 2 link 2
refused Ahead
accepted
refused Old
accepted
";

pub const DAY_EDGES: &[u8] = b"demo 1 4 4 4
tap 1 1 77 1704083399
tap 1 1 77 1704186400
";

pub const DAY_EDGES_ANSWERED: &[u8] = b"ok
refused DayClosed
refused DayAhead
";

pub const REFUSALS_AND_IDLES: &[u8] = b"demo 1 4 4 4
tap 1 1 77 0
tap 9 1 77 1704100000
tap 1 9 77 1704100000
arrive 1
send 1
draw
store
answer 1
";

pub const REFUSALS_AND_IDLES_ANSWERED: &[u8] = b"ok
refused BadMoment
refused UnknownDevice
refused UnknownProduct
refused NoPacket
idle
empty
idle
empty
";

pub const REGISTRAR_REFUSALS: &[u8] = b"owner 0 4
owner 1 4
owner 1 4
product 1 2 175
product 1 1 100001
seal
send 1
demo 1 4 4 4
";

pub const REGISTRAR_REFUSALS_ANSWERED: &[u8] = b"refused ZeroId
ok
refused Taken
refused UnknownParent
refused Range
refused NothingRegistered
refused Unsealed
refused Taken
";

pub const HOP_LINES: &[u8] = b"owner 1 4
product 1 1 175
hop 1 7201
hop 9 60
hop 1 3600
";

pub const HOP_LINES_ANSWERED: &[u8] = b"ok
ok
refused Range
refused UnknownParent
ok
";

pub const REGISTRAR_SEALS: &[u8] = b"owner 1 4
operator 1
station 1 1
product 1 1 175
device 1 1 4
seal
start 19723
seal
zone GMT0BST,M3.5.0/1,M10.5.0
seal
seal
tap 1 1 77 1704100000
";

pub const REGISTRAR_SEALS_ANSWERED: &[u8] = b"ok
ok
ok
ok
ok
refused NoStart
ok
refused NoZone
ok
ok
refused Sealed
record 1 1
";

pub const SETTINGS: &[u8] = b"operator 0
operator 1
station 1 2
station 1 1
owner 1 0
owner 1 1024
product 1 1 100000
caps 2 0 0
caps 1 1000001 0
caps 1 0 10000001
caps 1 1000000 10000000
device 1 1 4097
device 1 1 4096
device 1 1 4096
inbox 0
inbox 1025
inbox 1
start 100001
start 100000
zone x
demo 2 1 1 1
seal
zone JST-9
draw
seal
demo 1 0 0 0
draw
";

pub const SETTINGS_ANSWERED: &[u8] = b"refused ZeroId
ok
refused UnknownParent
ok
refused Range
ok
ok
refused UnknownParent
refused Range
refused Range
ok
refused Range
ok
refused Taken
refused Range
refused Range
ok
refused Range
ok
refused BadZone
refused Taken
refused NoZone
ok
refused Unsealed
ok
refused Sealed
empty
";

// 04:29:59 and 04:30:00 of 1 January 2024 in Tokyo.
pub const LAST_ZONE_COUNTS: &[u8] = b"owner 1 4
operator 1
station 1 1
product 1 1 175
device 1 1 4
zone GMT0BST,M3.5.0/1,M10.5.0
start 19723
zone JST-9
zone x
seal
tap 1 1 77 1704050999
tap 1 1 77 1704051000
";

pub const LAST_ZONE_COUNTS_ANSWERED: &[u8] = b"ok
ok
ok
ok
ok
ok
ok
ok
refused BadZone
ok
refused DayClosed
record 1 1
";

pub const WRITER_RESTART: &[u8] = b"demo 1 4 4 4
tap 1 1 77 1704100000
tap 1 1 77 1704100000
send 1
send 1
arrive 1
arrive 2
draw
restart writer
draw
store
upto 1
resume 1
arrive 1
draw
store
arrive 2
draw
store
upto 1
";

pub const WRITER_RESTART_ANSWERED: &[u8] = b"ok
record 1 1
record 2 2
packet 1 link 1
packet 2 link 2
accepted
accepted
drawn 1 link 1
restarted
drawn 1 link 2
refused Gap
upto 0
resumed 0
accepted
drawn 1 link 1
stored 1 link 1
accepted
drawn 1 link 2
stored 1 link 2
upto 2
";

// Two devices: what was sent is sent again, a station and a device restart, and taps are acknowledged.
pub const SENT_AGAIN: &[u8] = b"demo 2 4 4 4
tap 1 1 77 1704100000
tap 2 1 78 1704100000
send 1
send 2
send 1
rewind 1
send 1
restart device 2
send 2
arrive 1
arrive 3
arrive 2
restart station 1
arrive 3
arrive 4
ack 1
answer 1
arrive 5
draw
store
draw
store
draw
store
ack 1
ack 1
answer 2
answer 1
arrive 6
arrive 6
send 1
";

pub const SENT_AGAIN_ANSWERED: &[u8] = b"ok
record 1 1
record 1 1
packet 1 link 1
packet 2 link 1
idle
rewound
packet 3 link 1
restarted
packet 4 link 1
accepted
refused Old
accepted
restarted
accepted
refused Old
ack 0
packet 5 ack 1 0
acked 0
drawn 1 link 1
stored 1 link 1
drawn 2 link 1
stored 2 link 1
drawn 1 link 1
refused Duplicate
ack 1
ack 1
empty
packet 6 ack 1 1
acked 1
acked 0
idle
";

pub const UNKNOWN_PARTS: &[u8] = b"demo 1 4 4 4
rewind 2
ack 2
answer 2
resume 2
restart device 2
restart station 2
resume 1
restart writer
";

pub const UNKNOWN_PARTS_ANSWERED: &[u8] = b"ok
refused UnknownDevice
refused UnknownDevice
refused UnknownStation
refused UnknownDevice
refused UnknownDevice
refused UnknownStation
resumed 0
restarted
";

pub const FULL_INBOX: &[u8] = b"demo 1 4 1 4
tap 1 1 77 1704100000
tap 1 1 77 1704100000
send 1
send 1
arrive 1
arrive 2
draw
arrive 2
draw
";

pub const FULL_INBOX_ANSWERED: &[u8] = b"ok
record 1 1
record 2 2
packet 1 link 1
packet 2 link 2
accepted
refused Busy
drawn 1 link 1
accepted
refused HandFull
";

pub const PRUNE_AND_OWNER_RESTART: &[u8] = b"demo 1 4 4 4
tap 1 1 77 1704100000
tap 1 1 77 1704100000
send 1
send 1
arrive 1
arrive 2
draw
store
draw
store
forward 1 1
forward 1 1
prune 1 1
restart owner 1
fetch 1
forward 1 1
fetch 1
take 1
prune 1 1
restart owner 1
forward 1 1
fetch 1
take 1
count 1 1
forward 1 1
";

pub const PRUNE_AND_OWNER_RESTART_ANSWERED: &[u8] = b"ok
record 1 1
record 2 2
packet 1 link 1
packet 2 link 2
accepted
accepted
drawn 1 link 1
stored 1 link 1
drawn 1 link 2
stored 1 link 2
forwarded lane 1
forwarded lane 2
pruned 0
restarted
empty
forwarded lane 1
fetched 1 lane 1
taken 1 lane 1
pruned 1
restarted
forwarded lane 2
fetched 1 lane 2
taken 1 lane 2
count 2
idle
";

// A seal that is refused changes nothing: the inbox has room for 1,024 items.
pub const SEALED_LATER: &[u8] = b"owner 1 4
seal
operator 1
station 1 1
product 1 1 175
device 1 1 4
start 19723
zone GMT0BST,M3.5.0/1,M10.5.0
seal
tap 1 1 77 1704100000
tap 1 1 77 1704100000
send 1
send 1
arrive 1
arrive 2
";

pub const SEALED_LATER_ANSWERED: &[u8] = b"ok
refused NothingRegistered
ok
ok
ok
ok
ok
ok
ok
record 1 1
record 2 2
packet 1 link 1
packet 2 link 2
accepted
accepted
";
