//! Traces, each with what it is answered.

use crate::traces::*;
use crate::traces_of_days::*;
use crate::traces_of_retired::*;
use crate::traces_of_routes::*;

/// A trace and the replies to its lines.
type Worked = (&'static [u8], &'static [u8]);

/// Taps on their way, with what is refused, repeated, lost and started again.
pub(crate) const TRACES_OF_TAPS: [Worked; 11] = [
    (b"", b""),
    (ONE_TAP, ONE_TAP_ANSWERED),
    (FULL_BUFFER, FULL_BUFFER_ANSWERED),
    (OUT_OF_ORDER_AND_REPEAT, OUT_OF_ORDER_AND_REPEAT_ANSWERED),
    (DAY_EDGES, DAY_EDGES_ANSWERED),
    (REFUSALS_AND_IDLES, REFUSALS_AND_IDLES_ANSWERED),
    (WRITER_RESTART, WRITER_RESTART_ANSWERED),
    (FULL_INBOX, FULL_INBOX_ANSWERED),
    (PRUNE_AND_OWNER_RESTART, PRUNE_AND_OWNER_RESTART_ANSWERED),
    (SENT_AGAIN, SENT_AGAIN_ANSWERED),
    (UNKNOWN_PARTS, UNKNOWN_PARTS_ANSWERED),
];

/// Days with their statements, closes, bills and settlements.
pub(crate) const TRACES_OF_DAYS: [Worked; 10] = [
    (SHORT_COUNT_THEN_CLOSE, SHORT_COUNT_THEN_CLOSE_ANSWERED),
    (DAYS_IN_ORDER, DAYS_IN_ORDER_ANSWERED),
    (EIGHT_WAITING_DAYS, EIGHT_WAITING_DAYS_ANSWERED),
    (TWO_DEVICES_CLOSE, TWO_DEVICES_CLOSE_ANSWERED),
    (A_DAY_WITH_BILL, A_DAY_WITH_BILL_ANSWERED),
    (A_STATEMENT_GOES_ONCE, A_STATEMENT_GOES_ONCE_ANSWERED),
    (
        A_STATEMENT_OUTLIVES_A_RESTART,
        A_STATEMENT_OUTLIVES_A_RESTART_ANSWERED,
    ),
    (SMALL_ROOMS, SMALL_ROOMS_ANSWERED),
    (TWO_OWNERS_A_DAY, TWO_OWNERS_A_DAY_ANSWERED),
    (A_DAY_OF_WINDOWS, A_DAY_OF_WINDOWS_ANSWERED),
];

/// Devices that are retired, and the bills of their days.
pub(crate) const TRACES_OF_RETIRED: [Worked; 5] = [
    (RETIRED_DEVICE, RETIRED_DEVICE_ANSWERED),
    (
        RETIRED_WITH_A_TAP_IN_HAND,
        RETIRED_WITH_A_TAP_IN_HAND_ANSWERED,
    ),
    (
        RETIRED_WITH_TAPS_ON_THEIR_WAY,
        RETIRED_WITH_TAPS_ON_THEIR_WAY_ANSWERED,
    ),
    (RETIRED_WITH_A_TAP_TAKEN, RETIRED_WITH_A_TAP_TAKEN_ANSWERED),
    (THREE_DEVICES, THREE_DEVICES_ANSWERED),
];

/// Taps that say on which route they were made, and the settlement of their day.
pub(crate) const TRACES_OF_ROUTES: [Worked; 1] = [(A_DAY_WITH_ROUTE, A_DAY_WITH_ROUTE_ANSWERED)];

/// Schemes registered and sealed line by line, and what comes before they are.
pub(crate) const TRACES_OF_SCHEMES: [Worked; 10] = [
    (HOP_LINES, HOP_LINES_ANSWERED),
    (REGISTRAR_REFUSALS, REGISTRAR_REFUSALS_ANSWERED),
    (REGISTRAR_SEALS, REGISTRAR_SEALS_ANSWERED),
    (SETTINGS, SETTINGS_ANSWERED),
    (LAST_ZONE_COUNTS, LAST_ZONE_COUNTS_ANSWERED),
    (
        b"demo 2 4 4 4\nupto 2\ncount 1 2\ntap 2 1 7 1704100000\nupto 3\n",
        b"ok\nupto 0\ncount 0\nrecord 1 1\nrefused UnknownDevice\n",
    ),
    (
        b"draw\ndemo 1 4096 1024 1024\ndraw\ndemo 1 4 4 4\ndemo 1 0 0 0\nupto 1\n",
        b"refused Unsealed\nok\nempty\nrefused Sealed\nrefused Sealed\nupto 0\n",
    ),
    (
        b"send 1\ndemo 1 0 4 4\ndemo 1 4 1025 4\nupto 1",
        b"refused Unsealed\nrefused Range\nrefused Range\nrefused Unsealed\n",
    ),
    (b"send 1\ndraw", b"refused Unsealed\nrefused Unsealed\n"),
    (SEALED_LATER, SEALED_LATER_ANSWERED),
];
