ghost use Rattle.std.specs.Prelude.{◌≡◌, max, IfSome};
ghost use Rattle.fare_record.specs.Limits.{IsCount};
ghost use Rattle.fare_ledger.specs.Fronts.{before_first};

use fare_record::Day;

/// How many taps of a device a ledger has taken, and how many of its days are closed, from the scheme's first on.
#[derive(Clone, Copy)]
pub(crate) struct Lane {
    pub(crate) taken: u64,
    pub(crate) closed: u64,
}

/// How many of a device's first taps go, and the day from which on all of it is held then.
#[derive(Clone, Copy)]
pub(crate) struct Cut {
    pub(crate) upto: u64,
    pub(crate) since: Day,
}

// How many taps stand before the first that stays.
pub(crate) fn count_before(kept: Option<u64>, taken: u64) -> u64
    requires first { IfSome kept IsCount }
    requires all { IsCount taken }
    ensures value { result ≡ before_first kept taken }
    ensures within { IsCount result }
{
    match kept {
        Some(lane) => lane.saturating_sub(1),
        None => taken,
    }
}

// What goes, where this is the first tap that stays of so many.
pub(crate) fn cut_of(kept: Option<u64>, taken: u64, since: Day, day: Day) -> Cut
    requires first { IfSome kept IsCount }
    requires all { IsCount taken }
    ensures upto { result.upto ≡ before_first kept taken }
    ensures since { result.since ≡ max since day }
    ensures within { IsCount result.upto }
{
    Cut {
        upto: count_before(kept, taken),
        since: since.max(day),
    }
}
