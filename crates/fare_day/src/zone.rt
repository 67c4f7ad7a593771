ghost use Rattle.std.specs.Prelude.{◌≡◌, ◌↔◌, IsOk, IfOk, IsSome};
ghost use Rattle.jiff_tz.specs.PosixReader.{read_whole};

use fare_record::Moment;
use jiff_core::Timestamp;
use jiff_tz::{TimeZone, posix};
use thiserror::Error;

/// A text that no rule for a zone's clock can be read from.
#[derive(Clone, Copy, PartialEq, Eq, Debug, Error)]
#[error("not a rule for a zone's clock")]
pub struct BadZone;

const NANOSECONDS_A_SECOND: i128 = 1_000_000_000;

/// The rule of a zone's clock: how far it is ahead of UTC at each moment.
#[derive(Clone, Copy, PartialEq, Eq, Debug)]
pub struct Zone {
    rule: TimeZone<'static>,
}

impl Zone {
    ghost use Rattle.fare_day.specs.Clock.{offset_at, HasRule, IsOffset};

    /// Reads a rule as POSIX writes it in `TZ`, such as `GMT0BST,M3.5.0/1,M10.5.0`.
    ///
    /// `BadZone` where the text is no such rule.
    pub fn read(text: &str) -> Result<Zone, BadZone>
        ensures ok { IsOk result ↔ IsSome (read_whole text.now) }
        ensures rule { IfOk result (λ zone. HasRule zone text.now) }
    {
        match posix::TimeZone::parse(text.as_bytes()) {
            Ok(rule) => Ok(Zone {
                rule: TimeZone::Posix(rule),
            }),
            Err(_) => Err(BadZone),
        }
    }

    // How many seconds the clock is ahead of UTC at the moment.
    pub(crate) fn offset(&self, moment: Moment) -> i32
        ensures value { result ≡ offset_at self.now moment }
        ensures within { IsOffset result }
    {
        let nanoseconds = moment.get() as i128 * NANOSECONDS_A_SECOND;
        let instant = Timestamp::from_nanosecond(nanoseconds).unwrap();
        self.rule.to_offset(instant).seconds
    }
}
