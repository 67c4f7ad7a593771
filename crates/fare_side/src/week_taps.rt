ghost use Rattle.std.specs.Prelude.{◌≡◌};

use fare_record::{DeviceId, Record};

/// What there is to bill of a week up to a day.
pub struct WeekTaps {
    /// The taps, by day, moment, device and lane number.
    pub taps: Vec<Record>,
    /// The devices of which they are short, in order of registration: their lanes are retired, and the day was not closed.
    pub short: Vec<DeviceId>,
}

// It is written out, so that a caller doesn't prove again how each part is let go.
impl Drop for WeekTaps {
    fn drop(self) {
        let WeekTaps { taps, short } = self;
        drop(taps);
        drop(short);
    }
}

impl WeekTaps {
    /// Its parts: the taps, and the devices of which they are short.
    pub fn into_parts(self) -> (Vec<Record>, Vec<DeviceId>)
        ensures taps { result.0 ≡ self.taps }
        ensures short { result.1 ≡ self.short }
    {
        let WeekTaps { taps, short } = self;
        (taps, short)
    }
}
