//! Why lines were refused, or broke. No contract speaks of these counts.
use fare_net::HelloFault;
use fare_session::SessionFault;

/// How many lines were refused, by the reason. Each count stays at 2^64 - 1.
#[derive(Clone, Copy, PartialEq, Eq, Debug)]
pub struct RefusedLines {
    /// The first frame was no greeting, or the line ended before it.
    pub no_hello: u64,
    /// The greeting was of another version of the frames.
    pub bad_version: u64,
    /// The scheme lacks the device that greeted.
    pub unknown_device: u64,
    /// The line failed before a frame was there.
    pub failed: u64,
    /// There was no greeting in time.
    pub no_greeting: u64,
    /// Before the first round the station had a line.
    pub second: u64,
}

/// How many lines broke, by the reason. Each count stays at 2^64 - 1.
#[derive(Clone, Copy, PartialEq, Eq, Debug)]
pub struct BrokenLines {
    /// The line failed, or what came off it were no frames.
    pub failed: u64,
    /// A frame came off it that no validator sends.
    pub unexpected: u64,
}

// One more.
fn add_one(count: &mut u64) {
    *count = count.saturating_add(1);
}

impl RefusedLines {
    pub(crate) fn none() -> RefusedLines {
        RefusedLines {
            no_hello: 0,
            bad_version: 0,
            unknown_device: 0,
            failed: 0,
            no_greeting: 0,
            second: 0,
        }
    }

    // A guest that is no station's.
    pub(crate) fn add(&mut self, fault: HelloFault) {
        match fault {
            HelloFault::NoHello => add_one(&mut self.no_hello),
            HelloFault::BadVersion => add_one(&mut self.bad_version),
            HelloFault::UnknownDevice => add_one(&mut self.unknown_device),
            HelloFault::Failed => add_one(&mut self.failed),
        }
    }

    // A guest that did not greet in time.
    pub(crate) fn add_no_greeting(&mut self) {
        add_one(&mut self.no_greeting);
    }

    // A second line of a station.
    pub(crate) fn add_second(&mut self) {
        add_one(&mut self.second);
    }
}

impl BrokenLines {
    pub(crate) fn none() -> BrokenLines {
        BrokenLines {
            failed: 0,
            unexpected: 0,
        }
    }

    // A line that broke by a fault of its own; another fault breaks none.
    pub(crate) fn add(&mut self, fault: &SessionFault) {
        match fault {
            SessionFault::Source(_) => add_one(&mut self.failed),
            SessionFault::Unexpected(_) => add_one(&mut self.unexpected),
            SessionFault::Refused | SessionFault::Memory | SessionFault::Store => {}
        }
    }
}
