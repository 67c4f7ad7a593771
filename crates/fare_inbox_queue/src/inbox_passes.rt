ghost use Rattle.std.specs.Prelude.{◌≡◌};
ghost use Rattle.fare_inbox_queue.specs.InboxPasses.{station_of};

use crate::Arrived;
use crate::inbox_rule::View;
use crossbeam_queue::Pass;
use fare_record::StationId;

/// The right to put into one inbox for one station, which the station's thread has. Contracts see the list of
/// what was put with it.
pub struct StationPass {
    pub(crate) pass: Pass<Arrived, View>,
    pub(crate) station: StationId,
}

impl Drop for StationPass {
    fn drop(self) {
        let StationPass { pass, station: _ } = self;
        drop(pass);
    }
}

impl StationPass {
    /// Its station.
    pub fn station(&self) -> StationId
        ensures { result ≡ station_of self.now }
    {
        self.station
    }

    // The inbox's pass in it.
    pub(crate) fn into_pass(self) -> Pass<Arrived, View>
        ensures { result ≡ self.pass }
    {
        let StationPass { pass, station: _ } = self;
        pass
    }
}

/// The right to take from one inbox, which the writer's thread has. Contracts see the list of what was taken
/// with it.
pub struct WriterPass {
    pub(crate) pass: Pass<Arrived, View>,
    pub(crate) count: u64,
}

impl Drop for WriterPass {
    fn drop(self) {
        let WriterPass { pass, count: _ } = self;
        drop(pass);
    }
}

impl WriterPass {
    // The inbox's pass in it, and how many items were taken with it.
    pub(crate) fn into_parts(self) -> (Pass<Arrived, View>, u64)
        ensures { result ≡ (self.pass, self.count) }
    {
        let WriterPass { pass, count } = self;
        (pass, count)
    }
}
