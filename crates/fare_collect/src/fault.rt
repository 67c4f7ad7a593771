use fare_source::SourceFault;

/// What ended a station.
#[derive(Clone, Copy)]
pub(crate) enum StationFault {
    /// Its source failed.
    Source,
    /// Its source gave a frame that no device sends.
    Unexpected,
    /// No memory is left for it.
    Memory,
}

// The station's fault of a source's.
impl From<SourceFault> for StationFault {
    ghost use Rattle.std.specs.Prelude.{◌≡◌};
    ghost use Rattle.fare_collect.specs.Stations.{as_station};

    ghost from_gives = { λ fault e. e ≡ as_station fault };

    fn from(fault: SourceFault) -> StationFault {
        match fault {
            SourceFault::Failed => StationFault::Source,
            SourceFault::Memory => StationFault::Memory,
        }
    }
}
