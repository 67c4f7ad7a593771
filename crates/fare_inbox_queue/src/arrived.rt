use fare_record::{Record, Statement, StationId};

/// What a station has accepted, on its way to the outbox.
#[derive(Clone, Copy, PartialEq, Eq, Debug)]
pub enum Arrived {
    /// A tap that came to the station.
    Tap(StationId, Record),
    /// A statement that came to the station.
    Stated(StationId, Statement),
}
