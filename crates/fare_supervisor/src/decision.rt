use fare_record::{OwnerId, StationId};

/// The part of the hub that met a fault.
#[derive(Clone, Copy, PartialEq, Eq, Debug)]
pub enum Fault {
    /// A station, or the source that it reads.
    Station(StationId),
    /// The writer, which stores what the stations collect.
    Writer,
    /// The outbox, which holds it for the owners.
    Outbox,
    /// An owner, or the forwarding to it.
    Owner(OwnerId),
}

/// What follows a fault.
#[derive(Clone, Copy, PartialEq, Eq, Debug)]
pub enum Action {
    /// Restart that station.
    RestartStation(StationId),
    /// Restart the hub: all of it but the devices.
    RestartHub,
    /// Restart that owner.
    RestartOwner(OwnerId),
    /// Restart nothing any more.
    GiveUp,
}
