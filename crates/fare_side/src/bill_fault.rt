use fare_record::DeviceId;
use thiserror::Error;

/// Why there is no bill and no settlement of a day, in the order in which this is tested.
#[derive(Clone, Copy, PartialEq, Eq, Debug, Error)]
pub enum BillFault {
    /// The owner is not registered.
    #[error("the owner isn't registered")]
    UnknownOwner,
    /// The day is before the scheme's first one.
    #[error("the day is before the first one")]
    BeforeStart,
    /// The owner has neither closed the day of this device nor retired its lane, the first such one in order of
    /// registration.
    #[error("the day of a device is not closed")]
    NotClosed { device: DeviceId },
}
