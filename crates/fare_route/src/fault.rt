use thiserror::Error;

/// Why there is no forwarder, in the order in which this is tested.
#[derive(Clone, Copy, PartialEq, Eq, Debug, Error)]
pub enum StartFault {
    /// The owner isn't registered.
    #[error("the owner isn't registered")]
    UnknownOwner,
    /// There isn't one count for each device.
    #[error("not one count for each device")]
    Range,
    /// No memory is left for it.
    #[error("out of memory")]
    Memory,
}

/// The device isn't one of the scheme.
#[derive(Clone, Copy, PartialEq, Eq, Debug, Error)]
#[error("the device isn't registered")]
pub struct UnknownDevice;
