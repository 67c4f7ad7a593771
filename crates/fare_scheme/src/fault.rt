use thiserror::Error;

/// Why an addition to a draft is refused, in the order in which this is tested.
#[derive(Clone, Copy, PartialEq, Eq, Debug, Error)]
pub enum AddFault {
    /// The id that was to be added is 0.
    #[error("0 is no identifier")]
    ZeroId,
    /// The id is registered.
    #[error("the identifier is taken")]
    Taken,
    /// What the addition belongs to isn't registered.
    #[error("its parent isn't registered")]
    UnknownParent,
    /// A number is out of range.
    #[error("a number is out of range")]
    Range,
    /// As many as there may be are registered.
    #[error("too many are registered")]
    TooMany,
    /// No memory is left for it.
    #[error("out of memory")]
    Memory,
}

/// Why the caps of a product aren't set, in the order in which this is tested.
#[derive(Clone, Copy, PartialEq, Eq, Debug, Error)]
pub enum CapsFault {
    /// The product isn't registered.
    #[error("the product isn't registered")]
    UnknownParent,
    /// A cap is out of range.
    #[error("a cap is out of range")]
    Range,
}

/// Why the window of a product isn't set, in the order in which this is tested.
#[derive(Clone, Copy, PartialEq, Eq, Debug, Error)]
pub enum HopFault {
    /// The product isn't registered.
    #[error("the product isn't registered")]
    UnknownParent,
    /// The window is out of range.
    #[error("the window is out of range")]
    Range,
}

/// A number that is out of range.
#[derive(Clone, Copy, PartialEq, Eq, Debug, Error)]
#[error("a number is out of range")]
pub struct OutOfRange;

/// Why a draft isn't sealed, in the order in which this is tested.
#[derive(Clone, Copy, PartialEq, Eq, Debug, Error)]
pub enum SealFault {
    /// There is no owner, no operator, no station, no product or no device.
    #[error("nothing is registered of some kind")]
    NothingRegistered,
    /// The first traffic day isn't set.
    #[error("no start day is set")]
    NoStart,
    /// The zone isn't set.
    #[error("no zone is set")]
    NoZone,
}
