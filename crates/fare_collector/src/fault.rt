use thiserror::Error;

/// Why there is no collector, in the order in which this is tested.
#[derive(Clone, Copy, PartialEq, Eq, Debug, Error)]
pub enum CollectorFault {
    /// The station isn't registered.
    #[error("the station isn't registered")]
    UnknownStation,
    /// No memory is left for it.
    #[error("out of memory")]
    Memory,
}

/// Why a tap isn't accepted, in the order in which this is tested.
#[derive(Clone, Copy, PartialEq, Eq, Debug, Error)]
pub enum CollectRefusal {
    /// Its device isn't one of this station.
    #[error("the device isn't one of this station")]
    Stranger,
    /// Its owner isn't the owner of its product, or its product isn't registered.
    #[error("the owner isn't the product's")]
    Misrouted,
    /// Its link was accepted before.
    #[error("the link was accepted before")]
    Old,
    /// An earlier link comes first.
    #[error("an earlier link comes first")]
    Ahead,
}

/// Why a statement isn't accepted, in the order in which this is tested.
#[derive(Clone, Copy, PartialEq, Eq, Debug, Error)]
pub enum StatementRefusal {
    /// Its device isn't one of this station.
    #[error("the device isn't one of this station")]
    Stranger,
    /// Its owner isn't registered.
    #[error("the owner isn't registered")]
    Misrouted,
}
