use fare_record::Item;
use thiserror::Error;

/// Why no lane queue was made.
#[derive(Clone, Copy, PartialEq, Eq, Debug, Error)]
pub enum LaneQueueFault {
    /// The capacity is not 1 to 1,024, or a device has two bases.
    #[error("the capacity or the bases are out of their range")]
    Range,
    /// There was no memory for it.
    #[error("no memory")]
    Memory,
}

/// An item that found the queue full.
#[derive(Clone, Copy, PartialEq, Eq, Debug, Error)]
#[error("the lane queue is full")]
pub struct Full(pub Item);
