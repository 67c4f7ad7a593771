use thiserror::Error;

/// What an inbox or an acknowledgement line may hold at most.
pub(crate) const MOST_CAPACITY: u32 = 1024;

/// Why no queue was made.
#[derive(Clone, Copy, PartialEq, Eq, Debug, Error)]
pub enum QueueFault {
    /// The capacity is not 1 to 1,024; or, of an inbox, there is no station, more than 16, or one that is named
    /// twice.
    #[error("the capacity or the stations are out of their range")]
    Range,
    /// There was no memory for it.
    #[error("no memory")]
    Memory,
}

/// An item that found its queue full.
#[derive(Clone, Copy, PartialEq, Eq, Debug, Error)]
#[error("the queue is full")]
pub struct Full<T>(pub T);
