use thiserror::Error;

/// Why a piece of a stream was not read to its end.
#[derive(Clone, Copy, PartialEq, Eq, Debug, Error)]
pub enum ReadFault {
    /// The next frame's length is none of a frame, or not that of the frame's type.
    #[error("no frame has this length")]
    BadLength,
    /// The next frame's type is none.
    #[error("no frame has this type")]
    BadType,
    /// The next frame's body is that of no value.
    #[error("a number in the frame is out of its limits")]
    BadBody,
    /// There was no memory for the frames.
    #[error("no memory")]
    Memory,
    /// The stream ended at an earlier fault.
    #[error("the stream has failed")]
    Failed,
}
