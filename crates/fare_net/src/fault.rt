use fare_frame::ReadFault;
use thiserror::Error;

/// Why a turn of a station found no bytes, or not only frames in them, in the order in which this is tested.
#[derive(Clone, Copy, PartialEq, Eq, Debug, Error)]
pub enum NetFault {
    /// The reader failed.
    #[error("read failed")]
    Read,
    /// A fault of the stream stands behind the frames that were added; or the stream had failed before.
    #[error("{0}")]
    Frame(ReadFault),
    /// There was no memory for the frames. The bytes read are lost, so the stream has failed.
    #[error("out of memory")]
    Memory,
}

/// Why an answer did not go out, in the order in which this is tested.
#[derive(Clone, Copy, PartialEq, Eq, Debug, Error)]
pub enum AnswerFault {
    /// There was no memory. Nothing was written.
    #[error("out of memory")]
    Memory,
    /// The writer failed. How much of the frame went out is not said.
    #[error("write failed")]
    Write,
}

/// Why a line is no station's, in the order in which this is tested.
#[derive(Clone, Copy, PartialEq, Eq, Debug, Error)]
pub enum HelloFault {
    /// The first frame is no greeting, or the line ended before it.
    #[error("no greeting")]
    NoHello,
    /// The greeting is of another version of the frames.
    #[error("another version of the frames")]
    BadVersion,
    /// The scheme has no such device.
    #[error("a device that the scheme lacks")]
    UnknownDevice,
    /// The line failed before a frame was there, or it was refused before.
    #[error("the line failed")]
    Failed,
}

/// Why nothing was heard of a line.
#[derive(Clone, Copy, PartialEq, Eq, Debug, Error)]
pub enum ListenFault {
    /// There was no memory.
    #[error("out of memory")]
    Memory,
    /// It is no station's.
    #[error("{0}")]
    Hello(HelloFault),
}
