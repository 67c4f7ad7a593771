use thiserror::Error;

/// Why bytes are the body of no value. Where several reasons apply, the first of these is answered.
#[derive(Clone, Copy, PartialEq, Eq, Debug, Error)]
pub enum RecordFault {
    /// An id is 0.
    #[error("an id is 0")]
    ZeroId,
    /// A link, lane or acknowledged number, a token or a count is out of its limits.
    #[error("a number is out of its limits")]
    NumberRange,
    /// A day or a moment is out of its limits.
    #[error("a day or a moment is out of its limits")]
    DayRange,
    /// A route is spelled, and is 0.
    #[error("a route is 0")]
    ZeroRoute,
}
