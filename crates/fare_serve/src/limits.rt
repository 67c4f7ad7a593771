/// How often and how long a hub that serves waits for others, and how long a round is.
#[derive(Clone, Copy, PartialEq, Eq, Debug)]
pub struct Limits {
    /// How often each part tries again before it gives up: how many attempts there are to gather the first lines (one
    /// at least), how often each line is read where it is read to its end, and how often in a row each thread of a
    /// session may find nothing to do.
    pub turns: u32,
    /// How many milliseconds a read of a line waits for its first byte; at least 1.
    pub read_millis: u32,
    /// How many milliseconds a write to a line waits for room; at least 1.
    pub write_millis: u32,
    /// How many rounds are served at most; one is always served.
    pub rounds: u32,
    /// For how many reads, of so many milliseconds each, no line may bring anything before a round's lines are read no
    /// more; at least 1. Where there is only one round each line is read to its end.
    pub patience: u32,
    /// After how many milliseconds of a round the stations' lines are read no more; at least 1. Where there is only one
    /// round each line is read to its end.
    pub round_millis: u32,
}
