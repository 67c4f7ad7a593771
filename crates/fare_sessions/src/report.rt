use fare_session::SessionFault;

/// What a list of sessions did.
#[derive(Drop)]
pub struct SessionsReport {
    /// How many items, taps and statements alike, the outbox stored that it had not stored before; it stays at
    /// 2^64 - 1.
    pub stored: u64,
    /// How many items the ledgers took that they didn't hold yet; it stays at 2^64 - 1.
    pub taken: u64,
    /// How many items were left in hands and queues at the ends of the sessions; it stays at 2^64 - 1.
    pub left: u64,
    /// The faults, each with the place of its session in the list.
    pub faults: Vec<(usize, SessionFault)>,
    /// Whether the supervisor gave up, so that the sessions after the last fault's did not run.
    pub gave_up: bool,
}
