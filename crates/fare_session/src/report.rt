use crate::fault::SessionFault;

/// What a session of an owner did.
#[derive(Clone, Copy, PartialEq, Eq, Debug)]
pub struct OwnerReport {
    /// How many items, taps and statements alike, the ledger took that it didn't hold yet; it stays at 2^64 - 1.
    pub taken: u64,
    /// How many items are left: the one in the owner's hand, those behind it in its batch, and those in its lane queue.
    pub left: u64,
    /// Why it ended early, if it did: the owner's fault, else the forwarder's.
    pub fault: Option<SessionFault>,
}
