use std::sync::atomic::{AtomicBool, Ordering};

/// Which of the two threads of an owner's session have ended, so that the other one ends quietly. No contract speaks
/// of it.
#[derive(Drop)]
pub(crate) struct Ending {
    forwarder: AtomicBool,
    owner: AtomicBool,
}

impl Ending {
    pub(crate) fn new() -> Ending {
        Ending {
            forwarder: AtomicBool::new(false),
            owner: AtomicBool::new(false),
        }
    }

    pub(crate) fn forwarder_ends(&self) {
        self.forwarder.store(true, Ordering::SeqCst);
    }

    pub(crate) fn owner_ends(&self) {
        self.owner.store(true, Ordering::SeqCst);
    }

    pub(crate) fn has_forwarder_ended(&self) -> bool {
        self.forwarder.load(Ordering::SeqCst)
    }

    pub(crate) fn has_owner_ended(&self) -> bool {
        self.owner.load(Ordering::SeqCst)
    }
}
