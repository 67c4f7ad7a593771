use std::sync::atomic::{AtomicBool, AtomicU64, Ordering};

/// How many stations' threads have ended, and whether the writer's has, so that the others end quietly. No contract
/// speaks of it.
#[derive(Drop)]
pub(crate) struct Ended {
    stations: AtomicU64,
    writer: AtomicBool,
}

impl Ended {
    pub(crate) fn new() -> Ended {
        Ended {
            stations: AtomicU64::new(0),
            writer: AtomicBool::new(false),
        }
    }

    pub(crate) fn station_ends(&self) {
        self.stations.fetch_add(1, Ordering::SeqCst);
    }

    pub(crate) fn writer_ends(&self) {
        self.writer.store(true, Ordering::SeqCst);
    }

    pub(crate) fn stations(&self) -> u64 {
        self.stations.load(Ordering::SeqCst)
    }

    pub(crate) fn has_writer_ended(&self) -> bool {
        self.writer.load(Ordering::SeqCst)
    }
}
