//! How a station waits: for what its source says, for room in the inbox, and for an answer.
use fare_session::{Gate, Turns};
use std::thread;
use std::time::{Clock, Duration};

// So often a station that waits for an answer lets others go first, and so often it then naps, until it reads on without
// that.
const YIELDS: u32 = 64;

const NAPS: u32 = 20;

/// The turns of a station's thread, and how long it still waits for the answer to what it put last before it asks its
/// source for more: none may come, as for a tap that was stored before. No contract speaks of it.
#[derive(Drop)]
pub(crate) struct Pacing {
    turns: Turns,
    due: u32,
}

impl Pacing {
    /// So many turns, and no answer is due yet.
    pub(crate) fn new(turns: u64) -> Pacing {
        Pacing {
            turns: Turns::new(turns),
            due: 0,
        }
    }

    /// An item was put into the inbox: its answer is due.
    pub(crate) fn put(&mut self) {
        self.turns.found();
        self.due = YIELDS + NAPS;
    }

    /// An answer came.
    pub(crate) fn answered(&mut self) {
        self.due = 0;
    }

    /// Whether an answer is still waited for; where the source has more to say, that comes first.
    pub(crate) fn holds(&self, has_more: bool) -> bool {
        self.due > 0 && !has_more
    }

    /// The station waits a while for the answer that is due.
    pub(crate) fn wait<G: Gate, R: Clock>(&mut self, rt: &R, gate: &G) {
        if self.due <= NAPS && gate.naps() {
            thread::sleep(rt, Duration::from_millis(1));
        } else {
            thread::yield_now();
        }
        self.due = self.due.saturating_sub(1);
    }

    /// An attempt found nothing: the thread lets others go first.
    pub(crate) fn spend<G: Gate, R: Clock>(&mut self, rt: &R, gate: &G) {
        self.turns.spend(rt, gate);
    }

    /// Whether the thread ends where its source has nothing to say: all turns were used up in a row, or the session has
    /// lasted long enough.
    pub(crate) fn is_over<G: Gate>(&self, gate: &G) -> bool {
        self.turns.are_used_up() || gate.is_over()
    }

    /// Whether all turns were used up in a row.
    pub(crate) fn are_used_up(&self) -> bool {
        self.turns.are_used_up()
    }
}
