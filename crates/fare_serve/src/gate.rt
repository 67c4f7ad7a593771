use crate::limits::Limits;
use crate::marks::Marks;
use fare_scheme::Scheme;
use fare_session::{Gate, Point};
use std::sync::atomic::{AtomicBool, AtomicU64, Ordering};
use std::time::{Clock, Instant};

/// The gate of a round: no thread is held, and one that waits for long naps. The stations are read no more once none of
/// their lines has brought anything for a while, or once the round has lasted long enough. It marks off which lines frames
/// came, and counts commits. No contract speaks of it.
#[derive(Drop)]
pub(crate) struct RoundGate<'a, R> {
    rt: &'a R,
    // lines are read to their ends, and nothing else ends the round
    whole: bool,
    // when the round began; none where the clock failed
    begin: Option<Instant>,
    // how many milliseconds it lasts at most, and how many it goes on where no line brings anything
    most: u64,
    quiet: u64,
    // how many milliseconds had passed when a line brought something last
    last: AtomicU64,
    // a station has seen that it is over: so it is for the others too, whatever their lines still bring
    over: AtomicBool,
    marks: Marks,
}

impl<'a, R: Clock> RoundGate<'a, R> {
    /// The gate of a round of these stations that begins now, and in which lines are read to their ends or not.
    pub(crate) fn new(rt: &'a R, scheme: &Scheme, whole: bool, limits: Limits) -> RoundGate<'a, R> {
        let quiet = u64::from(limits.patience.max(1)).saturating_mul(u64::from(limits.read_millis));
        RoundGate {
            rt,
            whole,
            begin: Instant::now(rt).ok(),
            most: u64::from(limits.round_millis),
            quiet,
            last: AtomicU64::new(0),
            over: AtomicBool::new(false),
            marks: Marks::new(scheme),
        }
    }

    // What its threads have passed.
    pub(crate) fn marks(&self) -> &Marks {
        &self.marks
    }

    // How many milliseconds of the round have passed; `None` where the clock fails.
    pub(crate) fn passed(&self) -> Option<u64> {
        let now = Instant::now(self.rt).ok()?;
        u64::try_from(now.duration_since(self.begin?).as_millis()).ok()
    }

    // Notes that a line has brought something, where that keeps the round open.
    fn note_put(&self) {
        if self.whole {
            return;
        }
        if let Some(passed) = self.passed() {
            self.last.store(passed, Ordering::SeqCst);
        }
    }

    // Whether no line has brought anything for long enough, or it has lasted long enough; also where the clock fails, so
    // that each line is read once a round then.
    fn has_lasted(&self) -> bool {
        let Some(passed) = self.passed() else {
            return true;
        };
        let quiet = passed.saturating_sub(self.last.load(Ordering::SeqCst));
        passed >= self.most || quiet >= self.quiet
    }
}

impl<'a, R: Clock> Gate for RoundGate<'a, R> {
    fn pass(&self, point: Point) {
        match point {
            Point::StationRead(station) => self.marks.mark_read(station),
            Point::StationPut => self.note_put(),
            Point::WriterCommitted => self.marks.mark_outbox_commit(),
            Point::OwnerCommitted => self.marks.mark_ledger_commit(),
            Point::ForwardPut | Point::OwnerTook | Point::WriterStored => {}
        }
    }

    fn naps(&self) -> bool {
        true
    }

    fn is_over(&self) -> bool {
        if self.whole {
            return false;
        }
        if self.has_lasted() {
            self.over.store(true, Ordering::SeqCst);
        }
        self.over.load(Ordering::SeqCst)
    }
}
