//! What the threads of a round have passed. No contract speaks of it.
use fare_record::StationId;
use fare_scheme::Scheme;
use std::array;
use std::sync::atomic::{AtomicBool, AtomicU64, Ordering};

/// How many stations a scheme has at most.
const MOST_STATIONS: usize = 16;

/// A station, and whether a frame came off its line; at a place where the scheme has none, no station.
#[derive(Drop)]
struct LineMark {
    station: Option<StationId>,
    was_read: AtomicBool,
}

/// Off which lines a frame came in a round, and how many commits there were.
#[derive(Drop)]
pub(crate) struct Marks {
    lines: [LineMark; MOST_STATIONS],
    outbox_commits: AtomicU64,
    ledger_commits: AtomicU64,
}

impl Marks {
    // Nothing was passed yet.
    pub(crate) fn new(scheme: &Scheme) -> Marks {
        Marks {
            lines: array::from_fn(|place| LineMark {
                station: scheme.station_at(place),
                was_read: AtomicBool::new(false),
            }),
            outbox_commits: AtomicU64::new(0),
            ledger_commits: AtomicU64::new(0),
        }
    }

    // The mark of a station's line.
    fn mark_of(&self, station: StationId) -> Option<&LineMark> {
        self.lines.iter().find(|mark| mark.station == Some(station))
    }

    // A frame came off the line of a station.
    pub(crate) fn mark_read(&self, station: StationId) {
        if let Some(mark) = self.mark_of(station) {
            mark.was_read.store(true, Ordering::SeqCst);
        }
    }

    // Whether one did.
    pub(crate) fn was_read(&self, station: StationId) -> bool {
        match self.mark_of(station) {
            Some(mark) => mark.was_read.load(Ordering::SeqCst),
            None => false,
        }
    }

    // The outbox committed what stations sent.
    pub(crate) fn mark_outbox_commit(&self) {
        self.outbox_commits.fetch_add(1, Ordering::SeqCst);
    }

    // A ledger committed what its owner took.
    pub(crate) fn mark_ledger_commit(&self) {
        self.ledger_commits.fetch_add(1, Ordering::SeqCst);
    }

    pub(crate) fn outbox_commits(&self) -> u64 {
        self.outbox_commits.load(Ordering::SeqCst)
    }

    pub(crate) fn ledger_commits(&self) -> u64 {
        self.ledger_commits.load(Ordering::SeqCst)
    }
}
