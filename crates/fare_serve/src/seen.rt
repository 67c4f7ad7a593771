//! What is seen of lines and rounds. No contract speaks of it: it tells an operator where to look.
use crate::marks::Marks;
use crate::reasons::{BrokenLines, RefusedLines};
use crate::seats::Seat;
use fare_record::StationId;
use fare_scheme::Scheme;
use std::alloc::{AllocError, Global};
use std::time::{Clock, SystemTime};

/// What is seen of the line of a station.
#[derive(Clone, Copy, PartialEq, Eq, Debug)]
pub struct LineSeen {
    pub station: StationId,
    /// Whether it has a line now.
    pub is_up: bool,
    /// When a round ended last in which a frame came off its line, in seconds since 1970-01-01T00:00:00Z; `None` where
    /// none has come since serving began.
    pub last_frame: Option<u64>,
}

/// What is seen of lines and rounds since serving began. Each count stays at 2^64 - 1.
#[derive(Drop)]
pub struct Seen {
    /// The lines that were refused.
    pub refused: RefusedLines,
    /// How many lines were replaced by another one of their station.
    pub replaced: u64,
    /// The lines that broke.
    pub broken: BrokenLines,
    /// The stations' lines, in the order of registration.
    pub lines: Vec<LineSeen>,
    /// How many milliseconds the last round took; `None` before the first one has ended.
    pub round_millis: Option<u64>,
    /// How many commits of what the stations sent there were in the outbox.
    pub outbox_commits: u64,
    /// How many commits of what the owners took there were in the ledgers.
    pub ledger_commits: u64,
}

// How many seconds have passed since 1970-01-01T00:00:00Z; `None` where the clock fails.
fn seconds_now<R: Clock>(rt: &R) -> Option<u64> {
    let now = SystemTime::now(rt).ok()?;
    Some(now.duration_since(SystemTime::UNIX_EPOCH).ok()?.as_secs())
}

impl Seen {
    // Nothing was seen yet.
    pub(crate) fn none(alloc: Global, scheme: &Scheme) -> Result<Seen, AllocError> {
        let mut lines = Vec::with_capacity(alloc, scheme.station_count())?;
        for station in scheme.stations() {
            lines.push(LineSeen {
                station: *station,
                is_up: false,
                last_frame: None,
            })?;
        }
        Ok(Seen {
            refused: RefusedLines::none(),
            replaced: 0,
            broken: BrokenLines::none(),
            lines,
            round_millis: None,
            outbox_commits: 0,
            ledger_commits: 0,
        })
    }

    // Notes a line that another one of its station replaced.
    pub(crate) fn note_replaced(&mut self) {
        self.replaced = self.replaced.saturating_add(1);
    }

    // Notes which of the stations have a line, of whose these are the seats.
    pub(crate) fn note_lines(&mut self, seats: &[Seat]) {
        for place in 0..seats.len() {
            if let Some(line) = self.lines.get_mut(place) {
                line.is_up = !seats[place].is_free();
            }
        }
    }

    // Notes the time for each line off which a frame came.
    fn note_frames(&mut self, marks: &Marks, seconds: u64) {
        for line in self.lines.iter_mut() {
            if marks.was_read(line.station) {
                line.last_frame = Some(seconds);
            }
        }
    }

    // Notes a round that has ended, of which these are the marks, and which took so many milliseconds. What a clock that
    // fails would tell is left as it was.
    pub(crate) fn note_round<R: Clock>(&mut self, rt: &R, marks: &Marks, millis: Option<u64>) {
        self.outbox_commits = self.outbox_commits.saturating_add(marks.outbox_commits());
        self.ledger_commits = self.ledger_commits.saturating_add(marks.ledger_commits());
        if millis.is_some() {
            self.round_millis = millis;
        }
        if let Some(seconds) = seconds_now(rt) {
            self.note_frames(marks, seconds);
        }
    }
}
