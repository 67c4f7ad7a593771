ghost use Rattle.std.specs.Prelude.{◌≡◌, IfOk, length, true, vec_len};
ghost use Rattle.fare_serve.specs.Lending.{AreBack, AreLent, HasLent, IsBack, IsFresh, fault_in};
ghost use Rattle.fare_serve.specs.Lines.{absent_line};
ghost use Rattle.fare_serve.specs.Serving.{AreWhole};

use crate::line::{Line, LineSource};
use crate::seats::Seat;
use crate::seen::Seen;
use crate::telling::{tell_broken, tell_ended};
use fare_collect::Station;
use fare_net::NetSource;
use fare_record::StationId;
use fare_scheme::Scheme;
use fare_session::SessionFault;
use fare_source::Shift;
use std::alloc::{AllocError, Global};
use std::mem;

/// How many frames of one line a round takes at most; the others wait for the next round.
const MOST_FRAMES: u64 = 65_536;

// A source that is at its end, and whose answers go nowhere.
fn absent(alloc: Global) -> Result<LineSource, AllocError>
    ensures { IfOk result (λ source. source ≡ absent_line) }
{
    NetSource::new(alloc, Line::Absent, Line::Absent, 1)
}

// The line of a seat, or one that is at its end; the seat is free afterwards only where it was.
fn lend(alloc: Global, seat: &mut Seat) -> Result<LineSource, AllocError>
    ensures { IfOk result (HasLent seat.old seat.new) }
{
    if seat.is_free() {
        return absent(alloc);
    }
    match mem::replace(seat, Seat::Lent) {
        Seat::Held(source) => Ok(source),
        Seat::Free | Seat::Lent => absent(alloc),
    }
}

// A shift of a line: the whole, or as much as a round takes, whose gate ends it.
fn shift_of(source: LineSource, whole: bool) -> Shift<LineSource>
    ensures source { result.source ≡ source }
    ensures fresh { IsFresh whole result }
{
    if whole {
        Shift::whole(source)
    } else {
        Shift::new(source, u64::MAX, MOST_FRAMES)
    }
}

// A shift of each station's line, in their order.
pub(crate) fn lend_all(
    alloc: Global,
    whole: bool,
    seats: &mut [Seat],
) -> Result<Vec<Shift<LineSource>>, AllocError>
    ensures each { IfOk result (λ shifts. vec_len shifts ≡ length seats.old) }
    ensures whole { IfOk result (λ shifts. whole ≡ true → AreWhole shifts.items) }
    ensures lent { IfOk result (λ shifts. AreLent whole seats.old seats.new shifts.items) }
{
    let mut shifts = Vec::with_capacity(alloc, seats.len())?;
    for seat in seats.iter_mut() {
        let source = lend(alloc, seat)?;
        shifts.push_reserved(shift_of(source, whole));
    }
    Ok(shifts)
}

// The fault of a station's line among these, if it met one.
fn fault_of(station: StationId, faults: &[(usize, SessionFault)]) -> Option<SessionFault>
    ensures { result ≡ fault_in station faults.now }
{
    for fault in faults {
        match fault.1 {
            SessionFault::Source(other) | SessionFault::Unexpected(other) => {
                if other == station {
                    return Some(fault.1);
                }
            }
            SessionFault::Refused | SessionFault::Memory | SessionFault::Store => {}
        }
    }
    None
}

// Takes a station's line back into its seat, unless it broke or is over. What it was answered goes out before.
fn take_back<R: Eprint>(
    rt: &R,
    whole: bool,
    station: Station<Shift<LineSource>>,
    faults: &[(usize, SessionFault)],
    seat: &mut Seat,
    seen: &mut Seen,
)
    ensures { IsBack faults.now station seat.old seat.new }
{
    let (collector, shift) = station.into_parts();
    let id = collector.station();
    let mut source = shift.into_source();
    source.flush();
    if !seat.is_lent() {
        return;
    }
    if let Some(fault) = fault_of(id, faults) {
        tell_broken(rt, id, &fault, seen);
        *seat = Seat::Free;
    } else if source.is_over() {
        if !whole {
            tell_ended(rt, id);
        }
        *seat = Seat::Free;
    } else {
        *seat = Seat::Held(source);
    }
}

// Takes the lines of a round's stations back into their seats, but for those that broke or are over.
pub(crate) fn take_all_back<R: Eprint>(
    rt: &R,
    whole: bool,
    stations: Vec<Station<Shift<LineSource>>>,
    faults: &[(usize, SessionFault)],
    seats: &mut [Seat],
    seen: &mut Seen,
)
    ensures { AreBack faults.now stations.items seats.old seats.new }
{
    let mut stations = stations;
    while let Some(station) = stations.pop() {
        let place = stations.len();
        if place < seats.len() {
            take_back(rt, whole, station, faults, &mut seats[place], seen);
        }
    }
}
