ghost use Rattle.std.specs.Prelude.{◌≡◌, ◌≤◌, ◌↔◌, IfOk, IsTrue, length, vec_len};
ghost use Rattle.fare_serve.specs.Seats.{AreFree, AreSeatsAfter, HasTakenSeat, TellsOver};

use crate::guest::{Guest, MOST_GUESTS};
use crate::line::LineSource;
use crate::seen::Seen;
use crate::telling::{
    tell_came, tell_newer, tell_refused, tell_replaced, tell_second, tell_unheard,
};
use fare_record::StationId;
use fare_scheme::Scheme;
use fare_source::Source;
use std::alloc::{AllocError, Global};

/// A station's seat.
#[derive(Drop)]
pub(crate) enum Seat {
    /// It has no line: none came, or the last one ended or broke.
    Free,
    /// A session has its line.
    Lent,
    /// Its line.
    Held(LineSource),
}

impl Seat {
    // Whether it has no line, here or in a session.
    pub(crate) fn is_free(&self) -> bool
        ensures { IsTrue result ↔ (self.now ≡ Seat.Free) }
    {
        matches!(self, Seat::Free)
    }

    // Whether a session has its line.
    pub(crate) fn is_lent(&self) -> bool
        ensures { IsTrue result ↔ (self.now ≡ Seat.Lent) }
    {
        matches!(self, Seat::Lent)
    }
}

/// Which of two lines of a station has the seat.
#[derive(Clone, Copy, PartialEq, Eq)]
pub(crate) enum Rule {
    /// The one that came first, unless it is over: no session was held yet.
    First,
    /// The one that came last: a validator that comes again has lost its older line, whether the hub has noticed or not.
    Last,
}

// Whether a line that came before has nothing more to give.
fn is_over(seat: &mut Seat) -> bool
    ensures { TellsOver result seat.old seat.new }
{
    match seat {
        Seat::Held(source) => {
            source.is_ready();
            source.is_over()
        }
        Seat::Free | Seat::Lent => true,
    }
}

// Before the first round: the first line of a station that is not over keeps its seat.
fn keep_first<R: Eprint>(
    rt: &R,
    station: StationId,
    source: LineSource,
    seat: &mut Seat,
    seen: &mut Seen,
)
    ensures { HasTakenSeat Rule.First seat.old seat.new source }
{
    if !is_over(seat) {
        tell_second(rt, station, seen);
        return;
    }
    if !seat.is_free() {
        tell_replaced(rt, station, seen);
    }
    *seat = Seat::Held(source);
}

// Between rounds: the line that came last has the seat.
fn keep_last<R: Eprint>(
    rt: &R,
    station: StationId,
    source: LineSource,
    seat: &mut Seat,
    seen: &mut Seen,
)
    ensures { HasTakenSeat Rule.Last seat.old seat.new source }
{
    if seat.is_free() {
        tell_came(rt, station);
    } else {
        tell_newer(rt, station, seen);
    }
    *seat = Seat::Held(source);
}

// Gives a station's seat to a line that greeted, or leaves it to the one that has it, as the rule says.
fn take_seat<R: Eprint>(
    rt: &R,
    station: StationId,
    source: LineSource,
    rule: Rule,
    seat: &mut Seat,
    seen: &mut Seen,
)
    ensures { HasTakenSeat rule seat.old seat.new source }
{
    match rule {
        Rule::First => keep_first(rt, station, source, seat, seen),
        Rule::Last => keep_last(rt, station, source, seat, seen),
    }
}

// Seats a guest that was heard, or lets it go.
fn seat_guest<R: Eprint>(
    rt: &R,
    scheme: &Scheme,
    guest: Guest,
    rule: Rule,
    seats: &mut [Seat],
    seen: &mut Seen,
)
    ensures { AreSeatsAfter scheme.now rule seats.old seats.new }
{
    let mut source = guest.into_source();
    match source.hello(scheme) {
        Err(fault) => tell_refused(rt, fault, seen),
        Ok(station) => {
            if let Some(place) = scheme.station_position(station) {
                if place < seats.len() {
                    take_seat(rt, station, source, rule, &mut seats[place], seen);
                }
            }
        }
    }
}

// Hears each guest once: one whose first frame is there is seated or let go, and so is one that takes too long.
pub(crate) fn seat_guests<R: Eprint>(
    rt: &R,
    scheme: &Scheme,
    rule: Rule,
    guests: &mut Vec<Guest>,
    seats: &mut [Seat],
    seen: &mut Seen,
)
    ensures { AreSeatsAfter scheme.now rule seats.old seats.new }
{
    let mut place = 0;
    for _ in 0..MOST_GUESTS {
        if place >= guests.len() {
            return;
        }
        if guests[place].is_heard() {
            seat_guest(rt, scheme, guests.swap_remove(place), rule, seats, seen);
        } else if guests[place].is_overdue() {
            drop(guests.swap_remove(place));
            tell_unheard(rt, seen);
        } else {
            place += 1;
        }
    }
}

// Whether each station has a line.
pub(crate) fn are_taken(seats: &[Seat]) -> bool {
    seats.iter().all(|seat| !seat.is_free())
}

// Whether a station has one.
pub(crate) fn is_one_taken(seats: &[Seat]) -> bool {
    seats.iter().any(|seat| !seat.is_free())
}

// A seat for each station, of which none has a line.
pub(crate) fn free_seats(alloc: Global, scheme: &Scheme) -> Result<Vec<Seat>, AllocError>
    ensures each { IfOk result (λ seats. vec_len seats ≡ length scheme.now.stations) }
    ensures few { IfOk result (λ seats. vec_len seats ≤ 16) }
    ensures free { IfOk result (λ seats. AreFree seats.items) }
{
    let mut seats = Vec::with_capacity(alloc, scheme.station_count())?;
    for _ in 0..scheme.station_count() {
        seats.push(Seat::Free)?;
    }
    Ok(seats)
}
