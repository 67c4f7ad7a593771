ghost use Rattle.std.specs.Prelude.{◌≡◌, ◌≤◌, ◌<◌, IfOk, length, vec_len};
ghost use Rattle.fare_sessions.specs.Stores.{HasLedgers};
ghost use Rattle.fare_serve.specs.Pausing.{HasPausedSome};
ghost use Rattle.fare_serve.specs.Seats.{AreFree, AreSeatsGathered, AreSeats, AreSeatsAfter};

use crate::guest::{Guest, MOST_GUESTS, welcome};
use crate::limits::Limits;
use crate::pause::Pause;
use crate::progress::Progress;
use crate::seats::{Rule, Seat, are_taken, free_seats, is_one_taken, seat_guests};
use crate::seen::Seen;
use crate::telling::tell_absent;
use fare_scheme::Scheme;
use fare_sessions::Hub;
use fare_store::{Ledger, Outbox};
use std::alloc::{AllocError, Global};
use std::net::TcpListener;
use std::thread;
use std::time::{Clock, Duration};

/// How many milliseconds an attempt that found no guest waits for one.
const NAP: u64 = 1;

/// How many attempts a round behind the first makes where no station has a line.
const MOST_ATTEMPTS: u32 = 200;

// How many attempts there are: for the first round as many as there are turns, at least one.
fn attempts_of(limits: Limits, rule: Rule) -> u32
    ensures { 0 < result }
{
    match rule {
        Rule::First => limits.turns.max(1),
        Rule::Last => MOST_ATTEMPTS,
    }
}

/// The lines of a scheme's stations: a seat for each, in the order of registration, and the connections that have not
/// greeted yet.
#[derive(Drop)]
pub(crate) struct Lines {
    pub(crate) seats: Vec<Seat>,
    guests: Vec<Guest>,
    // how often a line may be read
    reads: u64,
}

impl Lines {
    // No line came yet.
    pub(crate) fn new(alloc: Global, scheme: &Scheme, reads: u64) -> Result<Lines, AllocError>
        ensures each { IfOk result (λ lines. vec_len lines.seats ≡ length scheme.now.stations) }
        ensures few { IfOk result (λ lines. vec_len lines.seats ≤ 16) }
        ensures free { IfOk result (λ lines. AreFree lines.seats.items) }
    {
        Ok(Lines {
            seats: free_seats(alloc, scheme)?,
            guests: Vec::with_capacity(alloc, MOST_GUESTS)?,
            reads,
        })
    }

    // One attempt: takes the connections that wait, as far as there is room, and hears each guest once.
    fn attempt<R: Eprint>(
        &mut self,
        rt: &R,
        alloc: Global,
        listener: &TcpListener,
        scheme: &Scheme,
        limits: Limits,
        rule: Rule,
        seen: &mut Seen,
    )
        ensures len { vec_len self.new.seats ≡ vec_len self.old.seats }
        ensures after { AreSeatsAfter scheme.now rule self.old.seats.items self.new.seats.items }
    {
        welcome(alloc, listener, limits, self.reads, &mut self.guests);
        seat_guests(rt, scheme, rule, &mut self.guests, &mut self.seats, seen);
        seen.note_lines(&self.seats);
    }

    // Whether a round may begin: the first one when each station has a line, another when one has.
    fn are_enough(&self, rule: Rule) -> bool {
        match rule {
            Rule::First => are_taken(&self.seats),
            Rule::Last => is_one_taken(&self.seats),
        }
    }

    // Tells of each station that has no line.
    fn tell_absent<R: Eprint>(&self, rt: &R, scheme: &Scheme) {
        for (seat, station) in self.seats.iter().zip(scheme.stations()) {
            if seat.is_free() {
                tell_absent(rt, *station);
            }
        }
    }

    // Takes lines for a round. For the first one until each station has one, in at most so many attempts as there are
    // turns, but in one at least; for another those that have come, and where no station has one it waits a short while.
    // Behind each attempt there is a pause, which is lent how far serving has come.
    pub(crate) fn gather<O: Outbox, L: Ledger, P: Pause<O, L>, R: Clock + Eprint>(
        &mut self,
        rt: &HostRuntime,
        handles: &R,
        listener: &TcpListener,
        hub: &mut Hub<O, L>,
        limits: Limits,
        rule: Rule,
        pauses: &mut P,
        progress: &mut Progress,
    )
        requires ledgers { HasLedgers hub.old }
        ensures len { vec_len self.new.seats ≡ vec_len self.old.seats }
        ensures gathered { (rule ≡ Rule.First → AreSeats hub.old.scheme self.old.seats.items) → AreSeatsGathered hub.old.scheme self.old.seats.items self.new.seats.items }
        ensures paused { HasPausedSome P.does O.standing L.standing hub.old hub.new }
        ensures counts { progress.new.counts ≡ progress.old.counts }
    {
        let alloc = rt.alloc();
        for _ in 0..attempts_of(limits, rule) {
            self.attempt(
                handles,
                alloc,
                listener,
                &hub.scheme,
                limits,
                rule,
                &mut progress.seen,
            );
            pauses.pause(rt, hub, progress);
            if self.are_enough(rule) {
                break;
            }
            if self.guests.is_empty() {
                thread::sleep(handles, Duration::from_millis(NAP));
            }
        }
        if rule == Rule::First {
            self.tell_absent(handles, &hub.scheme);
        }
    }
}
