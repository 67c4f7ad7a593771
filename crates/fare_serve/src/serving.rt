ghost use Rattle.std.specs.Prelude.{◌≡◌, ◌≢◌, ◌≤◌, false, length, vec_len, is_none, IsTrue, OnOk, IfErr};
ghost use Rattle.std.specs.Io.KnownBytes.{Keeps};
ghost use Rattle.fare_sessions.specs.Stores.{HasLedgers};
ghost use Rattle.fare_serve.specs.Counting.{AreNoCounts};
ghost use Rattle.fare_serve.specs.Serving.{HasFailedHeld, HasFailedLines, HasHeldRound, HasHeldRounds, HasServedLines, HaveFailed, reads_to_ends};

use crate::counts::write_counts;
use crate::fault::ServeFault;
use crate::gate::RoundGate;
use crate::gathering::Lines;
use crate::lending::{lend_all, take_all_back};
use crate::limits::Limits;
use crate::pause::Pause;
use crate::progress::Progress;
use crate::rounds::serve_round;
use crate::seats::Rule;
use fare_collect::{StationsFault, stations_of};
use fare_session::Pace;
use fare_sessions::Hub;
use fare_store::{Ledger, Outbox};
use std::alloc::Global;
use std::fs;
use std::io::Write;
use std::net::TcpListener;
use std::sync::Wait;
use std::thread::Threads;
use std::time::Clock;

// Whether the file is there whose presence ends serving. Where the system doesn't say, it isn't.
fn is_told(rt: &HostRuntime, until: Option<&str>) -> bool
    ensures { IsTrue result → is_none until.entry ≡ false }
{
    match until {
        Some(path) => fs::exists(rt, path).unwrap_or(false),
        None => false,
    }
}

// Whether lines are read to their ends: in one round, which no file ends.
fn reads_to_ends(limits: Limits, until: Option<&str>) -> bool
    ensures { result ≡ reads_to_ends limits.rounds (is_none until.entry) }
{
    limits.rounds <= 1 && until.is_none()
}

// How often a line may be read: in shifts, as long as it stands.
fn reads_of(limits: Limits, whole: bool) -> u64 {
    if whole {
        u64::from(limits.turns)
    } else {
        u64::MAX
    }
}

// Which of two lines of a station has the seat in a round.
fn rule_of(round: u32) -> Rule
    ensures { result ≡ Rule.First → round ≡ 0 }
{
    if round == 0 { Rule::First } else { Rule::Last }
}

// One round over the lines that are there.
fn hold_round<O: Outbox + Send, L: Ledger + Send, R: Threads + Wait + Clock + Eprint + Sync>(
    rt: &R,
    alloc: Global,
    hub: &mut Hub<O, L>,
    limits: Limits,
    whole: bool,
    lines: &mut Lines,
    progress: &mut Progress,
) -> Result<(), ServeFault>
    requires ledgers { HasLedgers hub.old }
    requires seats { vec_len lines.old.seats ≡ length hub.old.scheme.stations }
    requires few { vec_len lines.old.seats ≤ 16 }
    requires owners { length progress.old.counts.taken.items ≡ length hub.old.scheme.owners }
    ensures held { OnOk result (HasHeldRound O.standing L.standing hub.old hub.new whole progress.old.counts progress.new.counts lines.old.seats.items lines.new.seats.items) }
    ensures failed { IfErr result (HasFailedHeld O.standing L.standing hub.old hub.new lines.old.seats.items) }
    ensures seats { vec_len lines.new.seats ≡ vec_len lines.old.seats }
    ensures fault { IfErr result (λ fault. fault ≢ ServeFault.Write) }
{
    let gate = RoundGate::new(rt, &hub.scheme, whole, limits);
    let shifts = lend_all(alloc, whole, &mut lines.seats)?;
    let stations = match stations_of(alloc, &hub.scheme, shifts) {
        Ok(stations) => stations,
        Err(StationsFault::Memory) => return Err(ServeFault::Memory),
        Err(StationsFault::Range) => unreachable!(),
    };
    let pace = Pace {
        rt,
        gate: &gate,
        turns: u64::from(limits.turns),
    };
    let counts = &mut progress.counts;
    let (report, stations) = serve_round(&pace, alloc, hub, stations, counts)?;
    let seen = &mut progress.seen;
    seen.note_round(rt, gate.marks(), gate.passed());
    take_all_back(rt, whole, stations, &report.faults, &mut lines.seats, seen);
    progress.rounds = progress.rounds.saturating_add(1);
    Ok(())
}

// Rounds, one after the other, each behind pauses: at most so many as the limits say, or to the one after which the file is
// there.
fn hold_rounds<
    O: Outbox + Send,
    L: Ledger + Send,
    P: Pause<O, L>,
    R: Threads + Wait + Clock + Eprint + Sync,
>(
    rt: &HostRuntime,
    handles: &R,
    listener: &TcpListener,
    hub: &mut Hub<O, L>,
    limits: Limits,
    until: Option<&str>,
    pauses: &mut P,
    progress: &mut Progress,
) -> Result<(), ServeFault>
    requires ledgers { HasLedgers hub.old }
    requires none { AreNoCounts hub.old.scheme progress.old.counts }
    ensures held { OnOk result (HasHeldRounds P.does O.standing L.standing hub.old hub.new limits.rounds (is_none until.entry) progress.new.counts) }
    ensures failed { IfErr result (HaveFailed P.does O.standing L.standing hub.old hub.new) }
    ensures fault { IfErr result (λ fault. fault ≢ ServeFault.Write) }
{
    let alloc = rt.alloc();
    let whole = reads_to_ends(limits, until);
    let mut lines = Lines::new(alloc, &hub.scheme, reads_of(limits, whole))?;
    for round in 0..limits.rounds.max(1) {
        let rule = rule_of(round);
        lines.gather(rt, handles, listener, hub, limits, rule, pauses, progress);
        hold_round(handles, alloc, hub, limits, whole, &mut lines, progress)?;
        if is_told(rt, until) {
            return Ok(());
        }
    }
    Ok(())
}

/// Serves the stations that come to a listener, which must not block, and the owners, in rounds; and writes what came
/// of them: `stored N`, `taken OWNER N` for each owner, and `left N`, each the sum over all sessions.
///
/// A round is a session of all stations and then one of each owner. There are as many as the limits say, at least one;
/// fewer where a file is named, and is there when a round has ended. Where there is but one round, and no file is
/// named, each line is read to its end; else in shifts, one a round: all lines are read until none of them has brought
/// anything for as long as `patience` reads may take, or the round has lasted so many milliseconds as the limits say,
/// and each goes on in the next one. Where the clock fails each line is read once a round. Before the first round
/// connections are taken until each station has one, in at most so many attempts as there are turns, and in one at
/// least; before each other those that have come, and where no station has a line, a short while is waited for one. At
/// most 16 connections wait for their greeting at once, each for at most 100 reads. One that doesn't greet, or not as a
/// device of the scheme, is let go, and so is a second one of a station before the first round, unless the first is
/// over. Between rounds the newer line of a station replaces the older one. A station that has no line takes part in a
/// round with one that is at its end; one whose line has ended or broken has none till its validator comes again.
/// Behind each attempt to take connections the hub is at rest, and what is done then is the pauses'.
///
/// `Memory` or `Store` where that is the first such fault of a session, in their order, and none follows it then;
/// `Memory` also where there is none for a line's seat, a station or a session's list of faults, or for the text;
/// nothing was written then. `Write` where the writer failed. Whatever ended it, the stores hold what the sessions and
/// the pauses up to there made of them.
pub fn serve_rounds<
    O: Outbox + Send,
    L: Ledger + Send,
    P: Pause<O, L>,
    W: Write,
    R: Threads + Wait + Clock + Eprint + Sync,
>(
    rt: &HostRuntime,
    handles: &R,
    listener: &TcpListener,
    hub: &mut Hub<O, L>,
    limits: Limits,
    until: Option<&str>,
    pauses: &mut P,
    output: &mut W,
) -> Result<(), ServeFault>
    requires ledgers { HasLedgers hub.old }
    ensures served { OnOk result (HasServedLines P.does O.standing L.standing hub.old hub.new limits.rounds (is_none until.entry) (W.contents output.old) (W.contents output.new)) }
    ensures failed { IfErr result (HasFailedLines P.does O.standing L.standing hub.old hub.new) }
    ensures kept { IfErr result (λ fault. fault ≢ ServeFault.Write → Keeps (W.contents output.old) (W.contents output.new)) }
{
    let alloc = rt.alloc();
    let mut progress = Progress::none(alloc, &hub.scheme)?;
    hold_rounds(
        rt,
        handles,
        listener,
        hub,
        limits,
        until,
        pauses,
        &mut progress,
    )?;
    write_counts(alloc, &progress.counts, output)?;
    Ok(())
}
