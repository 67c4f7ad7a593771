ghost use Rattle.std.specs.Prelude.{◌≡◌, ◌≢◌, ◌≤◌, [], ◌∷◌, List, None, length, IfOk, IfErr, IfSome};
ghost use Rattle.fare_collect.specs.Collected.{HaveDevices};
ghost use Rattle.fare_collect.specs.Resuming.{AreStations};
ghost use Rattle.fare_scheme.specs.Words.{position_of_owner};
ghost use Rattle.fare_sessions.specs.Running.{AreRunnable};
ghost use Rattle.fare_sessions.specs.Stores.{HasLedgers};
ghost use Rattle.fare_sessions.specs.declared.session.Session.{Session};
ghost use Rattle.fare_sessions.specs.declared.session.Session.TheVariants.{Serve};
ghost use Rattle.fare_serve.specs.Calls.{HasHeldStations, HasEnded, HasHeld, HasHeldOwner, ending_of, first_ending, stations_in};
ghost use Rattle.fare_serve.specs.Rounds.{HasFailedRound};

use crate::fault::ServeFault;
use fare_collect::Station;
use fare_record::OwnerId;
use fare_session::{Gate, Pace, SessionFault};
use fare_sessions::{Hub, Session, SessionsReport};
use fare_source::Source;
use fare_store::{Ledger, Outbox};
use fare_supervisor::Supervisor;
use std::alloc::Global;
use std::slice;
use std::sync::Wait;
use std::thread::Threads;
use std::time::Clock;

// The fault that ends all, where a session's is one of memory or of a store.
fn ending(fault: SessionFault) -> Option<ServeFault>
    ensures value { result ≡ ending_of fault }
    ensures kind { IfSome result (λ fault. fault ≢ ServeFault.Write) }
{
    match fault {
        SessionFault::Memory => Some(ServeFault::Memory),
        SessionFault::Store => Some(ServeFault::Store),
        SessionFault::Source(_) | SessionFault::Unexpected(_) | SessionFault::Refused => None,
    }
}

// The first of these faults that ends all.
fn first_ending_of(faults: &[(usize, SessionFault)]) -> Option<ServeFault>
    ensures value { result ≡ first_ending faults.now }
    ensures kind { IfSome result (λ fault. fault ≢ ServeFault.Write) }
{
    for fault in faults {
        if let Some(fault) = ending(fault.1) {
            return Some(fault);
        }
    }
    None
}

// Sessions of a hub, unless there is no memory for them, or a fault of memory or of a store ends one. Each call has a
// supervisor of its own: that a validator loses its line is an everyday thing.
fn hold<
    S: Source + Send,
    O: Outbox + Send,
    L: Ledger + Send,
    G: Gate + Sync,
    R: Threads + Wait + Clock + Sync,
>(
    pace: &Pace<G, R>,
    alloc: Global,
    hub: &mut Hub<O, L>,
    sessions: &mut [Session<S>],
) -> Result<SessionsReport, ServeFault>
    requires ledgers { HasLedgers hub.old }
    requires can { AreRunnable hub.old.scheme sessions.old }
    ensures held { IfOk result (HasHeld S.talk O.standing L.standing hub.old hub.new sessions.old sessions.new) }
    ensures unended { IfOk result (λ report. first_ending report.faults.items ≡ None) }
    ensures ended { IfErr result (HasEnded S.talk O.standing L.standing hub.old hub.new sessions.old sessions.new) }
    ensures fault { IfErr result (λ fault. fault ≢ ServeFault.Write) }
{
    let supervisor = Supervisor::new(u32::MAX);
    let report = hub.sessions(pace, alloc, sessions, supervisor)?;
    match first_ending_of(&report.faults) {
        Some(fault) => Err(fault),
        None => Ok(report),
    }
}

// The stations of a session of theirs.
fn stations_in<S: Drop>(alloc: Global, session: Session<S>) -> Vec<Station<S>>
    ensures { result.items ≡ stations_in (session ∷ []) }
{
    match session {
        Session::Collect(stations) => stations,
        Session::Serve(_) => Vec::new(alloc),
    }
}

// A session of the stations: its report, and the stations again.
pub(crate) fn collect_once<
    S: Source + Drop + Send,
    O: Outbox + Send,
    L: Ledger + Send,
    G: Gate + Sync,
    R: Threads + Wait + Clock + Sync,
>(
    pace: &Pace<G, R>,
    alloc: Global,
    hub: &mut Hub<O, L>,
    stations: Vec<Station<S>>,
) -> Result<(SessionsReport, Vec<Station<S>>), ServeFault>
    requires ledgers { HasLedgers hub.old }
    requires few { length stations.items ≤ 16 }
    requires order { AreStations hub.old.scheme stations.items }
    requires all { length stations.items ≡ length hub.old.scheme.stations }
    requires devices { HaveDevices hub.old.scheme stations.items }
    ensures held { IfOk result (λ done. HasHeldStations S.talk O.standing L.standing hub.old hub.new stations done.0 done.1.items) }
    ensures failed { IfErr result (HasFailedRound S.talk O.standing L.standing hub.old hub.new stations.items) }
    ensures fault { IfErr result (λ fault. fault ≢ ServeFault.Write) }
{
    let mut session = Session::Collect(stations);
    let report = hold(pace, alloc, hub, slice::from_mut(&mut session))?;
    Ok((report, stations_in(alloc, session)))
}

// A session of an owner.
pub(crate) fn serve_once<
    S: Source + Drop + Send,
    O: Outbox + Send,
    L: Ledger + Send,
    G: Gate + Sync,
    R: Threads + Wait + Clock + Sync,
>(
    pace: &Pace<G, R>,
    alloc: Global,
    hub: &mut Hub<O, L>,
    place: usize,
    owner: OwnerId,
) -> Result<SessionsReport, ServeFault>
    requires ledgers { HasLedgers hub.old }
    requires known { position_of_owner hub.old.scheme owner ≡ Some place }
    ensures held { IfOk result (HasHeldOwner S.talk O.standing L.standing hub.old hub.new owner) }
    ensures ended { IfErr result (λ fault. (news : List (Session S)) × HasEnded S.talk O.standing L.standing hub.old hub.new (Serve owner ∷ []) news fault) }
    ensures fault { IfErr result (λ fault. fault ≢ ServeFault.Write) }
{
    let mut sessions: [Session<S>; 1] = [Session::Serve(owner)];
    hold(pace, alloc, hub, &mut sessions)
}
