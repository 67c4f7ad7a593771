//! A hub of one owner, a session of its stations and then one of the owner, and what is to be seen of the two.
ghost use Rattle.std.specs.Prelude.{◌≡◌, ◌∷◌, [], None, false, slice_get, IfSome};
ghost use Rattle.fare_agreement.specs.Totals.{had_by};
ghost use Rattle.fare_sessions.specs.Promises.{IsAdded};
ghost use Rattle.fare_sessions.specs.Stores.{AreLive, AreSound, held_by_all};
ghost use Rattle.fare_scripts.specs.Sources.{AreSourcesIn};

use crate::scripts::{Script, sources_of};
use fare_collect::stations_of;
use fare_record::OwnerId;
use fare_scheme::Scheme;
use fare_session::{Gate, Pace, Point, SessionFault};
use fare_sessions::{Hub, Session, SessionsReport};
use fare_store::{Ledger, Outbox};
use fare_supervisor::Supervisor;
use std::alloc::Global;
use std::sync::Wait;
use std::thread::Threads;
use std::time::Clock;

/// A gate that holds nothing.
pub struct Open;

impl Gate for Open {
    fn pass(&self, _point: Point) {}
}

/// A fault, if there is one, with the place of its session.
pub type Placed = Option<(usize, SessionFault)>;

/// What is to be seen of a list of sessions.
#[derive(Clone, Copy, PartialEq, Eq, Debug)]
pub struct Seen {
    /// How many items were stored.
    pub stored: u64,
    /// How many were taken.
    pub taken: u64,
    /// How many were left in lane queues.
    pub left: u64,
    /// The first faults.
    pub faults: [Placed; 3],
    /// Whether the supervisor gave up.
    pub gave_up: bool,
}

/// What is to be seen in a report.
pub fn seen_in(report: &SessionsReport) -> Seen
    ensures { result ≡ record { stored = report.now.stored; taken = report.now.taken; left = report.now.left; faults = slice_get report.now.faults.items 0 ∷ slice_get report.now.faults.items 1 ∷ slice_get report.now.faults.items 2 ∷ []; gave_up = report.now.gave_up } }
{
    let faults = &report.faults;
    Seen {
        stored: report.stored,
        taken: report.taken,
        left: report.left,
        faults: [
            faults.first().copied(),
            faults.get(1).copied(),
            faults.get(2).copied(),
        ],
        gave_up: report.gave_up,
    }
}

/// So many items were stored and taken, and nothing else.
pub fn whole(stored: u64, taken: u64) -> Seen
    ensures { result ≡ record { stored = stored; taken = taken; left = 0; faults = None ∷ None ∷ None ∷ []; gave_up = false } }
{
    Seen {
        stored,
        taken,
        left: 0,
        faults: [None; 3],
        gave_up: false,
    }
}

/// The sources of a session of the stations, in their order; none of another session.
pub fn sources_in(alloc: Global, session: Session<Script>) -> Option<Vec<Script>>
    ensures { IfSome result (λ sources. AreSourcesIn session sources.items) }
{
    match session {
        Session::Collect(stations) => sources_of(alloc, stations),
        Session::Serve(_) => None,
    }
}

/// A session of the stations over these sources and then one of owner 1, with a supervisor that answers so many faults
/// with a restart: what is to be seen then, and the sources again.
pub fn collected_and_served<O: Outbox + Send, L: Ledger + Send, R: Threads + Wait + Clock + Sync>(
    rt: &R,
    alloc: Global,
    hub: &mut Hub<O, L>,
    sources: Vec<Script>,
    limit: u32,
) -> Option<(Seen, Vec<Script>)>
    ensures scheme { hub.new.scheme ≡ hub.old.scheme }
    ensures stored { AreLive O.standing L.standing hub.new → AreSound O.standing L.standing hub.old → IfSome result (λ came. IsAdded (had_by hub.old.scheme (O.standing hub.old.outbox).value) (had_by hub.old.scheme (O.standing hub.new.outbox).value) came.0.stored) }
    ensures taken { AreLive O.standing L.standing hub.new → AreSound O.standing L.standing hub.old → IfSome result (λ came. IsAdded (held_by_all L.standing hub.old.scheme hub.old.ledgers.items) (held_by_all L.standing hub.old.scheme hub.new.ledgers.items) came.0.taken) }
{
    let owner = OwnerId::new(1)?;
    hub.scheme.owner_position(owner)?;
    let stations = stations_of(alloc, &hub.scheme, sources).ok()?;
    if stations.len() > 16 || hub.ledgers.len() != hub.scheme.owner_count() {
        return None;
    }
    let mut sessions = [Session::Collect(stations), Session::Serve(owner)];
    let supervisor = Supervisor::new(limit);
    let pace = Pace {
        rt,
        gate: &Open,
        turns: 1_000_000,
    };
    let report = hub.sessions(&pace, alloc, &mut sessions, supervisor).ok()?;
    let [first, second] = sessions;
    drop(second);
    Some((seen_in(&report), sources_in(alloc, first)?))
}

/// A hub of one owner over these stores.
pub fn hub_of<O: Drop, L: Drop>(
    alloc: Global,
    scheme: Scheme,
    outbox: O,
    ledger: L,
) -> Option<Hub<O, L>>
    ensures scheme { IfSome result (λ hub. hub.scheme ≡ scheme) }
    ensures stores { IfSome result (λ hub. (hub.outbox ≡ outbox) × (hub.ledgers.items ≡ ledger ∷ [])) }
{
    let mut ledgers = Vec::new(alloc);
    ledgers.push(ledger).ok()?;
    Some(Hub {
        scheme,
        outbox,
        ledgers,
    })
}
